//! Digest files: the digests of blocks that auditors keep, as JSON.
#![tactic(auto)]

mod digest_err;
mod laws;
mod moment;
mod reading;
mod writing;

pub use digest_err::DigestErr;
pub use laws::bytes_have_one_reading;
pub use reading::read_digests;
pub use sql_types::{Digest, HeldDigest};
pub use writing::write_digests;
