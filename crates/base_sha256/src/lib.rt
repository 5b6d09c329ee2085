//! SHA-256 (FIPS 180-4) of four messages at once, each in its lane of vectors.
#![tactic(auto)]

mod block;
mod hashing;
mod message;
mod rounds;
mod words;

pub use base_types::Hash;
pub use hashing::{digest, digest_four};
pub use message::Message;
