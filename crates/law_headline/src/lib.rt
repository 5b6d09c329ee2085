//! Every saved image is that of its committed transactions, and what is accepted with its digests is bound to
//! it: laws.
#![tactic(auto)]

mod behind;
mod laws;

pub use behind::saved_images_behind_a_past_are_serial_and_tamper_evident;
pub use laws::{
    accepted_images_are_bound, images_of_legal_journals_are_bound,
    saved_images_are_serial_and_tamper_evident,
};
