//! Snapshot readers: sessions that keep one image, and answer texts over it while other sessions go on.
#![tactic(auto)]

mod answering;
mod law;

pub use answering::push_answers;
pub use law::images_of_cuts_are_encodable;
