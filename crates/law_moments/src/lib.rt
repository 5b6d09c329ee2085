//! That what is new in a journal has moments of seats, and blocks of at most the block size.
#![tactic(auto)]

mod laws;

pub use laws::new_items_have_moments_of_seats;
