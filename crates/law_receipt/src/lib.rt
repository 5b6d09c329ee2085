//! Laws of receipts: made ones are accepted, and accepted ones agree, with each other and with images.
#![tactic(auto)]

mod laws;

pub use laws::{
    accepted_receipts_agree_with_images, accepted_receipts_of_one_place_are_one,
    made_receipts_are_accepted, receipts_of_legal_journals_are_accepted,
};
