//! Laws of receipts of rows: made ones are accepted, and no image that is accepted with the digest can contradict
//! accepted ones.
#![tactic(auto)]

mod laws;

pub use laws::{
    accepted_row_receipts_agree_with_images, accepted_table_receipts_have_all_events,
    made_row_receipts_are_accepted, made_table_receipts_are_accepted,
    receipts_made_of_rows_are_accepted,
};
