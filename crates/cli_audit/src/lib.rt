//! The commands that read images, journals and receipts, with what they share with all others: how a call ends, and
//! how an input is read, names are looked up, files are put and a text is written.
#![tactic(auto)]

mod asof;
mod check;
mod ended;
mod extract;
mod files;
mod names;
mod past;
mod receipt;
mod replay;
mod status;
mod subject;
mod tell;
mod transfer;
mod upgrade;
mod verify;

pub use asof::{answer_as_of, read_whole};
pub use audit_answers::{Coverage, coverage_text};
pub use audit_any_receipt::Wanted;
pub use audit_replay::Past;
pub use check::check_receipt;
pub use ended::Ended;
pub use extract::compare_images;
pub use files::{File, file_of, image_file, put_and_write};
pub use past::read_past;
pub use receipt::make_receipt;
pub use replay::replay_journal;
pub use status::Status;
pub use tell::tell_text;
pub use transfer::{INPUT_LIMIT, ReadErr, read_input};
pub use upgrade::upgrade_image;
pub use verify::verify_image;
