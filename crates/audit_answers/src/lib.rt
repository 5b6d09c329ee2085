//! An image verified, with what digests cover of it, and opened behind its first transactions for texts to be answered.
#![tactic(auto)]

mod answering;
mod coverage;

pub use answering::{Answers, AnswersErr, accepted, answer_texts};
pub use coverage::{Coverage, Judgement, coverage_of, coverage_text, judge};
