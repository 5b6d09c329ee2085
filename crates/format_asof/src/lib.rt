//! The input of `asof`, a text in each line, and how the answers to the texts are written.
#![tactic(auto)]

mod answers;
mod texts;

pub use answers::push_answer;
pub use format_lines::InputErr;
pub use texts::read_texts;
