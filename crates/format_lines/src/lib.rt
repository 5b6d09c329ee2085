//! Reads the input of the command `step`: a statement of a session in each line.
#![tactic(auto)]

mod law;
mod line;
mod lines;
mod names;

pub use law::{sessions_law, utf8_law};
pub use line::{InputErr, Line, before_blanks, behind_blanks, is_blank, is_skipped};
pub use lines::{first_line, read_lines};
pub use names::{MAX_SESSIONS, session_names};
