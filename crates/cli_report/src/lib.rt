//! What is told of a call on standard error: the lines of an input that only look as if they began a section, why a line
//! can't be read, and which statements were refused, by a source and a sink whose bytes are looked at as they pass; and
//! for how long a call has been at work. The source and the sink pass on what they are given, and the call is made; no
//! contract speaks of what is told.
#![tactic(auto)]

mod bad_line;
mod header;
mod progress;
mod section_watch;
mod statement_place;
mod transcript_watch;
mod watched_sink;
mod watched_source;

pub use bad_line::{BadLine, InputForm, explain_line};
pub use progress::with_progress;
pub use section_watch::SectionWatch;
pub use statement_place::{StatementPlace, place_of_statement};
pub use transcript_watch::{RefusedEntry, TranscriptWatch};
pub use watched_sink::WatchedSink;
pub use watched_source::WatchedSource;
