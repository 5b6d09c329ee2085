//! Reads the input of the command `run`: the statements of a setup, and sections with those of a session or of a
//! snapshot each.
#![tactic(auto)]

mod all_sections;
mod kind;
mod law;
mod names;
mod section;

pub use all_sections::{RunSections, has_many_sessions, read_run_sections};
pub use kind::SectionKind;
pub use law::{form_law, sections_law, statements_law};
pub use section::{Section, SectionsErr};
