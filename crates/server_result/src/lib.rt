//! What a run leaves, however its sessions took turns: its text, its images, its journal and its digests.
#![tactic(auto)]

mod images;
mod moments;
mod ran;
mod settings;
mod spelled;
mod texts;

pub use images::add_images;
pub use moments::moment;
pub use ran::RunOutcome;
pub use settings::Settings;
pub use spelled::is_encodable;
pub use texts::push_texts;
