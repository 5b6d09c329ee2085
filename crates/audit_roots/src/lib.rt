//! The roots of the rows of an image: whether the entries have them, as one thread goes through all tables, or as
//! groups of the tables are gone through apart, each by several threads.
#![tactic(auto)]

mod event_ids;
mod groups;
mod hashes;
mod leftover;
mod marks;
mod merged;
mod numbers;
mod roots;
mod shown;
mod workers;

pub use groups::{
    Fault, group_of, root_fault_is_merged, roots_of_groups_merge, wrong_root_in_group,
};
pub use leftover::left_over;
pub use merged::{lesser_root, root_place};
pub use roots::root_fault;
pub use shown::{ImageTable, shown_tables};
pub use workers::wrong_root_in_group_by;
