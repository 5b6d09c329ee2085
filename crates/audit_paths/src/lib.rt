//! Audit paths of Merkle trees (RFC 6962, section 2.1.1): that a leaf is in a tree, shown without the others.
#![tactic(auto)]

mod finding;
mod half;
mod laws;
mod nodes;
mod path;
mod side;

pub use finding::find_in_paths;
pub use laws::{
    audit_path_law, leaves_under_one_root_are_one, paths_lead_to_the_root,
    steps_lead_from_a_leaf_of_the_tree,
};
pub use path::{audit_path, audit_steps, root_over, root_under};
pub use side::Side;
