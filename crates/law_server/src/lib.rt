//! The server that the laws of cells and seats are about: nothing of it is free but the grammar and the hash.
#![tactic(auto)]

mod laws;

pub use laws::{
    cells_have_the_image_of_their_journal, such_a_server_hashes_and_keeps_so,
    there_is_such_a_server,
};
