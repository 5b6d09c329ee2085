//! What a core leaves.

ghost use Rattle.std.specs.Prelude.{◌≡◌, map, OnOk};
ghost use Rattle.server_engine.specs.Written.{texts_shown};

use crate::session::Session;
use base_merkle::Hash32;
use base_types::{Blob, Items, Memory};
use sql_types::{Digest, Journal};
use std::alloc::Global;

/// What a core leaves once all its sessions are over.
#[derive(Drop)]
pub struct Parts<H: Hash32> {
    /// The bytes of the image of the whole journal.
    pub image: Blob,
    pub journal: Journal,
    /// In the order of issue.
    pub digests: Items<Digest>,
    /// In the order in which they began.
    pub sessions: Vec<Session<H>>,
}

/// All that each of these has shown becomes entries.
pub(crate) fn write_last_lines<H: Hash32>(
    alloc: Global,
    sessions: &mut Vec<Session<H>>,
) -> Result<(), Memory>
    ensures entries { OnOk result (map (λ y. y.entries) sessions.new.items
        ≡ map texts_shown sessions.old.items) }
    ensures images { OnOk result (map (λ y. y.images) sessions.new.items
        ≡ map (λ y. y.images) sessions.old.items) }
{
    for session in sessions.iter_mut() {
        session.write_last(alloc)?;
    }
    Ok(())
}
