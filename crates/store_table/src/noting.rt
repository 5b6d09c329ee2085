//! The leaves of events are noted in the context of their transaction.

ghost use Rattle.std.specs.Prelude.{◌≡◌, ◌<◌, ◌+◌, ◌^◌, length};
ghost use Rattle.spec_protocol.specs.Moves.{noting};
ghost use Rattle.spec_protocol.specs.Seats.{OpenTransaction};
ghost use Rattle.store_tx.specs.Represents.{IsOpen, Represents};
ghost use Rattle.store_table.specs.Made.{MayNoteAll, with_leaves};

use base_merkle::Hash32;
use base_types::{Blob, TableId};
use store_tx::TxCtx;

/// Adds the leaves to the tree of the table, one after another, and counts them. Takes no memory.
pub(crate) fn note_all<H: Hash32>(ctx: &mut TxCtx<H>, table: TableId, leaves: &[Blob])
    requires { MayNoteAll H.digest table (length leaves.now) ctx.old }
    ensures { (h : H) (o : OpenTransaction) → Represents H.digest h ctx.old o
        → Represents H.digest h ctx.new
        (noting (o.seq + length leaves.now) (with_leaves table leaves.now o.trees) o) }
{
    for leaf in leaves {
        ctx.note(table, leaf.bytes());
    }
}
