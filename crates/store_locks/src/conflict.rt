//! What stands against a want, and what answers it, among the holds at some places.

ghost use Rattle.std.specs.Prelude.{◌≡◌, ◌<◌, All, length};
ghost use Rattle.std.specs.List.{list_any};
ghost use Rattle.spec_model.specs.InTheWay.{barrier, bars, least_with, precedes};
ghost use Rattle.spec_model.specs.Holds.{answers};
ghost use Rattle.store_locks.specs.Index.{picked};

use crate::item::same_item;
use crate::mode::{conflicts, rank};
use base_types::TxId;
use sql_types::{Hold, LockRequest, Mode};

/// The least holder that bars the want.
#[tactic(auto, using(crate::proofs::Barriers::barrier_none, crate::proofs::Barriers::blocked_more, crate::proofs::Barriers::passed_more))]
pub(crate) fn barrier(
    holds: &[Hold],
    places: &[usize],
    tx: TxId,
    request: &LockRequest,
) -> Option<(TxId, Mode)>
    requires { All (λ place. place < length holds.now) places.now }
    ensures { result ≡ barrier (picked holds.now places.now) tx request.now }
{
    let mut least = None;
    for place in places {
        let hold = &holds[*place];
        if bars(tx, request, hold) {
            least = least_with(least, (hold.tx, hold.request.mode));
        }
    }
    least
}

fn least_with(best: Option<(TxId, Mode)>, a: (TxId, Mode)) -> Option<(TxId, Mode)>
    ensures { result ≡ least_with best a }
{
    match best {
        Some(b) if precedes(b, a) => best,
        _ => Some(a),
    }
}

fn precedes(a: (TxId, Mode), b: (TxId, Mode)) -> bool
    ensures { result ≡ precedes a b }
{
    a.0 < b.0 || a.0 == b.0 && rank(a.1) < rank(b.1)
}

// Whether the hold is another transaction's and can't stand beside the want.
fn bars(tx: TxId, request: &LockRequest, hold: &Hold) -> bool
    ensures { result ≡ bars tx request.now hold.now }
{
    hold.tx != tx
        && same_item(&request.item, &hold.request.item)
        && conflicts(request.mode, hold.request.mode)
}

/// Whether one of the holds is the transaction's, on the item that it wants and in the same mode.
#[tactic(auto, using(crate::proofs::Barriers::none_answers, crate::proofs::Barriers::answers_more, crate::proofs::Barriers::answers_there))]
pub(crate) fn already_holds(
    holds: &[Hold],
    places: &[usize],
    tx: TxId,
    request: &LockRequest,
) -> bool
    requires { All (λ place. place < length holds.now) places.now }
    ensures { result ≡ list_any (answers tx request.now) (picked holds.now places.now) }
{
    for place in places {
        if answers(tx, request, &holds[*place]) {
            return true;
        }
    }
    false
}

fn answers(tx: TxId, request: &LockRequest, hold: &Hold) -> bool
    ensures { result ≡ answers tx request.now hold.now }
{
    hold.tx == tx
        && same_item(&request.item, &hold.request.item)
        && rank(request.mode) == rank(hold.request.mode)
}
