//! Where a seat stands once its statement is done or refused.

ghost use Rattle.std.specs.Prelude.{◌≡◌};
ghost use Rattle.server_session.specs.Stages as spec;

use crate::stage::{Answering, Stage};
use sql_types::Reply;
use sql_value::Refusal;

/// A reply that is certain, and belongs to the script of the transaction.
pub fn said(reply: Reply) -> Stage
    ensures { result ≡ spec.said reply }
{
    Stage::Answering(Answering {
        reply,
        said: true,
        def: None,
    })
}

/// A reply that is certain, and doesn't come to the script of a transaction, or not any more.
pub fn unsaid(reply: Reply) -> Stage
    ensures { result ≡ spec.unsaid reply }
{
    Stage::Answering(Answering {
        reply,
        said: false,
        def: None,
    })
}

/// A statement is done: in a transaction that BEGIN opened its reply is certain, one of its own has its end
/// still to be fixed.
pub fn done(explicit: bool, reply: Reply) -> Stage
    ensures { result ≡ spec.done_stage explicit reply }
{
    if explicit {
        said(reply)
    } else {
        Stage::Replied(reply)
    }
}

/// A statement is refused, of which nothing is done.
pub fn stopped(refusal: Refusal) -> Stage
    ensures { result ≡ spec.stopped_stage refusal }
{
    unsaid(Reply::Refused(refusal))
}

/// A statement is refused behind the catalog's lock, and nothing else of it is done. With true, the lock is its
/// transaction's first there, and is given back.
pub fn stopped_behind_lock(fresh: bool, refusal: Refusal) -> Stage
    ensures { result ≡ spec.stopped_behind_lock fresh refusal }
{
    if fresh {
        Stage::GivingBack(refusal)
    } else {
        stopped(refusal)
    }
}
