//! The end of a transaction, fixed in the ledger's cell without a commit.

ghost use Rattle.std.specs.Prelude.{◌≡◌};
ghost use Rattle.server_visit_ledger.specs.LedgerSeen.{ledger_seen};
ghost use Rattle.server_visit_ledger.specs.LedgerMoves.{AreFixed, HasEnded, VisitsOn, ended_after, inside_with};
ghost use Rattle.server_visit_ledger.specs.LedgerMoves.{work_of as work_at, ended_stage as ended_at};
ghost use Rattle.server_session.specs.Steps.{Among};
ghost use Rattle.server_visit_ledger.specs.declared.ledger_work.LedgerWork.TheVariants.{End};

use crate::ledger_work::without_index;
use base_merkle::Hash32;
use server_session::{ControlPoint, Running, Seat, Stage, put_point, unsaid};
use sql_types::{EndLine, Reply};
use std::mem;
use store_ledger::LedgerCell;

/// Ends the seat's transaction without a commit: it is rolled back, or its statement was refused, or its session
/// ends. Takes no memory.
pub(crate) fn end_uncommitted<H: Hash32>(seat: &mut Seat<H>, ledger: &LedgerCell)
    requires among { Among H.digest seat.old (ledger_seen ledger.now) }
    requires work { work_at seat.old.point ≡ End }
    ensures { VisitsOn H.digest seat.old (ledger_seen ledger.now) (ledger_seen ledger.now) seat.new }
{
    fix_end(seat, ledger.point());
}

/// The seat's transaction has ended, after so many that were committed.
pub(crate) fn fix_end<H: Hash32>(seat: &mut Seat<H>, after: u64)
    ensures { HasEnded H.digest after seat.old seat.new }
{
    end_running(&mut seat.running, after);
    let point = mem::replace(&mut seat.point, ControlPoint::Over);
    put_point(&mut seat.point, ended_point(point));
}

fn end_running<H: Hash32>(running: &mut Option<Running<H>>, after: u64)
    ensures { AreFixed H.digest (ended_after after) running.old running.new }
{
    if let Some(running) = running {
        running.end = Some(EndLine::Ended {
            id: running.context.id(),
            after,
        });
    }
}

fn ended_point(point: ControlPoint) -> ControlPoint
    ensures { result ≡ inside_with ended_at point }
{
    match point {
        ControlPoint::Inside(stage) => ControlPoint::Inside(ended_stage(stage)),
        ControlPoint::Between => ControlPoint::Between,
        ControlPoint::Leaving => ControlPoint::Leaving,
        ControlPoint::Over => ControlPoint::Over,
    }
}

fn ended_stage(stage: Stage) -> Stage
    ensures { result ≡ ended_at stage }
{
    match stage {
        Stage::Committing | Stage::RollingBack => unsaid(Reply::NoOutput),
        Stage::Replied(reply) => unsaid(reply),
        Stage::Made { def, indexed: _ } => without_index(def),
        Stage::LacksIndex { def } => without_index(def),
        stage => stage,
    }
}
