//! The commit of a transaction, in the ledger's cell.

ghost use Rattle.std.specs.Prelude.{◌≡◌, ◌++◌, IfOk, OnErr, Some, map};
ghost use Rattle.server_visit_ledger.specs.LedgerSeen.{ledger_seen};
ghost use Rattle.server_visit_ledger.specs.LedgerMoves as spec;
ghost use Rattle.server_session.specs.Lists.{Text as Bytes};
ghost use Rattle.server_visit_ledger.specs.LedgerMoves.{AreFixed, AreOwnFixed, IsOwnFixed, HasCommitted, HasLacked};
ghost use Rattle.server_visit_ledger.specs.LedgerMoves.{Tries, VisitsOn};
ghost use Rattle.server_visit_ledger.specs.LedgerMoves.{committed_at, ended_after, inside_with, work_of as work_at};
ghost use Rattle.server_session.specs.Sits.{line_of as line_at};
ghost use Rattle.server_session.specs.Steps.{Among};
ghost use Rattle.server_visit_ledger.specs.declared.ledger_work.LedgerWork.TheVariants.{Commit};

use crate::ledger_end::fix_end;
use crate::ledger_work::without_index;
use base_merkle::Hash32;
use base_types::{Items, Memory, Text};
use format_reply::reply_text;
use server_session::{ControlPoint, Running, Seat, Stage, put_point, stopped, unsaid};
use sql_types::{EndLine, Reply, Script};
use sql_value::Refusal;
use std::alloc::Global;
use std::mem;
use store_ledger::LedgerCell;

/// Commits the seat's transaction, or ends it where it left no event. Without memory COMMIT is refused with
/// NoMemory, and the transaction goes on; one of the statement's own ends, and its statement is refused. Copies
/// the texts of the script, and hashes only the roots of its trees.
pub(crate) fn commit<H: Hash32>(seat: &mut Seat<H>, alloc: Global, ledger: &mut LedgerCell)
    requires among { Among H.digest seat.old (ledger_seen ledger.old) }
    requires work { work_at seat.old.point ≡ Commit }
    ensures { VisitsOn H.digest seat.old (ledger_seen ledger.old) (ledger_seen ledger.new) seat.new }
{
    match try_commit(seat, alloc, ledger) {
        Ok(Some(place)) => fix_commit(seat, place),
        Ok(None) => fix_end(seat, ledger.point()),
        Err(_) => lack_commit(seat, ledger.point()),
    }
}

// The place at which the seat's transaction is committed; none, and nothing changes, where it left no event.
fn try_commit<H: Hash32>(
    seat: &Seat<H>,
    alloc: Global,
    ledger: &mut LedgerCell,
) -> Result<Option<u64>, Memory>
    requires among { Among H.digest seat.now (ledger_seen ledger.old) }
    requires work { work_at seat.now.point ≡ Commit }
    ensures ok { IfOk result (λ place. Tries H.digest seat.now ledger.old ledger.new place) }
    ensures err { OnErr result (ledger.new ≡ ledger.old) }
{
    let Some(running) = &seat.running else {
        unreachable!()
    };
    if running.context.is_read_only() {
        return Ok(None);
    }
    let script = whole_script(seat, alloc, running)?;
    let roots = running.context.roots(alloc)?;
    let id = running.context.id();
    let committed = ledger.commit(
        id,
        &seat.name,
        seat.started,
        running.explicit,
        script,
        roots,
    );
    let Ok(place) = committed else {
        return Err(Memory);
    };
    Ok(Some(place))
}

// The lines of the transaction's statements, and of the one under way where it comes last.
fn whole_script<H: Hash32>(
    seat: &Seat<H>,
    alloc: Global,
    running: &Running<H>,
) -> Result<Script, Memory>
    ensures { IfOk result (λ script. script ≡ map line_at running.now.script.items
        ++ spec.last_at seat.now.point seat.now.text) }
{
    let mut lines = lines_of(alloc, &running.script)?;
    if let Some(answer) = last_answer(seat, alloc)? {
        lines.push((seat.text.copy()?, answer))?;
    }
    Ok(lines)
}

// The reply's text of the statement under way, where that comes last in the script.
fn last_answer<H: Hash32>(seat: &Seat<H>, alloc: Global) -> Result<Option<Text>, Memory>
    ensures { IfOk result (λ answer. spec.line_with seat.now.text answer
        ≡ spec.last_at seat.now.point seat.now.text) }
{
    match &seat.point {
        ControlPoint::Inside(stage) => answer_in(alloc, stage),
        ControlPoint::Between | ControlPoint::Leaving | ControlPoint::Over => Ok(None),
    }
}

// The seat's transaction was committed at this place.
fn fix_commit<H: Hash32>(seat: &mut Seat<H>, place: u64)
    ensures { HasCommitted H.digest place seat.old seat.new }
{
    commit_running(&mut seat.running, place);
    let point = mem::replace(&mut seat.point, ControlPoint::Over);
    put_point(&mut seat.point, committed_point(point));
}

// There is no memory for the commit: a transaction of the statement's own ends, after so many.
fn lack_commit<H: Hash32>(seat: &mut Seat<H>, after: u64)
    ensures { HasLacked H.digest after seat.old seat.new }
{
    end_own(&mut seat.running, after);
    let point = mem::replace(&mut seat.point, ControlPoint::Over);
    put_point(&mut seat.point, lacking_point(point));
}

// ---- scripts

fn lines_of(alloc: Global, said: &[(Text, Reply)]) -> Result<Script, Memory>
    ensures { IfOk result (λ lines. lines ≡ map line_at said.now) }
{
    let mut lines = Vec::with_capacity(alloc, said.len())?;
    for statement in said {
        lines.push(line_of(alloc, statement)?)?;
    }
    Ok(Items::from_vec(lines))
}

fn line_of(alloc: Global, said: &(Text, Reply)) -> Result<(Text, Text), Memory>
    ensures { IfOk result (λ line. line ≡ line_at said.now) }
{
    Ok((said.0.copy()?, reply_text(alloc, &said.1)?))
}

fn answer_in(alloc: Global, stage: &Stage) -> Result<Option<Text>, Memory>
    ensures { (text : Bytes) → IfOk result (λ answer.
        spec.line_with text answer ≡ spec.last_in stage.now text) }
{
    match stage {
        Stage::Replied(reply) => Ok(Some(reply_text(alloc, reply)?)),
        Stage::Made { def: _, indexed: _ } => Ok(Some(reply_text(alloc, &Reply::Made)?)),
        _ => Ok(None),
    }
}

// ---- transactions

fn commit_running<H: Hash32>(running: &mut Option<Running<H>>, place: u64)
    ensures { AreFixed H.digest (committed_at place) running.old running.new }
{
    if let Some(running) = running {
        running.end = Some(EndLine::Committed {
            id: running.context.id(),
            place,
        });
    }
}

// One that BEGIN opened goes on.
fn end_own<H: Hash32>(running: &mut Option<Running<H>>, after: u64)
    ensures { AreOwnFixed H.digest (ended_after after) running.old running.new }
{
    if let Some(running) = running {
        end_if_own(running, after);
    }
}

fn end_if_own<H: Hash32>(running: &mut Running<H>, after: u64)
    ensures { IsOwnFixed H.digest (ended_after after) running.old.explicit running.old (Some running.new) }
{
    if !running.explicit {
        running.end = Some(EndLine::Ended {
            id: running.context.id(),
            after,
        });
    }
}

// ---- points

fn committed_point(point: ControlPoint) -> ControlPoint
    ensures { result ≡ inside_with spec.committed_stage point }
{
    match point {
        ControlPoint::Inside(stage) => ControlPoint::Inside(committed_stage(stage)),
        ControlPoint::Between => ControlPoint::Between,
        ControlPoint::Leaving => ControlPoint::Leaving,
        ControlPoint::Over => ControlPoint::Over,
    }
}

fn committed_stage(stage: Stage) -> Stage
    ensures { result ≡ spec.committed_stage stage }
{
    match stage {
        Stage::Committing => unsaid(Reply::NoOutput),
        Stage::Replied(reply) => unsaid(reply),
        Stage::Made { def, indexed: _ } => {
            drop(def);
            unsaid(Reply::Made)
        }
        stage => stage,
    }
}

fn lacking_point(point: ControlPoint) -> ControlPoint
    ensures { result ≡ inside_with spec.lacking_stage point }
{
    match point {
        ControlPoint::Inside(stage) => ControlPoint::Inside(lacking_stage(stage)),
        ControlPoint::Between => ControlPoint::Between,
        ControlPoint::Leaving => ControlPoint::Leaving,
        ControlPoint::Over => ControlPoint::Over,
    }
}

fn lacking_stage(stage: Stage) -> Stage
    ensures { result ≡ spec.lacking_stage stage }
{
    match stage {
        Stage::Made { def, indexed: _ } => without_index(def),
        stage => {
            drop(stage);
            stopped(Refusal::NoMemory)
        }
    }
}
