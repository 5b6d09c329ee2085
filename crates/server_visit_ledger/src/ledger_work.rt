//! What a seat does in the ledger's cell.

ghost use Rattle.std.specs.Prelude.{◌≡◌};
ghost use Rattle.server_visit_ledger.specs.LedgerMoves as spec;

use server_session::{Answering, ControlPoint, Shared, Stage};
use sql_types::{Reply, TableDef};
use sql_value::Refusal;

/// What a seat does that needs the ledger's cell.
#[derive(Clone, Copy, Debug, PartialEq, Eq)]
pub(crate) enum LedgerWork {
    /// It draws the id of a transaction: for BEGIN, or else for one of its own.
    AssignId { explicit: bool },
    /// It commits its transaction.
    Commit,
    /// It issues a digest.
    Issue,
    /// It ends its transaction without a commit.
    End,
}

fn stage_work(stage: &Stage) -> LedgerWork
    ensures { result ≡ spec.stage_work stage.now }
{
    match stage {
        Stage::AssigningId { explicit } => LedgerWork::AssignId {
            explicit: *explicit,
        },
        Stage::Committing | Stage::Replied(_) => LedgerWork::Commit,
        Stage::Made { def: _, indexed: _ } => LedgerWork::Commit,
        Stage::Issuing => LedgerWork::Issue,
        Stage::Begun | Stage::RollingBack | Stage::Keeping | Stage::Looking => LedgerWork::End,
        Stage::Found {
            def: _,
            part: _,
            fresh: _,
        } => LedgerWork::End,
        Stage::LacksIndex { def: _ } | Stage::GoingBack { seq: _, passed: _ } => LedgerWork::End,
        Stage::GivingBack(_) | Stage::Answering(_) => LedgerWork::End,
    }
}

/// What is done at this point.
pub(crate) fn work_of(point: &ControlPoint) -> LedgerWork
    ensures { result ≡ spec.work_of point.now }
{
    match point {
        ControlPoint::Inside(stage) => stage_work(stage),
        ControlPoint::Between | ControlPoint::Leaving | ControlPoint::Over => LedgerWork::End,
    }
}

/// NoMemory for an index, which may have to be dropped.
pub(crate) fn without_index(def: Shared<TableDef>) -> Stage
    ensures { result ≡ spec.without_index def }
{
    Stage::Answering(Answering {
        reply: Reply::Refused(Refusal::NoMemory),
        said: false,
        def: Some(def),
    })
}
