//! A digest, issued in the ledger's cell.

ghost use Rattle.std.specs.Prelude.{◌≡◌, ◌<◌, ◌≤◌};
ghost use Rattle.server_session.specs.Cells.{pending_in};
ghost use Rattle.server_visit_ledger.specs.LedgerSeen.{ledger_seen};
ghost use Rattle.server_visit_ledger.specs.LedgerMoves.{VisitsOn, moved, digest_reply as reply_of};
ghost use Rattle.server_session.specs.Stages.{unsaid as unsaid_at};
ghost use Rattle.server_visit_ledger.specs.LedgerMoves.{work_of as work_at};
ghost use Rattle.server_session.specs.Steps.{Among};
ghost use Rattle.server_visit_ledger.specs.declared.ledger_work.LedgerWork.TheVariants.{Issue};
ghost use Rattle.server_session.specs.declared.stage.ControlPoint.TheVariants.{Inside};

use base_merkle::Hash32;
use server_session::{ControlPoint, Seat, put_point, unsaid};
use sql_types::Reply;
use sql_value::Refusal;
use std::alloc::Global;
use store_ledger::{DigestErr, IssuedDigest, LedgerCell};

/// Closes what is pending and issues the digest of the newest block; where more is pending than a block
/// takes, it closes one full block alone, and the digest is left to another visit. NothingCommitted where no
/// transaction was committed; without memory nothing changes, and the statement is refused with NoMemory.
pub(crate) fn issue<H: Hash32>(seat: &mut Seat<H>, alloc: Global, ledger: &mut LedgerCell)
    requires among { Among H.digest seat.old (ledger_seen ledger.old) }
    requires work { work_at seat.old.point ≡ Issue }
    ensures { VisitsOn H.digest seat.old (ledger_seen ledger.old) (ledger_seen ledger.new) seat.new }
{
    if ledger.pending() > u64::from(ledger.block_size()) {
        close_full(seat, alloc, ledger);
    } else {
        issue_digest(seat, alloc, ledger);
    }
}

fn close_full<H: Hash32>(seat: &mut Seat<H>, alloc: Global, ledger: &mut LedgerCell)
    requires among { Among H.digest seat.old (ledger_seen ledger.old) }
    requires work { work_at seat.old.point ≡ Issue }
    requires full { ledger.old.cell.block_size < pending_in ledger.old.cell }
    ensures { VisitsOn H.digest seat.old (ledger_seen ledger.old) (ledger_seen ledger.new) seat.new }
{
    let size = ledger.block_size();
    match ledger.close_block(alloc, seat.hasher, size) {
        Ok(()) => {}
        Err(_) => answer_unsaid(seat, Reply::Refused(Refusal::NoMemory)),
    }
}

fn issue_digest<H: Hash32>(seat: &mut Seat<H>, alloc: Global, ledger: &mut LedgerCell)
    requires among { Among H.digest seat.old (ledger_seen ledger.old) }
    requires work { work_at seat.old.point ≡ Issue }
    requires few { pending_in ledger.old.cell ≤ ledger.old.cell.block_size }
    ensures { VisitsOn H.digest seat.old (ledger_seen ledger.old) (ledger_seen ledger.new) seat.new }
{
    let issued = ledger.digest(alloc, seat.hasher, seat.started);
    answer_unsaid(seat, digest_reply(issued));
}

fn answer_unsaid<H: Hash32>(seat: &mut Seat<H>, reply: Reply)
    ensures { seat.new ≡ moved seat.old seat.old.running (Inside (unsaid_at reply)) }
{
    put_point(&mut seat.point, ControlPoint::Inside(unsaid(reply)));
}

fn digest_reply(issued: Result<IssuedDigest, DigestErr>) -> Reply
    ensures { result ≡ reply_of issued }
{
    match issued {
        Ok(issued) => {
            let hash = issued.hash;
            Reply::Digest {
                block: issued.block,
                hash,
            }
        }
        Err(DigestErr::NoBlock) => Reply::Refused(Refusal::NothingCommitted),
        Err(DigestErr::Memory) => Reply::Refused(Refusal::NoMemory),
    }
}
