//! What is written and saved of a run that is over.

ghost use Rattle.std.specs.Prelude.{◌≡◌, ◌≤◌, ◌++◌, ◌∷◌, ◌^◌, map, string_bytes, IfOk, OnOk};
ghost use Rattle.std.specs.List.{fold};
ghost use Rattle.server_result.specs.Images.{with_each, with_images};
ghost use Rattle.server_result.specs.Joined.{joined_each};
ghost use Rattle.server_engine.specs.Images.{CellsStand};
ghost use Rattle.server_ending.specs.Closing.{HasLedger, pending_there};
ghost use Rattle.server_ending.specs.Saved.{HasIssued, HasSaved, IsLeaving, run_outcome_of};

use crate::closing::issue_last;
use crate::finished::FinishedRun;
use base_merkle::Hash32;
use base_types::{Blob, Items, Memory, Text};
use server_engine::{SessionEnd, image_bytes_of};
use server_result::{RunOutcome, add_images, push_texts};
use server_session::LEDGER;
use std::alloc::Global;
use store_ledger::LedgerCell;

/// Appends the entries of sessions, one session behind the other.
fn push_ends(ends: &[SessionEnd], out: &mut String) -> Result<(), Memory>
    ensures { OnOk result (string_bytes out.new
        ≡ string_bytes out.old ++ joined_each (map (λ e. e.entries) ends.now)) }
{
    for end in ends {
        push_texts(end.entries.as_slice(), out)?;
    }
    Ok(())
}

/// The entries of the setup, and then those of each session.
fn transcript_of(alloc: Global, setup: &SessionEnd, ends: &[SessionEnd]) -> Result<Text, Memory>
    ensures { IfOk result
        (λ text. text ≡ joined_each (setup.now.entries ∷ map (λ e. e.entries) ends.now)) }
{
    let mut out = String::new(alloc);
    push_texts(setup.entries.as_slice(), &mut out)?;
    push_ends(ends, &mut out)?;
    Ok(Text::from_string(out))
}

/// Adds the images of sessions.
fn add_ends(images: &mut Items<(u64, Blob)>, ends: Vec<SessionEnd>) -> Result<(), Memory>
    ensures { OnOk result (images.new ≡ fold with_images images.old (map (λ e. e.images) ends.items)) }
{
    for end in ends {
        add_images(images, end.images)?;
    }
    Ok(())
}

/// The images that setup and sessions kept, each once.
fn images_of(
    alloc: Global,
    setup: SessionEnd,
    ends: Vec<SessionEnd>,
) -> Result<Items<(u64, Blob)>, Memory>
    ensures { IfOk result
        (λ images. images ≡ with_each (setup.images ∷ map (λ e. e.images) ends.items)) }
{
    let mut images = Items::new(alloc);
    add_images(&mut images, setup.images)?;
    add_ends(&mut images, ends)?;
    Ok(images)
}

/// What is left of a run, with the ledger's cell by itself.
#[derive(Drop)]
pub(crate) struct OutcomeParts {
    pub transcript: Text,
    pub images: Items<(u64, Blob)>,
    pub image: Blob,
    pub ledger: LedgerCell,
}

impl OutcomeParts {
    // What the ledger's cell has comes apart. Takes no memory.
    fn into_run_outcome(self) -> RunOutcome
        ensures ran { result ≡ run_outcome_of self }
        ensures next { self.ledger.cell.next ≤ 2 ^ 63 }
    {
        let OutcomeParts {
            transcript,
            images,
            image,
            ledger,
        } = self;
        let (journal, digests) = ledger.into_parts();
        RunOutcome {
            transcript,
            images,
            image,
            journal,
            digests,
        }
    }
}

/// What is left of a run that has finished.
fn leave(alloc: Global, finished: FinishedRun) -> Result<OutcomeParts, Memory>
    requires { CellsStand finished.cells.items }
    ensures { IfOk result (IsLeaving finished) }
{
    let transcript = transcript_of(alloc, &finished.setup, &finished.ends)?;
    let FinishedRun {
        mut cells,
        setup,
        ends,
    } = finished;
    let image = image_bytes_of(alloc, &cells)?;
    let images = images_of(alloc, setup, ends)?;
    let ledger = cells.swap_remove(LEDGER).into_ledger();
    Ok(OutcomeParts {
        transcript,
        images,
        image,
        ledger,
    })
}

/// What is written and saved of a run that has finished.
pub fn left_by(alloc: Global, finished: FinishedRun) -> Result<RunOutcome, Memory>
    requires { CellsStand finished.cells.items }
    ensures { IfOk result (HasSaved finished) }
{
    Ok(leave(alloc, finished)?.into_run_outcome())
}

/// What is written and saved of a run that has finished and whose ledger is closed, with the digest of the
/// newest block as made at this moment, where there is one.
pub fn left_closed<H: Hash32>(
    alloc: Global,
    hasher: H,
    finished: FinishedRun,
    made: u64,
) -> Result<RunOutcome, Memory>
    requires stand { CellsStand finished.cells.items }
    requires keeps { HasLedger (H.digest hasher) finished.cells.items }
    requires none { pending_there finished.cells.items ≡ 0 }
    ensures { IfOk result (HasIssued (H.digest hasher) made finished) }
{
    let mut leaving = leave(alloc, finished)?;
    issue_last(alloc, hasher, &mut leaving.ledger, made)?;
    Ok(leaving.into_run_outcome())
}
