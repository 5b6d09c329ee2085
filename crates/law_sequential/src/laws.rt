//! How courses begin, go on and end, and what they come to.

ghost use Rattle.std.specs.Prelude.{◌≡◌, ◌≤◌, ◌<◌, ◌++◌, ℕ, true, List, [], ◌∷◌, map, None, slice_set};
ghost use mathlib.Core.Option.{some};
ghost use lib.ListN.{get_elem?};
ghost use Rattle.base_types.specs.DatabaseName.{is_database_name};
ghost use Rattle.base_types.specs.Moment.{is_moment};
ghost use Rattle.base_types.specs.SessionName.{is_session_name};
ghost use Rattle.sql_types.specs.declared.journal.TheConstants.{JOURNAL_VERSION};
ghost use Rattle.sql_types.specs.declared.digest.Digest.{Digest};
ghost use Rattle.sql_types.specs.declared.journal.JournalItem.{JournalItem};
ghost use Rattle.spec_model.specs.LegalJournals.{IsLegalJournal};
ghost use Rattle.spec_model.specs.Limits.{max_block};
ghost use Rattle.spec_model.specs.Script.{Reading};
ghost use Rattle.spec_history.specs.Facts.{Fact, image};
ghost use Rattle.spec_history.specs.Inputs.{InputLine};
ghost use Rattle.spec_history.specs.Journals.{times};
ghost use Rattle.spec_history.specs.Lists.{Text, Each, In};
ghost use Rattle.spec_history.specs.Meaning.{Meaning};
ghost use Rattle.spec_history.specs.Serial.{IsLegal};
ghost use Rattle.spec_history.specs.StepOrder.{IsStepOrder, Row, rows_facts};
ghost use Rattle.spec_history.specs.Transcripts.{Transcript};
ghost use Rattle.spec_protocol.specs.Alone.{Alones, new_session};
ghost use Rattle.spec_protocol.specs.Cells.{Cell, Ledger, LedgerCell, first_cells, ledger_at, pending_in};
ghost use Rattle.spec_protocol.specs.AnonymousActs.{did, alones_acts, may_anonymous_acts, step_anonymous_acts};
ghost use Rattle.spec_protocol.specs.Follows.{alones_lines, may_lines, names_begun, step_lines};
ghost use Rattle.spec_protocol.specs.LedgerVisits.{Closes};
ghost use Rattle.spec_protocol.specs.AllowedVisit.{AllowedVisit, OutsAreIn, first_seat};
ghost use Rattle.spec_protocol.specs.Moves.{sits};
ghost use Rattle.spec_protocol.specs.OneByOne.{IsOneAlone};
ghost use Rattle.spec_protocol.specs.InactiveExcept.{IsInactive, InactiveExcept};
ghost use Rattle.spec_protocol.specs.Reordered.{NamesApart};
ghost use Rattle.spec_protocol.specs.Seats.{KeptImage, SeatState, Written, split};
ghost use Rattle.spec_protocol.specs.Server.{Server};
ghost use Rattle.spec_protocol.specs.Steps.{Step};
ghost use Rattle.spec_protocol.specs.Serves.{Serves};
ghost use Rattle.law_sequential.specs.SequentialRun.{SequentialRun, StaysInside};
ghost use Rattle.law_sequential.specs.EndsLast.{Phase, running, ending, InPhase, IsNoStatement};
ghost use Rattle.law_sequential.specs.InStep.{InStep, due_in, Waits};
ghost use Rattle.law_sequential.specs.Outcome.{Outcome, IsClosedThere};
ghost use Rattle.law_sequential.specs.SessionOutput.{HasEnded, RunAgrees};
ghost use Rattle.law_sequential.specs.Wrote.{Wrote, transcripts_in};

use law_behind::without_a_past_nothing_else_is_meant;
use law_going_on::{a_server_starts, transcripts_agree_behind_the_past};
use law_moments::new_items_have_moments_of_seats;

/// With the first cells and the first seat a course begins, in which nothing has happened.
pub fn sequential_runs_begin()
    ensures { (v : Server) (database : Text) (size : ℕ) → 1 ≤ size → size ≤ max_block
        → SequentialRun v database size running [] [] (first_cells database size)
        (first_seat (first_cells database size) ∷ []) }
{}

/// A course goes on with each step that one seat takes while all others are between statements, where nothing
/// is done that the phase has no place for and blocks are closed in step: with what a seat does alone, which
/// closes none, and with its visits, where a block is closed by itself only if one is full, and a commit, a
/// digest and an image come only if none is.
pub fn sequential_runs_go_on()
    ensures any { (v : Server) (database : Text) (size : ℕ) (phase : Phase) (names : List Text)
        (lines : List InputLine) (cells then_cells : List Cell) (seats then_seats : List SeatState)
        → (c : SequentialRun v database size phase names lines cells seats)
        → (step : Step v cells seats then_cells then_seats) → IsOneAlone step
        → Each (InPhase phase) (step_anonymous_acts step)
        → (l : LedgerCell) → get_elem? then_cells ledger_at ≡ some (Ledger l)
        → InStep size (due_in size c.ledger) (step_anonymous_acts step) (due_in size l)
        → SequentialRun v database size phase (names ++ names_begun (step_anonymous_acts step)) (lines ++ step_lines step)
        then_cells then_seats }
    ensures alone { (v : Server) (database : Text) (size : ℕ) (phase : Phase) (names : List Text)
        (lines : List InputLine) (cells : List Cell) (seats : List SeatState)
        → SequentialRun v database size phase names lines cells seats
        → (j : ℕ) (s t : SeatState) → get_elem? seats j ≡ some s → InactiveExcept seats j
        → (steps : Alones v s t) → Each (InPhase phase) (map did (alones_acts steps))
        → SequentialRun v database size phase (names ++ names_begun (map did (alones_acts steps)))
        (lines ++ alones_lines steps) cells (slice_set seats j t) }
    ensures visits { (v : Server) (database : Text) (size : ℕ) (phase : Phase) (names : List Text)
        (lines : List InputLine) (cells : List Cell) (seats : List SeatState)
        → (c : SequentialRun v database size phase names lines cells seats)
        → (j : ℕ) (s : SeatState) → get_elem? seats j ≡ some s → InactiveExcept seats j
        → (out : List (ℕ × Cell)) → OutsAreIn cells out
        → (i : ℕ) (d : Cell) (t : SeatState) → (m : AllowedVisit v s out i d t)
        → Each (InPhase phase) (may_anonymous_acts m) → Waits size c.ledger m.visit
        → SequentialRun v database size phase (names ++ names_begun (may_anonymous_acts m)) (lines ++ may_lines m)
        (slice_set cells i d) (slice_set seats j t) }
    ensures inside { (v : Server) (database : Text) (size : ℕ) (phase : Phase) (names : List Text)
        (lines : List InputLine) (cells : List Cell) (seats : List SeatState)
        → (c : SequentialRun v database size phase names lines cells seats)
        → (j : ℕ) (s : SeatState) → get_elem? seats j ≡ some s → InactiveExcept seats j
        → (out : List (ℕ × Cell)) → OutsAreIn cells out
        → (i : ℕ) (d : Cell) (t : SeatState) → (m : AllowedVisit v s out i d t)
        → StaysInside m → Waits size c.ledger m.visit
        → SequentialRun v database size phase names lines (slice_set cells i d) (slice_set seats j t) }
{}

/// Steps that take up no statement have no such deed.
pub fn no_lines_take_no_statement()
    ensures alone { (v : Server) (s t : SeatState) (steps : Alones v s t) → alones_lines steps ≡ []
        → Each IsNoStatement (map did (alones_acts steps)) }
    ensures visits { (v : Server) (s : SeatState) (out : List (ℕ × Cell)) (i : ℕ) (c : Cell) (t : SeatState)
        (m : AllowedVisit v s out i c t) → may_lines m ≡ [] → Each IsNoStatement (may_anonymous_acts m) }
{}

/// It goes on with a session that begins at a seat of its own, split from the first one, while all are
/// between statements.
pub fn sessions_begin()
    ensures { (v : Server) (database : Text) (size : ℕ) (phase : Phase) (names : List Text)
        (lines : List InputLine) (cells : List Cell) (seats : List SeatState)
        → SequentialRun v database size phase names lines cells seats
        → (parent : SeatState) → get_elem? seats 0 ≡ some parent → parent.present ≡ true
        → ((k : ℕ) (s : SeatState) → get_elem? seats k ≡ some s → IsInactive s.role) → (name : Text)
        → SequentialRun v database size phase (names ++ name ∷ []) lines cells
        (seats ++ sits (split parent 1) (new_session name (split parent 1)) ∷ []) }
{}

/// It goes on with the closing of a full block, whatever seat makes it.
pub fn full_blocks_are_closed()
    ensures { (v : Server) (database : Text) (size : ℕ) (phase : Phase) (names : List Text)
        (lines : List InputLine) (cells : List Cell) (seats : List SeatState)
        → SequentialRun v database size phase names lines cells seats
        → (j : ℕ) (s : SeatState) → get_elem? seats j ≡ some s → InactiveExcept seats j
        → (l : LedgerCell) → get_elem? cells ledger_at ≡ some (Ledger l) → pending_in l ≡ size
        → (k : ℕ) (d : LedgerCell) → Closes v k l d
        → SequentialRun v database size phase names lines (slice_set cells ledger_at (Ledger d)) seats }
{}

/// Behind the last statement sessions may end.
pub fn sessions_end()
    ensures { (v : Server) (database : Text) (size : ℕ) (names : List Text)
        (lines : List InputLine) (cells : List Cell) (seats : List SeatState)
        → SequentialRun v database size running names lines cells seats
        → SequentialRun v database size ending names lines cells seats }
{}

/// Once all sessions are over, the transcripts that the seats wrote agree with the ledger's cell, as the
/// transcripts of the sessions and lines of this course; they keep the order of the lines; and the images are
/// those that they show.
pub fn sequential_runs_reach_their_outcome()
    ensures { (v : Server) (database : Text) (size : ℕ) (phase : Phase) (names : List Text)
        (lines : List InputLine) (cells : List Cell) (seats : List SeatState)
        → (c : SequentialRun v database size phase names lines cells seats)
        → (written : List Written) → Wrote seats written
        → map (λ x. x.session) (transcripts_in written) ≡ names → NamesApart names
        → pending_in c.ledger < size
        → Outcome v database size names lines written c.ledger }
{
    a_server_starts();
    transcripts_agree_behind_the_past();
    without_a_past_nothing_else_is_meant();
}

/// So what has ended on each server that reads and hashes so agrees by every meaning that statements have.
pub fn ended_sequential_runs_agree()
    ensures { (h : List ℕ → List ℕ) (reads : Reading) (database : Text) (size : ℕ)
        (names : List Text) (lines : List InputLine) (moments : List ℕ) (X : List Transcript)
        (images : List (List KeptImage)) (J : List JournalItem) (G : List Digest)
        → map (λ x. x.session) X ≡ names → NamesApart names
        → ((v : Server) → Serves h reads v
        → HasEnded v database size names lines moments X images J G)
        → RunAgrees h reads database size names lines X images J G }
{
    a_server_starts();
    transcripts_agree_behind_the_past();
    without_a_past_nothing_else_is_meant();
}

/// Its journal is a legal one, where names and moments have their forms.
pub fn journals_of_sequential_runs_are_legal()
    ensures { (v : Server) (database : Text) (size : ℕ) (names : List Text)
        (lines : List InputLine) (moments : List ℕ) (X : List Transcript) (images : List (List KeptImage))
        (J : List JournalItem) (G : List Digest)
        → HasEnded v database size names lines moments X images J G
        → map (λ x. x.session) X ≡ names → is_database_name database ≡ true
        → Each (λ name. is_session_name name ≡ true) names
        → Each (λ time. is_moment time ≡ true) moments
        → IsLegalJournal v.reads (record { version = JOURNAL_VERSION; database = database; items = J }) }
{
    a_server_starts();
}

/// Each time in its journal, and each moment at which a digest was made, is one of the moments of its
/// sessions.
pub fn times_are_those_of_sessions()
    ensures { (v : Server) (database : Text) (size : ℕ) (names : List Text)
        (lines : List InputLine) (moments : List ℕ) (X : List Transcript) (images : List (List KeptImage))
        (J : List JournalItem) (G : List Digest)
        → HasEnded v database size names lines moments X images J G
        → Each (λ time. In time moments) (times J) × Each (λ d. In d.made moments) G }
{
    a_server_starts();
    new_items_have_moments_of_seats();
}

/// In step order, a digest that comes before an image, in whatever session, is of a block that is closed in
/// the image.
pub fn digests_before_an_image_are_closed_in_it()
    ensures { (q : Meaning) (N : ℕ) (lines : List InputLine) (X : List Transcript) (J : List JournalItem)
        (rows : List Row) → IsLegal q J → IsStepOrder q N lines X J rows
        → (before after : List Fact) (items : ℕ)
        → rows_facts q (λ s. None) rows ≡ before ++ image items ∷ after
        → Each (IsClosedThere J items) before }
{}
