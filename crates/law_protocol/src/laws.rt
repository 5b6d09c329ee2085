//! What holds wherever cells and seats stand together.

ghost use Rattle.std.specs.Prelude.{◌≡◌, ◌≢◌, ◌≤◌, ◌++◌, ℕ, false, List, [], ◌∷◌, Option, Some, length, slice_set, map};
ghost use mathlib.Core.Option.{some};
ghost use lib.ListN.{get_elem?};
ghost use Rattle.sql_types.specs.declared.lock.Hold.{Hold};
ghost use Rattle.spec_model.specs.LegalJournals.{IsLegalJournal};
ghost use Rattle.spec_model.specs.Limits.{max_block};
ghost use Rattle.spec_protocol.specs.JournalForms.{HaveForms, journal_in};
ghost use Rattle.spec_model.specs.Locks.{requests_conflict};
ghost use Rattle.spec_history.specs.Lists.{Text, Each, At, In};
ghost use Rattle.spec_history.specs.Worlds.{first, run};
ghost use Rattle.spec_history.specs.SoFar.{AgreeSoFar};
ghost use Rattle.spec_history.specs.Agree.{Agree};
ghost use Rattle.spec_history.specs.Digests.{Digest};
ghost use Rattle.spec_history.specs.Meaning.{Meaning};
ghost use Rattle.sql_types.specs.declared.journal.JournalItem.{JournalItem};
ghost use Rattle.spec_protocol.specs.Reordered.{InOrderOf, IsSessionOrder, Reordered, moved};
ghost use Rattle.spec_history.specs.Inputs.{InputSession};
ghost use Rattle.spec_history.specs.Histories.{ClosesInStep, Due, EndsComeLast, HasItsName, OneAtATime, SetupRan};
ghost use Rattle.spec_history.specs.Transcripts.{Transcript};
ghost use Rattle.spec_protocol.specs.AtTheEnd.{AllRest, AreWritten, HasItsImages, NamesDiffer, SessionsDiffer, WasKnown};
ghost use Rattle.spec_protocol.specs.Server.{Server};
ghost use Rattle.spec_protocol.specs.Cells.{Cell, first_cells, holds_at};
ghost use Rattle.spec_protocol.specs.Contents.{contents};
ghost use Rattle.spec_protocol.specs.LocksAreRequested.{LocksAreRequested};
ghost use Rattle.spec_protocol.specs.LocksDecideIn.{LocksDecideIn};
ghost use Rattle.spec_protocol.specs.StepOrderThen.{KeepsStepOrder};
ghost use Rattle.spec_protocol.specs.SeatNames.{OthersDiffer};
ghost use Rattle.spec_protocol.specs.Seats.{SeatState};
ghost use Rattle.spec_protocol.specs.AllowedVisit.{AllowedVisit, OutsAreIn, first_seat};
ghost use Rattle.spec_protocol.specs.Steps.{Steps};
ghost use Rattle.spec_protocol.specs.OneByOne.{OneByOne};
ghost use Rattle.spec_protocol.specs.AnonymousActs.{anonymous_act, did, may_anonymous_acts, steps_anonymous_acts, visit_anonymous_acts};
ghost use Rattle.spec_protocol.specs.Follows.{BeginInTurn, Follows, alone_lines, may_lines, names_begun, steps_lines};
ghost use Rattle.spec_protocol.specs.ActsOf.{alone_acts};
ghost use Rattle.spec_protocol.specs.Alone.{Alone};
ghost use Rattle.spec_protocol.specs.Visits.{Happens, Visit};
ghost use Rattle.spec_protocol.specs.StandTogether.{History, IsOfSeat, LocksAskedFor, Stands, StandsLater, StandsNext, StandTogether};

/// The cells at the beginning and the first seat stand together, and nothing has happened; no lock is there
/// that anybody would have to ask for or want.
pub fn first_cells_stand()
    ensures stands { (v : Server) (database : Text) (size : ℕ) → 1 ≤ size → size ≤ max_block
        → Stands v [] (first_cells database size) (first_seat (first_cells database size) ∷ []) }
    ensures asked { (v : Server) (database : Text) (size : ℕ)
        → (st : Stands v [] (first_cells database size) (first_seat (first_cells database size) ∷ []))
        → LocksAskedFor st }
    ensures wanted { (v : Server) (database : Text) (size : ℕ)
        → LocksAreRequested v (contents (first_cells database size)) (first_seat (first_cells database size) ∷ []) }
{}

/// Where cells and seats stand together, no cell has conflicting locks of two transactions.
pub fn conflicting_locks_are_not_held()
    ensures { (v : Server) (history : History) (cells : List Cell) (seats : List SeatState)
        → Stands v history cells seats
        → (i : ℕ) (a b : Hold) → In a (holds_at cells i) → In b (holds_at cells i) → a.tx ≢ b.tx
        → requests_conflict a.request b.request ≡ false }
{}

/// There the rules of agreement hold of all that the sessions have shown so far.
pub fn transcripts_agree_so_far()
    ensures { (v : Server) (history : History) (cells : List Cell) (seats : List SeatState)
        → (s : Stands v history cells seats) → AgreeSoFar v.meaning s.ledger.database (run first history) }
{}

/// Each transaction of the journal has the name of the session that drew its id.
pub fn the_journal_has_its_sessions_names()
    ensures { (v : Server) (history : History) (cells : List Cell) (seats : List SeatState)
        → (s : Stands v history cells seats) → Each (HasItsName history) s.ledger.items }
{}

/// Where its names, moments and ids have the forms of a journal, the journal of the ledger's cell is a legal
/// one: it keeps the side rules of its items besides, among them that a transaction that BEGIN didn't open
/// has one statement. That texts and replies are UTF-8 isn't among these.
pub fn the_journal_keeps_its_forms()
    ensures { (v : Server) (history : History) (cells : List Cell) (seats : List SeatState)
        → (s : Stands v history cells seats) → HaveForms s.ledger seats
        → IsLegalJournal v.reads (journal_in s.ledger) }
{}

/// There the images that a seat kept for sessions that are over are those that their transcripts show, with the
/// bytes of the image of so many items.
pub fn kept_images_are_those_that_transcripts_show()
    ensures { (v : Server) (history : History) (cells : List Cell) (seats : List SeatState)
        → (st : Stands v history cells seats) → (j : ℕ) (s : SeatState) → get_elem? seats j ≡ some s
        → Each (HasItsImages v st.ledger) s.written }
{}

/// Once no session runs, the transcripts that the seats wrote agree with journal and digests, where their
/// names differ. As `setup` counts any session that was over before any other did anything, or none.
pub fn transcripts_agree_at_the_end()
    ensures { (v : Server) (history : History) (cells : List Cell) (seats : List SeatState)
        → (s : Stands v history cells seats) → AllRest seats
        → (input : List InputSession) × (X : List Transcript) × AreWritten history seats input X
        × (NamesDiffer seats → SessionsDiffer X × ((setup : Option ℕ) → SetupRan setup history
        → Agree v.meaning s.ledger.database input setup X s.ledger.items s.ledger.issued)) }
{}

/// What agrees agrees in any order of its sessions; and they can be put into the order of any plan that has
/// each of their names once.
pub fn agreement_is_of_any_order()
    ensures any { (q : Meaning) (database : Text) (input : List InputSession) (setup : Option ℕ)
        (X : List Transcript) (J : List JournalItem) (G : List Digest)
        → Agree q database input setup X J G
        → (then_input : List InputSession) (then_X : List Transcript) (to : ℕ → ℕ)
        → Reordered input X then_input then_X to → Agree q database then_input (moved to setup) then_X J G }
    ensures session_order { (input : List InputSession) (X : List Transcript) (names : List Text)
        → length input ≡ length X → IsSessionOrder names X → InOrderOf names input X }
{}

/// So the transcripts that the seats wrote agree, numbered in the order of a plan of their names, once no
/// session runs.
pub fn transcripts_agree_in_a_session_order()
    ensures { (v : Server) (history : History) (cells : List Cell) (seats : List SeatState)
        → (s : Stands v history cells seats) → (input : List InputSession) (X : List Transcript)
        → AreWritten history seats input X → SessionsDiffer X → (names : List Text) → IsSessionOrder names X
        → (o : InOrderOf names input X) × ((setup : Option ℕ) → SetupRan setup history
        → Agree v.meaning s.ledger.database o.then_input (moved o.to setup) o.then_X s.ledger.items
        s.ledger.issued) }
{}

/// A session that all others' seats knew to be over when these began ran before all others, and so counts as
/// `setup`.
pub fn what_seats_knew_tells_setup()
    ensures { (v : Server) (history : History) (cells : List Cell) (seats : List SeatState)
        → Stands v history cells seats → AllRest seats → (input : List InputSession) (X : List Transcript)
        → AreWritten history seats input X → SessionsDiffer X
        → (u : ℕ) (x : Transcript) → At X u x → WasKnown seats x → SetupRan (Some u) history }
{}

/// Each visit keeps them standing together, and so does each step that a seat takes by itself: what the
/// history gains with it is done by sessions of that seat, each lock was asked for and is wanted still, and
/// locks decide in it where it takes one statement after another.
pub fn one_step_keeps_standing()
    ensures visits { (v : Server) (history : History) (cells : List Cell) (seats : List SeatState)
        → (st : Stands v history cells seats) → LocksAskedFor st → LocksAreRequested v (contents cells) seats
        → (j : ℕ) (s : SeatState) → get_elem? seats j ≡ some s
        → (out : List (ℕ × Cell)) → OutsAreIn cells out
        → (visit : Visit) (i : ℕ) (c d : Cell) (t : SeatState) → get_elem? cells i ≡ some c
        → (w : Happens v out visit c s d t)
        → StandsNext v j history (visit_anonymous_acts v out visit c s d t w) [] (slice_set cells i d)
        (slice_set seats j t) }
    ensures alone { (v : Server) (history : History) (cells : List Cell) (seats : List SeatState)
        → (st : Stands v history cells seats) → LocksAskedFor st → LocksAreRequested v (contents cells) seats
        → (j : ℕ) (s t : SeatState) → get_elem? seats j ≡ some s → (step : Alone v s t)
        → StandsNext v j history (map did (alone_acts step)) (alone_lines step) cells (slice_set seats j t) }
{}

/// What a seat may do with a cell that it has out keeps them standing together, with the steps before and
/// after that it takes by itself: in the form in which a board asks for it, where the cells that are out
/// count as they were when they were taken. The history gains just what these steps do, and takes up just
/// their statements; and where it takes one statement after another, locks decide in them.
pub fn what_a_seat_may_do_keeps_standing()
    ensures { (v : Server) (history : History) (cells : List Cell) (seats : List SeatState)
        → (st : Stands v history cells seats) → LocksAskedFor st → LocksAreRequested v (contents cells) seats
        → (j : ℕ) (s : SeatState) → get_elem? seats j ≡ some s
        → (out : List (ℕ × Cell)) → OutsAreIn cells out
        → (i : ℕ) (c : Cell) (t : SeatState) → (may : AllowedVisit v s out i c t)
        → StandsLater st (may_anonymous_acts may) (may_lines may) (slice_set cells i c) (slice_set seats j t) }
{}

/// And where no other seat has a session of the name of one of its own, all that a seat does in this way its
/// own sessions do.
pub fn what_a_seat_does_its_sessions_do()
    ensures { (v : Server) (history : History) (cells : List Cell) (seats : List SeatState)
        → (st : Stands v history cells seats) → LocksAskedFor st → LocksAreRequested v (contents cells) seats
        → (j : ℕ) (s : SeatState) → get_elem? seats j ≡ some s
        → (out : List (ℕ × Cell)) → OutsAreIn cells out
        → (i : ℕ) (c : Cell) (t : SeatState) → (may : AllowedVisit v s out i c t)
        → OthersDiffer (slice_set seats j t) j
        → (w : StandsLater st (may_anonymous_acts may) (may_lines may) (slice_set cells i c) (slice_set seats j t))
        × Each (IsOfSeat w.stands.transcripts_agree.owner j) w.events }
{}

/// Any number of steps keeps them standing together, and the history gains just what they do: what a seat
/// does alone, visits, splits and joins. It takes up just their statements, with their sessions' names, and
/// sessions begin in the order of their numbers. Where it takes one statement after another, locks decide in
/// them.
pub fn all_steps_keep_standing()
    ensures { (v : Server) (history : History) (cells : List Cell) (seats : List SeatState)
        → (st : Stands v history cells seats) → LocksAskedFor st → LocksAreRequested v (contents cells) seats
        → (then_cells : List Cell) (then_seats : List SeatState)
        → (steps : Steps v cells seats then_cells then_seats)
        → StandsLater st (steps_anonymous_acts steps) (steps_lines steps) then_cells then_seats }
{}

/// So they stand together whatever happened since the first cells, and what the sessions have shown so far
/// meets the rules for the database of the first cells, which the ledger's cell still has, and their block
/// size too.
pub fn whatever_happens_agrees()
    ensures stands { (v : Server) (database : Text) (size : ℕ) → 1 ≤ size → size ≤ max_block
        → (cells : List Cell) (seats : List SeatState)
        → Steps v (first_cells database size) (first_seat (first_cells database size) ∷ []) cells seats
        → StandTogether v cells seats }
    ensures agrees { (v : Server) (database : Text) (size : ℕ) → 1 ≤ size → size ≤ max_block
        → (cells : List Cell) (seats : List SeatState)
        → Steps v (first_cells database size) (first_seat (first_cells database size) ∷ []) cells seats
        → (s : StandTogether v cells seats) × AgreeSoFar v.meaning database (run first s.history)
        × (s.stands.ledger.database ≡ database) × (s.stands.ledger.block_size ≡ size) }
{}

/// Steps make a history that takes up just their statements, in their order and with their sessions' names,
/// and that numbers its sessions in the order in which they begin. If the steps are taken one after another,
/// each by one seat while all others are between statements, it takes one statement after another. Where it
/// does, and ends its sessions behind the last and closes blocks in step, the transcripts that the seats
/// wrote are one list in the order of these lines, and in it E20 comes exactly where a lock is in the way,
/// with the least holder, unless it is NoMemory.
pub fn one_statement_after_another_keeps_step_order()
    ensures { (v : Server) (database : Text) (size : ℕ) → 1 ≤ size → size ≤ max_block
        → (cells : List Cell) (seats : List SeatState)
        → (steps : Steps v (first_cells database size) (first_seat (first_cells database size) ∷ []) cells seats)
        → (s : StandTogether v cells seats) × (map anonymous_act s.history ≡ steps_anonymous_acts steps)
        × Follows first s.history (steps_lines steps)
        × (OneByOne steps → OneAtATime first s.history)
        × KeepsStepOrder v s.history seats s.stands.ledger.items }
{}

/// Once no session runs, the transcripts that the seats wrote stand in the order in which their sessions
/// began, where the history numbers these so.
pub fn transcripts_are_in_the_order_of_their_beginnings()
    ensures { (v : Server) (history : History) (cells : List Cell) (seats : List SeatState)
        → Stands v history cells seats → BeginInTurn first history
        → (input : List InputSession) (X : List Transcript) → AreWritten history seats input X
        → map (λ x. x.session) X ≡ names_begun (map anonymous_act history) }
{}

/// Locks decide in two parts of a history if they do in each; and where they decide in all of it, what the
/// seats wrote keeps step order, if the history takes one statement after another, ends its sessions last and
/// closes blocks in step.
pub fn locks_that_decide_keep_step_order()
    ensures parts { (v : Server) (history events more : History)
        → LocksDecideIn v history events → LocksDecideIn v (history ++ events) more
        → LocksDecideIn v history (events ++ more) }
    ensures keeps { (v : Server) (history : History) (cells : List Cell) (seats : List SeatState)
        → (s : Stands v history cells seats) → LocksDecideIn v [] history
        → KeepsStepOrder v history seats s.ledger.items }
{}

/// Whether sessions end behind the last statement, and blocks are closed in step, the deeds of a history
/// tell: where one does so, so does each with the same deeds.
pub fn anonymous_acts_tell_ends_and_closings()
    ensures ends { (h g : History) → map anonymous_act h ≡ map anonymous_act g → EndsComeLast first h → EndsComeLast first g }
    ensures closings { (h g : History) → map anonymous_act h ≡ map anonymous_act g → (N : ℕ) (due : Due)
        → ClosesInStep N due h → ClosesInStep N due g }
{}
