//! Courses by their sessions: how they go on, and that they end.

ghost use Rattle.std.specs.Prelude.{◌≡◌, ◌≤◌, ◌<◌, ◌^◌, ◌++◌, ℕ, suc, List, [], ◌∷◌, map, slice_set};
ghost use mathlib.Core.Option.{some};
ghost use lib.ListN.{get_elem?};
ghost use Rattle.spec_history.specs.Inputs.{InputLine};
ghost use Rattle.spec_history.specs.Lists.{Text, Each, In};
ghost use Rattle.spec_history.specs.Transcripts.{Entry};
ghost use Rattle.spec_protocol.specs.Alone.{Alones, new_session};
ghost use Rattle.spec_protocol.specs.Cells.{Cell, Ledger, LedgerCell, ledger_at, pending_in};
ghost use Rattle.spec_protocol.specs.AnonymousActs.{did, alones_acts, may_anonymous_acts};
ghost use Rattle.spec_protocol.specs.Follows.{alones_lines, may_lines, names_begun};
ghost use Rattle.spec_protocol.specs.LedgerVisits.{Closes};
ghost use Rattle.spec_protocol.specs.AllowedVisit.{AllowedVisit, OutsAreIn};
ghost use Rattle.spec_protocol.specs.Moves.{sits};
ghost use Rattle.spec_protocol.specs.InactiveExcept.{IsInactive, InactiveExcept};
ghost use Rattle.spec_protocol.specs.Seats.{KeptImage, SeatState, IsAtRest, split};
ghost use Rattle.spec_protocol.specs.Server.{Server};
ghost use Rattle.law_behind.specs.Past.{Past};
ghost use Rattle.law_sequential.specs.RunStart.{RunStart};
ghost use Rattle.law_sequential.specs.RunBehind.{SequentialRunBehind};
ghost use Rattle.law_sequential.specs.EndsLast.{Phase, running, ending, InPhase};
ghost use Rattle.law_sequential.specs.InStep.{ClosesForDigest};
ghost use Rattle.law_sequential.specs.Sessions.{SessionOutput, names_told, told_nothing, told_with, Gains, Writes, IsShown, OthersInactive};
ghost use Rattle.law_sequential.specs.SessionsBehind.{SessionsStandBehind};
ghost use Rattle.law_sequential.specs.OutcomeBehind.{HasEndedBehind};

/// With the cells of the start no session has begun; one more may begin while all are between statements.
pub fn sessions_stand_behind_a_past()
    ensures first { (v : Server) (database : Text) (size : ℕ) (past : Past) (start : RunStart v database size past)
        → SessionsStandBehind start running [] [] [] start.begins.cells [] }
    ensures more { (v : Server) (database : Text) (size : ℕ) (past : Past) (start : RunStart v database size past)
        (phase : Phase) (lines : List InputLine)
        (moments : List ℕ) (told : List SessionOutput) (cells : List Cell) (states : List SeatState)
        → (c : SessionsStandBehind start phase lines moments told cells states)
        → ((k : ℕ) (s : SeatState) → get_elem? states k ≡ some s → IsInactive s.role) → (name : Text)
        → SessionsStandBehind start phase lines moments (told ++ told_nothing name ∷ []) cells
        (states ++ sits (split c.parent 1) (new_session name (split c.parent 1)) ∷ []) }
{}

/// Where the course goes on with one seat, whose session has shown this then, sessions stand. All other seats
/// are quiet where all other sessions are.
pub fn sessions_go_on_behind_a_past()
    ensures one { (v : Server) (database : Text) (size : ℕ) (past : Past) (start : RunStart v database size past)
        (phase then_phase : Phase)
        (lines then_lines : List InputLine) (moments later : List ℕ) (told : List SessionOutput)
        (cells then_cells : List Cell) (states : List SeatState)
        → (c : SessionsStandBehind start phase lines moments told cells states)
        → (j : ℕ) (s t : SeatState) (k l : SessionOutput) → get_elem? states j ≡ some s → get_elem? told j ≡ some l
        → k.transcript.session ≡ l.transcript.session
        → SequentialRunBehind start then_phase (names_told told) then_lines then_cells
        (slice_set (c.parent ∷ states) (suc j) t) → IsShown (moments ++ later) k t
        → SessionsStandBehind start then_phase then_lines (moments ++ later) (slice_set told j k)
        then_cells (slice_set states j t) }
    ensures cells { (v : Server) (database : Text) (size : ℕ) (past : Past) (start : RunStart v database size past)
        (phase : Phase) (lines : List InputLine)
        (moments : List ℕ) (told : List SessionOutput) (cells then_cells : List Cell) (states : List SeatState)
        → (c : SessionsStandBehind start phase lines moments told cells states)
        → SequentialRunBehind start phase (names_told told) lines then_cells (c.parent ∷ states)
        → SessionsStandBehind start phase lines moments told then_cells states }
    ensures quiet { (v : Server) (database : Text) (size : ℕ) (past : Past) (start : RunStart v database size past)
        (phase : Phase) (lines : List InputLine)
        (moments : List ℕ) (told : List SessionOutput) (cells : List Cell) (states : List SeatState)
        → (c : SessionsStandBehind start phase lines moments told cells states)
        → (j : ℕ) → OthersInactive states j → InactiveExcept (c.parent ∷ states) (suc j) }
{}

/// They go on with what the seat of one session does alone, in its visits and to close a full block, while all
/// other sessions are between statements and no session begins: the session has shown then what it gains by
/// this. A visit comes where no block is full, and closes none without a digest.
pub fn one_session_goes_on_behind_a_past()
    ensures alone { (v : Server) (database : Text) (size : ℕ) (past : Past) (start : RunStart v database size past)
        (phase : Phase) (lines : List InputLine)
        (moments : List ℕ) (told : List SessionOutput) (cells : List Cell) (states : List SeatState)
        → SessionsStandBehind start phase lines moments told cells states
        → (j : ℕ) (s : SeatState) → get_elem? states j ≡ some s → (k : SessionOutput) → get_elem? told j ≡ some k
        → OthersInactive states j
        → (t : SeatState) (steps : Alones v s t) → Each (InPhase phase) (map did (alones_acts steps))
        → names_begun (map did (alones_acts steps)) ≡ []
        → (entries : List Entry) (images : List KeptImage) (times later : List ℕ)
        → Gains s entries images times t → Each (λ time. In time later) times
        → SessionsStandBehind start phase (lines ++ alones_lines steps) (moments ++ later)
        (slice_set told j (told_with k entries images)) cells (slice_set states j t) }
    ensures over { (v : Server) (database : Text) (size : ℕ) (past : Past) (start : RunStart v database size past)
        (phase : Phase) (lines : List InputLine)
        (moments : List ℕ) (told : List SessionOutput) (cells : List Cell) (states : List SeatState)
        → SessionsStandBehind start phase lines moments told cells states
        → (j : ℕ) (s : SeatState) → get_elem? states j ≡ some s → (k : SessionOutput) → get_elem? told j ≡ some k
        → OthersInactive states j
        → (t : SeatState) (steps : Alones v s t) → Each (InPhase phase) (map did (alones_acts steps))
        → names_begun (map did (alones_acts steps)) ≡ []
        → (entries : List Entry) (later : List ℕ) → Writes s entries t
        → SessionsStandBehind start phase (lines ++ alones_lines steps) (moments ++ later)
        (slice_set told j (told_with k entries [])) cells (slice_set states j t) }
    ensures visits { (v : Server) (database : Text) (size : ℕ) (past : Past) (start : RunStart v database size past)
        (phase : Phase) (lines : List InputLine)
        (moments : List ℕ) (told : List SessionOutput) (cells : List Cell) (states : List SeatState)
        → SessionsStandBehind start phase lines moments told cells states
        → (j : ℕ) (s : SeatState) → get_elem? states j ≡ some s → (k : SessionOutput) → get_elem? told j ≡ some k
        → OthersInactive states j
        → (out : List (ℕ × Cell)) → OutsAreIn cells out
        → (i : ℕ) (d : Cell) (t : SeatState) (m : AllowedVisit v s out i d t) → Each (InPhase phase) (may_anonymous_acts m)
        → names_begun (may_anonymous_acts m) ≡ []
        → (l : LedgerCell) → get_elem? cells ledger_at ≡ some (Ledger l) → pending_in l < size
        → ClosesForDigest (may_anonymous_acts m)
        → (entries : List Entry) (images : List KeptImage) (times later : List ℕ)
        → Gains s entries images times t → Each (λ time. In time later) times
        → SessionsStandBehind start phase (lines ++ may_lines m) (moments ++ later)
        (slice_set told j (told_with k entries images)) (slice_set cells i d) (slice_set states j t) }
    ensures closes { (v : Server) (database : Text) (size : ℕ) (past : Past) (start : RunStart v database size past)
        (phase : Phase) (lines : List InputLine)
        (moments : List ℕ) (told : List SessionOutput) (cells : List Cell) (states : List SeatState)
        → SessionsStandBehind start phase lines moments told cells states
        → (j : ℕ) (s : SeatState) → get_elem? states j ≡ some s → (k : SessionOutput) → get_elem? told j ≡ some k
        → OthersInactive states j
        → (l : LedgerCell) → get_elem? cells ledger_at ≡ some (Ledger l) → pending_in l ≡ size
        → (n : ℕ) (d : LedgerCell) → Closes v n l d
        → SessionsStandBehind start phase lines moments told (slice_set cells ledger_at (Ledger d))
        states }
{}

/// Behind the last statement they may end; and once all have, the course is over.
pub fn ended_sessions_are_a_run_behind_a_past()
    ensures may { (v : Server) (database : Text) (size : ℕ) (past : Past) (start : RunStart v database size past)
        (lines : List InputLine) (moments : List ℕ)
        (told : List SessionOutput) (cells : List Cell) (states : List SeatState)
        → SessionsStandBehind start running lines moments told cells states
        → SessionsStandBehind start ending lines moments told cells states }
    ensures over { (v : Server) (database : Text) (size : ℕ) (past : Past) (start : RunStart v database size past)
        (lines : List InputLine) (moments : List ℕ)
        (told : List SessionOutput) (cells : List Cell) (states : List SeatState)
        → SessionsStandBehind start ending lines moments told cells states
        → Each (λ s. IsAtRest s.role) states
        → (l : LedgerCell) → get_elem? cells ledger_at ≡ some (Ledger l)
        → pending_in l < size → l.next ≤ 2 ^ 63
        → HasEndedBehind v database size past (names_told told) lines moments (map (λ k. k.transcript) told)
        (map (λ k. k.images) told) l.items l.issued }
{}
