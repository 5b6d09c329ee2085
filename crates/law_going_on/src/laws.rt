//! What holds at the end of a run that goes on from a journal.

ghost use Rattle.std.specs.Prelude.{ℕ, ◌≡◌, ◌++◌, List, ◌∷◌, Option, Some, map};
ghost use Rattle.sql_types.specs.declared.journal.JournalItem.{JournalItem};
ghost use Rattle.spec_history.specs.Digests.{Digest};
ghost use Rattle.spec_history.specs.Histories.{ClosesInStep, EndsComeLast, OneAtATime, SetupRan, lines_of, pending};
ghost use Rattle.spec_history.specs.Inputs.{InputSession};
ghost use Rattle.spec_history.specs.Lists.{At, Text};
ghost use Rattle.spec_history.specs.Meaning.{Meaning};
ghost use Rattle.spec_history.specs.Transcripts.{Transcript};
ghost use Rattle.spec_history.specs.Worlds.{first, run};
ghost use Rattle.spec_protocol.specs.AnonymousActs.{anonymous_act};
ghost use Rattle.spec_protocol.specs.AtTheEnd.{AllRest, NamesDiffer, SessionsDiffer, WasKnown};
ghost use Rattle.spec_protocol.specs.Cells.{Cell};
ghost use Rattle.spec_protocol.specs.Follows.{BeginInTurn, names_begun};
ghost use Rattle.spec_protocol.specs.LocksDecideIn.{LocksDecideIn};
ghost use Rattle.spec_protocol.specs.Reordered.{Reordered, moved};
ghost use Rattle.spec_protocol.specs.Seats.{SeatState};
ghost use Rattle.spec_protocol.specs.Server.{Server};
ghost use Rattle.spec_protocol.specs.StandTogether.{History, Stands};
ghost use Rattle.law_behind.specs.AgreeBehind.{AgreeBehind};
ghost use Rattle.law_behind.specs.Forgotten.{without};
ghost use Rattle.law_behind.specs.OrderBehind.{HaveOneOrderBehind, StepOrderBehind};
ghost use Rattle.law_behind.specs.Past.{Past, unclosed};
ghost use Rattle.law_continued.specs.Start.{Start};
ghost use Rattle.law_going_on.specs.EndBehind.{AreWrittenBehind};

/// Once no session runs, the transcripts that the seats wrote since the start agree behind its past with journal and
/// digests, where their names differ, and stand in one order behind it; and they stand in the order in which their
/// sessions began, if the history numbers these so. Where one statement came after another,
/// sessions ended behind the last and blocks were closed in step, they keep step order behind it. As `setup` counts any
/// of them that all seats knew to be over when their other sessions began.
pub fn transcripts_agree_behind_the_past()
    ensures { (v : Server) (database : Text) (size : ℕ) (start : Start v database size) (events : History)
        (cells : List Cell) (seats : List SeatState)
        → (st : Stands v (start.history ++ events) cells (start.seat ∷ seats)) → AllRest seats
        → (input : List InputSession) × (X : List Transcript)
        × AreWrittenBehind start.count events seats input X
        × (NamesDiffer seats → SessionsDiffer X)
        × (BeginInTurn (run first start.history) events
        → map (λ x. x.session) X ≡ names_begun (map anonymous_act events))
        × (SessionsDiffer X → (setup : Option ℕ) → SetupRan setup (without start.count events)
        → AgreeBehind v.meaning st.ledger.database start.past input setup X st.ledger.items st.ledger.issued
        × HaveOneOrderBehind v.meaning start.past setup X st.ledger.items)
        × ((N : ℕ) → SessionsDiffer X → LocksDecideIn v start.history events
        → OneAtATime (run first start.history) events → EndsComeLast (run first start.history) events
        → ClosesInStep N (pending (unclosed start.past.items)) events
        → StepOrderBehind v.meaning N start.past (lines_of (run first start.history) events) X st.ledger.items)
        × (SessionsDiffer X → (u : ℕ) (x : Transcript) → At X u x → WasKnown seats x
        → SetupRan (Some u) (without start.count events)) }
{}

/// What agrees behind a past agrees in any order of its sessions.
pub fn agreement_behind_a_past_is_of_any_order()
    ensures { (q : Meaning) (database : Text) (past : Past) (input : List InputSession) (setup : Option ℕ)
        (X : List Transcript) (J : List JournalItem) (G : List Digest)
        → AgreeBehind q database past input setup X J G
        → (then_input : List InputSession) (then_X : List Transcript) (to : ℕ → ℕ)
        → Reordered input X then_input then_X to
        → AgreeBehind q database past then_input (moved to setup) then_X J G }
{}
