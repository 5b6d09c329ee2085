//! The law that a legal journal goes on.

ghost use Rattle.std.specs.Prelude.{ℕ, ◌≡◌, ◌<◌, ◌≤◌, ◌^◌, suc, true, List, [], ◌∷◌};
ghost use Rattle.std.specs.List.{AllByRecursion};
ghost use Rattle.sql_types.specs.declared.journal.JournalItem.{JournalItem};
ghost use Rattle.sql_types.specs.JournalRules.{ItemRules};
ghost use Rattle.sql_value.specs.DatabaseName.{is_database_name};
ghost use Rattle.sql_value.specs.SessionName.{is_session_name};
ghost use Rattle.spec_model.specs.Journals.{IsLegal};
ghost use Rattle.spec_model.specs.Limits.{max_block};
ghost use Rattle.spec_history.specs.Lists.{Each, Text};
ghost use Rattle.spec_syntax.specs.Text.{statement_of};
ghost use Rattle.spec_protocol.specs.AllowedVisit.{first_seat};
ghost use Rattle.spec_protocol.specs.Cells.{first_cells};
ghost use Rattle.spec_protocol.specs.Contents.{contents};
ghost use Rattle.spec_protocol.specs.JournalForms.{HaveForms};
ghost use Rattle.spec_protocol.specs.LocksAreRequested.{LocksAreRequested};
ghost use Rattle.spec_protocol.specs.Server.{Server};
ghost use Rattle.spec_protocol.specs.StandTogether.{LocksAskedFor, Stands};
ghost use Rattle.law_retold.specs.Past.{no_past, unclosed};
ghost use Rattle.law_retold.specs.Retold.{AreWords, CanBeRetold, Words, past_of, retold};
ghost use Rattle.law_continued.specs.Continued.{continued_cells, ledger_with, past_seat};
ghost use Rattle.law_continued.specs.Start.{Start};

use law_printing::printing_is_read_back;

/// The cells to which a legal journal leads stand together with an idle seat and with that of its past, at the end
/// of the history that is told from the journal's items; no lock is there that anybody would have to ask for or want.
pub fn a_legal_journal_goes_on()
    ensures stands { (v : Server) (c : Words) (database : Text) (size : ℕ) → 1 ≤ size → size ≤ max_block
        → (J : List JournalItem) (count : ℕ) → (1 ≤ count → AreWords v.reads c) → IsLegal v.reads J
        → Each (CanBeRetold v.reads count) J
        → Stands v (retold v.reads c J count) (continued_cells v database size J count)
        (past_seat v c J count ∷ first_seat (continued_cells v database size J count) ∷ []) }
    ensures asked { (v : Server) (c : Words) (database : Text) (size : ℕ) (J : List JournalItem) (count : ℕ)
        → (st : Stands v (retold v.reads c J count) (continued_cells v database size J count)
        (past_seat v c J count ∷ first_seat (continued_cells v database size J count) ∷ [])) → LocksAskedFor st }
    ensures wanted { (v : Server) (c : Words) (database : Text) (size : ℕ) (J : List JournalItem) (count : ℕ)
        → LocksAreRequested v (contents (continued_cells v database size J count))
        (past_seat v c J count ∷ first_seat (continued_cells v database size J count) ∷ []) }
{}

/// Names, moments and ids have the forms of a journal there, where the journal keeps the side rules of its items.
pub fn a_journal_that_goes_on_keeps_its_forms()
    ensures { (v : Server) (c : Words) (database : Text) (size : ℕ) (J : List JournalItem) (count : ℕ)
        → (1 ≤ count → AreWords v.reads c) → IsLegal v.reads J → Each (CanBeRetold v.reads count) J
        → AllByRecursion ItemRules J → is_session_name c.name ≡ true
        → is_database_name database ≡ true → suc count ≤ 2 ^ 63
        → HaveForms (ledger_with v database size J count)
        (past_seat v c J count ∷ first_seat (continued_cells v database size J count) ∷ []) }
{}

/// So a server starts with such a journal, if fewer of its entries than a block takes are in no block, however many are
/// in one: with it as its past. And it starts with none.
pub fn a_server_starts()
    ensures with_a_journal { (v : Server) (c : Words) (database : Text) (size : ℕ) → 1 ≤ size → size ≤ max_block
        → (J : List JournalItem) (count : ℕ) → (1 ≤ count → AreWords v.reads c) → IsLegal v.reads J
        → Each (CanBeRetold v.reads count) J → unclosed J < size
        → (s : Start v database size) × (s.past ≡ past_of J count)
        × (s.cells ≡ continued_cells v database size J count) × (s.seat ≡ past_seat v c J count) }
    ensures with_none { (v : Server) (database : Text) (size : ℕ) → 1 ≤ size → size ≤ max_block
        → (s : Start v database size) × (s.past ≡ no_past) × (s.cells ≡ first_cells database size) }
{}

/// Where a server runs, there are such words for any name: BEGIN and COMMIT, as they are printed.
pub fn there_are_words()
    ensures { (name : Text) → (c : Words) × AreWords statement_of c × (c.name ≡ name) }
{
    printing_is_read_back();
}
