//! The laws that the cells of a past are those of its journal, and that a run starts with them.

ghost use Rattle.std.specs.Prelude.{ℕ, ◌≡◌, ◌≤◌, List, map, suc};
ghost use Rattle.sql_types.specs.declared.journal.Journal.{Journal};
ghost use Rattle.sql_types.specs.declared.journal.JournalItem.{JournalItem};
ghost use Rattle.sql_types.specs.declared.journal.TheConstants.{MAX_BLOCK};
ghost use Rattle.spec_history.specs.Lists.{Text};
ghost use Rattle.spec_syntax.specs.Text.{statement_of};
ghost use Rattle.spec_protocol.specs.Server.{Server};
ghost use Rattle.spec_protocol.specs.Serves.{Serves};
ghost use Rattle.spec_continued.specs.Continued.{continued_cells};
ghost use Rattle.audit_replay.specs.GoesOn.{LeadsOn};
ghost use Rattle.audit_replay.specs.declared.past.Past.{Past};
ghost use Rattle.server_engine.specs.Starts.{Starts};
ghost use Rattle.server_past.specs.PastCells.{cells_kept};

use law_continued::there_are_words;
use server_engine::runs_start;

/// On each server that reads by the grammar and hashes so, the cells with which a database goes on are those to which
/// its journal leads. Does nothing: it is there for its contract.
pub fn cells_of_a_past_are_those_of_its_journal()
    ensures { (v : Server) (h : List ℕ → List ℕ) → Serves h statement_of v
        → (database : Text) (size : ℕ) (items : List JournalItem) (count : ℕ)
        → map (λ c. c.cell) (cells_kept h database size items (suc count)) ≡ continued_cells v database size items count }
{}

/// A run starts with these cells behind the past to which a journal leads. Does nothing: it is there for its contract.
pub fn runs_start_behind_a_past()
    ensures { (h : List ℕ → List ℕ) (size : ℕ) (J : Journal) (past : Past) → 1 ≤ size → size ≤ MAX_BLOCK
        → LeadsOn h size J past
        → Starts h past.database size (cells_kept h past.database size past.items.items past.next) }
{
    there_are_words();
    runs_start();
}
