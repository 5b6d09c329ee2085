//! The law that a database without transactions is one that goes on from a journal without items.

ghost use Rattle.std.specs.Prelude.{ℕ, ◌≡◌, []};
ghost use Rattle.spec_continued.specs.Continued.{continued_cells};
ghost use Rattle.spec_protocol.specs.Lists.{Text};
ghost use Rattle.spec_protocol.specs.Cells.{first_cells};
ghost use Rattle.spec_protocol.specs.Server.{Server};

/// The cells to which a journal without items leads are the first cells.
pub fn no_journal_leads_to_the_first_cells()
    ensures { (v : Server) (database : Text) (size : ℕ)
        → continued_cells v database size [] 0 ≡ first_cells database size }
{}
