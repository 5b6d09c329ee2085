//! Laws of the entries and blocks of a journal.

ghost use Rattle.std.specs.Prelude.{ℕ, ◌≡◌, Bool, List, [], ◌∷◌, ◌++◌, map};
ghost use Rattle.sql_types.specs.declared.journal.JournalItem.{JournalItem};
ghost use Rattle.sql_types.specs.declared.journal.JournalItem.TheVariants.{Tx, Close};
ghost use Rattle.spec_model.specs.Journals.{Line, serial};
ghost use Rattle.spec_model.specs.Script.{Reading};
ghost use Rattle.spec_ledger.specs.Entries.{entry_of};
ghost use Rattle.spec_ledger.specs.Blocks.{no_hash};
ghost use Rattle.spec_ledger.specs.Parts.{by_sizes, AreBlocksOf};
ghost use Rattle.spec_ledger.specs.Ledger.{commits, closes, ledger_of, blocks_of, entries_of};

/// A commit adds its entry, with the roots over the tables that it led to, to those that are pending; a
/// closing makes a block of the first k that are pending, and the others are pending still, as the next
/// block.
pub fn items_add_to_the_ledger()
    ensures commit { (h : List ℕ → List ℕ) (reads : Reading) (J : List JournalItem) (id time : ℕ)
        (session : List ℕ) (explicit : Bool) (lines : List Line)
        → ledger_of h reads (J ++ Tx id session time explicit lines ∷ [])
        ≡ commits (entry_of h (serial reads (J ++ Tx id session time explicit lines ∷ [])) id session time)
        (ledger_of h reads J) }
    ensures closing { (h : List ℕ → List ℕ) (reads : Reading) (J : List JournalItem) (k : ℕ)
        → ledger_of h reads (J ++ Close k ∷ []) ≡ closes h k (ledger_of h reads J) }
{}

/// The entries that are in blocks fall into parts, one for each block: each record has its place as number,
/// the tree hash and the count of its part, and the hash of the record before. Each entry stands at the place
/// that the sizes of the blocks give it.
pub fn entries_fall_into_blocks()
    ensures blocks { (h : List ℕ → List ℕ) (reads : Reading) (J : List JournalItem)
        → AreBlocksOf h 0 no_hash (blocks_of h reads J) (ledger_of h reads J).closed }
    ensures places { (h : List ℕ → List ℕ) (reads : Reading) (J : List JournalItem)
        → entries_of h reads J ≡ by_sizes 0 (map (λ r. r.size) (blocks_of h reads J)) (entries_of h reads J) }
{}
