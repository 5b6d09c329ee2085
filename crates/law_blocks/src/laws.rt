//! Laws of the closings of a journal.

ghost use Rattle.std.specs.Prelude.{ℕ, ◌≡◌, ◌<◌, Bool, true, List, [], ◌∷◌, ◌++◌, length};
ghost use Rattle.sql_types.specs.declared.entry.BlockRecord.{BlockRecord};
ghost use Rattle.sql_types.specs.declared.entry.TxEntry.{TxEntry};
ghost use Rattle.sql_types.specs.declared.journal.JournalItem.{JournalItem};
ghost use Rattle.sql_types.specs.declared.journal.JournalItem.TheVariants.{Tx};
ghost use Rattle.spec_model.specs.Journals.{Line, tx_count, closed, serial, IsLegal};
ghost use Rattle.spec_model.specs.Script.{Reading};
ghost use Rattle.spec_history.specs.Journals.{blocks};
ghost use Rattle.spec_history.specs.Digests.{IsDigest};
ghost use Rattle.spec_history.specs.Meaning.{Meaning};
ghost use Rattle.spec_history.specs.Real.{Hashing};
ghost use Rattle.law_blocks.specs.Digests.{digest_of};
ghost use Rattle.spec_ledger.specs.Entry.{tables_rise};
ghost use Rattle.spec_ledger.specs.Entries.{entry_of};
ghost use Rattle.spec_ledger.specs.Ledger.{ledger_of, blocks_of, entries_of, block_hash};

/// A block that is closed stays, with its record, its hash and its entries, whatever comes behind it in the
/// journal.
pub fn closed_blocks_stay()
    ensures blocks { (h : List ℕ → List ℕ) (reads : Reading) (J K : List JournalItem)
        → (more : List BlockRecord) × (blocks_of h reads (J ++ K) ≡ blocks_of h reads J ++ more) }
    ensures entries { (h : List ℕ → List ℕ) (reads : Reading) (J K : List JournalItem)
        → (more : List TxEntry)
        × ((ledger_of h reads (J ++ K)).closed ≡ (ledger_of h reads J).closed ++ more) }
    ensures hash { (h : List ℕ → List ℕ) (reads : Reading) (J K : List JournalItem) (b : ℕ)
        → b < blocks J → block_hash h reads (J ++ K) b ≡ block_hash h reads J b }
{}

/// A history may hash blocks in this way, whatever the grammar and the hash.
pub fn histories_may_hash_so()
    ensures { (h : List ℕ → List ℕ) (reads : Reading)
        → (hashing : Hashing) × ((J : List JournalItem) (b : ℕ) → hashing.hash J b ≡ block_hash h reads J b) }
{}

/// There is a block for each closing and an entry for each transaction; of a legal journal so many are in
/// blocks as its closings take.
pub fn entries_and_blocks_are_counted()
    ensures blocks { (h : List ℕ → List ℕ) (reads : Reading) (J : List JournalItem)
        → length (blocks_of h reads J) ≡ blocks J }
    ensures entries { (h : List ℕ → List ℕ) (reads : Reading) (J : List JournalItem)
        → length (entries_of h reads J) ≡ tx_count J }
    ensures closed { (h : List ℕ → List ℕ) (reads : Reading) (J : List JournalItem)
        → IsLegal reads J → length (ledger_of h reads J).closed ≡ closed J }
{}

/// The entry of a legal journal's last transaction has a root, and the tables of its roots rise.
pub fn roots_of_a_commit_rise()
    ensures { (h : List ℕ → List ℕ) (reads : Reading) (J : List JournalItem) (id time : ℕ) (session : List ℕ)
        (explicit : Bool) (lines : List Line)
        → IsLegal reads (J ++ Tx id session time explicit lines ∷ [])
        → tables_rise
        (entry_of h (serial reads (J ++ Tx id session time explicit lines ∷ [])) id session time).roots ≡ true }
{}

/// The digest of a closed block of a legal journal is one by the rules of histories: it has the database, the
/// block's hash and the time of its last entry.
pub fn digests_are_of_closed_blocks()
    ensures { (h : List ℕ → List ℕ) (reads : Reading) (q : Meaning) (database : List ℕ) (J : List JournalItem)
        (b made : ℕ)
        → ((K : List JournalItem) (a : ℕ) → q.block_hash K a ≡ block_hash h reads K a)
        → IsLegal reads J → b < blocks J
        → IsDigest q database J (digest_of h reads database J b made) }
{}
