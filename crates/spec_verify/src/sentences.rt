//! Laws of the faults: each is the first or the least place at which the sentence of its invariant fails.

ghost use Rattle.std.specs.Prelude.{ℕ, ◌≡◌, ◌↔◌, true, List, [], get_or, Some, None};
ghost use Rattle.std.specs.List.{AllByRecursion};
ghost use Rattle.std.specs.Ordering.{int_cmp, on};
ghost use Rattle.sql_types.specs.declared.digest.HeldDigest.{HeldDigest};
ghost use Rattle.sql_types.specs.declared.entry.TxEntry.{TxEntry};
ghost use Rattle.sql_types.specs.declared.image.Image.{Image};
ghost use Rattle.sql_types.specs.declared.image.TableRows.{TableRows};
ghost use Rattle.sql_types.specs.declared.table.IndexDef.{IndexDef};
ghost use Rattle.sql_types.specs.declared.table.TableDef.{TableDef};
ghost use Rattle.format_image.specs.DefBytes.{ids_rise};
ghost use Rattle.format_image.specs.RowBytes.{IsTable};
ghost use Rattle.format_image.specs.Rows.{index_rows};
ghost use Rattle.law_catalog_rows.specs.Encoded.{RowsEncode};
ghost use Rattle.spec_verify.specs.declared.place.Place.{Place};
ghost use Rattle.spec_verify.specs.declared.place.Place.TheVariants as at;
ghost use Rattle.spec_verify.specs.declared.place.Verdict.TheVariants.{Yes};
ghost use Rattle.spec_verify.specs.Blocks.{block_fault, chain_fault, digest_fault};
ghost use Rattle.spec_verify.specs.Definitions.{base_rows, definition_fault};
ghost use Rattle.spec_verify.specs.Entries.{id_fault, least_event, repeated_id, root_fault, strangers};
ghost use Rattle.spec_verify.specs.Entries.{table_event_cmp};
ghost use Rattle.spec_verify.specs.Indexes.{index_fault, index_holds};
ghost use Rattle.spec_verify.specs.Sentences.{BlockHolds, DigestHolds, LinkHolds};
ghost use Rattle.spec_verify.specs.Sentences.{EntryHolds, HasEntry, IsEntryFault, IsNewId, events_of_image};
ghost use Rattle.spec_verify.specs.Sentences.{VersionHolds, start_of, versions_of_image};
ghost use Rattle.spec_verify.specs.Sentences.{IndexesHold, IsIndexFault, IsEncodedAt, defs_and_rows, ids_of_tables};
ghost use Rattle.spec_verify.specs.Sentences.{HoldsTogether};
ghost use Rattle.spec_verify.specs.Told.{HoldsOfEach, TellsFirst, TellsLeast};
ghost use Rattle.spec_verify.specs.Verdict.{image_verdict};
ghost use Rattle.spec_verify.specs.Versions.{version_fault};

/// No digest is named where each is of a block of the image, and else the first that is of none.
pub fn the_first_wrong_digest_is_named()
    ensures { (h : List ℕ → List ℕ) (i : Image) (digests : List HeldDigest)
        → TellsFirst (λ k d. DigestHolds h i d) (λ k d p. p ≡ at.Digest k) digests
        (digest_fault h i digests) }
{}

/// No block is named where all are linked, and else the first that isn't; and so of blocks that are not
/// those of their entries.
pub fn the_first_wrong_block_is_named()
    ensures chain { (h : List ℕ → List ℕ) (i : Image)
        → TellsFirst (LinkHolds h i) (λ b r p. p ≡ at.Block b) i.blocks (chain_fault h i) }
    ensures entries { (h : List ℕ → List ℕ) (i : Image)
        → TellsFirst (BlockHolds h i) (λ b r p. p ≡ at.Block b) i.blocks (block_fault h i) }
{}

/// No entry is found where their ids differ, and else the first whose id came before. No start or end is
/// found where each is of an entry's transaction, and else the least, by table, transaction and number,
/// that isn't. Of both the entry is named, and nothing is exactly where neither is found.
pub fn wrong_ids_are_named()
    ensures repeated { (i : Image)
        → TellsFirst (IsNewId i.entries) (λ k e p. p ≡ at.Entry k) i.entries (repeated_id i) }
    ensures strangers { (i : Image)
        → TellsLeast table_event_cmp (HasEntry i.entries) (λ e p. p ≡ at.Event e.0 e.1.0 e.1.1)
        (events_of_image i) (least_event (strangers i)) }
    ensures entry_first { (i : Image) (p : Place) → repeated_id i ≡ Some p → id_fault i ≡ Some p }
    ensures else_event { (i : Image)
        → HoldsOfEach (IsNewId i.entries) i.entries → id_fault i ≡ least_event (strangers i) }
    ensures nothing { (i : Image) → (id_fault i ≡ None)
        ↔ (HoldsOfEach (IsNewId i.entries) i.entries
        × AllByRecursion (HasEntry i.entries) (events_of_image i)) }
{}

/// Nothing is named where the events of each entry are numbered without a gap and its roots are theirs.
/// Else it is the first entry where that isn't so: its numbers where they are at fault, and else its
/// least table with another root.
pub fn the_first_wrong_entry_is_named()
    ensures { (h : List ℕ → List ℕ) (i : Image)
        → TellsFirst (λ k e. EntryHolds h i e) (λ k e p. IsEntryFault h i e p) i.entries (root_fault h i) }
{}

/// No version is named where each fits its table and follows the one before it, and else the start of the
/// least, by table, transaction and number, that doesn't.
pub fn the_least_wrong_version_is_named()
    ensures { (i : Image) → TellsLeast (on start_of table_event_cmp) (VersionHolds i)
        (λ x p. p ≡ at.Event x.0.def.id x.1.start.0 x.1.start.1) (versions_of_image i) (version_fault i) }
{}

/// No table is named where rows of the system's tables spell each definition, and are about no other
/// table; and else the least, by its id, of which no definition is spelled.
pub fn the_least_wrong_definition_is_named()
    ensures { (i : Image)
        → TellsLeast int_cmp (IsEncodedAt i) (λ id p. p ≡ at.Table id) (ids_of_tables i)
        (definition_fault i) }
{}

/// Of an image whose definitions rise by id, and of which no version is at fault, no definition is named
/// exactly where the base rows of the system's two tables spell the definitions: those that count are the rows
/// of these and no others, in any order, all changes and each definition keep to the rules, and no name of a
/// table is taken.
pub fn definitions_hold_where_rows_encode_them()
    ensures { (i : Image) → ids_rise 2 i.defs ≡ true → version_fault i ≡ None
        → (definition_fault i ≡ None) ↔ RowsEncode (base_rows i.tables 0) (base_rows i.tables 1) i.defs }
{}

/// No index is named where the rows of each are those of the base, and else the first of the first table
/// where they aren't.
pub fn the_first_wrong_index_is_named()
    ensures { (i : Image)
        → TellsFirst (λ k t. IndexesHold t) (λ k t p. IsIndexFault t p) (defs_and_rows i) (index_fault i) }
{}

/// Of a table that has a spelling: an index holds exactly where its rows are the projection of the base,
/// value for value and not just up to what compares as equal.
pub fn rows_of_indexes_are_compared_exactly()
    ensures { (def : TableDef) (rows : TableRows) (g : ℕ) (index : IndexDef) → IsTable def rows
        → (index_holds def rows g index ≡ true)
        ↔ (get_or rows.indexes g [] ≡ index_rows def rows.base index) }
{}

/// The verdict is Yes exactly where the sentences of all invariants hold.
pub fn yes_is_said_of_what_holds_together()
    ensures { (h : List ℕ → List ℕ) (i : Image) (digests : List HeldDigest)
        → (image_verdict h i digests ≡ Yes) ↔ HoldsTogether h i digests }
{}
