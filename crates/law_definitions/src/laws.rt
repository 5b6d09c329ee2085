//! The laws on the tables of accepted images.

ghost use Rattle.std.specs.Prelude.{ℕ, ◌≡◌, true, List};
ghost use Rattle.sql_types.specs.declared.digest.HeldDigest.{HeldDigest};
ghost use Rattle.sql_types.specs.declared.image.Image.{Image};
ghost use Rattle.format_image.specs.DefBytes.{ids_rise};
ghost use Rattle.spec_verify.specs.declared.place.Verdict.TheVariants.{Yes};
ghost use Rattle.spec_verify.specs.Verdict.{image_verdict};
ghost use Rattle.spec_rules.specs.Places.{EventPlace};
ghost use Rattle.law_definitions.specs.Accepted.{KeysAndTypesAt, KeysAndTypesStay, NothingEnded, NothingAfterDrop};

/// In an accepted image nothing ever ended in an append-only table: where some row of the table of tables says
/// that a table is append-only, at whatever time, no version of that table has an end. (Definitions rise by id
/// in each image that has a spelling.)
pub fn nothing_ended_in_an_append_only_table()
    ensures { (h : List ℕ → List ℕ) (i : Image) (digests : List HeldDigest) → ids_rise 2 i.defs ≡ true
        → image_verdict h i digests ≡ Yes → NothingEnded i }
{}

/// In an accepted image a dropped table has no later start or end.
pub fn nothing_starts_or_ends_after_a_drop()
    ensures { (h : List ℕ → List ℕ) (i : Image) (digests : List HeldDigest)
        → image_verdict h i digests ≡ Yes → NothingAfterDrop i }
{}

/// In an accepted image the key of a table and the types of its columns never change: each row about a column that
/// stands in the table of columns, the first as the last, says the type and the key position that the definition has.
/// Only a row by which the column was dropped says -1 instead, and that column is in no key. So the rows that are in
/// force at any place in the ledger say the same key and types as the definition.
pub fn keys_and_types_never_change()
    ensures { (h : List ℕ → List ℕ) (i : Image) (digests : List HeldDigest) → ids_rise 2 i.defs ≡ true
        → image_verdict h i digests ≡ Yes
        → KeysAndTypesStay i × ((place : EventPlace) → KeysAndTypesAt i place) }
{}
