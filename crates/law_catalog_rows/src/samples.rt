//! Small definitions, worked out by the definitions.

ghost use Rattle.std.specs.Prelude.{◌≡◌, ◌∷◌, ◌++◌, [], true, false, Some, None, pos, negsuc, codes};
ghost use Rattle.spec_model.specs.SystemTables.{table_row};
ghost use Rattle.law_catalog_rows.specs.Encoded.{item_rows, latest_table_row};
ghost use Rattle.law_catalog_rows.specs.Differs.{encoding_fault};
ghost use Rattle.law_catalog_rows.specs.Samples.{def_3, def_4, two_columns, odd_def, stray, with_change, gone_4, less_4, less_row};

/// Rows spell their definition, in any order. A row left out, one that stands twice, one of no table, a
/// definition of another name and one whose name is taken are found, and of several faults the least.
pub fn encoding_is_found_out()
    ensures holds { encoding_fault (table_row def_3 ∷ []) (item_rows def_3) (def_3 ∷ []) ≡ None }
    ensures any_order { encoding_fault (table_row (def_4 (codes "t")) ∷ table_row def_3 ∷ [])
        (item_rows (def_4 (codes "t")) ++ item_rows def_3) (def_3 ∷ def_4 (codes "t") ∷ []) ≡ None }
    ensures no_rows { encoding_fault [] [] (def_3 ∷ []) ≡ Some (pos 3) }
    ensures no_definition { encoding_fault (table_row def_3 ∷ []) (item_rows def_3) [] ≡ Some (pos 3) }
    ensures twice { encoding_fault (table_row def_3 ∷ table_row def_3 ∷ []) (item_rows def_3) (def_3 ∷ [])
        ≡ Some (pos 3) }
    ensures stray { encoding_fault (table_row def_3 ∷ []) (stray (negsuc 1) ∷ item_rows def_3) (def_3 ∷ [])
        ≡ Some (negsuc 1) }
    ensures another_name { encoding_fault (table_row def_3 ∷ table_row (def_4 (codes "t")) ∷ [])
        (item_rows def_3 ++ item_rows (def_4 (codes "t"))) (def_3 ∷ def_4 (codes "u") ∷ [])
        ≡ Some (pos 4) }
    ensures taken { encoding_fault (table_row def_3 ∷ table_row (def_4 (codes "h")) ∷ [])
        (item_rows def_3 ++ item_rows (def_4 (codes "h"))) (def_3 ∷ def_4 (codes "h") ∷ [])
        ≡ Some (pos 4) }
    ensures least { encoding_fault [] [] (def_3 ∷ def_4 (codes "t") ∷ []) ≡ Some (pos 3) }
{}

/// The rows of a definition that breaks a rule spell none: here of one whose id is too high, one whose key
/// may be NULL and one with two columns of one name.
pub fn odd_definitions_are_not_encoded()
    ensures too_high { let def = odd_def 35 (two_columns false (codes "v")) in
        encoding_fault (table_row def ∷ []) (item_rows def) (def ∷ []) ≡ Some (pos 35) }
    ensures null_key { let def = odd_def 3 (two_columns true (codes "v")) in
        encoding_fault (table_row def ∷ []) (item_rows def) (def ∷ []) ≡ Some (pos 3) }
    ensures one_name { let def = odd_def 3 (two_columns false (codes "id")) in
        encoding_fault (table_row def ∷ []) (item_rows def) (def ∷ []) ≡ Some (pos 3) }
{}

/// Of the rows about one thing the one with the greatest change counts, and the changes of a table are 1 and on:
/// none is missing, negative or stands twice, and one row of the table has change 0.
pub fn the_greatest_change_counts()
    ensures later { let t = table_row (def_4 (codes "t")) in
        let u = with_change 0 1 (table_row (def_4 (codes "u"))) in
        (encoding_fault (u ∷ t ∷ []) (item_rows (def_4 (codes "t"))) (def_4 (codes "u") ∷ []) ≡ None)
        × (encoding_fault (u ∷ t ∷ []) (item_rows (def_4 (codes "t"))) (def_4 (codes "t") ∷ [])
        ≡ Some (pos 4)) }
    ensures twice { let t = table_row (def_4 (codes "t")) in
        let u = with_change 0 1 (table_row (def_4 (codes "u"))) in
        encoding_fault (t ∷ u ∷ u ∷ []) (item_rows (def_4 (codes "t"))) (def_4 (codes "u") ∷ [])
        ≡ Some (pos 4) }
    ensures skipped { let t = table_row (def_4 (codes "t")) in
        let u = with_change 0 2 (table_row (def_4 (codes "u"))) in
        encoding_fault (t ∷ u ∷ []) (item_rows (def_4 (codes "t"))) (def_4 (codes "u") ∷ [])
        ≡ Some (pos 4) }
    ensures no_first { let u = with_change 0 1 (table_row (def_4 (codes "u"))) in
        encoding_fault (u ∷ []) (item_rows (def_4 (codes "u"))) (def_4 (codes "u") ∷ []) ≡ Some (pos 4) }
{}

/// A row says that its table was dropped, and a row that its column was: an earlier row says how it was before.
/// Without the row the definition isn't dropped.
pub fn dropped_things_have_their_rows()
    ensures gone { let t = table_row (def_4 (codes "t")) in
        (encoding_fault (t ∷ with_change 0 1 (latest_table_row gone_4) ∷ [])
        (item_rows (def_4 (codes "t"))) (gone_4 ∷ []) ≡ None)
        × (encoding_fault (t ∷ []) (item_rows (def_4 (codes "t"))) (gone_4 ∷ []) ≡ Some (pos 4)) }
    ensures less { let t = table_row (def_4 (codes "t")) in
        let items = item_rows (def_4 (codes "t")) in
        (encoding_fault (t ∷ []) (less_row 1 ∷ items) (less_4 ∷ []) ≡ None)
        × (encoding_fault (t ∷ []) items (less_4 ∷ []) ≡ Some (pos 4))
        × (encoding_fault (t ∷ []) (less_row 1 ∷ items) (def_4 (codes "t") ∷ []) ≡ Some (pos 4)) }
    ensures twice { let t = table_row (def_4 (codes "t")) in
        let items = item_rows (def_4 (codes "t")) in
        encoding_fault (t ∷ []) (less_row 1 ∷ less_row 2 ∷ items) (less_4 ∷ []) ≡ Some (pos 4) }
{}
