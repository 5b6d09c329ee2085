//! Rows that keep the rules of changes, and rows that break one, worked out by the definitions.

ghost use Rattle.std.specs.Prelude.{◌≡◌, [], ◌∷◌, pos, codes, true, false};
ghost use Rattle.spec_rules.specs.Rules.{keeps_the_rules};
ghost use Rattle.spec_rules.specs.Samples.{added, another, at, id_column, index_on, named, t_dropped, v_dropped, with_rows};

/// The rows of CREATE TABLE, CREATE INDEX, ADD, DROP COLUMN and DROP TABLE keep the rules.
pub fn rows_of_statements_keep_the_rules()
    ensures created { keeps_the_rules [] (with_rows [] []) (pos 3) ≡ true }
    ensures altered { keeps_the_rules [] (with_rows [] (at 1 0 (index_on 2) ∷ at 2 0 (added 3 1 (named (codes "w")))
        ∷ at 3 0 (v_dropped 2) ∷ [])) (pos 3) ≡ true }
    ensures dropped { keeps_the_rules [] (with_rows (at 1 0 (t_dropped 1) ∷ []) []) (pos 3) ≡ true }
{}

/// Each rule is broken by rows that no statement enters.
pub fn rows_that_break_a_rule_are_found()
    ensures two_statements { keeps_the_rules [] (with_rows [] (at 0 3 (added 3 1 (named (codes "w"))) ∷ [])) (pos 3)
        ≡ false }
    ensures created_again { keeps_the_rules [] (with_rows (at 1 0 (another 3 (codes "u")) ∷ []) []) (pos 3) ≡ false }
    ensures not_null { keeps_the_rules [] (with_rows [] (at 1 0 (added 3 1 id_column) ∷ [])) (pos 3) ≡ false }
    ensures out_of_order { keeps_the_rules [] (with_rows [] (at 1 0 (added 3 2 (named (codes "w")))
        ∷ at 2 0 (added 4 1 (named (codes "x"))) ∷ [])) (pos 3) ≡ false }
    ensures name_taken { keeps_the_rules [] (with_rows [] (at 1 0 (added 3 1 (named (codes "v"))) ∷ [])) (pos 3)
        ≡ false }
    ensures too_early { keeps_the_rules [] (with_rows [] (at 1 0 (index_on 3)
        ∷ at 2 0 (added 3 1 (named (codes "w"))) ∷ [])) (pos 3) ≡ false }
    ensures no_table_before { keeps_the_rules [] (with_rows (at 1 0 (another 5 (codes "u")) ∷ []) []) (pos 5) ≡ false }
    ensures same_name { keeps_the_rules [] (with_rows (at 1 0 (another 4 (codes "t")) ∷ []) []) (pos 4) ≡ false }
{}
