//! Laws of rows that fit their columns so far.

ghost use Rattle.std.specs.Prelude.{◌≡◌, ◌≤◌, ◌++◌, true, false, List, [], ◌∷◌, Option, length, take};
ghost use Rattle.sql_value.specs.declared.column.ColumnDef.{ColumnDef};
ghost use Rattle.sql_types.specs.declared.version.TypedValue.{TypedValue};
ghost use Rattle.spec_model.specs.Rows.{filled_stored};
ghost use Rattle.law_journal.specs.Fits.{Fits, FitsSoFar};

/// A row that fits so far has no more values than there are columns and fits as many of them; filled it fits
/// all. It fits so far with one column more, behind the others, that may be NULL; and where the last column may
/// not be NULL it is whole. A row that fits does so far.
pub fn rows_fit_so_far()
    ensures whole { (columns : List ColumnDef) (values : List (Option TypedValue)) → Fits columns values
        → FitsSoFar columns values }
    ensures few { (columns : List ColumnDef) (values : List (Option TypedValue)) → FitsSoFar columns values
        → length values ≤ length columns }
    ensures taken { (columns : List ColumnDef) (values : List (Option TypedValue)) → FitsSoFar columns values
        → Fits (take (length values) columns) values }
    ensures filled { (columns : List ColumnDef) (values : List (Option TypedValue)) → FitsSoFar columns values
        → Fits columns (filled_stored columns values) }
    ensures one_more { (columns : List ColumnDef) (c : ColumnDef) (values : List (Option TypedValue))
        → FitsSoFar columns values → c.nullable ≡ true → FitsSoFar (columns ++ c ∷ []) values }
    ensures last { (columns : List ColumnDef) (c : ColumnDef) (values : List (Option TypedValue))
        → c.nullable ≡ false → FitsSoFar (columns ++ c ∷ []) values → Fits (columns ++ c ∷ []) values }
{}
