//! Laws of rows that are shorter than their columns: what is missing is NULL.

ghost use Rattle.std.specs.Prelude.{ℕ, ◌≡◌, ◌≤◌, ◌++◌, List, [], ◌∷◌, Option, length, map};
ghost use Rattle.sql_value.specs.declared.column.ColumnDef.{ColumnDef};
ghost use Rattle.sql_value.specs.declared.value.Value.TheVariants.{Null};
ghost use Rattle.sql_types.specs.declared.version.TypedValue.{TypedValue};
ghost use Rattle.sql_types.specs.declared.version.Version.{Version};
ghost use Rattle.spec_model.specs.Events.{fields_of};
ghost use Rattle.spec_model.specs.Keys.{key_of, value_at, version_key};
ghost use Rattle.spec_model.specs.Rows.{Row, filled, filled_stored, row_of, value_or_null, values_of};

/// A row with all its values is read as it is; one column more, behind the others, is one NULL more. What is
/// read of a version is what is read of its stored values, filled.
pub fn rows_are_filled()
    ensures whole { (columns : List ColumnDef) (v : Version) → length v.values ≡ length columns
        → row_of columns v ≡ values_of v }
    ensures one_more { (columns : List ColumnDef) (c : ColumnDef) (v : Version) → length v.values ≤ length columns
        → row_of (columns ++ c ∷ []) v ≡ row_of columns v ++ Null ∷ [] }
    ensures stored { (columns : List ColumnDef) (values : List (Option TypedValue))
        → map value_or_null (filled_stored columns values) ≡ filled columns (map value_or_null values) }
{}

/// A row that is filled has the fields, and so the events, that it had before, the value at each place, and
/// its key.
pub fn filled_rows_say_the_same()
    ensures fields { (columns : List ColumnDef) (values : List (Option TypedValue))
        → fields_of (filled_stored columns values) ≡ fields_of values }
    ensures values { (columns : List ColumnDef) (row : Row) (place : ℕ)
        → value_at (filled columns row) place ≡ value_at row place }
    ensures key { (columns : List ColumnDef) (v : Version)
        → key_of columns (row_of columns v) ≡ version_key columns v }
{}
