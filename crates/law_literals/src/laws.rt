//! The law of stored values and literals.

ghost use Rattle.std.specs.Prelude.{◌≡◌, true};
ghost use Rattle.sql_value.specs.declared.sql_type.SqlType.{SqlType};
ghost use Rattle.sql_value.specs.declared.value.Value.{Value};
ghost use Rattle.sql_value.specs.Stored.{is_stored};
ghost use Rattle.law_literals.specs.Written.{HasBytes, IsWrittenFor};

use sql_scalar::{conversion_is_stored, days_are_read_back, literals_are_read_back};

/// Each value that a type stores is one that a literal writes: what is written of it as a literal is read, and
/// a column of the type makes the value of it again. A day is written, and read, as the text of its date; all
/// others are read as themselves.
pub fn stored_values_are_written_as_literals()
    ensures { (v : Value) (ty : SqlType) → HasBytes v → is_stored v ty ≡ true → IsWrittenFor ty v }
{
    literals_are_read_back();
    conversion_is_stored();
    days_are_read_back();
}
