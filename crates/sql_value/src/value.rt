//! Values.

ghost use Rattle.std.specs.Prelude.{◌≡◌, IfOk};

use base_types::{Blob, Memory, Text};

/// A value of a column or of a literal. It has no `==`: 1 and 1.0 are one value, but not of one scale.
#[derive(Debug, Drop)]
pub enum Value {
    Null,
    /// The number `v` in units of 10^-s.
    Num { s: u8, v: i128 },
    Text(Text),
    Bytes(Blob),
    /// The number of a day, where 0 is 0001-01-01.
    Date(u32),
}

impl Value {
    /// An equal one, of the same scale where it is a number.
    pub fn copy(&self) -> Result<Value, Memory>
        ensures { IfOk result (λ copy. copy ≡ self.now) }
    {
        match self {
            Value::Null => Ok(Value::Null),
            Value::Num { v, s } => Ok(Value::Num { v: *v, s: *s }),
            Value::Text(text) => Ok(Value::Text(text.copy()?)),
            Value::Bytes(blob) => Ok(Value::Bytes(blob.copy()?)),
            Value::Date(day) => Ok(Value::Date(*day)),
        }
    }
}
