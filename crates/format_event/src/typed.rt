//! Values with their types, as every format has them.

ghost use Rattle.std.specs.Prelude.{◌≡◌, ◌++◌, take, length, OnOk};
ghost use Rattle.base_fields.specs.Reading.{ReadsAs};
ghost use Rattle.format_event.specs.TypedBytes.{IsTyped, typed_bytes, typed_at};

use crate::leaf::{put_type, put_value};
use crate::reading::type_at;
use crate::value_reading::value_of;
use base_fields::{ReadError, long_at};
use base_types::Memory;
use sql_scalar::fits;
use sql_types::TypedValue;
use std::alloc::Global;

/// Appends a value with its type. After want of memory what stood first still does.
pub fn put_typed(typed: &TypedValue, out: &mut Vec<u8>) -> Result<(), Memory>
    requires { IsTyped typed.now }
    ensures ok { OnOk result (out.new.items ≡ out.old.items ++ typed_bytes typed.now) }
    ensures grows { take (length out.old.items) out.new.items ≡ out.old.items }
{
    put_type(typed.ty, out)?;
    put_value(typed.ty, &typed.value, out)
}

/// The value with its type at the front of the bytes, and what follows it; or `Malformed` exactly where none
/// is there.
#[tactic(auto, unfolding(crate::specs::TypedBytes::typed_at))]
pub fn typed_at(alloc: Global, bytes: &[u8]) -> Result<(TypedValue, &[u8]), ReadError>
    ensures { ReadsAs (λ x. (x.0, x.1.now)) result (typed_at bytes.now) }
{
    let (ty, rest) = type_at(bytes)?;
    let (encoded, rest) = long_at(rest)?;
    let value = value_of(alloc, ty, encoded)?;
    if !fits(&value, &ty) {
        return Err(ReadError::Malformed);
    }
    Ok((TypedValue { ty, value }, rest))
}
