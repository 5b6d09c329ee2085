//! The names that definitions have.

ghost use Rattle.std.specs.Prelude.{◌≡◌};
ghost use Rattle.std.specs.List.{list_all};
ghost use Rattle.spec_model.specs.ProperNames.{is_name_byte, is_proper_name, has_its_history};

use sql_value::TableKind;

/// Whether the bytes are a name: 1 to 128 of them, from a blank to `~` without the brackets.
pub(crate) fn is_proper_name(name: &[u8]) -> bool
    ensures { result ≡ is_proper_name name.now }
{
    !name.is_empty() && name.len() <= 128 && are_name_bytes(name)
}

fn are_name_bytes(bytes: &[u8]) -> bool
    ensures { result ≡ list_all is_name_byte bytes.now }
{
    bytes.iter().all(|b| is_name_byte(*b))
}

fn is_name_byte(b: u8) -> bool
    ensures { result ≡ is_name_byte b }
{
    b >= b' ' && b <= b'~' && b != b'[' && b != b']'
}

/// Whether a table of this kind may have a history of this name: an append-only one has none.
pub(crate) fn has_its_history(kind: TableKind, history: &[u8]) -> bool
    ensures { result ≡ has_its_history kind history.now }
{
    match kind {
        TableKind::AppendOnly => history.is_empty(),
        TableKind::Updatable => is_proper_name(history),
    }
}
