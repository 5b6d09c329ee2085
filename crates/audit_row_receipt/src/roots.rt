//! The root of a table among those of an entry.

ghost use Rattle.std.specs.Prelude.{◌≡◌, Some, bytes_eq};
ghost use Rattle.std.specs.Bool.{Decides};
ghost use Rattle.spec_verify.specs.Entries.{root_at};
ghost use Rattle.audit_receipt.specs.Tests.{is_root};

use base_types::{Hash, TableId};

/// Whether the entry with these roots has this one in a table.
pub(crate) fn has_root(roots: &[(TableId, Hash)], table: TableId, root: &Hash) -> bool
    ensures { Decides result (root_at roots.now table ≡ Some root.now) }
{
    is_root_at(roots, table, root)
}

fn is_root_at(roots: &[(TableId, Hash)], table: TableId, root: &Hash) -> bool
    ensures { result ≡ is_root root.now (root_at roots.now table) }
{
    for own in roots {
        if own.0 == table {
            return is_equal(&own.1, root);
        }
    }
    false
}

fn is_equal(a: &[u8], b: &[u8]) -> bool
    ensures { result ≡ bytes_eq a.now b.now }
{
    a == b
}
