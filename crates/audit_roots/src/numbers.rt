//! Whether numbers are those from 0 on, each once.

ghost use Rattle.std.specs.Prelude.{◌≡◌};
ghost use Rattle.spec_verify.specs.Entries as spec;
ghost use Rattle.audit_roots.specs.Numbered.{is_range};

/// Whether each number below their count stands among them once. They are sorted where they aren't in order.
pub(crate) fn are_numbered(numbers: &mut Vec<u64>) -> bool
    ensures { result ≡ spec.are_numbered numbers.old.items }
{
    if is_range(numbers) {
        return true;
    }
    numbers.sort_unstable();
    is_range(numbers)
}

fn is_range(numbers: &[u64]) -> bool
    ensures { result ≡ is_range 0 numbers.now }
{
    for (i, number) in numbers.iter().enumerate() {
        if *number != i as u64 {
            return false;
        }
    }
    true
}
