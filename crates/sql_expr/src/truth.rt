//! Kleene's logic of three truths.

ghost use Rattle.std.specs.Prelude.{◌≡◌};
ghost use Rattle.spec_model.specs.Truths as spec;

/// True where both are, false where one is, else unknown.
pub(crate) fn both(s: Option<bool>, t: Option<bool>) -> Option<bool>
    ensures { result ≡ spec.both s t }
{
    match (s, t) {
        (Some(false), _) | (_, Some(false)) => Some(false),
        (Some(true), Some(true)) => Some(true),
        _ => None,
    }
}

/// True where one is, false where both are, else unknown.
pub(crate) fn either(s: Option<bool>, t: Option<bool>) -> Option<bool>
    ensures { result ≡ spec.either s t }
{
    match (s, t) {
        (Some(true), _) | (_, Some(true)) => Some(true),
        (Some(false), Some(false)) => Some(false),
        _ => None,
    }
}

/// False for true, true for false; unknown stays.
pub(crate) fn opposite(t: Option<bool>) -> Option<bool>
    ensures { result ≡ spec.opposite t }
{
    t.map(|b| !b)
}
