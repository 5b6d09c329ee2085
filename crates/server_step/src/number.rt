//! The numbers of sessions.

ghost use Rattle.std.specs.Prelude.{◌≡◌, not, map};
ghost use Rattle.std.specs.List.{prefix_len};
ghost use Rattle.std.specs.Str.{bytes_eq};
ghost use Rattle.server_step.specs.Numbers.{number_of};

fn is_other(name: &str, other: &str) -> bool
    ensures { result ≡ not (bytes_eq name.now other.now) }
{
    name != other
}

fn others_before(sessions: &[&str], name: &str) -> usize
    ensures { result ≡ prefix_len (λ other. not (bytes_eq name.now other.now)) sessions.now }
{
    sessions
        .iter()
        .take_while(|other| is_other(name, **other))
        .count()
}

/// The number of the session of this name, and that of all sessions if it isn't among them. It takes a
/// comparison with each name up to it.
pub(crate) fn number_of(sessions: &[&str], name: &str) -> usize
    ensures { result ≡ number_of (map (λ n. n.now) sessions.now) name.now }
{
    others_before(sessions, name)
}
