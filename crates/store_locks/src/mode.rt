//! Which modes conflict, and their order.

ghost use Rattle.std.specs.Prelude.{◌≡◌};
ghost use Rattle.spec_model.specs.Locks.{agree, conflict};
ghost use Rattle.spec_model.specs.Holds.{rank};

use sql_types::Mode;

/// Whether two transactions can't hold one item in these modes at a time. Takes no memory.
#[tactic(auto, unfolding(spec_model::specs::Locks::conflict))]
pub fn conflicts(a: Mode, b: Mode) -> bool
    ensures { result ≡ conflict a b }
{
    !agree(a, b)
}

fn agree(a: Mode, b: Mode) -> bool
    ensures { result ≡ agree a b }
{
    match (a, b) {
        (Mode::IS, Mode::IS | Mode::IX | Mode::S) => true,
        (Mode::IX, Mode::IS | Mode::IX) => true,
        (Mode::S, Mode::IS | Mode::S) => true,
        _ => false,
    }
}

// The modes in their order.
pub(crate) fn rank(mode: Mode) -> u8
    ensures { result ≡ rank mode }
{
    match mode {
        Mode::IS => 0,
        Mode::IX => 1,
        Mode::S => 2,
        Mode::X => 3,
    }
}
