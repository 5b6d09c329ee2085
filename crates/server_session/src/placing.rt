//! What a seat holds, in place of what it held. `drop` lets each type go by a function of its own, which is proved
//! once; an assignment has to prove it of each part that the old value may have, wherever it stands.

ghost use Rattle.std.specs.Prelude.{◌≡◌};

use crate::stage::ControlPoint;
use sql_types::Stmt;
use std::mem;

/// Puts a point in the place of another.
pub fn put_point(place: &mut ControlPoint, point: ControlPoint)
    ensures { place.new ≡ point }
{
    drop(mem::replace(place, point));
}

/// Puts a statement in the place of another.
pub(crate) fn put_statement(place: &mut Option<Stmt>, stmt: Option<Stmt>)
    ensures { place.new ≡ stmt }
{
    drop(mem::replace(place, stmt));
}
