//! SAVE IMAGE that finds no memory before it visits the cells.

ghost use Rattle.std.specs.Prelude.{◌≡◌, ◌<◌, []};
ghost use Rattle.server_session.specs.ControlPoints.{KeepsStatement};
ghost use Rattle.server_session.specs.Needs.{need_of, visits_left};
ghost use Rattle.server_session.specs.Rest.{IsSeated};
ghost use Rattle.server_session.specs.Steps.{StepsAlone};
ghost use Rattle.server_session.specs.declared.need.NextVisit.TheVariants.{All};

use crate::outcome::stopped;
use crate::placing::put_point;
use crate::seat::Seat;
use crate::stage::ControlPoint;
use base_merkle::Hash32;
use sql_value::Refusal;

impl<H: Hash32> Seat<H> {
    /// There is no memory to visit all cells at once: SAVE IMAGE is refused with NoMemory. Takes no memory.
    pub fn lack_image(&mut self)
        requires seated { IsSeated H.digest self.old }
        requires needs { need_of self.old ≡ All }
        ensures steps { StepsAlone H.digest self.old [] self.new }
        ensures stays { KeepsStatement self.old self.new }
        ensures comes_on { visits_left self.new < visits_left self.old }
    {
        put_point(
            &mut self.point,
            ControlPoint::Inside(stopped(Refusal::NoMemory)),
        );
    }
}
