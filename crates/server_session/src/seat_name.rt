//! The name of a seat's session.

ghost use Rattle.std.specs.Prelude.{◌≡◌};

use crate::seat::Seat;
use base_merkle::Hash32;
use base_types::Name;

impl<H: Hash32> Seat<H> {
    /// The name of its session.
    pub fn name(&self) -> &Name
        ensures { result.now ≡ self.now.name }
    {
        &self.name
    }
}
