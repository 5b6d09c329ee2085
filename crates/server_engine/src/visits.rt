//! The visits that a statement of a session needs, or its end.

ghost use Rattle.std.specs.Prelude.{ℕ, ◌≡◌, MatchBool};
ghost use Rattle.server_session.specs.declared.need.NextVisit.TheVariants as need;
ghost use Rattle.server_engine.specs.CoreInput.{CoreInput};
ghost use Rattle.server_engine.specs.IsMidway.{ChangesSession, GoesOn, LessWork, MayContinue, NeedsVisit, WentOn, WentToEnd};

use crate::one_thread::Core;
use base_merkle::Hash32;
use server_session::NextVisit;
use server_visits::visit;
use std::alloc::Global;

/// The number of the ledger's cell.
pub(crate) const LEDGER: usize = 1;

impl<H: Hash32> Core<H> {
    // Makes all visits that the session needs. What lacks memory there is answered so.
    pub(crate) fn visit_needed(&mut self, alloc: Global, session: usize)
        requires { MayContinue H.digest self.old session }
        ensures midway { (h : H) (a : CoreInput) → GoesOn H.digest h self.old a session
            → GoesOn H.digest h self.new a session }
        ensures turned { ChangesSession WentToEnd session self.old self.new }
    {
        while self.visit_next(alloc, session) {}
    }

    // Makes the next visit that the session needs; false where it needs none.
    fn visit_next(&mut self, alloc: Global, session: usize) -> bool
        requires { MayContinue H.digest self.old session }
        ensures midway { (h : H) (a : CoreInput) → GoesOn H.digest h self.old a session
            → GoesOn H.digest h self.new a session }
        ensures next { MatchBool result
            (ChangesSession WentOn session self.old self.new × LessWork session self.old self.new)
            ((self.new ≡ self.old) × ChangesSession WentToEnd session self.old self.new) }
    {
        match self.sessions[session].seat.need() {
            NextVisit::Cell(cell) => {
                self.visit(alloc, session, cell);
                true
            }
            NextVisit::All => {
                self.visit_all(alloc, session);
                true
            }
            NextVisit::Done => false,
        }
    }

    // Visits the cell that the session needs.
    fn visit(&mut self, alloc: Global, session: usize, cell: usize)
        requires { NeedsVisit H.digest self.old session (need.Cell cell) }
        ensures midway { (h : H) (a : CoreInput) → GoesOn H.digest h self.old a session
            → GoesOn H.digest h self.new a session }
        ensures turned { ChangesSession WentOn session self.old self.new }
        ensures less { LessWork session self.old self.new }
    {
        let seat = &mut self.sessions[session].seat;
        visit(seat, alloc, &mut self.cells[cell]);
    }

    // Visits all cells, to keep an image of them; where there is no memory for it the statement is refused.
    fn visit_all(&mut self, alloc: Global, session: usize)
        requires { NeedsVisit H.digest self.old session need.All }
        ensures midway { (h : H) (a : CoreInput) → GoesOn H.digest h self.old a session
            → GoesOn H.digest h self.new a session }
        ensures turned { ChangesSession WentOn session self.old self.new }
        ensures less { LessWork session self.old self.new }
    {
        let items = self.cells[LEDGER].item_count() as u64;
        self.sessions[session].keep_image(alloc, items, &self.cells);
    }
}
