//! What holds of every board, whatever its world: each step keeps the rule, and so does every history.
ghost use Rattle.std.specs.Prelude.{ℕ, List, Option};
ghost use Rattle.atomic_table.specs.Table.{State};
ghost use Rattle.base_board.specs.declared.view.SeatView.{SeatView};
ghost use Rattle.base_board.specs.Histories.{BoardEvent, Leads};
ghost use Rattle.base_board.specs.Stands.{Stands};
ghost use Rattle.base_board.specs.Steps.{TakesCell, MissesCell, GivesCell, SplitsSeat, JoinsSeat};

use crate::world::World;

/// After any list of visits, splits and joins of any seats, in whatever order, the cells and the seats
/// stand together if they did at the start. It is a law: the body is empty.
pub fn every_history<W: World>()
    ensures { (events : List (BoardEvent W.Cell W.Seat))
        (cells : List W.Cell) (seats : List W.Seat)
        (cells_after : List W.Cell) (seats_after : List W.Seat)
        → W.stand cells seats
        → Leads W.may W.kept W.split W.may_end W.joined W.nobody events cells seats cells_after seats_after
        → W.stand cells_after seats_after }
{}

/// Each of the five kinds of step keeps the rule of a board, `Stands`: the cells, those that are out as
/// they were when they were taken, stand together with all seats; the parts of all seats sum to those of
/// the start; and a seat without a part is spent. Nothing else changes a board, so the rule holds between
/// any two steps. It is a law: the body is empty.
pub fn every_step<W: World>()
    ensures take_won { (parts : ℕ) (s t : State (Option W.Cell) (SeatView W.Cell W.Seat))
        → Stands W.stand W.nobody parts s → TakesCell s t → Stands W.stand W.nobody parts t }
    ensures take_missed { (parts : ℕ) (s t : State (Option W.Cell) (SeatView W.Cell W.Seat))
        → Stands W.stand W.nobody parts s → MissesCell s t → Stands W.stand W.nobody parts t }
    ensures give { (parts : ℕ) (s t : State (Option W.Cell) (SeatView W.Cell W.Seat))
        → Stands W.stand W.nobody parts s → GivesCell W.may s t → Stands W.stand W.nobody parts t }
    ensures split { (parts : ℕ) (s t : State (Option W.Cell) (SeatView W.Cell W.Seat))
        → Stands W.stand W.nobody parts s → SplitsSeat W.kept W.split s t
        → Stands W.stand W.nobody parts t }
    ensures join { (parts : ℕ) (s t : State (Option W.Cell) (SeatView W.Cell W.Seat))
        → Stands W.stand W.nobody parts s → JoinsSeat W.may_end W.joined W.nobody s t
        → Stands W.stand W.nobody parts t }
{}
