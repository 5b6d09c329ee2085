//! The steps of a board on the table's own words, slots and seats.
ghost use Rattle.std.specs.Prelude.{◌≡◌, ◌≢◌, ℕ, ◌+◌, ◌-◌, ◌<◌, ◌≤◌, [], ◌∷◌, length, Some, IfSome, IfNone};
ghost use Rattle.atomic_table.specs.Table.{rest};
ghost use Rattle.base_board.specs.Outs.{AllBelow, IsLastOut, OutsAreIn};
ghost use Rattle.base_board.specs.Stands.{vacated, seat_view, FitsCell, StandTogether};

use crate::rule::{CellTable, GiveStep, JoinStep, SplitCount, SplitStep, TableSeat, TakeStep};
use crate::world::{AfterVisit, World};
use std::hint;

// What a word says of its cell: it is at home, it is out, or it is out and a thread may wait for it.
// The third keeps a give from asking the system to wake somebody where nobody waits.
const HOME: u64 = 0;

const OUT: u64 = 1;

pub(crate) const AWAITED: u64 = 2;

// How often a thread looks for a cell that is out before it sleeps. Most visits are shorter than it takes to be woken.
const LOOKS: u32 = 200;

// Moves the cell out of the slot that was just taken.
fn empty_slot<W: World>(table: &CellTable<W>, token: &mut TableSeat<W>, i: usize) -> W::Cell
    requires table { token.old.table_id ≡ table.now.shared.table_id }
    requires full { (c : W.Cell) × (token.old.me.1 ≡ (i, Some c) ∷ rest token.old.me.1) }
    ensures table { token.new.table_id ≡ token.old.table_id }
    ensures cell { token.old.me.1 ≡ (i, Some result) ∷ rest token.old.me.1 }
    ensures vacated { token.new.me ≡ (token.old.me.0, (i, None) ∷ rest token.old.me.1) }
{
    let nothing: Option<W::Cell> = None;
    table.shared.exchange(token, i, nothing).unwrap()
}

// Takes cell i if it is at home.
pub(crate) fn try_take<W: World>(
    table: &CellTable<W>,
    token: &mut TableSeat<W>,
    i: usize,
) -> Option<W::Cell>
    requires table { FitsCell token.old.table_id table.now.shared.table_id i }
    requires order { AllBelow i token.old.me.0.out }
    requires part { 0 < token.old.me.0.parts }
    requires carried { token.old.me.1 ≡ vacated token.old.me.0.out }
    ensures table { token.new.table_id ≡ token.old.table_id }
    ensures taken { IfSome result (λ c.
        (token.new.me.0 ≡ seat_view token.old.me.0.state token.old.me.0.parts ((i, c) ∷ token.old.me.0.out))
        × StandTogether W.stand table.now.shared.table_id.slots token.new.me.0.state token.new.me.0.out) }
    ensures missed { IfNone result (token.new.me ≡ token.old.me) }
    ensures carried { token.new.me.1 ≡ vacated token.new.me.0.out }
{
    let found = table
        .shared
        .compare_exchange::<TakeStep<W>>(token, i, HOME, OUT);
    if found != HOME {
        return None;
    }
    Some(empty_slot(table, token, i))
}

// The same, where it is out with some looks more. The processor isn't given up meanwhile.
pub(crate) fn try_take_soon<W: World>(
    table: &CellTable<W>,
    token: &mut TableSeat<W>,
    i: usize,
) -> Option<W::Cell>
    requires table { FitsCell token.old.table_id table.now.shared.table_id i }
    requires order { AllBelow i token.old.me.0.out }
    requires part { 0 < token.old.me.0.parts }
    requires carried { token.old.me.1 ≡ vacated token.old.me.0.out }
    ensures table { token.new.table_id ≡ token.old.table_id }
    ensures taken { IfSome result (λ c.
        (token.new.me.0 ≡ seat_view token.old.me.0.state token.old.me.0.parts ((i, c) ∷ token.old.me.0.out))
        × StandTogether W.stand table.now.shared.table_id.slots token.new.me.0.state token.new.me.0.out) }
    ensures missed { IfNone result (token.new.me ≡ token.old.me) }
    ensures carried { token.new.me.1 ≡ vacated token.new.me.0.out }
{
    for _ in 0..LOOKS {
        if let Some(cell) = try_take(table, token, i) {
            return Some(cell);
        }
        hint::spin_loop();
    }
    None
}

// The same, and where the cell is out its word says from then on that a thread waits for it.
pub(crate) fn try_take_or_mark<W: World>(
    table: &CellTable<W>,
    token: &mut TableSeat<W>,
    i: usize,
) -> Option<W::Cell>
    requires table { FitsCell token.old.table_id table.now.shared.table_id i }
    requires order { AllBelow i token.old.me.0.out }
    requires part { 0 < token.old.me.0.parts }
    requires carried { token.old.me.1 ≡ vacated token.old.me.0.out }
    ensures table { token.new.table_id ≡ token.old.table_id }
    ensures taken { IfSome result (λ c.
        (token.new.me.0 ≡ seat_view token.old.me.0.state token.old.me.0.parts ((i, c) ∷ token.old.me.0.out))
        × StandTogether W.stand table.now.shared.table_id.slots token.new.me.0.state token.new.me.0.out) }
    ensures missed { IfNone result (token.new.me ≡ token.old.me) }
    ensures carried { token.new.me.1 ≡ vacated token.new.me.0.out }
{
    let found = table.shared.swap::<TakeStep<W>>(token, i, AWAITED);
    if found != HOME {
        return None;
    }
    Some(empty_slot(table, token, i))
}

// Gives cell i back, which is the last that was taken, and wakes a thread that may wait for it.
pub(crate) fn give_back<W: World, P: AfterVisit<W::Seat>>(
    table: &CellTable<W>,
    token: &mut TableSeat<W>,
    i: usize,
    cell: W::Cell,
)
    requires table { FitsCell token.old.table_id table.now.shared.table_id i }
    requires last { IsLastOut i token.old.me.0.out }
    requires part { 0 < token.old.me.0.parts }
    requires carried { token.old.me.1 ≡ vacated token.old.me.0.out }
    requires may { (t : W.Seat) × W.may token.old.me.0.state token.old.me.0.out i cell t × P.after t }
    ensures table { token.new.table_id ≡ token.old.table_id }
    ensures given { (t : W.Seat) × P.after t
        × (token.new.me.0 ≡ seat_view t token.old.me.0.parts (rest token.old.me.0.out)) }
    ensures carried { token.new.me.1 ≡ vacated token.new.me.0.out }
{
    let full: Option<W::Cell> = Some(cell);
    match table.shared.exchange(token, i, full) {
        None => {}
        Some(_) => unreachable!(),
    }
    if table.shared.swap::<GiveStep<P>>(token, i, HOME) != OUT {
        table.shared.wake_one(i);
    }
}

// Makes a seat with so many of this seat's parts.
pub(crate) fn divide<W: World, K: SplitCount>(
    table: &CellTable<W>,
    token: &mut TableSeat<W>,
    parts: u32,
) -> TableSeat<W>
    requires table { (token.old.table_id ≡ table.now.shared.table_id)
        × (0 < table.now.shared.table_id.words) }
    requires count { (parts ≡ K.count) × (0 < parts) × (parts < token.old.me.0.parts) }
    ensures table { (token.new.table_id ≡ token.old.table_id) × (result.table_id ≡ token.old.table_id) }
    ensures left { token.new.me ≡ (
      seat_view (W.kept token.old.me.0.state parts) (token.old.me.0.parts - parts) token.old.me.0.out,
      token.old.me.1,
    ) }
    ensures right { result.me ≡ (seat_view (W.split token.old.me.0.state parts) parts [], []) }
{
    // the parts exist in the proof alone: `K` has the same number
    let _ = parts;
    table.shared.split_seat::<SplitStep<W, K>>(token)
}

// Takes in a seat that may end.
pub(crate) fn unite<W: World>(table: &CellTable<W>, token: &mut TableSeat<W>, other: TableSeat<W>)
    requires table { (token.old.table_id ≡ table.now.shared.table_id)
        × (other.table_id ≡ table.now.shared.table_id)
        × (0 < table.now.shared.table_id.words) }
    requires part { 0 < token.old.me.0.parts }
    requires end { (other.me.0.out ≡ []) × (other.me.1 ≡ []) × W.may_end other.me.0.state }
    ensures table { token.new.table_id ≡ token.old.table_id }
    ensures both { token.new.me ≡ (
      seat_view (W.joined token.old.me.0.state other.me.0.state) (token.old.me.0.parts + other.me.0.parts)
          token.old.me.0.out,
      token.old.me.1,
    ) }
{
    table.shared.join_seat::<JoinStep<W>>(token, other);
}
