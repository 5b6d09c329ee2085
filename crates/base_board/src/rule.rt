//! The rule of the table under a board, and what each of its steps does to a seat's view.
use crate::view::SeatView;
use crate::world::{AfterVisit, World};
use atomic_table::{Join, Play, Seat, Split, Table, TableRule};
use std::alloc::Global;
use std::marker::{Brand, PhantomData};
use std::snapshot::Snapshot;

/// The words and slots under a board: word i says whether slot i has its cell.
pub(crate) type CellTable<W> = Table<
    Option<<W as World>::Cell>,
    SeatView<<W as World>::Cell, <W as World>::Seat>,
    InitialBoard<<W as World>::Cell>,
    BoardRule<W>,
    Global,
>;

/// A seat as the table sees it.
pub(crate) type TableSeat<W> = Seat<
    Option<<W as World>::Cell>,
    SeatView<<W as World>::Cell, <W as World>::Seat>,
>;

/// What the rule is told once, when the table is made: the cells at the start and the number of parts.
#[derive(Drop)]
pub struct InitialBoard<C> {
    pub cells: Snapshot<Vec<C>>,
    pub parts: u64,
}

/// The rule itself, `Stands` for the world `W`.
pub struct BoardRule<W> {
    world: PhantomData<W>,
}

impl<W: World> TableRule<Option<W::Cell>, SeatView<W::Cell, W::Seat>, InitialBoard<W::Cell>>
    for BoardRule<W> {
    ghost use Rattle.std.specs.Prelude.{[]};
    ghost use Rattle.base_board.specs.Stands.{Stands, seat_view};

    ghost holds = { λ key. Stands W.stand W.nobody key.parts };

    ghost first = { λ key. seat_view (W.first key.cells.value.items) key.parts [] };
}

/// A take, won or missed.
pub(crate) struct TakeStep<W> {
    world: PhantomData<W>,
}

impl<W: World> Play<Option<W::Cell>, SeatView<W::Cell, W::Seat>> for TakeStep<W> {
    ghost use Rattle.base_board.specs.Stands.{took};

    ghost then = { took W.stand };
}

/// A give, after which the seat knows what `P.after` says.
pub(crate) struct GiveStep<P> {
    after: PhantomData<P>,
}

impl<C, S, P: AfterVisit<S>> Play<Option<C>, SeatView<C, S>> for GiveStep<P> {
    ghost use Rattle.base_board.specs.Stands.{gave};

    ghost then = { gave P.after };
}

/// How many parts a split gives away.
pub(crate) trait SplitCount {
    ghost use Rattle.std.specs.Prelude.{ℕ};

    ghost count: { ℕ };
}

impl SplitCount for Brand {
    ghost count = { 0 };
}

/// A split that gives `K.count` parts away.
pub(crate) struct SplitStep<W, K> {
    world: PhantomData<(W, K)>,
}

impl<W: World, K: SplitCount> Split<SeatView<W::Cell, W::Seat>> for SplitStep<W, K> {
    ghost use Rattle.std.specs.Prelude.{[], ◌-◌};
    ghost use Rattle.base_board.specs.Stands.{seat_view};

    ghost left = { λ v. seat_view (W.kept v.state K.count) (v.parts - K.count) v.out };

    ghost right = { λ v. seat_view (W.split v.state K.count) K.count [] };
}

/// A join, after which nothing is left of the other seat.
pub(crate) struct JoinStep<W> {
    world: PhantomData<W>,
}

impl<W: World> Join<SeatView<W::Cell, W::Seat>> for JoinStep<W> {
    ghost use Rattle.std.specs.Prelude.{[], ◌+◌};
    ghost use Rattle.base_board.specs.Stands.{seat_view};

    ghost both = { λ v u. seat_view (W.joined v.state u.state) (v.parts + u.parts) v.out };

    ghost spent = { seat_view W.nobody 0 [] };
}
