//! What the cells of a board and the seats at it mean: a world, and its laws.
ghost use Rattle.std.specs.Prelude.{◌≡◌, ◌≢◌, ℕ, ◌<◌, List, ◌∷◌, ◌++◌, [], slice_set};
ghost use mathlib.Core.Option.{some};
ghost use lib.ListN.{get_elem?};
ghost use Rattle.base_board.specs.Outs.{OutsAreIn};

/// The rule that a board keeps, chosen by whoever makes the board.
///
/// A world says what lies in a cell, what is known of a seat, and when all cells and all seats **stand
/// together**. That is one fact about two lists, for example "each counter is the sum of what the seats
/// added to it". A board keeps it true at every moment, whatever the threads do and in whatever order.
///
/// To make that possible the world names the only changes that there may be (a visit, a split and a
/// join), and proves three laws: each of these changes, made alone, keeps the cells and seats standing
/// together. The laws speak of lists and of one change, never of threads.
///
/// All members are ghost: they exist for the proof, and cost nothing when the program runs. No value of
/// `Seat` is ever made.
///
/// In the laws `seats` has one entry for each seat that the board ever had, in the order in which they
/// came to be. A seat that was joined into another keeps its place in the list, as `nobody`.
pub trait World {
    /// What lies in a cell.
    type Cell: Drop;

    /// What contracts know of one seat: for example, what its thread has added so far. It has to be a
    /// plain type without parameters where seats are given with `Brand` (see `AfterVisit`).
    type Seat;

    /// What the first seat of a board with these cells knows.
    ghost first: { List Self.Cell → Self.Seat };

    /// The cells and the seats stand together.
    ghost stand: { List Self.Cell → List Self.Seat → Type 0 };

    /// The visit that a seat may make. In this order: what the seat knows, the cells that it has out, as
    /// they were when they were taken and the last one first, the number of the cell that is given back,
    /// what it holds now, and what the seat knows from then on.
    ghost may: { Self.Seat → List (ℕ × Self.Cell) → ℕ → Self.Cell → Self.Seat → Type 0 };

    /// What a seat knows once it has given so many of its parts away.
    ghost kept: { Self.Seat → ℕ → Self.Seat };

    /// What the new seat knows that was split from it with so many parts.
    ghost split: { Self.Seat → ℕ → Self.Seat };

    /// The seat may be joined into another.
    ghost may_end: { Self.Seat → Type 0 };

    /// What a seat knows once it took in another.
    ghost joined: { Self.Seat → Self.Seat → Self.Seat };

    /// What stands in the list in the place of a seat that was joined into another.
    ghost nobody: { Self.Seat };

    /// A visit that a seat may make keeps cells and seats standing together. The seat's cells are out,
    /// and so among the cells as it took them.
    ghost visits: { (cells : List Self.Cell) (seats : List Self.Seat) (j : ℕ) (s : Self.Seat)
        (out : List (ℕ × Self.Cell)) (i : ℕ) (c : Self.Cell) (t : Self.Seat)
        → stand cells seats → get_elem? seats j ≡ some s → OutsAreIn cells out → may s out i c t
        → stand (slice_set cells i c) (slice_set seats j t) };

    /// So does a split. The new seat comes last.
    ghost splits: { (cells : List Self.Cell) (seats : List Self.Seat) (j : ℕ) (s : Self.Seat) (n : ℕ)
        → stand cells seats → get_elem? seats j ≡ some s → 0 < n
        → stand cells (slice_set seats j (kept s n) ++ split s n ∷ []) };

    /// So does a join of a seat that may end.
    ghost joins: { (cells : List Self.Cell) (seats : List Self.Seat) (j k : ℕ) (s t : Self.Seat)
        → stand cells seats → get_elem? seats j ≡ some s → get_elem? seats k ≡ some t → k ≢ j
        → may_end t
        → stand cells (slice_set (slice_set seats j (joined s t)) k nobody) };
}

/// What is said of what a seat knows after a visit, as a type parameter of `Board::give`.
///
/// The caller of `give` chooses it anew at each call. It writes `Brand` for the parameter, and says in
/// its proof file what `after` is, from the arguments of that call: `docs/BOARD.md`, "Picks". Where the
/// arguments tell all that the seat knows then, it is that the seat knows just this; where they tell less,
/// it is what they tell.
pub trait AfterVisit<S> {
    ghost after: { S → Type 0 };
}
