//! What the threads of a run share.

use base_board::{Board, BoardSeat};
use base_merkle::Hash32;
use server_board::{LedgerWorld, Serving};
use server_engine::Cell;
use std::alloc::Global;

/// The board of all cells.
pub type Cells<K> = Board<LedgerWorld<K, Cell>>;

/// A thread's seat at this board.
pub type ThreadSeat<K> = BoardSeat<LedgerWorld<K, Cell>>;

/// What the threads of a run share.
#[derive_where(Clone, Copy)]
pub struct Run<'a, K: Serving, H: Hash32, C, G, R> {
    pub rt: &'a R,
    pub alloc: Global,
    pub hasher: H,
    /// The moment that each statement has, in ticks; where there is none, the clock says it.
    pub moment: Option<u64>,
    pub clock: &'a C,
    pub gate: &'a G,
    pub board: &'a Cells<K>,
}
