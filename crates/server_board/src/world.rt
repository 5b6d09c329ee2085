//! The world of a server's cells.

ghost use Rattle.server_board.specs.ServedDatabase.{ServedDatabase};

use base_board::{AfterVisit, World};
use server_session::ServedCell;
use std::marker::{Brand, Model, PhantomData};

/// The database of which a board's cells are, and its server.
///
/// The server is known only where the hasher is, which is a value. So whoever makes the board chooses all
/// this, by `Brand` in the place of the parameter (`docs/BOARD.md`, "Picks").
pub trait Serving {
    ghost database: { ServedDatabase };
}

impl Serving for Brand {
    ghost use Rattle.server_board.specs.SomeServer.{some_database};

    ghost database = { some_database };
}

/// What is known of a seat: the seat of which the laws on visits speak. No value of this type is made.
pub struct SeatKnowledge {
    pub present: bool,
}

impl Model for SeatKnowledge {
    ghost use Rattle.spec_protocol.specs.Seats.{SeatState, nobody};

    ghost Value = { SeatState };

    ghost view = { λ k. nobody };
}

/// The world of a database of a server. Cells and seats stand together as the server's do, and a seat may
/// make the visits that a seat of the server may make.
pub struct LedgerWorld<K, C> {
    of: PhantomData<(K, C)>,
}

impl<K: Serving, C: ServedCell> World for LedgerWorld<K, C> {
    ghost use Rattle.std.specs.Prelude.{map};
    ghost use Rattle.spec_protocol.specs.AllowedVisit.{first_seat};
    ghost use Rattle.spec_protocol.specs.Seats as seats;
    ghost use Rattle.server_board.specs.ServedDatabase.{StandsOn, MayVisitServed};
    ghost use Rattle.server_board.specs.Laws.{visits_keep, splits_keep, joins_keep};

    type Cell = C;

    type Seat = SeatKnowledge;

    ghost first = { λ cells. first_seat (map C.cell cells) };

    ghost stand = { StandsOn C.cell C.keeps K.database };

    ghost may = { MayVisitServed C.cell C.keeps K.database };

    ghost kept = { seats.kept };

    ghost split = { seats.split };

    ghost may_end = { seats.may_end };

    ghost joined = { seats.joined };

    ghost nobody = { seats.nobody };

    ghost visits = { visits_keep C.cell C.keeps K.database };

    ghost splits = { splits_keep C.cell C.keeps K.database };

    ghost joins = { joins_keep C.cell C.keeps K.database };
}

impl AfterVisit<SeatKnowledge> for Brand {
    ghost after = { λ s. Unit {0} };
}
