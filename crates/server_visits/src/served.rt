//! The cells that seats visit are cells of a server.

use crate::cell::Cell;
use server_session::ServedCell;

impl ServedCell for Cell {
    ghost use Rattle.server_session.specs.KeptCell.{Keeps};

    ghost cell = { λ c. c.cell };

    ghost keeps = { Keeps };
}
