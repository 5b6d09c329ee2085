//! The visit of all cells, for an image.

ghost use Rattle.std.specs.Prelude.{◌≡◌, ◌<◌};
ghost use Rattle.server_visits.specs.Images.{AreImageBytes};
ghost use Rattle.server_session.specs.Needs.{visits_left};
ghost use Rattle.server_session.specs.ControlPoints.{KeepsStatement};
ghost use Rattle.server_session.specs.Steps.{AmongAll, items_in, KeepsImage};

use crate::all_cells::image_bytes_of;
use crate::cell::Cell;
use base_merkle::Hash32;
use base_types::{Blob, Memory};
use server_session::{Answering, ControlPoint, LEDGER, Seat, Stage, put_point};
use sql_types::Reply;
use sql_value::Refusal;
use std::alloc::Global;

/// Visits all cells at once, and gives the bytes of the image that the seat kept; none where there is no
/// memory for one.
pub fn visit_all<H: Hash32>(seat: &mut Seat<H>, alloc: Global, cells: &[Cell]) -> Option<Blob>
    requires { AmongAll H.digest seat.old cells.now }
    ensures visits { KeepsImage H.digest seat.old cells.now result seat.new }
    ensures comes_on { visits_left seat.new < visits_left seat.old }
    ensures stays { KeepsStatement seat.old seat.new }
{
    match image_bytes_of(alloc, cells) {
        Ok(bytes) => keep(seat, cells, bytes),
        Err(Memory) => keep_nothing(seat, cells),
    }
}

// Keeps an image with these bytes.
fn keep<H: Hash32>(seat: &mut Seat<H>, cells: &[Cell], bytes: Blob) -> Option<Blob>
    requires among { AmongAll H.digest seat.old cells.now }
    requires bytes { AreImageBytes cells.now bytes }
    ensures visits { KeepsImage H.digest seat.old cells.now result seat.new }
    ensures comes_on { visits_left seat.new < visits_left seat.old }
    ensures stays { KeepsStatement seat.old seat.new }
{
    seat.images += 1;
    put_point(
        &mut seat.point,
        ControlPoint::Inside(Stage::Answering(Answering {
            reply: Reply::Image(item_count(cells) as u64),
            said: false,
            def: None,
        })),
    );
    Some(bytes)
}

// Refuses it for want of memory.
fn keep_nothing<H: Hash32>(seat: &mut Seat<H>, cells: &[Cell]) -> Option<Blob>
    requires { AmongAll H.digest seat.old cells.now }
    ensures visits { KeepsImage H.digest seat.old cells.now result seat.new }
    ensures comes_on { visits_left seat.new < visits_left seat.old }
    ensures stays { KeepsStatement seat.old seat.new }
{
    put_point(
        &mut seat.point,
        ControlPoint::Inside(Stage::Answering(Answering {
            reply: Reply::Refused(Refusal::NoMemory),
            said: false,
            def: None,
        })),
    );
    None
}

// How many items the journal in the ledger's cell has.
fn item_count(cells: &[Cell]) -> usize
    ensures { result ≡ items_in cells.now }
{
    match cells.get(LEDGER) {
        Some(cell) => cell.item_count(),
        None => 0,
    }
}
