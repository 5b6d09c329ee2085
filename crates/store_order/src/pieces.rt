//! Pieces of a list of starts. All are full up to one that isn't, and those behind it are empty.

ghost use Rattle.std.specs.Prelude.{◌≡◌, ◌≤◌, ◌<◌, ◌+◌, ◌*◌, ◌++◌, OnErr, OnOk, length, max, take, drop};
ghost use Rattle.std.specs.List.{insert, remove};
ghost use Rattle.store_order.specs.Packed.{IsPacked, carried, filled, flat};

use crate::entry::Entry;
use crate::piece::{PIECE, Piece};
use base_types::Memory;
use std::alloc::Global;

/// Makes so many pieces of them, where there are fewer. For want of memory there may be some more.
pub(crate) fn add_pieces(pieces: &mut Vec<Piece>, alloc: Global, count: usize) -> Result<(), Memory>
    requires packed { IsPacked PIECE pieces.old.items }
    ensures packed { IsPacked PIECE pieces.new.items }
    ensures list { flat pieces.new.items ≡ flat pieces.old.items }
    ensures more { length pieces.old.items ≤ length pieces.new.items }
    ensures most { length pieces.new.items ≤ max count (length pieces.old.items) }
    ensures ok { OnOk result (count ≤ length pieces.new.items) }
{
    while pieces.len() < count {
        add_piece(pieces, alloc)?;
    }
    Ok(())
}

// Adds an empty piece.
fn add_piece(pieces: &mut Vec<Piece>, alloc: Global) -> Result<(), Memory>
    requires packed { IsPacked PIECE pieces.old.items }
    ensures packed { IsPacked PIECE pieces.new.items }
    ensures list { flat pieces.new.items ≡ flat pieces.old.items }
    ensures ok { OnOk result (length pieces.new.items ≡ length pieces.old.items + 1) }
    ensures err { OnErr result (length pieces.new.items ≡ length pieces.old.items) }
{
    let piece = Piece::new(alloc)?;
    pieces.push(piece)?;
    Ok(())
}

/// Puts a start at this place of the list. The last piece has room.
pub(crate) fn put(pieces: &mut [Piece], place: usize, start: Entry)
    requires packed { IsPacked PIECE pieces.old }
    requires within { place ≤ length (flat pieces.old) }
    requires room { length (flat pieces.old) + 1 ≤ PIECE * length pieces.old }
    ensures packed { IsPacked PIECE pieces.new }
    ensures list { flat pieces.new ≡ insert (flat pieces.old) place start }
    ensures count { length pieces.new ≡ length pieces.old }
{
    let at = place / PIECE;
    let carry = pieces[at].insert(place % PIECE, start);
    carry_on(pieces, at + 1, carry);
}

/// Takes out the start at this place of the list.
pub(crate) fn take_out(pieces: &mut [Piece], place: usize)
    requires packed { IsPacked PIECE pieces.old }
    requires within { place < length (flat pieces.old) }
    ensures packed { IsPacked PIECE pieces.new }
    ensures list { flat pieces.new ≡ remove (flat pieces.old) place }
    ensures count { length pieces.new ≡ length pieces.old }
{
    let at = place / PIECE;
    pieces[at].remove(place % PIECE);
    fill_up(pieces, at);
}

// Puts what a full piece gave up before the starts of the next, and so on.
fn carry_on(pieces: &mut [Piece], from: usize, carry: Option<Entry>)
    requires { from ≤ length pieces.old }
    ensures { pieces.new ≡ take from pieces.old ++ carried PIECE carry (drop from pieces.old) }
{
    let mut place = from;
    let mut carry = carry;
    while place < pieces.len() {
        let Some(start) = carry else {
            return;
        };
        carry = pieces[place].insert(0, start);
        place += 1;
    }
}

// Gives each piece from this place on the first start of the next, up to an empty one.
fn fill_up(pieces: &mut [Piece], from: usize)
    requires { from < length pieces.old }
    ensures { pieces.new ≡ take from pieces.old ++ filled PIECE (drop from pieces.old) }
{
    let mut place = from;
    while place + 1 < pieces.len() {
        let Some(start) = pieces[place + 1].remove(0) else {
            return;
        };
        pieces[place].push(start);
        place += 1;
    }
}
