//! The places of holds in the order of their items.

ghost use Rattle.std.specs.Prelude.{◌≡◌, ◌<◌, ◌≤◌, ℕ, All, true, false, get_or, length, map, OnOk};
ghost use Rattle.spec_model.specs.Locks.{same_item};
ghost use Rattle.store_locks.specs.Index.{Covers, Indexed, item_at, item_is_before, staying, stays};
ghost use Rattle.spec_model.specs.Holds.{is_foreign};

use crate::item::{compare_items, same_item};
use base_types::{Memory, TxId};
use sql_types::{Hold, Item};

// The item of the hold at a place.
#[tactic(auto, using(crate::proofs::Indexes::item_read))]
fn item_at(holds: &[Hold], place: usize) -> &Item
    requires { place < length holds.now }
    ensures { result.now ≡ item_at holds.now place }
{
    &holds[place].request.item
}

fn item_is_before(holds: &[Hold], place: usize, item: &Item) -> bool
    requires { place < length holds.now }
    ensures { result ≡ item_is_before holds.now item.now place }
{
    compare_items(item_at(holds, place), item).is_lt()
}

/// Where the places of the holds on an item begin, by halving.
pub(crate) fn first_at(holds: &[Hold], places: &[usize], item: &Item) -> usize
    requires { Indexed holds.now places.now }
    ensures bound { result ≤ length places.now }
    ensures before { (k : ℕ) → k < result → item_is_before holds.now item.now (get_or places.now k 0) ≡ true }
    ensures behind { (k : ℕ) → result ≤ k → k < length places.now
        → item_is_before holds.now item.now (get_or places.now k 0) ≡ false }
{
    let mut low = 0;
    let mut high = places.len();
    while low < high {
        let mid = low + (high - low) / 2;
        if item_is_before(holds, places[mid], item) {
            low = mid + 1;
        } else {
            high = mid;
        }
    }
    low
}

// Where the places of the holds on an item end, from one where they begin.
fn end_at(holds: &[Hold], places: &[usize], item: &Item, from: usize) -> usize
    requires within { All (λ place. place < length holds.now) places.now }
    requires from { from ≤ length places.now }
    ensures bound { (from ≤ result) × (result ≤ length places.now) }
    ensures other { result < length places.now
        → same_item item.now (item_at holds.now (get_or places.now result 0)) ≡ false }
{
    let mut end = from;
    while end < places.len() && same_item(item, item_at(holds, places[end])) {
        end += 1;
    }
    end
}

/// The places of the holds on an item.
pub(crate) fn places_of<'a>(holds: &[Hold], places: &'a [usize], item: &Item) -> &'a [usize]
    requires { Indexed holds.now places.now }
    ensures within { All (λ place. place < length holds.now) result.now }
    ensures covers { Covers holds.now item.now result.now }
{
    let first = first_at(holds, places, item);
    let end = end_at(holds, places, item, first);
    &places[first..end]
}

/// Whether the hold at a place is another transaction's.
pub(crate) fn stays(holds: &[Hold], place: usize, tx: TxId) -> bool
    ensures { result ≡ stays (is_foreign tx) holds.now place }
{
    match holds.get(place) {
        Some(hold) => hold.tx != tx,
        None => false,
    }
}

/// Makes room to note where one more hold moves than there are.
pub(crate) fn make_room(moved: &mut Vec<usize>, holds: usize) -> Result<(), Memory>
    requires { holds ≤ length moved.old.items }
    ensures ok { OnOk result (holds < length moved.new.items) }
    ensures kept { length moved.old.items ≤ length moved.new.items }
{
    if moved.len() == holds {
        moved.push(0)?;
    }
    Ok(())
}

/// Notes for each hold its place when the transaction's are gone.
pub(crate) fn note_moves(holds: &[Hold], moved: &mut [usize], tx: TxId)
    requires { length holds.now ≤ length moved.old }
    ensures len { length moved.new ≡ length moved.old }
    ensures moves { (place : ℕ) → place < length holds.now
        → get_or moved.new place 0 ≡ staying (is_foreign tx) holds.now place }
{
    let mut kept = 0;
    for place in 0..holds.len() {
        moved[place] = kept;
        if holds[place].tx != tx {
            kept += 1;
        }
    }
}

/// Puts in the place of each place that to which its hold moves.
pub(crate) fn move_places(places: &mut [usize], moved: &[usize])
    requires { All (λ place. place < length moved.now) places.old }
    ensures { places.new ≡ map (λ place. get_or moved.now place 0) places.old }
{
    for place in places {
        *place = moved[*place];
    }
}
