//! What steps add to a journal.

ghost use Rattle.std.specs.Prelude.{◌≡◌, List};
ghost use mathlib.Core.Option.{some};
ghost use lib.ListN.{get_elem?};
ghost use Rattle.sql_types.specs.declared.journal.JournalItem.{JournalItem};
ghost use Rattle.spec_protocol.specs.Cells.{Cell, Ledger, LedgerCell, ledger_at};
ghost use Rattle.spec_protocol.specs.Seats.{SeatState};
ghost use Rattle.spec_protocol.specs.Server.{Server};
ghost use Rattle.spec_protocol.specs.Steps.{Step, Steps};
ghost use Rattle.law_moments.specs.AddedInTime.{AddedInTime};

/// Where all that is new in a journal has moments of some seats, it has moments of what steps make of these seats:
/// of the items behind those from which the journal goes on, and of all digests that were issued. So no moment of
/// any other seat is needed for them. And where each new closing is at most the block size, it stays so, whatever the
/// closings before.
pub fn new_items_have_moments_of_seats()
    ensures step { (v : Server) (past : List JournalItem) (cells then_cells : List Cell)
        (seats then_seats : List SeatState) → Step v cells seats then_cells then_seats
        → (l : LedgerCell) → get_elem? cells ledger_at ≡ some (Ledger l) → AddedInTime past seats l
        → (m : LedgerCell) × (get_elem? then_cells ledger_at ≡ some (Ledger m)) × AddedInTime past then_seats m }
    ensures steps { (v : Server) (past : List JournalItem) (cells then_cells : List Cell)
        (seats then_seats : List SeatState) → Steps v cells seats then_cells then_seats
        → (l : LedgerCell) → get_elem? cells ledger_at ≡ some (Ledger l) → AddedInTime past seats l
        → (m : LedgerCell) × (get_elem? then_cells ledger_at ≡ some (Ledger m)) × AddedInTime past then_seats m }
{}
