//! The receipt of a part of a transaction.

ghost use Rattle.std.specs.Prelude.{⊤, ◌≡◌, ◌⊎◌};
ghost use Rattle.base_io.specs.Count.{Rises};
ghost use Rattle.base_io.specs.History.{Since};
ghost use Rattle.cli_audit.specs.Answer.{Unfailed};
ghost use Rattle.cli_audit.specs.Calls.{AreGetsAndPuts, AreWrites};
ghost use Rattle.cli_audit.specs.Receipt.{ReceiptCause, Receipted, SaysNo, ReceiptedOrIdle, PutsReceipt};
ghost use Rattle.cli_commands.specs.Words.{wanted_of};

use base_io::{Sink, Vault};
use base_merkle::Hash32;
use cli_audit::{Status, Wanted, make_receipt};
use cli_words::Part;
use std::alloc::Global;

/// What a receipt of a part of a transaction is wanted of.
fn wanted_of(tx: u64, part: Part) -> Wanted
    ensures { result ≡ wanted_of tx part }
{
    match part {
        Part::Entry => Wanted::Entry(tx),
        Part::Table(table) => Wanted::Table(tx, table),
        Part::Event(table, seq) => Wanted::Event(tx, table, seq),
    }
}

/// Makes the receipt of a part of a transaction, as `make_receipt` makes one.
pub(crate) fn receipt_of_part<H: Hash32, K: Sink, V: Vault>(
    alloc: Global,
    h: H,
    image: &str,
    digests: &str,
    tx: u64,
    part: Part,
    save: &str,
    sink: &mut K,
    vault: &mut V,
) -> Status
    ensures cause { ReceiptCause result (H.digest h) image.now digests.now (wanted_of tx part) (V.names vault.old)
        (Rises (V.faults vault.old) (V.faults vault.new))
        (Rises (K.faults sink.old) (K.faults sink.new) ⊎ Rises (K.stalls sink.old) (K.stalls sink.new)) }
    ensures receipted { ReceiptedOrIdle result
        (Receipted result (H.digest h) image.now digests.now (wanted_of tx part) save.now
        (V.names vault.old) (V.names vault.new) (K.taken sink.old) (K.taken sink.new))
        (SaysNo result (H.digest h) image.now digests.now
        (V.names vault.old) (V.names vault.new) (K.taken sink.old) (K.taken sink.new))
        ((V.names vault.new ≡ V.names vault.old) × (sink.new ≡ sink.old)) }
    ensures shown { result ≡ Status.Done → PutsReceipt (H.digest h) image.now digests.now (wanted_of tx part)
        save.now (V.names vault.old) (V.names vault.new) }
    ensures calls { Since (V.history vault.old) (V.history vault.new) (AreGetsAndPuts 2 result) }
    ensures writes { Since (K.history sink.old) (K.history sink.new) (AreWrites result) }
    ensures unfailed { Unfailed result ⊤ (V.faults vault.new ≡ V.faults vault.old)
        ((K.faults sink.new ≡ K.faults sink.old) × (K.stalls sink.new ≡ K.stalls sink.old)) }
    ensures unwritten { (result ≡ Status.Done → ⊥) → (result ≡ Status.No → ⊥)
        → (result ≡ Status.SinkFault → ⊥) → sink.new ≡ sink.old }
{
    let wanted = wanted_of(tx, part);
    make_receipt(alloc, h, image, digests, wanted, save, sink, vault)
}
