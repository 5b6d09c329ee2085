//! A journal from which a database goes on.

ghost use Rattle.std.specs.Prelude.{⊤, ◌≡◌, ◌≤◌, IfErr, IfOk};
ghost use Rattle.base_io.specs.Count.{Rises};
ghost use Rattle.base_io.specs.History.{Since};
ghost use Rattle.sql_types.specs.declared.journal.TheConstants.{MAX_BLOCK};
ghost use Rattle.audit_replay.specs.GoesOn.{LeadsOn};
ghost use Rattle.cli_audit.specs.Answer.{Unfailed};
ghost use Rattle.cli_audit.specs.Calls.{AreGets, Gave};
ghost use Rattle.cli_audit.specs.Past.{LacksPast};
ghost use Rattle.cli_audit.specs.Replay.{JournalUnder, LacksJournal};

use crate::Status;
use crate::names::{IMAGE_LIMIT, read_name};
use crate::replay::{journal_of, status_of};
use audit_replay::{Past, past_of};
use base_io::Vault;
use base_merkle::Hash32;
use format_journal::Journal;
use sql_reference::run_agrees_with_legal_items;
use std::alloc::Global;

/// The journal that stands under a name.
fn journal_under<V: Vault>(alloc: Global, name: &str, vault: &mut V) -> Result<Journal, Status>
    ensures read { IfOk result (λ journal. JournalUnder name.now (V.names vault.old) (λ J. J ≡ journal)) }
    ensures lacks { IfErr result (λ status. LacksJournal status name.now (V.names vault.old)
        (Rises (V.faults vault.old) (V.faults vault.new))) }
    ensures same { V.names vault.new ≡ V.names vault.old }
    ensures gave { IfOk result (λ journal. Since (V.history vault.old) (V.history vault.new) (Gave 1)) }
    ensures gets { IfErr result
        (λ status. Since (V.history vault.old) (V.history vault.new) (AreGets 1 status)) }
    ensures calm { IfOk result (λ journal. V.faults vault.new ≡ V.faults vault.old) }
    ensures unfailed { IfErr result
        (λ status. Unfailed status ⊤ (V.faults vault.new ≡ V.faults vault.old) ⊤) }
{
    let bytes = read_name(vault, name, 1, IMAGE_LIMIT)?;
    let journal = journal_of(alloc, &bytes)?;
    Ok(journal)
}

/// Reads the journal under a name and runs it again: where it leads is the past from which a database goes on, in
/// blocks of at most so many transactions. `Missing`, `Limit` and `VaultFault` are of the name; `Journal` says that
/// no journal stands there, or the statement at which `past_of` refuses it. It costs what `past_of` costs; the bytes
/// of the journal are let go before.
pub fn read_past<H: Hash32, V: Vault>(
    alloc: Global,
    h: H,
    name: &str,
    block_size: u32,
    vault: &mut V,
) -> Result<Past, Status>
    requires some { 1 ≤ block_size }
    requires most { block_size ≤ MAX_BLOCK }
    ensures past { IfOk result (λ past. JournalUnder name.now (V.names vault.old)
        (λ J. LeadsOn (H.digest h) block_size J past)) }
    ensures lacks { IfErr result (λ status. LacksPast status name.now (V.names vault.old)
        (Rises (V.faults vault.old) (V.faults vault.new))) }
    ensures same { V.names vault.new ≡ V.names vault.old }
    ensures gave { IfOk result (λ past. Since (V.history vault.old) (V.history vault.new) (Gave 1)) }
    ensures gets { IfErr result
        (λ status. Since (V.history vault.old) (V.history vault.new) (AreGets 1 status)) }
    ensures calm { IfOk result (λ past. V.faults vault.new ≡ V.faults vault.old) }
    ensures unfailed { IfErr result
        (λ status. Unfailed status ⊤ (V.faults vault.new ≡ V.faults vault.old) ⊤) }
{
    run_agrees_with_legal_items();
    let journal = journal_under(alloc, name, vault)?;
    match past_of(alloc, h, journal, block_size) {
        Ok(past) => Ok(past),
        Err(error) => Err(status_of(error)),
    }
}
