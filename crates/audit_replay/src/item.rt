//! Running an item of a journal again.

ghost use Rattle.std.specs.Prelude.{◌≡◌, ◌++◌, ◌∷◌, [], IfOk};
ghost use Rattle.spec_model.specs.Journals.{serial};
ghost use Rattle.spec_syntax.specs.Text.{reading_of};
ghost use Rattle.sql_reference.specs.RunEnd.{run_end};
ghost use Rattle.audit_replay.specs.Reached.{MayFollow, Reached};

use crate::entry::entry_of;
use base_merkle::Hash32;
use base_types::Memory;
use sql_reference::{ReplayAgreement, SerialMachine, run_agrees_with_legal_items};
use sql_types::JournalItem;
use std::alloc::Global;
use store_blocks::LedgerChain;

/// Runs an item of a journal of this version behind those before it.
pub(crate) fn run_item<H: Hash32>(
    alloc: Global,
    h: H,
    version: u8,
    before: &[JournalItem],
    item: &JournalItem,
    serial_machine: &mut SerialMachine,
    ledger_chain: &mut LedgerChain,
) -> Result<ReplayAgreement, Memory>
    requires follows { MayFollow before.now item.now }
    requires reached { Reached (H.digest h) (reading_of version) before.now serial_machine.old ledger_chain.old }
    ensures end { IfOk result (λ end. end
        ≡ run_end (reading_of version) (serial (reading_of version) before.now) item.now) }
    ensures agrees { IfOk result (λ end. end ≡ ReplayAgreement.Agrees
        → Reached (H.digest h) (reading_of version) (before.now ++ item.now ∷ []) serial_machine.new ledger_chain.new) }
{
    match item {
        JournalItem::Close(count) => {
            ledger_chain.close(alloc, h, *count as usize)?;
            Ok(ReplayAgreement::Agrees)
        }
        JournalItem::Tx {
            id,
            session,
            time,
            ..
        } => {
            run_agrees_with_legal_items();
            match serial_machine.run(alloc, version, item)? {
                ReplayAgreement::Differs { statement } => Ok(ReplayAgreement::Differs {
                    statement,
                }),
                ReplayAgreement::Agrees => {
                    let entry = entry_of(alloc, h, serial_machine.tables(), *id, session, *time)?;
                    ledger_chain.commit(entry)?;
                    Ok(ReplayAgreement::Agrees)
                }
            }
        }
    }
}
