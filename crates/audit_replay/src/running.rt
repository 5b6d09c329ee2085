//! Running a journal again.

ghost use Rattle.std.specs.Prelude.{◌≡◌, IfErr, IfOk, OnOk};
ghost use Rattle.spec_model.specs.LegalJournals.{IsLegalJournal};
ghost use Rattle.format_journal.specs.Rules.{IsJournal};
ghost use Rattle.spec_syntax.specs.Text.{reading_of};
ghost use Rattle.format_image.specs.Image.{image_of as spec_image_of};
ghost use Rattle.format_image.specs.ImageBytes.{IsImage};
ghost use Rattle.audit_replay.specs.Reached.{DiffersAt, KeepRules, LeadTo};

use crate::image::image_of;
use crate::item::run_item;
use base_merkle::Hash32;
use base_types::Memory;
use format_image_rows::tables_have_room;
use law_catalog_text::readings_of_the_grammar_give_written;
use law_image::legal_images_are_encodable;
use sql_reference::{ReplayAgreement, SerialMachine};
use sql_types::{Image, Journal, JournalItem, Table};
use std::alloc::Global;
use store_blocks::LedgerChain;

/// Why a journal has no image, or why no database goes on from it.
#[derive(Clone, Copy, Debug, PartialEq, Eq)]
pub enum ReplayErr {
    /// This statement of this item, both counted from 0, is the first whose kept reply isn't the one that the
    /// plain machine gives; or it is the number of the item's statements, where all replies agree and no
    /// event is left. Where a database is to go on, it may also be the first that is COMMIT or ROLLBACK of all.
    Differs { item: u64, statement: u64 },
    /// There is no more memory.
    Memory,
}

impl From<Memory> for ReplayErr {
    ghost use Rattle.std.specs.Prelude.{◌≡◌};
    ghost use Rattle.audit_replay.specs.declared.running.ReplayErr.TheVariants as errors;

    ghost from_gives = { λ _ e. e ≡ errors.Memory };

    fn from(_: Memory) -> ReplayErr {
        ReplayErr::Memory
    }
}

/// Where the items of a journal lead.
#[derive(Drop)]
pub struct RanAgain {
    pub tables: Vec<Table>,
    pub ledger_chain: LedgerChain,
}

/// Runs the items of a journal again on the plain machine, where a text is the statement that it is in journals of
/// this version. Where they are legal the answer is the tables to which the transactions lead, with their entries
/// and the blocks that were closed. It costs what the machine costs, the hashes of each event, entry and block, and
/// for each transaction a look at each version of each table.
pub fn run_again<H: Hash32>(
    alloc: Global,
    h: H,
    version: u8,
    items: &[JournalItem],
) -> Result<RanAgain, ReplayErr>
    requires { KeepRules items.now }
    ensures leads { IfOk result (λ again. LeadTo (H.digest h) (reading_of version) items.now again) }
    ensures differs { IfErr result (λ error. DiffersAt (reading_of version) error items.now) }
{
    let mut serial_machine = SerialMachine::new(alloc)?;
    let mut ledger_chain = LedgerChain::new(alloc);
    for place in 0..items.len() {
        let end = run_item(
            alloc,
            h,
            version,
            &items[..place],
            &items[place],
            &mut serial_machine,
            &mut ledger_chain,
        )?;
        if let ReplayAgreement::Differs { statement } = end {
            return Err(ReplayErr::Differs {
                item: place as u64,
                statement,
            });
        }
    }
    Ok(RanAgain {
        tables: serial_machine.into_tables(),
        ledger_chain,
    })
}

/// Runs a journal again on the plain machine, where a text is the statement that it is in journals of its
/// version. Where it is legal the answer is its image: the one of the tables to which its transactions lead,
/// with their entries and the blocks that it closed, and the image has a spelling. It costs what the machine
/// costs, the hashes of each event, entry and block, and for each transaction a look at each version of each
/// table.
pub fn replay<H: Hash32>(alloc: Global, h: H, journal: &Journal) -> Result<Image, ReplayErr>
    requires { IsJournal journal.now }
    ensures legal { OnOk result (IsLegalJournal (reading_of journal.now.version) journal.now) }
    ensures image { IfOk result (λ image. image
        ≡ spec_image_of (H.digest h) (reading_of journal.now.version) journal.now.database journal.now.items) }
    ensures spelling { IfOk result IsImage }
    ensures differs { IfErr result (λ error. DiffersAt (reading_of journal.now.version) error journal.now.items) }
{
    let items = journal.items.as_slice();
    let again = run_again(alloc, h, journal.version, items)?;
    legal_images_are_encodable();
    readings_of_the_grammar_give_written();
    tables_have_room(&again.tables);
    let _blocks = again.ledger_chain.blocks().len();
    let _entries = again.ledger_chain.entries().len();
    let image = image_of(alloc, &journal.database, again.ledger_chain, again.tables)?;
    Ok(image)
}
