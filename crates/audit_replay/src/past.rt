//! A journal from which a database goes on.

ghost use Rattle.std.specs.Prelude.{◌≡◌, ◌≤◌, ◌<◌, ◌^◌, ◌++◌, IfErr, IfOk, OnOk, Some, length, replicate, suc};
ghost use Rattle.std.specs.List.{AllByRecursion};
ghost use Rattle.sql_types.specs.declared.journal.TheConstants.{MAX_BLOCK};
ghost use Rattle.sql_types.specs.JournalRules.{ItemRules};
ghost use Rattle.spec_model.specs.Lists.{greatest};
ghost use Rattle.spec_history.specs.Journals.{ids_of};
ghost use Rattle.spec_history.specs.Transcripts.{kind_of};
ghost use Rattle.spec_syntax.specs.Text.{statement_of};
ghost use Rattle.format_journal.specs.Rules.{IsJournal};
ghost use Rattle.store_blocks.specs.Closings.{all_placed};
ghost use Rattle.store_blocks.specs.LedgerChain.{KeepsHash};
ghost use Rattle.audit_replay.specs.GoesOn.{CannotGoOn, Closes, EndsInsideAt, LeadsOn, NoneEndsInside, end_from, end_inside, ends_all, is_end};
ghost use Rattle.audit_replay.specs.Reached.{KeepRules, LeadTo};

use crate::running::{RanAgain, ReplayErr, run_again};
use base_merkle::Hash32;
use base_types::{Memory, Name, Text, TxId};
use sql_parse::{ParseErr, parse};
use sql_types::{JOURNAL_VERSION, Journal, JournalItem, Stmt, Table};
use std::alloc::Global;
use store_blocks::LedgerChain;

/// A legal journal and all to which it leads: with this a database goes on.
#[derive(Drop)]
pub struct Past {
    pub database: Name,
    /// Those of the journal, and behind them the closings of blocks that are full by the block size with which the
    /// database goes on.
    pub items: Vec<JournalItem>,
    /// The id that is drawn next, which is above all that the journal has.
    pub next: TxId,
    pub tables: Vec<Table>,
    pub ledger_chain: LedgerChain,
}

/// Whether a statement ends the transaction: COMMIT, or ROLLBACK of all.
fn is_end(stmt: &Stmt) -> bool
    ensures { result ≡ is_end (kind_of (Some stmt.now)) }
{
    match stmt {
        Stmt::Commit | Stmt::Rollback(None) => true,
        Stmt::Rollback(Some(_)) | Stmt::Begin | Stmt::Save(_) => false,
        Stmt::Create(_) | Stmt::Index(_) | Stmt::Alter(_) | Stmt::Drop(_) => false,
        Stmt::Change(_) | Stmt::Select(_) | Stmt::Digest | Stmt::Image => false,
    }
}

/// Whether a text is a statement that ends the transaction.
fn ends_all(alloc: Global, text: &Text) -> Result<bool, Memory>
    ensures { IfOk result (λ ends. ends ≡ ends_all statement_of text.now) }
{
    match parse(alloc, text.as_str()) {
        Ok(stmt) => {
            let ends = is_end(&stmt);
            drop(stmt);
            Ok(ends)
        }
        Err(ParseErr::Syntax) => Ok(false),
        Err(ParseErr::Memory) => Err(Memory),
    }
}

/// The number of the first line of a script that ends the transaction.
fn first_end(alloc: Global, script: &[(Text, Text)]) -> Result<Option<u64>, Memory>
    ensures { IfOk result (λ found. found ≡ end_from statement_of 0 script.now) }
{
    for (place, line) in script.iter().enumerate() {
        if ends_all(alloc, &line.0)? {
            return Ok(Some(place as u64));
        }
    }
    Ok(None)
}

/// The number of the first statement that ends a transaction which BEGIN opened.
fn end_inside(alloc: Global, item: &JournalItem) -> Result<Option<u64>, Memory>
    ensures { IfOk result (λ found. found ≡ end_inside statement_of item.now) }
{
    match item {
        JournalItem::Tx {
            explicit,
            script,
            ..
        } if *explicit => first_end(alloc, script.as_slice()),
        _ => Ok(None),
    }
}

/// Whether a database may go on behind these items: no transaction has a COMMIT or a ROLLBACK of all among its
/// statements. A run again takes these as it takes any statement that answers nothing, but no session can have
/// said them and had its transaction go on.
fn may_go_on(alloc: Global, items: &[JournalItem]) -> Result<(), ReplayErr>
    ensures ok { OnOk result (NoneEndsInside statement_of items.now) }
    ensures err { IfErr result (λ error. EndsInsideAt statement_of error items.now) }
{
    for (place, item) in items.iter().enumerate() {
        if let Some(statement) = end_inside(alloc, item)? {
            return Err(ReplayErr::Differs {
                item: place as u64,
                statement,
            });
        }
    }
    Ok(())
}

/// The greatest id of a transaction among these items, and 0 where there is none.
fn greatest_id(items: &[JournalItem]) -> TxId
    ensures { result ≡ greatest (ids_of items.now) }
{
    let mut most = 0;
    for item in items {
        if let JournalItem::Tx { id, .. } = item {
            most = most.max(*id);
        }
    }
    most
}

/// The id behind the greatest that these items have.
fn next_id(items: &[JournalItem]) -> TxId
    requires { AllByRecursion ItemRules items.now }
    ensures next { result ≡ suc (greatest (ids_of items.now)) }
    ensures most { result ≤ 2 ^ 63 }
{
    greatest_id(items) + 1
}

/// Adds so many closings of blocks of `size` entries.
fn add_closings(items: &mut Vec<JournalItem>, size: u32, count: u64) -> Result<(), Memory>
    ensures { OnOk result (items.new.items ≡ items.old.items ++ replicate count (JournalItem.Close size)) }
{
    for _ in 0..count {
        items.push(JournalItem::Close(size))?;
    }
    Ok(())
}

/// Closes blocks of `size` entries as long as so many are pending, and adds their closings to the items. It hashes
/// the entries that these blocks take.
fn close_full<H: Hash32>(
    alloc: Global,
    h: H,
    size: u32,
    items: &mut Vec<JournalItem>,
    ledger_chain: LedgerChain,
) -> Result<LedgerChain, Memory>
    requires some { 1 ≤ size }
    requires hash { KeepsHash (H.digest h) ledger_chain }
    requires placed { ledger_chain.ledger ≡ all_placed ledger_chain.ledger }
    ensures closes { IfOk result
        (λ b. Closes (H.digest h) size items.old.items ledger_chain.ledger items.new.items b.ledger) }
    ensures few { IfOk result (λ b. length b.ledger.pending < size) }
    ensures hash { IfOk result (KeepsHash (H.digest h)) }
{
    let closed = ledger_chain.close_full(alloc, h, size as usize)?;
    add_closings(items, size, closed.1)?;
    Ok(closed.0)
}

/// Runs items again, where a text is the statement that it is where a server runs. They are refused too where a
/// database may not go on behind them.
fn run_to_go_on<H: Hash32>(
    alloc: Global,
    h: H,
    items: &[JournalItem],
) -> Result<RanAgain, ReplayErr>
    requires { KeepRules items.now }
    ensures leads { IfOk result (λ again. LeadTo (H.digest h) statement_of items.now again) }
    ensures inside { OnOk result (NoneEndsInside statement_of items.now) }
    ensures refused { IfErr result (λ error. CannotGoOn statement_of error items.now) }
{
    let again = run_again(alloc, h, JOURNAL_VERSION, items)?;
    match may_go_on(alloc, items) {
        Ok(()) => Ok(again),
        Err(error) => {
            drop(again);
            Err(error)
        }
    }
}

/// The past of a journal that was run again, with its full blocks closed.
fn past_from<H: Hash32>(
    alloc: Global,
    h: H,
    journal: Journal,
    again: RanAgain,
    block_size: u32,
) -> Result<Past, Memory>
    requires journal { IsJournal journal }
    requires some { 1 ≤ block_size }
    requires most { block_size ≤ MAX_BLOCK }
    requires leads { LeadTo (H.digest h) statement_of journal.items again }
    requires inside { NoneEndsInside statement_of journal.items }
    ensures { IfOk result (λ past. LeadsOn (H.digest h) block_size journal past) }
{
    let RanAgain {
        tables,
        ledger_chain,
    } = again;
    let Journal {
        database,
        items,
        ..
    } = journal;
    let mut items = items.into_vec();
    let next = next_id(&items);
    match close_full(alloc, h, block_size, &mut items, ledger_chain) {
        Ok(ledger_chain) => Ok(Past {
            database,
            items,
            next,
            tables,
            ledger_chain,
        }),
        Err(error) => {
            drop(items);
            drop(tables);
            Err(error)
        }
    }
}

/// Runs a journal again, where a text is the statement that it is where a server runs (whatever the journal's version
/// is), and closes the blocks that are full where one takes at most so many transactions. `Differs` names the first
/// statement of a journal that isn't legal, or else the first in a transaction that BEGIN opened which is COMMIT or
/// ROLLBACK of all: such a journal is none of a server's. It costs what `run_again` costs, the reading of the
/// statements of these transactions, and the hashes of the blocks that are closed.
pub fn past_of<H: Hash32>(
    alloc: Global,
    h: H,
    journal: Journal,
    block_size: u32,
) -> Result<Past, ReplayErr>
    requires journal { IsJournal journal }
    requires some { 1 ≤ block_size }
    requires most { block_size ≤ MAX_BLOCK }
    ensures leads { IfOk result (λ past. LeadsOn (H.digest h) block_size journal past) }
    ensures refused { IfErr result (λ error. CannotGoOn statement_of error journal.items) }
{
    match run_to_go_on(alloc, h, journal.items.as_slice()) {
        Ok(again) => Ok(past_from(alloc, h, journal, again, block_size)?),
        Err(error) => {
            drop(journal);
            Err(error)
        }
    }
}
