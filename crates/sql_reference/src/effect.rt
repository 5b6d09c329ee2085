//! What a statement does.

ghost use Rattle.std.specs.Prelude.{◌≡◌, ◌+◌, ◌<◌, ◌^◌, IfOk};
ghost use Rattle.spec_model.specs.Effect as spec;
ghost use Rattle.sql_reference.specs.StatementResult.{MatchesEffectUnlessOom, IsReady};

use crate::altering::{alter_table, drop_table};
use crate::changing::change_rows;
use crate::creating::{create_index, create_table};
use crate::showing::show;
use base_types::{Memory, TxId};
use sql_types::{Reply, Stmt, Table};
use sql_value::Refusal;
use std::alloc::Global;

/// What a statement came to, besides the tables.
#[derive(Drop)]
pub(crate) struct StatementResult {
    /// The number of the next event.
    pub seq: u64,
    pub reply: Reply,
}

/// The number behind so many events, below 2^63. As many events as that are more than there is memory for.
pub(crate) fn counted(seq: u64, events: usize) -> Result<u64, Memory>
    ensures number { IfOk result (λ next. next ≡ seq + events) }
    ensures below { IfOk result (λ next. next < 2 ^ 63) }
{
    match seq.checked_add(events as u64) {
        Some(next) if next < 1 << 63 => Ok(next),
        _ => Err(Memory),
    }
}

/// What a statement of transaction `tx`, whose next event has the number `seq`, does to the tables. A refusal
/// leaves them; after want of memory they may be anything. Statements that are no table statements do
/// nothing.
#[tactic(auto, unfolding(spec_model::specs::Effect::effect))]
pub(crate) fn effect(
    alloc: Global,
    tables: &mut Vec<Table>,
    tx: TxId,
    seq: u64,
    stmt: &Stmt,
) -> Result<StatementResult, Refusal>
    requires { IsReady tx seq tables.old.items }
    ensures { MatchesEffectUnlessOom (spec.effect tables.old.items tx seq stmt.now)
        tables.old.items tables.new.items seq result }
{
    match stmt {
        Stmt::Create(c) => create_table(alloc, tables, tx, seq, c),
        Stmt::Index(c) => create_index(alloc, tables, tx, seq, c),
        Stmt::Alter(alter) => alter_table(alloc, tables, tx, seq, alter),
        Stmt::Drop(name) => drop_table(alloc, tables, tx, seq, name),
        Stmt::Change(stmt) => change_rows(alloc, tables, tx, seq, stmt),
        Stmt::Select(q) => Ok(StatementResult {
            seq,
            reply: Reply::Rows(show(alloc, tables, q)?),
        }),
        _ => Ok(StatementResult {
            seq,
            reply: Reply::NoOutput,
        }),
    }
}
