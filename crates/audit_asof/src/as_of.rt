//! A database behind its first transactions, which answers SELECTs.

ghost use Rattle.std.specs.Prelude.{◌≡◌, ◌≤◌, ◌<◌, ℕ, length, Some, IfErr, IfOk};
ghost use Rattle.format_image.specs.ImageBytes.{IsImage};
ghost use Rattle.spec_model.specs.Effect.{effect};
ghost use Rattle.spec_syntax.specs.Text.{statement_of};
ghost use Rattle.sql_types.specs.declared.statement.Stmt.TheVariants.{Select as SelectOf};
ghost use Rattle.sql_value.specs.declared.refusal.Refusal.TheVariants.{NoMemory};
ghost use Rattle.spec_asof.specs.Answer.{answer_of, of_reply};
ghost use Rattle.spec_asof.specs.DatabaseAt.{database_at};
ghost use Rattle.spec_asof.specs.declared.reply.AsOfReply.TheVariants as replies;
ghost use Rattle.audit_asof.specs.declared.as_of.AsOfErr.TheVariants as refused;

use crate::earlier_txs::EarlierTxs;
use crate::opened_table::{OpenedTable, open_tables};
use crate::showing::show;
use crate::tables::tables_at;
use base_types::Memory;
use spec_asof::AsOfReply;
use sql_parse::{ParseErr, Select, Stmt, parse};
use sql_types::Image;
use sql_value::Refusal;
use std::alloc::Global;
use std::marker::Model;

/// Why a database isn't opened.
#[derive(Clone, Copy, Debug, PartialEq, Eq)]
pub enum AsOfErr {
    /// The image has only so many entries.
    TooFar { entries: u64 },
    Memory,
}

/// The tables of a database behind its first transactions, with the versions that these left and their order by key.
#[derive(Drop)]
pub struct AsOf {
    tables: Vec<OpenedTable>,
}

impl Model for AsOf {
    ghost use Rattle.spec_model.specs.Catalog.{Tables, defs_of};
    ghost use Rattle.sql_reference.specs.Ids.{IdsRise};

    ghost Value = { Tables };

    ghost view = { λ a. a.tables.items };

    ghost invariant = { λ a. IdsRise 0 (defs_of a.tables.items) };
}

impl AsOf {
    /// The database behind its first `n` transactions in ledger order, as the image tells it, whatever came later.
    /// `TooFar` exactly where the image has fewer entries. Nothing is verified here: of an image that isn't accepted,
    /// or not with digests that somebody holds, this is what it tells. The versions are moved out of the image. Takes
    /// the time of sorting the ids and the live rows of each table by key, and an ordered search for each start and
    /// end of a version.
    pub fn open(alloc: Global, image: Image, n: u64) -> Result<AsOf, AsOfErr>
        requires { IsImage image }
        ensures opened { IfOk result (λ a. (n ≤ length image.entries) × (a ≡ database_at image n)) }
        ensures far { IfErr result (λ e. (entries : ℕ) → e ≡ refused.TooFar entries
            → (entries ≡ length image.entries) × (entries < n)) }
    {
        let entries = image.entries.len() as u64;
        if entries < n {
            return Err(AsOfErr::TooFar { entries });
        }
        match AsOf::at(alloc, image, n as usize) {
            Ok(opened) => Ok(opened),
            Err(Memory) => Err(AsOfErr::Memory),
        }
    }

    #[tactic(auto, unfolding(spec_asof::specs::DatabaseAt::database_at), using(crate::proofs::Opened::counted_alike))]
    fn at(alloc: Global, image: Image, n: usize) -> Result<AsOf, Memory>
        requires image { IsImage image }
        requires within { n ≤ length image.entries }
        ensures { IfOk result (λ a. a ≡ database_at image n) }
    {
        let Image {
            database,
            blocks,
            entries,
            defs,
            tables,
        } = image;
        drop(database);
        drop(blocks);
        let txs = EarlierTxs::of(alloc, &entries.as_slice()[..n])?;
        drop(entries);
        let tables = tables_at(alloc, &txs, defs, tables)?;
        Ok(AsOf {
            tables: open_tables(alloc, tables)?,
        })
    }

    /// What the text is answered over these tables: the rows that a SELECT shows, or the refusal of the text or of the
    /// SELECT; `NotSelect` for any other statement. The only error is want of memory. Where WHERE fixes the key of a
    /// base table's row, takes two ordered searches for it; else looks once at each live row, or at each version for
    /// a history or a view.
    #[tactic(auto, unfolding(spec_asof::specs::Answer::answer_of))]
    pub fn answer(&self, alloc: Global, text: &str) -> Result<AsOfReply, Memory>
        ensures answer { IfOk result (λ reply. reply ≡ answer_of self.now (statement_of text.now)) }
        ensures no_memory { IfOk result (λ reply. reply ≡ replies.Refused NoMemory → ⊥) }
    {
        match parse(alloc, text) {
            Ok(stmt) => {
                let reply = self.reply_to(alloc, &stmt);
                // `drop` is proved once for each type; at the end of the scope each part would be proved here.
                drop(stmt);
                reply
            }
            Err(ParseErr::Syntax) => Ok(AsOfReply::Refused(Refusal::SyntaxError)),
            Err(ParseErr::Memory) => Err(Memory),
        }
    }

    #[tactic(auto, unfolding(spec_asof::specs::Answer::answer_of))]
    fn reply_to(&self, alloc: Global, stmt: &Stmt) -> Result<AsOfReply, Memory>
        ensures answer { IfOk result (λ reply. reply ≡ answer_of self.now (Some stmt.now)) }
        ensures no_memory { IfOk result (λ reply. reply ≡ replies.Refused NoMemory → ⊥) }
    {
        match stmt {
            Stmt::Select(q) => self.select(alloc, q),
            _ => Ok(AsOfReply::NotSelect),
        }
    }

    #[tactic(auto, unfolding(spec_model::specs::Effect::effect))]
    fn select(&self, alloc: Global, q: &Select) -> Result<AsOfReply, Memory>
        ensures answer { IfOk result (λ reply. reply ≡ of_reply (effect self.now 0 0 (SelectOf q.now)).reply) }
        ensures no_memory { IfOk result (λ reply. reply ≡ replies.Refused NoMemory → ⊥) }
    {
        match show(alloc, &self.tables, q) {
            Ok(rows) => Ok(AsOfReply::Rows(rows)),
            Err(Refusal::NoMemory) => Err(Memory),
            Err(refusal) => Ok(AsOfReply::Refused(refusal)),
        }
    }
}
