//! The types that definitions, formats and cells share. No function stands here.
#![tactic(auto)]

mod change;
mod digest;
mod end_line;
mod entry;
mod event;
mod image;
mod journal;
mod lock;
mod outcome;
mod reply;
mod statement;
mod table;
mod version;

pub use change::Change;
pub use digest::{Digest, HeldDigest};
pub use end_line::EndLine;
pub use entry::{BlockRecord, TxEntry};
pub use event::{Event, EventField};
pub use image::{Image, IndexRow, TableRows};
pub use journal::{JOURNAL_VERSION, Journal, JournalItem, MAX_BLOCK, Script};
pub use lock::{Hold, Item, Key, LockRequest, Mode};
pub use outcome::Outcome;
pub use reply::Reply;
pub use statement::{Agg, Alter, CreateIndex, CreateTable, RowStmt, Select, SelectList, Stmt};
pub use table::{IndexDef, Part, TableDef};
pub use version::{EventId, Row, Table, TypedValue, Version};
