//! The starts and ends of versions, in the order of their leaves, and the leaves.

ghost use Rattle.std.specs.Prelude.{All, ◌≡◌, ◌≤◌, ◌==◌, ◌+◌, ◌++◌, ℕ, List, IfOk, OnOk, length, map, flat_map, take, drop};
ghost use Rattle.std.specs.List.{filter};
ghost use Rattle.std.specs.List.Sorted.{IsNonDecreasingBy};
ghost use Rattle.format_image.specs.RowBytes.{AreValues};
ghost use Rattle.spec_model.specs.Events.{version_events};
ghost use Rattle.spec_model.specs.Lists.{sorted};
ghost use Rattle.format_event.specs.EventRef as leaves;
ghost use Rattle.format_event.specs.Leaf.{event_bytes};
ghost use Rattle.audit_roots.specs.Marks.{event_of, tx_of, number_of, leaf_cmp, leaf_hash, events_shown, AreMarks, HaveEncodableValues, HasEncodableValues, HasValues, StartsOther};
ghost use Rattle.audit_roots.specs.ImageTable.{table_of};

use crate::shown::ImageTable;
use base_types::{Hash, Memory, TableId, TxId};
use format_event::{EventRef, write_leaf};
use sql_types::{EventId, Version};
use std::alloc::Global;
use std::cmp::Ordering;

/// The start or the end of a version.
#[derive(Clone, Copy, Debug)]
pub struct Mark<'a> {
    pub tx: TxId,
    /// Its number in the transaction.
    pub seq: u64,
    pub version: &'a Version,
    pub table: TableId,
    /// Whether it is the end.
    pub is_end: bool,
}

/// The starts and ends of all versions of these tables: by the transaction, then by the table, then by
/// number. Takes the time of sorting them. The only error is want of memory.
pub(crate) fn sorted_marks<'a>(
    alloc: Global,
    tables: &[ImageTable<'a>],
) -> Result<Vec<Mark<'a>>, Memory>
    requires { All HaveEncodableValues tables.now }
    ensures { IfOk result (λ marks. AreMarks (map table_of tables.now) marks.items) }
{
    let mut marks = Vec::new(alloc);
    add_tables(tables, &mut marks)?;
    sort_marks(&mut marks)?;
    Ok(marks)
}

fn add_tables<'a>(tables: &[ImageTable<'a>], marks: &mut Vec<Mark<'a>>) -> Result<(), Memory>
    requires { All HaveEncodableValues tables.now }
    ensures values { OnOk result (All HasValues marks.old.items → All HasValues marks.new.items) }
    ensures events { OnOk result (map event_of marks.new.items
        ≡ map event_of marks.old.items ++ flat_map events_shown tables.now) }
{
    for table in tables {
        add_table(table, marks)?;
    }
    Ok(())
}

#[tactic(auto, using(crate::proofs::Owned::events_of_parts))]
fn add_table<'a>(table: &ImageTable<'a>, marks: &mut Vec<Mark<'a>>) -> Result<(), Memory>
    requires { HaveEncodableValues table.now }
    ensures values { OnOk result (All HasValues marks.old.items → All HasValues marks.new.items) }
    ensures events { OnOk result (map event_of marks.new.items
        ≡ map event_of marks.old.items ++ events_shown table.now) }
{
    add_versions(table.def.id, table.rows.base.as_slice(), marks)?;
    add_versions(table.def.id, table.rows.history.as_slice(), marks)
}

fn add_versions<'a>(
    table: TableId,
    versions: &'a [Version],
    marks: &mut Vec<Mark<'a>>,
) -> Result<(), Memory>
    requires { All HasEncodableValues versions.now }
    ensures values { OnOk result (All HasValues marks.old.items → All HasValues marks.new.items) }
    ensures events { OnOk result (map event_of marks.new.items
        ≡ map event_of marks.old.items ++ flat_map (version_events table) versions.now) }
{
    for version in versions {
        add_version(table, version, marks)?;
    }
    Ok(())
}

// Its start, and its end if it has one.
fn add_version<'a>(
    table: TableId,
    version: &'a Version,
    marks: &mut Vec<Mark<'a>>,
) -> Result<(), Memory>
    requires { HasEncodableValues version.now }
    ensures values { OnOk result (All HasValues marks.old.items → All HasValues marks.new.items) }
    ensures events { OnOk result (map event_of marks.new.items
        ≡ map event_of marks.old.items ++ version_events table version.now) }
{
    marks.push(Mark {
        tx: version.start.tx,
        seq: version.start.seq,
        version,
        table,
        is_end: false,
    })?;
    if let Some(end) = version.end {
        marks.push(Mark {
            tx: end.tx,
            seq: end.seq,
            version,
            table,
            is_end: true,
        })?;
    }
    Ok(())
}

fn sort_marks(marks: &mut Vec<Mark>) -> Result<(), Memory>
    ensures values { All HasValues marks.old.items → All HasValues marks.new.items }
    ensures events { OnOk result
        (map event_of marks.new.items ≡ sorted leaf_cmp (map event_of marks.old.items)) }
    ensures rise { OnOk result (IsNonDecreasingBy tx_of marks.new.items) }
{
    marks.sort_by(|a, b| compare_marks(a, b))?;
    Ok(())
}

fn compare_marks(a: &Mark, b: &Mark) -> Ordering
    ensures { result ≡ leaf_cmp (event_of a.now) (event_of b.now) }
{
    a.tx.cmp(&b.tx)
        .then(a.table.cmp(&b.table))
        .then(a.seq.cmp(&b.seq))
}

/// Those of a transaction, which stand together, and the hashes of their leaves. Takes two ordered searches.
pub(crate) fn run_of<'m, 'h, 'a>(
    marks: &'m [Mark<'a>],
    hashes: &'h [Hash],
    tx: TxId,
) -> (&'m [Mark<'a>], &'h [Hash])
    requires rise { IsNonDecreasingBy tx_of marks.now }
    requires alike { length hashes.now ≡ length marks.now }
    ensures own { result.0.now ≡ filter (λ m. tx_of m == tx) marks.now }
    ensures hashes { (h : List ℕ → List ℕ) → hashes.now ≡ map (leaf_hash h) marks.now
        → result.1.now ≡ map (leaf_hash h) result.0.now }
{
    let from = marks.partition_point(|mark| mark.tx < tx);
    let (_, rest) = marks.split_at(from);
    let count = rest.partition_point(|mark| mark.tx <= tx);
    let (own, _) = rest.split_at(count);
    (own, hashes_at(hashes, from, count))
}

/// So many of the hashes, from the one at place `from` on.
pub(crate) fn hashes_at(hashes: &[Hash], from: usize, count: usize) -> &[Hash]
    requires { from + count ≤ length hashes.now }
    ensures { result.now ≡ take count (drop from hashes.now) }
{
    &hashes[from..from + count]
}

/// The first of these as far as they are of the table, and the others.
pub(crate) fn first_group<'m, 'a>(
    marks: &'m [Mark<'a>],
    table: TableId,
) -> (&'m [Mark<'a>], &'m [Mark<'a>])
    ensures parts { marks.now ≡ result.0.now ++ result.1.now }
    ensures own { All (λ m. m.table ≡ table) result.0.now }
    ensures other { StartsOther table result.1.now }
{
    let other = marks.iter().position(|mark| mark.table != table);
    marks.split_at(other.unwrap_or(marks.len()))
}

/// Appends the leaf of a start or an end. The only error is want of memory.
pub(crate) fn put_leaf(mark: &Mark, out: &mut Vec<u8>) -> Result<(), Memory>
    requires { AreValues mark.now.version.now.values }
    ensures { OnOk result (out.new.items ≡ out.old.items ++ event_bytes (event_of mark.now)) }
{
    write_leaf(&event_at(mark), out)
}

fn event_at<'a>(mark: &Mark<'a>) -> EventRef<'a>
    ensures event { leaves.event_of result ≡ event_of mark.now }
    ensures values { result.values.now ≡ mark.now.version.now.values }
{
    let ends = match mark.is_end {
        false => None,
        true => Some(mark.version.start),
    };
    EventRef {
        id: EventId {
            tx: mark.tx,
            seq: mark.seq,
        },
        ends,
        values: mark.version.values.as_slice(),
        table: mark.table,
    }
}
