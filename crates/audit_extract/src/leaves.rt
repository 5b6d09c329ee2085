//! The leaves of an image, sorted so that those of a transaction in a table stand together.

ghost use Rattle.std.specs.Prelude.{◌≡◌, ◌++◌, ◌∷◌, All, ◌≢◌, IsSorted, IfOk, OnOk, true, false, map, flat_map, filter};
ghost use Rattle.std.specs.List.Sorted.{IsStable};
ghost use Rattle.format_event.specs.EventRef.{event_of};
ghost use Rattle.spec_model.specs.Events.{version_events};
ghost use Rattle.spec_model.specs.SystemTables.{tables_def, columns_def};
ghost use Rattle.format_image.specs.ImageBytes.{IsImage, AreTables};
ghost use Rattle.format_image.specs.RowBytes.{AreRows, AreValues};
ghost use Rattle.format_image.specs.Tables.{tables_in, tables_with};
ghost use Rattle.audit_extract.specs.Leaves.{all_leaves, bytes_of, comes_after, comes_before, is_of, leaf_cmp, leaf_of, leaves_in};

use crate::trees::is_equal;
use base_types::{Blob, Memory, TableId, TxId, first_of};
use format_event::{EventRef, write_leaf};
use sql_types::{Image, TableDef, TableRows, Version};
use std::alloc::Global;
use std::cmp::Ordering;

/// The leaf of a start or an end of a version.
#[derive(Debug, Drop)]
pub struct Leaf {
    /// The transaction that started or ended it, and the table.
    pub group: (TxId, TableId),
    /// The number of the event in its transaction.
    pub seq: u64,
    pub bytes: Blob,
}

/// The leaves of all versions of an image, by transaction, table and number. Takes the time of sorting them.
pub(crate) fn sorted_leaves(alloc: Global, image: &Image) -> Result<Vec<Leaf>, Memory>
    requires { IsImage image.now }
    ensures sorted { IfOk result (λ leaves. IsSorted leaf_cmp leaves.items) }
    ensures stable { IfOk result (λ leaves.
        IsStable leaf_cmp (all_leaves (tables_in image.now)) leaves.items) }
{
    let mut leaves = Vec::new(alloc);
    add_all(alloc, image, &mut leaves)?;
    sort_leaves(&mut leaves)?;
    Ok(leaves)
}

fn sort_leaves(leaves: &mut Vec<Leaf>) -> Result<(), Memory>
    ensures sorted { OnOk result (IsSorted leaf_cmp leaves.new.items) }
    ensures stable { OnOk result (IsStable leaf_cmp leaves.old.items leaves.new.items) }
{
    leaves.sort_by(|a, b| compare_leaves(a, b))?;
    Ok(())
}

fn compare_leaves(a: &Leaf, b: &Leaf) -> Ordering
    ensures { result ≡ leaf_cmp a.now b.now }
{
    a.group.cmp(&b.group).then(a.seq.cmp(&b.seq))
}

// The leaves of the system's two tables, and of the table of each definition.
fn add_all(alloc: Global, image: &Image, leaves: &mut Vec<Leaf>) -> Result<(), Memory>
    requires { IsImage image.now }
    ensures { OnOk result (leaves.new.items ≡ leaves.old.items ++ all_leaves (tables_in image.now)) }
{
    if let Some((first, rest)) = first_of(image.tables.as_slice()) {
        if let Some((second, users)) = first_of(rest) {
            return add_each(alloc, first, second, image.defs.as_slice(), users, leaves);
        }
    }
    Ok(())
}

fn add_each(
    alloc: Global,
    first: &TableRows,
    second: &TableRows,
    defs: &[TableDef],
    users: &[TableRows],
    leaves: &mut Vec<Leaf>,
) -> Result<(), Memory>
    requires first { AreRows first.now }
    requires second { AreRows second.now }
    requires users { AreTables defs.now users.now }
    ensures { OnOk result (leaves.new.items ≡ leaves.old.items
        ++ all_leaves
        (tables_with (tables_def ∷ columns_def ∷ defs.now) (first.now ∷ second.now ∷ users.now))) }
{
    add_table(alloc, 1, first, leaves)?;
    add_table(alloc, 2, second, leaves)?;
    add_users(alloc, defs, users, leaves)
}

fn add_users(
    alloc: Global,
    defs: &[TableDef],
    tables: &[TableRows],
    leaves: &mut Vec<Leaf>,
) -> Result<(), Memory>
    requires { AreTables defs.now tables.now }
    ensures { OnOk result
        (leaves.new.items ≡ leaves.old.items ++ all_leaves (tables_with defs.now tables.now)) }
{
    let mut defs = defs;
    let mut rest = tables;
    'each: while let Some((rows, more)) = first_of(rest) {
        match first_of(defs) {
            Some((def, others)) => {
                add_table(alloc, def.id, rows, leaves)?;
                defs = others;
                rest = more;
            }
            None => return Ok(()),
        }
    }
    Ok(())
}

fn add_table(
    alloc: Global,
    table: TableId,
    rows: &TableRows,
    leaves: &mut Vec<Leaf>,
) -> Result<(), Memory>
    requires { AreRows rows.now }
    ensures { OnOk result (leaves.new.items ≡ leaves.old.items
        ++ map leaf_of (flat_map (version_events table) (rows.now.base ++ rows.now.history))) }
{
    add_versions(alloc, table, rows.base.as_slice(), leaves)?;
    add_versions(alloc, table, rows.history.as_slice(), leaves)
}

fn add_versions(
    alloc: Global,
    table: TableId,
    versions: &[Version],
    leaves: &mut Vec<Leaf>,
) -> Result<(), Memory>
    requires { All (λ v. AreValues v.values) versions.now }
    ensures { OnOk result (leaves.new.items ≡ leaves.old.items
        ++ map leaf_of (flat_map (version_events table) versions.now)) }
{
    for version in versions {
        add_version(alloc, table, version, leaves)?;
    }
    Ok(())
}

// Its start, and its end if it has one.
fn add_version(
    alloc: Global,
    table: TableId,
    version: &Version,
    leaves: &mut Vec<Leaf>,
) -> Result<(), Memory>
    requires { AreValues version.now.values }
    ensures { OnOk result
        (leaves.new.items ≡ leaves.old.items ++ map leaf_of (version_events table version.now)) }
{
    let values = version.values.as_slice();
    let start = EventRef {
        id: version.start,
        ends: None,
        values,
        table,
    };
    leaves.push(event_leaf(alloc, &start)?)?;
    if let Some(id) = version.end {
        let end = EventRef {
            id,
            ends: Some(version.start),
            values,
            table,
        };
        leaves.push(event_leaf(alloc, &end)?)?;
    }
    Ok(())
}

fn event_leaf(alloc: Global, event: &EventRef) -> Result<Leaf, Memory>
    requires { AreValues event.now.values.now }
    ensures { IfOk result (λ leaf. leaf ≡ leaf_of (event_of event.now)) }
{
    let mut bytes = Vec::new(alloc);
    write_leaf(event, &mut bytes)?;
    Ok(Leaf {
        group: (event.id.tx, event.table),
        seq: event.id.seq,
        bytes: Blob::from_vec(bytes),
    })
}

/// The leaves of a transaction in a table of an image, by number. Takes the time of sorting all leaves.
pub fn leaves_in(
    alloc: Global,
    image: &Image,
    tx: TxId,
    table: TableId,
) -> Result<Vec<Blob>, Memory>
    requires { IsImage image.now }
    ensures { IfOk result (λ leaves. leaves.items ≡ leaves_in (tables_in image.now) tx table) }
{
    let all = sorted_leaves(alloc, image)?;
    let own = copied(alloc, leaves_of(&all, (tx, table)))?;
    Ok(own)
}

/// Those of a transaction in a table.
pub(crate) fn leaves_of(leaves: &[Leaf], group: (TxId, TableId)) -> &[Leaf]
    requires { IsSorted leaf_cmp leaves.now }
    ensures { result.now ≡ filter (is_of group) leaves.now }
{
    let from = leaves.partition_point(|leaf| comes_before(leaf, group));
    let (_, rest) = leaves.split_at(from);
    let count = rest.partition_point(|leaf| !comes_after(leaf, group));
    let (own, _) = rest.split_at(count);
    own
}

fn comes_before(leaf: &Leaf, group: (TxId, TableId)) -> bool
    ensures { result ≡ comes_before group leaf.now }
{
    leaf.group.cmp(&group).is_lt()
}

fn comes_after(leaf: &Leaf, group: (TxId, TableId)) -> bool
    ensures { result ≡ comes_after group leaf.now }
{
    leaf.group.cmp(&group).is_gt()
}

/// Whether two lists of leaves have the same bytes.
pub(crate) fn same_bytes(a: &[Leaf], b: &[Leaf]) -> bool
    ensures same { result ≡ true → bytes_of a.now ≡ bytes_of b.now }
    ensures differ { result ≡ false → bytes_of a.now ≢ bytes_of b.now }
{
    if a.len() != b.len() {
        return false;
    }
    for (i, x) in a.iter().enumerate() {
        if !is_equal(x.bytes.bytes(), b[i].bytes.bytes()) {
            return false;
        }
    }
    true
}

/// Copies of the bytes of some leaves.
pub(crate) fn copied(alloc: Global, leaves: &[Leaf]) -> Result<Vec<Blob>, Memory>
    ensures { IfOk result (λ v. v.items ≡ bytes_of leaves.now) }
{
    let mut blobs = Vec::new(alloc);
    for leaf in leaves {
        blobs.push(leaf.bytes.copy()?)?;
    }
    Ok(blobs)
}
