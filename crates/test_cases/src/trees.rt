//! Cases of Merkle trees. A leaf is written in hexadecimal digits, and an empty one as `-`.

ghost use Rattle.std.specs.Prelude.{◌≡◌, ◌<◌, ◌≤◌, ◌+◌, ◌^◌, ℕ, List, IfOk, length, vec_len};
ghost use Rattle.base_merkle.specs.Holds.{Holds};

use crate::fault::Fault;
use crate::page::Page;
use crate::texts::{hex_bytes, number, split_at_bar};
use base_merkle::{Frontier, Hash32, Sha256Hash, leaf_hash, root_of_hashes};
use base_types::Hash;
use std::alloc::Global;

/// The most leaves of a case.
const MOST_LEAVES: usize = 100_000;

/// The bytes that a word is.
pub fn leaf_of(alloc: Global, word: &str) -> Result<Vec<u8>, Fault> {
    match word {
        "-" => Ok(Vec::new(alloc)),
        _ => hex_bytes(alloc, word),
    }
}

fn put_leaves(alloc: Global, words: &str, leaves: &mut Vec<Vec<u8>>) -> Result<(), Fault> {
    for word in words.split_whitespace() {
        leaves.push(leaf_of(alloc, word)?)?;
    }
    Ok(())
}

/// The bytes of each word.
pub fn leaves_of(alloc: Global, words: &str) -> Result<Vec<Vec<u8>>, Fault>
    ensures few { IfOk result (λ leaves. vec_len leaves ≤ 100000) }
{
    let mut leaves = Vec::new(alloc);
    put_leaves(alloc, words, &mut leaves)?;
    if leaves.len() > MOST_LEAVES {
        return Err(Fault::Form("there are too many leaves"));
    }
    Ok(leaves)
}

fn push_all<H: Hash32>(tree: &mut Frontier<H>, leaves: &[Vec<u8>])
    requires few { tree.old.count + length leaves.now < 2 ^ 32 }
    requires before { (h : H) × (before : List (List ℕ)) × Holds H.digest h tree.old before }
    ensures count { tree.new.count ≡ tree.old.count + length leaves.now }
    ensures after { (h : H) × (after : List (List ℕ)) × Holds H.digest h tree.new after }
{
    for leaf in leaves {
        tree.push_leaf(leaf);
    }
}

/// The root of the first leaves, that with the second behind them, and that with the third in the place of
/// the second.
fn roots(first: &[Vec<u8>], second: &[Vec<u8>], third: &[Vec<u8>]) -> (Hash, Hash, Hash)
    requires first { length first.now ≤ 100000 }
    requires second { length second.now ≤ 100000 }
    requires third { length third.now ≤ 100000 }
{
    let mut tree = Frontier::new(Sha256Hash);
    push_all(&mut tree, first);
    let before = tree.root();
    let mark = tree.save();
    push_all(&mut tree, second);
    let between = tree.root();
    tree.restore(&mark);
    push_all(&mut tree, third);
    (before, between, tree.root())
}

fn put_tree(leaves: &[Vec<u8>], page: &mut Page)
    requires few { length leaves.now ≤ 100000 }
{
    let mut tree = Frontier::new(Sha256Hash);
    push_all(&mut tree, leaves);
    page.put_number(tree.count());
    page.put(" ");
    page.put_digits(&tree.root());
}

/// How many leaves there are, and the root of their tree.
pub fn tree(alloc: Global, words: &str, page: &mut Page) -> Result<(), Fault> {
    let leaves = leaves_of(alloc, words)?;
    put_tree(&leaves, page);
    Ok(())
}

fn put_level_root(alloc: Global, leaves: &[Vec<u8>], page: &mut Page) -> Result<(), Fault> {
    let mut hashes = Vec::new(alloc);
    for leaf in leaves {
        hashes.push(leaf_hash(Sha256Hash, leaf))?;
    }
    page.put_digits(&root_of_hashes(alloc, Sha256Hash, hashes)?);
    Ok(())
}

/// The root of the tree of some leaves, made level by level.
pub fn levels(alloc: Global, words: &str, page: &mut Page) -> Result<(), Fault> {
    put_level_root(alloc, &leaves_of(alloc, words)?, page)
}

/// The numbers from 0 on, each in four bytes, the high one first.
fn numbers(alloc: Global, count: u64) -> Result<Vec<Vec<u8>>, Fault> {
    let mut leaves = Vec::new(alloc);
    for number in 0..count {
        let mut leaf = Vec::new(alloc);
        leaf.extend_from_slice(&number.to_be_bytes()[4..])?;
        leaves.push(leaf)?;
    }
    Ok(leaves)
}

/// Of so many leaves that are numbers, the root made leaf by leaf, and level by level.
pub fn numbered(alloc: Global, text: &str, page: &mut Page) -> Result<(), Fault> {
    let leaves = numbers(alloc, number(text)?)?;
    if leaves.len() > MOST_LEAVES {
        return Err(Fault::Form("there are too many leaves"));
    }
    put_tree(&leaves, page);
    page.put(" ");
    put_level_root(alloc, &leaves, page)
}

fn put_roots(roots: &(Hash, Hash, Hash), page: &mut Page) {
    page.put_digits(&roots.0);
    page.put("; ");
    page.put_digits(&roots.1);
    page.put("; ");
    page.put_digits(&roots.2);
}

/// The roots before a mark, behind it, and from the mark on with other leaves.
pub fn restored(alloc: Global, text: &str, page: &mut Page) -> Result<(), Fault> {
    let (first, rest) = split_at_bar(text)?;
    let (second, third) = split_at_bar(rest)?;
    let first = leaves_of(alloc, first)?;
    let second = leaves_of(alloc, second)?;
    let third = leaves_of(alloc, third)?;
    put_roots(&roots(&first, &second, &third), page);
    Ok(())
}
