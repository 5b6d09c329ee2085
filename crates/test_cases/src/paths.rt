//! Cases of audit paths in Merkle trees.

use crate::fault::Fault;
use crate::page::Page;
use crate::texts::{first_word, hash_of, number};
use crate::trees::{leaf_of, leaves_of};
use audit_paths::{audit_path, root_under};
use base_merkle::Sha256Hash;
use base_types::{Blob, Hash};
use std::alloc::Global;

/// More leaves than any case has.
const TOO_MANY: u64 = 1 << 32;

/// A leaf with its place among so many, and the path that is to lead from it to the root.
#[derive(Drop)]
struct Claim {
    place: u64,
    count: u64,
    leaf: Vec<u8>,
    root: Hash,
    path: Vec<Hash>,
}

fn hashes_of(alloc: Global, words: &str) -> Result<Vec<Hash>, Fault> {
    let mut hashes = Vec::new(alloc);
    for word in words.split_whitespace() {
        hashes.push(hash_of(word)?)?;
    }
    Ok(hashes)
}

fn claim_of(alloc: Global, text: &str) -> Result<Claim, Fault> {
    let (place, rest) = first_word(text);
    let (count, rest) = first_word(rest);
    let (leaf, rest) = first_word(rest);
    let (root, path) = first_word(rest);
    Ok(Claim {
        place: number(place)?,
        count: number(count)?,
        leaf: leaf_of(alloc, leaf)?,
        root: hash_of(root)?,
        path: hashes_of(alloc, path)?,
    })
}

impl Claim {
    /// Whether the path leads to the root. That there is such a place is for the caller of `root_under` to see to, as
    /// receipts do.
    fn holds(&self) -> bool {
        if self.place >= self.count || self.count >= TOO_MANY {
            return false;
        }
        let (place, count) = (self.place as usize, self.count as usize);
        root_under(Sha256Hash, &self.path, place, count, &self.leaf) == Some(self.root)
    }
}

/// Whether a path is accepted: `<place> <count> <leaf> <root>` and the hashes of the path.
pub fn led(alloc: Global, text: &str, page: &mut Page) -> Result<(), Fault> {
    let claim = claim_of(alloc, text)?;
    page.put(if claim.holds() { "accepted" } else { "refused" });
    Ok(())
}

fn blobs_of(alloc: Global, leaves: Vec<Vec<u8>>) -> Result<Vec<Blob>, Fault> {
    let mut blobs = Vec::new(alloc);
    for leaf in leaves {
        blobs.push(Blob::from_vec(leaf))?;
    }
    Ok(blobs)
}

/// The path of a place in some leaves: the place, and the leaves.
pub fn path(alloc: Global, text: &str, page: &mut Page) -> Result<(), Fault> {
    let (place, words) = first_word(text);
    let place = number(place)?;
    let leaves = blobs_of(alloc, leaves_of(alloc, words)?)?;
    if place >= TOO_MANY || leaves.len() >= TOO_MANY as usize {
        return Err(Fault::Form("there are too many leaves"));
    }
    for hash in audit_path(alloc, Sha256Hash, place as usize, &leaves)?.as_slice() {
        if !page.is_empty() {
            page.put(" ");
        }
        page.put_digits(hash);
    }
    Ok(())
}
