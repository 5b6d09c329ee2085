//! Cases of SHA-256. A message is written in hexadecimal digits, and an empty one as `-`.

use crate::fault::Fault;
use crate::page::Page;
use crate::texts::{first_word, hash_of};
use crate::trees::{leaf_of, leaves_of};
use base_merkle::{Hash32, Message, Sha256Hash, node_hash};
use base_types::Hash;
use std::alloc::Global;

/// The hash of a message.
pub fn hashed(alloc: Global, word: &str, page: &mut Page) -> Result<(), Fault> {
    let message = leaf_of(alloc, word)?;
    page.put_digits(&Sha256Hash.hash(&[], &message));
    Ok(())
}

/// A message in two halves.
fn halved(bytes: &[u8]) -> Message<'_> {
    let (head, rest) = bytes.split_at(bytes.len() / 2);
    Message { head, rest }
}

fn put_hashes(hashes: &[Hash; 4], page: &mut Page) {
    let [a, b, c, d] = hashes;
    page.put_digits(a);
    page.put(" ");
    page.put_digits(b);
    page.put(" ");
    page.put_digits(c);
    page.put(" ");
    page.put_digits(d);
}

/// The hashes of four messages, which are hashed together.
pub fn hashed_together(alloc: Global, words: &str, page: &mut Page) -> Result<(), Fault> {
    let messages = leaves_of(alloc, words)?;
    let [a, b, c, d] = messages.as_slice() else {
        return Err(Fault::Form("four messages are wanted"));
    };
    let four = [halved(a), halved(b), halved(c), halved(d)];
    put_hashes(&Sha256Hash.hash_four(&four), page);
    Ok(())
}

/// The hash of a node, of those of its left and its right half.
pub fn node(words: &str, page: &mut Page) -> Result<(), Fault> {
    let (left, right) = first_word(words);
    let hash = node_hash(Sha256Hash, &hash_of(left)?, &hash_of(right)?);
    page.put_digits(&hash);
    Ok(())
}
