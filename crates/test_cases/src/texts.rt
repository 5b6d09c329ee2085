//! Words, numbers and bytes of a case.

use crate::fault::Fault;
use base_types::Hash;
use hex::FromHexError;
use std::alloc::Global;

/// The first word of a text, and what stands behind it and a blank.
pub fn first_word(text: &str) -> (&str, &str) {
    match text.split_once(' ') {
        Some(parts) => parts,
        None => (text, ""),
    }
}

/// The two texts on both sides of ` | `.
pub fn split_at_bar(text: &str) -> Result<(&str, &str), Fault> {
    match text.split_once(" | ") {
        Some(parts) => Ok(parts),
        None => Err(Fault::Form("it has no ` | `")),
    }
}

/// The number that a word is.
pub fn number(word: &str) -> Result<u64, Fault> {
    match word.parse::<u64>() {
        Ok(n) => Ok(n),
        Err(_) => Err(Fault::Form("a number is wanted")),
    }
}

fn put_word(word: Result<Vec<u8>, FromHexError>, bytes: &mut Vec<u8>) -> Result<(), Fault> {
    match word {
        Ok(some) => Ok(bytes.extend_from_slice(&some)?),
        Err(FromHexError::OutOfMemory) => Err(Fault::Memory),
        Err(_) => Err(Fault::Form("pairs of hexadecimal digits are wanted")),
    }
}

fn put_words(alloc: Global, words: &str, bytes: &mut Vec<u8>) -> Result<(), Fault> {
    for word in words.split_whitespace() {
        put_word(hex::decode(alloc, word), bytes)?;
    }
    Ok(())
}

/// The bytes that words of hexadecimal digits are.
pub fn hex_bytes(alloc: Global, words: &str) -> Result<Vec<u8>, Fault> {
    let mut bytes = Vec::new(alloc);
    put_words(alloc, words, &mut bytes)?;
    Ok(bytes)
}

/// The hash that a word of 64 hexadecimal digits is.
pub fn hash_of(word: &str) -> Result<Hash, Fault> {
    let mut hash = [0; 32];
    match hex::decode_to_slice(word, &mut hash) {
        Ok(()) => Ok(hash),
        Err(FromHexError::InvalidStringLength) => Err(Fault::Form("32 bytes are wanted")),
        Err(_) => Err(Fault::Form("pairs of hexadecimal digits are wanted")),
    }
}

/// The text that bytes are.
pub fn text_of(bytes: &[u8]) -> Result<&str, Fault> {
    match std::str::from_utf8(bytes) {
        Ok(text) => Ok(text),
        Err(_) => Err(Fault::Form("its text isn't UTF-8")),
    }
}
