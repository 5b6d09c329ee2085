//! The hashes that a line may name, two of them weak on purpose.

ghost use Rattle.test_extract.specs.Hashes.{digest_of, digest_sized};

use base_merkle::{Hash32, Sha256Hash};
use base_types::Hash;

/// A hash of 32 bytes. It is one type, so that what goes over hashes is compiled once.
#[derive(Clone, Copy)]
pub enum NamedHash {
    /// 32 zero bytes, whatever is hashed.
    Zeros,
    /// The last byte of the number of the bytes that are hashed, and 31 zero bytes.
    Length,
    /// SHA-256.
    Sha256,
}

impl NamedHash {
    /// The one that a line names so.
    pub fn named(name: &str) -> Option<NamedHash> {
        match name {
            "zeros" => Some(NamedHash::Zeros),
            "length" => Some(NamedHash::Length),
            "sha256" => Some(NamedHash::Sha256),
            _ => None,
        }
    }
}

impl Hash32 for NamedHash {
    ghost digest = { λ hash bytes. digest_of hash bytes };

    ghost sized = { λ hash bytes. digest_sized hash bytes };

    fn hash(&self, head: &[u8], rest: &[u8]) -> Hash {
        match self {
            NamedHash::Zeros => [0; 32],
            NamedHash::Length => {
                let mut hash = [0; 32];
                hash[0] = ((head.len() + rest.len()) % 256) as u8;
                hash
            }
            NamedHash::Sha256 => Sha256Hash.hash(head, rest),
        }
    }
}
