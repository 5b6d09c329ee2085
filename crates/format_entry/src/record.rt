//! The records of blocks, and the hashes of blocks.

ghost use Rattle.std.specs.Prelude.{◌≡◌, ◌++◌};
ghost use Rattle.std.specs.Option.{option_map};
ghost use Rattle.base_fields.specs.Fields.{u64_field, hash_field};
ghost use Rattle.sql_types.specs.declared.entry.BlockRecord.{BlockRecord};
ghost use Rattle.format_entry.specs.Record.{IsRecord, record_bytes, record_at};

use base_fields::Fields;
use base_merkle::Hash32;
use base_types::Hash;
use sql_types::BlockRecord;

/// The bytes of a record: the block, the root of its entries, how many they are, and the hash of the record
/// before.
#[tactic(auto, unfolding(crate::specs::Record::record_bytes))]
pub fn record_bytes(block: &BlockRecord) -> [u8; 80]
    ensures { result ≡ record_bytes block.now }
{
    let front = half_bytes(block.id, &block.root);
    let back = half_bytes(block.size, &block.previous);
    joined(&front, &back)
}

// A number and a hash: a record is two of these.
#[tactic(auto, unfolding(base_fields::specs::Fields::u64_field))]
fn half_bytes(number: u64, hash: &Hash) -> [u8; 40]
    ensures { result ≡ u64_field number ++ hash_field hash.now }
{
    let mut bytes = [0; 40];
    bytes[..8].copy_from_slice(&number.to_be_bytes());
    bytes[8..].copy_from_slice(hash);
    bytes
}

fn joined(front: &[u8; 40], back: &[u8; 40]) -> [u8; 80]
    ensures { result ≡ front.now ++ back.now }
{
    let mut bytes = [0; 80];
    bytes[..40].copy_from_slice(front);
    bytes[40..].copy_from_slice(back);
    bytes
}

/// The one record whose bytes these are. Any 80 bytes are those of a record.
pub fn read_record(bytes: &[u8; 80]) -> BlockRecord
    ensures found { IsRecord result × (bytes.now ≡ record_bytes result) }
    ensures only { (b : BlockRecord) → IsRecord b → bytes.now ≡ record_bytes b → result ≡ b }
{
    record_at(bytes).unwrap()
}

#[tactic(auto, unfolding(crate::specs::Record::record_at))]
fn record_at(bytes: &[u8]) -> Option<BlockRecord>
    ensures { result ≡ option_map (λ x. x.0) (record_at bytes.now) }
{
    let mut fields = Fields::new(bytes);
    let id = fields.u64()?;
    let root = fields.hash()?;
    let size = fields.u64()?;
    let previous = fields.hash()?;
    Some(BlockRecord {
        id,
        root,
        size,
        previous,
    })
}

/// The hash of a block is that of its record.
pub fn block_hash<H: Hash32>(hasher: H, block: &BlockRecord) -> Hash
    ensures { result ≡ H.digest hasher (record_bytes block.now) }
{
    hasher.hash(&record_bytes(block), &[])
}
