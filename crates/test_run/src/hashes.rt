//! How often the workload's run and verdict compress.

ghost use Rattle.std.specs.Prelude.{◌≤◌};

use base_merkle::{Hash32, Sha256Hash};
use base_types::Hash;
use std::sync::Wait;
use std::sync::atomic::AtomicU64;
use std::sync::atomic::Ordering::SeqCst;
use std::test::Fail;
use std::thread::Threads;
use workload_run::run_workload;

/// SHA-256 that counts its compressions.
#[derive(Clone, Copy)]
pub struct CountingHash<'a> {
    pub count: &'a AtomicU64,
}

impl<'a> Hash32 for CountingHash<'a> {
    ghost use Rattle.sha2.specs.Sha256.{sha256};
    ghost use Rattle.sha2.proofs.Facts256.{length-sha256};

    ghost digest = { λ _ bytes. sha256 bytes };

    ghost sized = { λ _ bytes. length-sha256 bytes };

    fn hash(&self, head: &[u8], rest: &[u8]) -> Hash {
        // A byte and the length in eight stand behind the message.
        let bytes = head.len().saturating_add(rest.len()).saturating_add(9);
        self.count.fetch_add(bytes.div_ceil(64) as u64, SeqCst);
        Sha256Hash.hash(head, rest)
    }
}

/// How many compressions the workload on so many rows takes.
fn compressions<R: Threads + Wait + AllocGlobal + Sync>(rt: &R, rows: u32) -> Result<u64, Fail>
    requires { rows ≤ 1000000 }
{
    let count = AtomicU64::new(0);
    run_workload(rt, rt.alloc(), CountingHash { count: &count }, rows)
        .ok()
        .ok_or("memory")?;
    Ok(count.load(SeqCst))
}

/// A count is a row in each of four tables, of which every tenth is changed once. It takes 28 compressions for
/// the run and 28 for the verdict.
#[test]
fn a_count_takes_56_compressions(rt: HostRuntime) -> Result<(), Fail> {
    let few = compressions(&rt, 100)?;
    let many = compressions(&rt, 1100)?;
    assert_eq!(rt; many.wrapping_sub(few), 56_000);
    Ok(())
}
