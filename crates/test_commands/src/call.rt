//! Calls of commands.

use crate::machine::Machine;
use base_io::{FixedClock, MemSink, MemSource, MemVault, OpenGate, Sink, Vault, VaultErr};
use cli_commands::{Status, ledgerd};
use std::alloc::{AllocError, Global};

/// The words of a line.
pub fn words_of(alloc: Global, line: &str) -> Result<Vec<String>, AllocError> {
    let mut words = Vec::new(alloc);
    for word in line.split(' ') {
        words.push(String::from_str(alloc, word)?)?;
    }
    Ok(words)
}

/// Runs the command that the words give over this outside, at a moment. All calls of the program are this one, so
/// that what `ledgerd` promises is gone through once.
pub fn run_command<K: Sink, V: Vault>(
    rt: &impl Machine,
    words: &[String],
    source: &mut MemSource,
    sink: &mut K,
    vault: &mut V,
    moment: u64,
) -> Status {
    let clock = FixedClock { at: moment };
    let ended = ledgerd(
        rt,
        rt.alloc(),
        words,
        source,
        sink,
        vault,
        &clock,
        &OpenGate,
    );
    ended.status
}

fn put_both(vault: &mut MemVault, a: &[u8], b: &[u8]) -> Result<(), VaultErr> {
    vault.put("a", a)?;
    vault.put("b", b)
}

/// Runs the command of a line over a vault in memory that has these bytes under `a` and `b`, and no input.
pub fn run_on_both(
    rt: &impl Machine,
    line: &str,
    a: &[u8],
    b: &[u8],
    sink: &mut MemSink,
) -> Result<Status, AllocError> {
    let alloc = rt.alloc();
    let mut vault = MemVault::new(alloc, Vec::new(alloc));
    if put_both(&mut vault, a, b).is_err() {
        return Ok(Status::VaultFault);
    }
    let words = words_of(alloc, line)?;
    let mut source = MemSource::new(Vec::new(alloc), 1, Vec::new(alloc));
    Ok(run_command(rt, &words, &mut source, sink, &mut vault, 0))
}
