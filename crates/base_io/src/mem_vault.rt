//! A vault in memory.

ghost use Rattle.std.specs.Prelude.{◌≡◌, ◌≢◌, ◌<◌, ◌≤◌, length, vec_len, bytes_eq, Some, Err, OnOk, OnErr, IfOk, IfSome, IfNone, MatchOption};
ghost use Rattle.std.specs.List.{position_from};
ghost use Rattle.base_io.specs.Store.{Absent, Bytes};
ghost use Rattle.base_io.specs.Outside.{Gets, outcome};
ghost use Rattle.base_io.specs.Answered.{no_answers};
ghost use Rattle.base_io.specs.FaultSchedule.{no_calls_yet};
ghost use Rattle.base_io.specs.Entries.{held_in, shown, HoldsNow, IsPlaceOf};

use crate::answer_log::AnswerLog;
use crate::fault_schedule::FaultInjector;
use crate::{Vault, VaultErr};
use base_types::{Blob, Memory};
use std::alloc::Global;

// What stands under a name: some bytes, or that nobody can tell.
#[derive(Drop)]
struct Entry {
    name: Blob,
    held: Option<Blob>,
}

/// Keeps byte strings under names, and fails at the calls that it was told to. A `get` of an open name fails.
#[derive(Drop)]
pub struct MemVault {
    entries: Vec<Entry>,
    alloc: Global,
    fault_schedule: FaultInjector,
    answered: AnswerLog<Result<(), VaultErr>>,
}

impl MemVault {
    ghost use Rattle.base_io.specs.Fakes.{names_of, vault_answers, vault_fault_schedule};

    /// A vault without names. `fails` has the numbers of the calls of `get` and `put` that are to fail,
    /// counted from 1 over both.
    pub fn new(alloc: Global, fails: Vec<u64>) -> MemVault
        ensures names { names_of result ≡ Some (λ name. Absent) }
        ensures fault_schedule { vault_fault_schedule result ≡ no_calls_yet fails.items }
        ensures answers { vault_answers result ≡ no_answers }
    {
        MemVault {
            entries: Vec::new(alloc),
            alloc,
            fault_schedule: FaultInjector::new(fails),
            answered: AnswerLog::new(),
        }
    }
}

impl Vault for MemVault {
    ghost use Rattle.base_io.specs.Fakes.{names_of, vault_answers, vault_faults};
    ghost use Rattle.base_io.specs.Answered.{HasAnswered, is_vault_stop};

    ghost names = { names_of };

    ghost history = { λ v answers. HasAnswered is_vault_stop (vault_answers v) answers };

    ghost faults = { vault_faults };

    #[tactic(auto, using(crate::proofs::Answering::adds))]
    fn get(&mut self, name: &str, limit: usize) -> Result<Vec<u8>, VaultErr> {
        let answer = self.look(name, limit);
        let came = outcome(&answer);
        self.answered.note(came, came.is_err());
        answer
    }

    #[tactic(auto, using(crate::proofs::Answering::adds))]
    fn put(&mut self, name: &str, bytes: &[u8]) -> Result<(), VaultErr> {
        let answer = self.take(name, bytes);
        self.answered.note(answer, answer.is_err());
        answer
    }
}

impl MemVault {
    ghost use Rattle.base_io.specs.Fakes.{names_of, vault_answers, vault_faults};
    ghost use Rattle.base_io.specs.Outside.{CountsFault, TellsGet, TellsPut};

    // What stands under a name.
    fn look(&mut self, name: &str, limit: usize) -> Result<Vec<u8>, VaultErr>
        ensures gives { TellsGet (names_of self.old) name.now limit result }
        ensures within { IfOk result (λ bytes. vec_len bytes ≤ limit) }
        ensures same { names_of self.new ≡ names_of self.old }
        ensures later { vault_faults self.old ≤ vault_faults self.new }
        ensures counts { CountsFault result (vault_faults self.old) (vault_faults self.new) }
        ensures answers { vault_answers self.new ≡ vault_answers self.old }
    {
        if self.fault_schedule.is_next_failing() {
            self.fault_schedule.note_failure();
            return Err(VaultErr::Failed);
        }
        let Some(entry) = entry_of(&self.entries, name.as_bytes()) else {
            return Err(VaultErr::Missing);
        };
        match &entry.held {
            None => {
                self.fault_schedule.note_failure();
                Err(VaultErr::Failed)
            }
            Some(bytes) => given(self.alloc, bytes.bytes(), limit),
        }
    }

    // Keeps bytes under a name.
    fn take(&mut self, name: &str, bytes: &[u8]) -> Result<(), VaultErr>
        ensures puts { TellsPut (names_of self.old) (names_of self.new) result name.now bytes.now }
        ensures known { (result ≡ Err VaultErr.Missing → ⊥) × (result ≡ Err VaultErr.TooLong → ⊥) }
        ensures later { vault_faults self.old ≤ vault_faults self.new }
        ensures counts { CountsFault result (vault_faults self.old) (vault_faults self.new) }
        ensures answers { vault_answers self.new ≡ vault_answers self.old }
    {
        if self.fault_schedule.is_next_failing() {
            keep(&mut self.entries, self.alloc, name.as_bytes(), None)?;
            self.fault_schedule.note_failure();
            return Err(VaultErr::Failed);
        }
        let copy = Blob::of(self.alloc, bytes)?;
        keep(&mut self.entries, self.alloc, name.as_bytes(), Some(copy))?;
        Ok(())
    }
}

// Whether a call gave something, or the error that it answered.
fn outcome<T>(answer: &Result<T, VaultErr>) -> Result<(), VaultErr>
    ensures { result ≡ outcome answer.now }
{
    match answer {
        Ok(_) => Ok(()),
        Err(error) => Err(*error),
    }
}

// A copy of the bytes, if they are at most `limit`.
fn given(alloc: Global, bytes: &[u8], limit: usize) -> Result<Vec<u8>, VaultErr>
    ensures gives { Gets (Bytes bytes.now) limit result }
    ensures within { IfOk result (λ copy. vec_len copy ≤ limit) }
    ensures unfailing { result ≢ Err VaultErr.Failed }
{
    if bytes.len() > limit {
        return Err(VaultErr::TooLong);
    }
    Ok(Blob::of(alloc, bytes)?.into_vec())
}

// The first entry of a name.
fn entry_of<'a>(entries: &'a [Entry], name: &[u8]) -> Option<&'a Entry>
    ensures { MatchOption result (held_in entries.now name.now ≡ Absent)
        (λ e. held_in entries.now name.now ≡ shown e.now.held) }
{
    let at = place_of(entries, name)?;
    Some(&entries[at])
}

// The place of the first entry of a name.
fn place_of(entries: &[Entry], name: &[u8]) -> Option<usize>
    ensures none { IfNone result (held_in entries.now name.now ≡ Absent) }
    ensures within { IfSome result (λ at. at < length entries.now) }
    ensures place { IfSome result (λ at. IsPlaceOf entries.now name.now at) }
{
    position_of(entries, name)
}

fn position_of(entries: &[Entry], name: &[u8]) -> Option<usize>
    ensures { result ≡ position_from (λ e. bytes_eq e.name name.now) 0 entries.now }
{
    entries.iter().position(|entry| entry.name.bytes() == name)
}

// Puts this under a name, or leaves all as it was for want of memory.
fn keep(
    entries: &mut Vec<Entry>,
    alloc: Global,
    name: &[u8],
    held: Option<Blob>,
) -> Result<(), Memory>
    ensures ok { OnOk result (HoldsNow entries.old.items entries.new.items name.now (shown held)) }
    ensures err { OnErr result (entries.new.items ≡ entries.old.items) }
{
    match place_of(entries, name) {
        Some(at) => {
            entries[at].held = held;
        }
        None => {
            let name = Blob::of(alloc, name)?;
            entries.push(Entry { name, held })?;
        }
    }
    Ok(())
}
