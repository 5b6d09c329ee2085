//! The command `run`: sections of an input, whose sessions run side by side.

ghost use Rattle.std.specs.Prelude.{⊤, ◌≡◌, ◌∷◌, ◌≤◌, ◌⊎◌, codes, length, All, IfErr, IfOk, IfSome, Some, true};
ghost use Rattle.std.specs.List.{IsDistinct};
ghost use Rattle.std.specs.Str.{bytes_eq};
ghost use Rattle.base_io.specs.Count.{Rises};
ghost use Rattle.base_io.specs.History.{Since};
ghost use Rattle.format_sections.specs.Form.{is_session_name};
ghost use Rattle.format_sections.specs.RunSections.{run_sections_view, session_names, size_of};
ghost use Rattle.cli_words.specs.Commands.{AreInRange};
ghost use Rattle.cli_words.specs.Views.{settings_view};
ghost use Rattle.cli_commands.specs.Input.{IsRefused, Says, section_form};
ghost use Rattle.cli_audit.specs.Answer.{HasRead, Unfailed};
ghost use Rattle.cli_commands.specs.Answer.{InputCause, RanAndSaved, RunOutcomeOrIdle};
ghost use Rattle.cli_audit.specs.Calls.{AreReads, ArePuts, AreWrites};
ghost use Rattle.cli_commands.specs.Run.{IsRun, IsSavable, SectionsComeTo};
ghost use Rattle.cli_audit.specs.Transfer.{input_limit};

use crate::saved::save_and_write;
use base_io::{Clock, Gate, Sink, Source, Vault};
use base_merkle::Hash32;
use base_types::Memory;
use cli_audit::{ReadErr, Status, read_input};
use format_sections::{RunSections, SectionsErr, has_many_sessions, read_run_sections};
use server_result::{RunOutcome, Settings};
use std::alloc::Global;
use std::sync::Wait;
use std::thread::Threads;
use workload_run::run_all;

/// The plan that the input says. Where a line lacks its form, that is said before the sessions are counted.
pub(crate) fn run_sections_of<'a>(alloc: Global, input: &'a [u8]) -> Result<RunSections<'a>, Status>
    requires { length input.now ≤ input_limit }
    ensures says { IfOk result (λ all_sections. Says section_form input.now (run_sections_view all_sections)) }
    ensures names { IfOk result
        (λ all_sections. All (λ name. is_session_name name ≡ true) (session_names (run_sections_view all_sections))) }
    ensures apart { IfOk result
        (λ all_sections. IsDistinct bytes_eq (codes "setup" ∷ session_names (run_sections_view all_sections))) }
    ensures few { IfOk result (λ all_sections. size_of (run_sections_view all_sections) ≤ input_limit) }
    ensures refused { IfErr result (λ status. IsRefused section_form status input.now) }
{
    let all_sections = match read_run_sections(alloc, input) {
        Ok(all_sections) => all_sections,
        Err(SectionsErr::Form { line }) => return Err(Status::Form { line }),
        Err(SectionsErr::Memory) => return Err(Status::Memory),
    };
    if has_many_sessions(&all_sections) {
        return Err(Status::Limit);
    }
    Ok(all_sections)
}

/// Runs the sections of an input, their sessions side by side, or says why it is refused.
fn run_sections<H: Hash32, C: Clock, G: Gate, R: Threads + Wait + Sync>(
    rt: &R,
    alloc: Global,
    h: H,
    settings: Settings<'_>,
    input: &[u8],
    clock: &C,
    gate: &G,
) -> Result<RunOutcome, Status>
    requires limit { length input.now ≤ input_limit }
    requires settings { AreInRange (settings_view settings) }
    ensures run { IfOk result
        (IsRun section_form (SectionsComeTo (H.digest h) (settings_view settings.entry) (C.says clock.now)) input.now) }
    ensures savable { IfOk result IsSavable }
    ensures refused { IfErr result (λ status. IsRefused section_form status input.now) }
{
    let all_sections = run_sections_of(alloc, input)?;
    match run_all(rt, alloc, h, settings, &all_sections, clock, gate) {
        Ok(ran) => Ok(ran),
        Err(Memory) => Err(Status::Memory),
    }
}

/// Runs an input, puts its files and writes its transcripts.
fn run_and_save<H: Hash32, K: Sink, V: Vault, C: Clock, G: Gate, R: Threads + Wait + Sync>(
    rt: &R,
    alloc: Global,
    h: H,
    save: &str,
    settings: Settings<'_>,
    input: &[u8],
    sink: &mut K,
    vault: &mut V,
    clock: &C,
    gate: &G,
) -> Status
    requires limit { length input.now ≤ input_limit }
    requires settings { AreInRange (settings_view settings) }
    ensures cause { InputCause section_form result (Some input.now) ⊥
        (Rises (V.faults vault.old) (V.faults vault.new))
        (Rises (K.faults sink.old) (K.faults sink.new) ⊎ Rises (K.stalls sink.old) (K.stalls sink.new)) }
    ensures ran { RunOutcomeOrIdle result
        (RanAndSaved result section_form (SectionsComeTo (H.digest h) (settings_view settings.entry) (C.says clock.now))
        save.now (Some input.now) (V.names vault.old) (V.names vault.new) (K.taken sink.old) (K.taken sink.new))
        ((vault.new ≡ vault.old) × (sink.new ≡ sink.old)) }
    ensures puts { Since (V.history vault.old) (V.history vault.new) (ArePuts result) }
    ensures writes { Since (K.history sink.old) (K.history sink.new) (AreWrites result) }
    ensures unfailed { Unfailed result ⊤ (V.faults vault.new ≡ V.faults vault.old)
        ((K.faults sink.new ≡ K.faults sink.old) × (K.stalls sink.new ≡ K.stalls sink.old)) }
    ensures unwritten { (result ≡ Status.Done → ⊥) → (result ≡ Status.SinkFault → ⊥) → sink.new ≡ sink.old }
{
    let ran = match run_sections(rt, alloc, h, settings, input, clock, gate) {
        Ok(ran) => ran,
        Err(status) => return status,
    };
    save_and_write(alloc, save, ran, sink, vault)
}

/// Reads an input, runs it, puts its files and writes its transcripts.
pub(crate) fn run_side_by_side<
    H: Hash32,
    S: Source,
    K: Sink,
    V: Vault,
    C: Clock,
    G: Gate,
    R: Threads + Wait + Sync,
>(
    rt: &R,
    alloc: Global,
    h: H,
    save: &str,
    settings: Settings<'_>,
    source: &mut S,
    sink: &mut K,
    vault: &mut V,
    clock: &C,
    gate: &G,
) -> Status
    requires { AreInRange (settings_view settings) }
    ensures cause { InputCause section_form result (S.left source.old)
        (Rises (S.faults source.old) (S.faults source.new))
        (Rises (V.faults vault.old) (V.faults vault.new))
        (Rises (K.faults sink.old) (K.faults sink.new) ⊎ Rises (K.stalls sink.old) (K.stalls sink.new)) }
    ensures read { IfSome (S.left source.old) (λ input. HasRead result input (S.left source.new)) }
    ensures ran { RunOutcomeOrIdle result
        (RanAndSaved result section_form (SectionsComeTo (H.digest h) (settings_view settings.entry) (C.says clock.now))
        save.now (S.left source.old) (V.names vault.old) (V.names vault.new) (K.taken sink.old) (K.taken sink.new))
        ((vault.new ≡ vault.old) × (sink.new ≡ sink.old)) }
    ensures reads { Since (S.history source.old) (S.history source.new) (AreReads result) }
    ensures puts { Since (V.history vault.old) (V.history vault.new) (ArePuts result) }
    ensures writes { Since (K.history sink.old) (K.history sink.new) (AreWrites result) }
    ensures unfailed { Unfailed result (S.faults source.new ≡ S.faults source.old)
        (V.faults vault.new ≡ V.faults vault.old)
        ((K.faults sink.new ≡ K.faults sink.old) × (K.stalls sink.new ≡ K.stalls sink.old)) }
    ensures unwritten { (result ≡ Status.Done → ⊥) → (result ≡ Status.SinkFault → ⊥) → sink.new ≡ sink.old }
{
    let input = match read_input(alloc, source) {
        Ok(input) => input,
        Err(ReadErr::Memory) => return Status::Memory,
        Err(ReadErr::TooMuch) => return Status::Limit,
        Err(ReadErr::Failed) => return Status::SourceFault,
    };
    run_and_save(
        rt, alloc, h, save, settings, &input, sink, vault, clock, gate,
    )
}
