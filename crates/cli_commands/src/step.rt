//! The command `step`: statements of sessions, run one after another.

ghost use Rattle.std.specs.Prelude.{⊤, ◌≡◌, ◌≤◌, ◌⊎◌, length, map, All, IfErr, IfOk, IfSome, Some, true};
ghost use Rattle.base_io.specs.Count.{Rises};
ghost use Rattle.base_io.specs.History.{Since};
ghost use Rattle.format_lines.specs.Line.{seen, is_session_name};
ghost use Rattle.format_lines.specs.Sessions.{sessions_of};
ghost use Rattle.cli_words.specs.Commands.{AreInRange};
ghost use Rattle.cli_words.specs.Views.{settings_view};
ghost use Rattle.cli_commands.specs.Input.{IsRefused, Says, line_form};
ghost use Rattle.cli_audit.specs.Answer.{HasRead, Unfailed};
ghost use Rattle.cli_commands.specs.Answer.{InputCause, RanAndSaved, RunOutcomeOrIdle};
ghost use Rattle.cli_audit.specs.Calls.{AreReads, ArePuts, AreWrites};
ghost use Rattle.cli_commands.specs.Run.{IsRun, IsSavable, LinesComeTo};
ghost use Rattle.cli_audit.specs.Transfer.{input_limit};

use crate::saved::save_and_write;
use base_io::{Clock, Sink, Source, Vault};
use base_merkle::Hash32;
use base_types::Memory;
use cli_audit::{ReadErr, Status, read_input};
use format_lines::{InputErr, Line, read_lines, session_names};
use server_result::{RunOutcome, Settings};
use server_step::run_lines;
use std::alloc::Global;

/// The statements of an input by line, and the names of their sessions by first appearance.
#[derive(Drop)]
pub(crate) struct Input<'a> {
    pub lines: Vec<Line<'a>>,
    pub sessions: Vec<&'a str>,
}

/// The statements of the input. Where a line lacks its form, that is said before the sessions are counted.
pub(crate) fn statements<'a>(alloc: Global, input: &'a [u8]) -> Result<Input<'a>, Status>
    requires { length input.now ≤ input_limit }
    ensures has { IfOk result (λ s. Says line_form input.now (map seen s.lines.items)) }
    ensures names { IfOk result (λ s. All (λ l. is_session_name l.session.now ≡ true) s.lines.items) }
    ensures sessions { IfOk result
        (λ s. map (λ n. n.now) s.sessions.items ≡ sessions_of (map seen s.lines.items)) }
    ensures refused { IfErr result (λ status. IsRefused line_form status input.now) }
{
    let lines = match read_lines(alloc, input) {
        Ok(lines) => lines,
        Err(InputErr::Form { line }) => return Err(Status::Form { line }),
        Err(InputErr::Memory) => return Err(Status::Memory),
    };
    match session_names(alloc, &lines) {
        Ok(Some(sessions)) => Ok(Input { lines, sessions }),
        Ok(None) => Err(Status::Limit),
        Err(Memory) => Err(Status::Memory),
    }
}

/// Runs the statements of an input, or says why it is refused.
fn run_input<H: Hash32, C: Clock>(
    alloc: Global,
    h: H,
    settings: Settings<'_>,
    input: &[u8],
    clock: &C,
) -> Result<RunOutcome, Status>
    requires limit { length input.now ≤ input_limit }
    requires settings { AreInRange (settings_view settings) }
    ensures run { IfOk result
        (IsRun line_form (LinesComeTo (H.digest h) (settings_view settings.entry) (C.says clock.now)) input.now) }
    ensures savable { IfOk result IsSavable }
    ensures refused { IfErr result (λ status. IsRefused line_form status input.now) }
{
    let read = statements(alloc, input)?;
    match run_lines(alloc, h, settings, &read.sessions, &read.lines, clock) {
        Ok(ran) => Ok(ran),
        Err(Memory) => Err(Status::Memory),
    }
}

/// Runs an input, puts its files and writes its transcript.
fn run_and_save<H: Hash32, K: Sink, V: Vault, C: Clock>(
    alloc: Global,
    h: H,
    save: &str,
    settings: Settings<'_>,
    input: &[u8],
    sink: &mut K,
    vault: &mut V,
    clock: &C,
) -> Status
    requires limit { length input.now ≤ input_limit }
    requires settings { AreInRange (settings_view settings) }
    ensures cause { InputCause line_form result (Some input.now) ⊥
        (Rises (V.faults vault.old) (V.faults vault.new))
        (Rises (K.faults sink.old) (K.faults sink.new) ⊎ Rises (K.stalls sink.old) (K.stalls sink.new)) }
    ensures ran { RunOutcomeOrIdle result
        (RanAndSaved result line_form (LinesComeTo (H.digest h) (settings_view settings.entry) (C.says clock.now))
        save.now (Some input.now) (V.names vault.old) (V.names vault.new) (K.taken sink.old) (K.taken sink.new))
        ((vault.new ≡ vault.old) × (sink.new ≡ sink.old)) }
    ensures puts { Since (V.history vault.old) (V.history vault.new) (ArePuts result) }
    ensures writes { Since (K.history sink.old) (K.history sink.new) (AreWrites result) }
    ensures unfailed { Unfailed result ⊤ (V.faults vault.new ≡ V.faults vault.old)
        ((K.faults sink.new ≡ K.faults sink.old) × (K.stalls sink.new ≡ K.stalls sink.old)) }
    ensures unwritten { (result ≡ Status.Done → ⊥) → (result ≡ Status.SinkFault → ⊥) → sink.new ≡ sink.old }
{
    let ran = match run_input(alloc, h, settings, input, clock) {
        Ok(ran) => ran,
        Err(status) => return status,
    };
    save_and_write(alloc, save, ran, sink, vault)
}

/// Reads an input, runs it, puts its files and writes its transcript.
pub(crate) fn step<H: Hash32, S: Source, K: Sink, V: Vault, C: Clock>(
    alloc: Global,
    h: H,
    save: &str,
    settings: Settings<'_>,
    source: &mut S,
    sink: &mut K,
    vault: &mut V,
    clock: &C,
) -> Status
    requires { AreInRange (settings_view settings) }
    ensures cause { InputCause line_form result (S.left source.old)
        (Rises (S.faults source.old) (S.faults source.new))
        (Rises (V.faults vault.old) (V.faults vault.new))
        (Rises (K.faults sink.old) (K.faults sink.new) ⊎ Rises (K.stalls sink.old) (K.stalls sink.new)) }
    ensures read { IfSome (S.left source.old) (λ input. HasRead result input (S.left source.new)) }
    ensures ran { RunOutcomeOrIdle result
        (RanAndSaved result line_form (LinesComeTo (H.digest h) (settings_view settings.entry) (C.says clock.now))
        save.now (S.left source.old) (V.names vault.old) (V.names vault.new) (K.taken sink.old) (K.taken sink.new))
        ((vault.new ≡ vault.old) × (sink.new ≡ sink.old)) }
    ensures reads { Since (S.history source.old) (S.history source.new) (AreReads result) }
    ensures puts { Since (V.history vault.old) (V.history vault.new) (ArePuts result) }
    ensures writes { Since (K.history sink.old) (K.history sink.new) (AreWrites result) }
    ensures unfailed { Unfailed result (S.faults source.new ≡ S.faults source.old)
        (V.faults vault.new ≡ V.faults vault.old)
        ((K.faults sink.new ≡ K.faults sink.old) × (K.stalls sink.new ≡ K.stalls sink.old)) }
    ensures unwritten { (result ≡ Status.Done → ⊥) → (result ≡ Status.SinkFault → ⊥) → sink.new ≡ sink.old }
{
    let input = match read_input(alloc, source) {
        Ok(input) => input,
        Err(ReadErr::Memory) => return Status::Memory,
        Err(ReadErr::TooMuch) => return Status::Limit,
        Err(ReadErr::Failed) => return Status::SourceFault,
    };
    run_and_save(alloc, h, save, settings, &input, sink, vault, clock)
}
