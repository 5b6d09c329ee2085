//! Running and verifying the generator's workload.

ghost use Rattle.std.specs.Prelude.{⊤, ◌≡◌, ◌≤◌, ◌⊎◌, IfOk, string_bytes};
ghost use Rattle.base_io.specs.Count.{Rises};
ghost use Rattle.base_io.specs.History.{Since};
ghost use Rattle.cli_audit.specs.Answer.{Unfailed};
ghost use Rattle.cli_audit.specs.Calls.{AreWrites};
ghost use Rattle.cli_commands.specs.Generated.{counts_text, HasGenerated, report_text, WasRun};
ghost use Rattle.cli_audit.specs.Tell.{TellCause};
ghost use Rattle.cli_audit.specs.Verify.{SaidOrIdle};

use base_io::Sink;
use base_merkle::Hash32;
use base_types::Memory;
use cli_audit::{Status, tell_text};
use std::alloc::{AllocError, Global};
use std::sync::Wait;
use std::thread::Threads;
use workload_run::{Report, run_workload};

/// The lines of what is counted.
fn counts_of(alloc: Global, report: Report) -> Result<String, AllocError>
    ensures { IfOk result (λ text. string_bytes text ≡ counts_text report) }
{
    let transactions = report.transactions;
    let rows = report.rows;
    let history = report.history;
    Ok(format!(in alloc; "transactions {transactions}\nrows {rows}\nhistory {history}\n")?)
}

/// The lines of a report.
fn text_of(alloc: Global, report: Report) -> Result<String, AllocError>
    ensures { IfOk result (λ text. string_bytes text ≡ report_text report) }
{
    let counts = counts_of(alloc, report)?;
    let sum = report.sum;
    let verdict = report.verdict;
    Ok(format!(in alloc; "{counts}sum {sum}\nverify {verdict}\n")?)
}

/// Runs the workload on so many rows, and says what came of it.
fn generated<H: Hash32, R: Threads + Wait + Sync>(
    rt: &R,
    alloc: Global,
    h: H,
    rows: u32,
) -> Result<String, Memory>
    requires { rows ≤ 10000 }
    ensures { IfOk result (λ text. WasRun (H.digest h) rows (string_bytes text)) }
{
    let report = run_workload(rt, alloc, h, rows)?;
    Ok(text_of(alloc, report)?)
}

/// Runs the workload and writes what came of it.
pub(crate) fn generate<H: Hash32, K: Sink, R: Threads + Wait + Sync>(
    rt: &R,
    alloc: Global,
    h: H,
    count: u32,
    sink: &mut K,
) -> Status
    requires { count ≤ 10000 }
    ensures cause { TellCause result
        (Rises (K.faults sink.old) (K.faults sink.new) ⊎ Rises (K.stalls sink.old) (K.stalls sink.new)) }
    ensures generated { SaidOrIdle result
        (HasGenerated result (H.digest h) count (K.taken sink.old) (K.taken sink.new))
        (sink.new ≡ sink.old) }
    ensures writes { Since (K.history sink.old) (K.history sink.new) (AreWrites result) }
    ensures unfailed { Unfailed result ⊤ ⊤
        ((K.faults sink.new ≡ K.faults sink.old) × (K.stalls sink.new ≡ K.stalls sink.old)) }
{
    match generated(rt, alloc, h, count) {
        Ok(text) => tell_text(&text, sink),
        Err(Memory) => Status::Memory,
    }
}
