//! A sink in memory.

ghost use Rattle.std.specs.Prelude.{◌≡◌, [], take, Some};
ghost use Rattle.base_io.specs.Answered.{no_answers};
ghost use Rattle.base_io.specs.FaultSchedule.{no_calls_yet};

use crate::answer_log::AnswerLog;
use crate::fault_schedule::FaultInjector;
use crate::{Failed, Sink};
use std::alloc::Global;

/// Keeps what it took, in pieces, and fails at the calls that it was told to. A growth that memory refuses
/// counts as a failure of that call.
#[derive(Drop)]
pub struct MemSink {
    bytes: Vec<u8>,
    piece: usize,
    stalls: u64,
    fault_schedule: FaultInjector,
    answered: AnswerLog<Result<usize, Failed>>,
}

impl MemSink {
    ghost use Rattle.base_io.specs.Fakes.{taken_of, sink_answers, sink_fault_schedule, sink_stalls, sink_piece};

    /// A sink that took nothing so far. Each write takes at most `piece` bytes, so none where it is 0.
    /// `fails` has the numbers of the writes that are to fail, counted from 1.
    pub fn new(alloc: Global, piece: usize, fails: Vec<u64>) -> MemSink
        ensures taken { taken_of result ≡ Some [] }
        ensures fault_schedule { sink_fault_schedule result ≡ no_calls_yet fails.items }
        ensures answers { sink_answers result ≡ no_answers }
        ensures stalls { sink_stalls result ≡ 0 }
        ensures piece { sink_piece result ≡ piece }
    {
        MemSink {
            bytes: Vec::new(alloc),
            piece,
            stalls: 0,
            fault_schedule: FaultInjector::new(fails),
            answered: AnswerLog::new(),
        }
    }

    /// What it took.
    pub fn bytes(&self) -> &[u8]
        ensures { taken_of self.now ≡ Some result.now }
    {
        &self.bytes
    }
}

impl Sink for MemSink {
    ghost use Rattle.base_io.specs.Fakes.{taken_of, sink_answers, sink_faults, sink_stalls};
    ghost use Rattle.base_io.specs.Answered.{HasAnswered, is_move_stop};

    ghost taken = { taken_of };

    ghost history = { λ s answers. HasAnswered is_move_stop (sink_answers s) answers };

    ghost faults = { sink_faults };

    ghost stalls = { sink_stalls };

    #[tactic(auto, using(crate::proofs::Answering::adds))]
    fn write(&mut self, bytes: &[u8]) -> Result<usize, Failed> {
        if self.fault_schedule.is_next_failing() {
            self.fault_schedule.note_failure();
            self.answered.note(Err(Failed), true);
            return Err(Failed);
        }
        let piece = first_bytes(bytes, self.piece);
        let grown = self.bytes.extend_from_slice(piece);
        if grown.is_err() {
            self.fault_schedule.note_failure();
            self.answered.note(Err(Failed), true);
            return Err(Failed);
        }
        if piece.is_empty() && !bytes.is_empty() {
            self.stalls = self.stalls.saturating_add(1);
        }
        let n = piece.len();
        self.answered.note(Ok(n), n == 0);
        Ok(n)
    }
}

// At most so many first bytes.
fn first_bytes(bytes: &[u8], limit: usize) -> &[u8]
    ensures { result.now ≡ take limit bytes.now }
{
    &bytes[..bytes.len().min(limit)]
}
