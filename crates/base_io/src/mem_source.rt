//! A source in memory.

ghost use Rattle.std.specs.Prelude.{◌≡◌, ◌<◌, ◌≤◌, length, Some};
ghost use Rattle.base_io.specs.Answered.{no_answers};
ghost use Rattle.base_io.specs.FaultSchedule.{no_calls_yet};

use crate::answer_log::AnswerLog;
use crate::fault_schedule::FaultInjector;
use crate::{Failed, Source};

/// Gives the bytes that it was made of, in pieces, and fails at the calls that it was told to.
#[derive(Drop)]
pub struct MemSource {
    bytes: Vec<u8>,
    at: usize,
    piece: usize,
    fault_schedule: FaultInjector,
    answered: AnswerLog<Result<usize, Failed>>,
    ghost within: { at ≤ length bytes.items },
    ghost gives_some: { 0 < piece },
}

impl MemSource {
    ghost use Rattle.base_io.specs.Fakes.{left_of, source_answers, source_fault_schedule};

    /// A source of these bytes. Each read gives at most `piece` of them. `fails` has the numbers of the reads
    /// that are to fail, counted from 1.
    pub fn new(bytes: Vec<u8>, piece: usize, fails: Vec<u64>) -> MemSource
        requires { 0 < piece }
        ensures left { left_of result ≡ Some bytes.items }
        ensures fault_schedule { source_fault_schedule result ≡ no_calls_yet fails.items }
        ensures answers { source_answers result ≡ no_answers }
    {
        MemSource {
            bytes,
            at: 0,
            piece,
            fault_schedule: FaultInjector::new(fails),
            answered: AnswerLog::new(),
        }
    }
}

impl Source for MemSource {
    ghost use Rattle.base_io.specs.Fakes.{left_of, source_answers, source_faults};
    ghost use Rattle.base_io.specs.Answered.{HasAnswered, is_move_stop};

    ghost left = { left_of };

    ghost history = { λ s answers. HasAnswered is_move_stop (source_answers s) answers };

    ghost faults = { source_faults };

    #[tactic(auto, using(crate::proofs::Answering::adds))]
    fn read(&mut self, buf: &mut [u8]) -> Result<usize, Failed> {
        if self.fault_schedule.is_next_failing() {
            self.fault_schedule.note_failure();
            self.answered.note(Err(Failed), true);
            return Err(Failed);
        }
        let n = self.give(buf);
        self.answered.note(Ok(n), n == 0);
        Ok(n)
    }
}

impl MemSource {
    ghost use Rattle.base_io.specs.Fakes.{left_of, source_answers, source_fault_schedule, piece_of};
    ghost use Rattle.base_io.specs.Outside.{TellsRead};

    // Moves a piece into the buffer.
    fn give(&mut self, buf: &mut [u8]) -> usize
        requires { 0 < length buf.old }
        ensures piece { result ≡ piece_of self.old (length buf.old) }
        ensures bytes { TellsRead (left_of self.old) (left_of self.new) buf.new result }
        ensures room { length buf.new ≡ length buf.old }
        ensures fault_schedule { source_fault_schedule self.new ≡ source_fault_schedule self.old }
        ensures answers { source_answers self.new ≡ source_answers self.old }
    {
        let left = self.bytes.len() - self.at;
        let n = left.min(self.piece).min(buf.len());
        let end = self.at + n;
        buf[..n].copy_from_slice(&self.bytes[self.at..end]);
        self.at = end;
        n
    }
}
