//! What the calls of a fake have answered.

ghost use Rattle.std.specs.Prelude.{◌≡◌};
ghost use Rattle.base_io.specs.Answered.{no_answers, with_answer};

/// How many answers there were, at how many of them whoever calls in a loop has to stop, and the last one.
/// Both numbers stay at the top of their type.
#[derive(Drop)]
pub struct AnswerLog<A: Copy> {
    answers: u64,
    stops: u64,
    last: Option<A>,
}

impl<A: Copy> AnswerLog<A> {
    /// No answer so far.
    pub fn new() -> AnswerLog<A>
        ensures { result ≡ no_answers }
    {
        AnswerLog {
            answers: 0,
            stops: 0,
            last: None,
        }
    }

    /// Notes an answer, and whether it is a stop.
    pub fn note(&mut self, answer: A, stop: bool)
        ensures { self.new ≡ with_answer answer stop self.old }
    {
        self.answers = self.answers.saturating_add(1);
        if stop {
            self.stops = self.stops.saturating_add(1);
        }
        self.last = Some(answer);
    }
}
