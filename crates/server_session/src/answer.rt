//! What a statement is answered, while it is to be written down.

ghost use Rattle.std.specs.Prelude.{◌≡◌, ◌∷◌, [], MatchOption, None};
ghost use Rattle.spec_history.specs.EndSeen.{line_seen};
ghost use Rattle.spec_history.specs.Transcripts.{statement};
ghost use Rattle.server_session.specs.LastAnswers.{entries_kept, entries_said, last_entry, last_said as said_in, IsSameButScript};

use crate::running::Running;
use crate::seat::Seat;
use base_merkle::Hash32;
use base_types::Text;
use sql_types::{EndLine, Reply};

/// What a statement is answered.
pub struct Answer<'a> {
    pub text: &'a Text,
    pub reply: &'a Reply,
    /// The line of the transaction that ends with it.
    pub end: Option<EndLine>,
}

/// What a statement was answered, by itself.
#[derive(Drop)]
pub struct Answered {
    pub text: Text,
    pub reply: Reply,
    /// The line of the transaction that ended with it.
    pub end: Option<EndLine>,
}

/// Where the answer of a session's last statement lies, until it is written down.
#[derive(Drop)]
pub enum LastAnswer {
    /// By itself.
    Own(Answered),
    /// In the script of the session's transaction, of which it is the last line.
    InScript,
}

impl<H: Hash32> Seat<H> {
    /// The answer of its last statement, for whoever writes it down.
    pub fn last_answer<'a>(&'a self, last: &'a LastAnswer) -> Option<Answer<'a>>
        ensures { MatchOption result (entries_kept last.now self.now.running ≡ [])
            (λ a. entries_kept last.now self.now.running
            ≡ statement a.text.now a.reply.now (line_seen a.end) ∷ []) }
    {
        match last {
            LastAnswer::Own(answered) => Some(Answer {
                text: &answered.text,
                reply: &answered.reply,
                end: answered.end,
            }),
            LastAnswer::InScript => last_said(&self.running),
        }
    }
}

// The last statement in the script of an open transaction.
fn last_said<H: Hash32>(running: &Option<Running<H>>) -> Option<Answer<'_>>
    ensures { MatchOption result (said_in running.now ≡ [])
        (λ a. said_in running.now ≡ statement a.text.now a.reply.now (line_seen a.end) ∷ []) }
{
    match running {
        Some(running) => last_of(&running.script),
        None => None,
    }
}

fn last_of(script: &[(Text, Reply)]) -> Option<Answer<'_>>
    ensures { MatchOption result (last_entry script.now ≡ [])
        (λ a. last_entry script.now ≡ statement a.text.now a.reply.now (line_seen a.end) ∷ []) }
{
    match script {
        [] => None,
        [.., last] => Some(Answer {
            text: &last.0,
            reply: &last.1,
            end: None,
        }),
    }
}

/// Takes the last statement off the script of an open transaction.
pub(crate) fn take_said<H: Hash32>(running: &mut Option<Running<H>>) -> Option<(Text, Reply)>
    ensures same { IsSameButScript running.old running.new }
    ensures said { entries_said result ≡ said_in running.old }
{
    match running {
        Some(running) => take_last(&mut running.script),
        None => None,
    }
}

#[tactic(auto, using(crate::proofs::LastAnswers::last_taken, crate::proofs::LastAnswers::none_taken))]
fn take_last(script: &mut Vec<(Text, Reply)>) -> Option<(Text, Reply)>
    ensures { entries_said result ≡ last_entry script.old.items }
{
    script.pop()
}
