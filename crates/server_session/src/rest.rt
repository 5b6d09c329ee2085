//! The end of a statement.

ghost use Rattle.std.specs.Prelude.{◌≡◌, ◌∷◌, [], Some, None};
ghost use Rattle.spec_history.specs.EndSeen.{line_seen};
ghost use Rattle.spec_history.specs.Transcripts.{statement};
ghost use Rattle.server_session.specs.Needs.{need_of};
ghost use Rattle.server_session.specs.ControlPoints.{IsAnswering, IsAnsweringAt, IsBetween};
ghost use Rattle.server_session.specs.LastAnswers.{entries_kept};
ghost use Rattle.server_session.specs.Rest.{IsRest, HasScriptRoom, RestBy, RestOpen};
ghost use Rattle.server_session.specs.Steps.{IsAnsweredBy, end_of, entries_at};
ghost use Rattle.server_session.specs.declared.answer.LastAnswer.TheVariants.{Own};
ghost use Rattle.server_session.specs.declared.need.NextVisit.TheVariants.{Done};
ghost use Rattle.server_session.specs.declared.stage.ControlPoint.TheVariants.{Inside};
ghost use Rattle.server_session.specs.declared.stage.Stage.TheVariants as stage;

use crate::answer::{Answered, LastAnswer};
use crate::placing::put_statement;
use crate::running::Running;
use crate::seat::Seat;
use crate::stage::{Answering, ControlPoint, Stage};
use base_merkle::Hash32;
use base_types::Text;
use sql_types::EndLine;
use std::alloc::Global;
use std::mem;

impl<H: Hash32> Seat<H> {
    /// The statement is answered: the session is between statements again, and its answer is to be written
    /// down. Takes no memory.
    pub fn end_statement(&mut self, alloc: Global) -> LastAnswer
        requires answering { IsAnswering self.old }
        requires done { need_of self.old ≡ Done }
        ensures answered { IsAnsweredBy H.digest self.old self.new }
        ensures left { entries_kept result self.new.running ≡ entries_at self.old }
        ensures between { IsBetween self.new }
        ensures started { self.new.started ≡ self.old.started }
        ensures name { self.new.name ≡ self.old.name }
    {
        let answering = certain_reply(mem::replace(&mut self.point, ControlPoint::Between));
        let text = mem::replace(&mut self.text, Text::from_string(String::new(alloc)));
        put_statement(&mut self.stmt, None);
        rest_of(&mut self.running, text, answering)
    }
}

// The reply of a point at which it is certain.
fn certain_reply(point: ControlPoint) -> Answering
    requires { IsAnsweringAt point }
    ensures { point ≡ Inside (stage.Answering result) }
{
    match point {
        ControlPoint::Inside(Stage::Answering(answering)) => answering,
        point => {
            drop(point);
            unreachable!()
        }
    }
}

// What stays of the transaction behind an answer: one that ended is gone.
fn rest_of<H: Hash32>(
    place: &mut Option<Running<H>>,
    text: Text,
    answering: Answering,
) -> LastAnswer
    ensures rest { HasScriptRoom answering.said place.old → IsRest text answering place.old place.new }
    ensures left { entries_kept result place.new
        ≡ statement text answering.reply (end_of place.old) ∷ [] }
{
    match place.take() {
        Some(running) => rest_by(place, running, text, answering),
        None => by_itself(text, answering, None),
    }
}

#[tactic(auto, using(crate::proofs::Ending::rest_gone, crate::proofs::Ending::rest_open))]
fn rest_by<H: Hash32>(
    place: &mut Option<Running<H>>,
    running: Running<H>,
    text: Text,
    answering: Answering,
) -> LastAnswer
    requires { place.old ≡ None }
    ensures rest { HasScriptRoom answering.said (Some running)
        → RestBy running.end text answering running place.new }
    ensures left { entries_kept result place.new
        ≡ statement text answering.reply (line_seen running.end) ∷ [] }
{
    match running.end {
        Some(end) => by_itself(text, answering, Some(end)),
        None => {
            let mut running = running;
            let left = with_statement(&mut running, text, answering);
            *place = Some(running);
            left
        }
    }
}

// It goes on, and its script gains the statement where this belongs to it.
#[tactic(auto, using(crate::proofs::Ending::more_said, crate::proofs::Ending::no_more, crate::proofs::Ending::had_room))]
fn with_statement<H: Hash32>(
    running: &mut Running<H>,
    text: Text,
    answering: Answering,
) -> LastAnswer
    requires { running.old.end ≡ None }
    ensures rest { HasScriptRoom answering.said (Some running.old)
        → RestOpen text answering running.old (Some running.new) }
    ensures left { entries_kept result (Some running.new)
        ≡ statement text answering.reply None ∷ [] }
{
    if !answering.said || running.script.len() >= running.script.capacity() {
        return by_itself(text, answering, None);
    }
    running.script.push_reserved((text, answering.reply));
    LastAnswer::InScript
}

// An answer that no transaction has which goes on.
fn by_itself(text: Text, answering: Answering, end: Option<EndLine>) -> LastAnswer
    ensures { result ≡ Own (record { text = text; reply = answering.reply; end = end }) }
{
    LastAnswer::Own(Answered {
        text,
        reply: answering.reply,
        end,
    })
}
