//! A session of a core.

ghost use Rattle.std.specs.Prelude.{◌≡◌, ◌<◌, ◌++◌, IfOk, OnErr, OnOk, true, [], None};
ghost use Rattle.base_types.specs.SessionName.{is_session_name};
ghost use Rattle.spec_history.specs.EndSeen.{line_seen};
ghost use Rattle.spec_history.specs.Transcripts.{statement};
ghost use Rattle.spec_protocol.specs.Seats.{idle, SeatState};
ghost use Rattle.spec_protocol.specs.Server.{Server};
ghost use Rattle.format_transcript.specs.TranscriptText.{entry_text};
ghost use Rattle.server_session.specs.Needs.{need_of, visits_left};
ghost use Rattle.server_session.specs.ControlPoints.{IsAnswering, IsBetween};
ghost use Rattle.server_session.specs.Rest.{IsFinishing, MayEndSession};
ghost use Rattle.server_session.specs.Steps.{AmongAll, Begins, StepsAlone, items_in};
ghost use Rattle.server_session.specs.declared.need.NextVisit.TheVariants.{Done};
ghost use Rattle.server_engine.specs.Standing.{IsSameSession};
ghost use Rattle.server_engine.specs.Written as spec;
ghost use Rattle.server_engine.specs.Written.{AnswersStatement, IsApart, KeepsBehind, KeepsSessionImage, LeavesSession, answer_texts, end_with, last_texts, texts_shown};

use base_merkle::Hash32;
use base_types::{Blob, Items, Memory, Name, Text};
use format_transcript::{push_end, push_statement};
use server_session::{Answer, Answered, EndLine, LastAnswer, Seat};
use server_visits::{Cell, visit_all};
use sql_types::Reply;
use std::alloc::Global;
use std::mem;

// So many bytes the lines behind a statement mostly take, of a count of rows and of a commit.
const LINES_ROOM: usize = 48;

/// A session with what it has shown.
#[derive(Drop)]
pub struct Session<H: Hash32> {
    pub seat: Seat<H>,
    /// The texts of the entries of its transcript that are written down.
    pub entries: Items<Text>,
    /// The answer of its last statement, until it is one of the entries.
    pub answer: Option<LastAnswer>,
    /// The line of the transaction that the session's end ended, until it is one of the entries.
    pub last: Option<EndLine>,
    /// The images that it kept, in this order: the number of the journal's items, and the bytes.
    pub images: Items<(u64, Blob)>,
}

/// What is left of a session that is over.
#[derive(Drop)]
pub struct SessionEnd {
    /// The texts of the entries of its transcript.
    pub entries: Items<Text>,
    /// The images that it kept, in this order: the number of the journal's items, and the bytes.
    pub images: Items<(u64, Blob)>,
}

/// A session of this name that nothing was asked of. Takes no memory.
pub fn new_session<H: Hash32>(alloc: Global, hasher: H, name: Name) -> Session<H>
    requires { is_session_name name ≡ true }
    ensures begins { (v : Server) (s : SeatState) → s.present ≡ true → s.role ≡ idle
        → Begins H.digest hasher v name s result.seat }
    ensures between { IsBetween result.seat }
    ensures name { result.seat.name ≡ name }
    ensures entries { result.entries ≡ [] }
    ensures answer { result.answer ≡ None }
    ensures last { result.last ≡ None }
    ensures images { result.images ≡ [] }
{
    Session {
        seat: Seat::new(alloc, hasher, name),
        entries: Items::new(alloc),
        answer: None,
        last: None,
        images: Items::new(alloc),
    }
}

impl<H: Hash32> Session<H> {
    /// The statement is answered; its answer is no entry yet. Takes no memory.
    pub fn answer(&mut self, alloc: Global)
        requires answers { IsAnswering self.old.seat }
        requires done { need_of self.old.seat ≡ Done }
        requires written { self.old.answer ≡ None }
        ensures { AnswersStatement H.digest self.old self.new }
    {
        self.answer = Some(self.seat.end_statement(alloc));
    }

    /// The session comes to its end: where a transaction is open, cells are still to be visited. Takes no memory:
    /// the answer of its last statement is kept by itself.
    pub fn finish(&mut self)
        requires { IsBetween self.old.seat }
        ensures steps { StepsAlone H.digest self.old.seat [] self.new.seat }
        ensures end { IsFinishing self.old.seat self.new.seat }
        ensures started { self.new.seat.started ≡ self.old.seat.started }
        ensures name { self.new.seat.name ≡ self.old.seat.name }
        ensures shown { texts_shown self.new ≡ texts_shown self.old }
        ensures apart { IsApart self.new.answer }
        ensures last { self.new.last ≡ self.old.last }
        ensures images { self.new.images ≡ self.old.images }
    {
        let said = self.seat.finish();
        self.answer = apart_from(self.answer.take(), said);
    }

    /// The session is over. Takes no memory: its last line is kept, and no entry yet.
    pub fn leave(&mut self)
        requires ends { MayEndSession self.old.seat }
        requires apart { IsApart self.old.answer }
        ensures { LeavesSession H.digest self.old self.new }
    {
        self.last = self.seat.last_line();
        self.seat.end_session();
    }

    /// The answer of its last statement, where that is no entry yet, becomes one. For want of memory nothing
    /// changes.
    #[tactic(auto, using(crate::proofs::LastAnswers::written_one, crate::proofs::LastAnswers::written_none, crate::proofs::LastAnswers::none_waits, crate::proofs::LastAnswers::same_written))]
    pub fn write_answer(&mut self, alloc: Global) -> Result<(), Memory>
        ensures same { IsSameSession self.old self.new }
        ensures entries { OnOk result (self.new.entries ≡ self.old.entries ++ answer_texts self.old) }
        ensures answer { OnOk result (self.new.answer ≡ None) }
        ensures err { OnErr result (self.new ≡ self.old) }
    {
        if let Some(last) = &self.answer {
            if let Some(answer) = self.seat.last_answer(last) {
                let text = statement_text(alloc, self.seat.name().as_str(), answer)?;
                self.entries.push(text)?;
            }
            self.answer = None;
        }
        Ok(())
    }

    // Its last line, where it has one that is no entry yet, becomes one. For want of memory nothing changes.
    fn write_end(&mut self, alloc: Global) -> Result<(), Memory>
        ensures entries { OnOk result (self.new.entries ≡ self.old.entries ++ last_texts self.old) }
        ensures images { self.new.images ≡ self.old.images }
        ensures err { OnErr result (self.new ≡ self.old) }
    {
        if let Some(end) = self.last {
            let name = self.seat.name().as_str();
            let mut entry = String::new(alloc);
            push_end(name, end, &mut entry)?;
            self.entries.push(Text::from_string(entry))?;
            self.last = None;
        }
        Ok(())
    }

    /// What it has shown that is no entry yet becomes entries: the answer of its last statement, and its last line.
    /// For want of memory the first may be one.
    pub fn write_last(&mut self, alloc: Global) -> Result<(), Memory>
        ensures entries { OnOk result (self.new.entries ≡ texts_shown self.old) }
        ensures images { self.new.images ≡ self.old.images }
        ensures err { OnErr result (IsSameSession self.old self.new) }
    {
        self.write_answer(alloc)?;
        self.write_end(alloc)
    }

    /// What is left of it once all that it has shown is among its entries. Takes no memory.
    pub fn into_end(self) -> SessionEnd
        ensures { result ≡ end_with self }
    {
        let Session {
            seat,
            entries,
            answer: _,
            last: _,
            images,
        } = self;
        seat.let_go();
        SessionEnd { entries, images }
    }

    /// Keeps an image of all cells, if there is memory for one and for its place among the images, with the number
    /// of the journal's items.
    pub fn keep_image(&mut self, alloc: Global, items: u64, cells: &[Cell])
        requires among { AmongAll H.digest self.old.seat cells.now }
        requires items { items ≡ items_in cells.now }
        ensures kept { KeepsSessionImage H.digest cells.now self.old self.new }
        ensures comes_on { visits_left self.new.seat < visits_left self.old.seat }
    {
        let mut images = mem::replace(&mut self.images, Items::new(alloc)).into_vec();
        keep_behind(&mut images, &mut self.seat, alloc, items, cells);
        self.images = Items::from_vec(images);
    }
}

// An answer by itself, where it lay in a script whose last line is this.
fn apart_from(answer: Option<LastAnswer>, said: Option<(Text, Reply)>) -> Option<LastAnswer>
    ensures { result ≡ spec.apart_from answer said }
{
    match answer {
        Some(LastAnswer::InScript) => by_itself(said),
        Some(LastAnswer::Own(answered)) => Some(LastAnswer::Own(answered)),
        None => None,
    }
}

fn by_itself(said: Option<(Text, Reply)>) -> Option<LastAnswer>
    ensures { result ≡ spec.by_itself said }
{
    match said {
        Some((text, reply)) => Some(LastAnswer::Own(Answered {
            text,
            reply,
            end: None,
        })),
        None => None,
    }
}

// The text of the entry of a statement.
fn statement_text(alloc: Global, name: &str, answer: Answer<'_>) -> Result<Text, Memory>
    ensures { IfOk result (λ text. text ≡ entry_text name.now
        (statement answer.entry.text.now answer.entry.reply.now (line_seen answer.entry.end))) }
{
    let Answer { text, reply, end } = answer;
    let text = text.as_str();
    let room = name
        .len()
        .saturating_add(text.len())
        .saturating_add(LINES_ROOM);
    let mut entry = String::with_capacity(alloc, room)?;
    push_statement(alloc, name, text, reply, end, &mut entry)?;
    Ok(Text::from_string(entry))
}

// Keeps an image of all cells behind these, if there is memory for one and for its place.
fn keep_behind<H: Hash32>(
    images: &mut Vec<(u64, Blob)>,
    seat: &mut Seat<H>,
    alloc: Global,
    items: u64,
    cells: &[Cell],
)
    requires among { AmongAll H.digest seat.old cells.now }
    requires items { items ≡ items_in cells.now }
    ensures kept { KeepsBehind H.digest cells.now seat.old seat.new images.old.items images.new.items }
    ensures comes_on { visits_left seat.new < visits_left seat.old }
{
    match images.reserve(1) {
        Ok(()) => {
            if let Some(bytes) = visit_all(seat, alloc, cells) {
                images.push_reserved((items, bytes));
            }
        }
        Err(_) => seat.lack_image(),
    }
}
