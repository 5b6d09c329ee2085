//! A session with what it is to run, as its thread has it.

ghost use Rattle.std.specs.Prelude.{◌≡◌, ◌+◌, ◌<◌, true, length, IfOk, None, OnErr, OnOk};
ghost use Rattle.base_types.specs.SessionName.{is_session_name};
ghost use Rattle.spec_syntax.specs.Text.{statement_of};
ghost use Rattle.server_session.specs.Needs.{need_of};
ghost use Rattle.server_session.specs.ControlPoints.{IsAnswering, IsBetween, IsUnderWay};
ghost use Rattle.server_session.specs.Rest.{IsFinishing, MayEndSession};
ghost use Rattle.server_session.specs.declared.need.NextVisit.TheVariants.{Done};
ghost use Rattle.spec_protocol.specs.Serves.{Serves};
ghost use Rattle.spec_protocol.specs.Seats.{SeatState};
ghost use Rattle.spec_protocol.specs.Server.{Server};
ghost use Rattle.server_engine.specs.Written.{IsApart};
ghost use Rattle.server_thread.specs.Seated.{IsAhead, IsIdle};
ghost use Rattle.server_thread.specs.Wrote.{HasLeft};

use base_io::Clock;
use base_merkle::Hash32;
use base_types::{Memory, Name, Text};
use server_engine::{Session, new_session};
use server_result::moment;
use std::alloc::Global;

/// What a session is to run, and how.
#[derive(Drop)]
pub struct Job<'a, H: Hash32, C: Clock> {
    pub hasher: H,
    /// The name of the session.
    pub name: &'a str,
    pub statements: &'a [&'a str],
    /// The moment that each statement has, in ticks; where there is none, the clock says it.
    pub moment: Option<u64>,
    pub clock: &'a C,
}

/// A session, and how far it is.
#[derive(Drop)]
pub(crate) struct Worker<'a, H: Hash32, C: Clock> {
    pub job: Job<'a, H, C>,
    pub session: Session<H>,
    /// So many of its statements were taken up.
    pub taken: usize,
}

/// A session begins. It takes memory for its name alone.
pub(crate) fn begin<'a, H: Hash32, C: Clock>(
    alloc: Global,
    job: Job<'a, H, C>,
) -> Result<Worker<'a, H, C>, Memory>
    requires { is_session_name job.name.now ≡ true }
    ensures ahead { IfOk result
        (λ z. (v : Server) (s : SeatState) → IsIdle s → IsAhead H.digest C.says v z s) }
    ensures between { IfOk result (λ z. IsBetween z.session.seat) }
    ensures new { IfOk result (λ z. (z.job ≡ job.entry) × (z.taken ≡ 0)) }
{
    let name = Name::of_str(alloc, job.name)?;
    let session = new_session(alloc, job.hasher, name);
    Ok(Worker {
        job,
        session,
        taken: 0,
    })
}

impl<'a, H: Hash32, C: Clock> Worker<'a, H, C> {
    /// Writes the session's last answer down, takes up the next statement, and goes on as far as it needs no cell.
    /// For want of memory the statement isn't taken up, and the session stands where it did.
    pub(crate) fn start(&mut self, alloc: Global) -> Result<(), Memory>
        requires between { IsBetween self.old.session.seat }
        requires more { self.old.taken < length self.old.job.statements.now }
        ensures ahead { (v : Server) (s : SeatState)
            → Serves (H.digest self.old.job.hasher) statement_of v
            → IsAhead H.digest C.says v self.old s → IsAhead H.digest C.says v self.new s }
        ensures under_way { OnOk result (IsUnderWay self.new.session.seat) }
        ensures taken { OnOk result (self.new.taken ≡ self.old.taken + 1) }
        ensures between { OnErr result (IsBetween self.new.session.seat) }
        ensures untaken { OnErr result (self.new.taken ≡ self.old.taken) }
        ensures job { self.new.job ≡ self.old.job }
    {
        self.session.write_answer(alloc)?;
        let text = Text::of_str(alloc, self.job.statements[self.taken])?;
        let now = moment(self.job.moment, self.job.clock);
        self.session.seat.start(alloc, text, now);
        self.taken += 1;
        Ok(())
    }

    /// The statement is answered. Takes no memory.
    pub(crate) fn answer(&mut self, alloc: Global)
        requires answers { IsAnswering self.old.session.seat }
        requires done { need_of self.old.session.seat ≡ Done }
        requires written { self.old.session.answer ≡ None }
        ensures ahead { (v : Server) (s : SeatState)
            → Serves (H.digest self.old.job.hasher) statement_of v
            → IsAhead H.digest C.says v self.old s → IsAhead H.digest C.says v self.new s }
        ensures between { IsBetween self.new.session.seat }
        ensures taken { self.new.taken ≡ self.old.taken }
        ensures job { self.new.job ≡ self.old.job }
    {
        self.session.answer(alloc);
    }

    /// The session comes to its end, behind its last statement.
    pub(crate) fn finish(&mut self)
        requires { IsBetween self.old.session.seat }
        ensures ahead { (v : Server) (s : SeatState)
            → Serves (H.digest self.old.job.hasher) statement_of v
            → IsAhead H.digest C.says v self.old s → IsAhead H.digest C.says v self.new s }
        ensures finishing { IsFinishing self.old.session.seat self.new.session.seat }
        ensures taken { self.new.taken ≡ self.old.taken }
        ensures job { self.new.job ≡ self.old.job }
    {
        self.session.finish();
    }

    /// The session is over. Takes no memory.
    pub(crate) fn leave(&mut self)
        requires ends { MayEndSession self.old.session.seat }
        requires apart { IsApart self.old.session.answer }
        ensures left { (v : Server) (s : SeatState)
            → Serves (H.digest self.old.job.hasher) statement_of v
            → IsAhead H.digest C.says v self.old s → HasLeft C.says v self.new s }
        ensures taken { self.new.taken ≡ self.old.taken }
        ensures job { self.new.job ≡ self.old.job }
    {
        self.session.leave();
    }
}
