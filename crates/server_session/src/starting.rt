//! The start of a statement.

ghost use Rattle.std.specs.Prelude.{◌≡◌, [], true, OnOk, Some, None};
ghost use Rattle.base_types.specs.Moment.{is_moment};
ghost use Rattle.server_session.specs.Course as course;
ghost use Rattle.server_session.specs.Course.{IsReady};
ghost use Rattle.std.specs.Option.{is_some};
ghost use Rattle.server_session.specs.ControlPoints.{IsBegun, IsBetween, IsUnderWay};
ghost use Rattle.server_session.specs.Steps.{Starts, StepsAlone};

use crate::going_on::{make_room, refusal_of, statement_in, take_course};
use crate::outcome::stopped;
use crate::placing::{put_point, put_statement};
use crate::seat::Seat;
use crate::stage::{Answering, ControlPoint, Stage};
use base_merkle::Hash32;
use base_types::{Memory, Text};
use sql_types::Reply;
use sql_value::Refusal;
use std::alloc::Global;

impl<H: Hash32> Seat<H> {
    /// Takes up a statement at this moment, and goes on alone as far as it needs no cell: it is refused, sets
    /// a savepoint, begins the way back to one, or is to visit a cell. For want of memory it is refused with
    /// NoMemory, and nothing else is done.
    pub fn start(&mut self, alloc: Global, text: Text, now: u64)
        requires between { IsBetween self.old }
        requires moment { is_moment now ≡ true }
        ensures starts { Starts H.digest self.old text self.new }
        ensures inside { IsUnderWay self.new }
        ensures started { self.new.started ≡ now }
        ensures name { self.new.name ≡ self.old.name }
        ensures text { self.new.text ≡ text }
    {
        self.take_up(text, now);
        self.set_out(alloc);
    }

    fn take_up(&mut self, text: Text, now: u64)
        requires between { IsBetween self.old }
        requires moment { is_moment now ≡ true }
        ensures starts { Starts H.digest self.old text self.new }
        ensures begun { IsBegun self.new }
        ensures started { self.new.started ≡ now }
        ensures name { self.new.name ≡ self.old.name }
        ensures text { self.new.text ≡ text }
    {
        self.started = now;
        self.text = text;
        put_statement(&mut self.stmt, None);
        put_point(&mut self.point, ControlPoint::Inside(Stage::Begun));
    }

    fn set_out(&mut self, alloc: Global)
        requires { IsBegun self.old }
        ensures steps { StepsAlone H.digest self.old [] self.new }
        ensures inside { IsUnderWay self.new }
        ensures started { self.new.started ≡ self.old.started }
        ensures name { self.new.name ≡ self.old.name }
        ensures text { self.new.text ≡ self.old.text }
    {
        match self.make_ready(alloc) {
            Ok(()) => self.go_on(),
            Err(Memory) => self.lack_memory(),
        }
    }

    // Reads the statement, and makes room for it in the script of an open transaction.
    fn make_ready(&mut self, alloc: Global) -> Result<(), Memory>
        requires { IsBegun self.old }
        ensures steps { StepsAlone H.digest self.old [] self.new }
        ensures begun { IsBegun self.new }
        ensures ready { OnOk result (IsReady self.new) }
        ensures started { self.new.started ≡ self.old.started }
        ensures name { self.new.name ≡ self.old.name }
        ensures text { self.new.text ≡ self.old.text }
    {
        make_room(&mut self.running)?;
        let stmt = statement_in(alloc, self.text.as_str())?;
        put_statement(&mut self.stmt, stmt);
        Ok(())
    }

    // Does what needs no cell.
    fn go_on(&mut self)
        requires { IsReady self.old }
        ensures steps { StepsAlone H.digest self.old [] self.new }
        ensures inside { IsUnderWay self.new }
        ensures started { self.new.started ≡ self.old.started }
        ensures name { self.new.name ≡ self.old.name }
        ensures text { self.new.text ≡ self.old.text }
    {
        match refusal_of(&self.stmt, self.running.is_some(), self.images) {
            Some(refusal) => self.refuse(refusal),
            None => self.run(),
        }
    }

    // Refuses a statement before it visits a cell.
    fn refuse(&mut self, refusal: Refusal)
        requires ready { IsReady self.old }
        requires refused { course.refusal_of (is_some self.old.running) self.old.images self.old.stmt
            ≡ Some refusal }
        ensures steps { StepsAlone H.digest self.old [] self.new }
        ensures inside { IsUnderWay self.new }
        ensures started { self.new.started ≡ self.old.started }
        ensures name { self.new.name ≡ self.old.name }
        ensures text { self.new.text ≡ self.old.text }
    {
        put_point(
            &mut self.point,
            ControlPoint::Inside(Stage::Answering(Answering {
                reply: Reply::Refused(refusal),
                said: self.running.is_some(),
                def: None,
            })),
        );
    }

    // Runs a statement that isn't refused so.
    fn run(&mut self)
        requires ready { IsReady self.old }
        requires free { course.refusal_of (is_some self.old.running) self.old.images self.old.stmt ≡ None }
        ensures steps { StepsAlone H.digest self.old [] self.new }
        ensures inside { IsUnderWay self.new }
        ensures started { self.new.started ≡ self.old.started }
        ensures name { self.new.name ≡ self.old.name }
        ensures text { self.new.text ≡ self.old.text }
    {
        let Some(stmt) = &self.stmt else {
            unreachable!()
        };
        put_point(
            &mut self.point,
            ControlPoint::Inside(take_course(stmt, &mut self.running)),
        );
    }

    // Refuses a statement with NoMemory of which nothing is done.
    pub(crate) fn lack_memory(&mut self)
        requires { IsBegun self.old }
        ensures steps { StepsAlone H.digest self.old [] self.new }
        ensures inside { IsUnderWay self.new }
        ensures started { self.new.started ≡ self.old.started }
        ensures name { self.new.name ≡ self.old.name }
        ensures text { self.new.text ≡ self.old.text }
    {
        put_point(
            &mut self.point,
            ControlPoint::Inside(stopped(Refusal::NoMemory)),
        );
    }
}
