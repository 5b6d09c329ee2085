//! The plain machine.

ghost use Rattle.std.specs.Prelude.{ℕ, ◌≡◌, ◌≢◌, IfOk, OnOk, Some, None, if◌then◌else◌};
ghost use Rattle.spec_model.specs.Events.{all_events as events_left};
ghost use Rattle.spec_model.specs.Replies.{reply_text as text_of};
ghost use Rattle.spec_model.specs.SystemTables as system;
ghost use Rattle.sql_parse.specs.Text.{reading_of};
ghost use Rattle.sql_reference.specs.Machine.{Running, at_rest, begun, step_of, moved};
ghost use Rattle.sql_reference.specs.Order.{IsNew, InOrder};

use crate::begun::RunningScript;
use base_types::{Items, Memory, Text, TxId};
use format_reply::reply_text;
use sql_apply::all_events;
use sql_parse::{ParseErr, parse_in};
use sql_system::first_tables;
use sql_types::{Event, Reply, Stmt, Table};
use sql_value::Refusal;
use std::alloc::Global;
use std::marker::Model;

/// How a journal's item ends that is run again.
#[derive(Clone, Copy, Debug, PartialEq, Eq)]
pub enum ReplayAgreement {
    /// Each reply is the one that the journal keeps, and the script left an event.
    Agrees,
    /// This statement's reply, counted from 0, is the first that isn't the kept one; or the number of
    /// statements, where all replies agree and no event is left.
    Differs { statement: u64 },
}

/// The machine that runs scripts one after another. It keeps whole lists of versions: a statement looks at
/// each version of its table. After want of memory it isn't to be used again.
#[derive(Drop)]
pub struct SerialMachine {
    tables: Vec<Table>,
    begun: Option<RunningScript>,
}

impl Model for SerialMachine {
    ghost use Rattle.sql_reference.specs.Machine.{Machine};

    ghost Value = { Machine };

    ghost use Rattle.sql_reference.specs.Seen.{machine_of};

    ghost view = { λ p. machine_of p.tables.items p.begun };

    ghost use Rattle.sql_reference.specs.Seen.{HavePlaces};

    ghost invariant = { λ p. HavePlaces p.tables.items p.begun };
}

impl SerialMachine {
    /// The tables of the system, without rows, and no script.
    #[tactic(auto, using(crate::proofs::Ready::first_in_order))]
    pub fn new(alloc: Global) -> Result<SerialMachine, Memory>
        ensures tables { IfOk result (λ serial_machine. serial_machine ≡ at_rest system.first_tables) }
        ensures order { IfOk result InOrder }
    {
        Ok(SerialMachine {
            tables: first_tables(alloc)?,
            begun: None,
        })
    }

    /// The tables between two scripts.
    pub fn tables(&self) -> &[Table]
        requires rests { self.now.script ≡ None }
        ensures { result.now ≡ self.now.tables }
    {
        &self.tables
    }

    /// The tables behind the last script.
    pub fn into_tables(self) -> Vec<Table>
        requires rests { self.script ≡ None }
        ensures { result.items ≡ self.tables }
    {
        let SerialMachine { tables, .. } = self;
        tables
    }

    /// Begins the script of a transaction, which BEGIN opened or not, over the tables so far. Takes no
    /// memory.
    #[tactic(auto, using(crate::proofs::Running::begins, crate::proofs::Ready::rest_steady))]
    pub fn begin(&mut self, alloc: Global, explicit: bool, tx: TxId)
        requires rests { self.old.script ≡ None }
        requires order { InOrder self.old }
        requires new { IsNew tx self.old.tables }
        ensures script { self.new ≡ begun tx explicit self.old.tables }
        ensures order { InOrder self.new }
    {
        self.begun = Some(RunningScript::new(alloc, explicit, tx));
    }

    /// Takes the script's next statement and answers it. Costs a look at each version of the table that it
    /// names, and for SELECT, UPDATE and DELETE a sort of those that stand.
    pub fn answer(&mut self, alloc: Global, stmt: &Stmt) -> Result<Reply, Memory>
        requires begun { self.old.script ≢ None }
        requires order { InOrder self.old }
        ensures reply { (x : Running) → self.old.script ≡ Some x
            → IfOk result (λ reply. reply ≡ (step_of x (Some stmt.now)).1) }
        ensures script { (x : Running) → self.old.script ≡ Some x
            → OnOk result (self.new ≡ moved self.old x (step_of x (Some stmt.now)).0) }
        ensures order { OnOk result (InOrder self.new) }
    {
        let Some(mut begun) = self.begun.take() else {
            unreachable!()
        };
        let reply = begun.answer(alloc, &mut self.tables, stmt)?;
        self.begun = Some(begun);
        Ok(reply)
    }

    /// Takes the script's next text; SyntaxError where it is no statement in journals of the version.
    #[tactic(auto, using(crate::proofs::Moves::stays))]
    fn reply_to(&mut self, alloc: Global, version: u8, text: &str) -> Result<Reply, Memory>
        requires begun { self.old.script ≢ None }
        requires order { InOrder self.old }
        ensures reply { (x : Running) → self.old.script ≡ Some x
            → IfOk result (λ reply. reply ≡ (step_of x (reading_of version text.now)).1) }
        ensures script { (x : Running) → self.old.script ≡ Some x
            → OnOk result (self.new ≡ moved self.old x (step_of x (reading_of version text.now)).0) }
        ensures order { OnOk result (InOrder self.new) }
    {
        match parse_in(alloc, text, version) {
            Ok(stmt) => {
                let reply = self.answer(alloc, &stmt);
                // that each part is let go is then proved once for the type
                drop(stmt);
                reply
            }
            Err(ParseErr::Syntax) => Ok(Reply::Refused(Refusal::SyntaxError)),
            Err(ParseErr::Memory) => Err(Memory),
        }
    }

    /// Takes the script's next text and answers the text of its reply; SyntaxError where it is no statement in
    /// journals of the version.
    pub fn execute(&mut self, alloc: Global, version: u8, text: &str) -> Result<Text, Memory>
        requires begun { self.old.script ≢ None }
        requires order { InOrder self.old }
        ensures reply { (x : Running) → self.old.script ≡ Some x
            → IfOk result (λ reply. reply ≡ text_of (step_of x (reading_of version text.now)).1) }
        ensures script { (x : Running) → self.old.script ≡ Some x
            → OnOk result (self.new ≡ moved self.old x (step_of x (reading_of version text.now)).0) }
        ensures order { OnOk result (InOrder self.new) }
    {
        let reply = self.reply_to(alloc, version, text)?;
        reply_text(alloc, &reply)
    }

    /// Ends the script and answers the starts and ends that it left, by table and number. The tables are then
    /// those after the script where it is to be kept, and else those before it. Looks at each version once or
    /// twice.
    #[tactic(auto, unfolding(crate::specs::Seen::state_of), using(crate::proofs::Ended::short))]
    pub fn end(&mut self, alloc: Global, keep: bool) -> Result<Items<Event>, Memory>
        requires begun { self.old.script ≢ None }
        requires order { InOrder self.old }
        ensures events { (x : Running) → self.old.script ≡ Some x
            → IfOk result (λ events. events ≡ events_left x.tx x.state.tables) }
        ensures tables { (x : Running) → self.old.script ≡ Some x
            → OnOk result (self.new ≡ at_rest (if keep then x.state.tables else self.old.tables)) }
        ensures order { OnOk result (InOrder self.new) }
    {
        let Some(begun) = self.begun.take() else {
            unreachable!()
        };
        let events = all_events(alloc, begun.tx, &self.tables)?;
        if !keep {
            begun.take_back(alloc, &mut self.tables);
        }
        Ok(events)
    }
}
