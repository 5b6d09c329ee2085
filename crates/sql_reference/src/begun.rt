//! A script that is begun.

ghost use Rattle.std.specs.Prelude.{◌≡◌, ◌≤◌, ◌<◌, true, false, List, [], ◌∷◌, drop, length, position, Some, None, IfOk, IfSome};
ghost use Rattle.std.specs.Str.{bytes_eq};
ghost use Rattle.spec_model.specs.Catalog.{Tables, defs_of};
ghost use Rattle.spec_model.specs.Effect.{effect as effect_of};
ghost use Rattle.spec_model.specs.Reach.{creates};
ghost use Rattle.spec_model.specs.Script as spec;
ghost use Rattle.spec_model.specs.Script.{saves, rolls_back_to};
ghost use Rattle.spec_model.specs.Undo.{undone};
ghost use Rattle.sql_reference.specs.Machine.{step_of};
ghost use Rattle.sql_reference.specs.Order.{InOrder};
ghost use Rattle.sql_reference.specs.Seen.{HasPlaces, before, first_defs, machine_of, running_of, state_of, with_defs};
ghost use Rattle.sql_reference.specs.StatementResult.{AnswersUnlessOom, CarriesOutUnlessOom, IsReady, StepsUnlessOom, carried};

use crate::effect::effect;
use base_types::{Items, Memory, Name, TxId};
use sql_apply::undo;
use sql_system::copy_def;
use sql_types::{Reply, Stmt, Table, TableDef};
use sql_value::Refusal;
use std::alloc::Global;
use std::mem;

/// How many savepoints a transaction may have.
const MOST_SAVEPOINTS: usize = 64;

/// A savepoint: its name, and the number that the next event had.
#[derive(Drop)]
pub(crate) struct Savepoint {
    pub name: Name,
    pub seq: u64,
}

/// A script that is begun.
#[derive(Drop)]
pub(crate) struct RunningScript {
    pub tx: TxId,
    /// Whether BEGIN opened it.
    pub explicit: bool,
    /// The number of the next event.
    pub seq: u64,
    /// The newest first.
    pub saved: Items<Savepoint>,
    /// All definitions from before the first statement that changed some, where there was one.
    pub defs: Option<Items<TableDef>>,
}

impl RunningScript {
    /// Nothing is done yet.
    pub fn new(alloc: Global, explicit: bool, tx: TxId) -> RunningScript
        ensures { result ≡ record { tx = tx; explicit = explicit; seq = 0; saved = []; defs = None } }
    {
        RunningScript {
            tx,
            explicit,
            seq: 0,
            saved: Items::new(alloc),
            defs: None,
        }
    }

    /// Answers a statement of the script. After want of memory the tables may be anything.
    #[tactic(auto, using(crate::proofs::Answered::refused))]
    pub fn answer(
        &mut self,
        alloc: Global,
        tables: &mut Vec<Table>,
        stmt: &Stmt,
    ) -> Result<Reply, Memory>
        requires order { InOrder (machine_of tables.old.items (Some self.old)) }
        requires places { HasPlaces self.old.defs tables.old.items }
        ensures { AnswersUnlessOom tables.old.items self.old tables.new.items self.new
            (step_of (running_of tables.old.items self.old) (Some stmt.now)) result }
    {
        match self.step(alloc, tables, stmt) {
            Ok(reply) => Ok(reply),
            Err(Refusal::NoMemory) => Err(Memory),
            Err(refusal) => Ok(Reply::Refused(refusal)),
        }
    }

    /// A statement's step. A refusal leaves the script and the tables; after want of memory, NoMemory, they may be
    /// anything.
    fn step(
        &mut self,
        alloc: Global,
        tables: &mut Vec<Table>,
        stmt: &Stmt,
    ) -> Result<Reply, Refusal>
        requires order { InOrder (machine_of tables.old.items (Some self.old)) }
        requires places { HasPlaces self.old.defs tables.old.items }
        ensures { StepsUnlessOom tables.old.items self.old tables.new.items self.new
            (step_of (running_of tables.old.items self.old) (Some stmt.now)) result }
    {
        if self.explicit {
            self.in_transaction(alloc, tables, stmt)
        } else {
            self.alone(alloc, tables, stmt)
        }
    }

    /// The step in a transaction that BEGIN opened.
    #[tactic(auto, using(crate::proofs::Answered::stands))]
    fn in_transaction(
        &mut self,
        alloc: Global,
        tables: &mut Vec<Table>,
        stmt: &Stmt,
    ) -> Result<Reply, Refusal>
        requires order { InOrder (machine_of tables.old.items (Some self.old)) }
        requires places { HasPlaces self.old.defs tables.old.items }
        requires explicit { self.old.explicit ≡ true }
        ensures { StepsUnlessOom tables.old.items self.old tables.new.items self.new
            (spec.in_transaction self.old.tx (state_of tables.old.items self.old) stmt.now) result }
    {
        match stmt {
            Stmt::Create(_)
            | Stmt::Index(_)
            | Stmt::Alter(_)
            | Stmt::Drop(_)
            | Stmt::Digest
            | Stmt::Image => Err(Refusal::ForbiddenInTransaction),
            Stmt::Change(_) | Stmt::Select(_) => self.change(alloc, tables, stmt),
            Stmt::Begin => Err(Refusal::AlreadyInTransaction),
            Stmt::Save(name) => self.save(name),
            Stmt::Rollback(Some(name)) => self.go_back(alloc, tables, name),
            Stmt::Commit | Stmt::Rollback(None) => Ok(Reply::NoOutput),
        }
    }

    /// The step as a transaction of its own.
    #[tactic(auto, using(crate::proofs::Answered::stands))]
    fn alone(
        &mut self,
        alloc: Global,
        tables: &mut Vec<Table>,
        stmt: &Stmt,
    ) -> Result<Reply, Refusal>
        requires order { InOrder (machine_of tables.old.items (Some self.old)) }
        requires places { HasPlaces self.old.defs tables.old.items }
        requires alone { self.old.explicit ≡ false }
        ensures { StepsUnlessOom tables.old.items self.old tables.new.items self.new
            (spec.alone self.old.tx (state_of tables.old.items self.old) stmt.now) result }
    {
        match stmt {
            Stmt::Create(_) | Stmt::Index(_) | Stmt::Alter(_) | Stmt::Drop(_) => self.define(
                alloc, tables, stmt,
            ),
            Stmt::Change(_) | Stmt::Select(_) => self.change(alloc, tables, stmt),
            Stmt::Begin | Stmt::Digest | Stmt::Image => Ok(Reply::NoOutput),
            Stmt::Commit | Stmt::Save(_) | Stmt::Rollback(_) => Err(Refusal::NoTransaction),
        }
    }

    /// INSERT, UPDATE, DELETE and SELECT.
    #[tactic(auto, using(crate::proofs::Answered::change_steps, crate::proofs::Ready::ready))]
    fn change(
        &mut self,
        alloc: Global,
        tables: &mut Vec<Table>,
        stmt: &Stmt,
    ) -> Result<Reply, Refusal>
        requires order { InOrder (machine_of tables.old.items (Some self.old)) }
        requires places { HasPlaces self.old.defs tables.old.items }
        requires keeps { creates stmt.now ≡ false }
        ensures { StepsUnlessOom tables.old.items self.old tables.new.items self.new
            (carried self.old.tx (state_of tables.old.items self.old) stmt.now) result }
    {
        self.carry_out(alloc, tables, stmt)
    }

    /// CREATE TABLE, CREATE INDEX, ALTER TABLE and DROP TABLE, which change definitions.
    #[tactic(auto, using(crate::proofs::Answered::create_steps, crate::proofs::Ready::ready))]
    fn define(
        &mut self,
        alloc: Global,
        tables: &mut Vec<Table>,
        stmt: &Stmt,
    ) -> Result<Reply, Refusal>
        requires order { InOrder (machine_of tables.old.items (Some self.old)) }
        requires places { HasPlaces self.old.defs tables.old.items }
        requires creates { creates stmt.now ≡ true }
        requires alone { self.old.explicit ≡ false }
        ensures { StepsUnlessOom tables.old.items self.old tables.new.items self.new
            (carried self.old.tx (state_of tables.old.items self.old) stmt.now) result }
    {
        self.carry_out_definition(alloc, tables, stmt)
    }

    /// The effect of a table statement.
    fn carry_out(
        &mut self,
        alloc: Global,
        tables: &mut Vec<Table>,
        stmt: &Stmt,
    ) -> Result<Reply, Refusal>
        requires { IsReady self.old.tx self.old.seq tables.old.items }
        ensures { CarriesOutUnlessOom (effect_of tables.old.items self.old.tx self.old.seq stmt.now)
            self.old.defs tables.old.items self.old tables.new.items self.new result }
    {
        let done = effect(alloc, tables, self.tx, self.seq, stmt)?;
        self.seq = done.seq;
        Ok(done.reply)
    }

    /// The effect of a statement that changes definitions. Those from before the first one are kept.
    fn carry_out_definition(
        &mut self,
        alloc: Global,
        tables: &mut Vec<Table>,
        stmt: &Stmt,
    ) -> Result<Reply, Refusal>
        requires { IsReady self.old.tx self.old.seq tables.old.items }
        ensures { CarriesOutUnlessOom (effect_of tables.old.items self.old.tx self.old.seq stmt.now)
            (first_defs self.old.defs (defs_of tables.old.items))
            tables.old.items self.old tables.new.items self.new result }
    {
        if self.defs.is_some() {
            return self.carry_out(alloc, tables, stmt);
        }
        let defs = copy_defs(alloc, tables)?;
        let reply = self.carry_out(alloc, tables, stmt)?;
        self.defs = Some(defs);
        Ok(reply)
    }

    /// SAVE TRANSACTION: LimitExceeded where there are as many savepoints as there may be.
    fn save(&mut self, name: &Name) -> Result<Reply, Refusal>
        requires explicit { self.old.explicit ≡ true }
        ensures { (T : Tables) → InOrder (machine_of T (Some self.old)) → HasPlaces self.old.defs T
            → StepsUnlessOom T self.old T self.new (saves (state_of T self.old) name.now) result }
    {
        if self.saved.len() >= MOST_SAVEPOINTS {
            return Err(Refusal::LimitExceeded);
        }
        let savepoint = Savepoint {
            name: name.copy()?,
            seq: self.seq,
        };
        self.saved.insert(0, savepoint)?;
        Ok(Reply::Saved)
    }

    /// ROLLBACK to the newest savepoint of a name; NoSuchSavepoint where there is none.
    fn go_back(
        &mut self,
        alloc: Global,
        tables: &mut Vec<Table>,
        name: &Name,
    ) -> Result<Reply, Refusal>
        requires order { InOrder (machine_of tables.old.items (Some self.old)) }
        requires places { HasPlaces self.old.defs tables.old.items }
        ensures { StepsUnlessOom tables.old.items self.old tables.new.items self.new
            (rolls_back_to (state_of tables.old.items self.old) name.now) result }
    {
        let Some(place) = place_of(self.saved.as_slice(), name) else {
            return Err(Refusal::NoSuchSavepoint);
        };
        self.rewind(alloc, tables, place);
        Ok(Reply::Back)
    }

    /// Goes back to the savepoint at a place. It stays, and those newer go. Takes no memory.
    fn rewind(&mut self, alloc: Global, tables: &mut Vec<Table>, place: usize)
        requires { place < length self.old.saved }
        ensures tables { (s : Savepoint) → (ss : List Savepoint) → drop place self.old.saved ≡ s ∷ ss
            → tables.new.items ≡ undone self.old.tx s.seq tables.old.items }
        ensures script { (s : Savepoint) → (ss : List Savepoint) → drop place self.old.saved ≡ s ∷ ss
            → self.new
            ≡ record {
              tx = self.old.tx;
              explicit = self.old.explicit;
              seq = s.seq;
              saved = s ∷ ss;
              defs = self.old.defs;
            } }
    {
        self.drop_newer(alloc, place);
        self.seq = self.saved.as_slice()[0].seq;
        undo(alloc, tables, self.tx, self.seq);
    }

    /// Drops the savepoints newer than the one at a place.
    fn drop_newer(&mut self, alloc: Global, place: usize)
        requires { place ≤ length self.old.saved }
        ensures { self.new ≡ record {
          tx = self.old.tx;
          explicit = self.old.explicit;
          seq = self.old.seq;
          saved = drop place self.old.saved;
          defs = self.old.defs;
        } }
    {
        let mut saved = mem::replace(&mut self.saved, Items::new(alloc)).into_vec();
        saved.drain(..place);
        self.saved = Items::from_vec(saved);
    }

    /// Gives back the tables before the script. Looks at each version once, and takes no memory.
    #[tactic(auto, unfolding(crate::specs::Seen::before), using(crate::proofs::Answered::undone_room))]
    pub fn take_back(self, alloc: Global, tables: &mut Vec<Table>)
        requires { HasPlaces self.defs tables.old.items }
        ensures { tables.new.items ≡ before tables.old.items self }
    {
        let RunningScript { tx, defs, .. } = self;
        undo(alloc, tables, tx, 0);
        if let Some(defs) = defs {
            put_back(tables, defs);
        }
    }
}

/// Where the newest savepoint of a name stands.
fn place_of(saved: &[Savepoint], name: &Name) -> Option<usize>
    ensures place { result ≡ position (λ s. bytes_eq s.name name.now) saved.now }
    ensures within { IfSome result (λ place. place < length saved.now) }
{
    saved.iter().position(|savepoint| savepoint.name == *name)
}

/// Copies of the definitions of all tables.
fn copy_defs(alloc: Global, tables: &[Table]) -> Result<Items<TableDef>, Memory>
    ensures { IfOk result (λ defs. defs ≡ defs_of tables.now) }
{
    let mut defs = Vec::with_capacity(alloc, tables.len())?;
    for table in tables {
        defs.push(copy_def(alloc, &table.def)?)?;
    }
    Ok(Items::from_vec(defs))
}

/// Gives the tables these definitions, and drops those that are left without one.
fn put_back(tables: &mut Vec<Table>, defs: Items<TableDef>)
    requires { length defs ≤ length tables.old.items }
    ensures { tables.new.items ≡ with_defs defs tables.old.items }
{
    let mut place = 0;
    for def in defs.into_vec() {
        tables[place].def = def;
        place += 1;
    }
    tables.truncate(place);
}
