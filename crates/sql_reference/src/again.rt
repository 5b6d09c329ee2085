//! Running an item of a journal again.

ghost use Rattle.std.specs.Prelude.{ℕ, ◌≡◌, ◌≢◌, List, map, IfOk, Some, None};
ghost use Rattle.std.specs.Str.{bytes_eq};
ghost use Rattle.spec_model.specs.Events.{all_events as events_left};
ghost use Rattle.spec_model.specs.Journals.{Line, after_item};
ghost use Rattle.spec_model.specs.Replies.{reply_text as text_of};
ghost use Rattle.spec_model.specs.Script.{script as script_of};
ghost use Rattle.sql_parse.specs.Text.{reading_of};
ghost use Rattle.sql_reference.specs.Again.{goes_on};
ghost use Rattle.sql_reference.specs.Machine.{Running, at_rest, step_of, moved};
ghost use Rattle.sql_reference.specs.Order.{IsNew, IsNewItem, InOrder};
ghost use Rattle.sql_reference.specs.RunEnd.{first_difference as difference_of, left_by as end_by, judged, run_end};

use crate::serial_machine::{ReplayAgreement, SerialMachine};
use base_types::{Memory, Text, TxId};
use sql_types::{Event, JournalItem};
use std::alloc::Global;

/// What a script of so many statements comes to that left these events, where all replies agree.
fn left_by(statement: u64, events: &[Event]) -> ReplayAgreement
    ensures { result ≡ end_by statement events.now }
{
    match events {
        [] => ReplayAgreement::Differs { statement },
        _ => ReplayAgreement::Agrees,
    }
}

impl SerialMachine {
    /// Runs an item of a journal of this version over the tables to which the items before it led: `Differs`
    /// names the first statement whose kept reply isn't the machine's, or the number of statements where all
    /// agree and no event is left. The closing of a block always agrees. After `Differs` the machine isn't to
    /// be used again.
    #[tactic(auto, unfolding(crate::specs::RunEnd::run_end))]
    pub fn run(
        &mut self,
        alloc: Global,
        version: u8,
        item: &JournalItem,
    ) -> Result<ReplayAgreement, Memory>
        requires rests { self.old.script ≡ None }
        requires order { InOrder self.old }
        requires new { IsNewItem item.now self.old.tables }
        ensures end { IfOk result (λ end. end ≡ run_end (reading_of version) self.old.tables item.now) }
        ensures tables { IfOk result (λ end. end ≡ ReplayAgreement.Agrees
            → self.new ≡ at_rest (after_item (reading_of version) self.old.tables item.now)) }
        ensures order { IfOk result (λ end. end ≡ ReplayAgreement.Agrees → InOrder self.new) }
    {
        match item {
            JournalItem::Close(_) => Ok(ReplayAgreement::Agrees),
            JournalItem::Tx {
                id,
                explicit,
                script,
                ..
            } => self.run_script(alloc, version, *explicit, *id, script.as_slice()),
        }
    }

    /// Runs a transaction's script. Where all replies agree it ends the script, which then has to have left
    /// an event.
    fn run_script(
        &mut self,
        alloc: Global,
        version: u8,
        explicit: bool,
        tx: TxId,
        script: &[(Text, Text)],
    ) -> Result<ReplayAgreement, Memory>
        requires rests { self.old.script ≡ None }
        requires order { InOrder self.old }
        requires new { IsNew tx self.old.tables }
        ensures end { IfOk result (λ end.
            end ≡ judged tx script.now
            (script_of (reading_of version) explicit self.old.tables tx (map (λ l. l.0) script.now))) }
        ensures tables { IfOk result (λ end. end ≡ ReplayAgreement.Agrees
            → self.new ≡ at_rest
            (script_of (reading_of version) explicit self.old.tables tx (map (λ l. l.0) script.now)).state.tables) }
        ensures order { IfOk result (λ end. end ≡ ReplayAgreement.Agrees → InOrder self.new) }
    {
        self.begin(alloc, explicit, tx);
        if let Some(statement) = self.first_difference(alloc, version, script)? {
            return Ok(ReplayAgreement::Differs { statement });
        }
        let events = self.end(alloc, true)?;
        Ok(left_by(script.len() as u64, events.as_slice()))
    }

    /// Executes a script's texts up to the first whose reply isn't the kept one, and answers its place.
    fn first_difference(
        &mut self,
        alloc: Global,
        version: u8,
        script: &[(Text, Text)],
    ) -> Result<Option<u64>, Memory>
        requires begun { self.old.script ≢ None }
        requires order { InOrder self.old }
        ensures difference { (x : Running) → self.old.script ≡ Some x
            → IfOk result (λ found. found ≡ difference_of 0 script.now (goes_on (reading_of version) x script.now).replies) }
        ensures script { (x : Running) → self.old.script ≡ Some x
            → IfOk result (λ found. found ≡ None → self.new ≡ moved self.old x (goes_on (reading_of version) x script.now).state) }
        ensures order { IfOk result (λ found. found ≡ None → InOrder self.new) }
    {
        for (place, line) in script.iter().enumerate() {
            if !self.agrees_with(alloc, version, line)? {
                return Ok(Some(place as u64));
            }
        }
        Ok(None)
    }

    /// Executes a text, and says whether its reply is the kept one.
    #[tactic(auto, using(crate::proofs::Differences::still_begun))]
    fn agrees_with(
        &mut self,
        alloc: Global,
        version: u8,
        line: &(Text, Text),
    ) -> Result<bool, Memory>
        requires begun { self.old.script ≢ None }
        requires order { InOrder self.old }
        ensures reply { (x : Running) → self.old.script ≡ Some x
            → IfOk result (λ same.
            same ≡ bytes_eq line.now.1 (text_of (step_of x (reading_of version line.now.0)).1)) }
        ensures script { (x : Running) → self.old.script ≡ Some x
            → IfOk result (λ same. self.new ≡ moved self.old x (step_of x (reading_of version line.now.0)).0) }
        ensures order { IfOk result (λ same. InOrder self.new) }
        ensures begun { IfOk result (λ same. self.new.script ≢ None) }
    {
        let (text, kept) = line;
        let reply = self.execute(alloc, version, text.as_str())?;
        Ok(*kept == reply)
    }
}
