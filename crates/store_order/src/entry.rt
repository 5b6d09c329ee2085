//! A start with its lead.

ghost use Rattle.std.specs.Prelude.{◌≡◌};

use crate::lead::Lead;
use sql_types::EventId;
use std::marker::Model;

/// A start, and the lead by which its place is guessed. Contracts see the start alone.
#[derive(Debug, Drop)]
pub struct Entry {
    start: EventId,
    lead: Lead,
}

impl Model for Entry {
    ghost use Rattle.spec_model.specs.Rows.{EventId};

    ghost Value = { EventId };

    ghost view = { λ e. e.start };
}

impl Entry {
    pub fn new(start: EventId, lead: Lead) -> Entry
        ensures { result ≡ start }
    {
        Entry { start, lead }
    }

    pub fn start(&self) -> EventId
        ensures { result ≡ self.now }
    {
        self.start
    }

    /// The lead. No clause says which: the place that it leads to is a guess.
    pub fn lead(&self) -> Lead {
        self.lead
    }
}
