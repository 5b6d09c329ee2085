//! Gates that hold threads at chosen places, each for so many turns at most. They are one type, so that what runs
//! behind a gate is compiled once.

use base_io::Gate;
use std::sync::atomic::AtomicU64;
use std::sync::atomic::Ordering::SeqCst;
use std::thread;

// How often a thread looks before it gives up.
const TURNS: u64 = 10_000_000;

/// Waits until the count is as great as this, and says whether it came to that.
fn comes_to(count: &AtomicU64, least: u64) -> bool {
    for _ in 0..TURNS {
        if least <= count.load(SeqCst) {
            return true;
        }
        thread::yield_now();
    }
    false
}

/// Holds the thread that is inside one cell until a session has answered a statement, and that session inside
/// another cell until the thread is there, so that neither can be first by chance.
#[derive(Drop)]
pub struct HoldInsideGate {
    /// The cell inside of which a thread is held.
    cell: u32,
    /// The session whose first answer it waits for.
    session: u32,
    /// The cell inside of which that session is held.
    other: u32,
    entries: AtomicU64,
    answers: AtomicU64,
    /// How often a thread was held and the answer came.
    met: AtomicU64,
}

impl HoldInsideGate {
    fn new(cell: u32, session: u32, other: u32) -> HoldInsideGate {
        HoldInsideGate {
            cell,
            session,
            other,
            entries: AtomicU64::new(0),
            answers: AtomicU64::new(0),
            met: AtomicU64::new(0),
        }
    }

    fn pass(&self, session: u32) {
        if session == self.session {
            self.answers.store(1, SeqCst);
        }
    }

    fn inside(&self, cell: u32) {
        if cell == self.cell {
            self.entries.store(1, SeqCst);
            if self.answers.load(SeqCst) == 0 && comes_to(&self.answers, 1) {
                self.met.store(1, SeqCst);
            }
        }
        if cell == self.other {
            comes_to(&self.entries, 1);
        }
    }
}

/// Holds each of two sessions behind its first answer until the other's first answer has come.
#[derive(Drop)]
pub struct HoldBothGate {
    first: AtomicU64,
    second: AtomicU64,
    /// How many of the two have met the other.
    met: AtomicU64,
}

impl HoldBothGate {
    fn new() -> HoldBothGate {
        HoldBothGate {
            first: AtomicU64::new(0),
            second: AtomicU64::new(0),
            met: AtomicU64::new(0),
        }
    }

    fn meet(&self, mine: &AtomicU64, other: &AtomicU64) {
        mine.store(1, SeqCst);
        if comes_to(other, 1) {
            self.met.fetch_add(1, SeqCst);
        }
    }

    fn pass(&self, session: u32, statement: u32) {
        if statement == 0 && session == 0 {
            self.meet(&self.first, &self.second);
        }
        if statement == 0 && session == 1 {
            self.meet(&self.second, &self.first);
        }
    }
}

/// Holds the builder behind its first visit until the session has answered, and the session there until the
/// builder has passed twice more. The builder's number is that of the sessions, here 1.
#[derive(Drop)]
pub struct HoldBuilderGate {
    answers: AtomicU64,
    visits: AtomicU64,
    /// How often a thread was held and what it waited for came.
    met: AtomicU64,
}

impl HoldBuilderGate {
    fn new() -> HoldBuilderGate {
        HoldBuilderGate {
            answers: AtomicU64::new(0),
            visits: AtomicU64::new(0),
            met: AtomicU64::new(0),
        }
    }

    fn wait(&self, count: &AtomicU64, least: u64) {
        if comes_to(count, least) {
            self.met.fetch_add(1, SeqCst);
        }
    }

    fn pass(&self, session: u32, statement: u32) {
        if session == 0 && statement == 0 {
            self.answers.store(1, SeqCst);
            self.wait(&self.visits, 3);
        }
        if session == 1 {
            self.visits.fetch_add(1, SeqCst);
            if statement == 0 {
                self.wait(&self.answers, 1);
            }
        }
    }
}

/// A gate of a test.
#[derive(Drop)]
pub enum TestGate {
    Open,
    Inside(HoldInsideGate),
    Both(HoldBothGate),
    Builder(HoldBuilderGate),
}

impl TestGate {
    /// Holds a thread inside one cell until a session has answered, and that session inside the other.
    pub fn hold_inside(cell: u32, session: u32, other: u32) -> TestGate {
        TestGate::Inside(HoldInsideGate::new(cell, session, other))
    }

    /// Holds two sessions until each has answered.
    pub fn hold_both() -> TestGate {
        TestGate::Both(HoldBothGate::new())
    }

    /// Holds the builder and the one session until each has passed the other.
    pub fn hold_builder() -> TestGate {
        TestGate::Builder(HoldBuilderGate::new())
    }

    /// How often a thread was held and what it waited for came.
    pub fn met(&self) -> u64 {
        match self {
            TestGate::Open => 0,
            TestGate::Inside(gate) => gate.met.load(SeqCst),
            TestGate::Both(gate) => gate.met.load(SeqCst),
            TestGate::Builder(gate) => gate.met.load(SeqCst),
        }
    }
}

impl Gate for TestGate {
    fn pass(&self, session: u32, statement: u32) {
        match self {
            TestGate::Open => (),
            TestGate::Inside(gate) => gate.pass(session),
            TestGate::Both(gate) => gate.pass(session, statement),
            TestGate::Builder(gate) => gate.pass(session, statement),
        }
    }

    fn inside(&self, cell: u32) {
        if let TestGate::Inside(gate) = self {
            gate.inside(cell);
        }
    }
}
