//! Threads that meet at a gate, and sums after the joins.
use crate::gate::{Gate, OpenGate};
use crate::run::{Session, run_all};
use crate::snapshot::look;
use crate::visit::{count_once, new_board};
use crate::world::{CounterId, Totals};
use std::sync::atomic::AtomicU64;
use std::sync::atomic::Ordering::SeqCst;
use std::test::Fail;
use std::thread;

// How often a thread looks for the other before it gives up.
const TURNS: u64 = 10_000_000;

// Where two threads meet: each says that it came, and waits for the other.
#[derive(Drop)]
struct Meeting {
    first: AtomicU64,
    second: AtomicU64,
    met: AtomicU64,
}

impl Meeting {
    fn new() -> Meeting {
        Meeting {
            first: AtomicU64::new(0),
            second: AtomicU64::new(0),
            met: AtomicU64::new(0),
        }
    }

    fn meet(&self, is_first: bool) {
        let met = if is_first {
            self.first.store(1, SeqCst);
            comes(&self.second)
        } else {
            self.second.store(1, SeqCst);
            comes(&self.first)
        };
        self.met.fetch_add(met, SeqCst);
    }
}

// 1 if the other came within so many turns.
fn comes(other: &AtomicU64) -> u64 {
    for _ in 0..TURNS {
        if other.load(SeqCst) == 1 {
            return 1;
        }
        thread::yield_now();
    }
    0
}

// Holds the session in each counter until another is inside the other counter.
#[derive(Drop)]
struct InsideBothGate {
    meeting: Meeting,
}

impl Gate for InsideBothGate {
    fn inside(&self, counter: CounterId) {
        self.meeting.meet(counter == CounterId::First);
    }

    fn pass(&self, _session: usize, _turn: u32) {}
}

// Holds each of two sessions, once it counted, until the other has counted too.
#[derive(Drop)]
struct BetweenCountsGate {
    meeting: Meeting,
}

impl Gate for BetweenCountsGate {
    fn inside(&self, _counter: CounterId) {}

    fn pass(&self, session: usize, turn: u32) {
        if turn == 0 {
            self.meeting.meet(session == 0);
        }
    }
}

fn session(counter: CounterId, times: u32) -> Session {
    Session { counter, times }
}

// Both sessions are inside a counter at once. One after the other they would not meet.
#[test]
fn two_sessions_meet_inside_different_cells(rt: HostRuntime) -> Result<(), Fail> {
    let gate = InsideBothGate {
        meeting: Meeting::new(),
    };
    let session_list = [session(CounterId::First, 1), session(CounterId::Second, 1)];
    let totals = run_all(&rt, &gate, rt.alloc(), &session_list)
        .ok()
        .ok_or("memory")?;
    assert_eq!(rt;
        totals,
        Totals {
            first: 1,
            second: 1
        }
    );
    assert_eq!(rt; gate.meeting.met.load(SeqCst), 2);
    Ok(())
}

// Each session counts again only after the other counted. One after the other the first would give up.
#[test]
fn two_sessions_take_turns_in_one_cell(rt: HostRuntime) -> Result<(), Fail> {
    let gate = BetweenCountsGate {
        meeting: Meeting::new(),
    };
    let session_list = [session(CounterId::First, 2), session(CounterId::First, 2)];
    let totals = run_all(&rt, &gate, rt.alloc(), &session_list)
        .ok()
        .ok_or("memory")?;
    assert_eq!(rt;
        totals,
        Totals {
            first: 4,
            second: 0
        }
    );
    assert_eq!(rt; gate.meeting.met.load(SeqCst), 2);
    Ok(())
}

// Eight sessions that wait for each other's cells, and a plan with none.
#[test]
fn no_count_is_lost(rt: HostRuntime) -> Result<(), Fail> {
    let session_list = [
        session(CounterId::First, 20_000),
        session(CounterId::Second, 10_000),
        session(CounterId::First, 1),
        session(CounterId::First, 20_000),
        session(CounterId::Second, 0),
        session(CounterId::First, 20_000),
        session(CounterId::Second, 10_000),
        session(CounterId::First, 20_000),
    ];
    let totals = run_all(&rt, &OpenGate, rt.alloc(), &session_list)
        .ok()
        .ok_or("memory")?;
    assert_eq!(rt;
        totals,
        Totals {
            first: 80_001,
            second: 20_000
        }
    );
    let nothing = run_all(&rt, &OpenGate, rt.alloc(), &[])
        .ok()
        .ok_or("memory")?;
    assert_eq!(rt;
        nothing,
        Totals {
            first: 0,
            second: 0
        }
    );
    Ok(())
}

// A snapshot changes nothing, and visits go on after it.
#[test]
fn both_counters_are_seen_at_once(rt: HostRuntime) -> Result<(), Fail> {
    let (board, mut seat) = new_board(rt.alloc(), 1).ok().ok_or("memory")?;
    count_once(&rt, &OpenGate, &board, &mut seat, CounterId::First);
    count_once(&rt, &OpenGate, &board, &mut seat, CounterId::Second);
    count_once(&rt, &OpenGate, &board, &mut seat, CounterId::First);
    let totals = look(&rt, rt.alloc(), &board, &mut seat)
        .ok()
        .ok_or("memory")?;
    assert_eq!(rt;
        totals,
        Totals {
            first: 2,
            second: 1
        }
    );
    count_once(&rt, &OpenGate, &board, &mut seat, CounterId::Second);
    let totals = look(&rt, rt.alloc(), &board, &mut seat)
        .ok()
        .ok_or("memory")?;
    assert_eq!(rt;
        totals,
        Totals {
            first: 2,
            second: 2
        }
    );
    let counters = board.close_with(seat);
    assert_eq!(rt; counters.len(), 2);
    assert_eq!(rt; counters[0].count, 2);
    Ok(())
}
