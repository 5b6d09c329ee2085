//! What is said on a terminal while a call takes long.

use std::sync::Wait;
use std::sync::atomic::{AtomicBool, Ordering};
use std::thread::{Parker, Threads, join};
use std::time::{Clock, Duration, Instant};

/// Back to the line above, which is emptied.
const LINE_ABOVE: &str = "\u{1b}[A\r\u{1b}[K";

/// What a call and the thread that tells of it share.
#[derive(Drop)]
struct Progress {
    is_over: AtomicBool,
    parker: Parker,
}

impl Progress {
    fn new() -> Progress {
        Progress {
            is_over: AtomicBool::new(false),
            parker: Parker::new(),
        }
    }

    /// Wakes who tells of it.
    fn end(&self) {
        self.is_over.store(true, Ordering::SeqCst);
        self.parker.unpark();
    }

    /// A line on standard error, written again each second until the call is over. It ends with LF, so that what the
    /// call writes on the same terminal begins a line.
    fn tell(&self, rt: &(impl Clock + Eprint + Wait), command: &str) {
        let Ok(begun) = Instant::now(rt) else {
            return;
        };
        let mut is_told = false;
        for _ in rt.forever() {
            self.parker.park_timeout(rt, Duration::from_secs(1));
            if self.is_over.load(Ordering::SeqCst) {
                return;
            }
            if let Ok(elapsed) = begun.elapsed(rt) {
                let before = if is_told { LINE_ABOVE } else { "" };
                let _ = eprintln!(rt; "{before}{command}: {} s", elapsed.as_secs());
                is_told = true;
            }
        }
    }
}

/// Makes the call. Where it takes longer than a second, a line on standard error says for how many seconds the
/// command has been at work; nothing is said where no command is named.
pub fn with_progress<R: Clock + Eprint + Threads + Wait + Sync, F: FnOnce() -> T, T>(
    rt: &R,
    command: Option<&str>,
    call: F,
) -> T
    requires { F.pre call }
    ensures { F.post call result }
{
    let Some(command) = command else {
        return call();
    };
    let progress = Progress::new();
    let told = || progress.tell(rt, command);
    let called = || {
        let result = call();
        progress.end();
        result
    };
    join(rt, told, called).1
}
