//! The machine that commands run on.

use std::rt::Files;
use std::sync::Wait;
use std::thread::Threads;

/// What a command and the lines about files need of the machine.
pub trait Machine: Threads + Wait + Sync + Files + AllocGlobal + Print + Copy + Drop {}

impl<R: Threads + Wait + Sync + Files + AllocGlobal + Print + Copy + Drop> Machine for R {}
