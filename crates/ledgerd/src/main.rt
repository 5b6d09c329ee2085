//! The server's program: the real outside, and the top call over it.
#![tactic(auto)]

mod bad_file;
mod before;
mod messages;

use crate::before::split_before;
use crate::messages::{Outside, note, tell, warn};
use base_io::{
    Clock, FolderVault, MachineClock, OpenGate, Sink, Source, StdinSource, StdoutSink, Vault,
};
use cli_commands::{Ended, Status, ledgerd};
use cli_report::{WatchedSink, WatchedSource, with_progress};
use std::env::Env;
use std::io::IsTerminal;
use std::process::ExitCode;
use std::rt::Files;
use std::sync::Wait;
use std::thread::Threads;
use std::{env, fs, io};

// The words after the program's name, or an error where they can't be had.
fn words(rt: &(impl Env + AllocGlobal)) -> io::Result<Vec<String>> {
    let mut words = Vec::new(rt.alloc());
    for word in env::args(rt)?.skip(1) {
        words.push(word)?;
    }
    Ok(words)
}

// The command of which standard error may tell that it is at work: none that reads standard input, whose lines may
// be typed meanwhile.
fn told_command(words: &[String]) -> Option<&str> {
    let command = words.first()?.as_str();
    match command {
        "verify" | "extract" | "replay" | "upgrade" | "receipt" | "join" | "check" | "gen" => {
            Some(command)
        }
        _ => None,
    }
}

// Where the words can't be had there is no call.
fn without_words(rt: &impl Eprint, error: io::Error) -> ExitCode {
    let status = if error.kind() == io::ErrorKind::OutOfMemory {
        Status::Memory
    } else {
        Status::Words
    };
    let _ = eprintln!(rt; "ledgerd: {status}");
    ExitCode::from(status.code())
}

// Why there is no folder of this name, if there is none.
fn lack_of_folder(rt: &impl Files, folder: &str) -> Option<io::Error> {
    match fs::metadata(rt, folder) {
        Ok(found) if found.is_dir() => None,
        Ok(_) => Some(io::ErrorKind::NotADirectory.into()),
        Err(error) => Some(error),
    }
}

// Where the folder before the command isn't there, or can't be looked at, there is no call.
fn without_folder(rt: &impl Eprint, folder: &str, error: io::Error) -> ExitCode {
    let status = match error.kind() {
        io::ErrorKind::NotFound | io::ErrorKind::NotADirectory => Status::Missing { which: 0 },
        io::ErrorKind::OutOfMemory => Status::Memory,
        _ => Status::VaultFault,
    };
    let _ = match status {
        Status::Missing { .. } => eprintln!(rt; "ledgerd: no such folder: {folder}"),
        _ => eprintln!(rt; "ledgerd: {status}: {folder}: {error}"),
    };
    ExitCode::from(status.code())
}

// The top call, whose promises end here: what is told behind it rests on none of them.
fn answer<S: Source, K: Sink, V: Vault, C: Clock>(
    rt: &(impl Threads + Wait + Sync + AllocGlobal),
    words: &[String],
    source: &mut S,
    sink: &mut K,
    vault: &mut V,
    clock: &C,
) -> Ended {
    ledgerd(rt, rt.alloc(), words, source, sink, vault, clock, &OpenGate)
}

fn main(rt: HostRuntime) -> ExitCode {
    let words = match words(&rt) {
        Ok(words) => words,
        Err(error) => return without_words(&rt, error),
    };
    let (before, words) = split_before(words.as_slice());
    let folder = before.folder.unwrap_or(".");
    if let Some(error) = lack_of_folder(&rt, folder) {
        return without_folder(&rt, folder, error);
    }
    let command = if !before.is_quiet && rt.stderr().is_terminal() {
        told_command(words)
    } else {
        None
    };
    let mut source = WatchedSource::new(rt.alloc(), StdinSource::new(rt.reader()));
    let mut sink = WatchedSink::new(StdoutSink::new(io::writer(&rt)));
    let mut vault = FolderVault::in_folder(rt, folder);
    let clock = MachineClock::new(rt);
    let call = || answer(&rt, words, &mut source, &mut sink, &mut vault, &clock);
    let Ended { status, covers } = with_progress(&rt, command, call);
    let outside = Outside {
        bytes: source.watch().bytes(),
        input: source.input(),
        transcript: sink.watch(),
        source: source.source().failure(),
        sink: sink.sink().failure(),
        vault: &vault,
    };
    let _ = warn(&rt, words, source.watch());
    let _ = tell(&rt, words, status, &outside);
    if !before.is_quiet {
        let _ = note(&rt, covers);
    }
    ExitCode::from(status.code())
}
