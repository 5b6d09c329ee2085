//! What the program says on standard error: how a call ended and where, which comments of an input look as if they began
//! a section, and how many statements were refused.

use crate::bad_file::{HEAD, explain_file};
use base_io::FolderVault;
use cli_commands::{Coverage, INPUT_LIMIT, Status, coverage_text};
use cli_report::{
    InputForm, SectionWatch, StatementPlace, TranscriptWatch, explain_line, place_of_statement,
};
use cli_words::{OVERVIEW, name_read, read_command, refused_word, usage_of};
use sql_parse::stop_of;
use std::alloc::Global;
use std::fmt::Display;
use std::io;
use std::rt::Files;

/// The code of a text that is no statement.
const NO_STATEMENT: u8 = 1;

/// What the outside tells of a call after its end.
#[derive(Drop)]
pub struct Outside<'a, R: Files + AllocGlobal + Drop> {
    /// How many bytes were read, and what they are where memory did for them.
    pub bytes: u64,
    pub input: Option<&'a [u8]>,
    /// What was written.
    pub transcript: TranscriptWatch,
    /// What the system said when reading or writing failed.
    pub source: Option<io::Error>,
    pub sink: Option<io::Error>,
    pub vault: &'a FolderVault<'a, R>,
}

fn tell_place(rt: &impl Eprint, status: Status, place: impl Display + Drop) -> io::Result<()> {
    eprintln!(rt; "ledgerd: {}: {place}", status.text())
}

/// The same where there may be nothing to be told of the place.
fn tell_any_place(
    rt: &impl Eprint,
    status: Status,
    place: Option<impl Display + Drop>,
) -> io::Result<()> {
    match place {
        Some(place) => tell_place(rt, status, place),
        None => eprintln!(rt; "ledgerd: {status}"),
    }
}

/// The number of the file that a status is about, from 1 among the names that the command reads.
fn number_of(words: &[String], status: Status) -> Option<u8> {
    match status {
        Status::Missing { which } => Some(which),
        Status::Journal { .. } | Status::NotImage | Status::Receipt | Status::TooFar { .. } => {
            Some(1)
        }
        Status::Digests { .. } => {
            let [command, ..] = words else {
                return None;
            };
            Some(if command.as_str() == "extract" { 3 } else { 2 })
        }
        _ => None,
    }
}

/// The name of the file that a status is about; none where memory doesn't do.
fn name_of(alloc: Global, words: &[String], status: Status) -> Option<&str> {
    let number = number_of(words, status)?;
    match read_command(alloc, words) {
        Ok(Some(command)) => name_read(command, number),
        _ => None,
    }
}

/// Which limit was exceeded: that of a file, or one of the input.
fn tell_limit<R: Files + AllocGlobal + Drop>(
    rt: &impl Eprint,
    outside: &Outside<'_, R>,
) -> io::Result<()> {
    if let Some(failure) = outside.vault.failure() {
        tell_place(rt, Status::Limit, failure)
    } else if outside.bytes > INPUT_LIMIT as u64 {
        tell_place(rt, Status::Limit, "more than 4 MiB of input")
    } else {
        tell_place(rt, Status::Limit, "more than 64 sessions")
    }
}

/// Which file was refused, and why.
fn tell_file<R: Files + AllocGlobal + Drop>(
    rt: &(impl Eprint + AllocGlobal),
    words: &[String],
    status: Status,
    vault: &FolderVault<'_, R>,
) -> io::Result<()> {
    let Some(name) = name_of(rt.alloc(), words, status) else {
        return eprintln!(rt; "ledgerd: {status}");
    };
    match vault.first_bytes(name, HEAD) {
        Some(head) => tell_place(rt, status, explain_file(name, &head, status)),
        None => eprintln!(rt; "ledgerd: {status}: {name}"),
    }
}

/// How the command reads its input.
fn input_form(words: &[String]) -> InputForm {
    match words {
        [command, ..] if command.as_str() == "step" => InputForm::Statements,
        [command, ..] if command.as_str() == "run" => InputForm::Sections,
        _ => InputForm::Texts,
    }
}

/// Which line was refused, and why.
fn tell_line<R: Files + AllocGlobal + Drop>(
    rt: &impl Eprint,
    words: &[String],
    line: u64,
    outside: &Outside<'_, R>,
) -> io::Result<()> {
    let status = Status::Form { line };
    let Some(input) = outside.input else {
        return eprintln!(rt; "ledgerd: {status}");
    };
    tell_any_place(rt, status, explain_line(input_form(words), input, line))
}

/// Which word was refused and why, and the usage of the command.
fn tell_words(rt: &impl Eprint, words: &[String]) -> io::Result<()> {
    if let [] = words {
        return eprint!(rt; "{}", OVERVIEW);
    }
    tell_any_place(rt, Status::Words, refused_word(words))?;
    let Some(usage) = usage_of(words) else {
        return Ok(());
    };
    let mut is_first = true;
    for line in usage.lines() {
        let before = if is_first { "usage: " } else { "       " };
        eprintln!(rt; "{before}{line}")?;
        is_first = false;
    }
    Ok(())
}

/// The place of the statement of an entry; none where memory didn't do for the input.
fn place_of_entry<'a, R: Files + AllocGlobal + Drop>(
    words: &[String],
    outside: &Outside<'a, R>,
    entry: u64,
) -> Option<StatementPlace<'a>> {
    place_of_statement(input_form(words), outside.input?, entry)
}

/// A statement that was refused, its code and, where it is no statement, at which word reading stopped.
fn tell_entry(
    rt: &(impl Eprint + AllocGlobal),
    place: StatementPlace<'_>,
    code: u8,
) -> io::Result<()> {
    if code != NO_STATEMENT {
        return eprintln!(rt; "ledgerd: {place}: E{code:02}");
    }
    match stop_of(rt.alloc(), place.text) {
        Ok(Some(stop)) if stop.word.is_empty() => {
            eprintln!(rt;
                "ledgerd: {place}: E{code:02} at its end, column {}",
                stop.column
            )
        }
        Ok(Some(stop)) => {
            eprintln!(rt;
                "ledgerd: {place}: E{code:02} at '{}', column {}",
                stop.word, stop.column
            )
        }
        _ => eprintln!(rt; "ledgerd: {place}: E{code:02}"),
    }
}

/// The first of the statements that were refused, each with its place, and how many there are.
fn tell_refused<R: Files + AllocGlobal + Drop>(
    rt: &(impl Eprint + AllocGlobal),
    words: &[String],
    outside: &Outside<'_, R>,
) -> io::Result<()> {
    let refused = outside.transcript.refused();
    let kept = outside.transcript.first_refused();
    for entry in kept {
        if let Some(place) = place_of_entry(words, outside, entry.entry) {
            tell_entry(rt, place, entry.code)?;
        }
    }
    let [first, ..] = kept else {
        return Ok(());
    };
    let were = if refused == 1 {
        "statement was"
    } else {
        "statements were"
    };
    let code = first.code;
    match place_of_entry(words, outside, first.entry) {
        Some(place) => {
            eprintln!(rt; "ledgerd: {refused} {were} refused, the first at {place}: E{code:02}")
        }
        None => eprintln!(rt; "ledgerd: {refused} {were} refused, the first with E{code:02}"),
    }
}

/// What the transcript of `step` and `run` tells: which statements were refused, and that no digest was issued.
fn tell_transcript<R: Files + AllocGlobal + Drop>(
    rt: &(impl Eprint + AllocGlobal),
    words: &[String],
    outside: &Outside<'_, R>,
) -> io::Result<()> {
    if input_form(words) == InputForm::Texts {
        return Ok(());
    }
    tell_refused(rt, words, outside)?;
    if outside.transcript.committed() > 0 && outside.transcript.digests() == 0 {
        eprintln!(rt; "ledgerd: no digest was issued: nothing of this call is covered")?;
    }
    Ok(())
}

/// Says how a call of the program ended that didn't do its work or say No, and what `step` and `run` did that did
/// theirs.
pub fn tell<R: Files + AllocGlobal + Drop>(
    rt: &(impl Eprint + AllocGlobal),
    words: &[String],
    status: Status,
    outside: &Outside<'_, R>,
) -> io::Result<()> {
    match status {
        Status::Done => tell_transcript(rt, words, outside),
        Status::No => Ok(()),
        Status::Words => tell_words(rt, words),
        Status::Limit => tell_limit(rt, outside),
        Status::SourceFault => tell_any_place(rt, status, outside.source),
        Status::SinkFault => tell_any_place(rt, status, outside.sink),
        Status::VaultFault => tell_any_place(rt, status, outside.vault.failure()),
        Status::Form { line } => tell_line(rt, words, line, outside),
        Status::Missing { .. } => { tell_any_place(rt, status, name_of(rt.alloc(), words, status)) }
        Status::TooFar { entries } => tell_entries(rt, words, entries),
        Status::Digests { .. } | Status::Journal { .. } | Status::NotImage | Status::Receipt => {
            tell_file(rt, words, status, outside.vault)
        }
        _ => eprintln!(rt; "ledgerd: {status}"),
    }
}

/// How many transactions an image has that was asked for more.
fn tell_entries(
    rt: &(impl Eprint + AllocGlobal),
    words: &[String],
    entries: u64,
) -> io::Result<()> {
    let status = Status::TooFar { entries };
    match name_of(rt.alloc(), words, status) {
        Some(name) => { eprintln!(rt; "ledgerd: {}: {name} has {entries}", status.text()) }
        None => eprintln!(rt; "ledgerd: {status}"),
    }
}

/// Says what the digests cover of an image that was accepted, and how many transactions they don't cover.
pub fn note(rt: &(impl Eprint + AllocGlobal), covers: Option<Coverage>) -> io::Result<()> {
    let Some(coverage) = covers else {
        return Ok(());
    };
    let left = coverage.transactions.saturating_sub(coverage.covered);
    let text = coverage_text(rt.alloc(), coverage)?;
    eprintln!(rt; "ledgerd: {text}; no digest covers {left}")
}

/// Says which comments of an input of `run` look as if they began a section. Other commands have no sections.
pub fn warn(rt: &impl Eprint, words: &[String], watch: SectionWatch) -> io::Result<()> {
    match words {
        [command, ..] if command.as_str() == "run" => {}
        _ => return Ok(()),
    }
    for line in watch.lines() {
        eprintln!(rt;
            "ledgerd: line {line} is a comment: sections begin with `-- setup`, `-- session NAME` or `-- snapshot NAME`"
        )?;
    }
    let more = watch.count().saturating_sub(watch.lines().len());
    if more > 0 {
        eprintln!(rt; "ledgerd: and {more} more such lines")?;
    }
    Ok(())
}
