// Which word was refused and why, for whoever typed it. `read_command` decides what is refused; of words that it
// refused this says what is wrong with the first that is at fault.
use crate::forms::{MAX_EVENT, MAX_TABLE, MAX_TX, database_name, file_name, number_in, save_name};
use crate::subcommand::Subcommand;
use base_types::MAX_TICKS;
use std::fmt;

/// What a value has to be.
#[derive(Clone, Copy)]
enum Form {
    /// A name that files are saved under.
    SaveName,
    /// The name of a file.
    FileName,
    /// The name of a database.
    DatabaseName,
    /// A number from the first to the second.
    Number(u64, u64),
}

/// A word, as it is spelled.
#[derive(Clone, Copy)]
enum Spelled<'a> {
    Word(&'a str),
    /// An option, by its name.
    Option(&'a str),
    Value { option: &'a str, value: &'a str },
}

/// What is wrong with a word.
#[derive(Clone, Copy)]
enum Fault<'a> {
    NotGiven,
    NoCommand,
    NoOption,
    /// It stands before a command, if anywhere.
    BeforeCommand,
    /// It stands right behind `verify`, if anywhere, and has no value.
    BehindVerify,
    NoValue,
    GivenTwice,
    TooMany,
    /// A path stands in the place of a name: that of a file of this folder, which is named so.
    Path { folder: &'a str, named: Spelled<'a> },
    /// It stands beside `--from`, whose journal says it.
    BesideJournal,
    /// It lacks the form of a value.
    Form(Form),
}

/// A word that was refused, or one that is missing, and why.
#[derive(Clone, Copy)]
pub struct Refused<'a> {
    spelled: Spelled<'a>,
    fault: Fault<'a>,
}

/// How far the words behind a command were looked at.
#[derive(Drop)]
struct Scan<'a> {
    /// The option whose value is to come.
    begun: Option<&'a str>,
    /// How many operands came.
    operands: usize,
}

const NAME_FORM: &str = "letters, digits, `_`, `-` and `.`, the first a letter or a digit";

fn form_of(name: &str) -> Form {
    match name {
        "save" => Form::SaveName,
        "block-size" => Form::Number(1, 100_000),
        "clock" => Form::Number(0, MAX_TICKS),
        "database" => Form::DatabaseName,
        "workers" => Form::Number(1, 16),
        "COUNT" => Form::Number(1, 10_000),
        "TX" => Form::Number(1, MAX_TX),
        "table" => Form::Number(1, MAX_TABLE as u64),
        "event" => Form::Number(0, MAX_EVENT),
        "N" => Form::Number(0, MAX_TX),
        _ => Form::FileName,
    }
}

fn has_form(form: Form, text: &str) -> bool {
    match form {
        Form::SaveName => save_name(text).is_some(),
        Form::FileName => file_name(text).is_some(),
        Form::DatabaseName => database_name(text).is_some(),
        Form::Number(low, high) => number_in(low, high, text).is_some(),
    }
}

fn is_name(form: Form) -> bool {
    matches!(form, Form::SaveName | Form::FileName)
}

/// The name of the operand at a place, from 0.
fn operand_at<'a>(which: Subcommand, place: usize) -> Option<&'a str> {
    which.operands().get(place).copied()
}

/// How many operands have to be given; of `verify` the digests may be left out.
fn needed_operands(which: Subcommand) -> usize {
    match which {
        Subcommand::Verify => 1,
        _ => which.operands().len(),
    }
}

fn has_option(which: Subcommand, name: &str) -> bool {
    which.options().iter().any(|option| *option == name)
}

/// Whether the word is the option of this name, with its value or without.
fn gives(word: &str, name: &str) -> bool {
    match word.strip_prefix("--") {
        Some(text) => match text.split_once('=') {
            Some((option, _)) => option == name,
            None => text == name,
        },
        None => false,
    }
}

/// Whether one of the words is the option of this name.
fn is_given(words: &[String], name: &str) -> bool {
    words.iter().any(|word| gives(word.as_str(), name))
}

fn of_option<'a>(name: &'a str, fault: Fault<'a>) -> Option<Refused<'a>> {
    Some(Refused {
        spelled: Spelled::Option(name),
        fault,
    })
}

fn of_word<'a>(word: &'a str, fault: Fault<'a>) -> Option<Refused<'a>> {
    Some(Refused {
        spelled: Spelled::Word(word),
        fault,
    })
}

/// A value, with the option whose value it is.
fn value_of<'a>(option: Option<&'a str>, value: &'a str) -> Spelled<'a> {
    match option {
        Some(option) => Spelled::Value { option, value },
        None => Spelled::Word(value),
    }
}

/// How a file is named whose path stands in the place of a name.
fn path_fault<'a>(option: Option<&'a str>, form: Form, path: &'a str) -> Option<Fault<'a>> {
    if !is_name(form) {
        return None;
    }
    let (folder, name) = path.rsplit_once('/')?;
    if !has_form(form, name) {
        return None;
    }
    Some(Fault::Path {
        folder: if folder.is_empty() { "/" } else { folder },
        named: value_of(option, name),
    })
}

/// What is wrong with the value of this name.
fn value_fault<'a>(option: Option<&'a str>, name: &str, word: &'a str) -> Option<Refused<'a>> {
    let form = form_of(name);
    if has_form(form, word) {
        return None;
    }
    Some(Refused {
        spelled: value_of(option, word),
        fault: path_fault(option, form, word).unwrap_or(Fault::Form(form)),
    })
}

/// Why a command has no option of this name.
fn no_option<'a>(name: &str) -> Fault<'a> {
    if name == "quiet" || name == "C" {
        Fault::BeforeCommand
    } else if name == "coverage" {
        Fault::BehindVerify
    } else {
        Fault::NoOption
    }
}

/// What is wrong with an option, whose text stands behind its two hyphens, and which these words stand before.
fn option_fault<'a>(
    which: Subcommand,
    before: &[String],
    text: &'a str,
    scan: &mut Scan<'a>,
) -> Option<Refused<'a>> {
    let (name, value) = match text.split_once('=') {
        Some((name, value)) => (name, Some(value)),
        None => (text, None),
    };
    if !has_option(which, name) {
        return of_option(name, no_option(name));
    }
    if is_given(before, name) {
        return of_option(name, Fault::GivenTwice);
    }
    match value {
        Some(value) => value_fault(Some(name), name, value),
        None => {
            scan.begun = Some(name);
            None
        }
    }
}

/// What is wrong with a word that is no option, which is a value or an operand.
fn plain_fault<'a>(which: Subcommand, word: &'a str, scan: &mut Scan<'a>) -> Option<Refused<'a>> {
    if let Some(name) = scan.begun.take() {
        return value_fault(Some(name), name, word);
    }
    let Some(name) = operand_at(which, scan.operands) else {
        return of_word(word, Fault::TooMany);
    };
    scan.operands = scan.operands.saturating_add(1);
    value_fault(None, name, word)
}

/// What is wrong with a word that these words stand before.
fn word_fault<'a>(
    which: Subcommand,
    before: &[String],
    word: &'a str,
    scan: &mut Scan<'a>,
) -> Option<Refused<'a>> {
    if !word.starts_with('-') || word == "-" {
        return plain_fault(which, word, scan);
    }
    if let Some(name) = scan.begun {
        return of_option(name, Fault::NoValue);
    }
    match word.strip_prefix("--") {
        Some("") => of_word(word, Fault::NoOption),
        Some(text) => option_fault(which, before, text, scan),
        None => of_word(word, no_option(word.strip_prefix('-').unwrap_or(word))),
    }
}

/// What is missing behind all words.
fn missing<'a>(which: Subcommand, words: &[String], scan: &Scan<'a>) -> Option<Refused<'a>> {
    if let Some(name) = scan.begun {
        return of_option(name, Fault::NoValue);
    }
    if scan.operands < needed_operands(which) {
        if let Some(name) = operand_at(which, scan.operands) {
            return of_word(name, Fault::NotGiven);
        }
    }
    if has_option(which, "save") && !is_given(words, "save") {
        return of_option("save", Fault::NotGiven);
    }
    if is_given(words, "from") && is_given(words, "database") {
        return of_option("database", Fault::BesideJournal);
    }
    if is_given(words, "event") && !is_given(words, "table") {
        return of_option("table", Fault::NotGiven);
    }
    None
}

/// What is wrong with the words behind a command.
fn fault_behind<'a>(which: Subcommand, words: &'a [String]) -> Option<Refused<'a>> {
    let mut scan = Scan {
        begun: None,
        operands: 0,
    };
    for at in 0..words.len() {
        let fault = word_fault(which, &words[..at], words[at].as_str(), &mut scan);
        if fault.is_some() {
            return fault;
        }
    }
    missing(which, words, &scan)
}

/// The words behind a command without the `--coverage` that may stand before those of `verify`.
fn without_coverage(which: Subcommand, words: &[String]) -> &[String] {
    match (which, words.split_first()) {
        (Subcommand::Verify, Some((first, rest))) if first.as_str() == "--coverage" => rest,
        _ => words,
    }
}

/// What is wrong with an option that stands before the command: one that was taken already, or has no value.
fn fault_before<'a>(word: &'a str, rest: &[String]) -> Option<Refused<'a>> {
    if word == "-C" && rest.is_empty() {
        of_word(word, Fault::NoValue)
    } else {
        of_word(word, Fault::GivenTwice)
    }
}

/// What is wrong with words the first of which names no command.
fn fault_of_others<'a>(word: &'a str, rest: &'a [String]) -> Option<Refused<'a>> {
    if word == "-C" || word == "--quiet" {
        return fault_before(word, rest);
    }
    if !matches!(word, "help" | "--help" | "-h" | "--version" | "-V") {
        return of_word(word, Fault::NoCommand);
    }
    match rest {
        [] => None,
        [name, ..] if word == "help" && Subcommand::named(name.as_str()).is_none() => {
            of_word(name.as_str(), Fault::NoCommand)
        }
        [_, second, ..] if word == "help" => of_word(second.as_str(), Fault::TooMany),
        [first, ..] => of_word(first.as_str(), Fault::TooMany),
    }
}

/// Of words that were refused, the first that is at fault, and why; none where nothing is found. They are without the
/// options that were taken before the command.
pub fn refused_word<'a>(words: &'a [String]) -> Option<Refused<'a>> {
    match words {
        [] => of_word("COMMAND", Fault::NotGiven),
        [first, rest @ ..] => match Subcommand::named(first.as_str()) {
            Some(which) => fault_behind(which, without_coverage(which, rest)),
            None => fault_of_others(first.as_str(), rest),
        },
    }
}

/// What a value has to be.
impl fmt::Display for Form {
    fn fmt<W: fmt::Write>(&self, f: &mut fmt::Formatter<W>) -> fmt::Result {
        match self {
            Form::SaveName => write!(f, "1 to 100 {NAME_FORM}"),
            Form::FileName => write!(f, "1 to 128 {NAME_FORM}"),
            Form::DatabaseName => write!(f, "1 to 64 {NAME_FORM}"),
            Form::Number(low, high) => write!(f, "a number from {low} to {high}"),
        }
    }
}

impl fmt::Display for Fault<'_> {
    fn fmt<W: fmt::Write>(&self, f: &mut fmt::Formatter<W>) -> fmt::Result {
        match self {
            Fault::NotGiven => f.write_str("not given"),
            Fault::NoCommand => f.write_str("no command; `ledgerd --help` has them"),
            Fault::NoOption => f.write_str("no option of this command"),
            Fault::BeforeCommand => f.write_str("stands before the command"),
            Fault::BehindVerify => f.write_str("stands right after `verify`, without a value"),
            Fault::NoValue => f.write_str("no value after it"),
            Fault::GivenTwice => f.write_str("given twice"),
            Fault::TooMany => f.write_str("one word too many"),
            Fault::Path { folder, named } => {
                write!(
                    f,
                    "names are files of one folder: use -C {folder} before the command and {named}"
                )
            }
            Fault::BesideJournal => f.write_str("given beside `--from`, whose journal says it"),
            Fault::Form(form) => write!(f, "{form}"),
        }
    }
}

/// As `--block-size 0`.
impl fmt::Display for Spelled<'_> {
    fn fmt<W: fmt::Write>(&self, f: &mut fmt::Formatter<W>) -> fmt::Result {
        match self {
            Spelled::Word(word) => f.write_str(word),
            Spelled::Option(name) => write!(f, "--{name}"),
            Spelled::Value { option, value } => write!(f, "--{option} {value}"),
        }
    }
}

/// The word and why it was refused, as `--block-size 0: a number from 1 to 100000`.
impl fmt::Display for Refused<'_> {
    fn fmt<W: fmt::Write>(&self, f: &mut fmt::Formatter<W>) -> fmt::Result {
        write!(f, "{}: {}", self.spelled, self.fault)
    }
}
