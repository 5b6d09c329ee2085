// The forms of values.
ghost use Rattle.std.specs.Prelude.{◌≡◌, ◌≤◌, codes, length, true, option_copied, option_map, IfSome};
ghost use Rattle.std.specs.List.{list_all};
ghost use Rattle.std.specs.Char.{is_ascii_digit};
ghost use Rattle.base_types.specs.DatabaseName.{is_database_byte, starts_as_name};
ghost use Rattle.cli_words.specs.Forms.{is_file_name, is_save_name, has_leading_zero, is_number, number_from, number_in};
ghost use Rattle.cli_words.specs.Forms.{file_name, save_name, database_name, or_default, if_given};

use base_types::is_database_name;

/// The greatest id that a transaction has.
pub const MAX_TX: u64 = 9_223_372_036_854_775_807;

/// The greatest id that a table has.
pub const MAX_TABLE: u32 = 4_294_967_295;

/// The greatest number that an event may be asked for by.
pub const MAX_EVENT: u64 = 9_223_372_036_854_775_807;

fn starts_well(name: &[u8]) -> bool
    ensures { result ≡ starts_as_name name.now }
{
    match name {
        [first, ..] => first.is_ascii_alphanumeric(),
        [] => false,
    }
}

fn are_name_bytes(name: &[u8]) -> bool
    ensures { result ≡ list_all is_database_byte name.now }
{
    name.iter().all(|b| b.is_ascii_alphanumeric() || *b == b'_' || *b == b'-' || *b == b'.')
}

#[tactic(auto, unfolding(crate::specs::Forms::is_file_name))]
fn is_file_name(name: &[u8]) -> bool
    ensures { result ≡ is_file_name name.now }
{
    starts_well(name) && name.len() <= 128 && are_name_bytes(name)
}

#[tactic(auto, unfolding(crate::specs::Forms::is_save_name))]
fn is_save_name(name: &[u8]) -> bool
    ensures { result ≡ is_save_name name.now }
{
    name.len() <= 100 && is_file_name(name)
}

/// The text, where it is the name of a file.
pub(crate) fn file_name(text: &str) -> Option<&str>
    ensures { option_copied result ≡ file_name text.now }
{
    if is_file_name(text.as_bytes()) {
        Some(text)
    } else {
        None
    }
}

/// The name of a file, where one is given.
pub(crate) fn file_name_if_given<'a>(text: Option<&'a str>) -> Option<Option<&'a str>>
    ensures { option_map option_copied result ≡ if_given file_name (option_copied text.entry) }
{
    match text {
        Some(text) => file_name(text).map(Some),
        None => Some(None),
    }
}

/// The text, where it is a name that files are saved under.
pub(crate) fn save_name(text: &str) -> Option<&str>
    ensures { option_copied result ≡ save_name text.now }
{
    if is_save_name(text.as_bytes()) {
        Some(text)
    } else {
        None
    }
}

/// The text, where it is the name of a database.
pub(crate) fn database_name(text: &str) -> Option<&str>
    ensures { option_copied result ≡ database_name text.now }
{
    if is_database_name(text.as_bytes()) {
        Some(text)
    } else {
        None
    }
}

/// The name of a database, or `LedgerDB` where none is given.
pub(crate) fn database_or_default<'a>(text: Option<&'a str>) -> Option<&'a str>
    ensures { option_copied result ≡ or_default (codes "LedgerDB") database_name (option_copied text.entry) }
{
    match text {
        Some(text) => database_name(text),
        None => Some("LedgerDB"),
    }
}

fn has_leading_zero(text: &[u8]) -> bool
    ensures { result ≡ has_leading_zero text.now }
{
    match text {
        [first, _, ..] => *first == b'0',
        _ => false,
    }
}

fn are_digits(text: &[u8]) -> bool
    ensures { result ≡ list_all is_ascii_digit text.now }
{
    text.iter().all(|b| b.is_ascii_digit())
}

#[tactic(auto, unfolding(crate::specs::Forms::is_number))]
fn is_number(text: &[u8]) -> bool
    ensures { result ≡ is_number text.now }
{
    (1 <= text.len() && text.len() <= 19) && (are_digits(text) && !has_leading_zero(text))
}

fn number_of(digits: &[u8]) -> u64
    requires few { length digits.now ≤ 19 }
    requires digits { list_all is_ascii_digit digits.now ≡ true }
    ensures { result ≡ number_from 0 digits.now }
{
    let mut n: u64 = 0;
    for b in digits {
        n = n * 10 + (*b - b'0') as u64;
    }
    n
}

/// The number of the text, where it is one from `low` to `high`.
#[tactic(auto, unfolding(crate::specs::Forms::number_in, crate::specs::Forms::is_number))]
pub(crate) fn number_in(low: u64, high: u64, text: &str) -> Option<u64>
    ensures is { result ≡ number_in low high text.now }
    ensures most { IfSome result (λ n. n ≤ high) }
{
    let digits = text.as_bytes();
    if !is_number(digits) {
        return None;
    }
    let n = number_of(digits);
    if low <= n && n <= high { Some(n) } else { None }
}

/// The same of a number of 32 bits.
pub(crate) fn small_number_in(low: u32, high: u32, text: &str) -> Option<u32>
    ensures { result ≡ number_in low high text.now }
{
    let n = number_in(low as u64, high as u64, text)?;
    Some(n as u32)
}

/// The number, or `default` where none is given.
pub(crate) fn number_or(default: u32, low: u32, high: u32, text: Option<&str>) -> Option<u32>
    ensures { result ≡ or_default default (number_in low high) (option_copied text.entry) }
{
    match text {
        Some(text) => small_number_in(low, high, text),
        None => Some(default),
    }
}

/// The number, where one is given.
pub(crate) fn number_if_given(low: u64, high: u64, text: Option<&str>) -> Option<Option<u64>>
    ensures { result ≡ if_given (number_in low high) (option_copied text.entry) }
{
    match text {
        Some(text) => number_in(low, high, text).map(Some),
        None => Some(None),
    }
}

/// The same of a number of 32 bits.
pub(crate) fn small_number_if_given(low: u32, high: u32, text: Option<&str>) -> Option<Option<u32>>
    ensures { result ≡ if_given (number_in low high) (option_copied text.entry) }
{
    match text {
        Some(text) => small_number_in(low, high, text).map(Some),
        None => Some(None),
    }
}
