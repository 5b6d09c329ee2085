//! Days, their dates in the proleptic Gregorian calendar, and the texts of those (ISO 8601, `YYYY-MM-DD`).

ghost use Rattle.std.specs.Prelude.{◌≡◌, ◌↔◌, ◌<◌, ◌≤◌, ◌+◌, ◌-◌, pos, ◌+ℤ◌, ◌≤ℤ◌, IfSome, IsSome, IsTrue};
ghost use Rattle.jiff_core.specs.Calendar.{day_count};
ghost use Rattle.jiff_core.specs.Date.{epoch_day};
ghost use Rattle.sql_value.specs.Day as spec;

use jiff::ToSpan;
use jiff::civil::{Date, date};
use sql_value::CivilDate;

/// The day 9999-12-31.
pub const LAST_DAY: u32 = 3_652_058;

/// The number that two digits write.
fn two_digits(a: u8, b: u8) -> Option<u8>
    ensures value { result ≡ spec.two_digits a b }
    ensures small { IfSome result (λ n. n < 100) }
{
    if a.is_ascii_digit() && b.is_ascii_digit() {
        Some((a - b'0') * 10 + (b - b'0'))
    } else {
        None
    }
}

/// The year, month and day of a text in the form `YYYY-MM-DD`.
#[tactic(auto, unfolding(sql_value::specs::Day::written_date))]
fn written_date(text: &[u8]) -> Option<CivilDate>
    ensures value { result ≡ spec.written_date text.now }
    ensures small { IfSome result (λ c. (c.year < 10000) × (c.month < 100) × (c.day < 100)) }
{
    match text {
        [a, b, c, d, b'-', e, f, b'-', g, h] => {
            let century = two_digits(*a, *b)?;
            let year = two_digits(*c, *d)?;
            let month = two_digits(*e, *f)?;
            let day = two_digits(*g, *h)?;
            let year = u16::from(century) * 100 + u16::from(year);
            Some(CivilDate { year, month, day })
        }
        _ => None,
    }
}

/// The date of the calendar, from the year 1 on.
fn calendar_date(c: CivilDate) -> Option<Date>
    requires { (c.year < 10000) × (c.month < 100) × (c.day < 100) }
    ensures there { IsSome result ↔ IsTrue (spec.is_date c) }
    ensures same { IfSome result (λ d. (d.year ≡ pos c.year) × (d.month ≡ c.month) × (d.day ≡ c.day)) }
{
    if c.year == 0 {
        return None;
    }
    Date::new(c.year as i16, c.month as i8, c.day as i8).ok()
}

/// The number of a date from the year 1 on.
fn number_of(date: Date) -> u32
    requires { pos 1 ≤ℤ date.year }
    ensures { result ≡ day_count date.year date.month date.day - day_count (pos 1) 1 1 }
{
    (date.to_plain().to_unix_epoch_day() + 719_162) as u32
}

/// The number of the day that a text writes, where it is a date in the form `YYYY-MM-DD` from
/// 0001-01-01 to 9999-12-31.
#[tactic(auto, unfolding(sql_value::specs::Day::day_of, sql_value::specs::Day::number_of))]
pub fn day_of(text: &[u8]) -> Option<u32>
    ensures { result ≡ spec.day_of text.now }
{
    let date = calendar_date(written_date(text)?)?;
    Some(number_of(date))
}

/// The date of a day.
fn date_of(day: u32) -> Date
    requires { day ≤ spec.last_day }
    ensures { epoch_day result +ℤ pos 719162 ≡ pos day }
{
    date(1, 1, 1).checked_add(i64::from(day).days()).unwrap()
}

/// The year, month and day of a day's date.
pub(crate) fn civil_of(day: u32) -> CivilDate
    requires { day ≤ spec.last_day }
    ensures value { result ≡ spec.date_of day }
    ensures small { (result.year < 10000) × (result.month < 100) × (result.day < 100) }
{
    let date = date_of(day);
    CivilDate {
        year: date.year() as u16,
        month: date.month() as u8,
        day: date.day() as u8,
    }
}

fn digit(n: u16) -> u8
    requires { n < 10 }
    ensures { result ≡ 48 + n }
{
    b'0' + n as u8
}

/// A date as `YYYY-MM-DD`.
pub(crate) fn date_digits(c: CivilDate) -> [u8; 10]
    requires { (c.year < 10000) × (c.month < 100) × (c.day < 100) }
    ensures { result ≡ spec.date_text c }
{
    let (month, day) = (u16::from(c.month), u16::from(c.day));
    [
        digit(c.year / 1000),
        digit(c.year / 100 % 10),
        digit(c.year % 100 / 10),
        digit(c.year % 10),
        b'-',
        digit(month / 10),
        digit(month % 10),
        b'-',
        digit(day / 10),
        digit(day % 10),
    ]
}
