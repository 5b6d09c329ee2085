//! Dates as their three numbers.

/// A year, a month and a day, which the calendar may not have.
#[derive(Clone, Copy, Debug)]
pub struct CivilDate {
    pub year: u16,
    pub month: u8,
    pub day: u8,
}
