//! How the lines of an input are run.

/// How the lines of an input are run.
#[derive(Clone, Copy)]
pub struct Settings<'a> {
    /// The most transactions of a block, 1 to 100,000.
    pub block_size: u32,
    /// The moment that each statement has, in ticks; where there is none, the clock says it.
    pub clock: Option<u64>,
    /// The name of the database.
    pub database: &'a str,
}
