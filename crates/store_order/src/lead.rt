//! Leads, by which places in an order are guessed.

/// Two numbers of a start's row. The lead with the lesser first one is below, and where these are alike, the
/// one with the lesser second one.
#[derive(Clone, Copy, Debug, PartialEq, Eq, PartialOrd, Ord)]
pub struct Lead {
    pub first: i64,
    pub second: i64,
}
