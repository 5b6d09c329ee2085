//! Two counters, what each seat counted in them, and the world that ties both.
ghost use Rattle.std.specs.Prelude.{◌≡◌, [], ◌∷◌, length, map};
ghost use Rattle.test_board.specs.Shares.{count_of};

use base_board::{AfterVisit, World};
use std::marker::Brand;

/// What lies in a cell.
#[derive(Drop)]
pub struct Counter {
    pub count: u64,
}

/// Which of the two counters, and so which cell.
#[derive(Clone, Copy, PartialEq, Eq, Drop)]
pub enum CounterId {
    First,
    Second,
}

impl CounterId {
    ghost use Rattle.std.specs.Prelude.{◌≡◌};
    ghost use Rattle.test_board.specs.Shares.{number_of};

    /// The number of the counter's cell.
    pub fn number(self) -> usize
        ensures { result ≡ number_of self }
    {
        match self {
            CounterId::First => 0,
            CounterId::Second => 1,
        }
    }
}

/// What is known of a seat: how often it counted in each counter, and how often it still may count. No
/// value of this type is made.
pub struct Share {
    pub first: u64,
    pub second: u64,
    pub left: u64,
}

/// Both counters at one moment.
#[derive(Clone, Copy, Debug, PartialEq, Eq, Drop)]
pub struct Totals {
    pub first: u64,
    pub second: u64,
}

// What both counters hold.
pub(crate) fn totals_of(counters: &[Counter]) -> Totals
    requires { length counters.now ≡ 2 }
    ensures { map count_of counters.now ≡ result.first ∷ result.second ∷ [] }
{
    Totals {
        first: counters[0].count,
        second: counters[1].count,
    }
}

/// The world of the two counters. Cells and seats stand together where each counter is the sum of what
/// the seats counted there, and what all seats counted and still may count is below 2^64. So no count
/// is lost, and no counter ever passes its end.
pub struct CountersWorld;

impl World for CountersWorld {
    ghost use Rattle.test_board.specs.Shares.{share, kept_share, new_share, joined_share, IsCounted, AllowedCounting, most_counts};
    ghost use Rattle.test_board.specs.Laws.{visits_keep, splits_keep, joins_keep};

    type Cell = Counter;

    type Seat = Share;

    ghost first = { λ cells. share 0 0 most_counts };

    ghost stand = { IsCounted };

    ghost may = { AllowedCounting };

    ghost kept = { kept_share };

    ghost split = { new_share };

    ghost may_end = { λ s. Unit {0} };

    ghost joined = { joined_share };

    ghost nobody = { share 0 0 0 };

    ghost visits = { visits_keep };

    ghost splits = { splits_keep };

    ghost joins = { joins_keep };
}

impl AfterVisit<Share> for Brand {
    ghost after = { λ s. Unit {0} };
}
