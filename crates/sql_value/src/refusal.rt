//! Why a statement, a value or a literal is refused.

ghost use Rattle.std.specs.Prelude.{◌≡◌};
ghost use Rattle.sql_value.specs.Refusal.{code_of, refusal_of};
ghost use Rattle.sql_value.specs.declared.refusal.Refusal.TheVariants.{NoMemory};
ghost use Rattle.sql_value.specs.declared.refusal.LitErr.TheVariants as lit;

use base_types::{Memory, TxId};
use std::alloc::{AllocError, AllocFailed};
use thiserror::Error;

/// Why a statement is refused.
#[derive(Clone, Copy, Debug, PartialEq, Eq)]
pub enum Refusal {
    /// E01: the text is no statement.
    SyntaxError,
    /// E02: there is no such table.
    NoSuchTable,
    /// E03: a name that another has, that is given twice, or that is reserved.
    NameConflict,
    /// E04: there is no such column, or none that wasn't dropped where one is to be written, indexed or dropped.
    NoSuchColumn,
    /// E05: classes of values that do not agree, a condition that is no truth, or a value that the column does not take.
    TypeMismatch,
    /// E06: NULL in a column that takes none, or a key column declared NULL.
    NullNotAllowed,
    /// E07: there is a row of that key, or an earlier one in VALUES.
    DuplicateKey,
    /// E08: a number out of the range of a column or of arithmetic.
    NumberOutOfRange,
    /// E09: a text or bytes too long for the column.
    ValueTooLong,
    /// E10: UPDATE or DELETE of an append-only table.
    AppendOnlyTable,
    /// E11: a history, a view, a system table or a dropped table is to be changed, indexed, altered or dropped.
    ReadOnlyTable,
    /// E12: SET or DROP COLUMN names a column of the key.
    KeyNotUpdatable,
    /// E13: COMMIT, ROLLBACK or SAVE TRANSACTION outside a transaction.
    NoTransaction,
    /// E14: BEGIN inside a transaction.
    AlreadyInTransaction,
    /// E15: no savepoint has the name.
    NoSuchSavepoint,
    /// E16: a limit is passed.
    LimitExceeded,
    /// E17: a statement that no transaction may hold: CREATE, ALTER, DROP, SAVE IMAGE or one about digests.
    ForbiddenInTransaction,
    /// E18: a row of VALUES has more or fewer values than there are columns.
    ValueCountMismatch,
    /// E19: a digest is asked for and nothing is committed.
    NothingCommitted,
    /// E20: another transaction holds a lock that conflicts.
    Locked { holder: TxId },
    /// E30: there is no more memory.
    NoMemory,
}

impl Refusal {
    /// The number of the code that is printed, as 2 of `E02`.
    pub fn code(&self) -> u8
        ensures { result ≡ code_of self.now }
    {
        match self {
            Refusal::SyntaxError => 1,
            Refusal::NoSuchTable => 2,
            Refusal::NameConflict => 3,
            Refusal::NoSuchColumn => 4,
            Refusal::TypeMismatch => 5,
            Refusal::NullNotAllowed => 6,
            Refusal::DuplicateKey => 7,
            Refusal::NumberOutOfRange => 8,
            Refusal::ValueTooLong => 9,
            Refusal::AppendOnlyTable => 10,
            Refusal::ReadOnlyTable => 11,
            Refusal::KeyNotUpdatable => 12,
            Refusal::NoTransaction => 13,
            Refusal::AlreadyInTransaction => 14,
            Refusal::NoSuchSavepoint => 15,
            Refusal::LimitExceeded => 16,
            Refusal::ForbiddenInTransaction => 17,
            Refusal::ValueCountMismatch => 18,
            Refusal::NothingCommitted => 19,
            Refusal::Locked { .. } => 20,
            Refusal::NoMemory => 30,
        }
    }
}

impl From<Memory> for Refusal {
    ghost from_gives = { λ _ e. e ≡ NoMemory };

    fn from(_: Memory) -> Refusal {
        Refusal::NoMemory
    }
}

impl From<AllocError> for Refusal {
    ghost from_gives = { λ _ e. e ≡ NoMemory };

    fn from(_: AllocError) -> Refusal {
        Refusal::NoMemory
    }
}

impl<T: Drop> From<AllocFailed<T>> for Refusal {
    ghost from_gives = { λ _ e. e ≡ NoMemory };

    fn from(_: AllocFailed<T>) -> Refusal {
        Refusal::NoMemory
    }
}

/// Why a column doesn't take a value.
#[derive(Clone, Copy, Debug, PartialEq, Eq, Error)]
pub enum ValueErr {
    #[error("the value is of another kind")]
    Mismatch,
    #[error("the number is out of range")]
    OutOfRange,
    #[error("the value is too long")]
    TooLong,
}

impl From<ValueErr> for Refusal {
    ghost from_gives = { λ cause e. e ≡ refusal_of cause };

    fn from(cause: ValueErr) -> Refusal {
        match cause {
            ValueErr::Mismatch => Refusal::TypeMismatch,
            ValueErr::OutOfRange => Refusal::NumberOutOfRange,
            ValueErr::TooLong => Refusal::ValueTooLong,
        }
    }
}

/// Why a text gives no literal.
#[derive(Clone, Copy, Debug, PartialEq, Eq, Error)]
pub enum LitErr {
    #[error("the text is no literal")]
    NotLiteral,
    #[error("there is no more memory")]
    Memory,
}

impl From<Memory> for LitErr {
    ghost from_gives = { λ _ e. e ≡ lit.Memory };

    fn from(_: Memory) -> LitErr {
        LitErr::Memory
    }
}

impl From<AllocError> for LitErr {
    ghost from_gives = { λ _ e. e ≡ lit.Memory };

    fn from(_: AllocError) -> LitErr {
        LitErr::Memory
    }
}

impl<T: Drop> From<AllocFailed<T>> for LitErr {
    ghost from_gives = { λ _ e. e ≡ lit.Memory };

    fn from(_: AllocFailed<T>) -> LitErr {
        LitErr::Memory
    }
}
