//! Words that are not reserved, but stand for something where they stand.

/// The name of a type.
#[derive(Clone, Copy, Debug, PartialEq, Eq)]
pub enum TypeName {
    Bit,
    Int,
    BigInt,
    Date,
    Decimal,
    NVarChar,
    VarBinary,
}

/// The name of an option of a table.
#[derive(Clone, Copy, Debug, PartialEq, Eq)]
pub enum OptionName {
    Ledger,
    SystemVersioning,
    HistoryTable,
    LedgerView,
    AppendOnly,
}

/// What is called, what stands before its point, or the image that is saved.
#[derive(Clone, Copy, Debug, PartialEq, Eq)]
pub enum CallName {
    Count,
    Sum,
    Sys,
    Digest,
    Image,
}
