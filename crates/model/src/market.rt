//! What the head of a Matrix Market file says, and what can be wrong with such a file.
ghost use Rattle.std.specs.Prelude.{◌≡◌};

use std::alloc::{AllocError, AllocFailed};
use thiserror::Error;

/// What is wrong with a Matrix Market file.
#[derive(Clone, Copy, Debug, PartialEq, Eq, Error)]
pub enum Mistake {
    /// The first line is no banner.
    #[error("not a Matrix Market file")]
    Banner,
    /// The banner announces what isn't read: `array`, `real`, `complex`, `hermitian`, `pattern` that is
    /// `skew-symmetric`, or `skew-symmetric` for another domain than INT64.
    #[error("a kind of file that isn't read")]
    Unsupported,
    /// There is no size line, or it hasn't three numbers, or a dimension or the number of entries is out
    /// of its range.
    #[error("no size line")]
    SizeLine,
    /// An entry line has another number of fields, or its row or column isn't of digits.
    #[error("not an entry")]
    Entry,
    /// A row or a column is 0 or past its dimension, or an entry of a skew-symmetric matrix stands on the
    /// diagonal.
    #[error("a position outside the matrix")]
    Index,
    /// A value is no whole number from -2^63 to 2^64 - 1.
    #[error("not a value")]
    Value,
    /// The file ends before the announced entries.
    #[error("fewer entries than announced")]
    TooFew,
    /// A line follows the announced entries.
    #[error("more entries than announced")]
    TooMany,
    /// A symmetric or skew-symmetric matrix has other columns than rows.
    #[error("not square")]
    NotSquare,
}

/// A mistake where it is found: how many lines of the file are left from its line on. Where the file ends too early
/// none is.
#[derive(Clone, Copy, Debug, PartialEq, Eq)]
pub struct Misread {
    pub left: u64,
    pub mistake: Mistake,
}

/// Why a Matrix Market file gives no matrix.
#[derive(Clone, Copy, Debug, PartialEq, Eq, Error)]
pub enum MmFault {
    /// The file stands for none. Lines are counted from 1, all of them; where the file ends too early, it is the line
    /// behind its last one.
    #[error("line {line}: {mistake}")]
    Malformed { line: u64, mistake: Mistake },
    /// A growth was refused.
    #[error("out of memory")]
    NoMemory,
}

impl From<AllocError> for MmFault {
    ghost use Rattle.model.specs.declared.market.MmFault.TheVariants.{NoMemory};

    ghost from_gives = { λ _ fault. fault ≡ NoMemory };

    fn from(_error: AllocError) -> MmFault {
        MmFault::NoMemory
    }
}

impl<T: Drop> From<AllocFailed<T>> for MmFault {
    ghost use Rattle.model.specs.declared.market.MmFault.TheVariants.{NoMemory};

    ghost from_gives = { λ _ fault. fault ≡ NoMemory };

    fn from(_error: AllocFailed<T>) -> MmFault {
        MmFault::NoMemory
    }
}

/// What an entry line says beside its position.
#[derive(Clone, Copy, Debug, PartialEq, Eq)]
pub enum Field {
    /// Nothing: the value is 1.
    Pattern,
    /// A whole number.
    Integer,
}

/// Which entries the file leaves out, since they follow from others.
#[derive(Clone, Copy, Debug, PartialEq, Eq)]
pub enum Symmetry {
    /// None.
    General,
    /// An entry off the diagonal stands at the transposed position too.
    Symmetric,
    /// The same, with the value's negative.
    SkewSymmetric,
}

/// What the head of a file says.
#[derive(Clone, Copy, Debug, PartialEq, Eq)]
pub struct Heading {
    pub field: Field,
    pub symmetry: Symmetry,
    pub rows: u64,
    pub cols: u64,
    /// The announced number of entry lines.
    pub entries: u64,
}
