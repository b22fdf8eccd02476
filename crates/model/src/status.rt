//! The answers of calls.
ghost use Rattle.std.specs.Prelude.{◌≡◌};

use std::alloc::{AllocError, AllocFailed};

/// The answer of a call (`GrB_Info` of the GraphBLAS C API 2.0, without the prefix; the last five are
/// this project's, for its scripts).
#[derive(Clone, Copy, Debug, PartialEq, Eq)]
pub enum Status {
    /// The call was accepted.
    Ok,
    /// `get` found no entry at its place.
    NoValue,
    /// No object has that name or number.
    UninitializedObject,
    /// A plain value is outside its domain, a dimension outside its range, or an index or a position is
    /// repeated that may stand once.
    InvalidValue,
    /// A place of `set`, `remove` or `get` lies outside the shape.
    InvalidIndex,
    /// The domains of objects and operators aren't compatible.
    DomainMismatch,
    /// The shapes of objects don't fit one another.
    DimensionMismatch,
    /// `build` was asked for on an object that has entries.
    OutputNotEmpty,
    /// An operator isn't offered for its domain, or a limit of this implementation is passed.
    NotImplemented,
    /// An index of a list lies outside the shape that it is of.
    IndexOutOfBounds,
    /// The object's value was to be computed, and there was no memory for it.
    InvalidObject,
    /// A growth was refused during the call, which changed nothing.
    OutOfMemory,
    /// The line is no command.
    Syntax,
    /// The new name stands for an object.
    NameTaken,
    /// An object is a matrix where a vector is wanted, or the other way.
    WrongKind,
    /// There is no file of that name, or it can't be read.
    NoFile,
    /// The file stands for no matrix.
    BadFile,
}

impl Status {
    ghost use Rattle.model.specs.Text.{status_name};

    /// The name that an answer shows.
    pub fn name(self) -> &'static str
        ensures { result.now ≡ status_name self }
    {
        match self {
            Status::Ok => "OK",
            Status::NoValue => "NO_VALUE",
            Status::UninitializedObject => "UNINITIALIZED_OBJECT",
            Status::InvalidValue => "INVALID_VALUE",
            Status::InvalidIndex => "INVALID_INDEX",
            Status::DomainMismatch => "DOMAIN_MISMATCH",
            Status::DimensionMismatch => "DIMENSION_MISMATCH",
            Status::OutputNotEmpty => "OUTPUT_NOT_EMPTY",
            Status::NotImplemented => "NOT_IMPLEMENTED",
            Status::IndexOutOfBounds => "INDEX_OUT_OF_BOUNDS",
            Status::InvalidObject => "INVALID_OBJECT",
            Status::OutOfMemory => "OUT_OF_MEMORY",
            Status::Syntax => "SYNTAX",
            Status::NameTaken => "NAME_TAKEN",
            Status::WrongKind => "WRONG_KIND",
            Status::NoFile => "NO_FILE",
            Status::BadFile => "BAD_FILE",
        }
    }
}

impl From<AllocError> for Status {
    ghost use Rattle.model.specs.declared.status.Status.TheVariants.{OutOfMemory};

    ghost from_gives = { λ _ status. status ≡ OutOfMemory };

    fn from(_error: AllocError) -> Status {
        Status::OutOfMemory
    }
}

impl<T: Drop> From<AllocFailed<T>> for Status {
    ghost use Rattle.model.specs.declared.status.Status.TheVariants.{OutOfMemory};

    ghost from_gives = { λ _ status. status ≡ OutOfMemory };

    fn from(_error: AllocFailed<T>) -> Status {
        Status::OutOfMemory
    }
}
