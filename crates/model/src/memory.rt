//! The answer that memory was refused.
ghost use Rattle.std.specs.Prelude.{◌≡◌};

use crate::Status;
use std::alloc::{AllocError, AllocFailed};
use thiserror::Error;

/// A growth was refused during the call. What was lent to it means what it did before, though it may lie in another
/// form: a store that was to take edits may have done some of them, which then wait no longer.
#[derive(Clone, Copy, Debug, PartialEq, Eq, Error)]
#[error("out of memory")]
pub struct NoMemory;

impl From<AllocError> for NoMemory {
    fn from(_error: AllocError) -> NoMemory {
        NoMemory
    }
}

impl<T: Drop> From<AllocFailed<T>> for NoMemory {
    fn from(_error: AllocFailed<T>) -> NoMemory {
        NoMemory
    }
}

impl From<NoMemory> for Status {
    ghost use Rattle.model.specs.declared.status.Status.TheVariants.{OutOfMemory};

    ghost from_gives = { λ _ status. status ≡ OutOfMemory };

    fn from(_refused: NoMemory) -> Status {
        Status::OutOfMemory
    }
}
