use std::alloc::{AllocError, AllocFailed};
use thiserror::Error;

/// Running out of memory: the one answer that any call which allocates may give at any growth.
///
/// What a call that answers it was given by value is dropped, and what it was lent is as before, unless the
/// call says otherwise.
#[derive(Clone, Copy, Debug, PartialEq, Eq, Error)]
#[error("no memory")]
pub struct NoMemory;

impl From<AllocError> for NoMemory {
    fn from(_: AllocError) -> Self {
        NoMemory
    }
}

impl<T: Drop> From<AllocFailed<T>> for NoMemory {
    fn from(_: AllocFailed<T>) -> Self {
        NoMemory
    }
}
