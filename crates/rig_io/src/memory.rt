//! Want of memory, the one answer whose cause no contract states.
use std::alloc::{AllocError, AllocFailed};
use thiserror::Error;

/// Memory was refused. Any call that allocates may answer this, and no contract says when.
#[derive(Clone, Copy, Debug, PartialEq, Eq, Error)]
#[error("out of memory")]
pub struct NoMemory;

impl From<AllocError> for NoMemory {
    fn from(_: AllocError) -> Self {
        NoMemory
    }
}

impl<T: Drop> From<AllocFailed<T>> for NoMemory {
    fn from(_: AllocFailed<T>) -> Self {
        NoMemory
    }
}
