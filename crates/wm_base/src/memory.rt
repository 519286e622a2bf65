//! The error of a call that wants memory.

use std::alloc::{AllocError, AllocFailed};
use thiserror::Error;

/// Memory ran out: the one error that may come of any call that allocates.
#[derive(Clone, Copy, Debug, PartialEq, Error)]
#[error("out of memory")]
pub struct Memory;

impl From<AllocError> for Memory {
    fn from(_error: AllocError) -> Memory {
        Memory
    }
}

impl<T: Drop> From<AllocFailed<T>> for Memory {
    fn from(_failed: AllocFailed<T>) -> Memory {
        Memory
    }
}
