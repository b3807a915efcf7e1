//! The error that any call that allocates returns if memory runs out.

use std::alloc::{AllocError, AllocFailed};

/// The error of an allocation that failed. It is a separate error everywhere and is never merged with another error.
#[derive(Clone, Copy, Debug)]
pub struct NoMemory;

impl From<AllocError> for NoMemory {
    fn from(_error: AllocError) -> NoMemory {
        NoMemory
    }
}

impl<T: Drop> From<AllocFailed<T>> for NoMemory {
    fn from(_refused: AllocFailed<T>) -> NoMemory {
        NoMemory
    }
}
