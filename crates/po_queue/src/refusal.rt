//! Why a call of the queue has no answer.

use std::alloc::AllocError;

/// Memory was refused. It is the one error that no clause gives a cause (docs/PROGRAM.md).
#[derive(Clone, Copy, Debug, PartialEq, Eq)]
pub struct OutOfMemory;

impl From<AllocError> for OutOfMemory {
    fn from(_: AllocError) -> Self {
        OutOfMemory
    }
}

/// The queue was full. The item comes back (docs/LEARNING.md, "The queue").
#[derive(Drop)]
pub struct Full<T>(pub T);
