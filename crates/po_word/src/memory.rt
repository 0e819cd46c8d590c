//! The error of a call that wanted memory and was refused it.

ghost use Rattle.std.specs.Prelude.{◌≡◌, ◌++◌, ◌∷◌, [], OnOk};

use std::alloc::{AllocError, AllocFailed};

/// Memory was refused. It is the one error that no clause gives a cause (docs/PROGRAM.md).
#[derive(Clone, Copy, Debug, PartialEq, Eq)]
pub struct OutOfMemory;

impl From<AllocError> for OutOfMemory {
    fn from(_: AllocError) -> Self {
        OutOfMemory
    }
}

impl<T: Drop> From<AllocFailed<T>> for OutOfMemory {
    fn from(_: AllocFailed<T>) -> Self {
        OutOfMemory
    }
}

/// Appends a value, or answers that memory was refused (docs/PROGRAM.md).
pub fn push<T: Drop>(xs: &mut Vec<T>, x: T) -> Result<(), OutOfMemory>
    ensures { OnOk result (xs.new.items ≡ xs.old.items ++ x ∷ []) }
{
    xs.push(x)?;
    Ok(())
}
