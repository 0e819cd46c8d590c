//! Why a code isn't accepted.

use thiserror::Error;

/// Why a code isn't accepted.
#[derive(Clone, Copy, Debug, PartialEq, Eq, Error)]
pub enum CheckRefusal {
    /// No entry fits this instruction of this block, both counted from 0, and it is the first such one.
    #[error("Unrecognised")]
    Unrecognised { block: u32, index: u32 },
    /// Memory was refused.
    #[error("OutOfMemory")]
    OutOfMemory,
}
