//! What placement answers.

use po_model::UnitCode;
use thiserror::Error;

/// A unit's code with the machine register of each virtual register (docs/LANGUAGE.md, "Placement").
#[derive(Drop)]
pub struct Placed {
    /// The unit's code as it was, with virtual registers.
    pub unit: UnitCode,
    /// The number of each virtual register with the index of its machine register, in order of the intervals.
    pub regs: Vec<(u32, u32)>,
}

/// Why a code has no placement (docs/LANGUAGE.md, "Placement").
#[derive(Clone, Copy, Debug, Error, PartialEq, Eq)]
pub enum AssignRefusal {
    /// More intervals than machine registers: the first point where it is so, and how many intervals it lies in.
    #[error("TooFew")]
    TooFew { point: u32, needed: u32 },
    /// Memory was refused.
    #[error("OutOfMemory")]
    OutOfMemory,
}
