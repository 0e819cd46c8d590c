//! Places in a text, and the answers of the crates that read and write one when they have no result.
//! Lines, columns and offsets are bytes; a line and a column are counted from 1, an offset from 0.

ghost use Rattle.std.specs.Prelude.{◌≡◌};
ghost use Rattle.po_text.specs.declared.fault.OutOfMemory.{OutOfMemory};

use std::alloc::{AllocError, AllocFailed};
use thiserror::Error;

/// A place in a text: the byte's offset from the start, counted from 0, and its line, counted from 1.
#[derive(Clone, Copy, Debug, PartialEq, Eq)]
pub struct Spot {
    pub offset: usize,
    pub line: u32,
}

/// A part of a line: from the byte at `start` to the byte before `end`, both counted from 0.
#[derive(Clone, Copy, Debug, PartialEq, Eq)]
pub struct Span {
    pub start: usize,
    pub end: usize,
}

/// What is wrong with a text. A fault has a line and a column, both counted from 1 (docs/PROGRAM.md).
// ORDER: fault kinds
#[derive(Clone, Copy, Debug, PartialEq, Eq)]
pub enum Kind {
    /// A word or byte that the form doesn't allow, or a line or text that ends too early: `unit a-b`.
    Word,
    /// A number outside its bounds: `arg 4`.
    Number,
    /// The lower end of a range above its upper end: `#1[5,4]`.
    Range,
    /// A list of transfers or a template that breaks its form: a digit of two kinds, as `%0 := #0`.
    ListForm,
    /// An instruction that no code can match: `clobber cc` beside `cc := ..`.
    NeverMatches,
    /// A name that is there already: the second `lab a` of a unit.
    Duplicate,
    /// Fewer values on the stack than the operation takes: `add` after one `con 1`.
    StackUnderflow,
    /// A value left on the stack where it has to be empty: `con 1` right before `lab a`.
    StackAtBoundary,
    /// A call without one of its arguments: `call f 2` after `arg 1` alone.
    ArgMissing,
    /// A jump to a label that isn't in the unit: `jmp a` in a unit without `lab a`.
    NoLabel,
    /// A unit whose last operation isn't a jump or a return: `unit f` and then `end`.
    FallsOff,
    /// More than a limit allows: a name of 65 bytes.
    TooMany,
}

/// Why there is no whole text.
#[derive(Clone, Copy, Debug, PartialEq, Eq, Error)]
pub enum ReadRefusal {
    /// The source failed.
    #[error("ReadFault")]
    ReadFault,
    /// More bytes came than the limit; the place is that of the first byte past it, counted from 1.
    #[error("TooLong")]
    TooLong { line: u32, col: u32 },
    /// Memory was refused.
    #[error("OutOfMemory")]
    OutOfMemory,
}

/// Why a text isn't read.
#[derive(Clone, Copy, Debug, PartialEq, Eq, Error)]
pub enum TextRefusal {
    /// The first fault of the text, with its place, counted from 1.
    #[error("BadText")]
    BadText { line: u32, col: u32, kind: Kind },
    /// Memory was refused.
    #[error("OutOfMemory")]
    OutOfMemory,
}

/// The sink failed when it had taken so many bytes.
#[derive(Clone, Copy, Debug, PartialEq, Eq)]
pub struct WriteFault {
    pub written: u64,
}

/// Memory was refused.
#[derive(Clone, Copy, Debug, PartialEq, Eq)]
pub struct OutOfMemory;

impl From<AllocError> for OutOfMemory {
    ghost from_gives = { λ _ refusal. refusal ≡ record {} };

    fn from(_error: AllocError) -> OutOfMemory {
        OutOfMemory
    }
}

impl<T: Drop> From<AllocFailed<T>> for OutOfMemory {
    ghost from_gives = { λ _ refusal. refusal ≡ record {} };

    fn from(_failed: AllocFailed<T>) -> OutOfMemory {
        OutOfMemory
    }
}
