//! The fault of a line, and how it becomes the fault of the text. Columns are bytes of the line, counted from 1.

ghost use Rattle.std.specs.Prelude.{◌≡◌};
ghost use Rattle.po_lines.specs.Faults.{fault, lifted};
ghost use Rattle.po_lines.specs.declared.fault.LineError.TheVariants.{Fault, Memory};

use po_text::{Kind, TextRefusal};
use std::alloc::{AllocError, AllocFailed};

/// What is wrong with a line, and the column of the byte where it is (docs/PROGRAM.md, "Faults of the text").
#[derive(Clone, Copy, Debug, PartialEq, Eq)]
pub struct LineFault {
    pub column: u32,
    pub kind: Kind,
}

/// Why a line isn't read.
#[derive(Clone, Copy, Debug, PartialEq, Eq)]
pub enum LineError {
    /// The first fault of the line.
    Fault(LineFault),
    /// Memory was refused.
    Memory,
}

impl LineFault {
    /// A fault of a line at this column.
    pub fn at(column: u32, kind: Kind) -> LineFault
        ensures { result ≡ fault column kind }
    {
        LineFault { column, kind }
    }

    /// The refusal of a text whose first fault this is, in the line with this number, counted from 1.
    pub fn in_line(self, line: u32) -> TextRefusal
        ensures { result ≡ TextRefusal.BadText line self.column self.kind }
    {
        refused(line, self.column, self.kind)
    }
}

impl From<LineFault> for LineError {
    ghost from_gives = { λ found error. error ≡ Fault found };

    fn from(fault: LineFault) -> LineError {
        LineError::Fault(fault)
    }
}

impl From<AllocError> for LineError {
    ghost from_gives = { λ _ error. error ≡ Memory };

    fn from(_error: AllocError) -> LineError {
        LineError::Memory
    }
}

impl<T: Drop> From<AllocFailed<T>> for LineError {
    ghost from_gives = { λ _ error. error ≡ Memory };

    fn from(_failed: AllocFailed<T>) -> LineError {
        LineError::Memory
    }
}

impl From<po_text::OutOfMemory> for LineError {
    ghost from_gives = { λ _ error. error ≡ Memory };

    fn from(_refusal: po_text::OutOfMemory) -> LineError {
        LineError::Memory
    }
}

impl From<po_word::OutOfMemory> for LineError {
    ghost from_gives = { λ _ error. error ≡ Memory };

    fn from(_refusal: po_word::OutOfMemory) -> LineError {
        LineError::Memory
    }
}

/// A fault of a line at this column.
pub fn fault_at(column: u32, kind: Kind) -> LineError
    ensures { result ≡ Fault (fault column kind) }
{
    LineError::Fault(LineFault::at(column, kind))
}

/// The refusal of a text whose first fault is at this line and column, both counted from 1.
pub fn refused(line: u32, col: u32, kind: Kind) -> TextRefusal
    ensures { result ≡ TextRefusal.BadText line col kind }
{
    TextRefusal::BadText { line, col, kind }
}

/// What was read of the line with this number, with its fault as the fault of the text.
pub fn in_line<T: Drop>(line: u32, read: Result<T, LineError>) -> Result<T, TextRefusal>
    ensures { result ≡ lifted line read }
{
    match read {
        Ok(value) => Ok(value),
        Err(LineError::Memory) => Err(TextRefusal::OutOfMemory),
        Err(LineError::Fault(fault)) => Err(fault.in_line(line)),
    }
}
