//! How the program can end.

use po_text::Kind;

/// How the program ended. docs/PROGRAM.md says when each status comes, its line on the notes and its exit status.
// ORDER: statuses
#[derive(Clone, Copy, Debug, PartialEq, Eq)]
pub enum Status {
    /// The input was read to its end, and the sink took the whole output.
    Done,
    /// The words are none of a mode.
    Usage,
    /// The source failed.
    ReadFault,
    /// The text is none of a description and units: the place of its first fault, counted from 1, and the fault's
    /// kind.
    BadText { line: u32, col: u32, kind: Kind },
    /// No entry fits this naive instruction, which is the first such one. All three are counted from 0.
    Unrecognised { unit: u32, block: u32, index: u32 },
    /// More values are needed at this point than the machine has registers: the first such point of the first such
    /// unit, both counted from 0, and the number of values.
    TooFew { unit: u32, point: u32, needed: u32 },
    /// The sink failed when it had taken so many bytes of the output.
    WriteFault { written: u64 },
    /// Memory was refused. It comes only before the first byte is written.
    OutOfMemory,
}
