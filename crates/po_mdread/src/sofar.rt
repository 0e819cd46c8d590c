//! What was read so far of a description.

use po_lines::Names;
use po_model::Machine;
use po_name::Name;
use po_text::Spot;
use sqlite_items::Items;

/// What was read so far of a description, and which line comes next.
#[derive(Drop)]
pub enum Sofar {
    /// Nothing: `machine` comes next.
    ToMachine,
    /// The machine's name: `frame` comes next.
    ToFrame(Name),
    /// These and the frame: `result` comes next.
    ToResult(Name, Name),
    /// These and the result: `args` comes next.
    ToArgs(Name, Name, Name),
    /// These and the four arguments: `regs` comes next.
    ToRegs(Name, Name, Name, Items<Name>),
    /// All registers, and some entries: another entry or `end` comes next.
    ToEntries(Machine),
    /// The whole machine, and the place behind the line `end`.
    Ended(Machine, Spot),
}

/// What was read so far, and beside it the names of the registers in it.
#[derive(Drop)]
pub struct State {
    pub sofar: Sofar,
    pub names: Names,
}
