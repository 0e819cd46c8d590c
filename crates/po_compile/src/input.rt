//! The input: a description, and the units behind it.

ghost use Rattle.std.specs.Prelude.{IfOk};
ghost use Rattle.po_lines.specs.Faults.{Gets};
ghost use Rattle.po_compile.specs.Input.{program_of, input_in, IsProgram};

use po_ir::{Unit, read_units};
use po_mdread::read_machine;
use po_model::Machine;
use po_text::TextRefusal;
use sqlite_items::Items;
use std::alloc::Global;

/// What an input says.
#[derive(Drop)]
pub struct Program {
    pub machine: Machine,
    pub units: Items<Unit>,
}

/// The description and the units of a text, or its first fault.
#[tactic(auto, unfolding(crate::specs::Input::input_in))]
pub fn read_input(alloc: Global, text: &[u8]) -> Result<Program, TextRefusal>
    ensures gives { Gets program_of result (input_in text.now) }
    ensures allowed { IfOk result IsProgram }
{
    let described = read_machine(alloc, text)?;
    let units = read_units(alloc, text, described.1)?;
    Ok(Program {
        machine: described.0,
        units,
    })
}
