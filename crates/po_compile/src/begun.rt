//! From a text to the naive codes of its units, each instruction recognised.
ghost use Rattle.std.specs.Prelude.{◌≡◌, ◌≤◌, All, length, Err, IfOk, IfErr};
ghost use Rattle.std.specs.Arc.{arc_value};
ghost use Rattle.po_model.specs.Machines.{IsMachine};
ghost use Rattle.po_model.specs.UnitCodes.{IsUnitCode};
ghost use Rattle.po_recog.specs.Indexes.{IsIndexOf};
ghost use Rattle.po_compile.specs.Begun.{IsBegun, IsUnbegun};
ghost use Rattle.po_compile.specs.Input.{IsProgram};
ghost use Rattle.po_compile.specs.Output.{AllFit, naive_codes};
ghost use Rattle.po_compile.specs.Steps.{units_of, Checked};

use crate::input::{Program, read_input};
use crate::refusal::Refusal;
use crate::units::{check_all, expand_all};
use po_model::{Machine, UnitCode};
use po_recog::Index;
use po_text::TextRefusal;
use po_word::OutOfMemory;
use std::alloc::Global;
use std::sync::Arc;

/// A machine, the index of its entries, and the naive code of each unit of a text (docs/PROGRAM.md, "The order of
/// work").
#[derive(Drop)]
pub struct Begun {
    /// The machine.
    pub machine: Arc<Machine>,
    /// The index of its entries.
    pub index: Index,
    /// The naive code of each unit.
    pub codes: Vec<UnitCode>,
}

/// The machine, for many to share.
fn shared(alloc: Global, machine: Machine) -> Result<Arc<Machine>, OutOfMemory>
    ensures { IfOk result (λ m. arc_value m ≡ machine) }
{
    Ok(Arc::new(alloc, machine)?)
}

/// The naive codes of a program.
fn prepare(alloc: Global, program: Program) -> Result<Begun, Refusal>
    requires { IsProgram program }
    ensures machine { IfOk result (λ b. arc_value b.machine ≡ program.machine) }
    ensures index { IfOk result (λ b. IsIndexOf program.machine b.index) }
    ensures naive { IfOk result (λ b. units_of b.codes.items ≡ naive_codes program.units) }
    ensures fits { IfOk result (λ b. All (AllFit program.machine) (units_of b.codes.items)) }
    ensures formed { IfOk result (λ b. All IsUnitCode (units_of b.codes.items)) }
    ensures few { IfOk result (λ b. length b.codes.items ≤ 65536) }
    ensures refused { IfErr result (λ r. Checked program.machine (naive_codes program.units) (Err r)) }
{
    let Program { machine, units } = program;
    let codes = expand_all(alloc, units.as_slice())?;
    let index = Index::new(alloc, &machine)?;
    check_all(alloc, &machine, &index, &codes)?;
    Ok(Begun {
        machine: shared(alloc, machine)?,
        index,
        codes,
    })
}

/// The naive codes of a text, each instruction of which fits an entry of the text's machine, or the first cause that
/// there are none (docs/PROGRAM.md, "Statuses").
pub fn begin(alloc: Global, text: &[u8]) -> Result<Begun, Refusal>
    ensures begun { IfOk result (λ b. IsBegun text.now (arc_value b.machine) (units_of b.codes.items)) }
    ensures machine { IfOk result (λ b. IsMachine (arc_value b.machine)) }
    ensures index { IfOk result (λ b. IsIndexOf (arc_value b.machine) b.index) }
    ensures few { IfOk result (λ b. length b.codes.items ≤ 65536) }
    ensures refused { IfErr result (IsUnbegun text.now) }
{
    match read_input(alloc, text) {
        Ok(program) => prepare(alloc, program),
        Err(TextRefusal::BadText { line, col, kind }) => Err(Refusal::BadText { line, col, kind }),
        Err(TextRefusal::OutOfMemory) => Err(Refusal::OutOfMemory),
    }
}
