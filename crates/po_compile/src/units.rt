//! All units, one step each: expanded, recognised, placed, written. A refusal names the first unit that it comes to.

ghost use Rattle.std.specs.Prelude.{◌≡◌, ◌<◌, ◌^◌, ◌++◌, ◌∷◌, [], All, map, length, IfOk, OnOk, OnErr};
ghost use Rattle.po_ir.specs.Units.{IsUnit};
ghost use Rattle.po_model.specs.Machines.{IsMachine};
ghost use Rattle.po_model.specs.UnitCodes.{unit_of, IsUnitCode};
ghost use Rattle.po_model.specs.Naive.{naive};
ghost use Rattle.po_recog.specs.Indexes.{IsIndexOf};
ghost use Rattle.po_compile.specs.Output.{AreAssembled};
ghost use Rattle.po_compile.specs.Steps.{units_of, placed_of, Checked, Assigned, ArePlaced, IsMemory};

use crate::refusal::Refusal;
use po_assign::{AssignRefusal, Placed, assign};
use po_emit::{Templates, emit_by};
use po_expand::{CheckRefusal, check_by, expand};
use po_ir::Unit;
use po_model::{Machine, UnitCode};
use po_recog::Index;
use po_word::OutOfMemory;
use std::alloc::Global;

/// Puts a code behind these.
pub fn push_code(codes: &mut Vec<UnitCode>, code: UnitCode) -> Result<(), OutOfMemory>
    ensures { OnOk result (codes.new.items ≡ codes.old.items ++ code ∷ []) }
{
    match codes.push(code) {
        Ok(()) => Ok(()),
        Err(_) => Err(OutOfMemory),
    }
}

/// The naive code of each unit.
pub fn expand_all(alloc: Global, units: &[Unit]) -> Result<Vec<UnitCode>, OutOfMemory>
    requires { All IsUnit units.now }
    ensures naive { IfOk result (λ codes. units_of codes.items ≡ map naive units.now) }
    ensures formed { IfOk result (λ codes. All IsUnitCode (units_of codes.items)) }
{
    let mut codes = Vec::new(alloc);
    for unit in units {
        push_code(&mut codes, expand(alloc, unit)?)?;
    }
    Ok(codes)
}

/// Whether each instruction of each unit fits an entry; the first that doesn't is named.
pub fn check_all(
    alloc: Global,
    machine: &Machine,
    index: &Index,
    codes: &[UnitCode],
) -> Result<(), Refusal>
    requires machine { IsMachine machine.now }
    requires index { IsIndexOf machine.now index.now }
    requires formed { All IsUnitCode (units_of codes.now) }
    requires few { length codes.now < 2 ^ 32 }
    ensures { Checked machine.now (units_of codes.now) result }
{
    let mut unit = 0;
    for code in codes {
        match check_by(alloc, machine, index, code) {
            Ok(()) => (),
            Err(CheckRefusal::Unrecognised { block, index }) => {
                return Err(Refusal::Unrecognised { unit, block, index });
            }
            Err(CheckRefusal::OutOfMemory) => return Err(Refusal::OutOfMemory),
        }
        unit += 1;
    }
    Ok(())
}

fn push_placed(all: &mut Vec<Placed>, placed: Placed) -> Result<(), Refusal>
    ensures pushed { OnOk result (all.new.items ≡ all.old.items ++ placed ∷ []) }
    ensures cause { IsMemory result }
{
    match all.push(placed) {
        Ok(()) => Ok(()),
        Err(_) => Err(Refusal::OutOfMemory),
    }
}

/// The units with a machine register for each value; the first point at which there are too few is named.
pub fn assign_all(
    alloc: Global,
    machine: &Machine,
    codes: Vec<UnitCode>,
) -> Result<Vec<Placed>, Refusal>
    requires machine { IsMachine machine.now }
    requires formed { All IsUnitCode (units_of codes.items) }
    requires few { length codes.items < 2 ^ 32 }
    ensures { Assigned machine.now (units_of codes.items) result }
{
    let mut all = Vec::new(alloc);
    let mut unit = 0;
    for code in codes {
        match assign(alloc, machine, code) {
            Ok(placed) => push_placed(&mut all, placed)?,
            Err(AssignRefusal::TooFew { point, needed }) => {
                return Err(Refusal::TooFew {
                    unit,
                    point,
                    needed,
                });
            }
            Err(AssignRefusal::OutOfMemory) => return Err(Refusal::OutOfMemory),
        }
        unit += 1;
    }
    Ok(all)
}

/// The assembly of all units.
pub fn emit_all(
    alloc: Global,
    machine: &Machine,
    index: &Index,
    all: &[Placed],
) -> Result<Vec<u8>, OutOfMemory>
    requires machine { IsMachine machine.now }
    requires index { IsIndexOf machine.now index.now }
    requires formed { All IsUnitCode (placed_of all.now) }
    requires placed { ArePlaced machine.now all.now }
    ensures { IfOk result (λ out. AreAssembled machine.now (placed_of all.now) out.items) }
{
    let templates = Templates::new(alloc, machine)?;
    let mut out = Vec::new(alloc);
    for placed in all {
        emit_by(alloc, machine, index, &templates, placed, &mut out)?;
    }
    Ok(out)
}
