//! The modes in which no rule is learned: one unit goes from its operations to its assembly before the next begins.
ghost use Rattle.std.specs.Prelude.{◌≡◌, ◌≤◌, ◌<◌, ◌^◌, ◌++◌, ◌∷◌, [], List, All, length, IfOk, IfErr, OnOk, Err};
ghost use Rattle.po_ir.specs.Units.{IsUnit};
ghost use Rattle.po_model.specs.Machines.{IsMachine};
ghost use Rattle.po_model.specs.Naive.{naive};
ghost use Rattle.po_model.specs.UnitCodes.{PlainUnit, unit_of, IsUnitCode};
ghost use Rattle.po_compile.specs.declared.mode.Mode.TheVariants.{Naive, Slow};
ghost use Rattle.po_compile.specs.Modes.{mode_alone};
ghost use Rattle.po_compile.specs.Output.{naive_codes};
ghost use Rattle.po_compile.specs.Steps.{Checked};
ghost use Rattle.po_compile.specs.Turns.{IsTarget, AreDone, CheckedUnit};

use crate::mode::Alone;
use crate::refusal::Refusal;
use crate::target::Target;
use crate::work::{Work, no_work};
use po_expand::{CheckRefusal, check_by, expand};
use po_ir::Unit;
use po_model::{Steps, UnitCode};
use po_slow::slow_unit_by;
use std::alloc::Global;
use std::marker::Brand;
use std::sync::ledger::{Blank, Ledger};

/// Whether each instruction of a unit's naive code fits an entry; the first that doesn't is named.
fn check_unit(alloc: Global, target: &Target, unit: u32, code: &UnitCode) -> Result<(), Refusal>
    requires machine { IsMachine target.now.machine }
    requires target { IsTarget target.now }
    requires formed { IsUnitCode (unit_of code.now) }
    ensures { CheckedUnit target.now.machine unit (unit_of code.now) result }
{
    match check_by(alloc, &target.machine, &target.index, code) {
        Ok(()) => Ok(()),
        Err(CheckRefusal::Unrecognised { block, index }) => {
            Err(Refusal::Unrecognised { unit, block, index })
        }
        Err(CheckRefusal::OutOfMemory) => Err(Refusal::OutOfMemory),
    }
}

/// Takes a unit in `naive` from its operations to its assembly. The entries are found while it is written; where one
/// isn't seen to fit, the unit's code is made once more, and checked.
fn take_naive(
    alloc: Global,
    target: &Target,
    number: u32,
    unit: &Unit,
    work: &mut Work,
) -> Result<(), Refusal>
    requires machine { IsMachine target.now.machine }
    requires target { IsTarget target.now }
    requires unit { IsUnit unit.now }
    ensures done { (us : List PlainUnit) → length us ≡ number → AreDone Naive target.now.machine us work.old
        → OnOk result (AreDone Naive target.now.machine (us ++ naive unit.now ∷ []) work.new) }
    ensures refused { IfErr result (λ r. CheckedUnit target.now.machine number (naive unit.now) (Err r)) }
{
    let code = expand(alloc, unit)?;
    let fits = work.add(alloc, target, number, code)?;
    if fits {
        return Ok(());
    }
    let again = expand(alloc, unit)?;
    check_unit(alloc, target, number, &again)?;
    Ok(())
}

/// Takes a unit in `slow` from its operations to its assembly. Behind a crowd it is checked, and its code is made.
fn take_slow<L: Ledger>(
    alloc: Global,
    target: &Target,
    number: u32,
    unit: &Unit,
    steps: &mut Steps<L>,
    work: &mut Work,
) -> Result<(), Refusal>
    requires machine { IsMachine target.now.machine }
    requires target { IsTarget target.now }
    requires unit { IsUnit unit.now }
    ensures done { (us : List PlainUnit) → length us ≡ number → AreDone Slow target.now.machine us work.old
        → OnOk result (AreDone Slow target.now.machine (us ++ naive unit.now ∷ []) work.new) }
    ensures refused { IfErr result (λ r. CheckedUnit target.now.machine number (naive unit.now) (Err r)) }
{
    let code = expand(alloc, unit)?;
    check_unit(alloc, target, number, &code)?;
    let made = slow_unit_by(alloc, &target.machine, &target.index, code, steps)?;
    work.add(alloc, target, number, made)?;
    Ok(())
}

/// Takes a unit from its operations to its assembly.
fn take<L: Ledger>(
    alloc: Global,
    alone: Alone,
    target: &Target,
    number: u32,
    unit: &Unit,
    steps: &mut Steps<L>,
    work: &mut Work,
) -> Result<(), Refusal>
    requires machine { IsMachine target.now.machine }
    requires target { IsTarget target.now }
    requires unit { IsUnit unit.now }
    ensures done { (us : List PlainUnit) → length us ≡ number
        → AreDone (mode_alone alone) target.now.machine us work.old
        → OnOk result (AreDone (mode_alone alone) target.now.machine (us ++ naive unit.now ∷ []) work.new) }
    ensures refused { IfErr result (λ r. CheckedUnit target.now.machine number (naive unit.now) (Err r)) }
{
    match alone {
        Alone::Naive => take_naive(alloc, target, number, unit, work),
        Alone::Slow => take_slow(alloc, target, number, unit, steps, work),
    }
}

/// Takes all units, one after the other, with a count of all the pairs that are tried.
fn take_all<L: Ledger>(
    alloc: Global,
    alone: Alone,
    target: &Target,
    units: &[Unit],
    ledger: Blank,
) -> Result<Work, Refusal>
    requires machine { IsMachine target.now.machine }
    requires target { IsTarget target.now }
    requires units { All IsUnit units.now }
    requires few { length units.now < 2 ^ 32 }
    requires name { ledger.name ≡ L.name }
    requires parts { ledger.parts ≡ L.parts }
    requires some { 0 < ledger.parts }
    ensures done { IfOk result
        (λ work. AreDone (mode_alone alone) target.now.machine (naive_codes units.now) work) }
    ensures refused { IfErr result (λ r. Checked target.now.machine (naive_codes units.now) (Err r)) }
{
    let mut steps = Steps::<L>::new(ledger);
    let mut work = no_work(alloc);
    let mut number = 0;
    for unit in units {
        match take(alloc, alone, target, number, unit, &mut steps, &mut work) {
            Ok(()) => (),
            Err(refusal) => return Err(refusal),
        }
        number += 1;
    }
    Ok(work)
}

/// The assembly of all units in such a mode, or the first that is crowded; where an instruction of a unit's naive code
/// fits no entry, that is refused first.
pub fn assemble(
    alloc: Global,
    alone: Alone,
    target: &Target,
    units: &[Unit],
) -> Result<Work, Refusal>
    requires machine { IsMachine target.now.machine }
    requires target { IsTarget target.now }
    requires units { All IsUnit units.now }
    requires few { length units.now < 2 ^ 32 }
    ensures done { IfOk result
        (λ work. AreDone (mode_alone alone) target.now.machine (naive_codes units.now) work) }
    ensures refused { IfErr result (λ r. Checked target.now.machine (naive_codes units.now) (Err r)) }
{
    take_all::<Brand>(alloc, alone, target, units, Blank::new(1))
}
