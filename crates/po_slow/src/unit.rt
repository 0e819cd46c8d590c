//! All passes over the code of a unit.
ghost use Rattle.std.specs.Prelude.{ℕ, ◌≡◌, ◌+◌, ◌<◌, true, IfOk, OnOk};
ghost use Rattle.po_model.specs.Blocks.{code_of};
ghost use Rattle.po_model.specs.Machines.{IsMachine};
ghost use Rattle.po_model.specs.UnitCodes.{unit_of, IsFormedCode};
ghost use Rattle.po_recog.specs.Indexes.{IsIndexOf};
ghost use Rattle.po_slow.specs.Passes.{IsSlowedUnit};
ghost use Rattle.po_slow.specs.States.{scan_of, IsFormedState};
ghost use Rattle.po_slow.specs.Marks.{AreMarked};
ghost use Rattle.po_slow.specs.Steps.{IsStepOn, IsSlowedWith};

use crate::block::Stage;
use crate::state::ScanState;
use po_model::{Code, Machine, Steps, UnitCode};
use po_recog::Index;
use po_word::OutOfMemory;
use std::alloc::Global;
use std::sync::ledger::Ledger;

/// One step of the scan; false at its finish.
fn step<L: Ledger>(
    alloc: Global,
    m: &Machine,
    index: &Index,
    s: &mut ScanState,
    steps: &mut Steps<L>,
) -> Result<bool, OutOfMemory>
    requires machine { IsMachine m.now }
    requires index { IsIndexOf m.now index.now }
    requires formed { IsFormedState s.old }
    requires marks { AreMarked m.now s.old }
    ensures steps { IfOk result (IsStepOn m.now (scan_of s.old) (scan_of s.new) steps.old steps.new) }
    ensures formed { OnOk result (IsFormedState s.new) }
    ensures marks { OnOk result (AreMarked m.now s.new) }
{
    match s.stage() {
        Stage::Ready => {
            s.try_pair(alloc, m, index, steps)?;
            Ok(true)
        }
        Stage::AtEnd => {
            s.next_block(alloc)?;
            Ok(true)
        }
        Stage::Over => Ok(false),
    }
}

/// The code that all passes make of a code.
fn all_passes<L: Ledger>(
    alloc: Global,
    m: &Machine,
    index: &Index,
    code: Code,
    steps: &mut Steps<L>,
) -> Result<Code, OutOfMemory>
    requires machine { IsMachine m.now }
    requires index { IsIndexOf m.now index.now }
    requires code { IsFormedCode (code_of code) }
    ensures { IfOk result (λ v. IsSlowedWith m.now (code_of code) (code_of v) steps.old steps.new) }
{
    let mut s = ScanState::new(alloc, code)?;
    'scan: while step(alloc, m, index, &mut s, steps)? {}
    Ok(s.code())
}

/// `slow_unit` by an index of the machine, made once for many units (docs/OPTIMISER.md, "The scan").
pub fn slow_unit_by<L: Ledger>(
    alloc: Global,
    m: &Machine,
    index: &Index,
    u: UnitCode,
    steps: &mut Steps<L>,
) -> Result<UnitCode, OutOfMemory>
    requires machine { IsMachine m.now }
    requires index { IsIndexOf m.now index.now }
    requires code { IsFormedCode (code_of u.code) }
    ensures slowed { IfOk result (λ v. (tries : ℕ)
        × IsSlowedUnit m.now (unit_of u) (unit_of v) tries × (steps.new ≡ steps.old + tries)) }
{
    let UnitCode {
        name,
        labels,
        syms,
        code,
    } = u;
    let code = all_passes(alloc, m, index, code, steps)?;
    Ok(UnitCode {
        name,
        labels,
        syms,
        code,
    })
}

/// The unit that all passes make of a unit on a machine, or want of memory (docs/OPTIMISER.md, "The scan"). The
/// machine is one that a description may tell of; the unit's instructions are well formed, and a control transfer
/// stands only in the last one of a block. A step is counted for each pair that is tried.
pub fn slow_unit<L: Ledger>(
    alloc: Global,
    m: &Machine,
    u: UnitCode,
    steps: &mut Steps<L>,
) -> Result<UnitCode, OutOfMemory>
    requires machine { IsMachine m.now }
    requires code { IsFormedCode (code_of u.code) }
    ensures slowed { IfOk result (λ v. (tries : ℕ)
        × IsSlowedUnit m.now (unit_of u) (unit_of v) tries × (steps.new ≡ steps.old + tries)) }
{
    let index = Index::new(alloc, m)?;
    slow_unit_by(alloc, m, &index, u, steps)
}
