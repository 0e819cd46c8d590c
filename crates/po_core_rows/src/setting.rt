//! Cores whose foregrounds have the code of one unit, and what their learners learn.
ghost use Rattle.std.specs.Prelude.{◌≡◌, ◌<◌, ◌∷◌, [], IfOk, MatchOption, ⊤, map, All};
ghost use Rattle.std.specs.Arc.{arc_value};
ghost use Rattle.po_model.specs.Blocks.{code_of};
ghost use Rattle.po_model.specs.Machines.{IsMachine};
ghost use Rattle.po_model.specs.Pairs.{pair_of, WellFormedPair};
ghost use Rattle.po_model.specs.UnitCodes.{IsFormedCode};
ghost use Rattle.po_core.specs.Parts.{HasParts};
ghost use Rattle.po_core.specs.Views.{core_of, codes_of, IsFormedCore};

use po_core::Core;
use po_expand::expand;
use po_general::generalise;
use po_ir::read_units;
use po_mdread::read_machine;
use po_model::{Code, Machine, Pair, Steps, copy_code};
use po_rule::Learned;
use po_slow::{Ask, ScanState, combine, scan_step};
use po_word::{OutOfMemory, push};
use std::alloc::Global;
use std::sync::Arc;
use std::sync::ledger::Ledger;
use std::test::Fail;

/// The machine of a description.
pub fn machine(alloc: Global, text: &str) -> Result<Arc<Machine>, Fail>
    ensures { IfOk result (λ m. IsMachine (arc_value m)) }
{
    let bytes = text.as_bytes();
    let (machine, _) = read_machine(alloc, bytes)?;
    let shared = Arc::new(alloc, machine)?;
    Ok(shared)
}

/// The naive code of the one unit of a text.
pub fn code(alloc: Global, description: &str, unit: &str) -> Result<Code, Fail>
    ensures { IfOk result (λ c. IsFormedCode (code_of c)) }
{
    let mut text = Vec::new(alloc);
    text.extend_from_slice(description.as_bytes())?;
    text.extend_from_slice(unit.as_bytes())?;
    let (_, at) = read_machine(alloc, &text)?;
    let units = read_units(alloc, &text, at)?;
    match units.as_slice() {
        [unit] => Ok(expand(alloc, unit)?.code),
        _ => Err(Fail::from("not one unit")),
    }
}

/// The codes of a foreground that has this one alone.
fn alone(alloc: Global, c: &Code) -> Result<Vec<Code>, OutOfMemory>
    requires { IsFormedCode (code_of c.now) }
    ensures { IfOk result (λ codes. All IsFormedCode (codes_of codes)) }
{
    let mut codes = Vec::new(alloc);
    let copy = copy_code(alloc, c)?;
    codes.push(copy)?;
    Ok(codes)
}

/// So many foregrounds that have this code each.
fn foregrounds(alloc: Global, c: &Code, fores: usize) -> Result<Vec<Vec<Code>>, OutOfMemory>
    requires { IsFormedCode (code_of c.now) }
    ensures { IfOk result (λ units. All (λ codes. All IsFormedCode (codes_of codes)) units.items) }
{
    let mut units = Vec::new(alloc);
    for _ in 0..fores {
        push(&mut units, alone(alloc, c)?)?;
    }
    Ok(units)
}

/// A core of so many foregrounds that have this code each.
pub fn core(
    alloc: Global,
    m: &Arc<Machine>,
    c: &Code,
    fores: usize,
    learners: usize,
    room: usize,
) -> Result<Core, OutOfMemory>
    requires machine { IsMachine (arc_value m.now) }
    requires code { IsFormedCode (code_of c.now) }
    ensures formed { IfOk result IsFormedCore }
    ensures parts { IfOk result (λ k. HasParts (core_of k)) }
{
    let units = foregrounds(alloc, c, fores)?;
    Core::new(alloc, m.clone()?, units, learners, room)
}

/// The pair that slow combination of the code tries after so many others.
fn pair(alloc: Global, m: &Machine, c: &Code, before: usize) -> Result<Pair, Fail>
    requires machine { IsMachine m.now }
    requires code { IsFormedCode (code_of c.now) }
    ensures { IfOk result (λ p. WellFormedPair (pair_of p)) }
{
    let copy = copy_code(alloc, c)?;
    let mut scan = ScanState::new(alloc, copy)?;
    for _ in 0..before {
        let Ask::Pair(p) = scan.ask(alloc)? else {
            return Err(Fail::from("no pair"));
        };
        let outcome = combine(alloc, m, &p)?;
        scan_step(alloc, &mut scan, outcome)?;
    }
    match scan.ask(alloc)? {
        Ask::Pair(p) => Ok(p),
        _ => Err(Fail::from("no pair")),
    }
}

/// The rule, on the machine `on`, of the pair that slow combination of the code tries after so many others.
pub fn learned<L: Ledger>(
    alloc: Global,
    on: &Arc<Machine>,
    m: &Machine,
    c: &Code,
    before: usize,
    steps: &mut Steps<L>,
) -> Result<Learned, Fail>
    requires on { IsMachine (arc_value on.now) }
    requires machine { IsMachine m.now }
    requires code { IsFormedCode (code_of c.now) }
{
    let p = pair(alloc, m, c, before)?;
    Ok(generalise(alloc, on.clone()?, &p, steps)?)
}
