//! How many pairs each pass over a unit tries, on the machine `tiny`, and how many instructions are left.
ghost use Rattle.std.specs.Prelude.{◌≡◌, ◌<◌, Some};
ghost use Rattle.po_model.specs.Machines.{IsMachine};
ghost use Rattle.po_model.specs.Pairs.{pair_of, WellFormedPair};
ghost use Rattle.po_model.specs.Scanned.{pair_ready};
ghost use Rattle.po_model.specs.UnitCodes.{unit_of, IsUnitCode};
ghost use Rattle.po_slow.specs.States.{scan_of, IsFormedState};

use po_expand::expand;
use po_ir::read_units;
use po_mdread::{TINY, read_machine};
use po_model::{Machine, Pair, Steps, UnitCode};
use po_slow::{Ask, ScanState, scan_step, slow_pair};
use po_word::OutOfMemory;
use std::alloc::Global;
use std::marker::Brand;
use std::sync::ledger::{Blank, Ledger};
use std::test::Fail;

/// A unit of one block, how many pairs each pass over it tries, one pass behind the other, and how many instructions
/// are left.
const UNITS: [(&str, &[usize], usize); 2] = [
    (
        "unit f\nadl 4\nadl 4\nlod\ncon 1\nadd\nsto\ncon 0\nret\nend\n",
        &[11, 5],
        6,
    ),
    ("unit f\nlab L\njmp L\nend\n", &[0], 1),
];

/// Goes on by what becomes of the pair that is ready.
fn try_pair<L: Ledger>(
    alloc: Global,
    m: &Machine,
    scan: &mut ScanState,
    pair: &Pair,
    steps: &mut Steps<L>,
) -> Result<(), OutOfMemory>
    requires machine { IsMachine m.now }
    requires formed { IsFormedState scan.old }
    requires ready { pair_ready (scan_of scan.old) ≡ Some (pair_of pair.now) }
    requires well { WellFormedPair (pair_of pair.now) }
    ensures { IsFormedState scan.new }
{
    let outcome = slow_pair(alloc, m, pair, steps)?;
    scan_step(alloc, scan, outcome)
}

/// How many pairs are tried up to the end of the block, which is passed; none at the finish.
fn tries<L: Ledger>(
    alloc: Global,
    m: &Machine,
    scan: &mut ScanState,
    steps: &mut Steps<L>,
) -> Result<Option<usize>, OutOfMemory>
    requires machine { IsMachine m.now }
    requires formed { IsFormedState scan.old }
    ensures { IsFormedState scan.new }
{
    for tries in 0..100 {
        match scan.ask(alloc)? {
            Ask::Pair(pair) => try_pair(alloc, m, scan, &pair, steps)?,
            Ask::BlockEnd => {
                scan.next_block(alloc)?;
                return Ok(Some(tries));
            }
            Ask::Finished => return Ok(None),
        }
    }
    Ok(Some(100))
}

/// Whether the scan is at its finish, and so many instructions are left.
fn leaves(alloc: Global, scan: ScanState, left: usize) -> Result<bool, OutOfMemory>
    requires { IsFormedState scan }
{
    match scan.ask(alloc)? {
        Ask::Finished => {
            let code = scan.code();
            Ok(code.blocks.iter().all(|b| b.instrs.len() == left))
        }
        _ => Ok(false),
    }
}

/// Whether the passes over a code of one block try so many pairs, are all, and leave so many instructions.
fn passes_try<L: Ledger>(
    alloc: Global,
    m: &Machine,
    unit: UnitCode,
    want: &[usize],
    left: usize,
    steps: &mut Steps<L>,
) -> Result<bool, OutOfMemory>
    requires machine { IsMachine m.now }
    requires code { IsUnitCode (unit_of unit) }
{
    let mut scan = ScanState::new(alloc, unit.code)?;
    for count in want {
        if tries(alloc, m, &mut scan, steps)? != Some(*count) {
            return Ok(false);
        }
    }
    leaves(alloc, scan, left)
}

fn counted<L: Ledger>(
    alloc: Global,
    m: &Machine,
    unit: UnitCode,
    want: &[usize],
    left: usize,
    ledger: Blank,
) -> Result<bool, OutOfMemory>
    requires machine { IsMachine m.now }
    requires code { IsUnitCode (unit_of unit) }
    requires name { ledger.name ≡ L.name }
    requires parts { ledger.parts ≡ L.parts }
    requires some { 0 < ledger.parts }
{
    let mut steps = Steps::<L>::new(ledger);
    passes_try(alloc, m, unit, want, left, &mut steps)
}

/// Whether the passes over the one unit of a text try so many pairs and leave so many instructions.
fn text_tries(alloc: Global, text: &[u8], want: &[usize], left: usize) -> Result<bool, Fail> {
    let (machine, at) = read_machine(alloc, text)?;
    let units = read_units(alloc, text, at)?;
    let [unit] = units.as_slice() else {
        return Ok(false);
    };
    let code = expand(alloc, unit)?;
    Ok(counted::<Brand>(alloc, &machine, code, want, left, Blank::new(1))?)
}

#[test]
fn passes(rt: HostRuntime) -> Result<(), Fail> {
    let alloc = rt.alloc();
    for (unit, want, left) in UNITS {
        let mut text = Vec::new(alloc);
        text.extend_from_slice(TINY.as_bytes())?;
        text.extend_from_slice(unit.as_bytes())?;
        assert!(rt; text_tries(alloc, &text, want, left)?, "{unit}");
    }
    Ok(())
}
