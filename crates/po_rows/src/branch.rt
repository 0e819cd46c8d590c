//! What becomes of a branch on two constants, pair by pair, on the machine `tiny`.
ghost use Rattle.std.specs.Prelude.{◌≡◌, ◌<◌};
ghost use Rattle.po_model.specs.Machines.{IsMachine};
ghost use Rattle.po_model.specs.UnitCodes.{unit_of, IsUnitCode};
ghost use Rattle.po_slow.specs.States.{IsFormedState};

use po_expand::expand;
use po_ir::read_units;
use po_mdread::{TINY, read_machine};
use po_model::{Machine, Outcome, Pair, Steps, UnitCode};
use po_slow::{Ask, ScanState, scan_step, slow_pair};
use po_term::Instr;
use po_termtext::print_instr;
use std::alloc::Global;
use std::marker::Brand;
use std::sync::ledger::{Blank, Ledger};
use std::test::Fail;

const UNIT: &str = "unit f\ncon 3\ncon 3\nbeq L\ncon 1\nret\nlab L\ncon 2\nret\nend\n";

/// Two instructions, and the one that they become, where they don't stay.
type Row = (&'static str, &'static str, Option<&'static str>);

/// The pairs of the first block, as they are tried.
const TRIES: [Row; 5] = [
    ("v0 := 3", "v1 := 3", None),
    // cmpi
    ("v1 := 3", "cc := v0 ? v1", Some("cc := v0 ? 3")),
    // no entry compares two constants
    ("v0 := 3", "cc := v0 ? 3", None),
    // cbeq, since cc is dead behind the branch
    (
        "cc := v0 ? 3",
        "if cc eq goto L0",
        Some("if v0 ? 3 eq goto L0"),
    ),
    // jmp
    ("v0 := 3", "if v0 ? 3 eq goto L0", Some("goto L0")),
];

fn says(alloc: Global, i: &Instr, text: &str) -> Result<bool, Fail> {
    let printed = print_instr(alloc, i)?;
    Ok(printed.as_slice() == text.as_bytes())
}

fn becomes(alloc: Global, outcome: &Outcome, one: Option<&'static str>) -> Result<bool, Fail> {
    match outcome {
        Outcome::Keep => Ok(one.is_none()),
        Outcome::Nothing => Ok(false),
        Outcome::One(i) => match one {
            Some(text) => says(alloc, i, text),
            None => Ok(false),
        },
    }
}

/// Whether the pair and what becomes of it are those of the row.
fn is_that(alloc: Global, pair: &Pair, outcome: &Outcome, row: Row) -> Result<bool, Fail> {
    let first = says(alloc, &pair.a, row.0)?;
    let second = says(alloc, &pair.b, row.1)?;
    let answer = becomes(alloc, outcome, row.2)?;
    Ok(first && second && answer)
}

/// Whether the pair that is ready is that of the row, and becomes that. The scan goes on from it.
fn tries<L: Ledger>(
    alloc: Global,
    m: &Machine,
    scan: &mut ScanState,
    row: Row,
    steps: &mut Steps<L>,
) -> Result<bool, Fail>
    requires machine { IsMachine m.now }
    requires formed { IsFormedState scan.old }
    ensures { IsFormedState scan.new }
{
    let Ask::Pair(pair) = scan.ask(alloc)? else {
        return Ok(false);
    };
    let outcome = slow_pair(alloc, m, &pair, steps)?;
    let right = is_that(alloc, &pair, &outcome, row)?;
    scan_step(alloc, scan, outcome)?;
    Ok(right)
}

/// Whether the scan of the unit's code tries the pairs of all rows, and is at the end of the block then.
fn tries_all<L: Ledger>(
    alloc: Global,
    m: &Machine,
    unit: UnitCode,
    ledger: Blank,
) -> Result<bool, Fail>
    requires machine { IsMachine m.now }
    requires code { IsUnitCode (unit_of unit) }
    requires name { ledger.name ≡ L.name }
    requires parts { ledger.parts ≡ L.parts }
    requires some { 0 < ledger.parts }
{
    let mut steps = Steps::<L>::new(ledger);
    let mut scan = ScanState::new(alloc, unit.code)?;
    for row in TRIES {
        if !tries(alloc, m, &mut scan, row, &mut steps)? {
            return Ok(false);
        }
    }
    Ok(matches!(scan.ask(alloc)?, Ask::BlockEnd))
}

fn text_tries(alloc: Global, text: &[u8]) -> Result<bool, Fail> {
    let (machine, at) = read_machine(alloc, text)?;
    let units = read_units(alloc, text, at)?;
    let [unit] = units.as_slice() else {
        return Ok(false);
    };
    let code = expand(alloc, unit)?;
    tries_all::<Brand>(alloc, &machine, code, Blank::new(1))
}

#[test]
fn three_combinations(rt: HostRuntime) -> Result<(), Fail> {
    let alloc = rt.alloc();
    let mut text = Vec::new(alloc);
    text.extend_from_slice(TINY.as_bytes())?;
    text.extend_from_slice(UNIT.as_bytes())?;
    assert!(rt; text_tries(alloc, &text)?);
    Ok(())
}
