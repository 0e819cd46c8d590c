//! The blocks of the scan of a unit on the machine `tiny`: how many pairs are tried, and how many of them are hits and
//! misses.
ghost use Rattle.std.specs.Prelude.{◌≡◌, ◌<◌};
ghost use Rattle.std.specs.Arc.{arc_value};
ghost use Rattle.po_model.specs.Machines.{IsMachine};
ghost use Rattle.po_model.specs.UnitCodes.{unit_of, IsUnitCode};
ghost use Rattle.po_slow.specs.States.{IsFormedState};

use crate::learning::rule;
use po_expand::expand;
use po_fore::{BlockReport, compile_block};
use po_ir::read_units;
use po_mdread::{TINY, read_machine};
use po_model::{Machine, Pair, Steps, UnitCode, copy_code};
use po_slow::ScanState;
use po_table::RuleTable;
use std::alloc::Global;
use std::marker::Brand;
use std::sync::Arc;
use std::sync::ledger::{Blank, Ledger};
use std::test::Fail;

const UNIT: &str = "unit f\nadl 4\nadl 4\nlod\ncon 1\nadd\nsto\ncon 0\nret\nend\n";

/// Goes through the block at which the scan stands, and on to the next one.
fn block<L: Ledger>(
    alloc: Global,
    table: &RuleTable,
    scan: &mut ScanState,
    steps: &mut Steps<L>,
) -> Result<BlockReport, Fail>
    requires machine { IsMachine table.now.0 }
    requires formed { IsFormedState scan.old }
    ensures { IsFormedState scan.new }
{
    if scan.is_finished() {
        return Err(Fail::from("no block"));
    }
    let report = compile_block(alloc, table.machine(), table, scan, steps)?;
    scan.next_block(alloc)?;
    Ok(report)
}

/// The pairs tried, the hits and the misses.
fn told(report: &BlockReport) -> (u64, usize, usize) {
    (report.tried, report.used.len(), report.misses.len())
}

/// Puts the rules of these pairs, which it has none of, into the table.
fn learn<L: Ledger>(
    alloc: Global,
    table: &mut RuleTable,
    misses: &[Pair],
    steps: &mut Steps<L>,
) -> Result<(), Fail>
    requires { IsMachine table.old.0 }
    ensures { table.new.0 ≡ table.old.0 }
{
    for p in misses {
        let learned = rule(alloc, table.machine(), p, steps)?;
        if table.add(learned).is_err() {
            return Err(Fail::from("not added"));
        }
    }
    Ok(())
}

/// With a table that is empty both passes miss each pair. With the rules of the first pass, the first pass hits each.
fn scans<L: Ledger>(
    alloc: Global,
    machine: Machine,
    unit: UnitCode,
    ledger: Blank,
) -> Result<bool, Fail>
    requires machine { IsMachine machine }
    requires code { IsUnitCode (unit_of unit) }
    requires name { ledger.name ≡ L.name }
    requires parts { ledger.parts ≡ L.parts }
    requires some { 0 < ledger.parts }
{
    let mut steps = Steps::<L>::new(ledger);
    let mut table = RuleTable::new(alloc, Arc::new(alloc, machine)?)?;
    let mut scan = ScanState::new(alloc, copy_code(alloc, &unit.code)?)?;
    let first = block(alloc, &table, &mut scan, &mut steps)?;
    let second = block(alloc, &table, &mut scan, &mut steps)?;
    learn(alloc, &mut table, &first.misses, &mut steps)?;
    let mut again = ScanState::new(alloc, unit.code)?;
    let third = block(alloc, &table, &mut again, &mut steps)?;
    Ok(told(&first) == (11, 0, 11) && told(&second) == (5, 0, 5) && told(&third) == (11, 11, 0))
}

fn text_scans(alloc: Global, text: &[u8]) -> Result<bool, Fail> {
    let (machine, at) = read_machine(alloc, text)?;
    let units = read_units(alloc, text, at)?;
    let [unit] = units.as_slice() else {
        return Ok(false);
    };
    let code = expand(alloc, unit)?;
    scans::<Brand>(alloc, machine, code, Blank::new(1))
}

#[test]
fn blocks(rt: HostRuntime) -> Result<(), Fail> {
    let alloc = rt.alloc();
    let mut text = Vec::new(alloc);
    text.extend_from_slice(TINY.as_bytes())?;
    text.extend_from_slice(UNIT.as_bytes())?;
    assert!(rt; text_scans(alloc, &text)?);
    Ok(())
}
