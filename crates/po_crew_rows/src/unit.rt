//! A unit on the machine `tiny`, whose first pass tries 11 pairs and whose second tries 5, all of whose rules the door
//! has: how many blocks were scanned without the door, how many pairs were missed and used, and what became of the
//! misses.
ghost use Rattle.std.specs.Prelude.{◌≡◌, ◌<◌, IfOk};
ghost use Rattle.std.specs.Arc.{arc_value};
ghost use Rattle.po_model.specs.Blocks.{code_of};
ghost use Rattle.po_model.specs.Machines.{IsMachine};
ghost use Rattle.po_model.specs.UnitCodes.{IsFormedCode};
ghost use Rattle.po_slow.specs.States.{IsFormedState};

use crate::door::{Basket, Reluctant};
use po_crew::work_unit;
use po_expand::expand;
use po_fore::{BlockReport, compile_block};
use po_general::generalise;
use po_ir::read_units;
use po_mdread::{TINY, read_machine};
use po_model::{Code, Machine, Pair, Steps, UnitCode};
use po_rule::AddRefusal;
use po_slow::ScanState;
use po_table::RuleTable;
use po_tally::{Brief, shorten};
use po_term::well_formed;
use std::alloc::Global;
use std::marker::Brand;
use std::sync::Arc;
use std::sync::ledger::{Blank, Ledger};
use std::test::Fail;

const UNIT: &str = "unit f\nadl 4\nadl 4\nlod\ncon 1\nadd\nsto\ncon 0\nret\nend\n";

/// What the door refuses and the post takes at most; and the blocks without the door, the misses, the pairs that were
/// used, the misses that were taken, and those that were dropped.
type Row = (u64, usize, (u64, usize, usize, u64, u64));

const ROWS: [Row; 4] = [
    (1, 100, (1, 11, 5, 11, 0)),
    (0, 100, (0, 0, 16, 0, 0)),
    (2, 100, (2, 16, 0, 16, 0)),
    (1, 4, (1, 11, 5, 4, 7)),
];

/// Puts the rule of a pair into the table, where it isn't there yet.
fn learn<L: Ledger>(
    alloc: Global,
    table: &mut RuleTable,
    p: &Pair,
    steps: &mut Steps<L>,
) -> Result<(), Fail>
    requires { IsMachine table.old.0 }
    ensures { table.new.0 ≡ table.old.0 }
{
    let machine = table.machine().clone()?;
    if !well_formed(&p.a) || !well_formed(&p.b) {
        return Err(Fail::from("not well formed"));
    }
    let learned = generalise(alloc, machine, p, steps)?;
    match table.add(learned) {
        Ok(()) => Ok(()),
        Err(AddRefusal::Known(_)) => Ok(()),
        Err(_) => Err(Fail::from("not added")),
    }
}

/// Goes through the block at which the scan stands, and learns the rules of all its misses.
fn learn_block<L: Ledger>(
    alloc: Global,
    table: &mut RuleTable,
    scan: &mut ScanState,
    steps: &mut Steps<L>,
) -> Result<(), Fail>
    requires machine { IsMachine table.old.0 }
    requires formed { IsFormedState scan.old }
    ensures machine { table.new.0 ≡ table.old.0 }
    ensures formed { IsFormedState scan.new }
{
    if scan.is_finished() {
        return Err(Fail::from("no block"));
    }
    let report = compile_block(alloc, table.machine(), &*table, scan, steps)?;
    scan.next_block(alloc)?;
    for p in &report.misses {
        learn(alloc, table, p, steps)?;
    }
    Ok(())
}

/// The table of the rules of both passes over a code.
fn learned<L: Ledger>(
    alloc: Global,
    machine: &Arc<Machine>,
    code: Code,
    steps: &mut Steps<L>,
) -> Result<RuleTable, Fail>
    requires machine { IsMachine (arc_value machine.now) }
    requires code { IsFormedCode (code_of code) }
    ensures { IfOk result (λ t. t.0 ≡ arc_value machine.now) }
{
    let mut table = RuleTable::new(alloc, machine.clone()?)?;
    let mut scan = ScanState::new(alloc, code)?;
    learn_block(alloc, &mut table, &mut scan, steps)?;
    learn_block(alloc, &mut table, &mut scan, steps)?;
    Ok(table)
}

/// How many pairs were missed and used in all blocks.
fn counts(reports: &[BlockReport]) -> (usize, usize) {
    let (mut misses, mut used) = (0_usize, 0_usize);
    for report in reports {
        misses = misses.saturating_add(report.misses.len());
        used = used.saturating_add(report.used.len());
    }
    (misses, used)
}

/// Whether a brief tells of so many misses and hits, by at most so many rules.
fn tells(brief: &Brief, misses: usize, used: usize, rules: usize) -> bool {
    let mut hits = 0_u64;
    for tally in &brief.tallies {
        hits = hits.saturating_add(tally.more).saturating_add(1);
    }
    brief.misses.len() == misses && hits == used as u64 && brief.tallies.len() <= rules
}

/// Whether the unit's work, and the brief of it, give what a row says.
fn works<L: Ledger>(
    alloc: Global,
    machine: &Arc<Machine>,
    codes: (UnitCode, UnitCode),
    row: Row,
    steps: &mut Steps<L>,
) -> Result<bool, Fail>
    requires machine { IsMachine (arc_value machine.now) }
    requires code { IsFormedCode (code_of codes.0.code) × IsFormedCode (code_of codes.1.code) }
{
    let (refuses, room, expected) = row;
    let (first, unit) = codes;
    let table = learned(alloc, machine, first.code, steps)?;
    let rules = table.len();
    let door = Reluctant {
        table,
        refuses,
        refused: 0,
    };
    let empty = RuleTable::new(alloc, machine.clone()?)?;
    let mut post = Basket {
        room,
        fulls: 0,
        taken: Vec::new(alloc),
    };
    let (work, _door) = work_unit(alloc, machine, door, &empty, &mut post, unit, steps)?;
    let (misses, used) = counts(&work.reports);
    let counted = (work.bare, misses, used, work.taken, work.dropped);
    let brief = shorten(alloc, work)?;
    Ok(rules == 11 && counted == expected && tells(&brief, misses, used, rules))
}

fn text_works<L: Ledger>(alloc: Global, text: &[u8], row: Row, ledger: Blank) -> Result<bool, Fail>
    requires name { ledger.name ≡ L.name }
    requires parts { ledger.parts ≡ L.parts }
    requires some { 0 < ledger.parts }
{
    let (machine, at) = read_machine(alloc, text)?;
    let units = read_units(alloc, text, at)?;
    let [unit] = units.as_slice() else {
        return Ok(false);
    };
    let codes = (expand(alloc, unit)?, expand(alloc, unit)?);
    let machine = Arc::new(alloc, machine)?;
    let mut steps = Steps::<L>::new(ledger);
    works(alloc, &machine, codes, row, &mut steps)
}

/// Whether a row fits, over a count of its own.
fn row_fits(alloc: Global, text: &[u8], row: Row) -> Result<bool, Fail> {
    text_works::<Brand>(alloc, text, row, Blank::new(1))
}

#[test]
fn unit(rt: HostRuntime) -> Result<(), Fail> {
    let alloc = rt.alloc();
    let mut text = Vec::new(alloc);
    text.extend_from_slice(TINY.as_bytes())?;
    text.extend_from_slice(UNIT.as_bytes())?;
    for row in ROWS {
        let fits = row_fits(alloc, &text, row)?;
        assert!(rt; fits, "{} refused, room for {}", row.0, row.1);
    }
    Ok(())
}
