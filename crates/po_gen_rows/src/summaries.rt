//! The line that counts sample units, and the same counts made unit by unit.
ghost use Rattle.std.specs.Prelude.{◌≡◌, ◌<◌, IfOk};
ghost use Rattle.std.specs.Arc.{arc_value};
ghost use Rattle.po_model.specs.Machines.{IsMachine};

use po_expand::expand;
use po_gen::summary;
use po_mdread::{TINY, read_machine};
use po_model::{Machine, Steps, UnitCode};
use po_sample::sample_unit;
use po_slow::slow_unit;
use std::alloc::Global;
use std::marker::Brand;
use std::sync::Arc;
use std::sync::ledger::{Blank, Ledger};
use std::test::Fail;

/// A seed, a number of units, and the line.
const LINES: [(u32, u32, &str); 9] = [
    (7, 0, "units 0 before 0 after 0 rules 0\n"),
    (7, 1, "units 1 before 54 after 40 rules 25\n"),
    (7, 3, "units 3 before 161 after 124 rules 25\n"),
    (3, 2, "units 2 before 104 after 83 rules 21\n"),
    (0, 5, "units 5 before 270 after 207 rules 25\n"),
    (1, 20, "units 20 before 1017 after 784 rules 28\n"),
    (4294967295, 4, "units 4 before 232 after 172 rules 25\n"),
    (12345, 50, "units 50 before 2605 after 2016 rules 25\n"),
    (99, 100, "units 100 before 5180 after 3993 rules 28\n"),
];

/// The machine that a text begins with. Its text is any, so that no proof reads `tiny` word by word.
fn machine_of(alloc: Global, text: &str) -> Result<Arc<Machine>, Fail>
    ensures { IfOk result (λ m. IsMachine (arc_value m)) }
{
    let (machine, _) = read_machine(alloc, text.as_bytes())?;
    Ok(Arc::new(alloc, machine)?)
}

/// The sample machine.
fn tiny(alloc: Global) -> Result<Arc<Machine>, Fail>
    ensures { IfOk result (λ m. IsMachine (arc_value m)) }
{
    machine_of(alloc, TINY)
}

#[test]
fn lines_count_sample_units(rt: HostRuntime) -> Result<(), Fail> {
    let alloc = rt.alloc();
    for (seed, units, line) in LINES {
        let found = summary(alloc, tiny(alloc)?, seed, units.min(10000))?;
        assert_eq!(rt;
            found.as_slice(),
            line.as_bytes(),
            "{} units of seed {}",
            units,
            seed
        );
    }
    Ok(())
}

/// How many instructions a code has.
fn instructions(code: &UnitCode) -> u64 {
    let mut count = 0u64;
    for block in &code.code.blocks {
        count = count.saturating_add(block.instrs.len() as u64);
    }
    count
}

/// How many instructions the naive code of a unit has, and what all passes make of it.
fn counted<L: Ledger>(
    alloc: Global,
    machine: &Machine,
    seed: u32,
    k: u32,
    steps: &mut Steps<L>,
) -> Result<(u64, u64), Fail>
    requires { IsMachine machine.now }
{
    let unit = sample_unit(alloc, seed, k)?;
    let naive = expand(alloc, &unit)?;
    let before = instructions(&naive);
    let slowed = slow_unit(alloc, machine, naive, steps)?;
    Ok((before, instructions(&slowed)))
}

/// The counts of three units, one by one.
fn of_three<L: Ledger>(alloc: Global, ledger: Blank) -> Result<(u64, u64), Fail>
    requires name { ledger.name ≡ L.name }
    requires parts { ledger.parts ≡ L.parts }
    requires some { 0 < ledger.parts }
{
    let machine = tiny(alloc)?;
    let mut steps = Steps::<L>::new(ledger);
    let mut before = 0u64;
    let mut after = 0u64;
    for k in 0..3 {
        let (naive, slowed) = counted(alloc, &machine, 7, k, &mut steps)?;
        before = before.saturating_add(naive);
        after = after.saturating_add(slowed);
    }
    Ok((before, after))
}

#[test]
fn a_line_has_the_counts_of_its_units(rt: HostRuntime) -> Result<(), Fail> {
    let counts = of_three::<Brand>(rt.alloc(), Blank::new(1))?;
    assert_eq!(rt; counts, (161, 124));
    Ok(())
}

#[test]
fn a_line_is_made_again(rt: HostRuntime) -> Result<(), Fail> {
    let alloc = rt.alloc();
    let first = summary(alloc, tiny(alloc)?, 1, 2000)?;
    let second = summary(alloc, tiny(alloc)?, 1, 2000)?;
    assert_eq!(rt; first.as_slice(), second.as_slice());
    Ok(())
}
