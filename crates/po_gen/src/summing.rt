//! The line that counts. Units are made and let go one by one: what grows with them is the table of rules alone.
ghost use Rattle.std.specs.Prelude.{◌≡◌, ◌<◌, ◌≤◌, ◌++◌, IfOk, OnOk};
ghost use Rattle.std.specs.Arc.{arc_value};
ghost use Rattle.std.specs.Fmt.{decimal};
ghost use Rattle.po_model.specs.Machines.{IsMachine};
ghost use Rattle.po_gen.specs.Summary.{IsCounts, IsSummary, line};

use crate::tally::{Tally, count_unit};
use itoa::Buffer;
use po_model::{Machine, Steps};
use po_sample::sample_unit;
use po_table::RuleTable;
use po_word::OutOfMemory;
use std::alloc::Global;
use std::marker::Brand;
use std::sync::Arc;
use std::sync::ledger::{Blank, Ledger};

/// What the line tells of sample units.
#[derive(Clone, Copy)]
struct Counts {
    tally: Tally,
    /// How many rules their pairs have.
    rules: u64,
}

/// What the line tells of the first `units` sample units of a seed.
fn count<L: Ledger>(
    alloc: Global,
    machine: Arc<Machine>,
    seed: u32,
    units: u32,
    ledger: Blank,
) -> Result<Counts, OutOfMemory>
    requires machine { IsMachine (arc_value machine) }
    requires units { units ≤ 10000 }
    requires name { ledger.name ≡ L.name }
    requires parts { ledger.parts ≡ L.parts }
    requires some { 0 < ledger.parts }
    ensures { IfOk result (λ c. IsCounts (arc_value machine) seed units c.tally.before c.tally.after c.rules) }
{
    let mut steps = Steps::<L>::new(ledger);
    let mut table = RuleTable::new(alloc, machine)?;
    let mut tally = Tally {
        before: 0,
        after: 0,
    };
    for k in 0..units {
        let unit = sample_unit(alloc, seed, k)?;
        tally = count_unit(alloc, &mut table, &unit, tally, &mut steps)?;
    }
    Ok(Counts {
        tally,
        rules: table.len() as u64,
    })
}

/// Puts a text and a number behind what there is.
fn push_number(out: &mut Vec<u8>, front: &[u8], n: u64) -> Result<(), OutOfMemory>
    ensures { OnOk result (out.new.items ≡ out.old.items ++ front.now ++ decimal n) }
{
    out.extend_from_slice(front)?;
    out.extend_from_slice(Buffer::new().format(n).as_bytes())?;
    Ok(())
}

/// The line of these counts.
fn write_line(alloc: Global, units: u32, counts: Counts) -> Result<Vec<u8>, OutOfMemory>
    ensures { IfOk result (λ out. out.items ≡ line units counts.tally.before counts.tally.after counts.rules) }
{
    let mut out = Vec::new(alloc);
    push_number(&mut out, b"units ", u64::from(units))?;
    push_number(&mut out, b" before ", counts.tally.before)?;
    push_number(&mut out, b" after ", counts.tally.after)?;
    push_number(&mut out, b" rules ", counts.rules)?;
    out.extend_from_slice(b"\n")?;
    Ok(out)
}

/// The line of the first `units` sample units of a seed on a machine (docs/STACK.md, "Sample units"): how many
/// instructions they have before and after all passes, and how many rules the pairs have that are tried. There are at
/// most 10,000 units. It fails only where memory is refused.
pub fn summary(
    alloc: Global,
    machine: Arc<Machine>,
    seed: u32,
    units: u32,
) -> Result<Vec<u8>, OutOfMemory>
    requires machine { IsMachine (arc_value machine) }
    requires units { units ≤ 10000 }
    ensures { IfOk result (λ out. IsSummary (arc_value machine) seed units out.items) }
{
    let counts = count::<Brand>(alloc, machine, seed, units, Blank::new(1))?;
    write_line(alloc, units, counts)
}
