//! A block of a code.
ghost use Rattle.std.specs.Prelude.{◌≡◌, IfOk};
ghost use Rattle.po_model.specs.Lookups.{AreCanonical};
ghost use Rattle.po_model.specs.Machines.{IsMachine};
ghost use Rattle.po_slow.specs.States.{scan_of, IsFormedState, IsFinished};
ghost use Rattle.po_fore.specs.Reports.{IsBlockDone, HasGoneBy};

use crate::report::BlockReport;
use crate::tries::step;
use po_model::{Machine, Steps};
use po_rule::Lookup;
use po_slow::ScanState;
use po_word::OutOfMemory;
use std::alloc::Global;
use std::sync::ledger::Ledger;

/// Goes to the end of the block at which a scan stands, as slow combination does (docs/RULES.md, "A block by rules"):
/// by a rule for each pair that is an instance of one, and by slow combination for each other one, for which a step is
/// counted. It fails only where memory is refused; then the scan stands after the first so many tries of the block,
/// none or all of them among the possibilities. It waits for nobody.
pub fn compile_block<R: Lookup, L: Ledger>(
    alloc: Global,
    m: &Machine,
    rules: &R,
    s: &mut ScanState,
    steps: &mut Steps<L>,
) -> Result<BlockReport, OutOfMemory>
    requires machine { IsMachine m.now }
    requires canonical { AreCanonical m.now (R.rules rules.now) }
    requires formed { IsFormedState s.old }
    requires going { IsFinished (scan_of s.old) → ⊥ }
    ensures done { IfOk result
        (IsBlockDone m.now (R.rules rules.now) (scan_of s.old) (scan_of s.new) steps.old steps.new) }
    ensures goes { HasGoneBy m.now (R.rules rules.now) (scan_of s.old) (scan_of s.new) }
    ensures formed { IsFormedState s.new }
{
    let mut report = BlockReport {
        used: Vec::new(alloc),
        misses: Vec::new(alloc),
        tried: 0,
    };
    'tries: while step(alloc, m, rules, s, steps, &mut report)? {}
    report.tried = report.used.len() as u64 + report.misses.len() as u64;
    Ok(report)
}
