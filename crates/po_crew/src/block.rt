//! One block of a scan, by the rules behind the door, or by none where the door refuses.
ghost use Rattle.std.specs.Prelude.{◌≡◌, [], true, false, IfOk};
ghost use mathlib.Core.List.{IsPrefix};
ghost use Rattle.po_model.specs.Lookups.{AreCanonical};
ghost use Rattle.po_model.specs.Machines.{IsMachine};
ghost use Rattle.po_rule.specs.Posts.{RoseBy};
ghost use Rattle.po_slow.specs.States.{scan_of, IsFormedState, IsFinished};
ghost use Rattle.po_fore.specs.Reports.{IsBlockDone};
ghost use Rattle.po_crew.specs.Units.{IsScanned, bare_count};

use po_fore::{BlockReport, compile_block};
use po_model::{Machine, Steps};
use po_rule::{Door, Lookup};
use po_slow::ScanState;
use po_word::OutOfMemory;
use std::alloc::Global;
use std::sync::ledger::Ledger;

/// What a block gave: its report, whether the door refused, and the door again.
#[derive(Drop)]
pub struct Scanned<D: Door + Drop> {
    pub report: BlockReport,
    pub bare: bool,
    pub door: D,
}

/// Scans a block by the rules inside, and goes out again.
fn scan_inside<D: Door + Drop, L: Ledger>(
    alloc: Global,
    m: &Machine,
    inside: D::Inside,
    s: &mut ScanState,
    steps: &mut Steps<L>,
) -> Result<Scanned<D>, OutOfMemory>
    requires machine { IsMachine m.now }
    requires canonical { AreCanonical m.now (D.Inside.rules inside) }
    requires formed { IsFormedState s.old }
    requires going { IsFinished (scan_of s.old) → ⊥ }
    ensures done { IfOk result (λ r. IsBlockDone m.now (D.Inside.rules inside) (scan_of s.old) (scan_of s.new)
        steps.old steps.new r.report) }
    ensures bare { IfOk result (λ r. r.bare ≡ false) }
    ensures machine { IfOk result (λ r. D.machine r.door ≡ D.Inside.machine inside) }
    ensures told { IfOk result (λ r. D.told r.door ≡ D.inside_told inside) }
    ensures refusals { IfOk result (λ r. D.refusals r.door ≡ D.inside_refusals inside) }
    ensures home { IfOk result (λ r. D.home r.door ≡ D.inside_home inside) }
    ensures formed { IsFormedState s.new }
{
    let report = compile_block(alloc, m, &inside, s, steps);
    let door = D::leave(inside);
    Ok(Scanned {
        report: report?,
        bare: false,
        door,
    })
}

/// Scans a block by a list without a rule.
fn scan_bare<D: Door + Drop, E: Lookup, L: Ledger>(
    alloc: Global,
    m: &Machine,
    door: D,
    empty: &E,
    s: &mut ScanState,
    steps: &mut Steps<L>,
) -> Result<Scanned<D>, OutOfMemory>
    requires machine { IsMachine m.now }
    requires empty { E.rules empty.now ≡ [] }
    requires formed { IsFormedState s.old }
    requires going { IsFinished (scan_of s.old) → ⊥ }
    ensures done { IfOk result (λ r. IsBlockDone m.now (E.rules empty.now) (scan_of s.old) (scan_of s.new)
        steps.old steps.new r.report) }
    ensures bare { IfOk result (λ r. r.bare ≡ true) }
    ensures door { IfOk result (λ r. r.door ≡ door) }
    ensures formed { IsFormedState s.new }
{
    let report = compile_block(alloc, m, empty, s, steps)?;
    Ok(Scanned {
        report,
        bare: true,
        door,
    })
}

/// Scans a block. The door is entered once, and it is bare where the door refuses.
pub fn scan_block<D: Door + Drop, E: Lookup, L: Ledger>(
    alloc: Global,
    m: &Machine,
    door: D,
    empty: &E,
    s: &mut ScanState,
    steps: &mut Steps<L>,
) -> Result<Scanned<D>, OutOfMemory>
    requires machine { IsMachine m.now }
    requires door { D.machine door ≡ m.now }
    requires empty { E.rules empty.now ≡ [] }
    requires formed { IsFormedState s.old }
    requires going { IsFinished (scan_of s.old) → ⊥ }
    ensures scanned { IfOk result (λ r. IsScanned m.now (D.told door) r.bare (scan_of s.old) (scan_of s.new)
        steps.old steps.new r.report) }
    ensures machine { IfOk result (λ r. D.machine r.door ≡ D.machine door) }
    ensures told { IfOk result (λ r. IsPrefix (D.told door) (D.told r.door)) }
    ensures refusals { IfOk result (λ r. RoseBy (bare_count r.bare) (D.refusals door) (D.refusals r.door)) }
    ensures home { IfOk result (λ r. D.home r.door ≡ D.home door) }
    ensures formed { IsFormedState s.new }
{
    match door.enter() {
        Ok(inside) => {
            let scanned = scan_inside::<D, L>(alloc, m, inside, s, steps)?;
            Ok(scanned)
        }
        Err(door) => {
            let scanned = scan_bare(alloc, m, door, empty, s, steps)?;
            Ok(scanned)
        }
    }
}
