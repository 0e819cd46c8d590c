//! A worker's unit.
ghost use Rattle.std.specs.Prelude.{◌≡◌, ◌+◌, ◌∷◌, [], ◌++◌, length, map, All, IfOk, OnOk};
ghost use mathlib.Core.List.{IsPrefix};
ghost use Rattle.po_model.specs.Blocks.{code_of};
ghost use Rattle.po_model.specs.Machines.{IsMachine};
ghost use Rattle.po_model.specs.Scanned.{Finished};
ghost use Rattle.po_model.specs.UnitCodes.{unit_of, IsFormedCode};
ghost use Rattle.po_rule.specs.Posts.{RoseBy};
ghost use Rattle.po_slow.specs.Passes.{IsSlowedUnit};
ghost use Rattle.po_slow.specs.States.{scan_of, IsFormedState, IsFinished};
ghost use Rattle.po_crew.specs.Posted.{ArePosted};
ghost use Rattle.po_crew.specs.Units.{HasPassed, IsWorked, bare_count, misses_in, tries_in};

use crate::block::scan_block;
use crate::sent::{Sent, post_all};
use po_fore::BlockReport;
use po_model::{Machine, Steps, UnitCode};
use po_rule::{Door, Lookup, Post};
use po_slow::ScanState;
use po_word::{OutOfMemory, push};
use std::alloc::Global;
use std::sync::ledger::Ledger;

/// What a worker made of a unit (docs/LEARNING.md, "A worker's unit").
#[derive(Drop)]
pub struct Work {
    /// The unit that all passes made.
    pub unit: UnitCode,
    /// One report for each block that was scanned, over all passes, in order.
    pub reports: Vec<BlockReport>,
    /// How many blocks were scanned without rules, since the door refused.
    pub bare: u64,
    /// How many misses the post took.
    pub taken: u64,
    /// How many it dropped.
    pub dropped: u64,
}

/// What was reported and counted so far.
#[derive(Drop)]
pub struct Course {
    pub reports: Vec<BlockReport>,
    pub bare: u64,
    pub taken: u64,
    pub dropped: u64,
}

/// The sum. No unit comes to a sum that is too large: the reports of so many pairs have no memory.
fn added(count: u64, more: u64) -> Result<u64, OutOfMemory>
    ensures { IfOk result (λ sum. sum ≡ count + more) }
{
    match count.checked_add(more) {
        Some(sum) => Ok(sum),
        None => Err(OutOfMemory),
    }
}

fn push_report(reports: &mut Vec<BlockReport>, report: BlockReport) -> Result<(), OutOfMemory>
    ensures { OnOk result (reports.new.items ≡ reports.old.items ++ report ∷ []) }
{
    push(reports, report)
}

impl Course {
    /// No block yet.
    fn new(alloc: Global) -> Course
        ensures reports { result.reports.items ≡ [] }
        ensures bare { result.bare ≡ 0 }
        ensures taken { result.taken ≡ 0 }
        ensures dropped { result.dropped ≡ 0 }
    {
        Course {
            reports: Vec::new(alloc),
            bare: 0,
            taken: 0,
            dropped: 0,
        }
    }

    /// One block more, whose misses were sent.
    fn add(&mut self, report: BlockReport, bare: bool, sent: Sent) -> Result<(), OutOfMemory>
        ensures reports { OnOk result (self.new.reports.items ≡ self.old.reports.items ++ report ∷ []) }
        ensures bare { OnOk result (self.new.bare ≡ self.old.bare + bare_count bare) }
        ensures taken { OnOk result (self.new.taken ≡ self.old.taken + sent.taken) }
        ensures dropped { OnOk result (self.new.dropped ≡ self.old.dropped + sent.dropped) }
    {
        self.bare = added(self.bare, u64::from(bare))?;
        self.taken = added(self.taken, sent.taken)?;
        self.dropped = added(self.dropped, sent.dropped)?;
        push_report(&mut self.reports, report)
    }
}

/// Scans a block, posts its misses, and goes on to the next one.
fn work_block<D: Door + Drop, E: Lookup, P: Post, L: Ledger>(
    alloc: Global,
    m: &Machine,
    door: D,
    empty: &E,
    post: &mut P,
    s: &mut ScanState,
    steps: &mut Steps<L>,
    course: &mut Course,
) -> Result<D, OutOfMemory>
    requires machine { IsMachine m.now }
    requires door { D.machine door ≡ m.now }
    requires empty { E.rules empty.now ≡ [] }
    requires formed { IsFormedState s.old }
    requires going { IsFinished (scan_of s.old) → ⊥ }
    ensures worked { OnOk result (IsWorked m.now (D.told door) (scan_of s.old) (scan_of s.new) course.old course.new
        steps.old steps.new (P.taken post.old) (P.taken post.new) (P.fulls post.old) (P.fulls post.new)) }
    ensures machine { IfOk result (λ d. D.machine d ≡ D.machine door) }
    ensures told { IfOk result (λ d. IsPrefix (D.told door) (D.told d)) }
    ensures refusals { IfOk result (λ d. (n : _) × (course.new.bare ≡ course.old.bare + n)
        × RoseBy n (D.refusals door) (D.refusals d)) }
    ensures home { IfOk result (λ d. D.home d ≡ D.home door) }
    ensures post_home { P.home post.new ≡ P.home post.old }
    ensures formed { IsFormedState s.new }
{
    let scanned = scan_block(alloc, m, door, empty, s, steps)?;
    s.next_block(alloc)?;
    let sent = post_all(alloc, post, &scanned.report.misses)?;
    course.add(scanned.report, scanned.bare, sent)?;
    Ok(scanned.door)
}

/// A worker's work on one unit (docs/LEARNING.md, "A worker's unit"): all passes over its code. The door is entered
/// once for each block; where it refuses, the block is scanned by `empty`, which has no rule. Then the block's misses
/// are posted one by one. Door and `empty` are for the machine. It fails only where memory is refused; then the door
/// is gone. It waits where the post or the door does.
pub fn work_unit<D: Door + Drop, E: Lookup, P: Post, L: Ledger>(
    alloc: Global,
    m: &Machine,
    door: D,
    empty: &E,
    post: &mut P,
    u: UnitCode,
    steps: &mut Steps<L>,
) -> Result<(Work, D), OutOfMemory>
    requires machine { IsMachine m.now }
    requires door { D.machine door ≡ m.now }
    requires empty_machine { E.machine empty.now ≡ m.now }
    requires empty { E.rules empty.now ≡ [] }
    requires code { IsFormedCode (code_of u.code) }
    ensures slowed { IfOk result (λ w. IsSlowedUnit m.now (unit_of u) (unit_of w.0.unit)
        (tries_in w.0.reports.items)) }
    ensures reports { IfOk result (λ w. HasPassed m.now (D.told door) (code_of u.code)
        (Finished (code_of w.0.unit.code)) w.0.reports.items w.0.bare) }
    ensures ticks { IfOk result (λ w. steps.new ≡ steps.old + length (misses_in w.0.reports.items)) }
    ensures posted { IfOk result (λ w. ArePosted (misses_in w.0.reports.items) (P.taken post.old) (P.taken post.new)
        (P.fulls post.old) (P.fulls post.new) w.0.taken w.0.dropped) }
    ensures post_home { P.home post.new ≡ P.home post.old }
    ensures machine { IfOk result (λ w. D.machine w.1 ≡ D.machine door) }
    ensures told { IfOk result (λ w. IsPrefix (D.told door) (D.told w.1)) }
    ensures refusals { IfOk result (λ w. RoseBy w.0.bare (D.refusals door) (D.refusals w.1)) }
    ensures home { IfOk result (λ w. D.home w.1 ≡ D.home door) }
{
    let UnitCode {
        name,
        labels,
        syms,
        code,
    } = u;
    let mut s = ScanState::new(alloc, code)?;
    let mut door = door;
    let mut course = Course::new(alloc);
    'scan: while !s.is_finished() {
        door = work_block(alloc, m, door, empty, post, &mut s, steps, &mut course)?;
    }
    let unit = UnitCode {
        name,
        labels,
        syms,
        code: s.code(),
    };
    Ok((finished(unit, course), door))
}

/// The unit that was made, with what was reported and counted.
fn finished(unit: UnitCode, course: Course) -> Work
    ensures { result
        ≡ record {
          unit = unit;
          reports = course.reports;
          bare = course.bare;
          taken = course.taken;
          dropped = course.dropped;
        } }
{
    Work {
        unit,
        reports: course.reports,
        bare: course.bare,
        taken: course.taken,
        dropped: course.dropped,
    }
}
