//! Lists of events, each beside whether it is allowed.
ghost use Rattle.std.specs.Prelude.{◌≡◌, ◌<◌, IfOk};
ghost use Rattle.std.specs.Arc.{arc_value};
ghost use Rattle.po_model.specs.Blocks.{code_of};
ghost use Rattle.po_model.specs.Machines.{IsMachine};
ghost use Rattle.po_model.specs.UnitCodes.{IsFormedCode};
ghost use Rattle.po_core.specs.Parts.{HasParts};
ghost use Rattle.po_core.specs.Views.{core_of, IsFormedCore};

use self::What::{Begin, Drop, End, Learn, LearnElsewhere, Post, Publish, Take, Try};
use crate::setting::{code, core, learned, machine};
use po_core::{Core, Event, StepRefusal};
use po_mdread::TINY;
use po_model::{Code, Machine, Steps};
use std::alloc::Global;
use std::marker::Brand;
use std::sync::Arc;
use std::sync::ledger::{Blank, Ledger};
use std::test::Fail;

/// An event. `Learn(i, k)` is that the learner i has learned the rule of the pair that is tried after k others;
/// `LearnElsewhere` says so of that rule on another machine.
#[derive(Clone, Copy)]
enum What {
    Begin(usize, usize),
    Try(usize),
    End(usize),
    Post(usize),
    Drop(usize),
    Take(usize),
    Learn(usize, usize),
    LearnElsewhere(usize, usize),
    Publish,
}

/// So many times an event, and whether it is allowed each time.
type Row = (usize, What, bool);

/// Two passes try 11 and 5 pairs. No two of the first eleven have one rule.
const UNIT: &str = "unit f\nadl 4\nadl 4\nlod\ncon 1\nadd\nsto\ncon 0\nret\nend\n";

const ELSEWHERE: &str = "\
machine elsewhere\n\
frame fp\n\
result rv\n\
args a0 a1 a2 a3\n\
regs r0 r1\n\
insn %0 := (%1 + %2) => add %0,%1,%2\n\
end\n";

/// One foreground, no learner, room for one pair.
const ALONE: [Row; 30] = [
    // no snapshot
    (1, Try(0), false),
    (1, End(0), false),
    // nothing is published
    (1, Begin(0, 1), false),
    // no such foreground
    (1, Begin(1, 0), false),
    (1, Begin(0, 0), true),
    // it has a snapshot
    (1, Begin(0, 0), false),
    // a pair stands ready
    (1, End(0), false),
    (11, Try(0), true),
    // none does at the end of the block
    (1, Try(0), false),
    // it has a snapshot
    (1, Post(0), false),
    (1, Drop(0), false),
    (1, End(0), true),
    // it has unposted misses
    (1, Begin(0, 0), false),
    // the queue has room
    (1, Drop(0), false),
    (1, Post(0), true),
    // the queue is full
    (1, Post(0), false),
    (10, Drop(0), true),
    // nothing is unposted
    (1, Drop(0), false),
    // nobody learns
    (1, Take(0), false),
    (1, Learn(0, 0), false),
    // nothing is pending
    (1, Publish, true),
    (1, Begin(0, 1), false),
    // the second pass, which changes nothing
    (1, Begin(0, 0), true),
    (5, Try(0), true),
    (1, Try(0), false),
    (1, End(0), true),
    (5, Drop(0), true),
    // the code is finished, and there is no other
    (1, Begin(0, 0), false),
    (1, Try(0), false),
    (1, End(0), false),
];

/// Two foregrounds with one code each, one learner, room for two pairs.
const TOGETHER: [Row; 43] = [
    // the queue is empty
    (1, Take(0), false),
    (1, Begin(0, 0), true),
    (11, Try(0), true),
    (1, End(0), true),
    (2, Post(0), true),
    (1, Post(0), false),
    // it holds nothing
    (1, Learn(0, 0), false),
    (1, Take(0), true),
    // it holds a pair
    (1, Take(0), false),
    // there is no such learner
    (1, Take(1), false),
    // the rule of another pair, and that of this pair on another machine
    (1, Learn(0, 1), false),
    (1, LearnElsewhere(0, 0), false),
    (1, Learn(0, 0), true),
    (1, Learn(0, 0), false),
    // the rule is pending
    (1, Begin(1, 1), false),
    (1, Publish, true),
    (1, Begin(1, 2), false),
    (1, Begin(1, 1), true),
    // the first pair is a hit, and the ten others are misses
    (11, Try(1), true),
    (1, Try(1), false),
    (1, End(1), true),
    (1, Post(1), true),
    (1, Post(1), false),
    (9, Drop(1), true),
    (1, Drop(1), false),
    // the second pair, by both foregrounds: its rule is pending once
    (1, Take(0), true),
    (1, Learn(0, 1), true),
    (1, Take(0), true),
    (1, Learn(0, 1), true),
    (1, Take(0), false),
    (1, Publish, true),
    (1, Begin(1, 3), false),
    (1, Begin(1, 2), true),
    (1, Try(1), true),
    // a snapshot is of one foreground
    (1, Try(0), false),
    (2, Post(0), true),
    (1, Post(0), false),
    (7, Drop(0), true),
    (1, Drop(0), false),
    (2, Publish, true),
    (4, Try(1), true),
    (1, Try(1), false),
    (1, End(1), true),
];

/// The machine and the code of all foregrounds, and another machine.
#[derive(Drop)]
struct Setting {
    machine: Arc<Machine>,
    code: Code,
    elsewhere: Arc<Machine>,
}

fn on_tiny(alloc: Global) -> Result<Setting, Fail>
    ensures machine { IfOk result (λ s. IsMachine (arc_value s.machine)) }
    ensures code { IfOk result (λ s. IsFormedCode (code_of s.code)) }
    ensures elsewhere { IfOk result (λ s. IsMachine (arc_value s.elsewhere)) }
{
    Ok(Setting {
        machine: machine(alloc, TINY)?,
        code: code(alloc, TINY, UNIT)?,
        elsewhere: machine(alloc, ELSEWHERE)?,
    })
}

fn event<L: Ledger>(
    alloc: Global,
    s: &Setting,
    what: What,
    steps: &mut Steps<L>,
) -> Result<Event, Fail>
    requires machine { IsMachine (arc_value s.now.machine) }
    requires code { IsFormedCode (code_of s.now.code) }
    requires elsewhere { IsMachine (arc_value s.now.elsewhere) }
{
    match what {
        Begin(fore, shown) => Ok(Event::Begin { fore, shown }),
        Try(fore) => Ok(Event::Try { fore }),
        End(fore) => Ok(Event::End { fore }),
        Post(fore) => Ok(Event::Post { fore }),
        Drop(fore) => Ok(Event::Drop { fore }),
        Take(learner) => Ok(Event::Take { learner }),
        Learn(learner, before) => {
            let learned = learned(alloc, &s.machine, &s.machine, &s.code, before, steps)?;
            Ok(Event::Learn { learner, learned })
        }
        LearnElsewhere(learner, before) => {
            let learned = learned(alloc, &s.elsewhere, &s.machine, &s.code, before, steps)?;
            Ok(Event::Learn { learner, learned })
        }
        Publish => Ok(Event::Publish),
    }
}

/// Whether the event is allowed. It is made then.
fn is_made(alloc: Global, core: &mut Core, e: Event) -> Result<bool, Fail>
    requires formed { IsFormedCore core.old }
    requires parts { HasParts (core_of core.old) }
    ensures formed { IsFormedCore core.new }
    ensures parts { HasParts (core_of core.new) }
{
    match core.step(alloc, e) {
        Ok(()) => Ok(true),
        Err(StepRefusal::NotAllowed(_)) => Ok(false),
        Err(StepRefusal::OutOfMemory) => Err(Fail::from("out of memory")),
    }
}

/// Whether the event of the row is allowed as often as it says.
fn goes<L: Ledger>(
    alloc: Global,
    s: &Setting,
    core: &mut Core,
    row: Row,
    steps: &mut Steps<L>,
) -> Result<bool, Fail>
    requires machine { IsMachine (arc_value s.now.machine) }
    requires code { IsFormedCode (code_of s.now.code) }
    requires elsewhere { IsMachine (arc_value s.now.elsewhere) }
    requires formed { IsFormedCore core.old }
    requires parts { HasParts (core_of core.old) }
    ensures formed { IsFormedCore core.new }
    ensures parts { HasParts (core_of core.new) }
{
    let (times, what, allowed) = row;
    for _ in 0..times {
        let e = event(alloc, s, what, steps)?;
        if is_made(alloc, core, e)? != allowed {
            return Ok(false);
        }
    }
    Ok(true)
}

/// Whether each row goes as it says.
fn played<L: Ledger>(
    alloc: Global,
    s: &Setting,
    core: &mut Core,
    rows: &[Row],
    ledger: Blank,
) -> Result<bool, Fail>
    requires machine { IsMachine (arc_value s.now.machine) }
    requires code { IsFormedCode (code_of s.now.code) }
    requires elsewhere { IsMachine (arc_value s.now.elsewhere) }
    requires formed { IsFormedCore core.old }
    requires having { HasParts (core_of core.old) }
    requires name { ledger.name ≡ L.name }
    requires parts { ledger.parts ≡ L.parts }
    requires some { 0 < ledger.parts }
{
    let mut steps = Steps::<L>::new(ledger);
    for row in rows {
        if !goes(alloc, s, core, *row, &mut steps)? {
            return Ok(false);
        }
    }
    Ok(true)
}

#[test]
fn alone(rt: HostRuntime) -> Result<(), Fail> {
    let alloc = rt.alloc();
    let s = on_tiny(alloc)?;
    let mut core = core(alloc, &s.machine, &s.code, 1, 0, 1)?;
    assert!(rt; played::<Brand>(alloc, &s, &mut core, &ALONE, Blank::new(1))?);
    Ok(())
}

#[test]
fn together(rt: HostRuntime) -> Result<(), Fail> {
    let alloc = rt.alloc();
    let s = on_tiny(alloc)?;
    let mut core = core(alloc, &s.machine, &s.code, 2, 1, 2)?;
    assert!(rt; played::<Brand>(alloc, &s, &mut core, &TOGETHER, Blank::new(1))?);
    Ok(())
}
