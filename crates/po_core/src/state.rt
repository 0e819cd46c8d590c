//! The state of the core, and its events.
ghost use Rattle.std.specs.Prelude.{◌≡◌, map, All, IfOk, IfErr, OnOk, OnErr};
ghost use Rattle.std.specs.Arc.{arc_value};
ghost use Rattle.po_model.specs.Holed.{rule_of};
ghost use Rattle.po_model.specs.Machines.{IsMachine};
ghost use Rattle.po_model.specs.UnitCodes.{IsFormedCode};
ghost use Rattle.po_core.specs.Went.{Went, Did};
ghost use Rattle.po_core.specs.Events.{Begin, Try, End, Post, Drop, Take, Learn, Publish, IsAllowed, Does};
ghost use Rattle.po_core.specs.Parts.{HasParts, HoldsFormed, IsNewCore, BringsCanonical};
ghost use Rattle.po_core.specs.Views.{core_of, event_of, codes_of, IsFormedCore, Refuses};

use crate::ended::end_at;
use crate::event::{Event, StepRefusal};
use crate::fore::{Fore, begin_at, take_dropped_at, take_posted_at};
use crate::fresh::{new_fores, new_learners};
use crate::queue::push_room;
use crate::rules::{add_rule, holds};
use crate::tried::try_at;
use po_model::{Code, Machine, Pair, Rule};
use po_rule::Learned;
use po_word::OutOfMemory;
use std::alloc::Global;
use std::collections::VecDeque;
use std::sync::Arc;

/// Foregrounds that scan codes, and learners, over one list of rules and one queue (docs/LEARNING.md, "Every list of
/// events"). Contracts see it as plain data, by `core_of`.
///
/// The first `published` rules are published, and the others are pending.
#[derive(Drop)]
pub struct Core {
    machine: Arc<Machine>,
    rules: Vec<Arc<Rule>>,
    published: usize,
    queue: VecDeque<Pair>,
    room: usize,
    fores: Vec<Fore>,
    held: Vec<Option<Pair>>,
}

impl Core {
    /// A core without rules: a foreground for each of these lists of codes, so many learners, and an empty queue with
    /// room for so many pairs (docs/LEARNING.md, "Every list of events"); or want of memory. The machine is one that a
    /// description may tell of; the codes' instructions are well formed, and a control transfer stands only in the
    /// last one of a block.
    pub fn new(
        alloc: Global,
        machine: Arc<Machine>,
        units: Vec<Vec<Code>>,
        learners: usize,
        room: usize,
    ) -> Result<Core, OutOfMemory>
        requires machine { IsMachine (arc_value machine) }
        requires codes { All (All IsFormedCode) (map codes_of units.items) }
        ensures is_new { IfOk result (λ c.
            IsNewCore (arc_value machine) (map codes_of units.items) learners room (core_of c)) }
        ensures formed { IfOk result IsFormedCore }
        ensures parts { IfOk result (λ c. HasParts (core_of c)) }
    {
        let core = Core::before_events(alloc, machine, units, learners, room)?;
        Ok(core)
    }

    fn before_events(
        alloc: Global,
        machine: Arc<Machine>,
        units: Vec<Vec<Code>>,
        learners: usize,
        room: usize,
    ) -> Result<Core, OutOfMemory>
        requires { All (All IsFormedCode) (map codes_of units.items) }
        ensures is_new { IfOk result (λ c.
            IsNewCore (arc_value machine) (map codes_of units.items) learners room (core_of c)) }
        ensures formed { IfOk result IsFormedCore }
    {
        let fores = new_fores(alloc, units)?;
        let held = new_learners(alloc, learners)?;
        Ok(Core {
            machine,
            rules: Vec::new(alloc),
            published: 0,
            queue: VecDeque::new(alloc),
            room,
            fores,
            held,
        })
    }

    fn begin(&mut self, fore: usize, shown: usize) -> bool
        requires formed { IsFormedCore self.old }
        ensures went { Did result (IsAllowed (core_of self.old) (Begin fore shown))
            (Does (core_of self.old) (Begin fore shown) (core_of self.new))
            (core_of self.new ≡ core_of self.old) }
        ensures formed { IsFormedCore self.new }
    {
        begin_at(&mut self.fores, fore, self.published, shown)
    }

    fn try_one(&mut self, alloc: Global, fore: usize) -> Result<bool, OutOfMemory>
        requires formed { IsFormedCore self.old }
        requires parts { HasParts (core_of self.old) }
        ensures went { Went result (IsAllowed (core_of self.old) (Try fore))
            (Does (core_of self.old) (Try fore) (core_of self.new))
            (core_of self.new ≡ core_of self.old) }
        ensures formed { IsFormedCore self.new }
    {
        try_at(
            alloc,
            &self.machine,
            &self.rules[..self.published],
            &mut self.fores,
            fore,
        )
    }

    fn end_one(&mut self, alloc: Global, fore: usize) -> Result<bool, OutOfMemory>
        requires formed { IsFormedCore self.old }
        requires parts { HasParts (core_of self.old) }
        ensures went { Went result (IsAllowed (core_of self.old) (End fore))
            (Does (core_of self.old) (End fore) (core_of self.new))
            (core_of self.new ≡ core_of self.old) }
        ensures formed { IsFormedCore self.new }
    {
        end_at(alloc, &mut self.fores, fore)
    }

    fn post(&mut self, fore: usize) -> Result<bool, OutOfMemory>
        requires formed { IsFormedCore self.old }
        ensures went { Went result (IsAllowed (core_of self.old) (Post fore))
            (Does (core_of self.old) (Post fore) (core_of self.new))
            (core_of self.new ≡ core_of self.old) }
        ensures formed { IsFormedCore self.new }
    {
        if self.queue.len() >= self.room {
            return Ok(false);
        }
        self.queue.reserve(1)?;
        match take_posted_at(&mut self.fores, fore) {
            Some(p) => {
                push_room(&mut self.queue, p);
                Ok(true)
            }
            None => Ok(false),
        }
    }

    fn drop_one(&mut self, fore: usize) -> bool
        requires formed { IsFormedCore self.old }
        ensures went { Did result (IsAllowed (core_of self.old) (Drop fore))
            (Does (core_of self.old) (Drop fore) (core_of self.new))
            (core_of self.new ≡ core_of self.old) }
        ensures formed { IsFormedCore self.new }
    {
        if self.queue.len() < self.room {
            return false;
        }
        match take_dropped_at(&mut self.fores, fore) {
            Some(_) => true,
            None => false,
        }
    }

    fn take(&mut self, learner: usize) -> bool
        requires formed { IsFormedCore self.old }
        ensures went { Did result (IsAllowed (core_of self.old) (Take learner))
            (Does (core_of self.old) (Take learner) (core_of self.new))
            (core_of self.new ≡ core_of self.old) }
        ensures formed { IsFormedCore self.new }
    {
        if learner >= self.held.len() {
            return false;
        }
        if self.held[learner].is_some() {
            return false;
        }
        let Some(p) = self.queue.pop_front() else {
            return false;
        };
        self.held[learner] = Some(p);
        true
    }

    fn learn(&mut self, alloc: Global, learner: usize, l: &Learned) -> Result<bool, OutOfMemory>
        requires formed { IsFormedCore self.old }
        requires held { All HoldsFormed (core_of self.old).held }
        ensures went { Went result (IsAllowed (core_of self.old) (Learn learner l.now.0 (rule_of l.now.1)))
            (Does (core_of self.old) (Learn learner l.now.0 (rule_of l.now.1)) (core_of self.new))
            (core_of self.new ≡ core_of self.old) }
        ensures formed { IsFormedCore self.new }
        ensures canonical { BringsCanonical (Learn learner l.now.0 (rule_of l.now.1)) }
    {
        let rule = l.rule();
        if learner >= self.held.len() {
            return Ok(false);
        }
        if !holds(alloc, &self.held[learner], rule)? {
            return Ok(false);
        }
        if !add_rule(alloc, &self.machine, &mut self.rules, l)? {
            return Ok(false);
        }
        self.held[learner] = None;
        Ok(true)
    }

    fn publish(&mut self)
        ensures does { Does (core_of self.old) Publish (core_of self.new) }
        ensures formed { IsFormedCore self.old → IsFormedCore self.new }
    {
        self.published = self.rules.len();
    }

    /// Makes the event; false where it isn't allowed.
    fn make(&mut self, alloc: Global, e: &Event) -> Result<bool, OutOfMemory>
        requires formed { IsFormedCore self.old }
        requires parts { HasParts (core_of self.old) }
        ensures went { Went result (IsAllowed (core_of self.old) (event_of e.now))
            (Does (core_of self.old) (event_of e.now) (core_of self.new))
            (core_of self.new ≡ core_of self.old) }
        ensures formed { IsFormedCore self.new }
        ensures canonical { BringsCanonical (event_of e.now) }
    {
        match e {
            Event::Begin { fore, shown } => Ok(self.begin(*fore, *shown)),
            Event::Try { fore } => self.try_one(alloc, *fore),
            Event::End { fore } => self.end_one(alloc, *fore),
            Event::Post { fore } => self.post(*fore),
            Event::Drop { fore } => Ok(self.drop_one(*fore)),
            Event::Take { learner } => Ok(self.take(*learner)),
            Event::Learn { learner, learned } => self.learn(alloc, *learner, learned),
            Event::Publish => {
                self.publish();
                Ok(true)
            }
        }
    }

    /// Makes the event (docs/LEARNING.md, "The events"). Where it isn't allowed it comes back, and nothing changes;
    /// nor does anything where memory is wanting.
    pub fn step(&mut self, alloc: Global, e: Event) -> Result<(), StepRefusal>
        requires formed { IsFormedCore self.old }
        requires parts { HasParts (core_of self.old) }
        ensures allowed { OnOk result (IsAllowed (core_of self.old) (event_of e)) }
        ensures does { OnOk result (Does (core_of self.old) (event_of e) (core_of self.new)) }
        ensures refused { IfErr result (Refuses (core_of self.old) e) }
        ensures unchanged { OnErr result (core_of self.new ≡ core_of self.old) }
        ensures formed { IsFormedCore self.new }
        ensures kept { HasParts (core_of self.new) }
        ensures canonical { BringsCanonical (event_of e) }
    {
        match self.make(alloc, &e) {
            Ok(true) => Ok(()),
            Ok(false) => Err(StepRefusal::NotAllowed(e)),
            Err(_) => Err(StepRefusal::OutOfMemory),
        }
    }
}
