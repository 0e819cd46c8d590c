//! What a thread holds to use the queue, and each step that it makes under the two rules.
ghost use Rattle.std.specs.Prelude.{◌≡◌, ◌+◌, ◌^◌, ◌<◌, ◌≤◌, true, false, ◌||◌, [], ◌∷◌, ◌++◌, length, List};
ghost use Rattle.std.specs.Prelude.{MatchResult, MatchOption, MatchBool};
ghost use Rattle.crossbeam_queue.specs.Passes.{view, ruled_capacity};
ghost use Rattle.crossbeam_utils.specs.Seq.{cell_view};
ghost use Rattle.po_queue.specs.Balance.{account as account_of, all_parts};
ghost use Rattle.po_queue.specs.Count.{Seen, tally_of};
ghost use Rattle.po_queue.specs.Passes.{PassView, QueueId, fresh_pass, new_pass, after_put, after_full, after_take};
ghost use Rattle.po_queue.specs.Passes.{HeldAt};
ghost use Rattle.po_queue.specs.Gathered.{after_cut, merged};

use crate::balance::{self, Account, Balance, Puts, Takes};
use crate::count::{self, Audits, Count, Sees, Tally, Tells, Whole};
use crossbeam_queue::RuledArrayQueue;
use std::marker::Model;
use std::sync::Wait;
use std::thread;

/// The queue under its rule.
pub type Line<T> = RuledArrayQueue<T, Account<T>, Balance>;

type Teller = crossbeam_utils::atomic::seq_cell::Pass<[u64; 1], Tally>;

/// A pass of one queue, which one thread holds. Contracts see its queue, its parts, what it has put and taken, and
/// whether it has met a full queue (docs/LEARNING.md, "The queue").
#[derive(Drop)]
pub struct Pass<T> {
    account: crossbeam_queue::Pass<T, Account<T>>,
    tally: Teller,
    capacity: usize,
    met_full: bool,
}

impl<T> Model for Pass<T> {
    ghost use Rattle.std.specs.Prelude.{◌≡◌, ◌<◌, ◌≤◌, true, [], length};
    ghost use Rattle.po_queue.specs.Passes.{PassView};

    ghost Value = { PassView T };

    ghost view = { λ p. record {
      queue = record { line = p.account.table_id; count = p.tally.table_id; capacity = p.capacity };
      parts = p.account.me.0.client.parts;
      puts = p.account.me.0.client.put;
      takes = p.account.me.0.client.taken;
      met_full = p.met_full;
    } };

    ghost invariant = { λ p. (p.account.me.1 ≡ [])
        × (0 < p.account.me.0.client.parts)
        × (p.tally.me.0.client.parts ≡ p.account.me.0.client.parts)
        × (p.tally.me.0.client.told ≡ length p.account.me.0.client.put)
        × (p.met_full ≡ true → p.capacity ≤ p.tally.me.0.client.seen) };
}

impl<T> Pass<T> {
    pub(crate) fn offer<R: Wait>(
        &mut self,
        rt: &R,
        line: &Line<T>,
        count: &Count,
        item: T,
    ) -> Result<(), T>
        requires line { line.now.table.shared.table_id ≡ self.old.queue.line }
        requires count { count.now.table.shared.table_id ≡ self.old.queue.count }
        requires capacity { ruled_capacity line.now ≡ self.old.queue.capacity }
        ensures { MatchResult result (λ _. self.new ≡ after_put self.old item)
            (λ x. (x ≡ item) × (self.new ≡ after_full self.old) × HeldAt self.old.queue.capacity self.old) }
    {
        match line.push_as::<Puts, R>(rt, &mut self.account, item) {
            Ok(()) => {
                tell(rt, count, &mut self.tally);
                Ok(())
            }
            Err(item) => {
                see(rt, count, &mut self.tally, self.capacity);
                self.met_full = true;
                Err(item)
            }
        }
    }

    pub(crate) fn take<R: Wait>(&mut self, rt: &R, line: &Line<T>) -> Option<T>
        requires line { line.now.table.shared.table_id ≡ self.old.queue.line }
        ensures { MatchOption result
            ((self.new ≡ self.old) × HeldAt 0 self.old)
            (λ x. self.new ≡ after_take self.old x) }
    {
        line.pop_as::<Takes, R>(rt, &mut self.account)
    }

    /// How many items the queue holds.
    pub(crate) fn len<R: Wait>(&mut self, rt: &R, line: &Line<T>) -> usize
        requires line { line.now.table.shared.table_id ≡ self.old.queue.line }
        requires capacity { ruled_capacity line.now ≡ self.old.queue.capacity }
        ensures same { self.new ≡ self.old }
        ensures capacity { result ≤ self.old.queue.capacity }
        ensures held { HeldAt result self.old }
    {
        line.len_as::<Takes, R>(rt, &mut self.account)
    }

    /// With every part, a pass that has met a full queue knows how many items were put.
    pub(crate) fn audit<R: Wait>(&mut self, rt: &R, count: &Count)
        requires count { count.now.table.shared.table_id ≡ self.old.queue.count }
        requires whole { self.old.parts ≡ all_parts }
        ensures same { self.new ≡ self.old }
        ensures full { self.old.met_full ≡ true → self.old.queue.capacity ≤ length self.old.puts }
    {
        count.load_as::<Audits, R>(rt, &mut self.tally);
    }

    /// The first pass, with every part.
    pub(crate) fn first(
        account: crossbeam_queue::Pass<T, Account<T>>,
        tally: Teller,
        capacity: usize,
    ) -> Pass<T>
        requires account { (account.me.1 ≡ []) × (view account ≡ account_of all_parts [] []) }
        requires tally { cell_view tally ≡ tally_of all_parts 0 0 }
        ensures { result ≡ fresh_pass
            (record { line = account.table_id; count = tally.table_id; capacity = capacity }) all_parts }
    {
        Pass {
            account,
            tally,
            capacity,
            met_full: false,
        }
    }

    /// Cuts off a pass with one part, which has put and taken nothing.
    pub(crate) fn cut(&mut self, line: &Line<T>, count: &Count) -> Pass<T>
        requires line { line.now.table.shared.table_id ≡ self.old.queue.line }
        requires count { count.now.table.shared.table_id ≡ self.old.queue.count }
        requires many { 1 < self.old.parts }
        ensures given { result ≡ new_pass self.old.queue }
        ensures kept { self.new ≡ after_cut self.old }
    {
        let account = line.another::<balance::Cut>(&mut self.account);
        let tally = count.split_pass::<count::Cut>(&mut self.tally);
        Pass {
            account,
            tally,
            capacity: self.capacity,
            met_full: false,
        }
    }

    /// How many items the queue may hold.
    pub(crate) fn capacity(&self) -> usize
        ensures { result ≡ self.now.queue.capacity }
    {
        self.capacity
    }

    /// Takes in another pass of the queue.
    pub(crate) fn absorb(&mut self, line: &Line<T>, count: &Count, other: Pass<T>)
        requires line { line.now.table.shared.table_id ≡ self.old.queue.line }
        requires count { count.now.table.shared.table_id ≡ self.old.queue.count }
        requires same { other.queue ≡ self.old.queue }
        ensures { self.new ≡ merged self.old other }
    {
        let Pass {
            account,
            mut tally,
            capacity: _,
            met_full,
        } = other;
        line.absorb::<balance::Cut>(&mut self.account, account);
        let whole = count.split_pass::<Whole>(&mut tally);
        count.join_pass::<Whole>(&mut self.tally, whole);
        self.met_full = self.met_full || met_full;
    }
}

/// What the count is, which is no less than what was seen before.
fn look<R: Wait>(rt: &R, count: &Count, tally: &mut Teller) -> u64
    requires cell { tally.old.table_id ≡ count.now.table.shared.table_id }
    requires some { 0 < (cell_view tally.old).parts }
    ensures cell { tally.new.table_id ≡ tally.old.table_id }
    ensures rule { Seen (cell_view tally.old) (result ∷ []) (result ∷ []) (cell_view tally.new) }
{
    count.load_as::<Sees, R>(rt, tally)[0]
}

/// Adds 1 to the count, unless another pass came between.
fn step<R: Wait>(rt: &R, count: &Count, tally: &mut Teller, seen: u64) -> bool
    requires cell { tally.old.table_id ≡ count.now.table.shared.table_id }
    requires some { 0 < (cell_view tally.old).parts }
    requires fits { seen + 1 < 2 ^ 64 }
    ensures cell { tally.new.table_id ≡ tally.old.table_id }
    ensures rule { MatchBool result
        (cell_view tally.new
        ≡ tally_of (cell_view tally.old).parts ((cell_view tally.old).told + 1) (cell_view tally.old).seen)
        (cell_view tally.new ≡ cell_view tally.old) }
{
    match count.compare_exchange_as::<Tells, R>(rt, tally, [seen], [seen + 1]) {
        Ok(_) => true,
        Err(_) => false,
    }
}

/// Adds 1 to the count.
fn tell<R: Wait>(rt: &R, count: &Count, tally: &mut Teller)
    requires cell { tally.old.table_id ≡ count.now.table.shared.table_id }
    requires some { 0 < (cell_view tally.old).parts }
    ensures cell { tally.new.table_id ≡ tally.old.table_id }
    ensures told { (cell_view tally.new).told ≡ (cell_view tally.old).told + 1 }
    ensures parts { (cell_view tally.new).parts ≡ (cell_view tally.old).parts }
    ensures seen { (cell_view tally.old).seen ≤ (cell_view tally.new).seen }
{
    for _ in rt.forever() {
        let seen = look(rt, count, tally);
        if seen < u64::MAX && step(rt, count, tally, seen) {
            return;
        }
    }
}

/// Waits until the count has come to the capacity. Whoever put an item adds it to the count a moment later.
fn see<R: Wait>(rt: &R, count: &Count, tally: &mut Teller, capacity: usize)
    requires cell { tally.old.table_id ≡ count.now.table.shared.table_id }
    requires some { 0 < (cell_view tally.old).parts }
    ensures cell { tally.new.table_id ≡ tally.old.table_id }
    ensures told { (cell_view tally.new).told ≡ (cell_view tally.old).told }
    ensures parts { (cell_view tally.new).parts ≡ (cell_view tally.old).parts }
    ensures seen { capacity ≤ (cell_view tally.new).seen }
{
    for _ in rt.forever() {
        if look(rt, count, tally) >= capacity as u64 {
            return;
        }
        thread::yield_now();
    }
}
