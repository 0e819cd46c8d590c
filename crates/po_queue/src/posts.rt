//! The queue.
ghost use Rattle.std.specs.Prelude.{◌≡◌, ℕ, ◌+◌, ◌<◌, ◌≤◌, true, [], All, length, IfOk, IfErr, OnOk, IfSome, IfNone};
ghost use Rattle.std.specs.List.{sum_by};
ghost use Rattle.po_queue.specs.Passes.{PassView, new_pass, after_put, after_full, after_take};
ghost use Rattle.po_queue.specs.Passes.{HeldAt, Conserves, IsOf, put_count};
ghost use Rattle.po_queue.specs.Gathered.{Gathered};

use crate::count::Count;
use crate::pass::{Line, Pass};
use crate::refusal::{Full, OutOfMemory};
use std::alloc::Global;
use std::marker::Model;
use std::sync::Wait;

/// A queue of items, which threads share. Contracts see which it is, its capacity, and the number of its passes
/// (docs/LEARNING.md, "The queue").
#[derive(Drop)]
pub struct Posts<T> {
    line: Line<T>,
    count: Count,
    /// It has the parts that no pass was opened with.
    keeper: Pass<T>,
    passes: u8,
}

impl<T> Model for Posts<T> {
    ghost use Rattle.std.specs.Prelude.{◌≡◌, ◌+◌, [], false};
    ghost use Rattle.crossbeam_queue.specs.Passes.{ruled_capacity};
    ghost use Rattle.po_queue.specs.Balance.{all_parts};
    ghost use Rattle.po_queue.specs.Passes.{PostsView};

    ghost Value = { PostsView };

    ghost view = { λ q. record { queue = q.keeper.queue; passes = q.passes } };

    ghost invariant = { λ q. (q.line.table.shared.table_id ≡ q.keeper.queue.line)
        × (q.count.table.shared.table_id ≡ q.keeper.queue.count)
        × (ruled_capacity q.line ≡ q.keeper.queue.capacity)
        × (q.keeper.parts + q.passes ≡ all_parts)
        × (q.keeper.puts ≡ [])
        × (q.keeper.takes ≡ [])
        × (q.keeper.met_full ≡ false) };
}

/// An empty queue that may hold so many items, and its passes, each with one part. It fails only where memory is
/// refused (docs/LEARNING.md, "The queue").
pub fn open<T: Drop>(
    alloc: Global,
    capacity: usize,
    passes: u8,
) -> Result<(Posts<T>, Vec<Pass<T>>), OutOfMemory>
    requires { 0 < capacity }
    ensures passes { IfOk result (λ q. (q.0.passes ≡ passes) × (length q.1.items ≡ passes)) }
    ensures new { IfOk result (λ q. All (λ p. p ≡ new_pass q.0.queue) q.1.items) }
    ensures capacity { IfOk result (λ q. q.0.queue.capacity ≡ capacity) }
{
    let mut all = Vec::new(alloc);
    all.reserve(usize::from(passes))?;
    let (line, account) = Line::ruled(alloc, capacity)?;
    let (count, tally) = Count::ruled(alloc, [0])?;
    let mut keeper = Pass::first(account, tally, capacity);
    for _ in 0..passes {
        all.push_reserved(keeper.cut(&line, &count));
    }
    let posts = Posts {
        line,
        count,
        keeper,
        passes,
    };
    Ok((posts, all))
}

impl<T> Posts<T> {
    /// Puts the item at the queue's back. It comes back only where the queue held its capacity at a moment of this
    /// call; the pass then has met a full queue. It may wait (docs/LEARNING.md, "The queue").
    pub fn offer<R: Wait>(&self, rt: &R, pass: &mut Pass<T>, item: T) -> Result<(), Full<T>>
        requires { pass.old.queue ≡ self.now.queue }
        ensures put { OnOk result (pass.new ≡ after_put pass.old item) }
        ensures full { IfErr result
            (λ e. (e.0 ≡ item) × (pass.new ≡ after_full pass.old) × HeldAt self.now.queue.capacity pass.old) }
    {
        match pass.offer(rt, &self.line, &self.count, item) {
            Ok(()) => Ok(()),
            Err(item) => Err(Full(item)),
        }
    }

    /// Takes the item at the queue's front. It is `None` only where the queue was empty at a moment of this call. It
    /// may wait (docs/LEARNING.md, "The queue").
    pub fn take<R: Wait>(&self, rt: &R, pass: &mut Pass<T>) -> Option<T>
        requires { pass.old.queue ≡ self.now.queue }
        ensures taken { IfSome result (λ x. pass.new ≡ after_take pass.old x) }
        ensures empty { IfNone result ((pass.new ≡ pass.old) × HeldAt 0 pass.old) }
    {
        pass.take(rt, &self.line)
    }
}

impl<T: Drop> Posts<T> {
    /// What is left, front first. It needs all passes of the queue: with them it is known that each item that was put
    /// was taken or is left, as often, and how much was put where a pass has met a full queue. Queue and passes come
    /// back as they were where memory is refused. It may wait (docs/LEARNING.md, "The queue").
    pub fn drain<R: Wait>(
        self,
        alloc: Global,
        rt: &R,
        passes: Vec<Pass<T>>,
    ) -> Result<Vec<T>, (Posts<T>, Vec<Pass<T>>)>
        requires queue { All (IsOf self.queue) passes.items }
        requires all { sum_by (λ p. p.parts) passes.items ≡ self.passes }
        ensures conserves { IfOk result (λ left. Conserves passes.items left.items) }
        ensures capacity { IfOk result (λ left. length left.items ≤ self.queue.capacity) }
        ensures full { IfOk result
            (λ _. All (λ p. p.met_full ≡ true → self.queue.capacity ≤ put_count passes.items) passes.items) }
        ensures err { IfErr result (λ b. (b.0 ≡ self) × (b.1.items ≡ passes.items)) }
    {
        let mut left = Vec::new(alloc);
        if left.reserve(self.keeper.capacity()).is_err() {
            return Err((self, passes));
        }
        let Posts {
            line,
            count,
            keeper,
            passes: _,
        } = self;
        let mut keeper = gather(&line, &count, keeper, passes);
        keeper.audit(rt, &count);
        let held = keeper.len(rt, &line);
        for _ in 0..held {
            match keeper.take(rt, &line) {
                Some(x) => left.push_reserved(x),
                None => return Ok(left),
            }
        }
        keeper.len(rt, &line);
        Ok(left)
    }
}

/// The pass that the queue kept, when it has taken in all others.
fn gather<T: Drop>(
    line: &Line<T>,
    count: &Count,
    mut keeper: Pass<T>,
    passes: Vec<Pass<T>>,
) -> Pass<T>
    requires line { line.now.table.shared.table_id ≡ keeper.queue.line }
    requires count { count.now.table.shared.table_id ≡ keeper.queue.count }
    requires same { All (IsOf keeper.queue) passes.items }
    requires empty { (keeper.puts ≡ []) × (keeper.takes ≡ []) }
    ensures { Gathered keeper result passes.items }
{
    for pass in passes {
        keeper.absorb(line, count, pass);
    }
    keeper
}
