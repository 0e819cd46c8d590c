//! Where the scan of a block stands. The block is scanned in place: its first instructions are those that are done,
//! its last ones those that are to come, and what lies between them is left over.
ghost use Rattle.std.specs.Prelude.{ℕ, ◌≡◌, ◌<◌, ◌≤◌, ◌+◌, ◌-◌, ◌^◌, Bool, true, false, length, slice_set};
ghost use Rattle.std.specs.Prelude.{slice_index_or, get_or, [], None};
ghost use Rattle.po_term.specs.Moves.{instr_of, instrs_of};
ghost use Rattle.po_model.specs.declared.var.Var.{Var as Variable};
ghost use Rattle.po_model.specs.declared.machine.Machine.{Machine};
ghost use Rattle.po_model.specs.Combined.{combination_of, Kept};
ghost use Rattle.po_live.specs.Parts.{tells, HasParts};
ghost use Rattle.po_model.specs.Scanned.{onward, settled};
ghost use Rattle.po_slow.specs.States.{stand_at, on, take_next};
ghost use Rattle.po_slow.specs.Marks.{Says, AreTrue};

use crate::live::is_dead;
use crate::mark::{Mark, put};
use po_live::LiveList;
use po_model::Outcome;
use po_term::Instr;
use std::alloc::Global;
use std::mem;

/// Where the scan of a block stands.
#[derive(Clone, Copy, Debug, PartialEq, Eq)]
pub struct Standing {
    /// How many of the block's instructions, its first ones, are done.
    pub done: usize,
    /// The index of the next instruction.
    pub next: usize,
    /// Whether the pass has dropped or combined anything.
    pub changed: bool,
}

/// How a scan stands.
#[derive(Clone, Copy, Debug, PartialEq, Eq)]
pub enum Stage {
    /// A pair is ready.
    Ready,
    /// The block is at its end.
    AtEnd,
    /// All blocks are passed.
    Over,
}

/// Takes an instruction out of the block, and leaves one without transfers there.
pub fn take_out(alloc: Global, xs: &mut [Instr], i: usize) -> Instr
    requires { i < length xs.old }
    ensures taken { result ≡ slice_index_or xs.old i result }
    ensures left { (x : Instr) × (xs.new ≡ slice_set xs.old i x) }
{
    mem::replace(
        &mut xs[i],
        Instr {
            xs: Vec::new(alloc),
        },
    )
}

/// The next instruction is dropped. Its neighbour has another one before it.
fn skip(marks: &mut [Option<Mark>], at: &mut Standing)
    requires { at.old.next + 1 < 2 ^ 64 }
    ensures at { at.new ≡ record { done = at.old.done; next = at.old.next + 1; changed = true } }
    ensures marks { marks.new ≡ slice_set marks.old (at.old.next + 1) None }
{
    let neighbour = at.next + 1;
    put(marks, neighbour, None);
    at.next = neighbour;
    at.changed = true;
}

/// Puts an instruction at a place further down, where it doesn't stand there.
fn move_down(alloc: Global, xs: &mut [Instr], from: usize, to: usize)
    requires order { to ≤ from }
    requires inside { from < length xs.old }
    ensures { (left x : Instr) × (x ≡ slice_index_or xs.old from x)
        × (xs.new ≡ slice_set (slice_set xs.old from left) to x) }
{
    if to < from {
        let x = take_out(alloc, xs, from);
        xs[to] = x;
    }
}

/// The next instruction is done, with this mark.
fn take(
    alloc: Global,
    xs: &mut [Instr],
    marks: &mut [Option<Mark>],
    at: &mut Standing,
    mark: Option<Mark>,
)
    requires order { at.old.done ≤ at.old.next }
    requires inside { at.old.next < length xs.old }
    ensures at { at.new ≡ record { done = at.old.done + 1; next = at.old.next + 1; changed = at.old.changed } }
    ensures stand { (live : ℕ → Variable → Bool)
        → stand_at (instrs_of xs.new) live at.new.done at.new.next at.new.changed
        ≡ on take_next (stand_at (instrs_of xs.old) live at.old.done at.old.next at.old.changed) }
    ensures marks { (m : Machine)
        → (0 < at.old.done → Says m (get_or (instrs_of xs.old) (at.old.done - 1) [])
        (get_or (instrs_of xs.old) at.old.next []) mark)
        → AreTrue m (instrs_of xs.old) marks.old at.old.done at.old.next
        → AreTrue m (instrs_of xs.new) marks.new at.new.done at.new.next }
{
    move_down(alloc, xs, at.next, at.done);
    put(marks, at.done, mark);
    at.done += 1;
    at.next += 1;
}

/// One step on to the next pair, or to the end of the block; false where there is none to take.
fn advance(
    alloc: Global,
    xs: &mut [Instr],
    marks: &mut [Option<Mark>],
    lives: &LiveList,
    b: usize,
    at: &mut Standing,
) -> bool
    requires order { at.old.done ≤ at.old.next }
    requires inside { at.old.next ≤ length xs.old }
    requires lives { HasParts lives.now b (length xs.old) }
    ensures onward { on onward (stand_at (instrs_of xs.new) (tells lives.now b) at.new.done at.new.next at.new.changed)
        ≡ on onward (stand_at (instrs_of xs.old) (tells lives.now b) at.old.done at.old.next at.old.changed) }
    ensures stays { result ≡ false
        → stand_at (instrs_of xs.new) (tells lives.now b) at.new.done at.new.next at.new.changed
        ≡ on onward (stand_at (instrs_of xs.new) (tells lives.now b) at.new.done at.new.next at.new.changed) }
    ensures steps { result ≡ true → at.new.next ≡ at.old.next + 1 }
    ensures order { at.new.done ≤ at.new.next }
    ensures inside { at.new.next ≤ length xs.new }
    ensures marks { (m : Machine) → AreTrue m (instrs_of xs.old) marks.old at.old.done at.old.next
        → AreTrue m (instrs_of xs.new) marks.new at.new.done at.new.next }
{
    if at.next >= xs.len() {
        false
    } else if is_dead(&xs[at.next], lives.at(b, at.next)) {
        skip(marks, at);
        true
    } else if at.done == 0 {
        take(alloc, xs, marks, at, None);
        true
    } else {
        false
    }
}

/// On to the next pair, or to the end of the block: dead instructions are dropped, and one with none before it is
/// done.
pub fn go_on(
    alloc: Global,
    xs: &mut [Instr],
    marks: &mut [Option<Mark>],
    lives: &LiveList,
    b: usize,
    at: &mut Standing,
)
    requires order { at.old.done ≤ at.old.next }
    requires inside { at.old.next ≤ length xs.old }
    requires lives { HasParts lives.now b (length xs.old) }
    ensures onward { stand_at (instrs_of xs.new) (tells lives.now b) at.new.done at.new.next at.new.changed
        ≡ on onward (stand_at (instrs_of xs.old) (tells lives.now b) at.old.done at.old.next at.old.changed) }
    ensures order { at.new.done ≤ at.new.next }
    ensures inside { at.new.next ≤ length xs.new }
    ensures marks { (m : Machine) → AreTrue m (instrs_of xs.old) marks.old at.old.done at.old.next
        → AreTrue m (instrs_of xs.new) marks.new at.new.done at.new.next }
{
    'going: while advance(alloc, xs, marks, lives, b, at) {}
}

/// Nothing is left of the pair that is ready.
fn drop_pair(marks: &mut [Option<Mark>], at: &mut Standing)
    requires some { 0 < at.old.done }
    requires small { at.old.next + 1 < 2 ^ 64 }
    ensures at { at.new ≡ record { done = at.old.done - 1; next = at.old.next + 1; changed = true } }
    ensures marks { marks.new ≡ slice_set marks.old (at.old.next + 1) None }
{
    *at = Standing {
        done: at.done - 1,
        next: at.next + 1,
        changed: true,
    };
    put(marks, at.next, None);
}

/// One instruction stands in the place of the pair that is ready, and is next.
fn replace_pair(xs: &mut [Instr], marks: &mut [Option<Mark>], at: &mut Standing, i: Instr)
    requires some { 0 < at.old.done }
    requires inside { at.old.next < length xs.old }
    ensures xs { xs.new ≡ slice_set xs.old at.old.next i }
    ensures at { at.new ≡ record { done = at.old.done - 1; next = at.old.next; changed = true } }
    ensures marks { marks.new ≡ slice_set (slice_set marks.old at.old.next None) (at.old.next + 1) None }
{
    xs[at.next] = i;
    put(marks, at.next, None);
    let behind = at.next + 1;
    put(marks, behind, None);
    at.done -= 1;
    at.changed = true;
}

/// The outcome stands in the place of the pair that is ready. Where the pair stays, it gets this mark.
fn place(
    alloc: Global,
    xs: &mut [Instr],
    marks: &mut [Option<Mark>],
    at: &mut Standing,
    o: Outcome,
    mark: Option<Mark>,
)
    requires some { 0 < at.old.done }
    requires order { at.old.done ≤ at.old.next }
    requires inside { at.old.next < length xs.old }
    ensures onward { (live : ℕ → Variable → Bool)
        → on onward (stand_at (instrs_of xs.new) live at.new.done at.new.next at.new.changed)
        ≡ on (settled (combination_of o)) (stand_at (instrs_of xs.old) live at.old.done at.old.next at.old.changed) }
    ensures order { at.new.done ≤ at.new.next }
    ensures inside { at.new.next ≤ length xs.new }
    ensures marks { (m : Machine)
        → (combination_of o ≡ Kept → Says m (get_or (instrs_of xs.old) (at.old.done - 1) [])
        (get_or (instrs_of xs.old) at.old.next []) mark)
        → AreTrue m (instrs_of xs.old) marks.old at.old.done at.old.next
        → AreTrue m (instrs_of xs.new) marks.new at.new.done at.new.next }
{
    match o {
        Outcome::Keep => take(alloc, xs, marks, at, mark),
        Outcome::Nothing => drop_pair(marks, at),
        Outcome::One(i) => replace_pair(xs, marks, at, i),
    }
}

/// On from the pair that is ready, by what becomes of it. Where it stays, it gets this mark.
pub fn settle(
    alloc: Global,
    xs: &mut [Instr],
    marks: &mut [Option<Mark>],
    lives: &LiveList,
    b: usize,
    at: &mut Standing,
    o: Outcome,
    mark: Option<Mark>,
)
    requires some { 0 < at.old.done }
    requires order { at.old.done ≤ at.old.next }
    requires inside { at.old.next < length xs.old }
    requires lives { HasParts lives.now b (length xs.old) }
    ensures settled { stand_at (instrs_of xs.new) (tells lives.now b) at.new.done at.new.next at.new.changed
        ≡ on (settled (combination_of o))
        (stand_at (instrs_of xs.old) (tells lives.now b) at.old.done at.old.next at.old.changed) }
    ensures order { at.new.done ≤ at.new.next }
    ensures inside { at.new.next ≤ length xs.new }
    ensures marks { (m : Machine)
        → (combination_of o ≡ Kept → Says m (get_or (instrs_of xs.old) (at.old.done - 1) [])
        (get_or (instrs_of xs.old) at.old.next []) mark)
        → AreTrue m (instrs_of xs.old) marks.old at.old.done at.old.next
        → AreTrue m (instrs_of xs.new) marks.new at.new.done at.new.next }
{
    place(alloc, xs, marks, at, o, mark);
    go_on(alloc, xs, marks, lives, b, at);
}
