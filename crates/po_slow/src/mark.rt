//! The marks of the pairs that stayed (docs/OPTIMISER.md, "Marks").
ghost use Rattle.std.specs.Prelude.{ℕ, ◌≡◌, true, not, if◌then◌else◌, length, get_or, Some, None, slice_set, IsTrue};
ghost use Rattle.std.specs.Prelude.{IfSome, IfOk, OnOk, ◌++◌, ◌∷◌, []};
ghost use Rattle.std.specs.List.{list_all};
ghost use Rattle.po_term.specs.Moves.{move_of, instr_of};
ghost use Rattle.po_live.specs.Parts.{live_in};
ghost use Rattle.po_live.specs.Sets.{has_reg};
ghost use Rattle.po_slow.specs.Marks.{is_target, are_targets, marks_at, Fits};

use po_live::LiveAt;
use po_model::Block;
use po_term::{Instr, Reg, Transfer};
use po_word::OutOfMemory;
use std::alloc::Global;

/// What is live of the targets of a pair: of each of the two instructions all of its registers or none, and `cc`.
#[derive(Clone, Copy, Debug, PartialEq, Eq)]
pub struct Mark {
    first: bool,
    second: bool,
    cc: bool,
}

fn is_register(r: Reg, live: LiveAt, is: bool) -> bool
    ensures { result ≡ (if is then has_reg live.entry.regs.now r else not (has_reg live.entry.regs.now r)) }
{
    if is { live.has(r) } else { !live.has(r) }
}

/// Whether the register that the transfer sets is live, or isn't.
fn is_target(t: &Transfer, live: LiveAt, is: bool) -> bool
    ensures { result ≡ is_target (live_in live.entry) is (move_of t.now) }
{
    match t {
        Transfer::Set(r, _) => is_register(*r, live, is),
        Transfer::Cc(_, _) => true,
        Transfer::Store(_, _) => true,
        Transfer::Goto(_) => true,
        Transfer::If(_, _, _) => true,
        Transfer::Call(_, _) => true,
        Transfer::Ret => true,
    }
}

fn all_targets(xs: &[Transfer], live: LiveAt, are: bool) -> bool
    ensures { result ≡ list_all (λ t. is_target (live_in live.entry) are (move_of t)) xs.now }
{
    xs.iter().all(|t| is_target(t, live, are))
}

/// Whether all registers that the instruction sets are live, or none is.
fn are_targets(i: &Instr, live: LiveAt, are: bool) -> bool
    ensures { result ≡ are_targets (live_in live.entry) are (instr_of i.now) }
{
    all_targets(&i.xs, live, are)
}

/// Whether the registers that the instruction sets are live; None where only some are.
fn are_live(i: &Instr, live: LiveAt) -> Option<bool>
    ensures { IfSome result (λ are. are_targets (live_in live.entry) are (instr_of i.now) ≡ true) }
{
    if are_targets(i, live, true) {
        Some(true)
    } else if are_targets(i, live, false) {
        Some(false)
    } else {
        None
    }
}

/// The mark for the pair as it is; None where of one instruction's registers only some are live.
pub fn mark_of(a: &Instr, b: &Instr, live: LiveAt) -> Option<Mark>
    ensures { IfSome result (λ k. Fits k (live_in live.entry) (instr_of a.now) (instr_of b.now)) }
{
    let first = are_live(a, live)?;
    let second = are_live(b, live)?;
    Some(Mark {
        first,
        second,
        cc: live.cc,
    })
}

/// Whether what stands somewhere is this mark.
fn has_mark(stands: Option<Mark>, mark: Mark) -> bool
    ensures { IsTrue result → stands ≡ Some mark }
{
    match stands {
        Some(k) => k == mark,
        None => false,
    }
}

/// Whether this mark stands at the place.
pub fn is_marked(marks: &[Option<Mark>], i: usize, mark: Option<Mark>) -> bool
    ensures { IsTrue result → (k : Mark) × (mark ≡ Some k) × (get_or marks.now i None ≡ Some k) }
{
    match mark {
        Some(k) => i < marks.len() && has_mark(marks[i], k),
        None => false,
    }
}

/// Puts the mark, or none, at the place.
pub fn put(marks: &mut [Option<Mark>], i: usize, mark: Option<Mark>)
    ensures { marks.new ≡ slice_set marks.old i mark }
{
    if i < marks.len() {
        marks[i] = mark;
    }
}

/// No mark, beside each of these instructions.
fn none_beside(alloc: Global, n: usize) -> Result<Vec<Option<Mark>>, OutOfMemory>
    ensures { IfOk result (λ marks. (i : ℕ) → get_or marks.items i None ≡ None) }
{
    let none: Option<Mark> = None;
    let marks = vec![in alloc; none; n]?;
    Ok(marks)
}

fn push(marks: &mut Vec<Vec<Option<Mark>>>, more: Vec<Option<Mark>>) -> Result<(), OutOfMemory>
    ensures { OnOk result (marks.new.items ≡ marks.old.items ++ more ∷ []) }
{
    match marks.push(more) {
        Ok(()) => Ok(()),
        Err(_) => Err(OutOfMemory),
    }
}

/// No mark, beside each instruction of these blocks.
pub fn no_marks(alloc: Global, blocks: &[Block]) -> Result<Vec<Vec<Option<Mark>>>, OutOfMemory>
    ensures len { IfOk result (λ marks. length marks.items ≡ length blocks.now) }
    ensures none { IfOk result (λ marks. (b i : ℕ) → get_or (marks_at marks.items b) i None ≡ None) }
{
    let mut marks = Vec::with_capacity(alloc, blocks.len())?;
    for b in 0..blocks.len() {
        let none = none_beside(alloc, blocks[b].instrs.len())?;
        push(&mut marks, none)?;
    }
    Ok(marks)
}
