//! Which block may follow which. Labels are looked up in a table that is made once.
ghost use Rattle.std.specs.Prelude.{◌≡◌, ◌++◌, ◌∷◌, [], ◌==◌, ◌<◌, ℕ, suc, OnOk, IfOk, IfSome, not, true, false, ◌||◌};
ghost use Rattle.std.specs.Prelude.{◌&&◌, map, length, nat_lt, if◌then◌else◌};
ghost use Rattle.std.specs.Ordering.{nat_cmp};
ghost use Rattle.std.specs.BTreeMap.{get};
ghost use Rattle.po_term.specs.declared.term.Label.{Label as Mark};
ghost use Rattle.po_term.specs.Moves.{moves_of, instrs_of};
ghost use Rattle.po_model.specs.Blocks.{block_of, block_ending, block_with, target_by, goes_on, has_label, is_at};
ghost use Rattle.po_model.specs.Blocks.{leads};
ghost use Rattle.po_live.specs.Flow.{exit_by, pred_at, exit_target, exit_next, exit_leads};
ghost use Rattle.po_model.specs.Parts.{ending_of};

use po_model::Block;
use po_term::{Cond, Instr, Label, Transfer};
use po_word::OutOfMemory;
use std::alloc::Global;
use std::collections::BTreeMap;

/// Where control goes behind a block.
#[derive(Clone, Copy, Debug, PartialEq, Eq)]
enum Exit {
    /// To the next block.
    Next,
    /// To this label's block.
    Goto(Label),
    /// To this label's block or the next.
    Branch(Label),
    /// Out of the unit.
    Leave,
}

/// Where an instruction leads.
fn instr_exit(xs: &[Transfer]) -> Exit
    ensures { result ≡ exit_by (ending_of (moves_of xs.now)) }
{
    match xs {
        [] => Exit::Next,
        [x, rest @ ..] => match x {
            Transfer::Set(_, _) => instr_exit(rest),
            Transfer::Cc(_, _) => instr_exit(rest),
            Transfer::Store(_, _) => instr_exit(rest),
            Transfer::Goto(l) => Exit::Goto(*l),
            Transfer::If(_, _, l) => Exit::Branch(*l),
            Transfer::Call(_, _) => Exit::Next,
            Transfer::Ret => Exit::Leave,
        },
    }
}

/// Where a block leads: by its last instruction.
fn block_exit(xs: &[Instr]) -> Exit
    ensures { result ≡ exit_by (block_ending (instrs_of xs.now)) }
{
    match xs {
        [] => Exit::Next,
        [.., last] => instr_exit(&last.xs),
    }
}

/// The blocks of labels, by the labels' numbers.
type Labels = BTreeMap<u32, usize>;

fn put(first: &mut Labels, number: u32, b: usize) -> Result<(), OutOfMemory>
    ensures { OnOk result
        ((k : ℕ) → get nat_cmp first.new k ≡ (if k == number then Some b else get nat_cmp first.old k)) }
{
    match first.insert(number, b) {
        Ok(_) => Ok(()),
        Err(_) => Err(OutOfMemory),
    }
}

fn put_label(first: &mut Labels, label: Option<Label>, b: usize) -> Result<(), OutOfMemory>
    ensures { OnOk result
        ((l : Mark) → get nat_cmp first.new l.0 ≡ (if has_label l label then Some b else get nat_cmp first.old l.0)) }
{
    match label {
        Some(l) => put(first, l.0, b),
        None => Ok(()),
    }
}

/// The first block of each label.
fn labels(alloc: Global, blocks: &[Block]) -> Result<Labels, OutOfMemory>
    ensures table { IfOk result
        (λ first. (l : Mark) → get nat_cmp first l.0 ≡ block_with (map block_of blocks.now) l) }
    ensures below { IfOk result (λ first. (k q : ℕ) → get nat_cmp first k ≡ Some q → q < length blocks.now) }
{
    let mut first = BTreeMap::new(alloc);
    let mut b = blocks.len();
    while b > 0 {
        b -= 1;
        put_label(&mut first, blocks[b].label, b)?;
    }
    Ok(first)
}

/// The block of an exit's label, where it has one that is there.
fn target(first: &Labels, exit: Exit) -> Option<usize>
    ensures { result ≡ exit_target first.now exit }
{
    match exit {
        Exit::Goto(l) => first.get(&l.0).copied(),
        Exit::Branch(l) => first.get(&l.0).copied(),
        Exit::Next => None,
        Exit::Leave => None,
    }
}

/// The block behind b, of n blocks, where it may follow and is there.
fn next(exit: Exit, b: usize, n: usize) -> Option<usize>
    requires { b < n }
    ensures { result ≡ exit_next exit b n }
{
    if b + 1 < n && matches!(exit, Exit::Next | Exit::Branch(_)) {
        Some(b + 1)
    } else {
        None
    }
}

fn push_index(list: &mut Vec<usize>, b: usize) -> Result<(), OutOfMemory>
    ensures { OnOk result (list.new.items ≡ list.old.items ++ b ∷ []) }
{
    match list.push(b) {
        Ok(()) => Ok(()),
        Err(_) => Err(OutOfMemory),
    }
}

fn push_at(preds: &mut [Vec<usize>], q: usize, p: usize) -> Result<(), OutOfMemory>
    requires { q < length preds.old }
    ensures { OnOk result ((a b : ℕ) → pred_at preds.new a b ≡ ((q == a && p == b) || pred_at preds.old a b)) }
{
    push_index(&mut preds[q], p)
}

fn add_pred(preds: &mut [Vec<usize>], q: Option<usize>, p: usize) -> Result<(), OutOfMemory>
    requires { IfSome q (λ q. q < length preds.old) }
    ensures { OnOk result ((a b : ℕ) → pred_at preds.new a b ≡ ((is_at a q && p == b) || pred_at preds.old a b)) }
{
    match q {
        Some(q) => push_at(preds, q, p),
        None => Ok(()),
    }
}

fn push_list(preds: &mut Vec<Vec<usize>>, list: Vec<usize>) -> Result<(), OutOfMemory>
    ensures { OnOk result (preds.new.items ≡ preds.old.items ++ list ∷ []) }
{
    match preds.push(list) {
        Ok(()) => Ok(()),
        Err(_) => Err(OutOfMemory),
    }
}

/// n empty lists.
fn empty_lists(alloc: Global, n: usize) -> Result<Vec<Vec<usize>>, OutOfMemory>
    ensures len { IfOk result (λ preds. length preds.items ≡ n) }
    ensures empty { IfOk result (λ preds. (q p : ℕ) → pred_at preds.items q p ≡ false) }
{
    let mut preds = Vec::new(alloc);
    for made in 0..n {
        push_list(&mut preds, Vec::new(alloc))?;
    }
    Ok(preds)
}

/// Writes the block b into the lists of the blocks that may follow it.
fn add_edges(
    preds: &mut [Vec<usize>],
    first: &Labels,
    block: &Block,
    b: usize,
) -> Result<(), OutOfMemory>
    requires here { b < length preds.old }
    requires below { (k q : ℕ) → get nat_cmp first.now k ≡ Some q → q < length preds.old }
    ensures { OnOk result ((q p : ℕ) → pred_at preds.new q p
        ≡ ((exit_leads first.now (length preds.old) (exit_by (block_ending (instrs_of block.now.instrs.items))) b q
        && b == p) || pred_at preds.old q p)) }
{
    let exit = block_exit(&block.instrs);
    let n = preds.len();
    add_pred(preds, target(first, exit), b)?;
    add_pred(preds, next(exit, b, n), b)
}

/// For each block those that it may follow.
pub fn predecessors(alloc: Global, blocks: &[Block]) -> Result<Vec<Vec<usize>>, OutOfMemory>
    ensures len { IfOk result (λ preds. length preds.items ≡ length blocks.now) }
    ensures leads { IfOk result (λ preds.
        (q p : ℕ) → pred_at preds.items q p ≡ (nat_lt p (length blocks.now) && leads (map block_of blocks.now) p q)) }
{
    let first = labels(alloc, blocks)?;
    let mut preds = empty_lists(alloc, blocks.len())?;
    for b in 0..blocks.len() {
        add_edges(&mut preds, &first, &blocks[b], b)?;
    }
    Ok(preds)
}
