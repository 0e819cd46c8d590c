//! The words of a pair's shape, and what stands at its holes, by one walk through the pair. No term is copied, and no
//! shape is made.
ghost use Rattle.std.specs.Prelude.{◌≡◌, ◌++◌, ◌∷◌, [], OnOk, IfOk, Some};
ghost use Rattle.std.specs.List.{position_or_len};
ghost use Rattle.po_term.specs.Simplified.{reg_eq};
ghost use Rattle.po_term.specs.Terms.{tree_of};
ghost use Rattle.po_term.specs.Moves.{move_of, moves_of, branch_of};
ghost use Rattle.po_model.specs.LiveSet.{is_live};
ghost use Rattle.po_model.specs.Pairs.{pair_of};
ghost use Rattle.po_model.specs.Holed.{values_of};
ghost use Rattle.po_model.specs.Shape.{meet_register, meet_symbol, meet_tree, meet_ending, meet_move, meet_moves};
ghost use Rattle.po_model.specs.Shape.{hole_register, hole_symbol, live_holes, settable, pair_values, pair_shape};
ghost use Rattle.po_skel.specs.Numbered.{numbered_tree, numbered_ending, numbered_move, numbered_moves};
ghost use Rattle.po_key.specs.ShapeWords.{register_words, tree_words, ending_words, move_words, moves_words};
ghost use Rattle.po_key.specs.ShapeWords.{registers_words, shape_words};

use crate::numbers::{bin_word, bit_word, rel_word, un_word};
use po_model::{Live, Pair, Values};
use po_skel::{SETTABLE, find, lives, nothing_met, place_register, place_symbol};
use po_term::{Cond, Label, Reg, Sym, Term, Transfer};
use po_word::{OutOfMemory, Rel, push};
use std::alloc::Global;

/// What a walk finds: the words of the pair's shape, and what stands at its holes (docs/RULES.md, "The words of a
/// shape").
#[derive(Drop)]
pub struct Walked {
    pub words: Vec<usize>,
    pub values: Values,
}

/// Two words.
fn push_two(out: &mut Vec<usize>, m: usize, n: usize) -> Result<(), OutOfMemory>
    ensures { OnOk result (out.new.items ≡ out.old.items ++ m ∷ n ∷ []) }
{
    push(out, m)?;
    push(out, n)
}

fn walk_register(v: &mut Values, out: &mut Vec<usize>, r: Reg) -> Result<(), OutOfMemory>
    ensures values { OnOk result (values_of v.new ≡ meet_register (values_of v.old) r) }
    ensures words { OnOk result (out.new.items
        ≡ out.old.items ++ register_words (hole_register (meet_register (values_of v.old) r) r)) }
{
    match r {
        Reg::Virt(n) => {
            let k = place_register(v, n)?;
            push_two(out, 5, k)
        }
        Reg::Fp => push(out, 7),
        Reg::Rv => push(out, 8),
        Reg::Arg(n) => push_two(out, 9, usize::from(n)),
    }
}

fn walk_term(v: &mut Values, out: &mut Vec<usize>, t: &Term) -> Result<(), OutOfMemory>
    ensures values { OnOk result (values_of v.new ≡ meet_tree (values_of v.old) (tree_of t.now)) }
    ensures words { OnOk result (out.new.items
        ≡ out.old.items ++ tree_words (numbered_tree (values_of v.old) (tree_of t.now))) }
{
    match t {
        Term::Num(c) => {
            let k = v.consts.len();
            push(&mut v.consts, *c)?;
            push_two(out, 0, k)
        }
        Term::Reg(r) => walk_register(v, out, *r),
        Term::Addr(s) => {
            let k = place_symbol(v, *s)?;
            push_two(out, 10, k)
        }
        Term::Mem(x) => {
            push(out, 11)?;
            walk_term(v, out, x)
        }
        Term::Un(op, x) => {
            push_two(out, 12, un_word(*op))?;
            walk_term(v, out, x)
        }
        Term::Bin(op, x, y) => {
            push_two(out, 13, bin_word(*op))?;
            walk_term(v, out, x)?;
            walk_term(v, out, y)
        }
    }
}

/// Two terms, one after the other.
fn walk_both(v: &mut Values, out: &mut Vec<usize>, x: &Term, y: &Term) -> Result<(), OutOfMemory>
    ensures values { OnOk result
        (values_of v.new ≡ meet_tree (meet_tree (values_of v.old) (tree_of x.now)) (tree_of y.now)) }
    ensures words { OnOk result (out.new.items
        ≡ out.old.items ++ (tree_words (numbered_tree (values_of v.old) (tree_of x.now))
        ++ tree_words (numbered_tree (meet_tree (values_of v.old) (tree_of x.now)) (tree_of y.now)))) }
{
    walk_term(v, out, x)?;
    walk_term(v, out, y)
}

/// The label that is met last stays.
fn meet_label(v: &mut Values, l: Label)
    ensures { values_of v.new ≡ record (values_of v.old) { label = Some l } }
{
    v.label = Some(l);
}

fn walk_branch(
    v: &mut Values,
    out: &mut Vec<usize>,
    cond: &Cond,
    rel: Rel,
    l: Label,
) -> Result<(), OutOfMemory>
    ensures values { OnOk result (values_of v.new ≡ meet_ending (values_of v.old) (branch_of cond.now rel l)) }
    ensures words { OnOk result (out.new.items
        ≡ out.old.items ++ ending_words (numbered_ending (values_of v.old) (branch_of cond.now rel l))) }
{
    match cond {
        Cond::Cc => {
            meet_label(v, l);
            push(out, 15)?;
            push_two(out, rel_word(rel), 0)
        }
        Cond::Two(x, y) => {
            push(out, 16)?;
            push_two(out, rel_word(rel), 0)?;
            walk_both(v, out, x, y)?;
            meet_label(v, l);
            Ok(())
        }
    }
}

fn walk_call(v: &mut Values, out: &mut Vec<usize>, s: Sym, n: u8) -> Result<(), OutOfMemory>
    ensures values { OnOk result (values_of v.new ≡ meet_symbol (values_of v.old) s) }
    ensures words { OnOk result (out.new.items
        ≡ out.old.items ++ 17 ∷ hole_symbol (meet_symbol (values_of v.old) s) s ∷ n ∷ []) }
{
    let k = place_symbol(v, s)?;
    push(out, 17)?;
    push_two(out, k, usize::from(n))
}

fn walk_transfer(v: &mut Values, out: &mut Vec<usize>, t: &Transfer) -> Result<(), OutOfMemory>
    ensures values { OnOk result (values_of v.new ≡ meet_move (values_of v.old) (move_of t.now)) }
    ensures words { OnOk result (out.new.items
        ≡ out.old.items ++ move_words (numbered_move (values_of v.old) (move_of t.now))) }
{
    match t {
        Transfer::Set(r, x) => {
            walk_register(v, out, *r)?;
            walk_term(v, out, x)
        }
        Transfer::Cc(x, y) => {
            push(out, 19)?;
            walk_both(v, out, x, y)
        }
        Transfer::Store(x, y) => {
            push(out, 20)?;
            walk_both(v, out, x, y)
        }
        Transfer::Goto(l) => {
            meet_label(v, *l);
            push_two(out, 14, 0)
        }
        Transfer::If(cond, rel, l) => walk_branch(v, out, cond, *rel, *l),
        Transfer::Call(s, n) => walk_call(v, out, *s, *n),
        Transfer::Ret => push(out, 18),
    }
}

/// The transfers of one instruction, and its end.
fn walk_transfers(v: &mut Values, out: &mut Vec<usize>, xs: &[Transfer]) -> Result<(), OutOfMemory>
    ensures values { OnOk result (values_of v.new ≡ meet_moves (values_of v.old) (moves_of xs.now)) }
    ensures words { OnOk result (out.new.items
        ≡ out.old.items ++ moves_words (numbered_moves (values_of v.old) (moves_of xs.now))) }
{
    for t in xs {
        walk_transfer(v, out, t)?;
    }
    push(out, 21)
}

/// The place of a register among those that were met, and their number where it isn't there.
fn place_of(regs: &[Reg], r: Reg) -> usize
    ensures { result ≡ position_or_len (reg_eq r) regs.now }
{
    match find(regs, r) {
        Some(k) => k,
        None => regs.len(),
    }
}

/// The hole of a register that was met, or the register itself where it isn't virtual.
fn write_register(v: &Values, out: &mut Vec<usize>, r: Reg) -> Result<(), OutOfMemory>
    ensures { OnOk result (out.new.items ≡ out.old.items ++ register_words (hole_register (values_of v.now) r)) }
{
    match r {
        Reg::Virt(_) => push_two(out, 5, place_of(&v.regs, r)),
        Reg::Fp => push(out, 7),
        Reg::Rv => push(out, 8),
        Reg::Arg(n) => push_two(out, 9, usize::from(n)),
    }
}

/// Those of these registers that are live.
fn write_live(v: &Values, live: &Live, rs: &[Reg], out: &mut Vec<usize>) -> Result<(), OutOfMemory>
    ensures { OnOk result (out.new.items
        ≡ out.old.items ++ registers_words (live_holes (values_of v.now) (is_live live.now) rs.now)) }
{
    for r in rs {
        if lives(live, *r) {
            write_register(v, out, *r)?;
        }
    }
    Ok(())
}

/// The words of the shape of a pair, and what stands at its holes (docs/RULES.md, "The words of a shape"). It fails
/// only where memory is refused.
pub fn walk(alloc: Global, p: &Pair) -> Result<Walked, OutOfMemory>
    ensures words { IfOk result (λ w. w.words.items ≡ shape_words (pair_shape (pair_of p.now))) }
    ensures values { IfOk result (λ w. values_of w.values ≡ pair_values (pair_of p.now)) }
{
    let mut v = nothing_met(alloc);
    let mut out = Vec::new(alloc);
    push(&mut out, bit_word(p.live.cc))?;
    walk_transfers(&mut v, &mut out, &p.a.xs)?;
    walk_transfers(&mut v, &mut out, &p.b.xs)?;
    write_live(&v, &p.live, &v.regs, &mut out)?;
    write_live(&v, &p.live, &SETTABLE, &mut out)?;
    Ok(Walked {
        words: out,
        values: v,
    })
}
