//! What stands at the holes of a pair, by the order in which a walk through it meets it.
ghost use Rattle.std.specs.Prelude.{◌≡◌, OnOk, IfOk, Some};
ghost use Rattle.std.specs.List.{position_or_len, position_from};
ghost use Rattle.po_word.specs.declared.operator.Rel.{Rel};
ghost use Rattle.po_term.specs.declared.term.Reg.TheVariants.{Virt};
ghost use Rattle.po_term.specs.Terms.{tree_of};
ghost use Rattle.po_term.specs.Moves.{move_of, moves_of, branch_of, instr_of};
ghost use Rattle.po_term.specs.Simplified.{reg_eq};
ghost use Rattle.po_model.specs.Holed.{values_of};
ghost use Rattle.po_model.specs.Pairs.{pair_of};
ghost use Rattle.po_model.specs.Shape.{meet_register, meet_symbol, meet_tree, meet_ending, meet_move, meet_moves};
ghost use Rattle.po_model.specs.Shape.{nothing_met, pair_values};
ghost use Rattle.po_model.specs.Parts.{sym_eq};

use po_model::{Pair, Values};
use po_term::{Cond, Label, Reg, Sym, Term, Transfer};
use po_word::OutOfMemory;
use std::alloc::Global;

fn is_one(r: Reg, q: Reg) -> bool
    ensures { result ≡ reg_eq r q }
{
    r == q
}

fn is_one_symbol(s: Sym, t: Sym) -> bool
    ensures { result ≡ sym_eq s t }
{
    s.0 == t.0
}

/// Where a register stands among those that were met, and None where it wasn't met (docs/RULES.md, "Shapes").
pub fn find(regs: &[Reg], r: Reg) -> Option<usize>
    ensures { result ≡ position_from (reg_eq r) 0 regs.now }
{
    regs.iter().position(|q| is_one(r, *q))
}

pub fn find_symbol(syms: &[Sym], s: Sym) -> Option<usize>
    ensures { result ≡ position_from (sym_eq s) 0 syms.now }
{
    syms.iter().position(|t| is_one_symbol(s, *t))
}

/// The place of the virtual register n among those that were met. It is added behind them where it wasn't met
/// (docs/RULES.md, "Shapes"). It fails only where memory is refused.
pub fn place_register(v: &mut Values, n: u32) -> Result<usize, OutOfMemory>
    ensures values { OnOk result (values_of v.new ≡ meet_register (values_of v.old) (Virt n)) }
    ensures place { IfOk result
        (λ k. k ≡ position_or_len (reg_eq (Virt n)) (meet_register (values_of v.old) (Virt n)).regs) }
{
    match find(&v.regs, Reg::Virt(n)) {
        Some(k) => Ok(k),
        None => {
            let k = v.regs.len();
            v.regs.push(Reg::Virt(n))?;
            Ok(k)
        }
    }
}

/// The place of a symbol among those that were met. It is added behind them where it wasn't met (docs/RULES.md,
/// "Shapes"). It fails only where memory is refused.
pub fn place_symbol(v: &mut Values, s: Sym) -> Result<usize, OutOfMemory>
    ensures values { OnOk result (values_of v.new ≡ meet_symbol (values_of v.old) s) }
    ensures place { IfOk result (λ k. k ≡ position_or_len (sym_eq s) (meet_symbol (values_of v.old) s).syms) }
{
    match find_symbol(&v.syms, s) {
        Some(k) => Ok(k),
        None => {
            let k = v.syms.len();
            v.syms.push(s)?;
            Ok(k)
        }
    }
}

fn meet_register(v: &mut Values, r: Reg) -> Result<(), OutOfMemory>
    ensures { OnOk result (values_of v.new ≡ meet_register (values_of v.old) r) }
{
    if let Reg::Virt(n) = r {
        place_register(v, n)?;
    }
    Ok(())
}

fn meet_symbol(v: &mut Values, s: Sym) -> Result<(), OutOfMemory>
    ensures { OnOk result (values_of v.new ≡ meet_symbol (values_of v.old) s) }
{
    place_symbol(v, s)?;
    Ok(())
}

/// The label that is met last stays.
pub fn meet_label(v: &mut Values, l: Label)
    ensures { values_of v.new ≡ record (values_of v.old) { label = Some l } }
{
    v.label = Some(l);
}

fn meet_term(v: &mut Values, t: &Term) -> Result<(), OutOfMemory>
    ensures { OnOk result (values_of v.new ≡ meet_tree (values_of v.old) (tree_of t.now)) }
{
    match t {
        Term::Num(c) => {
            v.consts.push(*c)?;
            Ok(())
        }
        Term::Reg(r) => meet_register(v, *r),
        Term::Addr(s) => meet_symbol(v, *s),
        Term::Mem(x) => meet_term(v, x),
        Term::Un(_, x) => meet_term(v, x),
        Term::Bin(_, x, y) => {
            meet_term(v, x)?;
            meet_term(v, y)
        }
    }
}

/// A branch: what it compares, and then its label.
fn meet_branch(v: &mut Values, cond: &Cond, l: Label) -> Result<(), OutOfMemory>
    ensures { OnOk result ((r : Rel) → values_of v.new ≡ meet_ending (values_of v.old) (branch_of cond.now r l)) }
{
    if let Cond::Two(x, y) = cond {
        meet_term(v, x)?;
        meet_term(v, y)?;
    }
    meet_label(v, l);
    Ok(())
}

fn meet_transfer(v: &mut Values, t: &Transfer) -> Result<(), OutOfMemory>
    ensures { OnOk result (values_of v.new ≡ meet_move (values_of v.old) (move_of t.now)) }
{
    match t {
        Transfer::Set(r, x) => {
            meet_register(v, *r)?;
            meet_term(v, x)
        }
        Transfer::Cc(x, y) => {
            meet_term(v, x)?;
            meet_term(v, y)
        }
        Transfer::Store(x, y) => {
            meet_term(v, x)?;
            meet_term(v, y)
        }
        Transfer::Goto(l) => {
            meet_label(v, *l);
            Ok(())
        }
        Transfer::If(cond, _, l) => meet_branch(v, cond, *l),
        Transfer::Call(s, _) => meet_symbol(v, *s),
        Transfer::Ret => Ok(()),
    }
}

fn meet_transfers(v: &mut Values, xs: &[Transfer]) -> Result<(), OutOfMemory>
    ensures { OnOk result (values_of v.new ≡ meet_moves (values_of v.old) (moves_of xs.now)) }
{
    for t in xs {
        meet_transfer(v, t)?;
    }
    Ok(())
}

/// The start of a walk: nothing was met (docs/RULES.md, "What stands at the holes").
pub fn nothing_met(alloc: Global) -> Values
    ensures { values_of result ≡ nothing_met }
{
    Values {
        regs: Vec::new(alloc),
        syms: Vec::new(alloc),
        label: None,
        consts: Vec::new(alloc),
    }
}

/// What stands at the holes of the pair's shape (docs/RULES.md, "What stands at the holes"). It fails only where
/// memory is refused.
pub fn pair_values(alloc: Global, p: &Pair) -> Result<Values, OutOfMemory>
    ensures { IfOk result (λ v. values_of v ≡ pair_values (pair_of p.now)) }
{
    let mut v = nothing_met(alloc);
    meet_transfers(&mut v, &p.a.xs)?;
    meet_transfers(&mut v, &p.b.xs)?;
    Ok(v)
}
