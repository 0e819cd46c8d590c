//! What instructions read and set, and the walk back through them: from what is live behind an instruction to what is
//! live before it.
ghost use Rattle.std.specs.Prelude.{◌≡◌, ℕ, OnOk, IfOk, not, true, false, ◌||◌, ◌&&◌, map, reverse};
ghost use Rattle.std.specs.List.{list_any};
ghost use Rattle.po_term.specs.Terms.{tree_of};
ghost use Rattle.po_term.specs.Moves.{move_of, moves_of, instr_of, instrs_of};
ghost use Rattle.po_model.specs.declared.var.Var.{Var as Variable};
ghost use Rattle.po_model.specs.LiveAfter.{is_reg, is_cc, is_arg_of, term_reads, move_reads, move_sets, reads, sets};
ghost use Rattle.po_live.specs.Sets.{holds, is_fp, var_eq, back, sets_any};

use crate::sets::{LiveVars, add, remove};
use po_model::Var;
use po_term::{Cond, Instr, Reg, Term, Transfer};
use po_word::OutOfMemory;

/// Puts in the registers of a term. It recurses as deep as the term is.
fn read_term(live: &mut LiveVars, t: &Term) -> Result<(), OutOfMemory>
    ensures { OnOk result ((q : Variable) → holds live.new q ≡ (term_reads (tree_of t.now) q || holds live.old q)) }
{
    match t {
        Term::Num(_) => Ok(()),
        Term::Reg(r) => add(live, Var::Reg(*r)),
        Term::Addr(_) => Ok(()),
        Term::Mem(x) => read_term(live, x),
        Term::Un(_, x) => read_term(live, x),
        Term::Bin(_, x, y) => {
            read_term(live, x)?;
            read_term(live, y)
        }
    }
}

fn read_two(live: &mut LiveVars, x: &Term, y: &Term) -> Result<(), OutOfMemory>
    ensures { OnOk result ((q : Variable)
        → holds live.new q ≡ ((term_reads (tree_of x.now) q || term_reads (tree_of y.now) q) || holds live.old q)) }
{
    read_term(live, x)?;
    read_term(live, y)
}

/// Puts in `arg0` to `arg(n-1)`.
fn read_args(live: &mut LiveVars, n: u8) -> Result<(), OutOfMemory>
    ensures { OnOk result ((q : Variable) → holds live.new q ≡ (is_arg_of n q || holds live.old q)) }
{
    for k in 0..n {
        add(live, Var::Reg(Reg::Arg(k)))?;
    }
    Ok(())
}

/// Puts in what a transfer reads.
fn read(live: &mut LiveVars, t: &Transfer) -> Result<(), OutOfMemory>
    ensures { OnOk result ((q : Variable) → holds live.new q ≡ (move_reads (move_of t.now) q || holds live.old q)) }
{
    match t {
        Transfer::Set(_, x) => read_term(live, x),
        Transfer::Cc(x, y) => read_two(live, x, y),
        Transfer::Store(x, y) => read_two(live, x, y),
        Transfer::Goto(_) => Ok(()),
        Transfer::If(Cond::Cc, _, _) => add(live, Var::Cc),
        Transfer::If(Cond::Two(x, y), _, _) => read_two(live, x, y),
        Transfer::Call(_, n) => {
            read_args(live, *n)?;
            add(live, Var::Reg(Reg::Fp))
        }
        Transfer::Ret => {
            add(live, Var::Reg(Reg::Rv))?;
            add(live, Var::Reg(Reg::Fp))
        }
    }
}

/// Takes out what a transfer sets.
fn unset(live: &mut LiveVars, t: &Transfer)
    ensures { (q : Variable) → holds live.new q ≡ (not (move_sets (move_of t.now) q) && holds live.old q) }
{
    match t {
        Transfer::Set(r, _) => remove(live, Var::Reg(*r)),
        Transfer::Cc(_, _) => remove(live, Var::Cc),
        Transfer::Store(_, _) => {}
        Transfer::Goto(_) => {}
        Transfer::If(_, _, _) => {}
        Transfer::Call(_, _) => {
            remove(live, Var::Reg(Reg::Rv));
            remove(live, Var::Cc);
        }
        Transfer::Ret => {}
    }
}

fn read_all(live: &mut LiveVars, xs: &[Transfer]) -> Result<(), OutOfMemory>
    ensures { OnOk result ((q : Variable) → holds live.new q ≡ (reads (moves_of xs.now) q || holds live.old q)) }
{
    for t in xs {
        read(live, t)?;
    }
    Ok(())
}

fn unset_all(live: &mut LiveVars, xs: &[Transfer])
    ensures { (q : Variable) → holds live.new q ≡ (not (sets (moves_of xs.now) q) && holds live.old q) }
{
    for t in xs {
        unset(live, t);
    }
}

/// Back through an instruction.
pub fn step(live: &mut LiveVars, x: &Instr) -> Result<(), OutOfMemory>
    ensures { OnOk result ((q : Variable)
        → holds live.new q ≡ (reads (instr_of x.now) q || (not (sets (instr_of x.now) q) && holds live.old q))) }
{
    unset_all(live, &x.xs);
    read_all(live, &x.xs)
}

/// Behind the last instruction of a block: what is live at the block's end, and `fp`.
pub fn begin(live: &mut LiveVars, out: &LiveVars) -> Result<(), OutOfMemory>
    ensures { OnOk result ((q : Variable) → holds live.new q ≡ (is_fp q || holds out.now q)) }
{
    live.regs.clear();
    live.regs.extend_from_slice(&out.regs)?;
    live.cc = out.cc;
    add(live, Var::Reg(Reg::Fp))
}

/// Back through an instruction, with `fp` before it too.
pub fn step_with_fp(live: &mut LiveVars, x: &Instr) -> Result<(), OutOfMemory>
    ensures { OnOk result ((q : Variable)
        → holds live.new q
        ≡ (is_fp q || (reads (instr_of x.now) q || (not (sets (instr_of x.now) q) && holds live.old q)))) }
{
    step(live, x)?;
    add(live, Var::Reg(Reg::Fp))
}

/// Back through instructions.
pub fn walk(live: &mut LiveVars, xs: &[Instr]) -> Result<(), OutOfMemory>
    ensures { OnOk result ((q : Variable) → holds live.new q ≡ back (instrs_of xs.now) (holds live.old) q) }
{
    let mut i = xs.len();
    while i > 0 {
        i -= 1;
        step(live, &xs[i])?;
    }
    Ok(())
}

fn is_reg(r: Reg, v: Var) -> bool
    ensures { result ≡ is_reg r v }
{
    match v {
        Var::Reg(q) => r == q,
        Var::Cc => false,
    }
}

fn is_cc(v: Var) -> bool
    ensures { result ≡ is_cc v }
{
    matches!(v, Var::Cc)
}

/// Whether a transfer sets v.
fn sets(t: &Transfer, v: Var) -> bool
    ensures { result ≡ move_sets (move_of t.now) v }
{
    match t {
        Transfer::Set(r, _) => is_reg(*r, v),
        Transfer::Cc(_, _) => is_cc(v),
        Transfer::Store(_, _) => false,
        Transfer::Goto(_) => false,
        Transfer::If(_, _, _) => false,
        Transfer::Call(_, _) => is_reg(Reg::Rv, v) || is_cc(v),
        Transfer::Ret => false,
    }
}

fn one_sets(xs: &[Transfer], v: Var) -> bool
    ensures { result ≡ list_any (λ t. move_sets (move_of t) v) xs.now }
{
    xs.iter().any(|t| sets(t, v))
}

/// Whether an instruction sets v.
#[tactic(auto, using(crate::proofs::Moved::any_move))]
fn instr_sets(x: &Instr, v: Var) -> bool
    ensures { result ≡ sets (instr_of x.now) v }
{
    one_sets(&x.xs, v)
}

fn one_of_them_sets(xs: &[Instr], v: Var) -> bool
    ensures { result ≡ list_any (λ x. sets (instr_of x) v) (reverse xs.now) }
{
    xs.iter().rev().any(|x| instr_sets(x, v))
}

/// Whether one of the instructions sets v. It is asked of what is live behind them, and goes back to the last one that
/// does, over instructions after which v is live: so all these questions cost no more than the sets that are written
/// down.
#[tactic(auto, using(crate::proofs::Moved::any_instr_back))]
pub fn some_sets(xs: &[Instr], v: Var) -> bool
    ensures { result ≡ sets_any (instrs_of xs.now) v }
{
    one_of_them_sets(xs, v)
}
