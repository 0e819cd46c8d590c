//! Whether an instruction is simplified already, where that is plain to see: it needs no copy to be simplified then.
ghost use Rattle.std.specs.Prelude.{◌≡◌, ◌==◌, true, false, ◌∷◌, []};
ghost use Rattle.po_word.specs.declared.operator.Bin.{Bin};
ghost use Rattle.po_term.specs.Tree.{Leaf, Binary};
ghost use Rattle.po_term.specs.Terms.{InReg, tree_of};
ghost use Rattle.po_term.specs.Moves.{move_of, moves_of, instr_of};
ghost use Rattle.po_term.specs.Kinds.{words};
ghost use Rattle.po_term.specs.Simplified.{same_register, simple, simple_move, simple_moves};

use crate::parts::is_one;
use po_term::{Cond, Instr, Reg, Term, Transfer};
use po_word::Bin;

/// Whether something is added.
fn adds_something(op: Bin, c: u32) -> bool
    ensures { result ≡ true → (op ≡ Bin.Add) × ((c == 0) ≡ false) }
{
    match op {
        Bin::Add => c != 0,
        _ => false,
    }
}

/// Whether `(r op t)` is simplified: t is another register, or a constant that isn't 0 and is added.
fn is_simple_pair(op: Bin, r: Reg, t: &Term) -> bool
    ensures { result ≡ true → (simple words same_register (Binary op (Leaf (InReg r)) (tree_of t.now))).got
        ≡ Binary op (Leaf (InReg r)) (tree_of t.now) }
{
    match t {
        Term::Reg(q) => !is_one(r, *q),
        Term::Num(c) => adds_something(op, *c),
        _ => false,
    }
}

/// Whether a term is simplified.
#[tactic(auto, using(crate::proofs::Unchanged::register_stays))]
fn is_simple_term(t: &Term) -> bool
    ensures { result ≡ true → (simple words same_register (tree_of t.now)).got ≡ tree_of t.now }
{
    match t {
        Term::Num(_) => true,
        Term::Reg(_) => true,
        Term::Addr(_) => true,
        Term::Mem(x) => is_simple_term(x),
        Term::Un(_, x) => matches!(**x, Term::Reg(_)),
        Term::Bin(op, x, y) => match &**x {
            Term::Reg(r) => is_simple_pair(*op, *r, y),
            _ => false,
        },
    }
}

/// Whether a transfer is simplified.
fn is_simple_transfer(t: &Transfer) -> bool
    ensures { result ≡ true → (simple_move words same_register (move_of t.now)).got ≡ move_of t.now ∷ [] }
{
    match t {
        Transfer::Set(_, u) => is_simple_term(u),
        Transfer::Cc(u, v) => is_simple_term(u) && is_simple_term(v),
        Transfer::Store(u, v) => is_simple_term(u) && is_simple_term(v),
        Transfer::Goto(_) => true,
        Transfer::If(Cond::Cc, _, _) => true,
        Transfer::If(Cond::Two(_, _), _, _) => false,
        Transfer::Call(_, _) => true,
        Transfer::Ret => true,
    }
}

fn are_simple(xs: &[Transfer]) -> bool
    ensures { result ≡ true → (simple_moves words same_register (moves_of xs.now)).got ≡ moves_of xs.now }
{
    match xs {
        [] => true,
        [x, xs @ ..] => is_simple_transfer(x) && are_simple(xs),
    }
}

/// Whether an instruction is simplified. It may be so where the answer is no.
pub fn is_simple(a: &Instr) -> bool
    ensures { result ≡ true → (simple_moves words same_register (instr_of a.now)).got ≡ instr_of a.now }
{
    are_simple(&a.xs)
}
