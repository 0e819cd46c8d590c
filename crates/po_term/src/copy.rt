//! Copies of terms and instructions: each equals its source.
ghost use Rattle.std.specs.Prelude.{◌≡◌, IfOk, OnOk, ◌++◌, ◌∷◌, []};
ghost use Rattle.po_term.specs.Terms.{tree_of};
ghost use Rattle.po_term.specs.Moves.{move_of, moves_of, instr_of};

use crate::{Cond, Instr, Term, Transfer};
use po_word::{OutOfMemory, push};
use std::alloc::Global;

/// A term that equals t, or want of memory. It recurses as deep as the term is.
pub fn copy_term(alloc: Global, t: &Term) -> Result<Term, OutOfMemory>
    ensures { IfOk result (λ c. tree_of c ≡ tree_of t.now) }
{
    match t {
        Term::Num(c) => Ok(Term::Num(*c)),
        Term::Reg(r) => Ok(Term::Reg(*r)),
        Term::Addr(s) => Ok(Term::Addr(*s)),
        Term::Mem(x) => Ok(Term::Mem(Box::new(alloc, copy_term(alloc, x)?)?)),
        Term::Un(o, x) => Ok(Term::Un(*o, Box::new(alloc, copy_term(alloc, x)?)?)),
        Term::Bin(o, x, y) => Ok(Term::Bin(
            *o,
            Box::new(alloc, copy_term(alloc, x)?)?,
            Box::new(alloc, copy_term(alloc, y)?)?,
        )),
    }
}

/// An instruction that equals i, or want of memory. It recurses as deep as the deepest term is.
pub fn copy_instr(alloc: Global, i: &Instr) -> Result<Instr, OutOfMemory>
    ensures { IfOk result (λ c. instr_of c ≡ instr_of i.now) }
{
    let mut xs = Vec::new(alloc);
    for t in &i.xs {
        add_copy(alloc, &mut xs, t)?;
    }
    Ok(Instr { xs })
}

fn add_copy(alloc: Global, xs: &mut Vec<Transfer>, t: &Transfer) -> Result<(), OutOfMemory>
    ensures { OnOk result (moves_of xs.new.items ≡ moves_of xs.old.items ++ move_of t.now ∷ []) }
{
    let c = copy_transfer(alloc, t)?;
    push(xs, c)
}

fn copy_transfer(alloc: Global, t: &Transfer) -> Result<Transfer, OutOfMemory>
    ensures { IfOk result (λ c. move_of c ≡ move_of t.now) }
{
    match t {
        Transfer::Set(r, x) => Ok(Transfer::Set(*r, copy_term(alloc, x)?)),
        Transfer::Cc(x, y) => {
            let x = copy_term(alloc, x)?;
            let y = copy_term(alloc, y)?;
            Ok(Transfer::Cc(x, y))
        }
        Transfer::Store(x, y) => {
            let x = copy_term(alloc, x)?;
            let y = copy_term(alloc, y)?;
            Ok(Transfer::Store(x, y))
        }
        Transfer::Goto(l) => Ok(Transfer::Goto(*l)),
        Transfer::If(Cond::Cc, r, l) => Ok(Transfer::If(Cond::Cc, *r, *l)),
        Transfer::If(Cond::Two(x, y), r, l) => {
            let x = copy_term(alloc, x)?;
            let y = copy_term(alloc, y)?;
            Ok(Transfer::If(Cond::Two(x, y), *r, *l))
        }
        Transfer::Call(s, n) => Ok(Transfer::Call(*s, *n)),
        Transfer::Ret => Ok(Transfer::Ret),
    }
}
