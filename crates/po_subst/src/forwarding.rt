//! A term that is read after an instruction, as a term that is read before it.
//!
//! A register that the instruction sets gives its right side, an operator its constructor on the forwarded operands,
//! and a read what the instruction stores there, where that is known.
ghost use Rattle.std.specs.Prelude.{◌≡◌, IfOk};
ghost use Rattle.po_term.specs.Tree.{Read};
ghost use Rattle.po_term.specs.Terms.{tree_of, InReg};
ghost use Rattle.po_term.specs.Moves.{instr_of};
ghost use Rattle.po_term.specs.Kinds.{words};
ghost use Rattle.po_model.specs.Parts.{code_leaves, right_at, store_of};
ghost use Rattle.po_model.specs.Forward.{right_or, read_after, forward};
ghost use Rattle.po_subst.specs.Seen.{tree_made};

use crate::addresses::alias;
use crate::parts::{right_of, stored};
use po_simplify::{make_bin, make_un};
use po_term::{Alias, Instr, Reg, Term, copy_term};
use po_word::OutOfMemory;
use std::alloc::Global;

/// `M[q]`
fn read(alloc: Global, q: Term) -> Result<Term, OutOfMemory>
    ensures { IfOk result (λ r. tree_of r ≡ Read (tree_of q)) }
{
    match Box::new(alloc, q) {
        Ok(q) => Ok(Term::Mem(q)),
        Err(_) => Err(OutOfMemory),
    }
}

/// What a register becomes.
fn forward_register(alloc: Global, a: &Instr, r: Reg) -> Result<Term, OutOfMemory>
    ensures { IfOk result (λ u. tree_of u ≡ right_or (right_at code_leaves (InReg r) (instr_of a.now)) (InReg r)) }
{
    match right_of(a, r) {
        Some(u) => copy_term(alloc, u),
        None => Ok(Term::Reg(r)),
    }
}

/// The word at q after an instruction.
fn forward_read(alloc: Global, a: &Instr, q: Term) -> Result<Option<Term>, OutOfMemory>
    ensures { IfOk result (λ u. tree_made u
        ≡ (read_after words code_leaves (store_of (instr_of a.now)) (tree_of q)).got) }
{
    match stored(a) {
        None => Ok(Some(read(alloc, q)?)),
        Some((address, value)) => match alias(address, &q) {
            Alias::Same => Ok(Some(copy_term(alloc, value)?)),
            Alias::Apart => Ok(Some(read(alloc, q)?)),
            Alias::Maybe => Ok(None),
        },
    }
}

/// What the term t, read after the instruction a, is before it (docs/OPTIMISER.md, "Forwarding"). `None` exactly where
/// some read of t may or may not meet a's store.
///
/// It is for an a that is simplified, and then the term is. It recurses as deep as t is. It fails only where memory is
/// refused.
#[tactic(auto, using(crate::proofs::Symbols::symbol_stays))]
pub fn forward(alloc: Global, a: &Instr, t: &Term) -> Result<Option<Term>, OutOfMemory>
    ensures { IfOk result (λ u. tree_made u ≡ (forward words code_leaves (instr_of a.now) (tree_of t.now)).got) }
{
    match t {
        Term::Num(c) => Ok(Some(Term::Num(*c))),
        Term::Reg(r) => Ok(Some(forward_register(alloc, a, *r)?)),
        Term::Addr(s) => Ok(Some(Term::Addr(*s))),
        Term::Mem(x) => match forward(alloc, a, x)? {
            Some(q) => forward_read(alloc, a, q),
            None => Ok(None),
        },
        Term::Un(op, x) => match forward(alloc, a, x)? {
            Some(x) => Ok(Some(make_un(alloc, *op, x)?)),
            None => Ok(None),
        },
        Term::Bin(op, x, y) => match forward(alloc, a, x)? {
            Some(x) => match forward(alloc, a, y)? {
                Some(y) => Ok(Some(make_bin(alloc, *op, x, y)?)),
                None => Ok(None),
            },
            None => Ok(None),
        },
    }
}
