//! Whole terms: the operands first, left before right, and then the operator's constructor.
ghost use Rattle.std.specs.Prelude.{◌≡◌, IfOk, OnOk};
ghost use Rattle.po_term.specs.Terms.{tree_of, value, State, IsState};
ghost use Rattle.po_term.specs.Worth.{HasWords, IsWorth};
ghost use Rattle.po_term.specs.Kinds.{words};
ghost use Rattle.po_term.specs.Simplified.{same_register, simple};

use crate::make::{binary_made, unary_made};
use crate::parts::boxed;
use po_term::Term;
use po_word::OutOfMemory;
use std::alloc::Global;

/// The simplified term; `fits` tells what its type says of the term that was passed.
fn simplified(alloc: Global, t: Term) -> Result<Term, OutOfMemory>
    ensures made { IfOk result (λ r. tree_of r ≡ (simple words same_register (tree_of t)).got) }
    ensures fits { OnOk result (HasWords (tree_of t)) }
{
    match t {
        Term::Num(c) => Ok(Term::Num(c)),
        Term::Reg(r) => Ok(Term::Reg(r)),
        Term::Addr(s) => Ok(Term::Addr(s)),
        Term::Mem(x) => {
            let x = simplified(alloc, Box::into_inner(x))?;
            Ok(Term::Mem(boxed(alloc, x)?))
        }
        Term::Un(op, x) => {
            let x = simplified(alloc, Box::into_inner(x))?;
            unary_made(alloc, op, x)
        }
        Term::Bin(op, x, y) => {
            let x = simplified(alloc, Box::into_inner(x))?;
            let y = simplified(alloc, Box::into_inner(y))?;
            binary_made(alloc, op, x, y)
        }
    }
}

/// The term simplified (docs/OPTIMISER.md, "The simplifier").
///
/// In every state it has the value of the term that was passed. It recurses as deep as the term, whose callers pass
/// terms of well-formed instructions, of at most 64 nodes and depth 16. It fails only where memory is refused.
#[tactic(auto, using(crate::proofs::Worths::simple_kept))]
pub fn simplify(alloc: Global, t: Term) -> Result<Term, OutOfMemory>
    ensures made { IfOk result (λ r. tree_of r ≡ (simple words same_register (tree_of t)).got) }
    ensures kept { IfOk result (λ r. (s : State) → IsState s → IsWorth s (tree_of r) (value s (tree_of t))) }
    ensures fits { OnOk result (HasWords (tree_of t)) }
{
    let r = simplified(alloc, t)?;
    Ok(r)
}
