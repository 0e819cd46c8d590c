//! The constructors, chosen by operator.
ghost use Rattle.std.specs.Prelude.{◌≡◌, IfOk};
ghost use Rattle.po_word.specs.Words.{un_value, bin_value};
ghost use Rattle.po_term.specs.Terms.{tree_of, value, State, IsState};
ghost use Rattle.po_term.specs.Worth.{HasWords, IsWorth};
ghost use Rattle.po_term.specs.Kinds.{words};
ghost use Rattle.po_term.specs.Simplified.{same_register, unary_of, binary_of};

use crate::products::{commuting, shift};
use crate::sums::{add, complement, negate, subtract};
use po_term::Term;
use po_word::{Bin, OutOfMemory, Un};
use std::alloc::Global;

/// What the operator's constructor makes of a simplified operand.
pub fn unary_made(alloc: Global, op: Un, a: Term) -> Result<Term, OutOfMemory>
    ensures { IfOk result (λ r. tree_of r ≡ (unary_of words same_register op (tree_of a)).got) }
{
    match op {
        Un::Neg => negate(alloc, a),
        Un::Not => complement(alloc, a),
    }
}

/// What the operator's constructor makes of two simplified operands.
pub fn binary_made(alloc: Global, op: Bin, a: Term, b: Term) -> Result<Term, OutOfMemory>
    ensures { IfOk result (λ r. tree_of r ≡ (binary_of words same_register op (tree_of a) (tree_of b)).got) }
{
    match op {
        Bin::Add => add(alloc, a, b),
        Bin::Sub => subtract(alloc, a, b),
        Bin::Mul => commuting(alloc, Bin::Mul, a, b),
        Bin::And => commuting(alloc, Bin::And, a, b),
        Bin::Or => commuting(alloc, Bin::Or, a, b),
        Bin::Xor => commuting(alloc, Bin::Xor, a, b),
        Bin::Shl => shift(alloc, Bin::Shl, a, b),
        Bin::Sar => shift(alloc, Bin::Sar, a, b),
        Bin::Shr => shift(alloc, Bin::Shr, a, b),
    }
}

/// The simplified term of an operator and its operand, which is simplified already (docs/OPTIMISER.md, "The
/// simplifier").
///
/// In every state its value is the operator's of the operand's value, where the operand's constants are words. It
/// fails only where memory is refused.
#[tactic(auto, using(crate::proofs::Worths::unary_kept))]
pub fn make_un(alloc: Global, op: Un, a: Term) -> Result<Term, OutOfMemory>
    ensures made { IfOk result (λ r. tree_of r ≡ (unary_of words same_register op (tree_of a)).got) }
    ensures kept { IfOk result (λ r. (s : State) → IsState s → HasWords (tree_of a) → IsWorth s (tree_of r)
        (un_value op (value s (tree_of a)))) }
{
    let r = unary_made(alloc, op, a)?;
    Ok(r)
}

/// The simplified term of an operator and its operands, which are simplified already (docs/OPTIMISER.md, "The
/// simplifier").
///
/// In every state its value is the operator's of the operands' values, where the operands' constants are words. It
/// fails only where memory is refused.
#[tactic(auto, using(crate::proofs::Worths::binary_kept))]
pub fn make_bin(alloc: Global, op: Bin, a: Term, b: Term) -> Result<Term, OutOfMemory>
    ensures made { IfOk result (λ r. tree_of r ≡ (binary_of words same_register op (tree_of a) (tree_of b)).got) }
    ensures kept { IfOk result (λ r. (s : State) → IsState s → HasWords (tree_of a) → HasWords (tree_of b)
        → IsWorth s (tree_of r) (bin_value op (value s (tree_of a)) (value s (tree_of b)))) }
{
    let r = binary_made(alloc, op, a, b)?;
    Ok(r)
}
