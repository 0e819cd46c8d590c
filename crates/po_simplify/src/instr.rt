//! Instructions: the terms of each transfer are simplified from left to right, and then a branch on two constants is
//! decided.
ghost use Rattle.std.specs.Prelude.{◌≡◌, ◌++◌, ◌∷◌, [], IfOk, OnOk};
ghost use Rattle.std.specs.Option.{option_to_list};
ghost use Rattle.po_term.specs.Terms.{tree_of, State, IsState};
ghost use Rattle.po_term.specs.Moves.{branch_of, Ends, move_of, moves_of, instr_of};
ghost use Rattle.po_term.specs.Actions.{MoveHasWords, MovesHaveWords, DoesAs};
ghost use Rattle.po_term.specs.Kinds.{words};
ghost use Rattle.po_term.specs.Simplified.{same_register, decided, simple_move, simple_moves};

use crate::terms::simplify;
use po_term::{Cond, Instr, Label, Term, Transfer};
use po_word::{OutOfMemory, Rel, holds};
use std::alloc::Global;

/// What becomes of a branch on two simplified terms (docs/OPTIMISER.md, "Instructions"). On two constants it is a
/// jump where the relation holds, and nothing where it doesn't.
pub fn decide(a: Term, b: Term, rel: Rel, to: Label) -> Option<Transfer>
    ensures { moves_of (option_to_list result) ≡ (decided words same_register (tree_of a) (tree_of b) rel to).got }
{
    match a {
        Term::Num(c) => match b {
            Term::Num(d) => {
                if holds(rel, c, d) {
                    Some(Transfer::Goto(to))
                } else {
                    None
                }
            }
            b => Some(Transfer::If(Cond::Two(Term::Num(c), b), rel, to)),
        },
        a => Some(Transfer::If(Cond::Two(a, b), rel, to)),
    }
}

/// What becomes of a branch.
fn simplify_branch(
    alloc: Global,
    cond: Cond,
    rel: Rel,
    to: Label,
) -> Result<Option<Transfer>, OutOfMemory>
    ensures made { IfOk result (λ kept. moves_of (option_to_list kept)
        ≡ (simple_move words same_register (Ends (branch_of cond rel to))).got) }
    ensures fits { OnOk result (MoveHasWords (Ends (branch_of cond rel to))) }
{
    match cond {
        Cond::Cc => Ok(Some(Transfer::If(Cond::Cc, rel, to))),
        Cond::Two(a, b) => {
            let a = simplify(alloc, a)?;
            let b = simplify(alloc, b)?;
            Ok(decide(a, b, rel, to))
        }
    }
}

/// What becomes of a transfer: none is a branch that is never taken.
fn simplify_transfer(alloc: Global, t: Transfer) -> Result<Option<Transfer>, OutOfMemory>
    ensures made { IfOk result (λ kept. moves_of (option_to_list kept)
        ≡ (simple_move words same_register (move_of t)).got) }
    ensures fits { OnOk result (MoveHasWords (move_of t)) }
{
    match t {
        Transfer::Set(r, a) => Ok(Some(Transfer::Set(r, simplify(alloc, a)?))),
        Transfer::Cc(a, b) => {
            let a = simplify(alloc, a)?;
            let b = simplify(alloc, b)?;
            Ok(Some(Transfer::Cc(a, b)))
        }
        Transfer::Store(a, b) => {
            let a = simplify(alloc, a)?;
            let b = simplify(alloc, b)?;
            Ok(Some(Transfer::Store(a, b)))
        }
        Transfer::Goto(l) => Ok(Some(Transfer::Goto(l))),
        Transfer::If(cond, rel, to) => simplify_branch(alloc, cond, rel, to),
        Transfer::Call(s, n) => Ok(Some(Transfer::Call(s, n))),
        Transfer::Ret => Ok(Some(Transfer::Ret)),
    }
}

/// Appends a transfer.
fn push(xs: &mut Vec<Transfer>, t: Transfer) -> Result<(), OutOfMemory>
    ensures { OnOk result (xs.new.items ≡ xs.old.items ++ t ∷ []) }
{
    match xs.push(t) {
        Ok(()) => Ok(()),
        Err(_) => Err(OutOfMemory),
    }
}

/// Appends what becomes of a transfer.
fn push_simplified(alloc: Global, xs: &mut Vec<Transfer>, t: Transfer) -> Result<(), OutOfMemory>
    ensures made { OnOk result (moves_of xs.new.items ≡ moves_of xs.old.items
        ++ (simple_move words same_register (move_of t)).got) }
    ensures fits { OnOk result (MoveHasWords (move_of t)) }
{
    match simplify_transfer(alloc, t)? {
        Some(t) => push(xs, t),
        None => Ok(()),
    }
}

/// What the transfers of an instruction become, in their order.
fn simplified(alloc: Global, i: Instr) -> Result<Instr, OutOfMemory>
    ensures made { IfOk result (λ r. instr_of r ≡ (simple_moves words same_register (instr_of i)).got) }
    ensures fits { OnOk result (MovesHaveWords (instr_of i)) }
{
    let mut xs = Vec::new(alloc);
    for t in i.xs {
        push_simplified(alloc, &mut xs, t)?;
    }
    Ok(Instr { xs })
}

/// The instruction simplified (docs/OPTIMISER.md, "Instructions").
///
/// In every state it does what the instruction that was passed does: it sets the same registers to the same words,
/// compares and stores the same words, and goes on at the same label. It has no transfer where all that it had was a
/// branch that is never taken. It fails only where memory is refused.
#[tactic(auto, using(crate::proofs::Acts::moves_kept))]
pub fn simplify_instr(alloc: Global, i: Instr) -> Result<Instr, OutOfMemory>
    ensures made { IfOk result (λ r. instr_of r ≡ (simple_moves words same_register (instr_of i)).got) }
    ensures kept { IfOk result (λ r. (s : State) → IsState s → DoesAs s (instr_of r) (instr_of i)) }
    ensures fits { OnOk result (MovesHaveWords (instr_of i)) }
{
    let r = simplified(alloc, i)?;
    Ok(r)
}
