//! What becomes of a pair: both stay, nothing is left of them, or one instruction stands in their place.
ghost use Rattle.std.specs.Prelude.{◌≡◌, ◌<◌, ◌^◌, ◌+◌, Bool, length, IfOk};
ghost use Rattle.po_term.specs.Moves.{instr_of};
ghost use Rattle.po_term.specs.Kinds.{words};
ghost use Rattle.po_model.specs.declared.var.Var.{Var as Variable};
ghost use Rattle.po_model.specs.declared.var.Var.TheVariants.{Reg, Cc};
ghost use Rattle.po_model.specs.Joined.{AsOne};
ghost use Rattle.po_model.specs.Pairs.{pair_of, WellFormedPair};
ghost use Rattle.po_model.specs.Combined.{recognised, combined, combination, combination_of};
ghost use Rattle.po_model.specs.Parts.{code_leaves};
ghost use Rattle.po_model.specs.Scanned.{pair_with};
ghost use Rattle.po_recog.specs.Indexes.{IsIndexOf};
ghost use Rattle.po_subst.specs.JoinedMoves.{joint_of};
ghost use Rattle.po_subst.specs.Seen.{is_among};
ghost use Rattle.po_slow.specs.KeepsEffect.{KeepsEffect};

use po_model::{Machine, Outcome, Pair, Steps};
use po_recog::{Index, is_recognised_by};
use po_subst::{Joined, live_registers, together_within};
use po_term::{Instr, Reg as Register};
use po_word::OutOfMemory;
use std::alloc::Global;
use std::sync::ledger::Ledger;

/// The instruction in the place of the pair, where an entry fits it.
fn if_recognised(m: &Machine, index: &Index, i: Instr, cc_live: bool) -> Outcome
    requires entries { length m.now.entries < 2 ^ 32 }
    requires index { IsIndexOf m.now index.now }
    ensures { combination_of result ≡ (recognised words code_leaves m.now cc_live (AsOne (instr_of i))).got }
{
    if is_recognised_by(m, index, i.xs.as_slice(), cc_live) {
        Outcome::One(i)
    } else {
        Outcome::Keep
    }
}

/// What becomes of two instructions that come to this.
fn outcome(m: &Machine, index: &Index, joined: Joined, cc_live: bool) -> Outcome
    requires entries { length m.now.entries < 2 ^ 32 }
    requires index { IsIndexOf m.now index.now }
    ensures { combination_of result ≡ (recognised words code_leaves m.now cc_live (joint_of joined)).got }
{
    match joined {
        Joined::Not => Outcome::Keep,
        Joined::Empty => Outcome::Nothing,
        Joined::List(i) => if_recognised(m, index, i, cc_live),
    }
}

/// What becomes of two instructions on a machine, with an index of it, where these registers are live after them, and
/// `cc` or not (docs/OPTIMISER.md, "Keep, nothing, one"). Neither is copied where that isn't needed, and no list is
/// made that is longer than each entry. It fails only where memory is refused.
pub fn combine_two(
    alloc: Global,
    m: &Machine,
    index: &Index,
    a: &Instr,
    b: &Instr,
    live: &[Register],
    cc_live: bool,
) -> Result<Outcome, OutOfMemory>
    requires entries { length m.now.entries < 2 ^ 32 }
    requires index { IsIndexOf m.now index.now }
    ensures combines { IfOk result (λ o. combination_of o
        ≡ (combined words code_leaves m.now (is_among live.now) cc_live (instr_of a.now) (instr_of b.now)).got) }
    ensures ahead { IfOk result (λ o. (after : Variable → Bool)
        → ((r : Register) → after (Reg r) ≡ is_among live.now r) → after Cc ≡ cc_live
        → combination_of o
        ≡ combination m.now (pair_with (instr_of a.now) (record { instr = instr_of b.now; live = after }))) }
{
    let joined = together_within(alloc, index.most(), a, b, live, cc_live)?;
    Ok(outcome(m, index, joined, cc_live))
}

/// What becomes of a pair.
fn of_pair(alloc: Global, m: &Machine, index: &Index, p: &Pair) -> Result<Outcome, OutOfMemory>
    requires entries { length m.now.entries < 2 ^ 32 }
    requires index { IsIndexOf m.now index.now }
    ensures { IfOk result (λ o. combination_of o ≡ combination m.now (pair_of p.now)) }
{
    let live = live_registers(alloc, &p.live)?;
    let outcome = combine_two(alloc, m, index, &p.a, &p.b, &live, p.live.cc)?;
    Ok(outcome)
}

/// `combine` by an index of the machine, made once for many pairs (docs/OPTIMISER.md, "Keep, nothing, one").
pub fn combine_by(
    alloc: Global,
    m: &Machine,
    index: &Index,
    p: &Pair,
) -> Result<Outcome, OutOfMemory>
    requires entries { length m.now.entries < 2 ^ 32 }
    requires index { IsIndexOf m.now index.now }
    ensures combines { IfOk result (λ o. combination_of o ≡ combination m.now (pair_of p.now)) }
    ensures keeps_effect { IfOk result (λ o.
        WellFormedPair (pair_of p.now) → KeepsEffect m.now (pair_of p.now) (combination_of o)) }
{
    let outcome = of_pair(alloc, m, index, p)?;
    Ok(outcome)
}

/// What becomes of a pair on the machine (docs/OPTIMISER.md, "Keep, nothing, one"), which has fewer than 2^32
/// entries. Nothing is counted. It fails only where memory is refused.
pub fn combine(alloc: Global, m: &Machine, p: &Pair) -> Result<Outcome, OutOfMemory>
    requires { length m.now.entries < 2 ^ 32 }
    ensures combines { IfOk result (λ o. combination_of o ≡ combination m.now (pair_of p.now)) }
    ensures keeps_effect { IfOk result (λ o.
        WellFormedPair (pair_of p.now) → KeepsEffect m.now (pair_of p.now) (combination_of o)) }
{
    let index = Index::new(alloc, m)?;
    combine_by(alloc, m, &index, p)
}

/// What `combine` answers. One step is counted, whatever the answer (docs/OPTIMISER.md, "Keep, nothing, one").
pub fn slow_pair<L: Ledger>(
    alloc: Global,
    m: &Machine,
    p: &Pair,
    steps: &mut Steps<L>,
) -> Result<Outcome, OutOfMemory>
    requires { length m.now.entries < 2 ^ 32 }
    ensures combines { IfOk result (λ o. combination_of o ≡ combination m.now (pair_of p.now)) }
    ensures keeps_effect { IfOk result (λ o.
        WellFormedPair (pair_of p.now) → KeepsEffect m.now (pair_of p.now) (combination_of o)) }
    ensures ticks { steps.new ≡ steps.old + 1 }
{
    steps.tick();
    combine(alloc, m, p)
}
