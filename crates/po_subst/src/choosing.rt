//! Which transfers of a pair of instructions count, by what is live after the second.
ghost use Rattle.std.specs.Prelude.{◌≡◌, ◌&&◌, ◌++◌, ◌∷◌, [], not, is_some, filter, IfOk};
ghost use Rattle.std.specs.List.{list_any};
ghost use Rattle.po_term.specs.Terms.{InReg};
ghost use Rattle.po_term.specs.Moves.{move_of, instr_of};
ghost use Rattle.po_model.specs.Parts.{code_leaves, right_at, cc_of, store_of};
ghost use Rattle.po_model.specs.Joined.{is_control, is_away, is_wanted, is_kept, is_idle};
ghost use Rattle.po_subst.specs.Seen.{is_among};

use crate::parts::{compared, is_one, right_of, stored};
use po_model::Live;
use po_term::{Instr, Reg, Term, Transfer};
use po_word::{OutOfMemory, push};
use std::alloc::Global;

/// The registers that are live, as a list (docs/OPTIMISER.md, "Combination"). It fails only where memory is refused.
pub fn live_registers(alloc: Global, live: &Live) -> Result<Vec<Reg>, OutOfMemory>
    ensures { IfOk result (λ rs. rs.items ≡ live.now.regs.keys) }
{
    let mut regs = Vec::new(alloc);
    for r in &live.regs {
        push(&mut regs, *r)?;
    }
    Ok(regs)
}

/// Whether a register is one of those that are live.
pub fn lives(live: &[Reg], r: Reg) -> bool
    ensures { result ≡ is_among live.now r }
{
    live.iter().any(|q| is_one(r, *q))
}

fn is_control(t: &Transfer) -> bool
    ensures { result ≡ is_control (move_of t.now) }
{
    match t {
        Transfer::Set(_, _) => false,
        Transfer::Cc(_, _) => false,
        Transfer::Store(_, _) => false,
        Transfer::Goto(_) => true,
        Transfer::If(_, _, _) => true,
        Transfer::Call(_, _) => true,
        Transfer::Ret => true,
    }
}

fn is_away(t: &Transfer) -> bool
    ensures { result ≡ is_away (move_of t.now) }
{
    matches!(t, Transfer::Call(_, _) | Transfer::Ret)
}

fn any_control(xs: &[Transfer]) -> bool
    ensures { result ≡ list_any (λ t. is_control (move_of t)) xs.now }
{
    xs.iter().any(|t| is_control(t))
}

fn any_away(xs: &[Transfer]) -> bool
    ensures { result ≡ list_any (λ t. is_away (move_of t)) xs.now }
{
    xs.iter().any(|t| is_away(t))
}

/// Whether an instruction has a transfer of control.
#[tactic(auto, using(crate::proofs::Choices::any_move))]
pub fn has_control(a: &Instr) -> bool
    ensures { result ≡ list_any is_control (instr_of a.now) }
{
    any_control(&a.xs)
}

/// Whether an instruction calls or returns.
#[tactic(auto, using(crate::proofs::Choices::any_move))]
pub fn goes_away(b: &Instr) -> bool
    ensures { result ≡ list_any is_away (instr_of b.now) }
{
    any_away(&b.xs)
}

/// Whether a transfer of the second instruction sets something live, or does more than set.
pub fn is_wanted(t: &Transfer, live: &[Reg], cc_live: bool) -> bool
    ensures { result ≡ is_wanted (is_among live.now) cc_live (move_of t.now) }
{
    match t {
        Transfer::Set(r, _) => lives(live, *r),
        Transfer::Cc(_, _) => cc_live,
        _ => true,
    }
}

/// Whether a register is live that an instruction doesn't set.
fn lives_unset(live: &[Reg], r: Reg, b: &Instr) -> bool
    ensures { result ≡ (is_among live.now r && not (is_some (right_at code_leaves (InReg r) (instr_of b.now)))) }
{
    lives(live, r) && right_of(b, r).is_none()
}

/// Whether cc is live and an instruction doesn't set it.
fn cc_lives_unset(cc_live: bool, b: &Instr) -> bool
    ensures { result ≡ (cc_live && not (is_some (cc_of (instr_of b.now)))) }
{
    cc_live && compared(b).is_none()
}

/// Whether an instruction stores nothing.
fn stores_nothing(b: &Instr) -> bool
    ensures { result ≡ not (is_some (store_of (instr_of b.now))) }
{
    stored(b).is_none()
}

/// Whether a transfer of the first instruction stays beside the second, b: where it sets something that is live and
/// that b doesn't set, and where it stores and b doesn't.
pub fn is_kept(t: &Transfer, b: &Instr, live: &[Reg], cc_live: bool) -> bool
    ensures { result ≡ is_kept code_leaves (is_among live.now) cc_live
        (filter (is_wanted (is_among live.now) cc_live) (instr_of b.now)) (move_of t.now) }
{
    match t {
        Transfer::Set(r, _) => lives_unset(live, *r, b),
        Transfer::Cc(_, _) => cc_lives_unset(cc_live, b),
        Transfer::Store(_, _) => stores_nothing(b),
        _ => false,
    }
}

/// Whether a transfer is `r := r`.
pub fn is_idle(t: &Transfer) -> bool
    ensures { result ≡ is_idle code_leaves (move_of t.now) }
{
    match t {
        Transfer::Set(r, Term::Reg(q)) => is_one(*q, *r),
        _ => false,
    }
}
