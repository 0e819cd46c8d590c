//! Which transfers of a shape count, by what is live after the second instruction.
ghost use Rattle.std.specs.Prelude.{◌≡◌, ◌&&◌, not, is_some, filter};
ghost use Rattle.std.specs.List.{list_any};
ghost use Rattle.po_model.specs.Parts.{right_at, cc_of, store_of};
ghost use Rattle.po_model.specs.Joined.{is_control, is_away, is_wanted, is_kept, is_idle};
ghost use Rattle.po_model.specs.Holed.{InPReg, hole_move_of, hole_moves_of, shape_of};
ghost use Rattle.po_model.specs.Generalised.{hole_leaves, is_live_in};

use crate::addresses::is_one;
use crate::parts::{compared, right_of, stored};
use po_model::{PReg, PTerm, PTransfer, Shape};

/// Whether a register is live after the second instruction.
fn lives(s: &Shape, r: PReg) -> bool
    ensures { result ≡ is_live_in (shape_of s.now) r }
{
    s.live.iter().any(|q| is_one(r, *q))
}

fn is_control(t: &PTransfer) -> bool
    ensures { result ≡ is_control (hole_move_of t.now) }
{
    match t {
        PTransfer::Set(_, _) => false,
        PTransfer::Cc(_, _) => false,
        PTransfer::Store(_, _) => false,
        PTransfer::Goto => true,
        PTransfer::If(_, _) => true,
        PTransfer::Call(_, _) => true,
        PTransfer::Ret => true,
    }
}

fn is_away(t: &PTransfer) -> bool
    ensures { result ≡ is_away (hole_move_of t.now) }
{
    match t {
        PTransfer::Set(_, _) => false,
        PTransfer::Cc(_, _) => false,
        PTransfer::Store(_, _) => false,
        PTransfer::Goto => false,
        PTransfer::If(_, _) => false,
        PTransfer::Call(_, _) => true,
        PTransfer::Ret => true,
    }
}

fn any_control(ts: &[PTransfer]) -> bool
    ensures { result ≡ list_any (λ t. is_control (hole_move_of t)) ts.now }
{
    ts.iter().any(|t| is_control(t))
}

fn any_away(ts: &[PTransfer]) -> bool
    ensures { result ≡ list_any (λ t. is_away (hole_move_of t)) ts.now }
{
    ts.iter().any(|t| is_away(t))
}

/// Whether an instruction has a transfer of control.
#[tactic(auto, using(crate::proofs::Choices::any_move))]
pub fn has_control(a: &[PTransfer]) -> bool
    ensures { result ≡ list_any is_control (hole_moves_of a.now) }
{
    any_control(a)
}

/// Whether an instruction calls or returns.
#[tactic(auto, using(crate::proofs::Choices::any_move))]
pub fn goes_away(b: &[PTransfer]) -> bool
    ensures { result ≡ list_any is_away (hole_moves_of b.now) }
{
    any_away(b)
}

/// Whether a transfer of the second instruction sets something live, or does more than set.
fn is_wanted(t: &PTransfer, s: &Shape) -> bool
    ensures { result ≡ is_wanted (is_live_in (shape_of s.now)) s.now.cc (hole_move_of t.now) }
{
    match t {
        PTransfer::Set(r, _) => lives(s, *r),
        PTransfer::Cc(_, _) => s.cc,
        _ => true,
    }
}

/// Whether a register is live that an instruction doesn't set.
fn lives_unset(s: &Shape, r: PReg, b: &[PTransfer]) -> bool
    ensures { result ≡
        (is_live_in (shape_of s.now) r && not (is_some (right_at hole_leaves (InPReg r) (hole_moves_of b.now)))) }
{
    lives(s, r) && right_of(b, r).is_none()
}

/// Whether `cc` is live and an instruction doesn't set it.
fn cc_lives_unset(s: &Shape, b: &[PTransfer]) -> bool
    ensures { result ≡ (s.now.cc && not (is_some (cc_of (hole_moves_of b.now)))) }
{
    s.cc && compared(b).is_none()
}

/// Whether an instruction stores nothing.
fn stores_nothing(b: &[PTransfer]) -> bool
    ensures { result ≡ not (is_some (store_of (hole_moves_of b.now))) }
{
    stored(b).is_none()
}

/// Whether a transfer of the first instruction stays beside b, which has what is wanted of the second: where it sets
/// something that is live and that b doesn't set, and where it stores and b doesn't.
fn is_kept(t: &PTransfer, b: &[PTransfer], s: &Shape) -> bool
    ensures { result
        ≡ is_kept hole_leaves (is_live_in (shape_of s.now)) s.now.cc (hole_moves_of b.now) (hole_move_of t.now) }
{
    match t {
        PTransfer::Set(r, _) => lives_unset(s, *r, b),
        PTransfer::Cc(_, _) => cc_lives_unset(s, b),
        PTransfer::Store(_, _) => stores_nothing(b),
        _ => false,
    }
}

/// Whether a transfer is `r := r`.
fn is_idle(t: &PTransfer) -> bool
    ensures { result ≡ is_idle hole_leaves (hole_move_of t.now) }
{
    match t {
        PTransfer::Set(r, PTerm::Reg(q)) => is_one(*q, *r),
        _ => false,
    }
}

/// Leaves of the second instruction what is wanted.
pub fn keep_wanted(b: &mut Vec<PTransfer>, s: &Shape)
    ensures { hole_moves_of b.new.items ≡
        filter (is_wanted (is_live_in (shape_of s.now)) s.now.cc) (hole_moves_of b.old.items) }
{
    b.retain(|t| is_wanted(t, s));
}

/// Leaves of the first instruction what stays beside b.
pub fn keep_beside(a: &mut Vec<PTransfer>, b: &[PTransfer], s: &Shape)
    ensures { hole_moves_of a.new.items ≡
        filter (is_kept hole_leaves (is_live_in (shape_of s.now)) s.now.cc (hole_moves_of b.now))
        (hole_moves_of a.old.items) }
{
    a.retain(|t| is_kept(t, b, s));
}

/// Leaves out what sets a register to itself.
pub fn keep_moving(ts: &mut Vec<PTransfer>)
    ensures { hole_moves_of ts.new.items ≡ filter (λ m. not (is_idle hole_leaves m)) (hole_moves_of ts.old.items) }
{
    ts.retain(|t| !is_idle(t));
}
