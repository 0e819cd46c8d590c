//! How many transfers the list surely has that two instructions come to, told without making it.
//!
//! Counted are the transfers of the first that stay beside the second, and those of the second that are wanted. A set
//! isn't counted that may come to set a register to itself.
ghost use Rattle.std.specs.Prelude.{◌≡◌, ◌&&◌, ◌||◌, true, not, length, filter};
ghost use Rattle.std.specs.List.{list_any};
ghost use Rattle.po_term.specs.Terms.{tree_of};
ghost use Rattle.po_term.specs.Moves.{move_of, moves_of, instr_of};
ghost use Rattle.po_term.specs.Kinds.{words};
ghost use Rattle.po_model.specs.declared.var.Var.TheVariants.{Reg};
ghost use Rattle.po_model.specs.LiveAfter.{term_reads};
ghost use Rattle.po_model.specs.Parts.{code_leaves};
ghost use Rattle.po_model.specs.Joined.{NotJoined, joined};
ghost use Rattle.po_subst.specs.JoinedMoves.{at_most};
ghost use Rattle.po_subst.specs.Least.{may_read, stays, comes};
ghost use Rattle.po_subst.specs.Seen.{is_among};

use crate::choosing::{is_kept, lives};
use crate::parts::{compared, is_one};
use po_term::{Cond, Instr, Reg as Register, Term, Transfer};

/// Whether a term has a register.
fn has(t: &Term, r: Register) -> bool
    ensures { result ≡ term_reads (tree_of t.now) (Reg r) }
{
    match t {
        Term::Num(_) => false,
        Term::Reg(q) => is_one(*q, r),
        Term::Addr(_) => false,
        Term::Mem(x) => has(x, r),
        Term::Un(_, x) => has(x, r),
        Term::Bin(_, x, y) => has(x, r) || has(y, r),
    }
}

fn may_read(t: &Transfer, r: Register) -> bool
    ensures { result ≡ may_read r (move_of t.now) }
{
    match t {
        Transfer::Set(_, u) => has(u, r),
        Transfer::Cc(u, v) => has(u, r) || has(v, r),
        Transfer::Store(u, v) => has(u, r) || has(v, r),
        Transfer::Goto(_) => true,
        Transfer::If(_, _, _) => true,
        Transfer::Call(_, _) => true,
        Transfer::Ret => true,
    }
}

fn any_reads(xs: &[Transfer], r: Register) -> bool
    ensures { result ≡ list_any (λ t. may_read r (move_of t)) xs.now }
{
    xs.iter().any(|t| may_read(t, r))
}

/// Whether the first instruction may read a register.
#[tactic(auto, using(crate::proofs::Choices::any_move))]
fn is_read(a: &Instr, r: Register) -> bool
    ensures { result ≡ list_any (may_read r) (instr_of a.now) }
{
    any_reads(&a.xs, r)
}

/// Whether a transfer of the first instruction surely stays beside the second.
fn stays(t: &Transfer, b: &Instr, live: &[Register], cc_live: bool) -> bool
    ensures { result ≡ stays (is_among live.now) cc_live (instr_of b.now) (move_of t.now) }
{
    match t {
        Transfer::Set(r, u) => is_kept(t, b, live, cc_live) && !has(u, *r),
        _ => is_kept(t, b, live, cc_live),
    }
}

/// Whether a register surely comes to be set to another term than itself.
fn comes_set(r: Register, u: &Term, a: &Instr, live: &[Register]) -> bool
    ensures { result
        ≡ (is_among live.now r
        && (not (term_reads (tree_of u.now) (Reg r)) && not (list_any (may_read r) (instr_of a.now)))) }
{
    lives(live, r) && !has(u, r) && !is_read(a, r)
}

/// Whether a transfer of the second instruction surely comes into the list.
fn comes(t: &Transfer, a: &Instr, live: &[Register], cc_live: bool) -> bool
    ensures { result ≡ comes (is_among live.now) cc_live (instr_of a.now) (move_of t.now) }
{
    match t {
        Transfer::Set(r, u) => comes_set(*r, u, a, live),
        Transfer::Cc(_, _) => cc_live,
        Transfer::Store(_, _) => true,
        Transfer::Goto(_) => true,
        Transfer::If(Cond::Cc, _, _) => compared(a).is_none(),
        Transfer::If(Cond::Two(_, _), _, _) => false,
        Transfer::Call(_, _) => true,
        Transfer::Ret => true,
    }
}

fn staying_in(xs: &[Transfer], b: &Instr, live: &[Register], cc_live: bool) -> usize
    ensures { result ≡ length (filter (λ t. stays (is_among live.now) cc_live (instr_of b.now) (move_of t)) xs.now) }
{
    xs.iter().filter(|t| stays(t, b, live, cc_live)).count()
}

/// How many transfers of the first instruction surely stay.
#[tactic(auto, using(crate::proofs::Counted::passing))]
fn staying(a: &Instr, b: &Instr, live: &[Register], cc_live: bool) -> usize
    ensures { result ≡ length (filter (stays (is_among live.now) cc_live (instr_of b.now)) (instr_of a.now)) }
{
    staying_in(&a.xs, b, live, cc_live)
}

fn coming_in(xs: &[Transfer], a: &Instr, live: &[Register], cc_live: bool) -> usize
    ensures { result ≡ length (filter (λ t. comes (is_among live.now) cc_live (instr_of a.now) (move_of t)) xs.now) }
{
    xs.iter().filter(|t| comes(t, a, live, cc_live)).count()
}

/// How many transfers of the second instruction surely come.
#[tactic(auto, using(crate::proofs::Counted::passing))]
fn coming(a: &Instr, b: &Instr, live: &[Register], cc_live: bool) -> usize
    ensures { result ≡ length (filter (comes (is_among live.now) cc_live (instr_of a.now)) (instr_of b.now)) }
{
    coming_in(&b.xs, a, live, cc_live)
}

/// Whether the list that two instructions come to surely has more than so many transfers. It may have more where the
/// answer is no.
pub fn is_longer(most: usize, a: &Instr, b: &Instr, live: &[Register], cc_live: bool) -> bool
    ensures { result ≡ true → at_most most
        (joined words code_leaves (is_among live.now) cc_live (instr_of a.now) (instr_of b.now)).got ≡ NotJoined }
{
    let kept = staying(a, b, live, cc_live);
    if kept == 0 && b.xs.len() <= most {
        return false;
    }
    kept > most || coming(a, b, live, cc_live) > most - kept
}
