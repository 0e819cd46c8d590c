//! Whether a pair has a shape. The pair is compared as it stands, each virtual register, symbol and constant by its
//! hole; its own shape isn't made.
//!
//! `n` is the number of the first constant that is compared. Each `match_` function gives that of the next one behind
//! what it compares, and None where that differs.
ghost use Rattle.std.specs.Prelude.{◌≡◌, ◌≢◌, ◌+◌, ◌≤◌, ◌++◌, ◌↔◌, IsTrue, MatchOption};
ghost use Rattle.po_word.specs.Exprs.{AtHole};
ghost use Rattle.po_word.specs.Views.{expr_of};
ghost use Rattle.po_term.specs.Terms.{tree_of};
ghost use Rattle.po_term.specs.Moves.{move_of, moves_of, instr_of};
ghost use Rattle.po_model.specs.LiveSet.{is_live};
ghost use Rattle.po_model.specs.Pairs.{pair_of};
ghost use Rattle.po_model.specs.Holed.{values_of, hole_tree_of, hole_move_of, hole_moves_of, shape_of};
ghost use Rattle.po_model.specs.Shape.{constants, move_constants, moves_constants, hole_tree, hole_move, hole_moves};
ghost use Rattle.po_model.specs.Shape.{live_holes, settable, shape_with};
ghost use Rattle.po_skel.specs.Few.{HasFew};

use crate::holes::{SETTABLE, hole_register, hole_symbol, lives};
use po_model::{Live, PCond, PReg, PTerm, PTransfer, Pair, Shape, Values};
use po_term::{Cond, Reg, Term, Transfer};
use po_word::CExpr;

/// One constant.
fn match_constant(n: u16, e: &CExpr) -> Option<u16>
    requires { n + 1 ≤ 65535 }
    ensures { MatchOption result (expr_of e.now ≢ AtHole n) (λ m. (expr_of e.now ≡ AtHole n) × (m ≡ n + 1)) }
{
    match e {
        CExpr::Hole(k) => if *k == n { Some(n + 1) } else { None },
        _ => None,
    }
}

fn match_term(v: &Values, n: u16, s: &PTerm, t: &Term) -> Option<u16>
    requires values { HasFew (values_of v.now) }
    requires consts { n + constants (tree_of t.now) ≤ 65535 }
    ensures { MatchOption result (hole_tree_of s.now ≢ hole_tree (values_of v.now) n (tree_of t.now))
        (λ m. (hole_tree_of s.now ≡ hole_tree (values_of v.now) n (tree_of t.now))
        × (m ≡ n + constants (tree_of t.now))) }
{
    match (s, t) {
        (PTerm::Const(e), Term::Num(_)) => match_constant(n, e),
        (PTerm::Reg(p), Term::Reg(r)) => if *p == hole_register(v, *r) {
            Some(n)
        } else {
            None
        },
        (PTerm::Addr(k), Term::Addr(s)) => if *k == hole_symbol(v, *s) {
            Some(n)
        } else {
            None
        },
        (PTerm::Mem(x), Term::Mem(y)) => match_term(v, n, x, y),
        (PTerm::Un(o, x), Term::Un(p, y)) => if *o == *p {
            match_term(v, n, x, y)
        } else {
            None
        },
        (PTerm::Bin(o, x, u), Term::Bin(p, y, w)) => {
            if *o == *p {
                let n = match_term(v, n, x, y)?;
                match_term(v, n, u, w)
            } else {
                None
            }
        }
        _ => None,
    }
}

fn match_transfer(v: &Values, n: u16, s: &PTransfer, t: &Transfer) -> Option<u16>
    requires values { HasFew (values_of v.now) }
    requires consts { n + move_constants (move_of t.now) ≤ 65535 }
    ensures { MatchOption result (hole_move_of s.now ≢ hole_move (values_of v.now) n (move_of t.now))
        (λ m. (hole_move_of s.now ≡ hole_move (values_of v.now) n (move_of t.now))
        × (m ≡ n + move_constants (move_of t.now))) }
{
    match (s, t) {
        (PTransfer::Set(p, x), Transfer::Set(r, y)) => {
            if *p == hole_register(v, *r) {
                match_term(v, n, x, y)
            } else {
                None
            }
        }
        (PTransfer::Cc(x, u), Transfer::Cc(y, w)) => {
            let n = match_term(v, n, x, y)?;
            match_term(v, n, u, w)
        }
        (PTransfer::Store(x, u), Transfer::Store(y, w)) => {
            let n = match_term(v, n, x, y)?;
            match_term(v, n, u, w)
        }
        (PTransfer::Goto, Transfer::Goto(_)) => Some(n),
        (PTransfer::If(PCond::Cc, r), Transfer::If(Cond::Cc, q, _)) => {
            if *r == *q { Some(n) } else { None }
        }
        (PTransfer::If(PCond::Two(x, u), r), Transfer::If(Cond::Two(y, w), q, _)) => {
            if *r == *q {
                let n = match_term(v, n, x, y)?;
                match_term(v, n, u, w)
            } else {
                None
            }
        }
        (PTransfer::Call(k, i), Transfer::Call(s, j)) => {
            if *k == hole_symbol(v, *s) && *i == *j {
                Some(n)
            } else {
                None
            }
        }
        (PTransfer::Ret, Transfer::Ret) => Some(n),
        _ => None,
    }
}

fn match_transfers(v: &Values, n: u16, ss: &[PTransfer], ts: &[Transfer]) -> Option<u16>
    requires values { HasFew (values_of v.now) }
    requires consts { n + moves_constants (moves_of ts.now) ≤ 65535 }
    ensures { MatchOption result (hole_moves_of ss.now ≢ hole_moves (values_of v.now) n (moves_of ts.now))
        (λ m. (hole_moves_of ss.now ≡ hole_moves (values_of v.now) n (moves_of ts.now))
        × (m ≡ n + moves_constants (moves_of ts.now))) }
{
    match ss {
        [] => match ts {
            [] => Some(n),
            _ => None,
        },
        [s, ss @ ..] => match ts {
            [] => None,
            [t, ts @ ..] => {
                let n = match_transfer(v, n, s, t)?;
                match_transfers(v, n, ss, ts)
            }
        },
    }
}

/// Whether both instructions have the shape's transfers.
fn match_pair(v: &Values, s: &Shape, p: &Pair) -> bool
    requires values { HasFew (values_of v.now) }
    requires consts { moves_constants (instr_of p.now.a) + moves_constants (instr_of p.now.b) ≤ 65535 }
    ensures { IsTrue result ↔ ((hole_moves_of s.now.a.items ≡ hole_moves (values_of v.now) 0 (instr_of p.now.a))
        × (hole_moves_of s.now.b.items
        ≡ hole_moves (values_of v.now) (moves_constants (instr_of p.now.a)) (instr_of p.now.b))) }
{
    match match_transfers(v, 0, &s.a, &p.a.xs) {
        Some(n) => match_transfers(v, n, &s.b, &p.b.xs).is_some(),
        None => false,
    }
}

/// Whether these are the holes of those of the registers rs that are live.
fn match_live(v: &Values, live: &Live, rs: &[Reg], holes: &[PReg]) -> bool
    requires { HasFew (values_of v.now) }
    ensures { IsTrue result ↔ (holes.now ≡ live_holes (values_of v.now) (is_live live.now) rs.now) }
{
    match rs {
        [] => holes.is_empty(),
        [r, rs @ ..] => if lives(live, *r) {
            match holes {
                [] => false,
                [hole, holes @ ..] => *hole == hole_register(v, *r)
                    && match_live(v, live, rs, holes),
            }
        } else {
            match_live(v, live, rs, holes)
        },
    }
}

/// Whether these are the holes of those of the registers rs that are live, and then of those of qs.
fn match_both_live(v: &Values, live: &Live, rs: &[Reg], qs: &[Reg], holes: &[PReg]) -> bool
    requires { HasFew (values_of v.now) }
    ensures { IsTrue result ↔ (holes.now ≡ live_holes (values_of v.now) (is_live live.now) rs.now
        ++ live_holes (values_of v.now) (is_live live.now) qs.now) }
{
    match rs {
        [] => match_live(v, live, qs, holes),
        [r, rs @ ..] => if lives(live, *r) {
            match holes {
                [] => false,
                [hole, holes @ ..] => {
                    *hole == hole_register(v, *r) && match_both_live(v, live, rs, qs, holes)
                }
            }
        } else {
            match_both_live(v, live, rs, qs, holes)
        },
    }
}

fn same_bit(a: bool, b: bool) -> bool
    ensures { IsTrue result ↔ (a ≡ b) }
{
    a == b
}

/// Whether what is live after the pair is what the shape says.
pub fn match_after(v: &Values, s: &Shape, p: &Pair) -> bool
    requires { HasFew (values_of v.now) }
    ensures { IsTrue result ↔ ((s.now.live.items ≡ live_holes (values_of v.now) (is_live p.now.live) v.now.regs.items
        ++ live_holes (values_of v.now) (is_live p.now.live) settable) × (s.now.cc ≡ p.now.live.cc)) }
{
    match_both_live(v, &p.live, &v.regs, &SETTABLE, &s.live) && same_bit(s.cc, p.live.cc)
}

/// Whether the pair has the shape, where `v` stands at its holes.
pub fn has_shape(v: &Values, s: &Shape, p: &Pair) -> bool
    requires values { HasFew (values_of v.now) }
    requires consts { moves_constants (instr_of p.now.a) + moves_constants (instr_of p.now.b) ≤ 65535 }
    ensures { IsTrue result ↔ (shape_of s.now ≡ shape_with (values_of v.now) (pair_of p.now)) }
{
    match_pair(v, s, p) && match_after(v, s, p)
}
