//! Whether two rules are one. It is asked before a rule enters a table, so it takes no memory.
ghost use Rattle.std.specs.Prelude.{◌≡◌, ◌↔◌, map, IsTrue};
ghost use Rattle.po_word.specs.Views.{expr_of, ask_of};
ghost use Rattle.po_model.specs.Holed.{hole_tree_of, hole_branch_of, hole_move_of, hole_moves_of};
ghost use Rattle.po_model.specs.Holed.{shape_of, answered_of, asked_of, result_of, rule_of};

use po_model::{PCond, PReg, PTerm, PTransfer, Pattern, Rule, Shape};
use po_word::{CExpr, Question, Rel};

/// Whether two rules are one: the same shape, the same questions with the same answers in the same order, and the same
/// result (docs/RULES.md, "Tables"). It takes no memory, and recurses as deep as the shallower one's terms are.
pub fn same_rule(r: &Rule, s: &Rule) -> bool
    ensures { IsTrue result ↔ (rule_of r.now ≡ rule_of s.now) }
{
    if !same_shape(&r.shape, &s.shape) {
        return false;
    }
    same_asked(&r.asked, &s.asked) && same_result(&r.result, &s.result)
}

fn same_shape(s: &Shape, t: &Shape) -> bool
    ensures { IsTrue result ↔ (shape_of s.now ≡ shape_of t.now) }
{
    if s.cc != t.cc {
        return false;
    }
    if !same_transfers(&s.a, &t.a) {
        return false;
    }
    same_transfers(&s.b, &t.b) && same_registers(&s.live, &t.live)
}

fn same_registers(rs: &[PReg], qs: &[PReg]) -> bool
    ensures { IsTrue result ↔ (rs.now ≡ qs.now) }
{
    match rs {
        [] => qs.is_empty(),
        [r, rs @ ..] => match qs {
            [] => false,
            [q, qs @ ..] => *r == *q && same_registers(rs, qs),
        },
    }
}

fn same_transfers(xs: &[PTransfer], ys: &[PTransfer]) -> bool
    ensures { IsTrue result ↔ (hole_moves_of xs.now ≡ hole_moves_of ys.now) }
{
    match xs {
        [] => ys.is_empty(),
        [x, xs @ ..] => match ys {
            [] => false,
            [y, ys @ ..] => same_transfer(x, y) && same_transfers(xs, ys),
        },
    }
}

fn same_transfer(x: &PTransfer, y: &PTransfer) -> bool
    ensures { IsTrue result ↔ (hole_move_of x.now ≡ hole_move_of y.now) }
{
    match (x, y) {
        (PTransfer::Set(r, t), PTransfer::Set(q, u)) => *r == *q && same_term(t, u),
        (PTransfer::Cc(t, v), PTransfer::Cc(u, w)) => same_term(t, u) && same_term(v, w),
        (PTransfer::Store(t, v), PTransfer::Store(u, w)) => same_term(t, u) && same_term(v, w),
        (PTransfer::Goto, PTransfer::Goto) => true,
        (PTransfer::If(c, r), PTransfer::If(d, s)) => same_branch(c, *r, d, *s),
        (PTransfer::Call(k, n), PTransfer::Call(j, o)) => *k == *j && *n == *o,
        (PTransfer::Ret, PTransfer::Ret) => true,
        _ => false,
    }
}

fn same_branch(c: &PCond, r: Rel, d: &PCond, s: Rel) -> bool
    ensures { IsTrue result ↔ (hole_branch_of c.now r ≡ hole_branch_of d.now s) }
{
    match (c, d) {
        (PCond::Cc, PCond::Cc) => r == s,
        (PCond::Two(t, v), PCond::Two(u, w)) => r == s && (same_term(t, u) && same_term(v, w)),
        _ => false,
    }
}

fn same_term(t: &PTerm, u: &PTerm) -> bool
    ensures { IsTrue result ↔ (hole_tree_of t.now ≡ hole_tree_of u.now) }
{
    match (t, u) {
        (PTerm::Const(e), PTerm::Const(f)) => same_expr(e, f),
        (PTerm::Reg(r), PTerm::Reg(q)) => *r == *q,
        (PTerm::Addr(j), PTerm::Addr(k)) => *j == *k,
        (PTerm::Mem(x), PTerm::Mem(y)) => same_term(x, y),
        (PTerm::Un(o, x), PTerm::Un(p, y)) => *o == *p && same_term(x, y),
        (PTerm::Bin(o, x, v), PTerm::Bin(p, y, w)) => {
            *o == *p && (same_term(x, y) && same_term(v, w))
        }
        _ => false,
    }
}

fn same_expr(e: &CExpr, f: &CExpr) -> bool
    ensures { IsTrue result ↔ (expr_of e.now ≡ expr_of f.now) }
{
    match (e, f) {
        (CExpr::Num(c), CExpr::Num(d)) => *c == *d,
        (CExpr::Hole(j), CExpr::Hole(k)) => *j == *k,
        (CExpr::Un(o, x), CExpr::Un(p, y)) => *o == *p && same_expr(x, y),
        (CExpr::Bin(o, x, u), CExpr::Bin(p, y, v)) => {
            *o == *p && (same_expr(x, y) && same_expr(u, v))
        }
        (CExpr::Log2(x), CExpr::Log2(y)) => same_expr(x, y),
        _ => false,
    }
}

fn same_question(q: &Question, r: &Question) -> bool
    ensures { IsTrue result ↔ (ask_of q.now ≡ ask_of r.now) }
{
    match (q, r) {
        (Question::IsZero(e), Question::IsZero(f)) => same_expr(e, f),
        (Question::IsOne(e), Question::IsOne(f)) => same_expr(e, f),
        (Question::IsOnes(e), Question::IsOnes(f)) => same_expr(e, f),
        (Question::IsPow2(e), Question::IsPow2(f)) => same_expr(e, f),
        (Question::InRange(e, lo, hi), Question::InRange(f, low, high)) => {
            *lo == *low && (*hi == *high && same_expr(e, f))
        }
        (Question::Equal(e, g), Question::Equal(f, h)) => same_expr(e, f) && same_expr(g, h),
        (Question::Holds(s, e, g), Question::Holds(t, f, h)) => {
            *s == *t && (same_expr(e, f) && same_expr(g, h))
        }
        _ => false,
    }
}

fn same_answered(a: &(Question, bool), b: &(Question, bool)) -> bool
    ensures { IsTrue result ↔ (answered_of a.now ≡ answered_of b.now) }
{
    let (q, yes) = a;
    let (r, too) = b;
    *yes == *too && same_question(q, r)
}

fn same_asked(xs: &[(Question, bool)], ys: &[(Question, bool)]) -> bool
    ensures { IsTrue result ↔ (asked_of xs.now ≡ asked_of ys.now) }
{
    match xs {
        [] => ys.is_empty(),
        [x, xs @ ..] => match ys {
            [] => false,
            [y, ys @ ..] => same_answered(x, y) && same_asked(xs, ys),
        },
    }
}

fn same_result(p: &Pattern, q: &Pattern) -> bool
    ensures { IsTrue result ↔ (result_of p.now ≡ result_of q.now) }
{
    match (p, q) {
        (Pattern::Keep, Pattern::Keep) => true,
        (Pattern::Nothing, Pattern::Nothing) => true,
        (Pattern::One(xs), Pattern::One(ys)) => same_transfers(xs, ys),
        _ => false,
    }
}
