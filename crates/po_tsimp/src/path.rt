//! The questions that were met, with their answers.
ghost use Rattle.std.specs.Prelude.{◌≡◌, [], ◌∷◌, ◌++◌, IfOk, OnOk};
ghost use Rattle.std.specs.List.{list_any};
ghost use Rattle.po_word.specs.Exprs.{Zero, One, Ones, Pow2};
ghost use Rattle.po_word.specs.Views.{expr_of, ask_of};
ghost use Rattle.po_term.specs.Kinds.{exprs};
ghost use Rattle.po_model.specs.Operators.{rel_eq};
ghost use Rattle.po_model.specs.Holed.{asked_of};
ghost use Rattle.po_model.specs.Generalised.{expr_eq, ask_eq, has_hole, asks_hole};
ghost use Rattle.po_tsimp.specs.Made.{path_of, is_kept, note};

use po_word::{CExpr, OutOfMemory, Question, answer, copy_cexpr, push};
use std::alloc::Global;

/// The questions that have a hole, each once, in the order in which they were met, with their answers.
#[derive(Drop)]
pub struct Path {
    pub asked: Vec<(Question, bool)>,
}

/// Whether two expressions are one.
fn same_expr(a: &CExpr, b: &CExpr) -> bool
    ensures { result ≡ expr_eq (expr_of a.now) (expr_of b.now) }
{
    match (a, b) {
        (CExpr::Num(c), CExpr::Num(d)) => *c == *d,
        (CExpr::Hole(j), CExpr::Hole(k)) => *j == *k,
        (CExpr::Un(o, x), CExpr::Un(p, y)) => *o == *p && same_expr(x, y),
        (CExpr::Bin(o, x, u), CExpr::Bin(p, y, v)) => *o == *p
            && same_expr(x, y)
            && same_expr(u, v),
        (CExpr::Log2(x), CExpr::Log2(y)) => same_expr(x, y),
        _ => false,
    }
}

/// Whether two questions are one.
fn same_question(a: &Question, b: &Question) -> bool
    ensures { result ≡ ask_eq (ask_of a.now) (ask_of b.now) }
{
    match (a, b) {
        (Question::IsZero(x), Question::IsZero(y)) => same_expr(x, y),
        (Question::IsOne(x), Question::IsOne(y)) => same_expr(x, y),
        (Question::IsOnes(x), Question::IsOnes(y)) => same_expr(x, y),
        (Question::IsPow2(x), Question::IsPow2(y)) => same_expr(x, y),
        (Question::InRange(x, lo, hi), Question::InRange(y, low, high)) => same_expr(x, y)
            && *lo == *low
            && *hi == *high,
        (Question::Equal(x, u), Question::Equal(y, v)) => same_expr(x, y) && same_expr(u, v),
        (Question::Holds(r, x, u), Question::Holds(s, y, v)) => *r == *s
            && same_expr(x, y)
            && same_expr(u, v),
        _ => false,
    }
}

/// Whether an expression has a hole.
fn expr_has_hole(e: &CExpr) -> bool
    ensures { result ≡ has_hole (expr_of e.now) }
{
    match e {
        CExpr::Num(_) => false,
        CExpr::Hole(_) => true,
        CExpr::Un(_, x) => expr_has_hole(x),
        CExpr::Bin(_, x, y) => expr_has_hole(x) || expr_has_hole(y),
        CExpr::Log2(x) => expr_has_hole(x),
    }
}

/// Whether a question has a hole.
fn question_has_hole(q: &Question) -> bool
    ensures { result ≡ asks_hole (ask_of q.now) }
{
    match q {
        Question::IsZero(x) => expr_has_hole(x),
        Question::IsOne(x) => expr_has_hole(x),
        Question::IsOnes(x) => expr_has_hole(x),
        Question::IsPow2(x) => expr_has_hole(x),
        Question::InRange(x, _, _) => expr_has_hole(x),
        Question::Equal(x, y) => expr_has_hole(x) || expr_has_hole(y),
        Question::Holds(_, x, y) => expr_has_hole(x) || expr_has_hole(y),
    }
}

fn any_same(path: &Path, q: &Question) -> bool
    ensures { result ≡ list_any (λ e. ask_eq (ask_of q.now) (ask_of e.0)) path.now.asked.items }
{
    path.asked.iter().any(|entry| same_question(q, &entry.0))
}

/// Whether the question is on the path.
fn was_asked(path: &Path, q: &Question) -> bool
    ensures { result ≡ is_kept (ask_of q.now) (path_of path.now) }
{
    any_same(path, q)
}

fn pushed(path: &mut Path, q: Question, yes: bool) -> Result<(), OutOfMemory>
    ensures { OnOk result (path.new.asked.items ≡ path.old.asked.items ++ (q, yes) ∷ []) }
{
    push(&mut path.asked, (q, yes))
}

/// The answer to a question, which goes onto the path where it has a hole and isn't there yet.
#[tactic(auto, using(crate::proofs::Paths::entries_more), unfolding(crate::specs::Made::note))]
pub fn ask(q: Question, holes: &[u32], path: &mut Path) -> Result<bool, OutOfMemory>
    ensures said { IfOk result (λ b. b ≡ (exprs holes.now).says (ask_of q)) }
    ensures noted { OnOk result (path_of path.new ≡ note holes.now (path_of path.old) (ask_of q)) }
{
    let said = answer(&q, holes);
    if question_has_hole(&q) && !was_asked(path, &q) {
        pushed(path, q, said)?;
    }
    Ok(said)
}

/// Whether the expression is 0.
pub fn is_zero(
    alloc: Global,
    c: &CExpr,
    holes: &[u32],
    path: &mut Path,
) -> Result<bool, OutOfMemory>
    ensures said { IfOk result (λ b. b ≡ (exprs holes.now).says (Zero (expr_of c.now))) }
    ensures noted { OnOk result (path_of path.new ≡ note holes.now (path_of path.old) (Zero (expr_of c.now))) }
{
    ask(Question::IsZero(copy_cexpr(alloc, c)?), holes, path)
}

/// Whether the expression is 1.
pub fn is_one(alloc: Global, c: &CExpr, holes: &[u32], path: &mut Path) -> Result<bool, OutOfMemory>
    ensures said { IfOk result (λ b. b ≡ (exprs holes.now).says (One (expr_of c.now))) }
    ensures noted { OnOk result (path_of path.new ≡ note holes.now (path_of path.old) (One (expr_of c.now))) }
{
    ask(Question::IsOne(copy_cexpr(alloc, c)?), holes, path)
}

/// Whether the expression is 2^32 - 1.
pub fn is_ones(
    alloc: Global,
    c: &CExpr,
    holes: &[u32],
    path: &mut Path,
) -> Result<bool, OutOfMemory>
    ensures said { IfOk result (λ b. b ≡ (exprs holes.now).says (Ones (expr_of c.now))) }
    ensures noted { OnOk result (path_of path.new ≡ note holes.now (path_of path.old) (Ones (expr_of c.now))) }
{
    ask(Question::IsOnes(copy_cexpr(alloc, c)?), holes, path)
}

/// Whether the expression has exactly one one-bit.
pub fn is_power(
    alloc: Global,
    c: &CExpr,
    holes: &[u32],
    path: &mut Path,
) -> Result<bool, OutOfMemory>
    ensures said { IfOk result (λ b. b ≡ (exprs holes.now).says (Pow2 (expr_of c.now))) }
    ensures noted { OnOk result (path_of path.new ≡ note holes.now (path_of path.old) (Pow2 (expr_of c.now))) }
{
    ask(Question::IsPow2(copy_cexpr(alloc, c)?), holes, path)
}
