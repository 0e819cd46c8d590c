//! What expressions and questions come to under words for their holes, and copies of expressions.
ghost use Rattle.std.specs.Prelude.{◌≡◌, IfOk, slice_index};
ghost use Rattle.po_word.specs.Exprs.{expr_value, ask_map, is_so, log2, Within};
ghost use Rattle.po_word.specs.Views.{expr_of, ask_of};

use crate::{CExpr, OutOfMemory, Question, apply_bin, apply_un, holds};
use std::alloc::Global;

/// The word of an expression, where hole k is the word k of `holes`, and a hole past their end is 0
/// (docs/RULES.md, "Questions"). It recurses as deep as the expression is.
pub fn value(e: &CExpr, holes: &[u32]) -> u32
    ensures { result ≡ expr_value holes.now (expr_of e.now) }
{
    match e {
        CExpr::Num(c) => *c,
        CExpr::Hole(k) => word_at(holes, *k),
        CExpr::Un(op, x) => apply_un(*op, value(x, holes)),
        CExpr::Bin(op, x, y) => apply_bin(*op, value(x, holes), value(y, holes)),
        CExpr::Log2(x) => highest_one(value(x, holes)),
    }
}

/// The word of a hole, and 0 of a hole that has no word.
fn word_at(holes: &[u32], k: u16) -> u32
    ensures { result ≡ slice_index holes.now k }
{
    match holes.get(usize::from(k)) {
        Some(word) => *word,
        None => 0,
    }
}

/// The place of the highest one bit, and 0 of 0.
fn highest_one(c: u32) -> u32
    ensures { result ≡ log2 c }
{
    31u32.saturating_sub(c.leading_zeros())
}

/// The answer to a question, where hole k is the word k of `holes`, and a hole past their end is 0
/// (docs/RULES.md, "Questions").
pub fn answer(q: &Question, holes: &[u32]) -> bool
    ensures { result ≡ is_so (ask_map (expr_value holes.now) (ask_of q.now)) }
{
    match q {
        Question::IsZero(e) => value(e, holes) == 0,
        Question::IsOne(e) => value(e, holes) == 1,
        Question::IsOnes(e) => value(e, holes) == u32::MAX,
        Question::IsPow2(e) => value(e, holes).is_power_of_two(),
        Question::InRange(e, lo, hi) => lies_within(value(e, holes), *lo, *hi),
        Question::Equal(e, f) => value(e, holes) == value(f, holes),
        Question::Holds(rel, e, f) => holds(*rel, value(e, holes), value(f, holes)),
    }
}

/// Whether the signed view of a word lies from lo to hi, both included.
fn lies_within(c: u32, lo: i32, hi: i32) -> bool
    ensures { result ≡ is_so (Within c lo hi) }
{
    let signed = c.cast_signed();
    lo <= signed && signed <= hi
}

/// An expression that equals e, or want of memory (docs/RULES.md, "Questions"). It recurses as deep as the expression
/// is.
pub fn copy_cexpr(alloc: Global, e: &CExpr) -> Result<CExpr, OutOfMemory>
    ensures { IfOk result (λ c. expr_of c ≡ expr_of e.now) }
{
    match e {
        CExpr::Num(c) => Ok(CExpr::Num(*c)),
        CExpr::Hole(k) => Ok(CExpr::Hole(*k)),
        CExpr::Un(op, x) => Ok(CExpr::Un(*op, Box::new(alloc, copy_cexpr(alloc, x)?)?)),
        CExpr::Bin(op, x, y) => Ok(CExpr::Bin(
            *op,
            Box::new(alloc, copy_cexpr(alloc, x)?)?,
            Box::new(alloc, copy_cexpr(alloc, y)?)?,
        )),
        CExpr::Log2(x) => Ok(CExpr::Log2(Box::new(alloc, copy_cexpr(alloc, x)?)?)),
    }
}
