//! The constructors of `*`, `&`, `|`, `^` and the shifts: what each makes of operands that are simplified.
//!
//! Each function has the rows of docs/OPTIMISER.md ("The simplifier") in their order. A constant stands on the right.
ghost use Rattle.std.specs.Prelude.{◌≡◌, IfOk};
ghost use Rattle.po_word.specs.Exprs.{log2};
ghost use Rattle.po_term.specs.Terms.{tree_of};
ghost use Rattle.po_term.specs.Kinds.{words};
ghost use Rattle.po_term.specs.Simplified.{same_register, times_plain, times_const, and_plain, and_const, or_const};
ghost use Rattle.po_term.specs.Simplified.{xor_const, make_swapped, make_shift};
ghost use Rattle.po_simplify.specs.Staged.{onto_const};

use crate::parts::binary;
use crate::sums::unless_zero;
use po_term::Term;
use po_word::{Bin, OutOfMemory, apply_bin};
use std::alloc::Global;

/// The place of the highest one bit, from 0 to 31, and 0 of 0.
fn highest_one(c: u32) -> u32
    ensures { result ≡ log2 c }
{
    31u32.saturating_sub(c.leading_zeros())
}

/// `(a * c)` where a holds no constant factor: 0, `a`, a shift or a product.
fn scaled(alloc: Global, a: Term, c: u32) -> Result<Term, OutOfMemory>
    ensures { IfOk result (λ r. tree_of r ≡ (times_plain words same_register (tree_of a) c).got) }
{
    if c == 0 {
        Ok(Term::Num(0))
    } else if c == 1 {
        Ok(a)
    } else if c.is_power_of_two() {
        binary(alloc, Bin::Shl, a, Term::Num(highest_one(c)))
    } else {
        binary(alloc, Bin::Mul, a, Term::Num(c))
    }
}

/// `(a & c)` where a holds no constant mask: 0, `a` or a conjunction.
fn masked(alloc: Global, a: Term, c: u32) -> Result<Term, OutOfMemory>
    ensures { IfOk result (λ r. tree_of r ≡ (and_plain words same_register (tree_of a) c).got) }
{
    if c == 0 {
        Ok(Term::Num(0))
    } else if c == u32::MAX {
        Ok(a)
    } else {
        binary(alloc, Bin::And, a, Term::Num(c))
    }
}

/// The constructor of `(a * c)`.
fn multiply_const(alloc: Global, a: Term, c: u32) -> Result<Term, OutOfMemory>
    ensures { IfOk result (λ r. tree_of r ≡ (times_const words same_register (tree_of a) c).got) }
{
    match a {
        Term::Num(d) => Ok(Term::Num(apply_bin(Bin::Mul, d, c))),
        Term::Bin(Bin::Mul, t, u) => match Box::into_inner(u) {
            Term::Num(d) => multiply_const(alloc, Box::into_inner(t), apply_bin(Bin::Mul, d, c)),
            u => scaled(alloc, binary(alloc, Bin::Mul, Box::into_inner(t), u)?, c),
        },
        a => scaled(alloc, a, c),
    }
}

/// The constructor of `(a & c)`.
fn and_with_const(alloc: Global, a: Term, c: u32) -> Result<Term, OutOfMemory>
    ensures { IfOk result (λ r. tree_of r ≡ (and_const words same_register (tree_of a) c).got) }
{
    match a {
        Term::Num(d) => Ok(Term::Num(apply_bin(Bin::And, d, c))),
        Term::Bin(Bin::And, t, u) => match Box::into_inner(u) {
            Term::Num(d) => and_with_const(alloc, Box::into_inner(t), apply_bin(Bin::And, d, c)),
            u => masked(alloc, binary(alloc, Bin::And, Box::into_inner(t), u)?, c),
        },
        a => masked(alloc, a, c),
    }
}

/// The constructor of `(a | c)`.
fn or_with_const(alloc: Global, a: Term, c: u32) -> Result<Term, OutOfMemory>
    ensures { IfOk result (λ r. tree_of r ≡ (or_const words same_register (tree_of a) c).got) }
{
    match a {
        Term::Num(d) => Ok(Term::Num(apply_bin(Bin::Or, d, c))),
        Term::Bin(Bin::Or, t, u) => match Box::into_inner(u) {
            Term::Num(d) => or_with_const(alloc, Box::into_inner(t), apply_bin(Bin::Or, d, c)),
            u => {
                let a = binary(alloc, Bin::Or, Box::into_inner(t), u)?;
                unless_zero(alloc, Bin::Or, a, c)
            }
        },
        a => unless_zero(alloc, Bin::Or, a, c),
    }
}

/// The constructor of `(a ^ c)`.
fn xor_with_const(alloc: Global, a: Term, c: u32) -> Result<Term, OutOfMemory>
    ensures { IfOk result (λ r. tree_of r ≡ (xor_const words same_register (tree_of a) c).got) }
{
    match a {
        Term::Num(d) => Ok(Term::Num(apply_bin(Bin::Xor, d, c))),
        Term::Bin(Bin::Xor, t, u) => match Box::into_inner(u) {
            Term::Num(d) => xor_with_const(alloc, Box::into_inner(t), apply_bin(Bin::Xor, d, c)),
            u => {
                let a = binary(alloc, Bin::Xor, Box::into_inner(t), u)?;
                unless_zero(alloc, Bin::Xor, a, c)
            }
        },
        a => unless_zero(alloc, Bin::Xor, a, c),
    }
}

/// The constructor of `(a op c)`, for an operator that commutes.
fn with_const(alloc: Global, op: Bin, a: Term, c: u32) -> Result<Term, OutOfMemory>
    ensures { IfOk result (λ r. tree_of r ≡ (onto_const words same_register op (tree_of a) c).got) }
{
    match op {
        Bin::Mul => multiply_const(alloc, a, c),
        Bin::And => and_with_const(alloc, a, c),
        Bin::Or => or_with_const(alloc, a, c),
        Bin::Xor => xor_with_const(alloc, a, c),
        op => unless_zero(alloc, op, a, c),
    }
}

/// The constructor of `(a op b)`, for `*`, `&`, `|` and `^`.
pub fn commuting(alloc: Global, op: Bin, a: Term, b: Term) -> Result<Term, OutOfMemory>
    ensures { IfOk result (λ r. tree_of r ≡ (make_swapped words same_register op (onto_const words same_register op)
        (tree_of a) (tree_of b)).got) }
{
    match b {
        Term::Num(d) => match a {
            Term::Num(c) => Ok(Term::Num(apply_bin(op, c, d))),
            a => with_const(alloc, op, a, d),
        },
        b => match a {
            Term::Num(c) => with_const(alloc, op, b, c),
            a => binary(alloc, op, a, b),
        },
    }
}

/// The constructor of `(a op b)`, for the shifts.
pub fn shift(alloc: Global, op: Bin, a: Term, b: Term) -> Result<Term, OutOfMemory>
    ensures { IfOk result (λ r. tree_of r ≡ (make_shift words same_register op (tree_of a) (tree_of b)).got) }
{
    match b {
        Term::Num(d) => match a {
            Term::Num(c) => Ok(Term::Num(apply_bin(op, c, d))),
            a => unless_zero(alloc, op, a, d),
        },
        b => binary(alloc, op, a, b),
    }
}
