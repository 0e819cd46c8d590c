//! The constructors of `neg`, `not`, `+` and `-`: what each makes of operands that are simplified.
//!
//! Each function has the rows of docs/OPTIMISER.md ("The simplifier") in their order. A constant stands on the right
//! of a sum, and a sum holds at most one.
ghost use Rattle.std.specs.Prelude.{◌≡◌, IfOk};
ghost use Rattle.po_term.specs.Terms.{tree_of};
ghost use Rattle.po_term.specs.Kinds.{words};
ghost use Rattle.po_term.specs.Simplified.{reg_eq, same_register, make_neg, make_not, plain, plus_const, minus_from};
ghost use Rattle.po_term.specs.Simplified.{make_minus, make_plus};
ghost use Rattle.po_simplify.specs.Staged.{plus_right, plus_from, plus_staged};

use crate::parts::{binary, boxed, unary};
use po_term::{Reg, Term};
use po_word::{Bin, OutOfMemory, Un, apply_bin, apply_un};
use std::alloc::Global;

/// The constructor of `neg(a)`.
pub fn negate(alloc: Global, a: Term) -> Result<Term, OutOfMemory>
    ensures { IfOk result (λ r. tree_of r ≡ (make_neg words same_register (tree_of a)).got) }
{
    match a {
        Term::Num(c) => Ok(Term::Num(apply_un(Un::Neg, c))),
        Term::Un(Un::Neg, t) => Ok(Box::into_inner(t)),
        a => unary(alloc, Un::Neg, a),
    }
}

/// The constructor of `not(a)`.
pub fn complement(alloc: Global, a: Term) -> Result<Term, OutOfMemory>
    ensures { IfOk result (λ r. tree_of r ≡ (make_not words same_register (tree_of a)).got) }
{
    match a {
        Term::Num(c) => Ok(Term::Num(apply_un(Un::Not, c))),
        Term::Un(Un::Not, t) => Ok(Box::into_inner(t)),
        a => unary(alloc, Un::Not, a),
    }
}

/// `(a op c)`, or `a` where c is 0.
pub fn unless_zero(alloc: Global, op: Bin, a: Term, c: u32) -> Result<Term, OutOfMemory>
    ensures { IfOk result (λ r. tree_of r ≡ (plain words same_register op (tree_of a) c).got) }
{
    if c == 0 {
        Ok(a)
    } else {
        binary(alloc, op, a, Term::Num(c))
    }
}

/// The constructor of `(a + c)`.
fn add_const(alloc: Global, a: Term, c: u32) -> Result<Term, OutOfMemory>
    ensures { IfOk result (λ r. tree_of r ≡ (plus_const words same_register (tree_of a) c).got) }
{
    match a {
        Term::Num(d) => Ok(Term::Num(apply_bin(Bin::Add, d, c))),
        Term::Bin(Bin::Add, t, u) => match Box::into_inner(u) {
            Term::Num(d) => {
                let e = apply_bin(Bin::Add, d, c);
                unless_zero(alloc, Bin::Add, Box::into_inner(t), e)
            }
            u => unless_zero(alloc, Bin::Add, Term::Bin(Bin::Add, t, boxed(alloc, u)?), c),
        },
        a => unless_zero(alloc, Bin::Add, a, c),
    }
}

/// Whether two registers are one.
fn is_same(r: Reg, s: Reg) -> bool
    ensures { result ≡ reg_eq r s }
{
    r == s
}

/// The constructor of `(c - b)`, where b is no constant.
fn subtract_from(alloc: Global, c: u32, b: Term) -> Result<Term, OutOfMemory>
    ensures { IfOk result (λ r. tree_of r ≡ (minus_from words same_register c (tree_of b)).got) }
{
    if c == 0 {
        negate(alloc, b)
    } else {
        binary(alloc, Bin::Sub, Term::Num(c), b)
    }
}

/// The constructor of `(a - b)`.
pub fn subtract(alloc: Global, a: Term, b: Term) -> Result<Term, OutOfMemory>
    ensures { IfOk result (λ r. tree_of r ≡ (make_minus words same_register (tree_of a) (tree_of b)).got) }
{
    match b {
        Term::Num(d) => match a {
            Term::Num(c) => Ok(Term::Num(apply_bin(Bin::Sub, c, d))),
            a => add_const(alloc, a, apply_un(Un::Neg, d)),
        },
        Term::Reg(s) => match a {
            Term::Num(c) => subtract_from(alloc, c, Term::Reg(s)),
            Term::Reg(r) => {
                if is_same(r, s) {
                    Ok(Term::Num(0))
                } else {
                    binary(alloc, Bin::Sub, Term::Reg(r), Term::Reg(s))
                }
            }
            a => binary(alloc, Bin::Sub, a, Term::Reg(s)),
        },
        b => match a {
            Term::Num(c) => subtract_from(alloc, c, b),
            a => binary(alloc, Bin::Sub, a, b),
        },
    }
}

/// The constructor of `(a + b)`, where a is neither a constant nor `(t + c)`.
fn add_right(alloc: Global, a: Term, b: Term) -> Result<Term, OutOfMemory>
    ensures { IfOk result (λ r. tree_of r ≡ (plus_right words same_register (tree_of a) (tree_of b)).got) }
{
    match b {
        Term::Num(c) => add_const(alloc, a, c),
        Term::Bin(Bin::Add, u, v) => match Box::into_inner(v) {
            Term::Num(d) => {
                let s = add_right(alloc, a, Box::into_inner(u))?;
                add_const(alloc, s, d)
            }
            v => binary(alloc, Bin::Add, a, Term::Bin(Bin::Add, u, boxed(alloc, v)?)),
        },
        Term::Un(Un::Neg, u) => subtract(alloc, a, Box::into_inner(u)),
        b => binary(alloc, Bin::Add, a, b),
    }
}

/// The constructor of `(c + b)`.
fn add_from(alloc: Global, c: u32, b: Term) -> Result<Term, OutOfMemory>
    ensures { IfOk result (λ r. tree_of r ≡ (plus_from words same_register c (tree_of b)).got) }
{
    match b {
        Term::Num(d) => Ok(Term::Num(apply_bin(Bin::Add, c, d))),
        b => add_const(alloc, b, c),
    }
}

/// The constructor of `(a + b)`, one operand at a time.
fn add_staged(alloc: Global, a: Term, b: Term) -> Result<Term, OutOfMemory>
    ensures { IfOk result (λ r. tree_of r ≡ (plus_staged words same_register (tree_of a) (tree_of b)).got) }
{
    match a {
        Term::Num(c) => add_from(alloc, c, b),
        Term::Bin(Bin::Add, t, u) => {
            if let Term::Num(c) = *u {
                match b {
                    Term::Num(d) => add_const(alloc, Term::Bin(Bin::Add, t, u), d),
                    Term::Bin(Bin::Add, x, y) => {
                        if let Term::Num(d) = *y {
                            let s = add_staged(alloc, Box::into_inner(t), Box::into_inner(x))?;
                            add_const(alloc, s, apply_bin(Bin::Add, c, d))
                        } else {
                            let s = add_staged(
                                alloc,
                                Box::into_inner(t),
                                Term::Bin(Bin::Add, x, y),
                            )?;
                            add_const(alloc, s, c)
                        }
                    }
                    b => {
                        let s = add_staged(alloc, Box::into_inner(t), b)?;
                        add_const(alloc, s, c)
                    }
                }
            } else {
                add_right(alloc, Term::Bin(Bin::Add, t, u), b)
            }
        }
        a => add_right(alloc, a, b),
    }
}

/// The constructor of `(a + b)`.
pub fn add(alloc: Global, a: Term, b: Term) -> Result<Term, OutOfMemory>
    ensures { IfOk result (λ r. tree_of r ≡ (make_plus words same_register (tree_of a) (tree_of b)).got) }
{
    let r = add_staged(alloc, a, b)?;
    Ok(r)
}
