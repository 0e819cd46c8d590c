//! Terms with holes, and what the simplifier and the constructors make of them. The term's registers have the holes
//! `%0`, `%1`, .. and its constants `#0`, `#1`, .., from left to right.
use crate::texts::{no_questions, says, shaped};
use po_model::{PReg, PTerm, PTransfer, Pattern, Values};
use po_term::Reg::Rv;
use po_tsimp::{Path, make_bin_p, make_un_p, simplify_p};
use po_word::OutOfMemory;
use std::alloc::Global;
use std::test::Fail;

/// A term, and the questions and what it becomes.
type Row = (&'static str, &'static str);

/// Whole terms: the operands first, and then the constructor.
const TERMS: [Row; 4] = [
    // two sums with a constant: left, right, and then the sum of both
    (
        "((v1 + 5) + (v2 + 7))",
        "ask zero(#0) no, zero(#1) no, zero((#0 + #1)) no => rv := ((%0 + %1) + {(#0 + #1)})",
    ),
    (
        "((v1 + 5) + -5)",
        "ask zero(#0) no, zero((#0 + #1)) yes => rv := %0",
    ),
    // the last sum asks zero(#0) once more, and a question is kept once
    (
        "((v1 + 5) + (v2 - 0))",
        "ask zero(#0) no, zero(neg(#1)) yes => rv := ((%0 + %1) + #0)",
    ),
    ("M[(5 + v1)]", "ask zero(#0) no => rv := M[(%0 + #0)]"),
];

/// Constructors, of operands that are simplified.
const MADE: [Row; 16] = [
    ("neg(5)", "ask - => rv := {neg(#0)}"),
    ("not(not(v1))", "ask - => rv := %0"),
    // a fold asks nothing
    ("(5 + 7)", "ask - => rv := {(#0 + #1)}"),
    (
        "((v1 + 5) + 7)",
        "ask zero((#0 + #1)) no => rv := (%0 + {(#0 + #1)})",
    ),
    (
        "((v1 + 5) + (v2 + -5))",
        "ask zero((#0 + #1)) yes => rv := (%0 + %1)",
    ),
    ("(v1 - 5)", "ask zero(neg(#0)) no => rv := (%0 + {neg(#0)})"),
    ("(0 - v1)", "ask zero(#0) yes => rv := neg(%0)"),
    ("(v1 - v1)", "ask - => rv := 0"),
    // a product by 0, by 1, by a power of two and by another number
    ("(v1 * 0)", "ask zero(#0) yes => rv := 0"),
    ("(v1 * 1)", "ask zero(#0) no, one(#0) yes => rv := %0"),
    (
        "(v1 * 8)",
        "ask zero(#0) no, one(#0) no, pow2(#0) yes => rv := (%0 << {log2(#0)})",
    ),
    (
        "(6 * v1)",
        "ask zero(#0) no, one(#0) no, pow2(#0) no => rv := (%0 * #0)",
    ),
    (
        "((v1 * 6) * 5)",
        "ask zero((#0 * #1)) no, one((#0 * #1)) no, pow2((#0 * #1)) no => rv := (%0 * {(#0 * #1)})",
    ),
    ("(v1 & -1)", "ask zero(#0) no, ones(#0) yes => rv := %0"),
    ("((v1 ^ 6) ^ 6)", "ask zero((#0 ^ #1)) yes => rv := %0"),
    ("(v1 >> 3)", "ask zero(#0) no => rv := (%0 >> #0)"),
];

/// A term with holes, and what stands at them.
fn holed(alloc: Global, text: &str) -> Result<(PTerm, Values), Fail> {
    let text = format!(in alloc; "rv := {text}")?;
    let (mut shape, values) = shaped(alloc, text.as_str(), "rv := rv", &[])?;
    match shape.a.pop() {
        Some(PTransfer::Set(_, t)) => Ok((t, values)),
        _ => Err(Fail::from("no term")),
    }
}

/// `rv := t`
fn set_to(alloc: Global, t: PTerm) -> Result<Pattern, OutOfMemory> {
    let mut xs = Vec::new(alloc);
    xs.push(PTransfer::Set(PReg::Fixed(Rv), t))?;
    Ok(Pattern::One(xs))
}

fn is_simple(alloc: Global, row: Row) -> Result<bool, Fail> {
    let (t, v) = holed(alloc, row.0)?;
    let mut path = no_questions(alloc);
    let t = simplify_p(alloc, t, &v, &mut path)?;
    says(alloc, path, set_to(alloc, t)?, row.1)
}

/// What the constructor of a term's operator makes of its operands.
fn made(alloc: Global, t: PTerm, v: &Values, path: &mut Path) -> Result<PTerm, Fail> {
    match t {
        PTerm::Un(op, x) => Ok(make_un_p(alloc, op, Box::into_inner(x), v, path)?),
        PTerm::Bin(op, x, y) => Ok(make_bin_p(
            alloc,
            op,
            Box::into_inner(x),
            Box::into_inner(y),
            v,
            path,
        )?),
        _ => Err(Fail::from("no operator")),
    }
}

fn is_made(alloc: Global, row: Row) -> Result<bool, Fail> {
    let (t, v) = holed(alloc, row.0)?;
    let mut path = no_questions(alloc);
    let t = made(alloc, t, &v, &mut path)?;
    says(alloc, path, set_to(alloc, t)?, row.1)
}

#[test]
fn terms(rt: HostRuntime) -> Result<(), Fail> {
    let alloc = rt.alloc();
    for row in TERMS {
        assert!(rt; is_simple(alloc, row)?, "{}", row.0);
    }
    Ok(())
}

#[test]
fn constructors(rt: HostRuntime) -> Result<(), Fail> {
    let alloc = rt.alloc();
    for row in MADE {
        assert!(rt; is_made(alloc, row)?, "{}", row.0);
    }
    Ok(())
}
