//! Copies of instructions, and of the expressions of rules.
use crate::texts::{instr, pair, shape_of};
use crate::written::Over::{self, At, Log2, Sum};
use crate::written::expr;
use po_model::{Pattern, Rule};
use po_rule::print_rule;
use po_term::copy_instr;
use po_termtext::print_instr;
use po_word::{Question, copy_cexpr};
use std::alloc::Global;
use std::test::Fail;

const INSTRUCTIONS: [&str; 4] = [
    "v1 := (v0 + 5)",
    "v2 := (v1 + -5)",
    "v1 := 8",
    "v2 := (v0 * v1)",
];

const EXPRESSIONS: [(Over, &str); 3] = [
    (At(0), "zero(#0)"),
    (Sum(0, 1), "zero((#0 + #1))"),
    (Log2(0), "zero(log2(#0))"),
];

/// Whether the copy of an instruction has its text.
fn is_copied(alloc: Global, text: &str) -> Result<bool, Fail> {
    let copy = copy_instr(alloc, &instr(alloc, text)?)?;
    Ok(print_instr(alloc, &copy)?.as_slice() == text.as_bytes())
}

/// Whether a rule that asks whether the copy of an expression is 0 has this question.
fn asks(alloc: Global, e: Over, text: &str) -> Result<bool, Fail> {
    let copy = copy_cexpr(alloc, &expr(alloc, e)?)?;
    let shape = shape_of(alloc, &pair(alloc, "rv := 0", "ret", &[], false)?)?;
    let mut asked = Vec::new(alloc);
    asked.push((Question::IsZero(copy), true))?;
    let rule = Rule {
        shape,
        asked,
        result: Pattern::Keep,
    };
    let text = format!(in alloc; "rv := #0 | ret live - ask {text} yes => keep")?;
    Ok(print_rule(alloc, &rule)?.as_slice() == text.as_bytes())
}

#[test]
fn instructions(rt: HostRuntime) -> Result<(), Fail> {
    for text in INSTRUCTIONS {
        assert!(rt; is_copied(rt.alloc(), text)?, "{text}");
    }
    Ok(())
}

#[test]
fn expressions(rt: HostRuntime) -> Result<(), Fail> {
    for (e, text) in EXPRESSIONS {
        assert!(rt; asks(rt.alloc(), e, text)?, "{text}");
    }
    Ok(())
}
