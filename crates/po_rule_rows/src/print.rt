//! Rules written as values, beside their texts. Their shapes are those of pairs.
use crate::texts::{pair, shape_of};
use crate::written::Becomes::{self, Goto, Keep, Set, Store};
use crate::written::Makes::{Copied, Number, WithConstant, WithRegister};
use crate::written::Over::{At, Log2, Sum};
use crate::written::{Asks, question, result};
use po_model::Rule;
use po_rule::print_rule;
use po_term::Reg::{self, Virt};
use po_word::Bin;
use std::alloc::Global;
use std::test::Fail;

/// Two instructions, which registers are live after them, questions with their answers, a result, and the text of the
/// rule.
type Row = (
    &'static str,
    &'static str,
    &'static [Reg],
    &'static [(Asks, bool)],
    Becomes,
    &'static str,
);

const ROWS: [Row; 10] = [
    (
        "v3 := 1",
        "v4 := (v2 + v3)",
        &[Virt(4)],
        &[
            (Asks::Zero(At(0)), false),
            (Asks::In(At(0), -128, 127), true),
        ],
        Set(1, WithConstant(2, Bin::Add, At(0))),
        "%0 := #0 | %1 := (%2 + %0) live %1 ask zero(#0) no, in(#0,-128,127) yes => %1 := (%2 + #0)",
    ),
    (
        "v3 := 0",
        "v4 := (v2 + v3)",
        &[Virt(4)],
        &[(Asks::Zero(At(0)), true)],
        Set(1, Copied(2)),
        "%0 := #0 | %1 := (%2 + %0) live %1 ask zero(#0) yes => %1 := %2",
    ),
    (
        "v3 := 200",
        "v4 := (v2 + v3)",
        &[Virt(4)],
        &[
            (Asks::Zero(At(0)), false),
            (Asks::In(At(0), -128, 127), false),
        ],
        Keep,
        "%0 := #0 | %1 := (%2 + %0) live %1 ask zero(#0) no, in(#0,-128,127) no => keep",
    ),
    (
        "v1 := (v0 + 5)",
        "v2 := (v1 + -5)",
        &[Virt(2)],
        &[(Asks::Zero(At(0)), false), (Asks::Zero(Sum(0, 1)), true)],
        Set(2, Copied(1)),
        "%0 := (%1 + #0) | %2 := (%0 + #1) live %2 ask zero(#0) no, zero((#0 + #1)) yes => %2 := %1",
    ),
    (
        "v1 := v2",
        "v3 := (v1 + v4)",
        &[Virt(3)],
        &[],
        Set(2, WithRegister(1, Bin::Add, 3)),
        "%0 := %1 | %2 := (%0 + %3) live %2 ask - => %2 := (%1 + %3)",
    ),
    (
        "M[(fp + 4)] := v1",
        "v2 := M[(fp + 5)]",
        &[Virt(2)],
        &[
            (Asks::Zero(At(0)), false),
            (Asks::Zero(At(1)), false),
            (Asks::Same(0, 1), false),
        ],
        Keep,
        "M[(fp + #0)] := %0 | %1 := M[(fp + #1)] live %1 ask zero(#0) no, zero(#1) no, same(#0,#1) no => keep",
    ),
    (
        "M[(fp + 4)] := v1",
        "M[(fp + 4)] := v2",
        &[],
        &[
            (Asks::Zero(At(0)), false),
            (Asks::Zero(At(1)), false),
            (Asks::Same(0, 1), true),
            (Asks::In(At(1), -128, 127), true),
        ],
        Store(1, 1),
        "M[(fp + #0)] := %0 | M[(fp + #1)] := %1 live - ask zero(#0) no, zero(#1) no, \
         same(#0,#1) yes, in(#1,-128,127) yes => M[(fp + #1)] := %1",
    ),
    (
        "v1 := 8",
        "v2 := (v0 * v1)",
        &[Virt(2)],
        &[
            (Asks::Zero(At(0)), false),
            (Asks::One(At(0)), false),
            (Asks::Pow2(At(0)), true),
            (Asks::In(Log2(0), 0, 31), true),
        ],
        Set(1, WithConstant(2, Bin::Shl, Log2(0))),
        "%0 := #0 | %1 := (%2 * %0) live %1 ask zero(#0) no, one(#0) no, pow2(#0) yes, \
         in(log2(#0),0,31) yes => %1 := (%2 << {log2(#0)})",
    ),
    (
        "v1 := v0",
        "v2 := (v1 - v0)",
        &[Virt(2)],
        &[],
        Set(2, Number(0)),
        "%0 := %1 | %2 := (%0 - %1) live %2 ask - => %2 := 0",
    ),
    (
        "v0 := 3",
        "if v0 ? 3 eq goto L0",
        &[],
        &[(Asks::Eq(0, 1), true)],
        Goto,
        "%0 := #0 | if %0 ? #1 eq goto @0 live - ask eq(#0,#1) yes => goto @0",
    ),
];

fn is_printed(alloc: Global, row: Row) -> Result<bool, Fail> {
    let (a, b, live, asks, becomes, text) = row;
    let shape = shape_of(alloc, &pair(alloc, a, b, live, false)?)?;
    let mut asked = Vec::new(alloc);
    for (asks, yes) in asks {
        asked.push((question(alloc, *asks)?, *yes))?;
    }
    let result = result(alloc, becomes)?;
    let rule = Rule {
        shape,
        asked,
        result,
    };
    Ok(print_rule(alloc, &rule)?.as_slice() == text.as_bytes())
}

#[test]
fn rules(rt: HostRuntime) -> Result<(), Fail> {
    let alloc = rt.alloc();
    for row in ROWS {
        assert!(rt; is_printed(alloc, row)?, "{}", row.5);
    }
    Ok(())
}
