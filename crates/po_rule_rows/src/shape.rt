//! Pairs beside their shapes, and what stands at the holes of one.
use crate::texts::{pair, shape_of, values_of};
use po_model::{Pattern, Rule};
use po_rule::print_rule;
use po_term::Reg::{self, Arg, Rv, Virt};
use po_term::{Label, Sym};
use std::alloc::Global;
use std::test::Fail;

/// Two instructions, which registers are live after them, whether `cc` is, and the text of their shape.
type Row = (
    &'static str,
    &'static str,
    &'static [Reg],
    bool,
    &'static str,
);

const ROWS: [Row; 17] = [
    (
        "v3 := 1",
        "v4 := (v2 + v3)",
        &[Virt(4)],
        false,
        "%0 := #0 | %1 := (%2 + %0) live %1",
    ),
    (
        "v3 := 1",
        "v4 := (v2 + v3)",
        &[Virt(3), Virt(4)],
        false,
        "%0 := #0 | %1 := (%2 + %0) live %0 %1",
    ),
    (
        "v3 := 1",
        "v4 := (v2 + v3)",
        &[Virt(4)],
        true,
        "%0 := #0 | %1 := (%2 + %0) live %1 cc",
    ),
    // the live ones stand by the numbers of their holes, whatever their own are
    (
        "v4 := 1",
        "v3 := (v2 + v4)",
        &[Virt(3), Virt(4)],
        false,
        "%0 := #0 | %1 := (%2 + %0) live %0 %1",
    ),
    // equal constants have two holes
    (
        "v1 := (v0 + 5)",
        "v2 := (v1 + 5)",
        &[Virt(2)],
        false,
        "%0 := (%1 + #0) | %2 := (%0 + #1) live %2",
    ),
    // a register has one hole
    (
        "v1 := v2",
        "v3 := (v1 + v1)",
        &[Virt(3)],
        false,
        "%0 := %1 | %2 := (%0 + %0) live %2",
    ),
    (
        "v1 := v2",
        "v3 := (v1 + v4)",
        &[Virt(3)],
        false,
        "%0 := %1 | %2 := (%0 + %3) live %2",
    ),
    // the address before the value, and registers with names of their own
    (
        "M[(fp + 4)] := v1",
        "v2 := M[v3]",
        &[Virt(2)],
        false,
        "M[(fp + #0)] := %0 | %1 := M[%2] live %1",
    ),
    (
        "M[(v5 + 4)] := v1",
        "M[v1] := 4",
        &[],
        false,
        "M[(%0 + #0)] := %1 | M[%1] := #1 live -",
    ),
    (
        "arg1 := v7 ; arg0 := v8",
        "rv := arg1",
        &[Rv, Arg(0), Arg(1)],
        false,
        "arg1 := %0 ; arg0 := %1 | rv := arg1 live rv arg0 arg1",
    ),
    ("rv := 0", "ret", &[], false, "rv := #0 | ret live -"),
    // symbols
    (
        "v0 := &s7",
        "M[&s9] := (v0 + &s7)",
        &[],
        false,
        "%0 := &0 | M[&1] := (%0 + &0) live -",
    ),
    (
        "v0 := &s7",
        "call &s9 2",
        &[Virt(0)],
        false,
        "%0 := &0 | call &1 2 live %0",
    ),
    // the label
    (
        "v0 := 3",
        "if v0 ? 3 eq goto L5",
        &[],
        false,
        "%0 := #0 | if %0 ? #1 eq goto @0 live -",
    ),
    (
        "cc := v0 ? 3",
        "if cc ltu goto L5",
        &[],
        false,
        "cc := %0 ? #0 | if cc ltu goto @0 live -",
    ),
    (
        "cc := (neg(v4) * 2) ? v4",
        "goto L5",
        &[],
        true,
        "cc := (neg(%0) * #0) ? %0 | goto @0 live cc",
    ),
    // in the second instruction constants are counted on
    (
        "cc := v0 ? (3 - 4)",
        "if (v1 + 5) ? 6 ne goto L0",
        &[],
        false,
        "cc := %0 ? (#0 - #1) | if (%1 + #2) ? #3 ne goto @0 live -",
    ),
];

fn is_shape(alloc: Global, row: Row) -> Result<bool, Fail> {
    let (a, b, live, cc, text) = row;
    let shape = shape_of(alloc, &pair(alloc, a, b, live, cc)?)?;
    let rule = Rule {
        shape,
        asked: Vec::new(alloc),
        result: Pattern::Keep,
    };
    let text = format!(in alloc; "{text} ask - => keep")?;
    Ok(print_rule(alloc, &rule)?.as_slice() == text.as_bytes())
}

#[test]
fn shapes(rt: HostRuntime) -> Result<(), Fail> {
    let alloc = rt.alloc();
    for row in ROWS {
        assert!(rt; is_shape(alloc, row)?, "{}", row.4);
    }
    Ok(())
}

#[test]
fn values(rt: HostRuntime) -> Result<(), Fail> {
    let alloc = rt.alloc();
    let v = values_of(
        alloc,
        &pair(alloc, "v3 := 1", "v4 := (v2 + v3)", &[], false)?,
    )?;
    assert!(rt;
        v.regs.as_slice() == [Virt(3), Virt(4), Virt(2)].as_slice(),
        "v3, v4, v2"
    );
    assert!(rt; v.consts.as_slice() == [1u32].as_slice(), "1");
    let v = values_of(
        alloc,
        &pair(alloc, "v0 := &s7", "if v0 ? 3 eq goto L5", &[], false)?,
    )?;
    assert!(rt; v.syms.as_slice() == [Sym(7)].as_slice(), "s7");
    assert!(rt; v.label == Some(Label(5)), "L5");
    Ok(())
}
