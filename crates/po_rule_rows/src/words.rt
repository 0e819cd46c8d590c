//! Pairs beside the words of their shapes.
use crate::texts::{pair, shape_of};
use po_key::{shape_words, walk};
use po_term::Reg::{self, Arg, Rv, Virt};
use std::alloc::Global;
use std::test::Fail;

/// Two instructions, which registers are live after them, whether `cc` is, and the words of their shape.
type Row = (
    &'static str,
    &'static str,
    &'static [Reg],
    bool,
    &'static [usize],
);

const ROWS: [Row; 7] = [
    // %0 := (%1 + #0) | %2 := M[%0], live %2
    (
        "v0 := (v1 + 4)",
        "v2 := M[v0]",
        &[Virt(2)],
        false,
        &[0, 5, 0, 13, 0, 5, 1, 0, 0, 21, 5, 2, 11, 5, 0, 21, 5, 2],
    ),
    // rv := #0 | ret
    ("rv := 0", "ret", &[], false, &[0, 8, 0, 0, 21, 18, 21]),
    // %0 := #0 | %1 := (%2 + %0), live %1 and cc
    (
        "v3 := 1",
        "v4 := (v2 + v3)",
        &[Virt(4)],
        true,
        &[1, 5, 0, 0, 0, 21, 5, 1, 13, 0, 5, 2, 5, 0, 21, 5, 1],
    ),
    // arg1 := %0 ; arg0 := %1 | rv := arg1, live rv, arg0, arg1
    (
        "arg1 := v7 ; arg0 := v8",
        "rv := arg1",
        &[Rv, Arg(0), Arg(1)],
        false,
        &[0, 9, 1, 5, 0, 9, 0, 5, 1, 21, 8, 9, 1, 21, 8, 9, 0, 9, 1],
    ),
    // %0 := &0 | call &1 2, live %0
    (
        "v0 := &s7",
        "call &s9 2",
        &[Virt(0)],
        false,
        &[0, 5, 0, 10, 0, 21, 17, 1, 2, 21, 5, 0],
    ),
    // cc := %0 ? #0 | if cc ltu goto @0
    (
        "cc := v0 ? 3",
        "if cc ltu goto L5",
        &[],
        false,
        &[0, 19, 5, 0, 0, 0, 21, 15, 6, 0, 21],
    ),
    // M[(fp + #0)] := neg(%0) | if %1 ? #1 ne goto @0
    (
        "M[(fp + 4)] := neg(v0)",
        "if v1 ? 6 ne goto L0",
        &[],
        false,
        &[
            0, 20, 13, 0, 7, 0, 0, 12, 0, 5, 0, 21, 16, 1, 0, 5, 1, 0, 1, 21,
        ],
    ),
];

/// Whether the walk of a pair, and its shape, write these words.
fn are_words(alloc: Global, row: Row) -> Result<bool, Fail> {
    let (a, b, live, cc, words) = row;
    let pair = pair(alloc, a, b, live, cc)?;
    let walked = walk(alloc, &pair)?;
    let of_shape = shape_words(alloc, &shape_of(alloc, &pair)?)?;
    Ok(walked.words.as_slice() == words && of_shape.as_slice() == words)
}

#[test]
fn words(rt: HostRuntime) -> Result<(), Fail> {
    let alloc = rt.alloc();
    for row in ROWS {
        assert!(rt; are_words(alloc, row)?, "{} | {}", row.0, row.1);
    }
    Ok(())
}
