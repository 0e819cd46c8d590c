//! The operators and relations on words at the edges of their ranges, and expressions, copies of them and questions.
//! The values are worked out by hand from the rules.

use po_word::{
    Bin, CExpr, OutOfMemory, Question, Rel, Un, answer, apply_bin, apply_un, copy_cexpr, holds,
    value,
};
use std::alloc::Global;

/// 2^31 - 1, the greatest word whose signed view isn't negative.
const TOP: u32 = 0x7fff_ffff;
/// 2^31, whose signed view is the least, -2^31.
const LOW: u32 = 0x8000_0000;
/// 2^32 - 1, whose signed view is -1.
const ONES: u32 = 0xffff_ffff;

const UN: [(Un, u32, u32); 10] = [
    (Un::Neg, 0, 0),
    (Un::Neg, 1, ONES),
    (Un::Neg, TOP, 0x8000_0001),
    (Un::Neg, LOW, LOW), // 2^32 - 2^31
    (Un::Neg, ONES, 1),
    (Un::Not, 0, ONES),
    (Un::Not, 1, 0xffff_fffe),
    (Un::Not, TOP, LOW),
    (Un::Not, LOW, TOP),
    (Un::Not, ONES, 0),
];

const BIN: [(Bin, u32, u32, u32); 49] = [
    (Bin::Add, 0, 0, 0),
    (Bin::Add, TOP, 1, LOW),
    (Bin::Add, LOW, LOW, 0),
    (Bin::Add, ONES, 1, 0),
    (Bin::Add, ONES, ONES, 0xffff_fffe),
    (Bin::Sub, 0, 1, ONES),
    (Bin::Sub, LOW, 1, TOP),
    (Bin::Sub, 0, LOW, LOW),
    (Bin::Sub, TOP, ONES, LOW), // 2^31 - 1 + 1
    (Bin::Sub, ONES, ONES, 0),
    (Bin::Mul, LOW, 2, 0),
    (Bin::Mul, LOW, 3, LOW), // 2^32 + 2^31
    (Bin::Mul, TOP, TOP, 1), // 2^62 - 2^32 + 1
    (Bin::Mul, ONES, ONES, 1), // -1 times -1
    (Bin::Mul, ONES, 0, 0),
    (Bin::And, ONES, TOP, TOP),
    (Bin::And, LOW, TOP, 0),
    (Bin::And, 0, ONES, 0),
    (Bin::Or, LOW, TOP, ONES),
    (Bin::Or, 0, LOW, LOW),
    (Bin::Or, 0, 0, 0),
    (Bin::Xor, ONES, LOW, TOP),
    (Bin::Xor, ONES, ONES, 0),
    (Bin::Xor, LOW, TOP, ONES),
    (Bin::Shl, ONES, 0, ONES),
    (Bin::Shl, 1, 31, LOW),
    (Bin::Shl, ONES, 31, LOW), // of the 32 ones the lowest is left
    (Bin::Shl, 1, 32, 1),
    (Bin::Shl, 1, 33, 2),
    (Bin::Shl, LOW, 33, 0),
    (Bin::Shl, 1, ONES, LOW), // 2^32 - 1 is 31 modulo 32
    (Bin::Sar, LOW, 0, LOW),
    (Bin::Sar, LOW, 31, ONES), // -2^31 over 2^31
    (Bin::Sar, LOW, 32, LOW),
    (Bin::Sar, LOW, 33, 0xc000_0000), // -2^30
    (Bin::Sar, TOP, 0, TOP),
    (Bin::Sar, TOP, 31, 0),
    (Bin::Sar, TOP, 33, 0x3fff_ffff),
    (Bin::Sar, ONES, 31, ONES), // the floor of -1 over 2^31
    (Bin::Sar, ONES, 33, ONES), // the floor of -1 over 2
    (Bin::Sar, 0xffff_fffd, 1, 0xffff_fffe), // the floor of -3 over 2 is -2
    (Bin::Shr, ONES, 0, ONES),
    (Bin::Shr, LOW, 31, 1),
    (Bin::Shr, LOW, 32, LOW),
    (Bin::Shr, LOW, 33, 0x4000_0000),
    (Bin::Shr, ONES, 31, 1),
    (Bin::Shr, ONES, 32, ONES),
    (Bin::Shr, ONES, 33, TOP),
    (Bin::Shr, TOP, 31, 0),
];

/// A pair of words, and whether eq, ne, lt, le, gt, ge, ltu, geu hold of it, in this order.
const REL: [(u32, u32, [bool; 8]); 9] = [
    (0, 0, [true, false, false, true, false, true, false, true]),
    (
        LOW,
        LOW,
        [true, false, false, true, false, true, false, true],
    ),
    (
        ONES,
        ONES,
        [true, false, false, true, false, true, false, true],
    ),
    (0, TOP, [false, true, true, true, false, false, true, false]),
    (0, LOW, [false, true, false, false, true, true, true, false]),
    (
        0,
        ONES,
        [false, true, false, false, true, true, true, false],
    ),
    (
        TOP,
        LOW,
        [false, true, false, false, true, true, true, false],
    ),
    (
        ONES,
        0,
        [false, true, true, true, false, false, false, true],
    ),
    (
        LOW,
        ONES,
        [false, true, true, true, false, false, true, false],
    ),
];

#[test]
fn edge_words(rt: HostRuntime) {
    for (op, a, want) in UN {
        assert_eq!(rt; apply_un(op, a), want, "{op:?} {a}");
    }
    for (op, a, b, want) in BIN {
        assert_eq!(rt; apply_bin(op, a, b), want, "{a} {op:?} {b}");
    }
    for (a, b, want) in REL {
        let got = [
            holds(Rel::Eq, a, b),
            holds(Rel::Ne, a, b),
            holds(Rel::Lt, a, b),
            holds(Rel::Le, a, b),
            holds(Rel::Gt, a, b),
            holds(Rel::Ge, a, b),
            holds(Rel::Ltu, a, b),
            holds(Rel::Geu, a, b),
        ];
        assert_eq!(rt; got, want, "{a} and {b}");
    }
}

/// `(#0 + #1)`
fn sum_of_holes(alloc: Global) -> Result<CExpr, OutOfMemory> {
    let x = Box::new(alloc, CExpr::Hole(0))?;
    let y = Box::new(alloc, CExpr::Hole(1))?;
    Ok(CExpr::Bin(Bin::Add, x, y))
}

/// `log2(#0)`
fn log2_of_hole(alloc: Global) -> Result<CExpr, OutOfMemory> {
    let x = Box::new(alloc, CExpr::Hole(0))?;
    Ok(CExpr::Log2(x))
}

/// `(not(#0) - log2(40))`
fn of_each_kind(alloc: Global) -> Result<CExpr, OutOfMemory> {
    let hole = Box::new(alloc, CExpr::Hole(0))?;
    let turned = Box::new(alloc, CExpr::Un(Un::Not, hole))?;
    let number = Box::new(alloc, CExpr::Num(40))?;
    let place = Box::new(alloc, CExpr::Log2(number))?;
    Ok(CExpr::Bin(Bin::Sub, turned, place))
}

#[test]
fn values_of_expressions(rt: HostRuntime) -> Result<(), OutOfMemory> {
    let alloc = rt.alloc();
    let sum = sum_of_holes(alloc)?;
    assert_eq!(rt; value(&sum, &[TOP, 1]), LOW, "(#0 + #1)");
    assert_eq!(rt; value(&sum, &[TOP]), TOP, "(#0 + #1) without a word for #1");
    let log = log2_of_hole(alloc)?;
    for (word, place) in [(0, 0), (1, 0), (8, 3), (LOW, 31), (ONES, 31)] {
        assert_eq!(rt; value(&log, &[word]), place, "log2 of {word}");
    }
    Ok(())
}

#[test]
fn copies_of_expressions(rt: HostRuntime) -> Result<(), OutOfMemory> {
    let alloc = rt.alloc();
    let e = of_each_kind(alloc)?;
    let copy = copy_cexpr(alloc, &e)?;
    assert_eq!(rt; value(&e, &[1]), 0xffff_fff9, "the expression"); // 2^32 - 2 - 5
    assert_eq!(rt; value(&copy, &[1]), 0xffff_fff9, "its copy");
    Ok(())
}

#[test]
fn answers_to_questions(rt: HostRuntime) -> Result<(), OutOfMemory> {
    let alloc = rt.alloc();
    let sum = sum_of_holes(alloc)?;
    assert!(rt;
        !answer(&Question::InRange(sum, -128, 127), &[TOP, 1]),
        "in((#0 + #1),-128,127)"
    );
    let log = log2_of_hole(alloc)?;
    assert!(rt;
        answer(&Question::InRange(log, 0, 31), &[8]),
        "in(log2(#0),0,31)"
    );
    Ok(())
}
