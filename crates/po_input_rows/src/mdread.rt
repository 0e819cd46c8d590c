//! Descriptions that are read, printed, and refused.

use po_mdread::{TINY, print_machine, read_machine};
use po_text::{Kind, Spot, TextRefusal};
use std::alloc::Global;
use std::test::Fail;

/// The machine's text printed again, and the place behind it; nothing where the text is refused.
fn again(alloc: Global, text: &str) -> Result<Option<(Vec<u8>, Spot)>, Fail> {
    match read_machine(alloc, text.as_bytes()) {
        Ok((machine, at)) => Ok(Some((print_machine(alloc, &machine)?, at))),
        Err(_) => Ok(None),
    }
}

/// The place and the kind of the first fault.
fn fault(alloc: Global, text: &str) -> Option<(u32, u32, Kind)> {
    fault_of(alloc, text.as_bytes())
}

fn fault_of(alloc: Global, text: &[u8]) -> Option<(u32, u32, Kind)> {
    match read_machine(alloc, text) {
        Err(TextRefusal::BadText { line, col, kind }) => Some((line, col, kind)),
        _ => None,
    }
}

#[test]
fn tiny_again(rt: HostRuntime) -> Result<(), Fail> {
    match again(rt.alloc(), TINY)? {
        Some((text, at)) => {
            assert!(rt; text.as_slice() == TINY.as_bytes());
            assert_eq!(rt; at.offset, TINY.len());
            assert_eq!(rt; at.line, 31);
        }
        None => assert!(rt; false),
    }
    Ok(())
}

/// What texts begin with: so many of the head lines.
const STARTS: [&str; 5] = [
    "",
    "machine tiny\n",
    "machine tiny\nframe fp\n",
    "machine tiny\nframe fp\nresult rv\n",
    "machine tiny\nframe fp\nresult rv\nargs a0 a1 a2 a3\n",
];

/// How many head lines a text begins with, what stands behind them, and the first fault.
type Row = (usize, &'static str, (u32, u32, Kind));

const FAULTS: [Row; 28] = [
    (0, "", (1, 1, Kind::Word)),
    (0, "\n// x\nmachin tiny", (3, 1, Kind::Word)),
    (0, "machine", (1, 8, Kind::Word)),
    (0, "machine a-b", (1, 9, Kind::Word)),
    (0, "machine a b", (1, 11, Kind::Word)),
    // The text ends too early, with and without a line feed.
    (1, "", (2, 1, Kind::Word)),
    (1, "frame fp", (3, 1, Kind::Word)),
    (1, "frame", (2, 6, Kind::Word)),
    (1, "fram fp", (2, 1, Kind::Word)),
    (1, "frame fp rv", (2, 10, Kind::Word)),
    (2, "result", (3, 7, Kind::Word)),
    (2, "result a-b", (3, 8, Kind::Word)),
    (2, "result fp", (3, 8, Kind::Duplicate)),
    (3, "args a0 a1 a2", (4, 14, Kind::Word)),
    (3, "args a0 a1 a2 a3 a4", (4, 18, Kind::Word)),
    (3, "args a0 rv a2 fp", (4, 9, Kind::Duplicate)),
    // The form comes before the repeated name.
    (3, "args a0 a0 a-2 a3", (4, 12, Kind::Word)),
    (4, "regs", (5, 5, Kind::Word)),
    (4, "regs r0 a-b", (5, 9, Kind::Word)),
    (4, "regs r0 fp", (5, 9, Kind::Duplicate)),
    (4, "regs r0 r1 r0", (5, 12, Kind::Duplicate)),
    (
        4,
        "regs r0\ninsn %0 := 2147483648 => x",
        (6, 12, Kind::Number),
    ),
    (4, "regs r0\ninsn %0 := #1[5,4] => x", (6, 14, Kind::Range)),
    (4, "regs r0\ninsn fp := %0 => x", (6, 6, Kind::ListForm)),
    (
        4,
        "regs r0\ninsn cc := %0 ? %1 clobber cc => x",
        (6, 20, Kind::NeverMatches),
    ),
    (4, "regs r0\ninsns ret => ret", (6, 1, Kind::Word)),
    (4, "regs r0\nend x", (6, 5, Kind::Word)),
    (4, "regs r0\n", (6, 1, Kind::Word)),
];

/// Names, terms and lists of registers that are too large, and what is just inside.
const SIZES: [Row; 12] = [
    // Names of 64 bytes, behind which the text ends.
    (
        1,
        "frame abcdefghabcdefghabcdefghabcdefghabcdefghabcdefghabcdefghabcdefgh",
        (3, 1, Kind::Word),
    ),
    (
        2,
        "result abcdefghabcdefghabcdefghabcdefghabcdefghabcdefghabcdefghabcdefgh",
        (4, 1, Kind::Word),
    ),
    (
        3,
        "args abcdefghabcdefghabcdefghabcdefghabcdefghabcdefghabcdefghabcdefgh a1 a2 a3",
        (5, 1, Kind::Word),
    ),
    (
        4,
        "regs abcdefghabcdefghabcdefghabcdefghabcdefghabcdefghabcdefghabcdefgh",
        (6, 1, Kind::Word),
    ),
    // The name is a byte too long.
    (
        1,
        "frame abcdefghabcdefghabcdefghabcdefghabcdefghabcdefghabcdefghabcdefghi",
        (2, 71, Kind::TooMany),
    ),
    (
        0,
        "machine abcdefghabcdefghabcdefghabcdefghabcdefghabcdefghabcdefghabcdefghi",
        (1, 73, Kind::TooMany),
    ),
    (
        2,
        "result abcdefghabcdefghabcdefghabcdefghabcdefghabcdefghabcdefghabcdefghi",
        (3, 72, Kind::TooMany),
    ),
    (
        3,
        "args a0 abcdefghabcdefghabcdefghabcdefghabcdefghabcdefghabcdefghabcdefghi",
        (4, 73, Kind::TooMany),
    ),
    (
        4,
        "regs abcdefghabcdefghabcdefghabcdefghabcdefghabcdefghabcdefghabcdefghi",
        (5, 70, Kind::TooMany),
    ),
    // A term of the depth 16, behind which the text ends, and one of the depth 17.
    (
        4,
        "regs r0\ninsn %0 := neg(neg(neg(neg(neg(neg(neg(neg(neg(neg(neg(neg(neg(neg(neg(%1))))))))))))))) => x\n",
        (7, 1, Kind::Word),
    ),
    (
        4,
        "regs r0\n\
            insn %0 := neg(neg(neg(neg(neg(neg(neg(neg(neg(neg(neg(neg(neg(neg(neg(neg(%1)))))))))))))))) => x",
        (6, 6, Kind::TooMany),
    ),
    // The names r0 to r64: the last one is too many.
    (
        4,
        "regs r0 r1 r2 r3 r4 r5 r6 r7 r8 r9 r10 r11 r12 r13 r14 r15 r16 r17 r18 r19 r20 r21 r22 r23 r24 r25 r26 \
            r27 r28 r29 r30 r31 r32 r33 r34 r35 r36 r37 r38 r39 r40 r41 r42 r43 r44 r45 r46 r47 r48 r49 r50 r51 \
            r52 r53 r54 r55 r56 r57 r58 r59 r60 r61 r62 r63 r64",
        (5, 252, Kind::TooMany),
    ),
];

/// The first fault of a text that begins with so many head lines.
fn fault_behind(alloc: Global, lines: usize, rest: &str) -> Result<Option<(u32, u32, Kind)>, Fail> {
    let start = STARTS.get(lines).copied().unwrap_or("");
    let text = format!(in alloc; "{start}{rest}")?;
    Ok(fault(alloc, &text))
}

#[test]
fn faults_of_descriptions(rt: HostRuntime) -> Result<(), Fail> {
    for (lines, rest, wanted) in FAULTS {
        assert_eq!(rt;
            fault_behind(rt.alloc(), lines, rest)?,
            Some(wanted),
            "{rest}"
        );
    }
    Ok(())
}

#[test]
fn sizes_of_descriptions(rt: HostRuntime) -> Result<(), Fail> {
    for (lines, rest, wanted) in SIZES {
        assert_eq!(rt;
            fault_behind(rt.alloc(), lines, rest)?,
            Some(wanted),
            "{rest}"
        );
    }
    Ok(())
}

#[test]
fn too_many_entries(rt: HostRuntime) -> Result<(), Fail> {
    let alloc = rt.alloc();
    let mut text = String::from_str(
        alloc,
        "machine tiny\nframe fp\nresult rv\nargs a0 a1 a2 a3\nregs r0\n",
    )?;
    for _ in 0..512 {
        text.push_str("insn ret => ret\n")?;
    }
    assert_eq!(rt; fault(alloc, &text), Some((518, 1, Kind::Word)));
    let whole = format!(in alloc; "{}end\n", text)?;
    assert!(rt; again(alloc, &whole)?.is_some());
    text.push_str("insn x\n")?;
    assert_eq!(rt; fault(alloc, &text), Some((518, 1, Kind::TooMany)));
    Ok(())
}

/// A description whose machine has a name of 64 bytes, with the registers r0 to r63, and a comment of so many bytes.
fn with_comment(alloc: Global, length: u32) -> Result<String, Fail> {
    let mut text = String::from_str(
        alloc,
        "machine abcdefghabcdefghabcdefghabcdefghabcdefghabcdefghabcdefghabcdefgh\nframe fp\nresult \
            rv\nargs a0 a1 a2 a3\nregs r0 r1 r2 r3 r4 r5 r6 r7 r8 r9 r10 r11 r12 r13 r14 r15 r16 r17 r18 r19 \
            r20 r21 r22 r23 r24 r25 r26 r27 r28 r29 r30 r31 r32 r33 r34 r35 r36 r37 r38 r39 r40 r41 r42 r43 \
            r44 r45 r46 r47 r48 r49 r50 r51 r52 r53 r54 r55 r56 r57 r58 r59 r60 r61 r62 r63\n//",
    )?;
    for _ in 2..length {
        text.push_str("x")?;
    }
    text.push_str("\nend\n")?;
    Ok(text)
}

#[test]
fn limits_of_descriptions(rt: HostRuntime) -> Result<(), Fail> {
    let alloc = rt.alloc();
    assert!(rt; again(alloc, &with_comment(alloc, 4096)?)?.is_some());
    let wanted = Some((6, 4097, Kind::TooMany));
    assert_eq!(rt; fault(alloc, &with_comment(alloc, 4097)?), wanted);
    Ok(())
}

#[test]
fn input_limit(rt: HostRuntime) -> Result<(), Fail> {
    let alloc = rt.alloc();
    // 8 * 524,288 bytes are 4,194,304, and have the first line's fault. One more is that fault alone.
    let mut text = Vec::from_slice(alloc, b"machine\n")?;
    for _ in 0..524287u32 {
        text.extend_from_slice(b"///////\n")?;
    }
    assert_eq!(rt; fault_of(alloc, &text), Some((1, 8, Kind::Word)));
    text.extend_from_slice(b"/")?;
    assert_eq!(rt; fault_of(alloc, &text), Some((524289, 1, Kind::TooMany)));
    Ok(())
}
