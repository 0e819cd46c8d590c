//! Faults with their places, texts that end too early, limits, and printed units. Lines are counted from 31, as where
//! a description of 30 lines stands before the units.
use itoa::Buffer;
use po_ir::{print_unit, printed_units_are_read, read_units, units_are_written};
use po_text::{Kind, Spot, TextRefusal};
use std::alloc::{AllocError, Global};
use std::test::Fail;

/// A loop over an array, a counter in memory and a call.
const SUM: &str =
    "unit sum\nadl 3\ncon 0\nsto\nadl 4\ncon 0\nsto\nlab top\nadl 3\nlod\nadl 1\nlod\nbge out\nadl 4\nadl 4\nlod\n\
        adl 2\nlod\nadl 3\nlod\nadd\nlod\nadd\nsto\nadl 3\nadl 3\nlod\ncon 1\nadd\nsto\njmp top\nlab out\nadg calls\n\
        adg calls\nlod\ncon 1\nadd\nsto\nadl 4\nlod\narg 0\ncall note 1\npop\nadl 4\nlod\nret\nend\n";

/// The operations that the other one lacks.
const OTHERS: &str =
    "unit others\ncon -2147483648\ncon 2147483647\nsub\ncon -1\nmul\ndup\nand\ncon 2\nior\ncon 3\nxor\ncon 4\nshl\n\
        con 5\nshr\ncon 6\nsar\nneg\nnot\npop\nadl -1\ndup\nbeq a\nadl 1\ndup\nbne a\nadl 1\ndup\nblt a\nadl 1\ndup\n\
        ble a\nadl 1\ndup\nbgt a\nadl 1\ndup\nbltu a\nadl 1\ndup\nbgeu a\nlab a\njmp a\nend\n";

const FAULTS: [(&str, u32, u32, Kind); 70] = [
    ("unit f\ncon 1\nre\n", 33, 1, Kind::Word),
    ("unit f\nlab a\nlab a\n", 33, 5, Kind::Duplicate),
    ("unit f\nend\n", 32, 1, Kind::FallsOff),
    ("unit f\ncon 1\njmp L\n", 33, 1, Kind::StackAtBoundary),
    ("unit f\njmp L\nend\n", 32, 5, Kind::NoLabel),
    ("unit f\ncall g 1\n", 32, 1, Kind::ArgMissing),
    // 65 letters
    (
        "unit abcdefghabcdefghabcdefghabcdefghabcdefghabcdefghabcdefghabcdefghi\n",
        31,
        70,
        Kind::TooMany,
    ),
    ("end\n", 31, 1, Kind::Word),
    ("unit\n", 31, 5, Kind::Word),
    ("unit a-b\n", 31, 6, Kind::Word),
    ("unit f g\n", 31, 8, Kind::Word),
    (
        "unit f\nlab a\njmp a\nend\nunit f\n",
        35,
        6,
        Kind::Duplicate,
    ),
    ("unit f\ncon 4294967296\n", 32, 5, Kind::Number),
    ("unit f\ncon 12345678901\n", 32, 5, Kind::Word),
    ("unit f\n\tcon\t1 2\n", 32, 8, Kind::Word),
    ("unit f\ncon 1\narg 4\n", 33, 5, Kind::Number),
    ("unit f\ncall g 5\n", 32, 8, Kind::Number),
    ("unit f\ncon 1\nadd\n", 33, 1, Kind::StackUnderflow),
    ("unit f\ncon 1\nlab a\n", 33, 1, Kind::StackAtBoundary),
    // an argument of the block before
    (
        "unit f\ncon 1\narg 0\nlab a\ncall g 1\n",
        35,
        1,
        Kind::ArgMissing,
    ),
    // the first of two jumps
    (
        "unit f\ncon 1\ndup\nbeq a\njmp b\nend\n",
        34,
        5,
        Kind::NoLabel,
    ),
    // a label of another unit
    (
        "unit f\nlab a\njmp a\nend\nunit g\njmp a\nend\n",
        36,
        5,
        Kind::NoLabel,
    ),
    // a further word, before the end that is reached
    ("unit f\nend x\n", 32, 5, Kind::Word),
    // a label that is there already, before the value that is left
    ("unit f\nlab a\ncon 1\nlab a\n", 34, 5, Kind::Duplicate),
    // 64 letters
    (
        "unit abcdefghabcdefghabcdefghabcdefghabcdefghabcdefghabcdefghabcdefgh\nend\n",
        32,
        1,
        Kind::FallsOff,
    ),
    // each form that ends too early or has a wrong word
    ("unit f\nconx 1\n", 32, 1, Kind::Word),
    ("unit f\ncon\n", 32, 4, Kind::Word),
    ("unit f\ncon 1 // x\n", 32, 7, Kind::Word),
    ("unit f\nadl -2147483649\n", 32, 5, Kind::Number),
    ("unit f\nadg a-b x\n", 32, 5, Kind::Word),
    ("unit f\nlod x\n", 32, 5, Kind::Word),
    ("unit f\nlab\n", 32, 4, Kind::Word),
    ("unit f\ncall g\n", 32, 7, Kind::Word),
    // the fourth word is the first that is wrong, whatever follows
    ("unit f\ncall g 0 x y z\n", 32, 10, Kind::Word),
    // the stack of the other forms
    ("unit f\narg 0\n", 32, 1, Kind::StackUnderflow),
    ("unit f\ncon 1\nbeq a\n", 33, 1, Kind::StackUnderflow),
    (
        "unit f\ncon 1\ndup\ndup\nbeq a\n",
        35,
        1,
        Kind::StackAtBoundary,
    ),
    ("unit f\ncon 1\ncall g 0\n", 33, 1, Kind::StackAtBoundary),
    ("unit f\ncon 1\ncon 2\nret\n", 34, 1, Kind::StackAtBoundary),
    // each other form: its words, from left to right
    ("unit f\ncon x\n", 32, 5, Kind::Word),
    ("unit f\ncon 9999999999\n", 32, 5, Kind::Number),
    ("unit f\nadl\n", 32, 4, Kind::Word),
    ("unit f\nadl 1 2\n", 32, 7, Kind::Word),
    ("unit f\nadg\n", 32, 4, Kind::Word),
    ("unit f\nadg g h\n", 32, 7, Kind::Word),
    ("unit f\nsto x\n", 32, 5, Kind::Word),
    ("unit f\nadd x\n", 32, 5, Kind::Word),
    ("unit f\nneg x\n", 32, 5, Kind::Word),
    ("unit f\ndup x\n", 32, 5, Kind::Word),
    ("unit f\npop x\n", 32, 5, Kind::Word),
    ("unit f\nlab 1a\n", 32, 5, Kind::Word),
    ("unit f\njmp\n", 32, 4, Kind::Word),
    ("unit f\njmp a b\n", 32, 7, Kind::Word),
    ("unit f\nbeq\n", 32, 4, Kind::Word),
    ("unit f\nbeq a b\n", 32, 7, Kind::Word),
    ("unit f\narg\n", 32, 4, Kind::Word),
    ("unit f\narg 0 1\n", 32, 7, Kind::Word),
    ("unit f\narg -1\n", 32, 5, Kind::Number),
    ("unit f\ncall\n", 32, 5, Kind::Word),
    ("unit f\ncall 1 0\n", 32, 6, Kind::Word),
    ("unit f\ncall g x\n", 32, 8, Kind::Word),
    ("unit f\nret x\n", 32, 5, Kind::Word),
    // a further word, before the name that is there already
    ("unit f\nlab a\nlab a b\n", 33, 7, Kind::Word),
    ("unit f\nlab a\njmp a\nend\nunit f x\n", 35, 8, Kind::Word),
    // and its stack
    ("unit f\nlod\n", 32, 1, Kind::StackUnderflow),
    ("unit f\ncon 1\nsto\n", 33, 1, Kind::StackUnderflow),
    ("unit f\nneg\n", 32, 1, Kind::StackUnderflow),
    ("unit f\ndup\n", 32, 1, Kind::StackUnderflow),
    ("unit f\npop\n", 32, 1, Kind::StackUnderflow),
    ("unit f\nret\n", 32, 1, Kind::StackUnderflow),
];

/// A name of 64 bytes.
const LONGEST: &str = "abcdefghabcdefghabcdefghabcdefghabcdefghabcdefghabcdefghabcdefgh";

/// What stands before and behind a name, what the text's fault is where the name has 64 bytes, and the place of the
/// 65th byte where it has one more.
type Naming = (
    &'static str,
    &'static str,
    Option<(u32, u32, Kind)>,
    (u32, u32),
);

const NAMES: [Naming; 6] = [
    ("unit ", "\n", Some((32, 1, Kind::Word)), (31, 70)),
    ("unit f\nlab ", "\n", Some((33, 1, Kind::Word)), (32, 69)),
    (
        "unit f\njmp ",
        "\nend\n",
        Some((32, 5, Kind::NoLabel)),
        (32, 69),
    ),
    (
        "unit f\ncon 1\ndup\nbeq ",
        "\nend\n",
        Some((34, 5, Kind::NoLabel)),
        (34, 69),
    ),
    ("unit f\nadg ", "\nret\nend\n", None, (32, 69)),
    ("unit f\ncall ", " 0\nret\nend\n", None, (32, 70)),
];

/// The lines before the units, which no reader of units looks at.
const BEFORE: &[u8] = b"\n\n\n\n\n\n\n\n\n\n\n\n\n\n\n\n\n\n\n\n\n\n\n\n\n\n\n\n\n\n";

/// The first fault of the units in a text, behind 30 lines.
fn fault(alloc: Global, text: &[u8]) -> Result<Option<TextRefusal>, AllocError> {
    let mut whole = Vec::from_slice(alloc, BEFORE)?;
    whole.extend_from_slice(text)?;
    let at = Spot {
        offset: 30,
        line: 31,
    };
    Ok(read_units(alloc, &whole, at).err())
}

fn at(line: u32, col: u32, kind: Kind) -> Option<TextRefusal> {
    Some(TextRefusal::BadText { line, col, kind })
}

#[test]
fn faults(rt: HostRuntime) -> Result<(), Fail> {
    for (text, line, column, kind) in FAULTS {
        let found = fault(rt.alloc(), text.as_bytes())?;
        assert_eq!(rt; found, at(line, column, kind), "{text}");
    }
    Ok(())
}

#[test]
fn cut_texts(rt: HostRuntime) -> Result<(), Fail> {
    // Each text that ends behind one of the lines but the last one.
    let text = SUM.as_bytes();
    let mut line: u32 = 31;
    for (i, byte) in text.iter().enumerate() {
        if *byte == b'\n' {
            line = line.wrapping_add(1);
            let found = fault(rt.alloc(), &text[..=i])?;
            let wanted = if line == 78 {
                None
            } else {
                at(line, 1, Kind::Word)
            };
            assert_eq!(rt; found, wanted);
        }
    }
    assert_eq!(rt; line, 78);
    assert_eq!(rt; fault(rt.alloc(), b"")?, None);
    Ok(())
}

#[test]
fn names(rt: HostRuntime) -> Result<(), Fail> {
    let alloc = rt.alloc();
    for (before, behind, inside, (line, col)) in NAMES {
        let text = format!(in alloc; "{before}{LONGEST}{behind}")?;
        let wanted = inside.map(|(line, col, kind)| TextRefusal::BadText { line, col, kind });
        assert_eq!(rt; fault(alloc, text.as_bytes())?, wanted, "{before}");
        let text = format!(in alloc; "{before}{LONGEST}i{behind}")?;
        let wanted = at(line, col, Kind::TooMany);
        assert_eq!(rt; fault(alloc, text.as_bytes())?, wanted, "{before}");
    }
    Ok(())
}

/// A text, and then another one so many times.
fn repeated(alloc: Global, first: &str, more: &str, times: u32) -> Result<Vec<u8>, AllocError> {
    let mut text = Vec::from_slice(alloc, first.as_bytes())?;
    for _ in 0..times {
        text.extend_from_slice(more.as_bytes())?;
    }
    Ok(text)
}

/// So many units.
fn many(alloc: Global, count: u32) -> Result<Vec<u8>, AllocError> {
    let mut text = Vec::new(alloc);
    for n in 0..count {
        text.extend_from_slice(b"unit u")?;
        text.extend_from_slice(Buffer::new().format(n).as_bytes())?;
        text.extend_from_slice(b"\nlab a\njmp a\nend\n")?;
    }
    Ok(text)
}

#[test]
fn limits(rt: HostRuntime) -> Result<(), Fail> {
    let alloc = rt.alloc();
    // a 64th value, and then the text ends; a 65th value
    for push in ["con 1\n", "adl 1\n", "adg g\n", "dup\n"] {
        let mut deep = repeated(alloc, "unit f\n", "con 1\n", 63)?;
        deep.extend_from_slice(push.as_bytes())?;
        assert_eq!(rt; fault(alloc, &deep)?, at(96, 1, Kind::Word), "{push}");
        deep.extend_from_slice(push.as_bytes())?;
        assert_eq!(rt; fault(alloc, &deep)?, at(96, 1, Kind::TooMany), "{push}");
    }
    let line = repeated(alloc, "//", "/", 4094)?;
    assert_eq!(rt; fault(alloc, &line)?, None);
    let line = repeated(alloc, "//", "/", 4095)?;
    assert_eq!(rt; fault(alloc, &line)?, at(31, 4097, Kind::TooMany));
    // A carriage return is no part of the line right before a line feed, and a byte like any other elsewhere.
    let mut line = repeated(alloc, "//", "/", 4094)?;
    line.push(b'\r')?;
    assert_eq!(rt; fault(alloc, &line)?, at(31, 4097, Kind::TooMany));
    line.push(b'\n')?;
    assert_eq!(rt; fault(alloc, &line)?, None);
    // 65,534 operations, and two more; then one more
    let mut most = repeated(alloc, "unit f\n", "con 1\npop\n", 32767)?;
    most.extend_from_slice(b"con 1\nret\n")?;
    most.extend_from_slice(b"end\n")?;
    assert_eq!(rt; fault(alloc, &most)?, None);
    // whatever its form and its stack are
    for word in [
        "con 1\n",
        "adl\n",
        "add x\n",
        "lab 1\n",
        "call g 5\n",
        "ret\n",
    ] {
        let mut more = repeated(alloc, "unit f\n", "con 1\npop\n", 32768)?;
        more.extend_from_slice(word.as_bytes())?;
        assert_eq!(rt; fault(alloc, &more)?, at(65568, 1, Kind::TooMany), "{word}");
    }
    Ok(())
}

#[test]
fn too_many_units(rt: HostRuntime) -> Result<(), Fail> {
    let alloc = rt.alloc();
    assert_eq!(rt; fault(alloc, &many(alloc, 65536)?)?, None);
    let text = many(alloc, 65537)?;
    assert_eq!(rt; fault(alloc, &text)?, at(262175, 1, Kind::TooMany));
    Ok(())
}

/// A wrong first line, so many lines of eight bytes that say nothing, and then these bytes.
fn long_text(alloc: Global, lines: u32, behind: &[u8]) -> Result<Vec<u8>, AllocError> {
    let mut text = repeated(alloc, "unit 1\n", "///////\n", lines)?;
    text.extend_from_slice(behind)?;
    Ok(text)
}

#[test]
fn input_limit(rt: HostRuntime) -> Result<(), Fail> {
    let alloc = rt.alloc();
    // 30 + 7 + 8 * 524,283 + 3 bytes are 4,194,304, and have the first line's fault. One more is that fault alone, in
    // the line behind 30 + 1 + 524,283.
    let text = long_text(alloc, 524283, b"///")?;
    assert_eq!(rt; fault(alloc, &text)?, at(31, 6, Kind::Word));
    let text = long_text(alloc, 524283, b"////")?;
    assert_eq!(rt; fault(alloc, &text)?, at(524315, 4, Kind::TooMany));
    // A line feed belongs to its line.
    let text = long_text(alloc, 524283, b"///\n\n")?;
    assert_eq!(rt; fault(alloc, &text)?, at(524315, 4, Kind::TooMany));
    Ok(())
}

#[test]
fn printed_and_read(rt: HostRuntime) -> Result<(), Fail> {
    let alloc = rt.alloc();
    for text in [SUM, OTHERS] {
        let units = read_units(alloc, text.as_bytes(), Spot { offset: 0, line: 1 })?;
        assert_eq!(rt; units.len(), 1);
        for unit in units.as_slice() {
            let printed = print_unit(alloc, unit)?;
            assert!(rt; printed.as_slice() == text.as_bytes());
        }
    }
    units_are_written();
    printed_units_are_read();
    Ok(())
}
