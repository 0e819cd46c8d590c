use po_lines::{LineError, LineFault};
use po_model::{Bounds, PatReg, PatTerm};
use po_pattern::{Parsed, address, label, none_seen, register, start, symbol, term};
use po_text::Kind;
use po_word::Bin;
use std::alloc::Global;

/// A term at the beginning of a line: the column behind it, and whether it is within the limits of a term.
fn read(alloc: Global, line: &[u8]) -> Result<(u32, bool), LineError> {
    if line.len() > 4096 {
        return Err(LineError::Memory);
    }
    match term(alloc, start(line), none_seen()) {
        Ok(parsed) => Ok((parsed.rest.column, parsed.value.is_some())),
        Err(error) => Err(error),
    }
}

/// Lines that begin with a term, and the column behind it.
const READ: [(&str, u32); 12] = [
    ("%0", 3),
    ("fp := %0", 3),
    ("arg3", 5),
    ("-2147483648", 12),
    ("  2147483647", 13),
    // A blank behind a term isn't part of it, but a range behind blanks is.
    ("#1 => x", 3),
    ("#1 [5,5]", 9),
    ("M[(%1 + #2[ -128 , 127 ])]x", 27),
    ("( %0>>>neg\t(%1) ) ?", 18),
    // Behind a whole term `-` and `&` are operators.
    ("(%0--5)", 8),
    ("(&0 & &1)", 10),
    ("(%0 <<not(rv))", 15),
];

/// Lines that begin with no term, and the place and kind of the first fault.
const FAULTS: [(&str, u32, Kind); 22] = [
    ("", 1, Kind::Word),
    ("  ", 3, Kind::Word),
    ("%", 1, Kind::Word),
    ("-", 1, Kind::Word),
    ("@0", 1, Kind::Word),
    ("arg4", 1, Kind::Word),
    ("neg(%0", 7, Kind::Word),
    ("M(%0)", 2, Kind::Word),
    ("(%0 > %1)", 5, Kind::Word),
    ("(%1 - => sub", 7, Kind::Word),
    ("(%1 + #2if", 9, Kind::Word),
    ("(%0 + %14294967296]", 9, Kind::Word),
    ("#1[-128,&127]", 9, Kind::Word),
    ("#1[-128,127  eq", 14, Kind::Word),
    ("99999999999", 1, Kind::Word),
    ("-00000000001", 1, Kind::Word),
    ("2147483648%1", 1, Kind::Number),
    ("#1[-2147483649,0]", 4, Kind::Number),
    // Decided when the upper end was read, before the `]` is looked at.
    ("#1 [5,4 x", 4, Kind::Range),
    ("(%0 + #0)", 7, Kind::ListForm),
    ("(#0 + #0[1,2])", 7, Kind::ListForm),
    ("(#0[1,2] + #0[9,8])", 12, Kind::ListForm),
];

/// Terms of a depth of 16 and 17, and of 64 and 65 nodes, and whether they are within the limits.
const LIMITS: [(&str, bool); 4] = [
    ("M[M[M[M[M[M[M[M[M[M[M[M[M[M[M[%0]]]]]]]]]]]]]]]", true),
    ("M[M[M[M[M[M[M[M[M[M[M[M[M[M[M[M[%0]]]]]]]]]]]]]]]]", false),
    (
        "neg((((((%0+%0)+(%0+%0))+((%0+%0)+(%0+%0)))+(((%0+%0)+(%0+%0))+((%0+%0)+(%0+%0))))\
            +((((%0+%0)+(%0+%0))+((%0+%0)+(%0+%0)))+(((%0+%0)+(%0+%0))+((%0+%0)+(%0+%0))))))",
        true,
    ),
    (
        "neg(neg((((((%0+%0)+(%0+%0))+((%0+%0)+(%0+%0)))+(((%0+%0)+(%0+%0))+((%0+%0)+(%0+%0))))\
            +((((%0+%0)+(%0+%0))+((%0+%0)+(%0+%0)))+(((%0+%0)+(%0+%0))+((%0+%0)+(%0+%0)))))))",
        false,
    ),
];

#[test]
fn terms(rt: HostRuntime) {
    for (line, column) in READ {
        assert_eq!(rt;
            read(rt.alloc(), line.as_bytes()),
            Ok((column, true)),
            "{line}"
        );
    }
    for (line, column, kind) in FAULTS {
        let wanted = Err(LineError::Fault(LineFault { column, kind }));
        assert_eq!(rt; read(rt.alloc(), line.as_bytes()), wanted, "{line}");
    }
    for (line, within) in LIMITS {
        let column = line.len() as u64 + 1;
        match read(rt.alloc(), line.as_bytes()) {
            Ok(answer) => {
                assert_eq!(rt; u64::from(answer.0), column, "{line}");
                assert_eq!(rt; answer.1, within, "{line}");
            }
            Err(_) => assert!(rt; false, "{line}"),
        }
    }
}

/// Whether this is `(%1 + #2[-128,127])`.
fn is_sum(term: &PatTerm) -> bool {
    match term {
        PatTerm::Bin(Bin::Add, left, right) => {
            matches!(left.get(), PatTerm::Reg(PatReg::Any(1)))
                && matches!(
                    right.get(),
                    PatTerm::Const(2, Some(Bounds { lo: -128, hi: 127 }))
                )
        }
        _ => false,
    }
}

/// The tree in what was read.
fn is_sum_read(read: Result<Parsed<Option<PatTerm>>, LineError>) -> bool {
    match read {
        Ok(
            Parsed {
                value: Some(term),
                ..
            },
        ) => is_sum(&term),
        _ => false,
    }
}

/// Whether a fixed register was read.
fn is_fixed(read: Result<Parsed<PatReg>, LineFault>) -> bool {
    match read {
        Ok(parsed) => matches!(parsed.value, PatReg::Fixed(_)),
        Err(_) => false,
    }
}

/// The digit that was read.
fn digit(read: Result<Parsed<u8>, LineFault>) -> Option<u8> {
    match read {
        Ok(parsed) => Some(parsed.value),
        Err(_) => None,
    }
}

#[test]
fn values(rt: HostRuntime) {
    let sum = term(rt.alloc(), start(b"(%1 + #2[-128,127])"), none_seen());
    assert!(rt; is_sum_read(sum));
    let place = address(
        rt.alloc(),
        start(b"M[(%1 + #2[-128,127])] := %0"),
        none_seen(),
    );
    assert!(rt; is_sum_read(place));
    assert!(rt; is_fixed(register(start(b"arg0 := 1"), none_seen())));
    assert_eq!(rt; digit(symbol(start(b"&3"), none_seen())), Some(3));
    assert_eq!(rt; digit(label(start(b"@4"), none_seen())), Some(4));
}
