//! The mode `naive`. The lines of `TINY` are 1 to 30, so a unit behind it begins in line 31.

use crate::runs::{Ended, GOOD, Streams, push_times, run, run_words, text_of};
use po_mdread::TINY;
use po_run::Status;
use po_text::Kind;
use std::alloc::Global;
use std::test::Fail;

const HEAD: &str = "machine tiny\nframe fp\nresult rv\nargs a0 a1 a2 a3\nregs r0 r1 r2 r3\n";

const SMALLEST: &str = "\
insn %0 := #1 => li %0,#1\n\
insn %0 := %1 => mov %0,%1\n\
insn ret => ret\n\
end\n";

const SMALL: &str = "\
insn %0 := #1 => li %0,#1\n\
insn %0 := (fp + #1) => lea %0,#1\n\
insn %0 := M[%1] => ld %0,(%1)\n\
insn %0 := (%1 + %2) => add %0,%1,%2\n\
insn %0 := %1 => mov %0,%1\n\
insn ret => ret\n\
end\n";

const SMALL_WITHOUT_ADD: &str = "\
insn %0 := #1 => li %0,#1\n\
insn %0 := (fp + #1) => lea %0,#1\n\
insn %0 := M[%1] => ld %0,(%1)\n\
insn %0 := %1 => mov %0,%1\n\
insn ret => ret\n\
end\n";

const TINY_WITHOUT_ADD: &str = "\
machine tiny\n\
frame fp\n\
result rv\n\
args a0 a1 a2 a3\n\
regs r0 r1 r2 r3\n\
insn %0 := #1 => li %0,#1\n\
insn %0 := (fp + #1) => lea %0,#1\n\
insn %0 := &1 => la %0,&1\n\
insn %0 := M[%1] => ld %0,(%1)\n\
insn %0 := M[(%1 + #2[-128,127])] => ld %0,#2(%1)\n\
insn M[%0] := %1 => st %1,(%0)\n\
insn M[(%0 + #1[-128,127])] := %2 => st %2,#1(%0)\n\
insn %0 := (%1 + #2[-128,127]) => addi %0,%1,#2\n\
insn %0 := %1 => mov %0,%1\n\
insn cc := %0 ? %1 => cmp %0,%1\n\
insn cc := %0 ? #1[-128,127] => cmpi %0,#1\n\
insn if cc eq goto @0 => beq @0\n\
insn if cc ne goto @0 => bne @0\n\
insn if cc lt goto @0 => blt @0\n\
insn if cc le goto @0 => ble @0\n\
insn if cc gt goto @0 => bgt @0\n\
insn if cc ge goto @0 => bge @0\n\
insn if cc ltu goto @0 => bltu @0\n\
insn if cc geu goto @0 => bgeu @0\n\
insn if %0 ? #1[-128,127] eq goto @2 clobber cc => cbeq %0,#1,@2\n\
insn goto @0 => jmp @0\n\
insn call &0 => call &0\n\
insn ret => ret\n\
end\n\
";

const LOAD_AND_ADD: &str = "unit f\nadl 4\nlod\ncon 1\nadd\nret\nend\n";

const FOUR_VALUES: &str = "unit f\ncon 1\ncon 2\ncon 3\ncon 4\nadd\nadd\nadd\nret\nend\n";

const FOUR_VALUES_ASSEMBLY: &str =
    "f:\n  li r0,1\n  li r1,2\n  li r2,3\n  li r3,4\n  add r2,r2,r3\n  add r1,r1,r2\n  add r0,r0,r1\n  mov rv,r0\
        \n  ret\n";

/// An input that compiles, and its assembly.
const COMPILES: [([&str; 3], &str); 12] = [
    // One constant.
    (
        [HEAD, SMALLEST, "unit f\ncon 1\nret\nend\n"],
        "f:\n  li r0,1\n  mov rv,r0\n  ret\n",
    ),
    (
        [HEAD, SMALL, LOAD_AND_ADD],
        "f:\n  lea r0,4\n  ld r0,(r0)\n  li r1,1\n  add r0,r0,r1\n  mov rv,r0\n  ret\n",
    ),
    (
        [TINY, "", LOAD_AND_ADD],
        "f:\n  lea r0,4\n  ld r0,(r0)\n  li r1,1\n  add r0,r0,r1\n  mov rv,r0\n  ret\n",
    ),
    // As many values at once as there are registers.
    ([HEAD, SMALL, FOUR_VALUES], FOUR_VALUES_ASSEMBLY),
    ([TINY, "", FOUR_VALUES], FOUR_VALUES_ASSEMBLY),
    // Blocks and labels; a label is written behind its unit's name.
    (
        [
            TINY,
            "unit f\ncon 3\ncon 3\nbeq L\ncon 1\nret\nlab L\ncon 2\nret\nend\n",
            "unit g\nlab L\njmp L\nend\n",
        ],
        "f:\n  li r0,3\n  li r1,3\n  cmp r0,r1\n  beq f.L\n  li r0,1\n  mov rv,r0\n  ret\n\
            f.L:\n  li r0,2\n  mov rv,r0\n  ret\ng:\ng.L:\n  jmp g.L\n",
    ),
    // A call and its argument; its result is read in the next block.
    (
        [TINY, "", "unit f\nadg x\narg 0\ncall g 1\nret\nend\n"],
        "f:\n  la r0,x\n  mov a0,r0\n  call g\n  mov r0,rv\n  mov rv,r0\n  ret\n",
    ),
    // As many arguments as a call may have.
    (
        [
            TINY,
            "unit f\ncon 1\narg 0\ncon 2\narg 1\ncon 3\narg 2\ncon 4\narg 3\n",
            "call g 4\nret\nend\n",
        ],
        "f:\n  li r0,1\n  mov a0,r0\n  li r0,2\n  mov a1,r0\n  li r0,3\n  mov a2,r0\n  li r0,4\n  mov a3,r0\
            \n  call g\n  mov r0,rv\n  mov rv,r0\n  ret\n",
    ),
    // A constant has its signed view.
    (
        [TINY, "", "unit f\ncon 4294967295\nret\nend\n"],
        "f:\n  li r0,-1\n  mov rv,r0\n  ret\n",
    ),
    // Comments, empty lines, tabs, carriage returns, and no line feed at the end.
    (
        [
            TINY,
            "// units\n\nunit\tf\r\n",
            "  con  007 \r\n\t//\nret\nend",
        ],
        "f:\n  li r0,7\n  mov rv,r0\n  ret\n",
    ),
    // Doubled marks.
    (
        [
            HEAD,
            "insn %0 := #1 => 100%% ##%0 @@&& #1\ninsn %0 := %1 => mov %0,%1\ninsn ret => ret\nend\n",
            "unit f\ncon -2147483648\nret\nend\n",
        ],
        "f:\n  100% #r0 @& -2147483648\n  mov rv,r0\n  ret\n",
    ),
    ([TINY, "", ""], ""),
];

#[test]
fn compiles(rt: HostRuntime) -> Result<(), Fail> {
    for (parts, assembly) in &COMPILES {
        let ended = run(rt.alloc(), "naive", text_of(rt.alloc(), parts)?, &GOOD)?;
        assert_eq!(rt; ended.status, Status::Done, "{assembly}");
        assert_eq!(rt; ended.sink.kept(), assembly.as_bytes(), "{assembly}");
        assert_eq!(rt; ended.notes.kept(), b"".as_slice(), "{assembly}");
    }
    Ok(())
}

/// An input with a fault: its place and kind, and what is told.
const FAULTS: [([&str; 2], u32, u32, Kind, &str); 10] = [
    (["", ""], 1, 1, Kind::Word, "po: line 1, column 1: Word\n"),
    (
        [TINY, "unit f\ncon 1\nre"],
        33,
        1,
        Kind::Word,
        "po: line 33, column 1: Word\n",
    ),
    (
        [TINY, "unit f\nlab a\nlab a\n"],
        33,
        5,
        Kind::Duplicate,
        "po: line 33, column 5: Duplicate\n",
    ),
    (
        [TINY, "unit f\nend\n"],
        32,
        1,
        Kind::FallsOff,
        "po: line 32, column 1: FallsOff\n",
    ),
    (
        [TINY, "unit f\ncon 1\njmp L\n"],
        33,
        1,
        Kind::StackAtBoundary,
        "po: line 33, column 1: StackAtBoundary\n",
    ),
    (
        [TINY, "unit f\njmp L\nend\n"],
        32,
        5,
        Kind::NoLabel,
        "po: line 32, column 5: NoLabel\n",
    ),
    (
        [TINY, "unit f\ncall g 1\n"],
        32,
        1,
        Kind::ArgMissing,
        "po: line 32, column 1: ArgMissing\n",
    ),
    (
        [TINY, "unit f\nadd\n"],
        32,
        1,
        Kind::StackUnderflow,
        "po: line 32, column 1: StackUnderflow\n",
    ),
    (
        [HEAD, "insn %0 := #1[5,4] => x\n"],
        6,
        14,
        Kind::Range,
        "po: line 6, column 14: Range\n",
    ),
    (
        [HEAD, "insn cc := %0 ? %1 clobber cc => x\n"],
        6,
        20,
        Kind::NeverMatches,
        "po: line 6, column 20: NeverMatches\n",
    ),
];

#[test]
fn finds_faults(rt: HostRuntime) -> Result<(), Fail> {
    for (parts, line, col, kind, told) in &FAULTS {
        let ended = run(rt.alloc(), "naive", text_of(rt.alloc(), parts)?, &GOOD)?;
        let status = Status::BadText {
            line: *line,
            col: *col,
            kind: *kind,
        };
        assert_eq!(rt; ended.status, status, "{told}");
        assert_eq!(rt; ended.sink.kept(), b"".as_slice(), "{told}");
        assert_eq!(rt; ended.notes.kept(), told.as_bytes(), "{told}");
    }
    Ok(())
}

const USAGE: &str =
    "po: usage: po naive, po slow, po opt [--workers N] [--learners N] [--stats], po gen --seed N --units N\n";

const FIVE_VALUES: &str =
    "unit f\ncon 1\ncon 2\ncon 3\ncon 4\ncon 5\nadd\nadd\nadd\nadd\nret\nend\n";

/// An input without a fault that doesn't compile: its status and what is told. Nothing is written.
const REFUSED: [([&str; 3], Status, &str); 10] = [
    (
        [HEAD, SMALL_WITHOUT_ADD, LOAD_AND_ADD],
        Status::Unrecognised {
            unit: 0,
            block: 0,
            index: 3,
        },
        "po: unit 0, block 0, instruction 3: not recognised\n",
    ),
    (
        [
            TINY_WITHOUT_ADD,
            "",
            "unit f\nadl 4\nadl 4\nlod\ncon 1\nadd\nsto\ncon 0\nret\nend\n",
        ],
        Status::Unrecognised {
            unit: 0,
            block: 0,
            index: 4,
        },
        "po: unit 0, block 0, instruction 4: not recognised\n",
    ),
    (
        [TINY, "", FIVE_VALUES],
        Status::TooFew {
            unit: 0,
            point: 9,
            needed: 5,
        },
        "po: unit 0, point 9: 5 registers needed\n",
    ),
    (
        [HEAD, SMALL, FIVE_VALUES],
        Status::TooFew {
            unit: 0,
            point: 9,
            needed: 5,
        },
        "po: unit 0, point 9: 5 registers needed\n",
    ),
    // The second unit is the first with too few registers.
    (
        [TINY, "unit e\ncon 0\nret\nend\n", FIVE_VALUES],
        Status::TooFew {
            unit: 1,
            point: 9,
            needed: 5,
        },
        "po: unit 1, point 9: 5 registers needed\n",
    ),
    // All units are recognised before any is placed.
    (
        [
            TINY_WITHOUT_ADD,
            "unit e\nlab a\ncon 1\nret\nend\n",
            FIVE_VALUES,
        ],
        Status::Unrecognised {
            unit: 1,
            block: 0,
            index: 5,
        },
        "po: unit 1, block 0, instruction 5: not recognised\n",
    ),
    // Behind a crowded unit the others are recognised all the same.
    (
        [TINY, FIVE_VALUES, "unit g\ncon 2\ncon 3\nmul\nret\nend\n"],
        Status::Unrecognised {
            unit: 1,
            block: 0,
            index: 2,
        },
        "po: unit 1, block 0, instruction 2: not recognised\n",
    ),
    // A unit that is crowded and has an instruction that no entry fits.
    (
        [
            TINY,
            "unit f\ncon 1\ncon 2\ncon 3\ncon 4\ncon 5\nmul\nadd\nadd\nadd\nret\nend\n",
            "",
        ],
        Status::Unrecognised {
            unit: 0,
            block: 0,
            index: 5,
        },
        "po: unit 0, block 0, instruction 5: not recognised\n",
    ),
    // Of two crowded units the first counts, though the second needs more registers.
    (
        [
            TINY,
            FIVE_VALUES,
            "unit g\ncon 1\ncon 2\ncon 3\ncon 4\ncon 5\ncon 6\nadd\nadd\nadd\nadd\nadd\nret\nend\n",
        ],
        Status::TooFew {
            unit: 0,
            point: 9,
            needed: 5,
        },
        "po: unit 0, point 9: 5 registers needed\n",
    ),
    // A unit with room behind a crowded one isn't written.
    (
        [TINY, FIVE_VALUES, "unit e\ncon 0\nret\nend\n"],
        Status::TooFew {
            unit: 0,
            point: 9,
            needed: 5,
        },
        "po: unit 0, point 9: 5 registers needed\n",
    ),
];

#[test]
fn refuses(rt: HostRuntime) -> Result<(), Fail> {
    for (parts, status, told) in &REFUSED {
        let ended = run(rt.alloc(), "naive", text_of(rt.alloc(), parts)?, &GOOD)?;
        assert_eq!(rt; ended.status, *status, "{told}");
        assert_eq!(rt; ended.sink.kept(), b"".as_slice(), "{told}");
        assert_eq!(rt; ended.notes.kept(), told.as_bytes(), "{told}");
    }
    Ok(())
}

/// Words and streams that go wrong: the status, and what the sink kept.
#[test]
fn fails(rt: HostRuntime) -> Result<(), Fail> {
    let usage = Status::Usage;
    let slow_sink = Streams {
        most: 10,
        read_fails: 0,
        write_fails: 2,
        room: 1000,
    };
    let bad_source = Streams {
        most: 100,
        read_fails: 1,
        write_fails: 0,
        room: 1000,
    };
    let full_sink = Streams {
        most: 100,
        read_fails: 0,
        write_fails: 0,
        room: 20,
    };
    let rows = [
        ("", &GOOD, usage, ""),
        ("fast", &GOOD, usage, ""),
        (
            "naive",
            &slow_sink,
            Status::WriteFault { written: 10 },
            "f:\n  lea r",
        ),
        ("naive", &bad_source, Status::ReadFault, ""),
        (
            "naive",
            &full_sink,
            Status::WriteFault { written: 20 },
            "f:\n  lea r0,4\n  ld r",
        ),
    ];
    let parts = [HEAD, SMALL, LOAD_AND_ADD];
    for (word, streams, status, kept) in rows {
        let ended = run(rt.alloc(), word, text_of(rt.alloc(), &parts)?, streams)?;
        assert_eq!(rt; ended.status, status, "{word} {kept}");
        assert_eq!(rt; ended.sink.kept(), kept.as_bytes(), "{word} {kept}");
    }
    Ok(())
}

/// No word at all. The source would fail where it was read.
#[test]
fn has_no_word(rt: HostRuntime) -> Result<(), Fail> {
    let bad_source = Streams {
        most: 100,
        read_fails: 1,
        write_fails: 0,
        room: 1000,
    };
    let text = text_of(rt.alloc(), &[HEAD, SMALL, LOAD_AND_ADD])?;
    let ended = run_words(rt.alloc(), &[], text, &bad_source)?;
    assert_eq!(rt; ended.status, Status::Usage);
    assert_eq!(rt; ended.sink.kept(), b"".as_slice());
    assert_eq!(rt; ended.notes.kept(), USAGE.as_bytes());
    Ok(())
}

/// A line of 4,097 bytes; the longest unit, and one that is longer.
#[test]
fn keeps_to_the_limits(rt: HostRuntime) -> Result<(), Fail> {
    let wide = Streams {
        most: 65536,
        read_fails: 0,
        write_fails: 0,
        room: 400000,
    };
    let mut text = text_of(rt.alloc(), &[TINY, "unit f\n"])?;
    push_times(&mut text, "a", 4097)?;
    let ended = run(rt.alloc(), "naive", text, &wide)?;
    let long_line = Status::BadText {
        line: 32,
        col: 4097,
        kind: Kind::TooMany,
    };
    assert_eq!(rt; ended.status, long_line);

    let mut text = text_of(rt.alloc(), &[TINY, "unit f\n"])?;
    push_times(&mut text, "con 1\npop\n", 32767)?;
    push_times(&mut text, "con 1\nret\nend\n", 1)?;
    let ended = run(rt.alloc(), "naive", text, &wide)?;
    assert_eq!(rt; ended.status, Status::Done);
    assert!(rt;
        ended
            .sink
            .kept()
            .ends_with(b"\n  li r0,1\n  mov rv,r0\n  ret\n")
    );

    let mut text = text_of(rt.alloc(), &[TINY, "unit f\n"])?;
    push_times(&mut text, "con 1\npop\n", 32768)?;
    push_times(&mut text, "con 1\nret\nend\n", 1)?;
    let ended = run(rt.alloc(), "naive", text, &wide)?;
    let too_many = Status::BadText {
        line: 65568,
        col: 1,
        kind: Kind::TooMany,
    };
    assert_eq!(rt; ended.status, too_many);
    Ok(())
}

/// What becomes of 64 values at once on a machine of so many registers.
fn run_64_values(alloc: Global, registers: u32) -> Result<Ended, Fail> {
    let mut text = text_of(
        alloc,
        &["machine m\nframe fp\nresult rv\nargs a0 a1 a2 a3\nregs"],
    )?;
    for k in 0..registers {
        let name = format!(in alloc; " r{k}")?;
        text.extend_from_slice(name.as_bytes())?;
    }
    push_times(&mut text, "\n", 1)?;
    push_times(&mut text, SMALL, 1)?;
    push_times(&mut text, "unit f\n", 1)?;
    push_times(&mut text, "con 1\n", 64)?;
    push_times(&mut text, "add\n", 63)?;
    push_times(&mut text, "ret\nend\n", 1)?;
    let wide = Streams {
        most: 4096,
        read_fails: 0,
        write_fails: 0,
        room: 10000,
    };
    run(alloc, "naive", text, &wide)
}

/// As many values at once as the largest machine has registers, and on a machine that has one register less.
#[test]
fn fills_the_largest_machine(rt: HostRuntime) -> Result<(), Fail> {
    let ended = run_64_values(rt.alloc(), 64)?;
    assert_eq!(rt; ended.status, Status::Done);
    assert!(rt;
        ended
            .sink
            .kept()
            .ends_with(b"\n  add r0,r0,r1\n  mov rv,r0\n  ret\n")
    );
    let ended = run_64_values(rt.alloc(), 63)?;
    let crowded = Status::TooFew {
        unit: 0,
        point: 127,
        needed: 64,
    };
    assert_eq!(rt; ended.status, crowded);
    Ok(())
}
