//! The mode `slow`, over `TINY`, whose lines are 1 to 30.

use crate::runs::{GOOD, Streams, push_times, run, text_of};
use po_mdread::TINY;
use po_run::Status;
use po_text::Kind;
use std::test::Fail;

pub(crate) const STORE_BACK: &str = "unit f\nadl 4\nadl 4\nlod\ncon 1\nadd\nsto\ncon 0\nret\nend\n";

pub(crate) const STORE_BACK_ASSEMBLY: &str =
    "f:\n  lea r0,4\n  ld r1,4(fp)\n  addi r1,r1,1\n  st r1,(r0)\n  li rv,0\n  ret\n";

pub(crate) const SUM: &str = "\
unit sum\n\
adl 3\ncon 0\nsto\nadl 4\ncon 0\nsto\n\
lab top\nadl 3\nlod\nadl 1\nlod\nbge out\n\
adl 4\nadl 4\nlod\nadl 2\nlod\nadl 3\nlod\nadd\nlod\nadd\nsto\n\
adl 3\nadl 3\nlod\ncon 1\nadd\nsto\njmp top\n\
lab out\nadg calls\nadg calls\nlod\ncon 1\nadd\nsto\n\
adl 4\nlod\narg 0\ncall note 1\npop\n\
adl 4\nlod\nret\nend\n";

const SUM_ASSEMBLY: &str = "\
sum:\n  lea r0,3\n  li r1,0\n  st r1,(r0)\n  lea r0,4\n  li r1,0\n  st r1,(r0)\n\
sum.top:\n  ld r0,3(fp)\n  ld r1,1(fp)\n  cmp r0,r1\n  bge sum.out\
\n  lea r0,4\n  ld r1,4(fp)\n  ld r2,2(fp)\n  ld r3,3(fp)\n  add r2,r2,r3\n  ld r2,(r2)\n  add r1,r1,r2\n  st r1,(r0)\
\n  lea r0,3\n  ld r1,3(fp)\n  addi r1,r1,1\n  st r1,(r0)\n  jmp sum.top\n\
sum.out:\n  la r0,calls\n  la r1,calls\n  ld r1,(r1)\n  addi r1,r1,1\n  st r1,(r0)\
\n  ld a0,4(fp)\n  call note\n  ld rv,4(fp)\n  ret\n";

const FIVE_VALUES: &str = "\
unit e\ncon 0\nret\nend\n\
unit f\nadl 1\nlod\nadl 2\nlod\nadl 3\nlod\nadl 4\nlod\nadl 5\nlod\nadd\nadd\nadd\nadd\nret\nend\n";

/// Units and their assembly.
const COMPILES: [(&str, &str); 10] = [
    ("", ""),
    // The address of a store stays in a register.
    (STORE_BACK, STORE_BACK_ASSEMBLY),
    (
        "unit f\nadl 4\nlod\ncon 1\nadd\nret\nend\n",
        "f:\n  ld r0,4(fp)\n  addi rv,r0,1\n  ret\n",
    ),
    // Constants are folded, as words.
    (
        "unit f\ncon 2147483647\ncon 1\nadd\nret\nend\n",
        "f:\n  li rv,-2147483648\n  ret\n",
    ),
    // A branch on two constants becomes a jump, or nothing; the block before the second one is empty.
    (
        "unit f\ncon 3\ncon 3\nbeq L\ncon 1\nret\nlab L\ncon 2\nret\nend\n",
        "f:\n  jmp f.L\n  li rv,1\n  ret\nf.L:\n  li rv,2\n  ret\n",
    ),
    (
        "unit f\ncon 3\ncon 4\nbeq L\ncon 1\nret\nlab L\ncon 2\nret\nend\n",
        "f:\n  li rv,1\n  ret\nf.L:\n  li rv,2\n  ret\n",
    ),
    // What was popped is dead.
    (
        "unit f\ncon 1\npop\ncon 2\nret\nend\n",
        "f:\n  li rv,2\n  ret\n",
    ),
    // Five constants need five registers in naive code, and none here.
    (
        "unit f\ncon 1\ncon 2\ncon 3\ncon 4\ncon 5\nadd\nadd\nadd\nadd\nret\nend\n",
        "f:\n  li rv,15\n  ret\n",
    ),
    // Units are written in their order, each with its own labels.
    (
        "unit f\nlab a\njmp a\nend\nunit g\nlab b\ncon 1\npop\njmp b\nend\n",
        "f:\nf.a:\n  jmp f.a\ng:\ng.b:\n  jmp g.b\n",
    ),
    (SUM, SUM_ASSEMBLY),
];

#[test]
fn compiles(rt: HostRuntime) -> Result<(), Fail> {
    for (units, assembly) in &COMPILES {
        let ended = run(
            rt.alloc(),
            "slow",
            text_of(rt.alloc(), &[TINY, units])?,
            &GOOD,
        )?;
        assert_eq!(rt; ended.status, Status::Done, "{assembly}");
        assert_eq!(rt; ended.sink.kept(), assembly.as_bytes(), "{assembly}");
        assert_eq!(rt; ended.notes.kept(), b"".as_slice(), "{assembly}");
    }
    Ok(())
}

/// Texts and streams that go wrong: the status, what the sink kept, and what is told.
#[test]
fn fails(rt: HostRuntime) -> Result<(), Fail> {
    let slow_sink = Streams {
        most: 10,
        read_fails: 0,
        write_fails: 2,
        room: 1000,
    };
    let bad_source = Streams {
        most: 100,
        read_fails: 1,
        write_fails: 0,
        room: 1000,
    };
    let unrecognised = Status::Unrecognised {
        unit: 1,
        block: 0,
        index: 2,
    };
    let crowded = Status::TooFew {
        unit: 1,
        point: 9,
        needed: 5,
    };
    let word = Status::BadText {
        line: 33,
        col: 1,
        kind: Kind::Word,
    };
    let rows = [
        (
            STORE_BACK,
            &slow_sink,
            Status::WriteFault { written: 10 },
            "f:\n  lea r",
            "po: write failed after 10 bytes\n",
        ),
        (
            STORE_BACK,
            &bad_source,
            Status::ReadFault,
            "",
            "po: read failed\n",
        ),
        (
            "unit f\ncon 1\nre",
            &GOOD,
            word,
            "",
            "po: line 33, column 1: Word\n",
        ),
        // All naive instructions are recognised first, also one that a pass would combine away.
        (
            "unit e\ncon 0\nret\nend\nunit f\ncon 2\ncon 3\nmul\nret\nend\n",
            &GOOD,
            unrecognised,
            "",
            "po: unit 1, block 0, instruction 2: not recognised\n",
        ),
        // Five loaded values at once: the point is one of the code that the passes make.
        (
            FIVE_VALUES,
            &GOOD,
            crowded,
            "",
            "po: unit 1, point 9: 5 registers needed\n",
        ),
    ];
    for (units, streams, status, kept, told) in rows {
        let ended = run(
            rt.alloc(),
            "slow",
            text_of(rt.alloc(), &[TINY, units])?,
            streams,
        )?;
        assert_eq!(rt; ended.status, status, "{told}");
        assert_eq!(rt; ended.sink.kept(), kept.as_bytes(), "{told}");
        assert_eq!(rt; ended.notes.kept(), told.as_bytes(), "{told}");
    }
    Ok(())
}

/// The longest unit, of which nothing is left but its last constant, and one that is longer.
#[test]
fn keeps_to_the_limits(rt: HostRuntime) -> Result<(), Fail> {
    let wide = Streams {
        most: 65536,
        read_fails: 0,
        write_fails: 0,
        room: 1000,
    };
    let mut text = text_of(rt.alloc(), &[TINY, "unit f\n"])?;
    push_times(&mut text, "con 1\npop\n", 32767)?;
    push_times(&mut text, "con 1\nret\nend\n", 1)?;
    let ended = run(rt.alloc(), "slow", text, &wide)?;
    assert_eq!(rt; ended.status, Status::Done);
    assert_eq!(rt; ended.sink.kept(), b"f:\n  li rv,1\n  ret\n".as_slice());

    let mut text = text_of(rt.alloc(), &[TINY, "unit f\n"])?;
    push_times(&mut text, "con 1\npop\n", 32768)?;
    push_times(&mut text, "con 1\nret\nend\n", 1)?;
    let ended = run(rt.alloc(), "slow", text, &wide)?;
    let too_many = Status::BadText {
        line: 65568,
        col: 1,
        kind: Kind::TooMany,
    };
    assert_eq!(rt; ended.status, too_many);
    Ok(())
}
