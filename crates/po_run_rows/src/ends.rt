//! How runs end, by workers and learners of several numbers: the status, what the sink kept, and what is told. The
//! lines of `TINY` are 1 to 30.

use crate::runs::{GOOD, Streams, on_tiny, run, words_of};
use po_pool::Open;
use po_run::{Status, po_serial};
use po_text::{Kind, MemSink, MemSource};
use std::test::Fail;

const STORE_BACK: &str = "unit f\nadl 4\nadl 4\nlod\ncon 1\nadd\nsto\ncon 0\nret\nend\n";

const UNRECOGNISED: &str = "unit e\ncon 0\nret\nend\nunit f\ncon 2\ncon 3\nmul\nret\nend\n";

/// Five loaded values at once, in the second unit.
const FIVE_VALUES: &str = "\
unit e\ncon 0\nret\nend\n\
unit f\nadl 1\nlod\nadl 2\nlod\nadl 3\nlod\nadl 4\nlod\nadl 5\nlod\nadd\nadd\nadd\nadd\nret\nend\n";

const USAGE: &str =
    "po: usage: po naive, po slow, po opt [--workers N] [--learners N] [--stats], po gen --seed N --units N\n";

const WORDS: [&str; 4] = [
    "opt",
    "opt --workers 1 --learners 0",
    "opt --workers 4 --learners 2",
    "opt --workers 16 --learners 8",
];

const BAD_SOURCE: Streams = Streams {
    read_fails: 1,
    write_fails: 0,
    room: 1000,
};

/// The first call of a write takes 100 bytes.
const BAD_SINK: Streams = Streams {
    read_fails: 0,
    write_fails: 2,
    room: 1000,
};

const FULL_SINK: Streams = Streams {
    read_fails: 0,
    write_fails: 0,
    room: 20,
};

/// Units, the streams, the status, how the output begins up to what the sink kept of it, and what is told.
type Row = (&'static str, Streams, Status, &'static str, &'static str);

const ROWS: [Row; 7] = [
    ("", GOOD, Status::Done, "rules 0\n", ""),
    (
        "unit f\ncon 1\nre",
        GOOD,
        Status::BadText {
            line: 33,
            col: 1,
            kind: Kind::Word,
        },
        "",
        "po: line 33, column 1: Word\n",
    ),
    (
        UNRECOGNISED,
        GOOD,
        Status::Unrecognised {
            unit: 1,
            block: 0,
            index: 2,
        },
        "",
        "po: unit 1, block 0, instruction 2: not recognised\n",
    ),
    (
        FIVE_VALUES,
        GOOD,
        Status::TooFew {
            unit: 1,
            point: 9,
            needed: 5,
        },
        "",
        "po: unit 1, point 9: 5 registers needed\n",
    ),
    (
        STORE_BACK,
        BAD_SOURCE,
        Status::ReadFault,
        "",
        "po: read failed\n",
    ),
    (
        STORE_BACK,
        BAD_SINK,
        Status::WriteFault { written: 100 },
        "f:\n  lea r0,4\n  ld r1,4(fp)\n  addi r1,r1,1\n  st r1,(r0)\n  li rv,0\n  ret\n\
            rules 11\n%0 := #0 | %1 := (%",
        "po: write failed after 100 bytes\n",
    ),
    (
        STORE_BACK,
        FULL_SINK,
        Status::WriteFault { written: 20 },
        "f:\n  lea r0,4\n  ld r",
        "po: write failed after 20 bytes\n",
    ),
];

#[test]
fn ends(rt: HostRuntime) -> Result<(), Fail> {
    let alloc = rt.alloc();
    for (units, streams, status, kept, told) in ROWS {
        for words in WORDS {
            let ended = run(&rt, alloc, words, on_tiny(alloc, units)?, &streams, &Open)?;
            assert_eq!(rt; ended.status, status, "{words}, {told}");
            assert_eq!(rt; ended.sink.kept(), kept.as_bytes(), "{words}, {told}");
            assert_eq!(rt; ended.notes.kept(), told.as_bytes(), "{words}, {told}");
        }
    }
    Ok(())
}

/// Words that ask for nothing. The source would fail where it was read.
const NO_USE: [&str; 9] = [
    "",
    "fast",
    "opt --workers 0",
    "opt --workers 17",
    "opt --workers x",
    "opt --learners 9",
    "opt --stats 1",
    "opt slow",
    "--workers 4 opt",
];

#[test]
fn ask_for_nothing(rt: HostRuntime) -> Result<(), Fail> {
    let alloc = rt.alloc();
    for words in NO_USE {
        let ended = run(
            &rt,
            alloc,
            words,
            on_tiny(alloc, STORE_BACK)?,
            &BAD_SOURCE,
            &Open,
        )?;
        assert_eq!(rt; ended.status, Status::Usage, "{words}");
        assert_eq!(rt; ended.sink.kept(), b"".as_slice(), "{words}");
        assert_eq!(rt; ended.notes.kept(), USAGE.as_bytes(), "{words}");
    }
    Ok(())
}

/// The call on one thread doesn't know the mode `opt`; in the other modes both calls do the same.
#[test]
fn on_one_thread(rt: HostRuntime) -> Result<(), Fail> {
    let alloc = rt.alloc();
    let rows = [
        ("opt", false),
        ("opt --workers 1 --learners 0", false),
        ("opt --stats", false),
        ("opt --workers 0", false),
        ("naive", true),
        ("slow", true),
    ];
    for (words, known) in rows {
        let list = words_of(alloc, words)?;
        let mut source = MemSource::new(on_tiny(alloc, STORE_BACK)?, 100, Vec::new(alloc));
        let mut sink = MemSink::new(alloc, 100, Vec::new(alloc), 1000)?;
        let mut notes = MemSink::new(alloc, 100, Vec::new(alloc), 1000)?;
        let status = po_serial(alloc, &list, &mut source, &mut sink, &mut notes);
        if known {
            let ended = run(&rt, alloc, words, on_tiny(alloc, STORE_BACK)?, &GOOD, &Open)?;
            assert_eq!(rt;
                (ended.status, status),
                (Status::Done, Status::Done),
                "{words}"
            );
            assert!(rt; ended.sink.kept() == sink.kept(), "{words}");
            assert!(rt; ended.notes.kept() == notes.kept(), "{words}");
        } else {
            assert_eq!(rt; status, Status::Usage, "{words}");
            assert_eq!(rt; sink.kept(), b"".as_slice(), "{words}");
            assert_eq!(rt; notes.kept(), USAGE.as_bytes(), "{words}");
        }
    }
    Ok(())
}
