//! Hostile use, over `TINY`, whose lines are 1 to 30: a source and a sink that fail at each call, a sink that is full
//! at each byte, a text that is cut behind each line, the largest input, and several causes of a refusal at once.

use crate::runs::{Ended, GOOD, Streams, run, text_of};
use crate::slow::{STORE_BACK, STORE_BACK_ASSEMBLY, SUM};
use po_mdread::TINY;
use po_run::{Status, po_serial};
use po_text::{Kind, MemSink, MemSource};
use std::alloc::Global;
use std::test::Fail;

/// The mode `slow` on an input of 944 bytes, which has an output of 72 bytes.
fn run_small(alloc: Global, streams: &Streams) -> Result<Ended, Fail> {
    run(alloc, "slow", text_of(alloc, &[TINY, STORE_BACK])?, streams)
}

/// The source gives 64 bytes a call: the input at the first 15 calls, and its end at the 16th. There is no 17th.
#[test]
fn source_fails_at_each_call(rt: HostRuntime) -> Result<(), Fail> {
    for call in 1..18 {
        let streams = Streams {
            most: 64,
            read_fails: call,
            write_fails: 0,
            room: 1000,
        };
        let (status, kept) = if call <= 16 {
            (Status::ReadFault, "")
        } else {
            (Status::Done, STORE_BACK_ASSEMBLY)
        };
        let ended = run_small(rt.alloc(), &streams)?;
        assert_eq!(rt; ended.status, status, "call {call}");
        assert_eq!(rt; ended.sink.kept(), kept.as_bytes(), "call {call}");
    }
    Ok(())
}

/// Whether the sink took so many bytes of the output and no more, and the status says so.
fn is_cut(ended: &Ended, size: usize) -> bool {
    let status = if size < 72 {
        Status::WriteFault {
            written: size as u64,
        }
    } else {
        Status::Done
    };
    let kept = ended.sink.kept();
    if ended.status != status {
        return false;
    }
    kept.len() == size && STORE_BACK_ASSEMBLY.as_bytes().starts_with(kept)
}

/// The sink takes 10 bytes a call, and the last two at the eighth. There is no ninth.
#[test]
fn sink_fails_at_each_call(rt: HostRuntime) -> Result<(), Fail> {
    let rows = [
        (1, 0),
        (2, 10),
        (3, 20),
        (4, 30),
        (5, 40),
        (6, 50),
        (7, 60),
        (8, 70),
        (9, 72),
    ];
    for (call, size) in rows {
        let streams = Streams {
            most: 10,
            read_fails: 0,
            write_fails: call,
            room: 1000,
        };
        assert!(rt;
            is_cut(&run_small(rt.alloc(), &streams)?, size),
            "call {call}"
        );
    }
    Ok(())
}

/// The sink has room for each number of bytes up to the whole output.
#[test]
fn sink_is_full_at_each_byte(rt: HostRuntime) -> Result<(), Fail> {
    for room in 0..73 {
        let streams = Streams {
            most: 10,
            read_fails: 0,
            write_fails: 0,
            room,
        };
        assert!(rt;
            is_cut(&run_small(rt.alloc(), &streams)?, room),
            "room for {room}"
        );
    }
    Ok(())
}

/// What the mode `naive` answers to a text that ends before this line: it is whole behind its description, in line 30,
/// and behind its unit, in line 77.
fn status_before(line: u32) -> Status {
    if line == 31 || line == 78 {
        return Status::Done;
    }
    Status::BadText {
        line,
        col: 1,
        kind: Kind::Word,
    }
}

#[test]
fn text_is_cut_behind_each_line(rt: HostRuntime) -> Result<(), Fail> {
    let whole = text_of(rt.alloc(), &[TINY, SUM])?;
    let mut cut = Vec::new(rt.alloc());
    let mut line: u32 = 1;
    for byte in whole.iter() {
        cut.push(*byte)?;
        if *byte == b'\n' {
            line = line.wrapping_add(1);
            let ended = run(rt.alloc(), "naive", cut.clone()?, &GOOD)?;
            assert_eq!(rt; ended.status, status_before(line), "before {line}");
            assert_eq!(rt; ended.sink.kept().is_empty(), line != 78, "before {line}");
        }
    }
    assert_eq!(rt; line, 78);
    Ok(())
}

/// 944 bytes and so many line feeds: as many bytes as an input may have, and one more.
#[test]
fn takes_the_largest_input(rt: HostRuntime) -> Result<(), Fail> {
    let too_many = Status::BadText {
        line: 4193401,
        col: 1,
        kind: Kind::TooMany,
    };
    let wide = Streams {
        most: 65536,
        read_fails: 0,
        write_fails: 0,
        room: 1000,
    };
    for (feeds, status) in [(4193360, Status::Done), (4193361, too_many)] {
        let mut text = text_of(rt.alloc(), &[TINY, STORE_BACK])?;
        text.extend_from_slice(&vec![in rt.alloc(); b'\n'; feeds]?)?;
        let ended = run(rt.alloc(), "naive", text, &wide)?;
        assert_eq!(rt; ended.status, status, "{feeds} line feeds");
    }
    Ok(())
}

const UNRECOGNISED: &str = "unit f\ncon 2\ncon 3\nmul\nret\nend\n";

const CROWDED: &str = "unit g\ncon 1\ncon 2\ncon 3\ncon 4\ncon 5\nadd\nadd\nadd\nadd\nret\nend\n";

/// Units, and further ones, with several causes of a refusal: the status is that of the first in the order words,
/// reading, text, recognition, placing, writing. Nothing is written.
#[test]
fn first_cause_decides(rt: HostRuntime) -> Result<(), Fail> {
    let bad_streams = Streams {
        most: 100,
        read_fails: 2,
        write_fails: 1,
        room: 0,
    };
    let bad_sink = Streams {
        most: 100,
        read_fails: 0,
        write_fails: 1,
        room: 0,
    };
    let word = Status::BadText {
        line: 37,
        col: 1,
        kind: Kind::Word,
    };
    let unrecognised = Status::Unrecognised {
        unit: 1,
        block: 0,
        index: 2,
    };
    let crowded = Status::TooFew {
        unit: 0,
        point: 9,
        needed: 5,
    };
    let rows = [
        ("fast", UNRECOGNISED, "x", &bad_streams, Status::Usage),
        ("naive", UNRECOGNISED, "x", &bad_streams, Status::ReadFault),
        ("naive", UNRECOGNISED, "x", &bad_sink, word),
        ("slow", UNRECOGNISED, "x", &bad_sink, word),
        ("naive", CROWDED, UNRECOGNISED, &bad_sink, unrecognised),
        ("slow", CROWDED, UNRECOGNISED, &bad_sink, unrecognised),
        ("naive", CROWDED, "", &bad_sink, crowded),
        (
            "slow",
            CROWDED,
            "",
            &bad_sink,
            Status::WriteFault { written: 0 },
        ),
    ];
    for (mode, first, second, streams, status) in rows {
        let text = text_of(rt.alloc(), &[TINY, first, second])?;
        let ended = run(rt.alloc(), mode, text, streams)?;
        assert_eq!(rt; ended.status, status, "{mode}, {first}{second}");
        assert_eq!(rt;
            ended.sink.kept(),
            b"".as_slice(),
            "{mode}, {first}{second}"
        );
    }
    Ok(())
}

/// Notes that fail change neither the status nor the output.
#[test]
fn notes_fail(rt: HostRuntime) -> Result<(), Fail> {
    let alloc = rt.alloc();
    let rows = [
        (
            "naive",
            "unit f\nlab a\njmp a\nend\n",
            Status::Done,
            "f:\nf.a:\n  jmp f.a\n",
        ),
        (
            "naive",
            CROWDED,
            Status::TooFew {
                unit: 0,
                point: 9,
                needed: 5,
            },
            "",
        ),
        ("fast", "", Status::Usage, ""),
    ];
    for (mode, units, status, kept) in rows {
        let words = vec![in alloc; String::from_str(alloc, mode)?]?;
        let mut source = MemSource::new(text_of(alloc, &[TINY, units])?, 100, Vec::new(alloc));
        let mut sink = MemSink::new(alloc, 100, Vec::new(alloc), 1000)?;
        let mut notes = MemSink::new(alloc, 1, vec![in alloc; 1]?, 0)?;
        let ended = po_serial(alloc, &words, &mut source, &mut sink, &mut notes);
        assert_eq!(rt; ended, status, "{mode}, {units}");
        assert_eq!(rt; sink.kept(), kept.as_bytes(), "{mode}, {units}");
        assert_eq!(rt; notes.kept(), b"".as_slice(), "{mode}, {units}");
    }
    Ok(())
}
