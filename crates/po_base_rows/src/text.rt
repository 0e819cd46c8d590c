use po_text::{
    Got, MemSink, MemSource, ReadRefusal, Sink, Source, Span, StdSink, StdSource, WriteFault,
    read_all, read_number, split_line, word_end, write_all,
};
use std::alloc::{AllocError, Global};
use std::io;
use std::io::{ErrorKind, Read};
use std::test::Fail;

/// A reader that gives three bytes, fails, and gives three more.
#[derive(Drop)]
struct Flaky {
    calls: u8,
}

impl Read for Flaky {
    fn read(&mut self, buf: &mut [u8]) -> io::Result<usize> {
        let call = self.calls;
        self.calls = call.saturating_add(1);
        match call {
            0 | 2 if 3 <= buf.len() => {
                buf[..3].copy_from_slice(b"abc");
                Ok(3)
            }
            1 => Err(io::Error::from(ErrorKind::BrokenPipe)),
            _ => Ok(0),
        }
    }
}

/// A source of two lines, three bytes a call, which fails at the listed calls.
fn text(alloc: Global, fail: &[u64]) -> Result<MemSource, AllocError> {
    let bytes = b"a\nbcdef".to_vec(alloc)?;
    Ok(MemSource::new(bytes, 3, fail.to_vec(alloc)?))
}

#[test]
fn source_in_memory(rt: HostRuntime) -> Result<(), Fail> {
    // Calls 2 and 4 fail; the others go on where the source stands.
    let mut source = text(rt.alloc(), &[2, 4])?;
    let mut buf = [0u8; 4];
    let answers = [
        (Got::Count(3), b"a\nb\0"),
        (Got::Failed, b"a\nb\0"),
        (Got::Count(3), b"cde\0"),
        (Got::Failed, b"cde\0"),
        (Got::Count(1), b"fde\0"),
        (Got::End, b"fde\0"),
    ];
    for (answer, bytes) in answers {
        assert_eq!(rt; source.read(&mut buf), answer);
        assert_eq!(rt; buf, *bytes);
    }
    Ok(())
}

/// The refusal of a whole text with this limit.
fn refusal(alloc: Global, limit: u8) -> Result<Option<ReadRefusal>, AllocError> {
    let mut source = text(alloc, &[])?;
    Ok(read_all(alloc, &mut source, usize::from(limit)).err())
}

#[test]
fn texts_too_long(rt: HostRuntime) -> Result<(), Fail> {
    // The first byte past the limit has this place.
    let places = [(0, 1, 1), (1, 1, 2), (2, 2, 1), (6, 2, 5)];
    for (limit, line, col) in places {
        let wanted = ReadRefusal::TooLong { line, col };
        assert_eq!(rt; refusal(rt.alloc(), limit)?, Some(wanted), "at {limit}");
    }
    assert_eq!(rt; refusal(rt.alloc(), 7)?, None);
    Ok(())
}

/// All bytes of a source, after a read that meets its fault.
fn read_twice<S: Source>(alloc: Global, mut source: S) -> Result<Vec<u8>, ReadRefusal>
where
    S: Drop,
{
    match read_all(alloc, &mut source, 9) {
        Err(ReadRefusal::ReadFault) => read_all(alloc, &mut source, 9),
        other => other,
    }
}

#[test]
fn texts_behind_a_fault(rt: HostRuntime) -> Result<(), Fail> {
    let alloc = rt.alloc();
    let rest = read_twice(alloc, text(alloc, &[2])?)?;
    assert_eq!(rt; rest.as_slice(), b"cdef".as_slice());
    let rest = read_twice(alloc, StdSource::new(Flaky { calls: 0 }))?;
    assert_eq!(rt; rest.as_slice(), b"abc".as_slice());
    let whole = read_twice(alloc, StdSource::new(b"a b".as_slice()))?;
    assert_eq!(rt; whole.as_slice(), b"a b".as_slice());
    Ok(())
}

#[test]
fn sinks_in_memory(rt: HostRuntime) -> Result<(), Fail> {
    // The listed call, the room, and how many bytes of the text are written before the fault.
    let sinks = [(2, 64, Some(10)), (9, 12, Some(12)), (9, 64, None)];
    for (call, room, written) in sinks {
        let fail = [call].to_vec(rt.alloc())?;
        let mut sink = MemSink::new(rt.alloc(), 10, fail, room)?;
        let fault = write_all(&mut sink, b"0123456789abcdefghij!").err();
        assert_eq!(rt;
            fault,
            written.map(|written| WriteFault { written }),
            "with {room}"
        );
        let kept = written.unwrap_or(21) as usize;
        assert_eq!(rt; sink.kept().len(), kept, "with {room}");
    }
    Ok(())
}

#[test]
fn writers_of_std(rt: HostRuntime) -> Result<(), Fail> {
    let mut bytes = Vec::new(rt.alloc());
    let mut sink = StdSink::new(&mut bytes);
    assert_eq!(rt; write_all(&mut sink, b"a b"), Ok(()));
    assert_eq!(rt; bytes.as_slice(), b"a b".as_slice());
    // A full slice takes 0 bytes, which is a fault.
    let mut room = [0u8; 4];
    let mut sink = StdSink::new(room.as_mut_slice());
    let fault = write_all(&mut sink, b"abcdef");
    assert_eq!(rt; fault, Err(WriteFault { written: 4 }));
    assert_eq!(rt; room, *b"abcd");
    Ok(())
}

#[test]
fn messages(rt: HostRuntime) -> Result<(), Fail> {
    let message = format!(in rt.alloc(); "{}", ReadRefusal::TooLong { line: 1, col: 2 })?;
    assert_eq!(rt; message.as_str(), "TooLong");
    Ok(())
}

#[test]
fn words(rt: HostRuntime) -> Result<(), Fail> {
    let alloc = rt.alloc();
    let lines: [(&str, &[(usize, usize)]); 6] = [
        ("", &[]),
        (" \t ", &[]),
        ("word", &[(0, 4)]),
        ("const  -1", &[(0, 5), (7, 9)]),
        ("\tb\tc ", &[(1, 2), (3, 4)]),
        (" a b", &[(1, 2), (3, 4)]),
    ];
    for (line, words) in lines {
        let found = split_line(alloc, line.as_bytes())?;
        assert_eq!(rt; found.len(), words.len(), "of {line}");
        for (word, (start, end)) in found.iter().zip(words) {
            assert_eq!(rt;
                *word,
                Span {
                    start: *start,
                    end: *end
                },
                "of {line}"
            );
        }
    }
    assert_eq!(rt; word_end(b"ab\tc", 0), 2);
    Ok(())
}

#[test]
fn numbers(rt: HostRuntime) {
    let numbers = [
        ("", None),
        ("-", None),
        ("--1", None),
        ("+1", None),
        ("1a", None),
        ("1 ", None),
        ("12345678901", None),
        ("-12345678901", None),
        ("0", Some(0)),
        ("-0", Some(0)),
        ("0007", Some(7)),
        ("4294967295", Some(4_294_967_295)),
        ("-2147483648", Some(-2_147_483_648)),
        ("9999999999", Some(9_999_999_999)),
        ("-9999999999", Some(-9_999_999_999)),
    ];
    for (word, number) in numbers {
        assert_eq!(rt; read_number(word.as_bytes()), number, "of {word}");
    }
}
