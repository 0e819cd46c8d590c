use po_lines::{
    LineError, Lines, Names, Word, in_line, line_words, name_alone, says_nothing, word_number_alone,
};
use po_text::{Kind, Spot, TextRefusal};
use std::alloc::Global;
use std::test::Fail;

/// The number of the next line, its length, and the offset behind it.
fn next(lines: &mut Lines) -> Option<(u32, usize, usize)> {
    let line = lines.next_line()?;
    Some((line.number, line.bytes.len(), line.after))
}

#[test]
fn lines_of_a_text(rt: HostRuntime) {
    // A return before a feed is left out, and the last line may lack its feed.
    let mut lines = Lines::behind(b"ab\r\n\n\r b\n\r", Spot { offset: 0, line: 1 });
    let wanted = [
        Some((1, 2, 4)),
        Some((2, 0, 5)),
        Some((3, 3, 9)),
        Some((4, 1, 10)),
        None,
    ];
    for line in wanted {
        assert_eq!(rt; next(&mut lines), line);
    }
    assert_eq!(rt; lines.number(), 5);
}

/// Why a line isn't read that is one name, or one number where it has more words.
fn refusal(alloc: Global, line: &[u8]) -> Option<TextRefusal> {
    in_line(7, read_line(alloc, line)).err()
}

fn read_line(alloc: Global, line: &[u8]) -> Result<(), LineError> {
    let words = line_words(alloc, line)?;
    if says_nothing(&words) {
        return Ok(());
    }
    read_words(alloc, &words)
}

fn read_words(alloc: Global, words: &[Word]) -> Result<(), LineError> {
    if words.len() == 1 {
        name_alone(alloc, words, 9)?;
    } else {
        word_number_alone(words, 9)?;
    }
    Ok(())
}

#[test]
fn faults_of_lines(rt: HostRuntime) {
    let lines = [
        ("", None),
        (" //x 1", None),
        ("a_1", None),
        (" a-b", Some((2, Kind::Word))),
        ("4294967296 x", Some((1, Kind::Number))),
        ("-2147483648  x", Some((14, Kind::Word))),
    ];
    for (line, fault) in lines {
        let wanted = fault.map(|(col, kind)| TextRefusal::BadText { line: 7, col, kind });
        assert_eq!(rt; refusal(rt.alloc(), line.as_bytes()), wanted, "{line}");
    }
}

#[test]
fn sets_of_names(rt: HostRuntime) -> Result<(), Fail> {
    let alloc = rt.alloc();
    let mut names = Names::new(alloc);
    assert!(rt; names.insert(alloc, b"a")?);
    assert!(rt; !names.insert(alloc, b"a")?);
    assert!(rt; names.contains(b"a"));
    assert!(rt; !names.contains(b"b"));
    Ok(())
}
