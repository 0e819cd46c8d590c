//! Lists of words, and what they ask for.

use po_words::{Request, one_request, request_of, words_ask, words_ask_nothing};
use std::alloc::{AllocError, Global};
use std::test::Fail;

/// Words between blanks, and the mode without options that they ask for.
type ModeRow = (&'static str, Option<Request>);

/// Words between blanks, and the workers, the learners and whether the numbers are told.
type OptRow = (&'static str, Option<(u32, u32, bool)>);

/// Words between blanks, and the seed and the number of units.
type GenRow = (&'static str, Option<(u32, u32)>);

/// The first word, and modes without options.
const FIRST: [ModeRow; 16] = [
    ("", None),
    ("naive", Some(Request::Naive)),
    ("slow", Some(Request::Slow)),
    // `--` ends the options, and nothing follows it.
    ("slow --", Some(Request::Slow)),
    ("fast", None),
    ("nai", None),
    ("naiver", None),
    ("Slow", None),
    ("--help", None),
    ("--stats opt", None),
    ("naive slow", None),
    ("naive --stats", None),
    ("naive -- slow", None),
    ("naive --help", None),
    ("slow -h", None),
    ("slow --version", None),
];

/// The options of `opt`.
const OPT: [OptRow; 44] = [
    ("opt", Some((4, 2, false))),
    ("opt --stats", Some((4, 2, true))),
    ("opt --workers 3", Some((3, 2, false))),
    ("opt --learners 3", Some((4, 3, false))),
    ("opt --workers 4 --learners 2", Some((4, 2, false))),
    ("opt --learners 1 --stats --workers 2", Some((2, 1, true))),
    ("opt --workers=3 --learners=8", Some((3, 8, false))),
    // Bounds, inside and outside.
    ("opt --workers 0", None),
    ("opt --workers 1", Some((1, 2, false))),
    ("opt --workers 16", Some((16, 2, false))),
    ("opt --workers 17", None),
    ("opt --learners 0", Some((4, 0, false))),
    ("opt --learners 8", Some((4, 8, false))),
    ("opt --learners 9", None),
    // Digits.
    ("opt --workers 04", Some((4, 2, false))),
    ("opt --workers 0000000004", Some((4, 2, false))),
    ("opt --workers 00000000004", None),
    ("opt --workers 4294967297", None),
    ("opt --workers x", None),
    ("opt --workers +4", None),
    ("opt --workers -4", None),
    ("opt --workers=-4", None),
    ("opt --learners=-0", None),
    ("opt --workers 4_", None),
    ("opt --workers 4.", None),
    ("opt --workers 0x4", None),
    ("opt --workers=", None),
    ("opt --workers ٤", None),
    // An option without its value, and one given twice.
    ("opt --workers", None),
    ("opt --workers --stats", None),
    ("opt --workers 4 --workers 4", None),
    ("opt --learners=2 --learners=2", None),
    ("opt --stats --stats", None),
    ("opt --stats=true", None),
    ("opt --workers 4 4", None),
    // What isn't an option of `opt`.
    ("opt extra", None),
    ("opt --seed 1", None),
    ("opt --work 4", None),
    ("opt -workers 4", None),
    ("opt --help", None),
    ("opt -h", None),
    ("opt --stats --", Some((4, 2, true))),
    ("opt -- --stats", None),
    ("opt -", None),
];

/// The options of `gen`.
const GEN: [GenRow; 17] = [
    ("gen", None),
    ("gen --seed 1", None),
    ("gen --units 1", None),
    ("gen --seed 7 --units 0", Some((7, 0))),
    ("gen --units=2 --seed=3", Some((3, 2))),
    ("gen --seed 0 --units 10000", Some((0, 10_000))),
    ("gen --seed 1 --units 10001", None),
    ("gen --seed 4294967295 --units 1", Some((4_294_967_295, 1))),
    ("gen --seed 4294967296 --units 1", None),
    ("gen --seed 9999999999 --units 1", None),
    ("gen --seed 00000000001 --units 1", None),
    ("gen --seed -1 --units 1", None),
    ("gen --seed 1 --units -1", None),
    ("gen --seed 1 --units 1 --units 2", None),
    ("gen --seed 1 --units 1 --stats", None),
    ("gen --seed 1 --units 1 1", None),
    ("gen --seed 1 --units 1 --help", None),
];

/// The words between the blanks of a text.
fn words_of(alloc: Global, text: &str) -> Result<Vec<String>, AllocError> {
    let mut words = Vec::new(alloc);
    for word in text.split(' ') {
        if !word.is_empty() {
            words.push(String::from_str(alloc, word)?)?;
        }
    }
    Ok(words)
}

/// What the words of a text ask for.
fn asked(alloc: Global, text: &str) -> Result<Option<Request>, Fail> {
    let words = words_of(alloc, text)?;
    Ok(request_of(alloc, &words)?)
}

#[test]
fn first_words(rt: HostRuntime) -> Result<(), Fail> {
    for (text, request) in FIRST {
        assert_eq!(rt; asked(rt.alloc(), text)?, request, "{text}");
    }
    Ok(())
}

#[test]
fn options_of_opt(rt: HostRuntime) -> Result<(), Fail> {
    for (text, values) in OPT {
        let request = values.map(|(workers, learners, stats)| Request::Opt {
            workers,
            learners,
            stats,
        });
        assert_eq!(rt; asked(rt.alloc(), text)?, request, "{text}");
    }
    Ok(())
}

#[test]
fn options_of_gen(rt: HostRuntime) -> Result<(), Fail> {
    for (text, values) in GEN {
        let request = values.map(|(seed, units)| Request::Gen { seed, units });
        assert_eq!(rt; asked(rt.alloc(), text)?, request, "{text}");
    }
    Ok(())
}

#[test]
fn odd_words(rt: HostRuntime) -> Result<(), Fail> {
    let alloc = rt.alloc();
    let empty = vec![in alloc; String::new(alloc)]?;
    assert!(rt; request_of(alloc, &empty)?.is_none());
    let value = vec![in alloc;
        String::from_str(alloc, "opt")?,
        String::from_str(alloc, "--workers")?,
        String::new(alloc),
    ]?;
    assert!(rt; request_of(alloc, &value)?.is_none());
    let word = vec![in alloc; String::from_str(alloc, "opt")?, String::new(alloc)]?;
    assert!(rt; request_of(alloc, &word)?.is_none());
    one_request();
    words_ask();
    words_ask_nothing();
    Ok(())
}
