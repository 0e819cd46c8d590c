//! One text gives the same bytes however many workers and learners there are, and its assembly is that of `slow`.

use crate::runs::{Ended, GOOD, on_tiny, run};
use po_pool::Open;
use po_run::Status;
use std::alloc::Global;
use std::sync::Wait;
use std::test::Fail;
use std::thread::Threads;

const SUM: &str = "\
unit sum\n\
adl 3\ncon 0\nsto\nadl 4\ncon 0\nsto\n\
lab top\nadl 3\nlod\nadl 1\nlod\nbge out\n\
adl 4\nadl 4\nlod\nadl 2\nlod\nadl 3\nlod\nadd\nlod\nadd\nsto\n\
adl 3\nadl 3\nlod\ncon 1\nadd\nsto\njmp top\n\
lab out\nadg calls\nadg calls\nlod\ncon 1\nadd\nsto\n\
adl 4\nlod\narg 0\ncall note 1\npop\nadl 4\nlod\nret\nend\n";

const WORDS: [&str; 9] = [
    "opt",
    "opt --stats",
    "opt --workers 1",
    "opt --workers 4 --learners 2",
    "opt --workers 4 --learners 2 --stats",
    "opt --workers 16 --learners 8",
    "opt --workers 16 --learners 0",
    "opt --learners=1 --workers=3",
    "opt --workers 2 --learners 8 --stats",
];

/// Units with other numbers and other operations each, and one that a loop goes through.
fn text_of(alloc: Global) -> Result<Vec<u8>, Fail> {
    let mut text = on_tiny(alloc, SUM)?;
    for k in 0..40_u32 {
        let number = k.wrapping_mul(9);
        let word = k % 8;
        let unit = format!(in alloc;
            "unit g{k}\nadl {word}\nlod\ncon {number}\nadd\nadl 1\nadl {word}\nlod\nsto\nret\nend\n"
        )?;
        text.extend_from_slice(unit.as_bytes())?;
    }
    Ok(text)
}

/// The run by these words.
fn run_text<R: Threads + Wait + Sync>(rt: &R, alloc: Global, words: &str) -> Result<Ended, Fail> {
    run(rt, alloc, words, text_of(alloc)?, &GOOD, &Open)
}

#[test]
fn same(rt: HostRuntime) -> Result<(), Fail> {
    let alloc = rt.alloc();
    let alone = run_text(&rt, alloc, "opt --workers 1 --learners 0")?;
    assert_eq!(rt; alone.status, Status::Done);
    let slow = run_text(&rt, alloc, "slow")?;
    assert_eq!(rt; slow.status, Status::Done);
    assert!(rt; !slow.sink.kept().is_empty());
    assert!(rt; alone.sink.kept().starts_with(slow.sink.kept()));
    for words in WORDS {
        for _ in 0..3 {
            let ended = run_text(&rt, alloc, words)?;
            assert_eq!(rt; ended.status, Status::Done, "{words}");
            assert!(rt; ended.sink.kept() == alone.sink.kept(), "{words}");
        }
    }
    Ok(())
}
