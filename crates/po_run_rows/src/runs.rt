//! Whole runs of the top call over streams in memory, and the texts that they share.

use po_mdread::TINY;
use po_pool::Gate;
use po_run::{Status, po_run};
use po_text::{MemSink, MemSource};
use std::alloc::{AllocError, Global};
use std::sync::Wait;
use std::test::Fail;
use std::thread::Threads;

/// The operations of a unit that loads, adds and stores back, without its first line.
pub(crate) const STORE_BACK: &str = "adl 4\nadl 4\nlod\ncon 1\nadd\nsto\ncon 0\nret\nend\n";

/// Its assembly without its name.
pub(crate) const STORE_BACK_ASSEMBLY: &str =
    ":\n  lea r0,4\n  ld r1,4(fp)\n  addi r1,r1,1\n  st r1,(r0)\n  li rv,0\n  ret\n";

/// The rules of its pairs: eleven are tried in its first pass, and five in its second.
pub(crate) const RULES: &str = "\
rules 11\n\
%0 := #0 | %1 := (%2 + %0) live %1 ask zero(#0) no, in(#0,-128,127) yes => %1 := (%2 + #0)\n\
%0 := #0 | rv := %0 live rv ask - => rv := #0\n\
%0 := (%1 + #0) | M[%2] := %0 live - ask zero(#0) no => keep\n\
%0 := (fp + #0) | %1 := (fp + #1) live %0 %1 ask zero(#0) no, zero(#1) no => keep\n\
%0 := (fp + #0) | %1 := M[%0] live %1 ask zero(#0) no, in(#0,-128,127) yes => %1 := M[(fp + #0)]\n\
%0 := (fp + #0) | %1 := M[(fp + #1)] live %0 %1 ask zero(#0) no, zero(#1) no => keep\n\
%0 := M[(fp + #0)] | %1 := #1 live %0 %1 ask zero(#0) no => keep\n\
%0 := M[(fp + #0)] | %1 := (%0 + #1) live %1 ask zero(#0) no, zero(#1) no => keep\n\
M[%0] := %1 | %2 := #0 live %2 ask - => keep\n\
M[%0] := %1 | rv := #0 live rv ask - => keep\n\
rv := #0 | ret live - ask - => keep\n";

/// The calls of the source and of the sink that fail, and the sink's room.
#[derive(Clone, Copy, Debug)]
pub(crate) struct Streams {
    pub(crate) read_fails: u64,
    pub(crate) write_fails: u64,
    pub(crate) room: usize,
}

pub(crate) const GOOD: Streams = Streams {
    read_fails: 0,
    write_fails: 0,
    room: 1_000_000,
};

/// How a run ended, what its sink kept, and what was told.
#[derive(Drop)]
pub(crate) struct Ended {
    pub(crate) status: Status,
    pub(crate) sink: MemSink,
    pub(crate) notes: MemSink,
}

/// The words between the blanks of a text.
pub(crate) fn words_of(alloc: Global, text: &str) -> Result<Vec<String>, AllocError> {
    let mut words = Vec::new(alloc);
    for word in text.split(' ') {
        if !word.is_empty() {
            words.push(String::from_str(alloc, word)?)?;
        }
    }
    Ok(words)
}

/// The description `tiny`, and units.
pub(crate) fn on_tiny(alloc: Global, units: &str) -> Result<Vec<u8>, Fail> {
    let mut text = Vec::from_slice(alloc, TINY.as_bytes())?;
    text.extend_from_slice(units.as_bytes())?;
    Ok(text)
}

/// So many units that load, add and store back, named f0, f1 and so on.
pub(crate) fn units_of(alloc: Global, count: u32) -> Result<String, Fail> {
    let mut text = String::new(alloc);
    for k in 0..count {
        let unit = format!(in alloc; "unit f{k}\n{STORE_BACK}")?;
        text.push_str(&unit)?;
    }
    Ok(text)
}

/// Their assembly, and the rules of their pairs.
pub(crate) fn output_of(alloc: Global, count: u32) -> Result<String, Fail> {
    let mut text = String::new(alloc);
    for k in 0..count {
        let unit = format!(in alloc; "f{k}{STORE_BACK_ASSEMBLY}")?;
        text.push_str(&unit)?;
    }
    text.push_str(RULES)?;
    Ok(text)
}

/// A run by the words between the blanks of a text; the streams move 100 bytes a call.
pub(crate) fn run<R: Threads + Wait + Sync, G: Gate + Sync>(
    rt: &R,
    alloc: Global,
    words: &str,
    text: Vec<u8>,
    streams: &Streams,
    gate: &G,
) -> Result<Ended, Fail> {
    let words = words_of(alloc, words)?;
    let mut source = MemSource::new(text, 100, vec![in alloc; streams.read_fails]?);
    let mut sink = MemSink::new(
        alloc,
        100,
        vec![in alloc; streams.write_fails]?,
        streams.room,
    )?;
    let mut notes = MemSink::new(alloc, 100, Vec::new(alloc), 1000)?;
    let status = po_run(rt, alloc, &words, &mut source, &mut sink, &mut notes, gate);
    Ok(Ended {
        status,
        sink,
        notes,
    })
}

/// The counts on the notes.
#[derive(Clone, Copy, Debug)]
pub(crate) struct Stats {
    pub(crate) pairs: u64,
    pub(crate) hits: u64,
    pub(crate) misses: u64,
    pub(crate) posted: u64,
    pub(crate) full: u64,
    pub(crate) learned: u64,
    pub(crate) rules: u64,
}

/// The numbers of a text, in order.
fn numbers_of(alloc: Global, text: &[u8]) -> Result<Vec<u64>, AllocError> {
    let mut numbers = Vec::new(alloc);
    let mut number: Option<u64> = None;
    for byte in text {
        if byte.is_ascii_digit() {
            let digit = u64::from(byte.wrapping_sub(b'0'));
            number = Some(number.unwrap_or(0).wrapping_mul(10).wrapping_add(digit));
        } else if let Some(n) = number.take() {
            numbers.push(n)?;
        }
    }
    Ok(numbers)
}

/// The counts of the notes, where these are the line of the counts and nothing else.
pub(crate) fn stats_of(alloc: Global, notes: &[u8]) -> Result<Option<Stats>, Fail> {
    let numbers = numbers_of(alloc, notes)?;
    let [pairs, hits, misses, posted, full, learned, rules] = numbers.as_slice() else {
        return Ok(None);
    };
    let line = format!(in alloc;
        "pairs {pairs} hits {hits} misses {misses} posted {posted} full {full} learned {learned} rules {rules}\n"
    )?;
    if line.as_bytes() != notes {
        return Ok(None);
    }
    Ok(Some(Stats {
        pairs: *pairs,
        hits: *hits,
        misses: *misses,
        posted: *posted,
        full: *full,
        learned: *learned,
        rules: *rules,
    }))
}
