//! Whole runs of the top call over streams in memory.

use po_run::{Status, po_serial};
use po_text::{MemSink, MemSource};
use std::alloc::Global;
use std::test::Fail;

/// How the streams behave: how many bytes a call moves, the calls of each that fail, and the sink's room.
#[derive(Clone, Copy, Debug)]
pub(crate) struct Streams {
    pub(crate) most: usize,
    pub(crate) read_fails: u64,
    pub(crate) write_fails: u64,
    pub(crate) room: usize,
}

pub(crate) const GOOD: Streams = Streams {
    most: 100,
    read_fails: 0,
    write_fails: 0,
    room: 1000,
};

/// What a run ended with, what its sink kept, and what was told.
#[derive(Drop)]
pub(crate) struct Ended {
    pub(crate) status: Status,
    pub(crate) sink: MemSink,
    pub(crate) notes: MemSink,
}

pub(crate) fn text_of(alloc: Global, parts: &[&str]) -> Result<Vec<u8>, Fail> {
    let mut text = Vec::new(alloc);
    for part in parts {
        text.extend_from_slice(part.as_bytes())?;
    }
    Ok(text)
}

pub(crate) fn run(
    alloc: Global,
    word: &str,
    text: Vec<u8>,
    streams: &Streams,
) -> Result<Ended, Fail> {
    let words = vec![in alloc; String::from_str(alloc, word)?]?;
    run_words(alloc, &words, text, streams)
}

pub(crate) fn run_words(
    alloc: Global,
    words: &[String],
    text: Vec<u8>,
    streams: &Streams,
) -> Result<Ended, Fail> {
    let most = streams.most.max(1);
    let mut source = MemSource::new(text, most, vec![in alloc; streams.read_fails]?);
    let mut sink = MemSink::new(
        alloc,
        most,
        vec![in alloc; streams.write_fails]?,
        streams.room,
    )?;
    let mut notes = MemSink::new(alloc, 100, Vec::new(alloc), 1000)?;
    let status = po_serial(alloc, words, &mut source, &mut sink, &mut notes);
    Ok(Ended {
        status,
        sink,
        notes,
    })
}

pub(crate) fn push_times(text: &mut Vec<u8>, part: &str, times: u32) -> Result<(), Fail> {
    for _ in 0..times {
        text.extend_from_slice(part.as_bytes())?;
    }
    Ok(())
}
