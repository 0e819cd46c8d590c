//! The mode `opt`: its codes are made by threads.
//!
//! As in the modes on one thread nothing is written before the whole output is made.
ghost use Rattle.std.specs.Prelude.{◌≡◌, ◌<◌, ◌≤◌, length, None, IfOk};
ghost use Rattle.po_compile.specs.declared.mode.Mode.TheVariants.{Opt};
ghost use Rattle.po_compile.specs.Statuses.{Compiles, OnDone, OnReadFault, OnBadText, OnUnrecognised, OnTooFew};
ghost use Rattle.po_compile.specs.Statuses.{OnWriteFault, WritesNothing, IsComplete};
ghost use Rattle.po_run.specs.Stats.{AreCountsIn, OnCounts};

use po_compile::{Begun, Compiled, LIMIT, Made, Refusal, Status, begin, finish, status_of};
use po_opt::{Counts, Opted, opt_all};
use po_pool::Gate;
use po_text::{Kind, ReadRefusal, Sink, Source, read_all, write_all};
use std::alloc::Global;
use std::sync::Wait;
use std::thread::Threads;

/// How many threads compile, and how many learn.
#[derive(Clone, Copy, Drop)]
pub struct Crew {
    /// 1 to 16.
    pub workers: u8,
    /// 0 to 8.
    pub learners: u8,
}

impl Crew {
    /// A crew of so many.
    pub fn new(workers: u32, learners: u32) -> Crew
        requires workers { workers ≤ 16 }
        requires learners { learners ≤ 8 }
        ensures workers { result.workers ≡ workers }
        ensures learners { result.learners ≡ learners }
    {
        Crew {
            workers: workers as u8,
            learners: learners as u8,
        }
    }
}

/// How a run ended, and at `Done` its counts.
#[derive(Drop)]
pub struct Ran {
    pub status: Status,
    pub counts: Option<Counts>,
}

/// The end of a run that isn't done.
fn ended(status: Status) -> Ran
    ensures status { result.status ≡ status }
    ensures counts { result.counts ≡ None }
{
    Ran {
        status,
        counts: None,
    }
}

/// The output for a text, made by a crew.
fn compile<R: Threads + Wait + Sync, G: Gate + Sync>(
    rt: &R,
    alloc: Global,
    gate: &G,
    crew: Crew,
    text: &[u8],
) -> Result<Compiled<Counts>, Refusal>
    requires workers { (0 < crew.workers) × (crew.workers ≤ 16) }
    requires learners { crew.learners ≤ 8 }
    ensures compiles { Compiles Opt text.now result }
    ensures told { IfOk result (λ c. AreCountsIn crew.learners text.now c.told) }
{
    let Begun {
        machine,
        index,
        codes,
    } = match begin(alloc, text) {
        Ok(begun) => begun,
        Err(refusal) => return Err(refusal),
    };
    let opted = opt_all(
        rt,
        alloc,
        gate,
        &machine,
        &codes,
        crew.workers,
        crew.learners,
    )?;
    let Opted {
        codes,
        rules,
        counts,
    } = opted;
    let made = Made {
        codes,
        rules,
        told: counts,
    };
    finish(alloc, &machine, &index, made)
}

/// Reads a text from the source to its end, compiles it by a crew and writes the output to the sink; then the status
/// is `Done`, with the counts of the run.
pub fn run_by<R: Threads + Wait + Sync, S: Source, K: Sink, G: Gate + Sync>(
    rt: &R,
    alloc: Global,
    gate: &G,
    crew: Crew,
    source: &mut S,
    sink: &mut K,
) -> Ran
    requires workers { (0 < crew.workers) × (crew.workers ≤ 16) }
    requires learners { crew.learners ≤ 8 }
    ensures done { OnDone Opt result.status (S.left source.old) (S.left source.new) (K.kept sink.old)
        (K.kept sink.new) }
    ensures counts { OnCounts crew.learners result.status result.counts (S.left source.old) (S.left source.new) }
    ensures used { result.status ≡ Status.Usage → ⊥ }
    ensures read_fault { OnReadFault result.status (S.faults source.old) (S.faults source.new) }
    ensures bad_text { OnBadText result.status (S.left source.old) (S.left source.new) }
    ensures unrecognised { OnUnrecognised result.status (S.left source.old) (S.left source.new) }
    ensures too_few { OnTooFew Opt result.status (S.left source.old) (S.left source.new) }
    ensures write_fault { OnWriteFault Opt result.status (S.left source.old) (S.left source.new)
        (K.faults sink.old) (K.faults sink.new) (K.kept sink.old) (K.kept sink.new) }
    ensures written { WritesNothing result.status (K.faults sink.old) (K.faults sink.new) (K.kept sink.old)
        (K.kept sink.new) }
    ensures complete { IsComplete Opt result.status (S.left source.old) (S.faults source.old) (S.faults source.new)
        (K.faults sink.old) (K.faults sink.new) }
{
    let text = match read_all(alloc, source, LIMIT) {
        Ok(text) => text,
        Err(ReadRefusal::ReadFault) => return ended(Status::ReadFault),
        Err(ReadRefusal::TooLong { line, col }) => {
            return ended(Status::BadText {
                line,
                col,
                kind: Kind::TooMany,
            });
        }
        Err(ReadRefusal::OutOfMemory) => return ended(Status::OutOfMemory),
    };
    let compiled = match compile(rt, alloc, gate, crew, &text) {
        Ok(compiled) => compiled,
        Err(refusal) => return ended(status_of(refusal)),
    };
    match write_all(sink, &compiled.out) {
        Ok(()) => Ran {
            status: Status::Done,
            counts: Some(compiled.told),
        },
        Err(fault) => ended(Status::WriteFault {
            written: fault.written,
        }),
    }
}
