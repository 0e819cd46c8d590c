//! The top call: all that the program does.
ghost use Rattle.std.specs.Prelude.{if◌then◌else◌, None, ℕ, ◌≡◌, ◌≤◌, ◌<◌, ◌-◌, ◌^◌, ◌++◌, List};
ghost use Rattle.po_text.specs.Causes.{after_known};
ghost use Rattle.po_words.specs.Requests.{IsInBounds};
ghost use Rattle.po_compile.specs.declared.mode.Mode.TheVariants.{Opt};
ghost use Rattle.po_compile.specs.Statuses.{OnDone, OnReadFault, OnBadText, OnUnrecognised, OnTooFew, OnWriteFault};
ghost use Rattle.po_compile.specs.Statuses.{WritesNothing, IsComplete};
ghost use Rattle.po_run.specs.Asked.{ForAsked, InMode, IsAny, OnUsage};
ghost use Rattle.po_run.specs.Notes.{note_line};
ghost use Rattle.po_run.specs.Sampled.{OnSampled, IsSampledWhole};
ghost use Rattle.po_run.specs.Stats.{AreStats, AreStatsOf, stats_text};

use crate::notes::tell;
use crate::sampled::write_sampled;
use crate::threads::{Crew, Ran, run_by};
use po_compile::{Alone, Status, run};
use po_opt::Counts;
use po_pool::Gate;
use po_text::{Sink, Source};
use po_words::{Request, request_of};
use std::alloc::Global;
use std::sync::Wait;
use std::thread::Threads;

/// What was done for a request, and the counts that it asks for.
#[derive(Drop)]
struct Served {
    status: Status,
    stats: Option<Counts>,
}

/// The end of the mode `opt`: its counts are told where they are asked for.
fn with_counts(ran: Ran, stats: bool) -> Served
    ensures status { result.status ≡ ran.status }
    ensures stats { result.stats ≡ (if stats then ran.counts else None) }
{
    let Ran { status, counts } = ran;
    Served {
        status,
        stats: if stats { counts } else { None },
    }
}

/// The end of what has no counts.
fn without_counts(status: Status) -> Served
    ensures status { result.status ≡ status }
    ensures stats { result.stats ≡ None }
{
    Served {
        status,
        stats: None,
    }
}

/// What is done in the mode `opt`.
fn serve_opt<R: Threads + Wait + Sync, S: Source, K: Sink, G: Gate + Sync>(
    rt: &R,
    alloc: Global,
    gate: &G,
    workers: u32,
    learners: u32,
    stats: bool,
    source: &mut S,
    sink: &mut K,
) -> Served
    requires workers { (0 < workers) × (workers ≤ 16) }
    requires learners { learners ≤ 8 }
    ensures done { OnDone Opt result.status (S.left source.old) (S.left source.new) (K.kept sink.old)
        (K.kept sink.new) }
    ensures used { result.status ≡ Status.Usage → ⊥ }
    ensures read_fault { OnReadFault result.status (S.faults source.old) (S.faults source.new) }
    ensures bad_text { OnBadText result.status (S.left source.old) (S.left source.new) }
    ensures unrecognised { OnUnrecognised result.status (S.left source.old) (S.left source.new) }
    ensures too_few { OnTooFew Opt result.status (S.left source.old) (S.left source.new) }
    ensures write_fault { OnWriteFault Opt result.status (S.left source.old) (S.left source.new)
        (K.faults sink.old) (K.faults sink.new) (K.kept sink.old) (K.kept sink.new) }
    ensures written { WritesNothing result.status (K.faults sink.old) (K.faults sink.new) (K.kept sink.old)
        (K.kept sink.new) }
    ensures complete { IsComplete Opt result.status (S.left source.old) (S.faults source.old) (S.faults source.new)
        (K.faults sink.old) (K.faults sink.new) }
    ensures stats { AreStatsOf (Request.Opt workers learners stats) result.status (S.left source.old)
        (S.left source.new) (stats_text result.stats) }
{
    let ran = run_by(rt, alloc, gate, Crew::new(workers, learners), source, sink);
    with_counts(ran, stats)
}

/// What is done for a request.
fn serve_any<R: Threads + Wait + Sync, S: Source, K: Sink, G: Gate + Sync>(
    rt: &R,
    alloc: Global,
    request: Request,
    source: &mut S,
    sink: &mut K,
    gate: &G,
) -> Served
    requires bounds { IsInBounds request }
    ensures done { InMode request (λ mode. OnDone mode result.status (S.left source.old) (S.left source.new)
        (K.kept sink.old) (K.kept sink.new)) }
    ensures used { result.status ≡ Status.Usage → ⊥ }
    ensures read_fault { OnReadFault result.status (S.faults source.old) (S.faults source.new) }
    ensures bad_text { OnBadText result.status (S.left source.old) (S.left source.new) }
    ensures unrecognised { OnUnrecognised result.status (S.left source.old) (S.left source.new) }
    ensures too_few { InMode request
        (λ mode. OnTooFew mode result.status (S.left source.old) (S.left source.new)) }
    ensures write_fault { InMode request (λ mode. OnWriteFault mode result.status (S.left source.old)
        (S.left source.new) (K.faults sink.old) (K.faults sink.new) (K.kept sink.old) (K.kept sink.new)) }
    ensures sampled { OnSampled request result.status (S.left source.old) (S.left source.new) (K.faults sink.old)
        (K.faults sink.new) (K.kept sink.old) (K.kept sink.new) }
    ensures written { WritesNothing result.status (K.faults sink.old) (K.faults sink.new) (K.kept sink.old)
        (K.kept sink.new) }
    ensures complete { InMode request (λ mode. IsComplete mode result.status (S.left source.old)
        (S.faults source.old) (S.faults source.new) (K.faults sink.old) (K.faults sink.new)) }
    ensures sampled_whole { IsSampledWhole request result.status (K.faults sink.old) (K.faults sink.new) }
    ensures stats { AreStatsOf request result.status (S.left source.old) (S.left source.new)
        (stats_text result.stats) }
{
    let status = match request {
        Request::Opt {
            workers,
            learners,
            stats,
        } => return serve_opt(rt, alloc, gate, workers, learners, stats, source, sink),
        Request::Naive => run(alloc, Alone::Naive, source, sink),
        Request::Slow => run(alloc, Alone::Slow, source, sink),
        Request::Gen { seed, units } => write_sampled(alloc, seed, units, sink),
    };
    without_counts(status)
}

/// All but what is told on the notes.
fn answer<R: Threads + Wait + Sync, S: Source, K: Sink, G: Gate + Sync>(
    rt: &R,
    alloc: Global,
    words: &[String],
    source: &mut S,
    sink: &mut K,
    gate: &G,
) -> Served
    ensures done { ForAsked IsAny words.now (λ r. InMode r (λ mode. OnDone mode result.status (S.left source.old)
        (S.left source.new) (K.kept sink.old) (K.kept sink.new))) }
    ensures usage { OnUsage IsAny words.now result.status }
    ensures unread { result.status ≡ Status.Usage → S.left source.new ≡ S.left source.old }
    ensures read_fault { OnReadFault result.status (S.faults source.old) (S.faults source.new) }
    ensures bad_text { OnBadText result.status (S.left source.old) (S.left source.new) }
    ensures unrecognised { OnUnrecognised result.status (S.left source.old) (S.left source.new) }
    ensures too_few { ForAsked IsAny words.now (λ r. InMode r (λ mode. OnTooFew mode result.status
        (S.left source.old) (S.left source.new))) }
    ensures write_fault { ForAsked IsAny words.now (λ r. InMode r (λ mode. OnWriteFault mode result.status
        (S.left source.old) (S.left source.new) (K.faults sink.old) (K.faults sink.new) (K.kept sink.old)
        (K.kept sink.new))) }
    ensures sampled { ForAsked IsAny words.now (λ r. OnSampled r result.status (S.left source.old)
        (S.left source.new) (K.faults sink.old) (K.faults sink.new) (K.kept sink.old) (K.kept sink.new)) }
    ensures written { WritesNothing result.status (K.faults sink.old) (K.faults sink.new) (K.kept sink.old)
        (K.kept sink.new) }
    ensures complete { ForAsked IsAny words.now (λ r. InMode r (λ mode. IsComplete mode result.status
        (S.left source.old) (S.faults source.old) (S.faults source.new) (K.faults sink.old) (K.faults sink.new))) }
    ensures sampled_whole { ForAsked IsAny words.now
        (λ r. IsSampledWhole r result.status (K.faults sink.old) (K.faults sink.new)) }
    ensures stats { AreStats words.now result.status (S.left source.old) (S.left source.new)
        (stats_text result.stats) }
{
    let status = match request_of(alloc, words) {
        Ok(Some(request)) => return serve_any(rt, alloc, request, source, sink, gate),
        Ok(None) => Status::Usage,
        Err(_) => Status::OutOfMemory,
    };
    Served {
        status,
        stats: None,
    }
}

/// Does all that the program does, by its words without its name, over the three streams that it is given.
///
/// In the mode `opt` it starts workers and learners, which tell the gate where they are, and waits for them. In every
/// other mode it does what `po_serial` does. docs/PROGRAM.md states the words, the input, the statuses and the limits.
pub fn po_run<R: Threads + Wait + Sync, S: Source, K: Sink, N: Sink, G: Gate + Sync>(
    rt: &R,
    alloc: Global,
    words: &[String],
    source: &mut S,
    sink: &mut K,
    notes: &mut N,
    gate: &G,
) -> Status
    // The source was read to its end, and what the sink keeps grew by exactly the output in the mode of the words,
    // which runs as the naive code of each unit does. In `opt` it has no word of threads, rules that were known, or
    // what came first: it is what slow combination writes, and then the rules of the pairs that were tried.
    ensures done { ForAsked IsAny words.now (λ r. InMode r (λ mode. OnDone mode result (S.left source.old)
        (S.left source.new) (K.kept sink.old) (K.kept sink.new))) }

    // Exactly where the words ask for nothing; then nothing is read.
    ensures usage { OnUsage IsAny words.now result }
    ensures unread { result ≡ Status.Usage → S.left source.new ≡ S.left source.old }

    // Exactly where the source's faults rose.
    ensures read_fault { OnReadFault result (S.faults source.old) (S.faults source.new) }

    // The text is outside the grammar, or longer than the limit.
    ensures bad_text { OnBadText result (S.left source.old) (S.left source.new) }

    // In every mode the first instruction of the naive code that no entry fits.
    ensures unrecognised { OnUnrecognised result (S.left source.old) (S.left source.new) }

    // Every naive instruction is recognised, and this is the first crowded point of the code that the mode makes.
    ensures too_few { ForAsked IsAny words.now (λ r. InMode r (λ mode. OnTooFew mode result (S.left source.old)
        (S.left source.new))) }

    // Exactly where the sink's faults rose; what it keeps grew by the first `written` bytes of the output.
    ensures write_fault { ForAsked IsAny words.now (λ r. InMode r (λ mode. OnWriteFault mode result
        (S.left source.old) (S.left source.new) (K.faults sink.old) (K.faults sink.new) (K.kept sink.old)
        (K.kept sink.new))) }

    // In `gen` nothing is read, and what the sink keeps grew by exactly the line on the made units, or by the first
    // bytes of it where the sink failed.
    ensures sampled { ForAsked IsAny words.now (λ r. OnSampled r result (S.left source.old) (S.left source.new)
        (K.faults sink.old) (K.faults sink.new) (K.kept sink.old) (K.kept sink.new)) }

    // After every answer but Done and WriteFault the sink has what it had.
    ensures written { WritesNothing result (K.faults sink.old) (K.faults sink.new) (K.kept sink.old)
        (K.kept sink.new) }

    // Where the grammar holds, each naive instruction is recognised, no point of the code that the mode makes is
    // crowded and no fault rose: Done, or memory was refused. In `gen`, where the sink didn't fail.
    ensures complete { ForAsked IsAny words.now (λ r. InMode r (λ mode. IsComplete mode result
        (S.left source.old) (S.faults source.old) (S.faults source.new) (K.faults sink.old) (K.faults sink.new))) }
    ensures sampled_whole { ForAsked IsAny words.now
        (λ r. IsSampledWhole r result (K.faults sink.old) (K.faults sink.new)) }

    // Where the notes don't fail, they grow by exactly the line of the status, and at the end of `opt` with `--stats`
    // by the line of its counts.
    ensures notes { N.faults notes.new ≡ N.faults notes.old → N.faults notes.old < 2 ^ 64 - 1
        → (stats : List ℕ) × AreStats words.now result (S.left source.old) (S.left source.new) stats
        × (N.kept notes.new ≡ after_known (N.kept notes.old) (note_line result ++ stats)) }
{
    let served = answer(rt, alloc, words, source, sink, gate);
    tell(notes, served.status, served.stats);
    served.status
}
