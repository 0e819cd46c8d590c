//! The top call on one thread: the words, what is done for what they ask for, and what is told of the end.
ghost use Rattle.std.specs.Prelude.{◌≡◌, ◌<◌, ◌-◌, ◌^◌};
ghost use Rattle.po_text.specs.Causes.{after_known};
ghost use Rattle.po_words.specs.Requests.{IsInBounds};
ghost use Rattle.po_compile.specs.Statuses.{OnDone, OnReadFault, OnBadText, OnUnrecognised, OnTooFew, OnWriteFault};
ghost use Rattle.po_compile.specs.Statuses.{WritesNothing, IsComplete};
ghost use Rattle.po_run.specs.Asked.{ForAsked, InMode, IsSerial, OnUsage};
ghost use Rattle.po_run.specs.Sampled.{OnSampled, IsSampledWhole};
ghost use Rattle.po_run.specs.Notes.{note_line};

use crate::notes::tell;
use crate::sampled::write_sampled;
use po_compile::{Alone, Status, run};
use po_text::{Sink, Source};
use po_words::{Request, request_of};
use std::alloc::Global;

/// What is done for a request on one thread.
pub(crate) fn serve<S: Source, K: Sink>(
    alloc: Global,
    request: Request,
    source: &mut S,
    sink: &mut K,
) -> Status
    requires bounds { IsInBounds request }
    ensures done { InMode request (λ mode. OnDone mode result (S.left source.old) (S.left source.new)
        (K.kept sink.old) (K.kept sink.new)) }
    ensures usage { result ≡ Status.Usage → IsSerial request → ⊥ }
    ensures told { (IsSerial request → ⊥) → result ≡ Status.Usage }
    ensures unread { result ≡ Status.Usage → S.left source.new ≡ S.left source.old }
    ensures read_fault { OnReadFault result (S.faults source.old) (S.faults source.new) }
    ensures bad_text { OnBadText result (S.left source.old) (S.left source.new) }
    ensures unrecognised { OnUnrecognised result (S.left source.old) (S.left source.new) }
    ensures too_few { InMode request (λ mode. OnTooFew mode result (S.left source.old) (S.left source.new)) }
    ensures write_fault { InMode request (λ mode. OnWriteFault mode result (S.left source.old)
        (S.left source.new) (K.faults sink.old) (K.faults sink.new) (K.kept sink.old) (K.kept sink.new)) }
    ensures sampled { OnSampled request result (S.left source.old) (S.left source.new) (K.faults sink.old)
        (K.faults sink.new) (K.kept sink.old) (K.kept sink.new) }
    ensures written { WritesNothing result (K.faults sink.old) (K.faults sink.new) (K.kept sink.old)
        (K.kept sink.new) }
    ensures complete { IsSerial request → InMode request (λ mode. IsComplete mode result (S.left source.old)
        (S.faults source.old) (S.faults source.new) (K.faults sink.old) (K.faults sink.new)) }
    ensures sampled_whole { IsSampledWhole request result (K.faults sink.old) (K.faults sink.new) }
{
    match request {
        Request::Naive => run(alloc, Alone::Naive, source, sink),
        Request::Slow => run(alloc, Alone::Slow, source, sink),
        Request::Opt { .. } => Status::Usage,
        Request::Gen { seed, units } => write_sampled(alloc, seed, units, sink),
    }
}

/// All but what is told on the notes.
fn answer<S: Source, K: Sink>(
    alloc: Global,
    words: &[String],
    source: &mut S,
    sink: &mut K,
) -> Status
    ensures done { ForAsked IsSerial words.now (λ r. InMode r (λ mode. OnDone mode result (S.left source.old)
        (S.left source.new) (K.kept sink.old) (K.kept sink.new))) }
    ensures usage { OnUsage IsSerial words.now result }
    ensures unread { result ≡ Status.Usage → S.left source.new ≡ S.left source.old }
    ensures read_fault { OnReadFault result (S.faults source.old) (S.faults source.new) }
    ensures bad_text { OnBadText result (S.left source.old) (S.left source.new) }
    ensures unrecognised { OnUnrecognised result (S.left source.old) (S.left source.new) }
    ensures too_few { ForAsked IsSerial words.now (λ r. InMode r (λ mode. OnTooFew mode result (S.left source.old)
        (S.left source.new))) }
    ensures write_fault { ForAsked IsSerial words.now (λ r. InMode r (λ mode. OnWriteFault mode result
        (S.left source.old) (S.left source.new) (K.faults sink.old) (K.faults sink.new) (K.kept sink.old)
        (K.kept sink.new))) }
    ensures sampled { ForAsked IsSerial words.now (λ r. OnSampled r result (S.left source.old) (S.left source.new)
        (K.faults sink.old) (K.faults sink.new) (K.kept sink.old) (K.kept sink.new)) }
    ensures written { WritesNothing result (K.faults sink.old) (K.faults sink.new) (K.kept sink.old)
        (K.kept sink.new) }
    ensures complete { ForAsked IsSerial words.now (λ r. InMode r (λ mode. IsComplete mode result
        (S.left source.old) (S.faults source.old) (S.faults source.new) (K.faults sink.old) (K.faults sink.new))) }
    ensures sampled_whole { ForAsked IsSerial words.now
        (λ r. IsSampledWhole r result (K.faults sink.old) (K.faults sink.new)) }
{
    match request_of(alloc, words) {
        Ok(Some(request)) => serve(alloc, request, source, sink),
        Ok(None) => Status::Usage,
        Err(_) => Status::OutOfMemory,
    }
}

/// Does all that the program does but the mode `opt`, by its words without its name, over the three streams that it is
/// given. For the words of `opt` it answers `Usage`.
///
/// It waits for nobody and returns. docs/PROGRAM.md states the words, the input, the statuses and the limits.
pub fn po_serial<S: Source, K: Sink, N: Sink>(
    alloc: Global,
    words: &[String],
    source: &mut S,
    sink: &mut K,
    notes: &mut N,
) -> Status
    // The source was read to its end, and what the sink keeps grew by exactly the output in the mode of the words,
    // which runs as the naive code of each unit does.
    ensures done { ForAsked IsSerial words.now (λ r. InMode r (λ mode. OnDone mode result (S.left source.old)
        (S.left source.new) (K.kept sink.old) (K.kept sink.new))) }

    // Exactly where the words ask for nothing, or for `opt`; then nothing is read.
    ensures usage { OnUsage IsSerial words.now result }
    ensures unread { result ≡ Status.Usage → S.left source.new ≡ S.left source.old }

    // Exactly where the source's faults rose.
    ensures read_fault { OnReadFault result (S.faults source.old) (S.faults source.new) }

    // The text is outside the grammar, or longer than the limit.
    ensures bad_text { OnBadText result (S.left source.old) (S.left source.new) }

    // In both modes the first instruction of the naive code that no entry fits.
    ensures unrecognised { OnUnrecognised result (S.left source.old) (S.left source.new) }

    // Every naive instruction is recognised, and this is the first crowded point of the code that the mode makes.
    ensures too_few { ForAsked IsSerial words.now (λ r. InMode r (λ mode. OnTooFew mode result (S.left source.old)
        (S.left source.new))) }

    // Exactly where the sink's faults rose; what it keeps grew by the first `written` bytes of the output.
    ensures write_fault { ForAsked IsSerial words.now (λ r. InMode r (λ mode. OnWriteFault mode result
        (S.left source.old) (S.left source.new) (K.faults sink.old) (K.faults sink.new) (K.kept sink.old)
        (K.kept sink.new))) }

    // In `gen` nothing is read, and what the sink keeps grew by exactly the line on the made units, or by the first
    // bytes of it where the sink failed.
    ensures sampled { ForAsked IsSerial words.now (λ r. OnSampled r result (S.left source.old) (S.left source.new)
        (K.faults sink.old) (K.faults sink.new) (K.kept sink.old) (K.kept sink.new)) }

    // After every answer but Done and WriteFault the sink has what it had.
    ensures written { WritesNothing result (K.faults sink.old) (K.faults sink.new) (K.kept sink.old)
        (K.kept sink.new) }

    // Where the grammar holds, each naive instruction is recognised, no point of the code that the mode makes is
    // crowded and no fault rose: Done, or memory was refused. In `gen`, where the sink didn't fail.
    ensures complete { ForAsked IsSerial words.now (λ r. InMode r (λ mode. IsComplete mode result
        (S.left source.old) (S.faults source.old) (S.faults source.new) (K.faults sink.old) (K.faults sink.new))) }
    ensures sampled_whole { ForAsked IsSerial words.now
        (λ r. IsSampledWhole r result (K.faults sink.old) (K.faults sink.new)) }

    // Where the notes don't fail, they grow by exactly the line of the status.
    ensures notes { N.faults notes.new ≡ N.faults notes.old → N.faults notes.old < 2 ^ 64 - 1
        → N.kept notes.new ≡ after_known (N.kept notes.old) (note_line result) }
{
    let status = answer(alloc, words, source, sink);
    tell(notes, status, None);
    status
}
