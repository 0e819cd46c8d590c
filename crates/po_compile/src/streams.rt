//! From a source to a sink: reading, compiling, writing, in this order.
//!
//! Nothing is written before the whole output is made, so every refusal but a write fault leaves the sink as it was.
ghost use Rattle.std.specs.Prelude.{◌≡◌};
ghost use Rattle.po_compile.specs.declared.status.Status.TheVariants.{Usage};
ghost use Rattle.po_compile.specs.Modes.{mode_alone};
ghost use Rattle.po_compile.specs.Statuses.{OnDone, OnReadFault, OnBadText, OnUnrecognised, OnTooFew};
ghost use Rattle.po_compile.specs.Statuses.{OnWriteFault, WritesNothing, IsComplete, status_for};

use crate::Status;
use crate::compile::compile;
use crate::mode::Alone;
use crate::refusal::Refusal;
use po_lines::LIMIT;
use po_text::{Kind, ReadRefusal, Sink, Source, read_all, write_all};
use std::alloc::Global;

/// The status of a refusal (docs/PROGRAM.md, "Statuses").
pub fn status_of(refusal: Refusal) -> Status
    ensures { result ≡ status_for refusal }
{
    match refusal {
        Refusal::BadText { line, col, kind } => Status::BadText { line, col, kind },
        Refusal::Unrecognised { unit, block, index } => Status::Unrecognised { unit, block, index },
        Refusal::TooFew {
            unit,
            point,
            needed,
        } => Status::TooFew {
            unit,
            point,
            needed,
        },
        Refusal::OutOfMemory => Status::OutOfMemory,
    }
}

/// Reads a text from the source to its end, compiles it in a mode that learns no rule and writes the output to the
/// sink; then the status is `Done` (docs/PROGRAM.md, "Modes" and "Statuses"). It waits for nobody.
pub fn run<S: Source, K: Sink>(alloc: Global, alone: Alone, source: &mut S, sink: &mut K) -> Status
    // The source was read to its end, and what the sink keeps grew by exactly the output in the mode, which
    // runs as the naive code of each unit does.
    ensures done { OnDone (mode_alone alone) result (S.left source.old) (S.left source.new)
        (K.kept sink.old) (K.kept sink.new) }

    // No words are read here.
    ensures used { result ≡ Usage → ⊥ }

    // Exactly where the source's faults rose.
    ensures read_fault { OnReadFault result (S.faults source.old) (S.faults source.new) }

    // The text is outside the grammar, or longer than the limit.
    ensures bad_text { OnBadText result (S.left source.old) (S.left source.new) }

    // In every mode the first instruction of the naive code that no entry fits.
    ensures unrecognised { OnUnrecognised result (S.left source.old) (S.left source.new) }

    // Every naive instruction is recognised, and this is the first crowded point of the code that the mode makes.
    ensures too_few { OnTooFew (mode_alone alone) result (S.left source.old) (S.left source.new) }

    // Exactly where the sink's faults rose; what it keeps grew by the first `written` bytes of the output.
    ensures write_fault { OnWriteFault (mode_alone alone) result (S.left source.old) (S.left source.new)
        (K.faults sink.old) (K.faults sink.new) (K.kept sink.old) (K.kept sink.new) }

    // After every answer but Done and WriteFault the sink has what it had.
    ensures written { WritesNothing result (K.faults sink.old) (K.faults sink.new) (K.kept sink.old)
        (K.kept sink.new) }

    // Where the grammar holds, each naive instruction is recognised, no point of the code that the mode makes is
    // crowded and no fault rose: Done, or memory was refused.
    ensures complete { IsComplete (mode_alone alone) result (S.left source.old)
        (S.faults source.old) (S.faults source.new) (K.faults sink.old) (K.faults sink.new) }
{
    let text = match read_all(alloc, source, LIMIT) {
        Ok(text) => text,
        Err(ReadRefusal::ReadFault) => return Status::ReadFault,
        Err(ReadRefusal::TooLong { line, col }) => {
            return Status::BadText {
                line,
                col,
                kind: Kind::TooMany,
            };
        }
        Err(ReadRefusal::OutOfMemory) => return Status::OutOfMemory,
    };
    let compiled = match compile(alloc, alone, &text) {
        Ok(compiled) => compiled,
        Err(refusal) => return status_of(refusal),
    };
    match write_all(sink, &compiled.out) {
        Ok(()) => Status::Done,
        Err(fault) => Status::WriteFault {
            written: fault.written,
        },
    }
}
