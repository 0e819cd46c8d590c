//! The mode `gen`: a line on made units.
ghost use Rattle.std.specs.Prelude.{◌≡◌, ◌≤◌, IfOk};
ghost use Rattle.po_compile.specs.Statuses.{WritesNothing};
ghost use Rattle.po_run.specs.Sampled.{Ends, IsLineOf, IsLineOn};

use po_compile::Status;
use po_gen::summary;
use po_mdread::{TINY, read_machine};
use po_text::{Sink, write_all};
use po_word::OutOfMemory;
use std::alloc::Global;
use std::sync::Arc;

/// The line on so many sample units of a seed, on the machine that a text begins with.
fn line_on(alloc: Global, text: &[u8], seed: u32, units: u32) -> Result<Vec<u8>, OutOfMemory>
    requires { units ≤ 10000 }
    ensures { IfOk result (λ line. IsLineOn text.now seed units line.items) }
{
    let Ok((machine, _)) = read_machine(alloc, text) else {
        return Err(OutOfMemory);
    };
    summary(alloc, Arc::new(alloc, machine)?, seed, units)
}

/// The line on so many sample units of a seed, on the machine `tiny`. That its description has no fault is shown by
/// tests; if it had one, the answer would be that memory was refused.
fn line_of(alloc: Global, seed: u32, units: u32) -> Result<Vec<u8>, OutOfMemory>
    requires { units ≤ 10000 }
    ensures { IfOk result (λ line. IsLineOf seed units line.items) }
{
    line_on(alloc, TINY.as_bytes(), seed, units)
}

/// Writes the line on so many sample units of a seed.
pub fn write_sampled<K: Sink>(alloc: Global, seed: u32, units: u32, sink: &mut K) -> Status
    requires { units ≤ 10000 }
    ensures ends { Ends seed units result (K.faults sink.old) (K.faults sink.new) (K.kept sink.old)
        (K.kept sink.new) }
    ensures written { WritesNothing result (K.faults sink.old) (K.faults sink.new) (K.kept sink.old)
        (K.kept sink.new) }
{
    let Ok(line) = line_of(alloc, seed, units) else {
        return Status::OutOfMemory;
    };
    match write_all(sink, &line) {
        Ok(()) => Status::Done,
        Err(fault) => Status::WriteFault {
            written: fault.written,
        },
    }
}
