//! Where bytes come from. A source says by `left` which bytes are still to come, where it tells, and by `faults` how
//! often it has failed. No call changes whether `left` is told, and the count rises at a fault and at nothing else. By
//! `calls` it says how often it was called.

ghost use Rattle.std.specs.Prelude.{◌≡◌, ℕ, ◌+◌, ◌-◌, ◌<◌, ◌≤◌, ◌^◌, [], List, Option, length, take, IfOk, IfErr};
ghost use Rattle.std.specs.Prelude.{IfSome};
ghost use Rattle.po_text.specs.Causes.{Counts, before_known};
ghost use Rattle.po_text.specs.Source.{Reads, GotCause, ReadCause, OnBreakOff, OnTooLong};
ghost use Rattle.po_text.specs.Place as place;

use crate::ReadRefusal;
use std::alloc::Global;

/// What a read gave.
#[derive(Clone, Copy, Debug, PartialEq, Eq)]
pub enum Got {
    /// So many bytes, from 1 to the buffer's length.
    Count(usize),
    /// No byte is left.
    End,
    /// The source failed, and gave nothing.
    Failed,
}

/// Where bytes come from.
pub trait Source {
    /// The bytes still to come, where they are told.
    ghost left: { Self → Option (List ℕ) };

    /// How often the source has failed. The count never falls.
    ghost faults: { Self → ℕ };

    /// How often the source was called. The count rises by one at each call, or stands at 2^64-1.
    ghost calls: { Self → ℕ };

    /// Hands over the next bytes, into a buffer that isn't empty. `Count(n)`: the first n bytes of the buffer are the
    /// next n of `left`, which then is the rest. `End`: `left` is empty, where it is told. `Failed`: `faults` rose, or
    /// stands at 2^64-1, and `left` is as before. `Count` and `End` leave `faults` as it was.
    fn read(&mut self, buf: &mut [u8]) -> Got
        requires { 0 < length buf.old }
        ensures bytes { Reads (left self.old) (left self.new) result buf.new }
        ensures cause { GotCause (faults self.old) (faults self.new) result }
        ensures counted { Counts (calls self.old) (calls self.new) };
}

#[tactic(auto, using(crate::proofs::Known::before_two))]
/// All bytes up to the end, of which there may be `limit`, a number below 2^32 - 1. `ReadFault` comes exactly where
/// the source's faults rose, and `TooLong` exactly where more than `limit` bytes came, with the line and the column,
/// both counted from 1, of the first byte past them; a line ends at its line feed. There are at most `limit` + 1 calls
/// of the source, since each but the last takes a byte.
pub fn read_all<S: Source>(
    alloc: Global,
    source: &mut S,
    limit: usize,
) -> Result<Vec<u8>, ReadRefusal>
    requires { limit < 2 ^ 32 - 1 }
    ensures all { IfOk result (λ bytes. (S.left source.old ≡ before_known bytes.items (S.left source.new))
        × IfSome (S.left source.new) (λ rest. rest ≡ [])
        × (length bytes.items ≤ limit)) }
    ensures too_long { OnTooLong result limit (S.left source.old) (S.left source.new) }
    ensures broken_off { OnBreakOff result limit (S.left source.old) (S.left source.new) }
    ensures cause { ReadCause (S.faults source.old) (S.faults source.new) result }
    ensures calls { S.calls source.new ≤ S.calls source.old + limit + 1 }
{
    let mut bytes = Vec::new(alloc);
    let mut buf = [0u8; 4096];
    'reads: while bytes.len() <= limit {
        match source.read(&mut buf) {
            Got::End => return Ok(bytes),
            Got::Failed => return Err(ReadRefusal::ReadFault),
            Got::Count(count) => {
                if bytes.extend_from_slice(&buf[..count]).is_err() {
                    return Err(ReadRefusal::OutOfMemory);
                }
            }
        }
    }
    let (line, col) = place_behind(&bytes[..limit]);
    Err(ReadRefusal::TooLong { line, col })
}

/// The line and the column of the byte behind these, both counted from 1; a line ends at its line feed. There are
/// fewer than 2^32 - 1 bytes.
pub fn place_behind(bytes: &[u8]) -> (u32, u32)
    requires { length bytes.now < 2 ^ 32 - 1 }
    ensures { result ≡ place.place_behind bytes.now }
{
    let mut line = 1;
    let mut column = 1;
    for byte in bytes {
        if *byte == b'\n' {
            line += 1;
            column = 1;
        } else {
            column += 1;
        }
    }
    (line, column)
}
