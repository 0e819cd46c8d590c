//! Where bytes go. A sink says by `kept` which bytes it has taken, where it tells, and by `faults` how often it has
//! failed. No call changes whether `kept` is told, and the count rises at a fault and at nothing else.

ghost use Rattle.std.specs.Prelude.{◌≡◌, ℕ, ◌+◌, ◌<◌, ◌≤◌, List, Option, length, take, OnOk, IfErr};
ghost use Rattle.po_text.specs.Causes.{after_known};
ghost use Rattle.po_text.specs.Sink.{Writes, PutCause, WriteCause};

use crate::WriteFault;

/// What a write took.
#[derive(Clone, Copy, Debug, PartialEq, Eq)]
pub enum Put {
    /// So many bytes, from 1 to the number that was offered.
    Count(usize),
    /// The sink failed, and took nothing.
    Failed,
}

/// Where bytes go.
pub trait Sink {
    /// The bytes taken, where they are told.
    ghost kept: { Self → Option (List ℕ) };

    /// How often the sink has failed. The count never falls.
    ghost faults: { Self → ℕ };

    /// Takes some of these bytes, of which there is at least one. `Count(n)`: `kept` grew by the first n of them, and
    /// `faults` is as it was. `Failed`: `faults` rose, or stands at 2^64-1, and `kept` is as before.
    fn write(&mut self, bytes: &[u8]) -> Put
        requires { 0 < length bytes.now }
        ensures bytes { Writes (kept self.old) (kept self.new) result bytes.now }
        ensures cause { PutCause (faults self.old) (faults self.new) result };
}

/// Hands over all bytes. `WriteFault` comes exactly where the sink's faults rose, and `kept` then grew by the first
/// `written` of them. Takes no memory.
pub fn write_all<K: Sink>(sink: &mut K, bytes: &[u8]) -> Result<(), WriteFault>
    ensures all { OnOk result (K.kept sink.new ≡ after_known (K.kept sink.old) bytes.now) }
    ensures part { IfErr result (λ fault. (fault.written < length bytes.now)
        × (K.kept sink.new ≡ after_known (K.kept sink.old) (take fault.written bytes.now))) }
    ensures cause { WriteCause (K.faults sink.old) (K.faults sink.new) result }
{
    let mut written = 0;
    while written < bytes.len() {
        match sink.write(&bytes[written..]) {
            Put::Count(count) => written += count,
            Put::Failed => {
                return Err(WriteFault {
                    written: written as u64,
                });
            }
        }
    }
    Ok(())
}
