//! The whole line of an entry.

ghost use Rattle.std.specs.Prelude.{◌≤◌, length, IfOk};
ghost use Rattle.po_lines.specs.Faults.{Gives};
ghost use Rattle.po_model.specs.Entries.{IsEntry};
ghost use Rattle.po_entry.specs.Reading.{entry_in};

use crate::list::{clobber, transfers};
use crate::template::{arrow, template};
use crate::words::keyword;
use po_lines::LineError;
use po_model::Entry;
use po_pattern::{none_seen, skip_blanks, start};
use sqlite_items::Items;
use std::alloc::Global;

/// The entry of a line whose first word is `insn`, or the first fault from left to right (docs/DESCRIPTION.md,
/// "Entries"). The line has at most 4,096 bytes. The time is linear in them.
pub fn read_entry(alloc: Global, line: &[u8]) -> Result<Entry, LineError>
    requires { length line.now ≤ 4096 }
    ensures gives { Gives (λ e. e) result (entry_in line.now) }
    ensures allowed { IfOk result IsEntry }
{
    let entry = entry(alloc, line)?;
    Ok(entry)
}

/// The parts of the line, one behind the other.
#[tactic(auto, unfolding(crate::specs::Reading::entry_in))]
fn entry(alloc: Global, line: &[u8]) -> Result<Entry, LineError>
    requires { length line.now ≤ 4096 }
    ensures { Gives (λ e. e) result (entry_in line.now) }
{
    let first = keyword(skip_blanks(start(line)), b"insn")?;
    let pattern = transfers(alloc, 4, Items::new(alloc), first, none_seen())?;
    let mark = clobber(pattern.value.as_slice(), pattern.rest, pattern.seen)?;
    let begin = arrow(mark.rest)?;
    let template = template(alloc, &mark.seen, begin)?;
    Ok(Entry {
        pattern: pattern.value,
        clobbers: mark.value,
        template,
    })
}
