//! The counts of a run.
ghost use Rattle.std.specs.Prelude.{◌≡◌, ◌+◌, IfOk};

use po_word::OutOfMemory;

/// The counts of a run (docs/LEARNING.md, "Behind the join").
#[derive(Clone, Copy, Debug, Drop, PartialEq, Eq)]
pub struct Counts {
    /// Pairs that were tried.
    pub pairs: u64,
    /// Those of which a rule said what becomes of them.
    pub hits: u64,
    /// The others.
    pub misses: u64,
    /// Misses that the queue took.
    pub posted: u64,
    /// Misses that came back from a full queue.
    pub full: u64,
    /// Pairs that were learned.
    pub learned: u64,
    /// Rules that are written.
    pub rules: u64,
}

/// The sum. No run comes to a sum that is too large: the reports of so many pairs have no memory.
pub(crate) fn added(count: u64, more: u64) -> Result<u64, OutOfMemory>
    ensures { IfOk result (λ sum. sum ≡ count + more) }
{
    match count.checked_add(more) {
        Some(sum) => Ok(sum),
        None => Err(OutOfMemory),
    }
}
