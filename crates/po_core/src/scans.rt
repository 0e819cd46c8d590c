//! The scans of a foreground, by the numbers of its codes.
ghost use Rattle.std.specs.Prelude.{◌≡◌, ◌≤◌, ◌<◌, length, map, All, IfOk, OnOk, OnErr, MatchOption};
ghost use Rattle.po_model.specs.Pairs.{pair_of};
ghost use Rattle.po_model.specs.Combined.{combination_of};
ghost use Rattle.po_slow.specs.States.{scan_of, IsFormedState};
ghost use Rattle.po_core.specs.Fores.{IsNext};
ghost use Rattle.po_core.specs.Scans.{IsReadyAt, NoneReadyAt, CanAnswerAt, IsSteppedAt, IsAtEndAt, IsEndedAt};

use po_model::{Outcome, Pair};
use po_slow::{Ask, ScanState, scan_step};
use po_word::OutOfMemory;
use std::alloc::Global;

/// A copy of the pair that is ready in the scan of that number.
pub fn ready_at(alloc: Global, scans: &[ScanState], at: usize) -> Result<Option<Pair>, OutOfMemory>
    requires { All IsFormedState scans.now }
    ensures { IfOk result (λ o. MatchOption o (NoneReadyAt (map scan_of scans.now) at)
        (λ p. IsReadyAt (map scan_of scans.now) at (pair_of p))) }
{
    if at >= scans.len() {
        return Ok(None);
    }
    match scans[at].ask(alloc)? {
        Ask::Pair(p) => Ok(Some(p)),
        Ask::BlockEnd => Ok(None),
        Ask::Finished => Ok(None),
    }
}

/// On from the pair that is ready there.
pub fn step_at(
    alloc: Global,
    scans: &mut [ScanState],
    at: usize,
    o: Outcome,
) -> Result<(), OutOfMemory>
    requires inside { at < length scans.old }
    requires formed { All IsFormedState scans.old }
    requires answer { CanAnswerAt (map scan_of scans.old) at (combination_of o) }
    ensures stepped { OnOk result (IsSteppedAt (map scan_of scans.old) at (combination_of o) (map scan_of scans.new)) }
    ensures unchanged { OnErr result (map scan_of scans.new ≡ map scan_of scans.old) }
    ensures formed { All IsFormedState scans.new }
{
    scan_step(alloc, &mut scans[at], o)
}

/// Passes the end of the block in the scan of that number.
pub fn end_scan(alloc: Global, scans: &mut [ScanState], at: usize) -> Result<(), OutOfMemory>
    requires inside { at < length scans.old }
    requires formed { All IsFormedState scans.old }
    requires at_end { IsAtEndAt (map scan_of scans.old) at }
    ensures ended { OnOk result (IsEndedAt (map scan_of scans.old) at (map scan_of scans.new)) }
    ensures unchanged { OnErr result (map scan_of scans.new ≡ map scan_of scans.old) }
    ensures formed { All IsFormedState scans.new }
{
    scans[at].next_block(alloc)
}

/// The first scan from that number on that isn't finished.
pub fn next_from(scans: &[ScanState], from: usize) -> usize
    requires formed { All IsFormedState scans.now }
    requires within { from ≤ length scans.now }
    ensures { IsNext (map scan_of scans.now) from result }
{
    let mut at = from;
    'codes: while at < scans.len() && scans[at].is_finished() {
        at += 1;
    }
    at
}
