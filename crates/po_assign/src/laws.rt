//! What is promised of placed code.
ghost use Rattle.po_assign.specs.PlacedRuns.{PlacedRunsAlike};

/// A law, and no work: placed code does what the code does. Where no point is crowded, of n blocks of the code and n
/// blocks of the placed code, run on the machine's registers, neither has a result, or both have one, and these can't
/// be told apart by memory, by calls, by control, or by what is live (docs/LANGUAGE.md, "Placement").
pub fn placed_runs_alike()
    ensures { PlacedRunsAlike }
{}
