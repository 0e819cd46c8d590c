//! Laws of naive code, each the contract of a function that does nothing.

ghost use Rattle.po_expand.specs.CcAtStarts.{CcDeadAtStarts};
ghost use Rattle.po_expand.specs.Results.{RunHasResult};

/// In the naive code of a unit `cc` is dead at the start of each block: no path from there reads it before it sets it
/// (docs/LANGUAGE.md, "Naive code").
pub fn cc_dead_at_starts()
    ensures { CcDeadAtStarts }
{}

/// A run has a result: the naive code of `con 7`, `arg 0`, `call g 1`, `ret` calls its only symbol once, with 7, and
/// returns the word that comes back, from each state and with each reply (docs/LANGUAGE.md, "Naive code").
pub fn run_has_result()
    ensures { RunHasResult }
{}
