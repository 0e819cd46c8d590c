//! What is promised of recognition, each law the contract of a function that does nothing.
ghost use Rattle.std.specs.Prelude.{true, false, IsSome};
ghost use Rattle.po_term.specs.Moves.{PlainInstr};
ghost use Rattle.po_model.specs.Fit.{fit};
ghost use Rattle.po_recog.specs.Limits.{FitsWithinLimits};

use po_model::Machine;

/// A law, and no work: what fits while `cc` is live fits while it is dead too, maybe an earlier entry.
pub fn fits_while_cc_is_dead()
    ensures { (m : Machine) (ms : PlainInstr) → IsSome (fit m true ms) → IsSome (fit m false ms) }
{}

/// A law, and no work: what an entry of a machine that a description may tell of fits is within the limits of
/// instructions.
pub fn fits_within_limits()
    ensures { FitsWithinLimits }
{}
