//! What is promised of the list that two instructions come to, each law the contract of a function that does nothing.

ghost use Rattle.po_subst.specs.KeepsEffect.{JoiningKeepsEffect, JoiningMakesNothingLive, JoiningKeepsForm};

/// The list that two well-formed instructions come to does in every state what they do, as far as it is seen with what
/// is live after the second (docs/OPTIMISER.md, "Combination").
pub fn keeps_effect()
    ensures { JoiningKeepsEffect }
{}

/// What is live before that list was live before the two instructions (docs/OPTIMISER.md, "Combination").
pub fn makes_nothing_live()
    ensures { JoiningMakesNothingLive }
{}

/// That list has the form of an instruction, but that its transfers and terms may be more and larger, and names what
/// the two instructions name (docs/OPTIMISER.md, "Combination").
pub fn keeps_form()
    ensures { JoiningKeepsForm }
{}
