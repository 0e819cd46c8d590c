//! A law of sample units, as the contract of a function that does nothing.

ghost use Rattle.po_sample.specs.Laws.{SamplesAreUnits};

/// The stack language allows each sample unit (docs/STACK.md, "Sample units").
pub fn samples_are_units()
    ensures { SamplesAreUnits }
{}
