//! What is promised of the codes that a mode makes, of the output, and of what it does, as contracts of functions that
//! do nothing.
ghost use Rattle.po_compile.specs.Modes.{ModesMakeOneCode};
ghost use Rattle.po_compile.specs.Output.{TextsHaveOneOutput};
ghost use Rattle.po_compile.specs.Runs.{PlacedSlowedRunsAlike};

/// In every mode and for every machine, any two codes that are made of one code of a unit are the same: in `naive`
/// they are that code, in `slow` what all passes make of it (docs/OPTIMISER.md, "The scan").
pub fn modes_make_one_code()
    ensures { ModesMakeOneCode }
{}

/// Any two outputs of a text in one mode are the same: the definition that the top call cites at `Done` leaves no
/// choice (docs/PROGRAM.md, "Modes").
pub fn texts_have_one_output()
    ensures { TextsHaveOneOutput }
{}

/// Placed slowed code runs as the code, for every machine that a description may tell of and every straight code that
/// is formed, where no point of what all passes make of it is crowded. The starts agree on memory, symbols and fixed
/// registers, and on cc where it is live at the code's start, and calls reply alike. Then of n blocks of the code and
/// n blocks of the placed code neither has a result, or both have one, and the two can't be told apart by memory, by
/// calls, by control, or by what is live (docs/OPTIMISER.md, "The scan"; docs/LANGUAGE.md, "Placement").
pub fn placed_slowed_runs_alike()
    ensures { PlacedSlowedRunsAlike }
{}
