//! What is promised of slow combination and of all passes, as contracts of functions that do nothing.
ghost use Rattle.po_slow.specs.Laws.{CombinationKeepsEffect};
ghost use Rattle.po_slow.specs.Dead.{DeadLeavesNoTrace};
ghost use Rattle.po_slow.specs.Passes.{PassesKeepForm, PassesKeepFit, PassesMakeNothingLive, PassesKeepRuns};
ghost use Rattle.po_slow.specs.Passes.{PassesMakeOneCode};

/// For every machine and every well-formed pair of instructions, what stands in the place of the pair does in every
/// state what the two do, as far as it is seen with what is live after them, and it makes nothing live; where it is
/// one instruction, that is well formed on every machine that a description may tell of (docs/OPTIMISER.md,
/// "Combination").
pub fn combination_keeps_effect()
    ensures { CombinationKeepsEffect }
{}

/// An instruction that has only sets and `cc`, none of which is live after it, leaves no trace: in every state the
/// code goes on behind it, and memory, what is live, and what it doesn't set are as they were (docs/OPTIMISER.md,
/// "The scan").
pub fn dead_leaves_no_trace()
    ensures { DeadLeavesNoTrace }
{}

/// For every machine that a description may tell of, every formed code and all safe answers, by which a pair stays or
/// becomes what slow combination makes of it: what all passes make of the code is formed, has the same blocks by
/// their labels, is the code as it was or has fewer instructions, is straight where the code is, and names only
/// labels and symbols that have their names, where the code does (docs/OPTIMISER.md, "The scan").
pub fn passes_keep_form()
    ensures { PassesKeepForm }
{}

/// For every such machine, code and answers: where each instruction fits an entry of the machine with what is live
/// after it, each instruction of the code that all passes make does (docs/OPTIMISER.md, "The scan").
pub fn passes_keep_fit()
    ensures { PassesKeepFit }
{}

/// For every such machine, code and answers: what is live at the start of a block of the code that all passes make
/// was live there before them (docs/OPTIMISER.md, "The scan").
pub fn passes_make_nothing_live()
    ensures { PassesMakeNothingLive }
{}

/// For every such machine, code and answers: n blocks of the code and n blocks of what all passes make of it can't be
/// told apart, from starts that agree on what is live in the latter and whatever the calls reply. Memory, the calls
/// that were made, where control stands, and each register and cc that is live there in the code after the passes are
/// the same (docs/OPTIMISER.md, "The scan").
pub fn passes_keep_runs()
    ensures { PassesKeepRuns }
{}

/// For every code and whatever becomes of its pairs: any two codes that all passes make of it by the same answers are
/// the same, and so are the lists of the pairs that they try, whichever function tells what is live
/// (docs/OPTIMISER.md, "The scan").
pub fn passes_make_one_code()
    ensures { PassesMakeOneCode }
{}
