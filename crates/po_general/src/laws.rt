//! What is promised of rules, each law the contract of a function that does nothing.
ghost use Rattle.po_general.specs.Laws.{RulesAreCanonical, RulesAreFilled, RulesCoverTheirShapes, OneRule};

/// A pair is an instance of its rule; what becomes of each instance of the rule is the rule's result with the
/// instance's values; and the rule is that of each of its instances (docs/RULES.md, "The rule of a pair").
pub fn rules_are_canonical()
    ensures { RulesAreCanonical }
{}

/// Each hole of the result and of the questions of a pair's rule has a value in the pair (docs/RULES.md, "The rule of
/// a pair").
pub fn rules_are_filled()
    ensures { RulesAreFilled }
{}

/// Two canonical rules of one machine with a well-formed instance in common are equal (docs/RULES.md, "The rule of a
/// pair").
pub fn one_rule()
    ensures { OneRule }
{}

/// A pair's rule says what becomes of every well-formed pair of its shape: whatever the registers and symbols are, if
/// different holes have different ones, whatever the label, and whatever constants give its questions the same answers
/// (docs/RULES.md, "The rule of a pair").
pub fn rules_cover_their_shapes()
    ensures { RulesCoverTheirShapes }
{}
