//! What holds of shapes and values, as laws of the definitions: each function is empty, and its contract is the law.
ghost use Rattle.std.specs.Prelude.{◌≡◌, false, map};
ghost use Rattle.std.specs.List.{list_any};
ghost use Rattle.po_model.specs.Pairs.{PlainPair, WellFormedPair};
ghost use Rattle.po_model.specs.Joined.{is_control};
ghost use Rattle.po_model.specs.Shape.{pair_values, pair_shape};
ghost use Rattle.po_model.specs.Put.{put_move};
ghost use Rattle.po_skel.specs.Labels.{HasOneLabel};
ghost use Rattle.po_skel.specs.Values.{AreDifferent, ShapesAreFilled, ShapesStay};
ghost use Rattle.po_skel.specs.Renaming.{Choice, IsApart, chosen_pair, Commutes};

/// A pair's values put into its shape give the pair, where both instructions go to one label, if to any
/// (docs/RULES.md, "Values put into holes").
pub fn puts_back()
    ensures first { (p : PlainPair) → HasOneLabel p → map (put_move (pair_values p)) (pair_shape p).a ≡ p.a }
    ensures second { (p : PlainPair) → HasOneLabel p → map (put_move (pair_values p)) (pair_shape p).b ≡ p.b }
{}

/// Two pairs with one shape and the same values are the same two instructions (docs/RULES.md, "Values put into
/// holes").
pub fn same_values_same_pair()
    ensures first { (p q : PlainPair) → HasOneLabel p → HasOneLabel q → pair_shape p ≡ pair_shape q
        → pair_values p ≡ pair_values q → p.a ≡ q.a }
    ensures second { (p q : PlainPair) → HasOneLabel p → HasOneLabel q → pair_shape p ≡ pair_shape q
        → pair_values p ≡ pair_values q → p.b ≡ q.b }
{}

/// Slow combination (docs/OPTIMISER.md, "Keep, nothing, one") commutes with another choice of virtual registers,
/// symbols and labels in which different ones stay different (docs/RULES.md, "Values put into holes").
pub fn commutes_with_renaming()
    ensures { Commutes }
{}

/// A well-formed pair whose first instruction has no transfer of control goes to one label, if to any
/// (docs/RULES.md, "Values put into holes").
pub fn has_one_label()
    ensures { (p : PlainPair) → WellFormedPair p → list_any is_control p.a ≡ false → HasOneLabel p }
{}

/// A pair with another choice of virtual registers, symbols and labels, in which different ones stay different, has
/// the same shape (docs/RULES.md, "Values put into holes").
pub fn renaming_keeps_shape()
    ensures { (c : Choice) → IsApart c → (p : PlainPair) → pair_shape (chosen_pair c p) ≡ pair_shape p }
{}

/// Different holes of a pair's shape have different virtual registers, and different symbols (docs/RULES.md, "What
/// stands at the holes").
pub fn values_differ()
    ensures { (p : PlainPair) → AreDifferent (pair_values p) }
{}

/// Each hole of a well-formed pair's shape has its value in the pair (docs/RULES.md, "What stands at the holes").
pub fn shapes_are_filled()
    ensures { ShapesAreFilled }
{}

/// Values that belong to a pair's shape, put into it, give a pair that has this shape, and at whose holes these values
/// stand, whatever the constants are (docs/RULES.md, "Values put into holes").
pub fn shapes_stay()
    ensures { ShapesStay }
{}
