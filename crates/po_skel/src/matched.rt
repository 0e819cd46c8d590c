//! What stands at a pair's holes, found once, and then compared with many shapes.
ghost use Rattle.std.specs.Prelude.{◌≡◌, ◌↔◌, IsTrue};
ghost use Rattle.po_term.specs.Moves.{instr_of};
ghost use Rattle.po_term.specs.Form.{WellFormed};
ghost use Rattle.po_model.specs.Pairs.{pair_of};
ghost use Rattle.po_model.specs.Holed.{shape_of, values_of};
ghost use Rattle.po_model.specs.Shape.{pair_values, pair_shape};

use crate::matching;
use po_model::{Pair, Shape, Values};

/// Whether a pair of well-formed instructions has the shape, where `v` is what stands at the holes of the pair's shape
/// (docs/RULES.md, "Shapes"). It takes no memory.
pub fn is_of_shape(v: &Values, s: &Shape, p: &Pair) -> bool
    requires first { WellFormed (instr_of p.now.a) }
    requires second { WellFormed (instr_of p.now.b) }
    requires values { values_of v.now ≡ pair_values (pair_of p.now) }
    ensures { IsTrue result ↔ (pair_shape (pair_of p.now) ≡ shape_of s.now) }
{
    matching::has_shape(v, s, p)
}
