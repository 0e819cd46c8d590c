//! The shape of a pair, and whether a pair has a shape.
ghost use Rattle.std.specs.Prelude.{◌≡◌, ◌≢◌, ◌↔◌, ◌++◌, IsTrue, IfOk, MatchOption};
ghost use Rattle.po_term.specs.Moves.{instr_of};
ghost use Rattle.po_term.specs.Form.{WellFormed};
ghost use Rattle.po_model.specs.LiveSet.{is_live};
ghost use Rattle.po_model.specs.Pairs.{pair_of};
ghost use Rattle.po_model.specs.Holed.{shape_of, values_of, hole_moves_of};
ghost use Rattle.po_model.specs.Shape.{nothing_met, meet_moves, live_holes, settable, pair_values, pair_shape};
ghost use Rattle.po_skel.specs.Few.{HasFew};
ghost use Rattle.po_skel.specs.Numbered.{numbered_moves};

use crate::binding::bind_transfers;
use crate::holes::{SETTABLE, add_live};
use crate::matching::match_after;
use crate::numbering::number_transfers;
use crate::walk::nothing_met;
use po_model::{Live, PReg, Pair, Shape, Values};
use po_word::OutOfMemory;
use std::alloc::Global;

/// The holes of what is live: of the registers that were met, and then of the others that a pair may set.
fn all_live(alloc: Global, v: &Values, live: &Live) -> Result<Vec<PReg>, OutOfMemory>
    requires { HasFew (values_of v.now) }
    ensures { IfOk result (λ qs. qs.items ≡ live_holes (values_of v.now) (is_live live.now) v.now.regs.items
        ++ live_holes (values_of v.now) (is_live live.now) settable) }
{
    let mut out = Vec::new(alloc);
    add_live(v, live, &v.regs, &mut out)?;
    add_live(v, live, &SETTABLE, &mut out)?;
    Ok(out)
}

/// The shape of a pair of well-formed instructions (docs/RULES.md, "Shapes"), and what stands at its holes. It fails
/// only where memory is refused.
pub fn shape(alloc: Global, p: &Pair) -> Result<(Shape, Values), OutOfMemory>
    requires first { WellFormed (instr_of p.now.a) }
    requires second { WellFormed (instr_of p.now.b) }
    ensures { IfOk result (λ r. (shape_of r.0 ≡ pair_shape (pair_of p.now))
        × (values_of r.1 ≡ pair_values (pair_of p.now))) }
{
    let mut v = nothing_met(alloc);
    let a = number_transfers(alloc, &mut v, &p.a.xs)?;
    let b = number_transfers(alloc, &mut v, &p.b.xs)?;
    let live = all_live(alloc, &v, &p.live)?;
    let shape = Shape {
        a,
        b,
        live,
        cc: p.live.cc,
    };
    Ok((shape, v))
}

/// Whether both instructions are those of the shape. What stands at their holes is met.
fn bind_instructions(v: &mut Values, s: &Shape, p: &Pair) -> Result<bool, OutOfMemory>
    requires few { HasFew (pair_values (pair_of p.now)) }
    requires start { values_of v.old ≡ nothing_met }
    ensures same { IfOk result
        (λ b. IsTrue b ↔ ((hole_moves_of s.now.a.items ≡ numbered_moves nothing_met (instr_of p.now.a))
        × (hole_moves_of s.now.b.items
        ≡ numbered_moves (meet_moves nothing_met (instr_of p.now.a)) (instr_of p.now.b)))) }
    ensures values { IfOk result (λ b. IsTrue b → values_of v.new ≡ pair_values (pair_of p.now)) }
{
    if bind_transfers(v, &s.a, &p.a.xs)? {
        bind_transfers(v, &s.b, &p.b.xs)
    } else {
        Ok(false)
    }
}

/// What stands at the holes of the shape in a pair of well-formed instructions, where the pair has this shape, and
/// None where it has another one (docs/RULES.md, "What stands at the holes"). It fails only where memory is refused.
pub fn bind(alloc: Global, s: &Shape, p: &Pair) -> Result<Option<Values>, OutOfMemory>
    requires first { WellFormed (instr_of p.now.a) }
    requires second { WellFormed (instr_of p.now.b) }
    ensures { IfOk result
        (λ o. MatchOption o (pair_shape (pair_of p.now) ≢ shape_of s.now)
        (λ v. (pair_shape (pair_of p.now) ≡ shape_of s.now) × (values_of v ≡ pair_values (pair_of p.now)))) }
{
    let mut v = nothing_met(alloc);
    if bind_instructions(&mut v, s, p)? && match_after(&v, s, p) {
        Ok(Some(v))
    } else {
        Ok(None)
    }
}
