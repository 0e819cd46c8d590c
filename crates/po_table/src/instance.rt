//! A pair and one rule.
ghost use Rattle.std.specs.Prelude.{◌≡◌, ◌↔◌, All, IsTrue, IfOk};
ghost use Rattle.po_word.specs.Exprs.{expr_value, ask_map, is_so};
ghost use Rattle.po_term.specs.Form.{WellFormed};
ghost use Rattle.po_term.specs.Moves.{instr_of};
ghost use Rattle.po_model.specs.Agrees.{Instance};
ghost use Rattle.po_model.specs.Combined.{combination_of};
ghost use Rattle.po_model.specs.Holed.{answered_of, asked_of, rule_of, result_of, values_of};
ghost use Rattle.po_model.specs.Lookups.{gives};
ghost use Rattle.po_model.specs.Pairs.{pair_of};
ghost use Rattle.po_model.specs.Put.{HasValues};
ghost use Rattle.po_model.specs.Shape.{pair_values};

use po_model::{Outcome, Pair, Rule, Values};
use po_skel::{instantiate, is_of_shape, pair_values};
use po_word::{OutOfMemory, Question, answer};
use std::alloc::Global;

/// Whether the question has this answer under these constants.
fn is_answered(holes: &[u32], asked: &(Question, bool)) -> bool
    ensures { IsTrue result
        ↔ (is_so (ask_map (expr_value holes.now) (answered_of asked.now).0) ≡ (answered_of asked.now).1) }
{
    let (question, yes) = asked;
    answer(question, holes) == *yes
}

/// Whether each question has its answer under these constants.
fn are_answered(holes: &[u32], asked: &[(Question, bool)]) -> bool
    ensures { IsTrue result
        ↔ All (λ qa. is_so (ask_map (expr_value holes.now) qa.0) ≡ qa.1) (asked_of asked.now) }
{
    match asked {
        [] => true,
        [first, others @ ..] => is_answered(holes, first) && are_answered(holes, others),
    }
}

/// Whether a pair of well-formed instructions is an instance of the rule (docs/RULES.md, "Questions"), where `v` is
/// what stands at the holes of the pair's shape. It takes no memory.
pub fn is_instance(v: &Values, r: &Rule, p: &Pair) -> bool
    requires first { WellFormed (instr_of p.now.a) }
    requires second { WellFormed (instr_of p.now.b) }
    requires values { values_of v.now ≡ pair_values (pair_of p.now) }
    ensures { IsTrue result ↔ Instance (rule_of r.now) (pair_of p.now) }
{
    is_of_shape(v, &r.shape, p) && are_answered(&v.consts, &r.asked)
}

/// What a rule says of an instance: its result with the pair's values (docs/RULES.md, "Values put into holes"), where
/// each hole of the result has a value in the pair, as it has for each instance of a learned rule. It fails only where
/// memory is refused.
pub fn outcome(alloc: Global, r: &Rule, p: &Pair) -> Result<Outcome, OutOfMemory>
    requires { HasValues (pair_values (pair_of p.now)) (result_of r.now.result) }
    ensures { IfOk result (λ o. combination_of o ≡ gives (rule_of r.now) (pair_of p.now)) }
{
    let v = pair_values(alloc, p)?;
    instantiate(alloc, &r.result, &v)
}
