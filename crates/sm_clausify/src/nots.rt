//! Chains of `not`.
ghost use Rattle.std.specs.Prelude.{◌≡◌, ◌≤◌, ◌↔◌, Bool, false};
ghost use Rattle.sm_clausify.specs.Propositions.{meaning, EachLiteral, HasSmallBound};
ghost use Rattle.sm_clausify.specs.Clauses.{clauses_of};
ghost use Rattle.sm_clausify.specs.Tallies.{tally_of, parts_in, flipped_if, is_not, turned};
ghost use Rattle.sm_clausify.specs.declared.formula.Formula.{size-Formula};

use crate::formula::Formula;

/// What stands behind the `not`s in front of a formula, and whether they are odd in number. However many there are, they
/// take one loop and no stack.
pub(crate) fn behind_nots(formula: &Formula) -> (&Formula, bool)
    ensures other { is_not result.0.now ≡ false }
    ensures under { size-Formula result.0.now ≤ size-Formula formula.now }
    ensures parts { parts_in (tally_of formula.now) ≡ parts_in (tally_of result.0.now) }
    ensures tally { tally_of formula.now ≡ flipped_if result.1 (tally_of result.0.now) }
    ensures clauses { (negated : Bool) → clauses_of (meaning formula.now) negated ≡ clauses_of (meaning result.0.now) (turned result.1 negated) }
    ensures small { EachLiteral HasSmallBound (meaning formula.now) ↔ EachLiteral HasSmallBound (meaning result.0.now) }
{
    let mut inner = formula;
    let mut is_odd = false;
    while let Formula::Not(next) = inner {
        inner = next.get();
        is_odd = !is_odd;
    }
    (inner, is_odd)
}

/// Whether what stands behind the `not`s is taken negated.
pub(crate) fn turned(is_odd: bool, negated: bool) -> bool
    ensures { result ≡ turned is_odd negated }
{
    if is_odd { !negated } else { negated }
}
