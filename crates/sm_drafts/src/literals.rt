//! The bounds of a formula's literals.
ghost use Rattle.std.specs.Prelude.{◌≡◌, ◌≤◌, ◌++◌, false, OnOk};
ghost use Rattle.sm_clausify.specs.declared.formula.Formula.{Formula as Stated, size-Formula};
ghost use Rattle.sm_clausify.specs.Propositions.{meaning, implication, equivalence, EachLiteral, HasSmallBound};
ghost use Rattle.sm_clausify.specs.Tallies.{is_not};
ghost use Rattle.sm_meaning.specs.Trials.{each_tried};
ghost use Rattle.sm_meaning.specs.Limits.{literal_bounds};
ghost use Rattle.sm_drafts.specs.Drafts.{Passes, bounds_tried};

use crate::bounds::try_bound;
use sm_clausify::Formula;
use sm_meaning::ExpandRefusal;

/// What stands behind the `not`s in front of a formula. However many there are, they take one loop and no stack.
fn behind_nots(formula: &Formula) -> &Formula
    ensures other { is_not result.now ≡ false }
    ensures under { size-Formula result.now ≤ size-Formula formula.now }
    ensures bounds { literal_bounds (meaning result.now) ≡ literal_bounds (meaning formula.now) }
{
    let mut inner = formula;
    while let Formula::Not(next) = inner {
        inner = next.get();
    }
    inner
}

/// Tries the bounds of the literals of two formulas. An equivalence has each of them twice; the second time nothing is
/// refused that wasn't the first time.
#[cycle(literals)]
fn try_both(first: &Formula, second: &Formula) -> Result<(), ExpandRefusal>
    ensures implied { Passes (bounds_tried (literal_bounds (implication (meaning first.now) (meaning second.now)))) result }
    ensures equivalent { Passes (bounds_tried (literal_bounds (equivalence (meaning first.now) (meaning second.now)))) result }
{
    try_literals(first)?;
    try_literals(second)
}

#[cycle(literals)]
fn try_all(parts: &[Formula]) -> Result<(), ExpandRefusal>
    ensures { Passes (each_tried (λ (f : Stated). bounds_tried (literal_bounds (meaning f))) parts.now) result }
{
    for part in parts {
        try_literals(part)?;
    }
    Ok(())
}

#[cycle(literals)]
fn try_literals(formula: &Formula) -> Result<(), ExpandRefusal>
    ensures { Passes (bounds_tried (literal_bounds (meaning formula.now))) result }
{
    let inner = behind_nots(formula);
    match inner {
        Formula::Lit(literal) => try_bound(&literal.bound),
        Formula::Not(_) => unreachable!(),
        Formula::And(parts) => try_all(parts.as_slice()),
        Formula::Or(parts) => try_all(parts.as_slice()),
        Formula::Implies(first, second) => try_both(first.get(), second.get()),
        Formula::Iff(first, second) => try_both(first.get(), second.get()),
    }
}

/// Tries the bounds of the literals of a formula, in the order of the text.
///
/// # Errors
///
/// `Limit` of the first that is over its limit.
pub(crate) fn try_formula(formula: &Formula) -> Result<(), ExpandRefusal>
    ensures tried { Passes (bounds_tried (literal_bounds (meaning formula.now))) result }
    ensures small { OnOk result (EachLiteral HasSmallBound (meaning formula.now)) }
{
    try_literals(formula)
}
