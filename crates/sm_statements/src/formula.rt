//! Formulas over literals, of their parts.
ghost use Rattle.std.specs.Prelude.{◌≡◌, IfOk, map};
ghost use Rattle.sm_clausify.specs.Propositions.{meaning, implication, equivalence};
ghost use Rattle.sm_meaning.specs.Formulas.{for_tuples};
ghost use Rattle.sm_statements.specs.Negations.{behind};

use sm_clausify::Formula;
use sm_syntax::{Place, Quantifier};
use sqlite_items::{Boxed, Items};
use std::alloc::{AllocError, Global};

/// The first implies the second.
pub(crate) fn implied(alloc: Global, left: Formula, right: Formula) -> Result<Formula, AllocError>
    ensures { IfOk result (λ f. implication (meaning left) (meaning right) ≡ meaning f) }
{
    let left = Boxed::new(alloc, left)?;
    let right = Boxed::new(alloc, right)?;
    Ok(Formula::Implies(left, right))
}

/// Each implies the other.
pub(crate) fn equivalent(
    alloc: Global,
    left: Formula,
    right: Formula,
) -> Result<Formula, AllocError>
    ensures { IfOk result (λ f. equivalence (meaning left) (meaning right) ≡ meaning f) }
{
    let left = Boxed::new(alloc, left)?;
    let right = Boxed::new(alloc, right)?;
    Ok(Formula::Iff(left, right))
}

/// The formula behind one negation for each of the places.
pub(crate) fn negated(
    alloc: Global,
    formula: Formula,
    negations: &[Place],
) -> Result<Formula, AllocError>
    ensures { IfOk result (λ f. behind negations.now (meaning formula) ≡ meaning f) }
{
    let mut inner = formula;
    for _place in negations {
        inner = Formula::Not(Boxed::new(alloc, inner)?);
    }
    Ok(inner)
}

/// What is said of all tuples, or of any: the parts are the formulas of the tuples.
pub(crate) fn for_tuples(quantifier: Quantifier, parts: Vec<Formula>) -> Formula
    ensures { for_tuples quantifier (map meaning parts.items) ≡ meaning result }
{
    match quantifier {
        Quantifier::All => Formula::And(Items::from_vec(parts)),
        Quantifier::Any => Formula::Or(Items::from_vec(parts)),
    }
}
