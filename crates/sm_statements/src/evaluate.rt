//! Formulas, evaluated in the order of the text.
ghost use Rattle.std.specs.Prelude.{◌≡◌, ◌++◌, map};
ghost use Rattle.sm_syntax.specs.Expressions.{binding_of};
ghost use Rattle.sm_syntax.specs.Formulas.{formula_of, conclusion_of, disj_of, conj_of, unit_of, atom_of};
ghost use Rattle.sm_clausify.specs.Propositions.{meaning};
ghost use Rattle.sm_meaning.specs.Trials.{GoesThrough};
ghost use Rattle.sm_meaning.specs.Worths.{cases as cases_of};
ghost use Rattle.sm_meaning.specs.Cases.{cases_tried};
ghost use Rattle.sm_meaning.specs.Formulas.{proposition_of, concluded, alternatives_of, claims_of, claim_of, for_tuples};
ghost use Rattle.sm_meaning.specs.Formulas.{statement_tried, ending_tried, alternatives_tried, claims_tried, claim_tried};

use crate::formula::{equivalent, for_tuples, implied, negated};
use sm_clausify::Formula;
use sm_meaning::ExpandRefusal;
use sm_parts::{Tuples, condition};
use sm_scopes::{Cases, Scope};
use sm_syntax::{Atom, Binders, Conclusion, Conj, Disj, Quantifier, Unit};
use sqlite_items::Items;
use std::alloc::Global;

/// A formula of the text as a formula over literals.
///
/// # Errors
///
/// The first that is refused in the order of the text.
#[cycle(stating)]
pub fn statement<'t>(
    alloc: Global,
    scope: &Scope,
    cases: &Cases<'t>,
    visited: &mut u64,
    x: &'t sm_syntax::Formula,
) -> Result<Formula, ExpandRefusal>
    ensures { GoesThrough (statement_tried (formula_of x.now) scope.now cases.now.tuple) visited.old visited.new
        (λ f. proposition_of (formula_of x.now) scope.now cases.now.tuple ≡ meaning f) result }
{
    let left = alternatives(alloc, scope, cases, visited, &x.left)?;
    concluded(alloc, scope, cases, visited, left, &x.conclusion)
}

/// A first disjunction with what stands behind it.
#[cycle(stating)]
fn concluded<'t>(
    alloc: Global,
    scope: &Scope,
    cases: &Cases<'t>,
    visited: &mut u64,
    left: Formula,
    x: &'t Conclusion,
) -> Result<Formula, ExpandRefusal>
    ensures { GoesThrough (ending_tried (conclusion_of x.now) scope.now cases.now.tuple) visited.old visited.new
        (λ f. concluded (conclusion_of x.now) scope.now cases.now.tuple (meaning left) ≡ meaning f) result }
{
    match x {
        Conclusion::None => Ok(left),
        Conclusion::Implies(disj) => {
            let right = alternatives(alloc, scope, cases, visited, disj)?;
            Ok(implied(alloc, left, right)?)
        }
        Conclusion::Iff(disj) => {
            let right = alternatives(alloc, scope, cases, visited, disj)?;
            Ok(equivalent(alloc, left, right)?)
        }
    }
}

/// Conjunctions of which one holds; one alone stands for itself.
#[cycle(stating)]
fn alternatives<'t>(
    alloc: Global,
    scope: &Scope,
    cases: &Cases<'t>,
    visited: &mut u64,
    x: &'t Disj,
) -> Result<Formula, ExpandRefusal>
    ensures { GoesThrough (alternatives_tried (disj_of x.now) scope.now cases.now.tuple) visited.old visited.new
        (λ f. alternatives_of (disj_of x.now) scope.now cases.now.tuple ≡ meaning f) result }
{
    if x.more.is_empty() {
        return claims(alloc, scope, cases, visited, &x.first);
    }
    let mut parts = Vec::new(alloc);
    parts.push(claims(alloc, scope, cases, visited, &x.first)?)?;
    for other in x.more.as_slice() {
        parts.push(claims(alloc, scope, cases, visited, other)?)?;
    }
    Ok(Formula::Or(Items::from_vec(parts)))
}

/// Claims that all hold; one alone stands for itself.
#[cycle(stating)]
fn claims<'t>(
    alloc: Global,
    scope: &Scope,
    cases: &Cases<'t>,
    visited: &mut u64,
    x: &'t Conj,
) -> Result<Formula, ExpandRefusal>
    ensures { GoesThrough (claims_tried (conj_of x.now) scope.now cases.now.tuple) visited.old visited.new
        (λ f. claims_of (conj_of x.now) scope.now cases.now.tuple ≡ meaning f) result }
{
    if x.more.is_empty() {
        return claim(alloc, scope, cases, visited, &x.first);
    }
    let mut parts = Vec::new(alloc);
    parts.push(claim(alloc, scope, cases, visited, &x.first)?)?;
    for other in x.more.as_slice() {
        parts.push(claim(alloc, scope, cases, visited, other)?)?;
    }
    Ok(Formula::And(Items::from_vec(parts)))
}

/// A claim behind its negations.
#[cycle(stating)]
fn claim<'t>(
    alloc: Global,
    scope: &Scope,
    cases: &Cases<'t>,
    visited: &mut u64,
    x: &'t Unit,
) -> Result<Formula, ExpandRefusal>
    ensures { GoesThrough (claim_tried (unit_of x.now) scope.now cases.now.tuple) visited.old visited.new
        (λ f. claim_of (unit_of x.now) scope.now cases.now.tuple ≡ meaning f) result }
{
    let inner = atom(alloc, scope, cases, visited, &x.inner)?;
    Ok(negated(alloc, inner, x.negations.as_slice())?)
}

/// A claim that isn't a negation.
#[cycle(stating)]
fn atom<'t>(
    alloc: Global,
    scope: &Scope,
    cases: &Cases<'t>,
    visited: &mut u64,
    x: &'t Atom,
) -> Result<Formula, ExpandRefusal>
    ensures { GoesThrough (claim_tried (atom_of x.now) scope.now cases.now.tuple) visited.old visited.new
        (λ f. claim_of (atom_of x.now) scope.now cases.now.tuple ≡ meaning f) result }
{
    match x {
        Atom::Lit { lit, .. } => Ok(Formula::Lit(condition(alloc, scope, cases, visited, lit)?)),
        Atom::Group { inner, .. } => statement(alloc, scope, cases, visited, inner.get()),
        Atom::Quantified {
            quantifier,
            inner,
            binders,
            ..
        } => {
            quantified(
                alloc,
                scope,
                cases,
                visited,
                *quantifier,
                inner.get(),
                binders,
            )
        }
    }
}

/// A formula at all tuples that pass, or at any.
#[cycle(stating)]
fn quantified<'t>(
    alloc: Global,
    scope: &Scope,
    cases: &Cases<'t>,
    visited: &mut u64,
    quantifier: Quantifier,
    inner: &'t sm_syntax::Formula,
    binders: &'t Binders,
) -> Result<Formula, ExpandRefusal>
    ensures { GoesThrough (cases_tried (binding_of binders.now) scope.now cases.now.tuple (λ c. statement_tried (formula_of inner.now) scope.now c)) visited.old visited.new
        (λ f. for_tuples quantifier (map (λ c. proposition_of (formula_of inner.now) scope.now c) (cases_of (binding_of binders.now) scope.now.names cases.now.tuple)) ≡ meaning f) result }
{
    let mut parts = Vec::new(alloc);
    push_at_tuples(alloc, scope, cases, visited, inner, binders, &mut parts)?;
    Ok(for_tuples(quantifier, parts))
}

/// Pushes the formula at each tuple that passes.
#[cycle(stating)]
fn push_at_tuples<'t>(
    alloc: Global,
    scope: &Scope,
    cases: &Cases<'t>,
    visited: &mut u64,
    inner: &'t sm_syntax::Formula,
    binders: &'t Binders,
    made: &mut Vec<Formula>,
) -> Result<(), ExpandRefusal>
    ensures { GoesThrough (cases_tried (binding_of binders.now) scope.now cases.now.tuple (λ c. statement_tried (formula_of inner.now) scope.now c)) visited.old visited.new
        (λ _. map meaning made.new.items ≡ map meaning made.old.items ++ map (λ c. proposition_of (formula_of inner.now) scope.now c) (cases_of (binding_of binders.now) scope.now.names cases.now.tuple)) result }
{
    let mut tuples = Tuples::of(alloc, scope, cases, binders)?;
    'tuples: while tuples.next(alloc, scope, visited)? {
        made.push(statement(alloc, scope, tuples.cases(), visited, inner)?)?;
    }
    Ok(())
}
