//! Literals: variables that compare with numbers.
ghost use Rattle.std.specs.Prelude.{◌≡◌, ◌∷◌, map, option_map};
ghost use Rattle.sm_syntax.specs.Expressions.{literal_of};
ghost use Rattle.sm_meaning.specs.Trials.{GoesThrough, each_tried};
ghost use Rattle.sm_meaning.specs.Formulas.{test_of, condition_of, condition_tried};
ghost use Rattle.sm_meaning.specs.DemandTrials.{presence_tried};

use crate::role::discrete;
use sm_expressions::number;
use sm_flat::{Literal, Test};
use sm_meaning::ExpandRefusal;
use sm_scopes::{Cases, Scope};
use sm_syntax::{Lit, LitRelation};
use sqlite_items::Items;
use std::alloc::Global;

/// How a literal compares.
fn test_of(relation: LitRelation) -> Test
    ensures { result ≡ test_of relation }
{
    match relation {
        LitRelation::AtMost => Test::AtMost,
        LitRelation::AtLeast => Test::AtLeast,
        LitRelation::Equal => Test::Equal,
        LitRelation::Unequal => Test::Unequal,
    }
}

/// A literal.
///
/// # Errors
///
/// What is refused of the variable on the left, and then of the number on the right.
pub fn condition<'t>(
    alloc: Global,
    scope: &Scope,
    cases: &Cases<'t>,
    visited: &mut u64,
    x: &'t Lit,
) -> Result<Literal, ExpandRefusal>
    ensures { GoesThrough (condition_tried scope.now (literal_of x.now) cases.now.tuple) visited.old visited.new
        (λ l. l ≡ condition_of scope.now (literal_of x.now) cases.now.tuple) result }
{
    let var = discrete(alloc, scope, cases, visited, &x.left)?;
    let bound = number(alloc, scope, cases, visited, &x.right)?;
    Ok(Literal {
        var,
        test: test_of(x.relation),
        bound,
    })
}

/// A literal and more.
///
/// # Errors
///
/// The first that is refused in the order of the text.
pub fn conditions<'t>(
    alloc: Global,
    scope: &Scope,
    cases: &Cases<'t>,
    visited: &mut u64,
    first: &'t Lit,
    more: &'t [Lit],
) -> Result<Items<Literal>, ExpandRefusal>
    ensures { GoesThrough (each_tried (λ l. condition_tried scope.now l cases.now.tuple) (map literal_of (first.now ∷ more.now))) visited.old visited.new
        (λ ls. ls ≡ map (λ l. condition_of scope.now l cases.now.tuple) (map literal_of (first.now ∷ more.now))) result }
{
    let mut literals = Vec::new(alloc);
    literals.push(condition(alloc, scope, cases, visited, first)?)?;
    for other in more {
        literals.push(condition(alloc, scope, cases, visited, other)?)?;
    }
    Ok(Items::from_vec(literals))
}

/// The literal that says whether a task is present, if there is one.
///
/// # Errors
///
/// What is refused of it.
pub fn presence<'t>(
    alloc: Global,
    scope: &Scope,
    cases: &Cases<'t>,
    visited: &mut u64,
    x: &'t Option<Lit>,
) -> Result<Option<Literal>, ExpandRefusal>
    ensures { GoesThrough (presence_tried scope.now (option_map literal_of x.now) cases.now.tuple) visited.old visited.new
        (λ l. l ≡ option_map (λ l. condition_of scope.now l cases.now.tuple) (option_map literal_of x.now)) result }
{
    match x {
        None => Ok(None),
        Some(literal) => Ok(Some(condition(alloc, scope, cases, visited, literal)?)),
    }
}
