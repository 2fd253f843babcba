//! Expressions, evaluated in the order of the text.
ghost use Rattle.std.specs.Prelude.{◌≡◌, map};
ghost use Rattle.sm_forms.specs.Forms.{IsForm, IsFormOf, value_at};
ghost use Rattle.sm_syntax.specs.Expressions as plain;
ghost use Rattle.sm_syntax.specs.Expressions.{expression_of, term_of, factor_of, addend_of, binding_of, test_of, expressions_of, comparisons_of};
ghost use Rattle.sm_meaning.specs.Cases.{number_of, number_tried};
ghost use Rattle.sm_meaning.specs.Scopes.{count_of};
ghost use Rattle.sm_meaning.specs.Trials.{GoesThrough, ◌▸◌};
ghost use Rattle.sm_meaning.specs.Worths.{worth, product_worth, operand_worth, indices_of, all_pass, passes, total, cases as cases_of, with_addend, relates};
ghost use Rattle.sm_meaning.specs.ExpressionTrials.{expression_tried, product_tried, operand_tried, indices_tried, tests_tried, test_tried, summing, value_tried};
ghost use Rattle.sm_expressions.specs.Sums.{counted, tuple_tried};

use crate::name::{named_form, stands_for};
use crate::product::product_form;
use crate::value::{added, negated, number_form, visit, whole};
use sm_forms::Form;
use sm_meaning::ExpandRefusal;
use sm_scopes::{Cases, Scope};
use sm_syntax::{Addend, Binders, Expr, Factor, Name, Place, Relation, Sign, Term, Test};
use std::alloc::Global;

/// An expression as a linear form.
///
/// # Errors
///
/// The first that is refused in the order of the text.
#[cycle(evaluating)]
pub fn expression<'t>(
    alloc: Global,
    scope: &Scope,
    cases: &Cases<'t>,
    visited: &mut u64,
    x: &'t Expr,
) -> Result<Form, ExpandRefusal>
    ensures { GoesThrough (expression_tried (expression_of x.now) scope.now cases.now.tuple) visited.old visited.new
        (IsFormOf (count_of scope.now) (worth (expression_of x.now) scope.now.names cases.now.tuple)) result }
{
    let first = product(alloc, scope, cases, visited, &x.first)?;
    let mut sum = negated(x.is_negated, first)?;
    for more in x.more.as_slice() {
        sum = addend(alloc, scope, cases, visited, sum, more)?;
    }
    Ok(sum)
}

/// A sum so far with one more term.
#[cycle(evaluating)]
fn addend<'t>(
    alloc: Global,
    scope: &Scope,
    cases: &Cases<'t>,
    visited: &mut u64,
    sum: Form,
    x: &'t Addend,
) -> Result<Form, ExpandRefusal>
    requires { IsForm (count_of scope.now) sum }
    ensures { let h = product_worth (addend_of x.now).1 scope.now.names cases.now.tuple in let g = with_addend (value_at sum) (addend_of x.now).0 h in
        GoesThrough (product_tried (addend_of x.now).1 scope.now cases.now.tuple ▸ value_tried scope.now g) visited.old visited.new (IsFormOf (count_of scope.now) g) result }
{
    let term = product(alloc, scope, cases, visited, &x.term)?;
    added(alloc, sum, x.sign, term)
}

/// A product: all its factors first.
#[cycle(evaluating)]
fn product<'t>(
    alloc: Global,
    scope: &Scope,
    cases: &Cases<'t>,
    visited: &mut u64,
    x: &'t Term,
) -> Result<Form, ExpandRefusal>
    ensures { GoesThrough (product_tried (term_of x.now) scope.now cases.now.tuple) visited.old visited.new
        (IsFormOf (count_of scope.now) (product_worth (term_of x.now) scope.now.names cases.now.tuple)) result }
{
    let first = factor(alloc, scope, cases, visited, &x.first)?;
    let mut more = Vec::new(alloc);
    for other in x.more.as_slice() {
        more.push(factor(alloc, scope, cases, visited, other)?)?;
    }
    product_form(x.place, first, more)
}

/// A factor.
#[cycle(evaluating)]
fn factor<'t>(
    alloc: Global,
    scope: &Scope,
    cases: &Cases<'t>,
    visited: &mut u64,
    x: &'t Factor,
) -> Result<Form, ExpandRefusal>
    ensures { GoesThrough (operand_tried (factor_of x.now) scope.now cases.now.tuple) visited.old visited.new
        (IsFormOf (count_of scope.now) (operand_worth (factor_of x.now) scope.now.names cases.now.tuple)) result }
{
    match x {
        Factor::Number { number, .. } => number_form(alloc, i128::from(number.value)),
        Factor::Name {
            place,
            name,
            indices,
        } => named(
            alloc,
            scope,
            cases,
            visited,
            *place,
            name,
            indices.as_slice(),
        ),
        Factor::Group { inner, .. } => expression(alloc, scope, cases, visited, inner.get()),
        Factor::Sum {
            summand,
            binders,
            ..
        } => { summed(alloc, scope, cases, visited, summand.get(), binders.get()) }
    }
}

/// What stands at the indices of a name.
#[cycle(evaluating)]
fn named<'t>(
    alloc: Global,
    scope: &Scope,
    cases: &Cases<'t>,
    visited: &mut u64,
    place: Place,
    name: &'t Name,
    indices: &'t [Expr],
) -> Result<Form, ExpandRefusal>
    ensures { let o = plain.named place name.now (expressions_of (map expression_of indices.now)) in
        GoesThrough (operand_tried o scope.now cases.now.tuple) visited.old visited.new (IsFormOf (count_of scope.now) (operand_worth o scope.now.names cases.now.tuple)) result }
{
    let known = stands_for(scope, cases, name, place)?;
    let numbers = numbers(alloc, scope, cases, visited, indices)?;
    named_form(alloc, &known, place, numbers.as_slice(), indices)
}

/// An expression that is a whole number.
///
/// # Errors
///
/// What the expression is refused for, and then `Whole` where some variable matters in it.
#[cycle(evaluating)]
pub fn number<'t>(
    alloc: Global,
    scope: &Scope,
    cases: &Cases<'t>,
    visited: &mut u64,
    x: &'t Expr,
) -> Result<i64, ExpandRefusal>
    ensures { GoesThrough (number_tried scope.now (expression_of x.now) cases.now.tuple) visited.old visited.new
        (λ z. z ≡ number_of scope.now (expression_of x.now) cases.now.tuple) result }
{
    let form = expression(alloc, scope, cases, visited, x)?;
    whole(&form, x.place)
}

/// Indices.
#[cycle(evaluating)]
fn numbers<'t>(
    alloc: Global,
    scope: &Scope,
    cases: &Cases<'t>,
    visited: &mut u64,
    parts: &'t [Expr],
) -> Result<Vec<i64>, ExpandRefusal>
    ensures { GoesThrough (indices_tried (expressions_of (map expression_of parts.now)) scope.now cases.now.tuple) visited.old visited.new
        (λ zs. zs.items ≡ indices_of (expressions_of (map expression_of parts.now)) scope.now.names cases.now.tuple) result }
{
    let mut numbers = Vec::new(alloc);
    for part in parts {
        numbers.push(number(alloc, scope, cases, visited, part)?)?;
    }
    Ok(numbers)
}

/// A sum over the tuples that pass the tests.
#[cycle(evaluating)]
fn summed<'t>(
    alloc: Global,
    scope: &Scope,
    cases: &Cases<'t>,
    visited: &mut u64,
    part: &'t Expr,
    binders: &'t Binders,
) -> Result<Form, ExpandRefusal>
    ensures { GoesThrough (summing (binding_of binders.now) scope.now cases.now.tuple (λ c. expression_tried (expression_of part.now) scope.now c)
        (λ c. worth (expression_of part.now) scope.now.names c)) visited.old visited.new
        (IsFormOf (count_of scope.now) (total (map (λ c. worth (expression_of part.now) scope.now.names c) (cases_of (binding_of binders.now) scope.now.names cases.now.tuple)))) result }
{
    let mut inner = Cases::within(alloc, scope, cases, &binders.first, binders.more.as_slice())?;
    let mut sum = number_form(alloc, 0)?;
    while inner.advance() {
        sum = tuple_added(
            alloc,
            scope,
            &inner,
            visited,
            sum,
            part,
            binders.tests.as_slice(),
        )?;
    }
    Ok(sum)
}

/// A sum so far with the part of one more tuple, if that passes.
#[cycle(evaluating)]
fn tuple_added<'t>(
    alloc: Global,
    scope: &Scope,
    cases: &Cases<'t>,
    visited: &mut u64,
    sum: Form,
    part: &'t Expr,
    comparisons: &'t [Test],
) -> Result<Form, ExpandRefusal>
    requires { IsForm (count_of scope.now) sum }
    ensures { let ts = comparisons_of (map test_of comparisons.now) in let h = worth (expression_of part.now) scope.now.names cases.now.tuple in
        let pass = all_pass ts scope.now.names cases.now.tuple in
        GoesThrough (tuple_tried (tests_tried ts scope.now cases.now.tuple) pass (expression_tried (expression_of part.now) scope.now cases.now.tuple) scope.now (value_at sum) h)
        visited.old visited.new (IsFormOf (count_of scope.now) (counted pass (value_at sum) h)) result }
{
    visit(visited)?;
    if !tests(alloc, scope, cases, visited, comparisons)? {
        return Ok(sum);
    }
    let term = expression(alloc, scope, cases, visited, part)?;
    added(alloc, sum, Sign::Plus, term)
}

/// Whether all tests pass; those behind one that fails aren't tried.
///
/// # Errors
///
/// The first that is refused in the order of the text.
#[cycle(evaluating)]
pub fn tests<'t>(
    alloc: Global,
    scope: &Scope,
    cases: &Cases<'t>,
    visited: &mut u64,
    comparisons: &'t [Test],
) -> Result<bool, ExpandRefusal>
    ensures { GoesThrough (tests_tried (comparisons_of (map test_of comparisons.now)) scope.now cases.now.tuple) visited.old visited.new
        (λ t. t ≡ all_pass (comparisons_of (map test_of comparisons.now)) scope.now.names cases.now.tuple) result }
{
    for comparison in comparisons {
        if !test_passes(alloc, scope, cases, visited, comparison)? {
            return Ok(false);
        }
    }
    Ok(true)
}

/// Whether a test passes.
#[cycle(evaluating)]
fn test_passes<'t>(
    alloc: Global,
    scope: &Scope,
    cases: &Cases<'t>,
    visited: &mut u64,
    x: &'t Test,
) -> Result<bool, ExpandRefusal>
    ensures { GoesThrough (test_tried (test_of x.now) scope.now cases.now.tuple) visited.old visited.new
        (λ t. t ≡ passes (test_of x.now) scope.now.names cases.now.tuple) result }
{
    let left = number(alloc, scope, cases, visited, &x.left)?;
    let right = number(alloc, scope, cases, visited, &x.right)?;
    Ok(relates(x.relation, left, right))
}

/// Whether two numbers relate in this way.
fn relates(relation: Relation, left: i64, right: i64) -> bool
    ensures { result ≡ relates relation left right }
{
    match relation {
        Relation::Less => left < right,
        Relation::AtMost => left <= right,
        Relation::Greater => left > right,
        Relation::AtLeast => left >= right,
        Relation::Equal => left == right,
        Relation::Unequal => left != right,
    }
}
