//! Column forms of literals: a constant and columns whose sum is 1 where the literal is true, else 0.
ghost use Rattle.std.specs.Prelude.{◌≡◌, ◌≤◌, ◌<◌, ◌+◌, ◌*◌, ◌^◌, ◌+ℤ◌, ◌*ℤ◌, length, filter, map, pos, unsigned_abs, if◌then◌else◌, IfOk, IfSome};
ghost use Rattle.sm_kinds.specs.Literals.{passes, is_true};
ghost use Rattle.sm_kinds.specs.Points.{Point};
ghost use Rattle.sm_kinds.specs.Vars.{IsDiscrete};
ghost use Rattle.sm_flat.specs.Limits.{IsFlat};
ghost use Rattle.sm_flat.specs.Solutions.{Fits};
ghost use Rattle.sm_rows.specs.Terms.{add_terms, weight};
ghost use Rattle.sm_rows.specs.Forms.{form_at, add_form, form_weight, is_binary, binary_form, same_each, indicators, sum_form, less_form, linked_form, form_of};

use crate::linked::is_linked;
use crate::terms::add_term;
use sm_flat::{Flat, Literal, Test, Var};
use sm_step::Col;
use sqlite_items::Items;
use std::alloc::{AllocError, Global};

/// A constant and columns with coefficients, added up.
#[derive(Drop)]
pub struct ColumnForm {
    pub constant: i64,
    pub terms: Items<(Col, i64)>,
}

/// The term, `by` times.
fn scaled(by: &i64, term: &(Col, i64)) -> (Col, i64)
    requires { unsigned_abs by.now * unsigned_abs term.now.1 < 2 ^ 63 }
    ensures { result ≡ (term.now.0, by.now *ℤ term.now.1) }
{
    (term.0, *by * term.1)
}

/// Adds the terms to the sum, each `by` times.
fn add_terms(sum: &mut Items<(Col, i64)>, by: &i64, terms: &[(Col, i64)]) -> Result<(), AllocError>
    requires { weight sum.old + unsigned_abs by.now * weight terms.now < 2 ^ 63 }
    ensures { IfOk result (λ _. sum.new ≡ add_terms sum.old by.now terms.now) }
{
    for term in terms {
        let product = scaled(by, term);
        add_term(sum, &product)?;
    }
    Ok(())
}

fn plus_product(start: &i64, by: &i64, number: &i64) -> i64
    requires { unsigned_abs start.now + unsigned_abs by.now * unsigned_abs number.now < 2 ^ 63 }
    ensures { result ≡ start.now +ℤ (by.now *ℤ number.now) }
{
    *start + *by * *number
}

/// Adds `by` times the form to the sum.
pub fn add_form(sum: &mut ColumnForm, by: &i64, form: &ColumnForm) -> Result<(), AllocError>
    requires { form_weight sum.old + unsigned_abs by.now * form_weight form.now < 2 ^ 63 }
    ensures { IfOk result (λ _. sum.new ≡ add_form sum.old by.now form.now) }
{
    sum.constant = plus_product(&sum.constant, by, &form.constant);
    add_terms(&mut sum.terms, by, form.terms.as_slice())
}

/// Whether the literal is true of the whole number.
fn passes(literal: &Literal, value: i64) -> bool
    ensures { result ≡ passes literal.now value }
{
    match literal.test {
        Test::AtMost => value <= literal.bound,
        Test::AtLeast => literal.bound <= value,
        Test::Equal => value == literal.bound,
        Test::Unequal => value != literal.bound,
    }
}

/// Whether the variable is declared within 0 to 1.
fn is_binary(vars: &[Var], var: u32) -> bool
    ensures { result ≡ is_binary vars.now var }
{
    let Some(variable) = vars.get(var as usize) else {
        return false;
    };
    let values = variable.values.as_slice();
    match values {
        [] => true,
        [_, ..] => 0 <= values[0] && values[values.len() - 1] <= 1,
    }
}

/// The form of the column, one less it, or a constant, by the literal's truth at 0 and at 1.
fn binary_form(
    alloc: Global,
    var: u32,
    at_zero: bool,
    at_one: bool,
) -> Result<ColumnForm, AllocError>
    ensures { IfOk result (λ f. f ≡ binary_form var at_zero at_one) }
{
    let constant = if at_zero { 1 } else { 0 };
    let mut terms = Items::new(alloc);
    if at_zero && !at_one {
        terms.push((Col::Var(var), -1))?;
    }
    if !at_zero && at_one {
        terms.push((Col::Var(var), 1))?;
    }
    Ok(ColumnForm { constant, terms })
}

/// The indicators of the values of which the literal is true, each with the coefficient k.
fn indicators(
    alloc: Global,
    literal: &Literal,
    values: &[i64],
    k: &i64,
) -> Result<Vec<(Col, i64)>, AllocError>
    ensures { IfOk result (λ v. v.items ≡ indicators literal.now.var (same_each k.now) (filter (passes literal.now) values.now)) }
{
    let mut terms = Vec::new(alloc);
    for value in values {
        if passes(literal, *value) {
            terms.push((Col::Is(literal.var, *value), *k))?;
        }
    }
    Ok(terms)
}

fn sum_form(alloc: Global, literal: &Literal, values: &[i64]) -> Result<ColumnForm, AllocError>
    ensures { IfOk result (λ f. f ≡ sum_form literal.now values.now) }
{
    let terms = Items::from_vec(indicators(alloc, literal, values, &1)?);
    Ok(ColumnForm { constant: 0, terms })
}

fn less_form(alloc: Global, literal: &Literal, values: &[i64]) -> Result<ColumnForm, AllocError>
    ensures { IfOk result (λ f. f ≡ less_form literal.now values.now) }
{
    let equality = Literal {
        var: literal.var,
        test: Test::Equal,
        bound: literal.bound,
    };
    let terms = Items::from_vec(indicators(alloc, &equality, values, &-1)?);
    Ok(ColumnForm { constant: 1, terms })
}

/// The sum of the indicators of the values of which the literal is true, or for `!=` one less the indicator of its bound.
fn linked_form(alloc: Global, literal: &Literal, values: &[i64]) -> Result<ColumnForm, AllocError>
    ensures { IfOk result (λ f. f ≡ linked_form literal.now.test literal.now values.now) }
{
    match literal.test {
        Test::AtMost | Test::AtLeast | Test::Equal => sum_form(alloc, literal, values),
        Test::Unequal => less_form(alloc, literal, values),
    }
}

fn form_of(alloc: Global, flat: &Flat, literal: &Literal) -> Result<Option<ColumnForm>, AllocError>
    ensures value { IfOk result (λ o. o ≡ form_of flat.now literal.now) }
    ensures limits { IsFlat flat.now }
{
    if is_binary(flat.vars(), literal.var) {
        let at_zero = passes(literal, 0);
        let at_one = passes(literal, 1);
        return Ok(Some(binary_form(alloc, literal.var, at_zero, at_one)?));
    }
    if !is_linked(flat, literal.var) {
        return Ok(None);
    }
    let Some(variable) = flat.vars().get(literal.var as usize) else {
        return Ok(None);
    };
    let values = variable.values.as_slice();
    Ok(Some(linked_form(alloc, literal, values)?))
}

/// The column form of a literal, where its variable is declared within 0 to 1 or linked.
pub fn column_form(
    alloc: Global,
    flat: &Flat,
    literal: &Literal,
) -> Result<Option<ColumnForm>, AllocError>
    ensures value { IfOk result (λ o. o ≡ form_of flat.now literal.now) }
    ensures small { IfOk result (λ o. IfSome o (λ f. form_weight f ≤ 65)) }
    // At each assignment that fits, the form's value is 1 where the literal is true, else 0.
    ensures law { IfOk result (λ o. IfSome o (λ f. (a : Point) → Fits flat.now a → IsDiscrete flat.now.vars literal.now.var → form_at a f ≡ (if is_true a literal.now then a.denominator else pos 0))) }
{
    let form = form_of(alloc, flat, literal)?;
    Ok(form)
}
