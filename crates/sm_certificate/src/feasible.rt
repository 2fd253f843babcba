//! Whether a proposed point satisfies a program, and what it costs.
ghost use Rattle.std.specs.Prelude.{◌≡◌, ℕ, ℤ, pos, ◌+ℤ◌, ◌*ℤ◌, ◌<◌, ◌≤◌, ◌<ℤ◌, ◌^◌, ◌↔◌, ◌⊎◌, IsTrue, IfOk, IfErr, IfSome, All, length, unsigned_abs};
ghost use Rattle.sm_frac.specs.Frac.{value_of};
ghost use Rattle.sm_frac.specs.Rational.{◌+ℚ◌, ◌*ℚ◌, fraction, whole_ℚ};
ghost use Rattle.sm_certificate.specs.Conditions.{IsSolvable, IsBox, IsProgramRow, IsTerm};
ghost use Rattle.sm_certificate.specs.Fine.{AreFine};
ghost use Rattle.sm_certificate.specs.Program.{column_count, cost_of, point_value, SatisfiesRow};
ghost use Rattle.sm_certificate.specs.Checking.{PassesAt, IsProductStep, IsValueStep, IsTermsStep, IsRowsStep, IsCostStep, IsInside, AreInside, IsBoxed, AreSmall, terms_value, Meets};

use crate::combination::add_constant;
use crate::number::{fraction_of, whole};
use crate::program::{LpRow, Program};
use sm_frac::{Frac, RangePassed, compare_ratios};
use std::cmp::Ordering;

/// An end of a column times the denominator. It fits, since the end is within 2^31.
fn scaled(end: i64, denominator: i64) -> i128
    requires { unsigned_abs end ≤ 2 ^ 31 }
    ensures { result ≡ end *ℤ denominator }
{
    end as i128 * denominator as i128
}

/// Whether a column's value lies between its two ends.
fn is_inside(ends: &(i64, i64), numerator: i128, denominator: i64) -> bool
    requires ends { IsBox ends.now }
    requires denominator { pos 0 <ℤ denominator }
    ensures { IsTrue result ↔ IsInside ends.now (fraction numerator (unsigned_abs denominator)) }
{
    if numerator < scaled(ends.0, denominator) {
        return false;
    }
    if numerator > scaled(ends.1, denominator) {
        return false;
    }
    true
}

/// Whether each column's value lies between its two ends.
fn are_inside(columns: &[(i64, i64)], point: &[i128], denominator: i64) -> bool
    requires boxes { All IsBox columns.now }
    requires long { length point.now ≡ length columns.now }
    requires denominator { pos 0 <ℤ denominator }
    ensures { IsTrue result ↔ AreInside columns.now point.now denominator }
{
    for j in 0..columns.len() {
        if !is_inside(&columns[j], point[j], denominator) {
            return false;
        }
    }
    true
}

/// Whether the denominator is above 0, and each column has a value between its two ends.
pub(crate) fn is_boxed(program: &Program, denominator: i64, point: &[i128]) -> bool
    requires { IsSolvable program.now }
    ensures { IsTrue result ↔ IsBoxed program.now denominator point.now }
{
    denominator > 0
        && point.len() == program.columns.len()
        && are_inside(program.columns.as_slice(), point, denominator)
}

/// The sum with a number times a numerator, or None beyond 128 bits.
fn with_whole(sum: i128, number: i64, numerator: i128) -> Option<i128>
    ensures { IfSome result (λ s. s ≡ sum +ℤ number *ℤ numerator) }
{
    let product = (number as i128).checked_mul(numerator)?;
    sum.checked_add(product)
}

/// The numerator of the sum of some terms at the point, or None where a step is beyond 128 bits. It takes no fraction.
fn quick_sum(terms: &[(u32, i64)], point: &[i128]) -> Option<i128>
    requires terms { All (IsTerm (length point.now)) terms.now }
    requires small { AreSmall point.now }
    ensures { IfSome result (λ s. (e : ℕ) → 0 < e → fraction s e ≡ terms_value terms.now (point_value point.now (pos e))) }
{
    let mut sum: i128 = 0;
    for i in 0..terms.len() {
        let term = terms[i];
        sum = with_whole(sum, term.1, point[term.0 as usize])?;
    }
    Some(sum)
}

/// A column's value as a fraction.
fn coordinate(numerator: i128, denominator: i64) -> Result<Frac, RangePassed>
    requires numerator { unsigned_abs numerator < 2 ^ 127 }
    requires denominator { pos 0 <ℤ denominator }
    ensures exact { IfOk result (λ f. value_of f ≡ fraction numerator (unsigned_abs denominator)) }
    ensures passed { IfErr result (λ e. PassesAt (IsValueStep numerator denominator) e.op e.left e.right) }
{
    whole(numerator).over(fraction_of(denominator))
}

/// The sum with the product of two numbers. A product with 0 takes no work.
pub(crate) fn with_product(sum: Frac, number: Frac, other: Frac) -> Result<Frac, RangePassed>
    ensures exact { IfOk result (λ f. value_of f ≡ value_of sum +ℚ value_of number *ℚ value_of other) }
    ensures fine { IfOk result (λ f. AreFine (IsProductStep (value_of sum) (value_of number) (value_of other))) }
    ensures passed { IfErr result (λ e. PassesAt (IsProductStep (value_of sum) (value_of number) (value_of other)) e.op e.left e.right) }
{
    if number.n() == 0 {
        return Ok(sum);
    }
    if other.n() == 0 {
        return Ok(sum);
    }
    let product = number.times(other)?;
    sum.plus(product)
}

/// The sum with a number times a column's value.
fn with_value(
    sum: Frac,
    number: i64,
    numerator: i128,
    denominator: i64,
) -> Result<Frac, RangePassed>
    requires numerator { unsigned_abs numerator < 2 ^ 127 }
    requires denominator { pos 0 <ℤ denominator }
    ensures exact { IfOk result (λ f. value_of f ≡ value_of sum +ℚ whole_ℚ number *ℚ fraction numerator (unsigned_abs denominator)) }
    ensures passed { IfErr result (λ e. PassesAt (λ op x y. IsValueStep numerator denominator op x y ⊎ IsProductStep (value_of sum) (whole_ℚ number) (fraction numerator (unsigned_abs denominator)) op x y) e.op e.left e.right) }
{
    if numerator == 0 {
        return Ok(sum);
    }
    let value = coordinate(numerator, denominator)?;
    with_product(sum, fraction_of(number), value)
}

/// The sum of some terms at the point, in fractions.
fn exact_sum(terms: &[(u32, i64)], point: &[i128], denominator: i64) -> Result<Frac, RangePassed>
    requires terms { All (IsTerm (length point.now)) terms.now }
    requires small { AreSmall point.now }
    requires denominator { pos 0 <ℤ denominator }
    ensures exact { IfOk result (λ f. value_of f ≡ terms_value terms.now (point_value point.now denominator)) }
    ensures passed { IfErr result (λ e. PassesAt (IsTermsStep terms.now point.now denominator) e.op e.left e.right) }
{
    let mut sum = fraction_of(0);
    for i in 0..terms.len() {
        let term = terms[i];
        sum = with_value(sum, term.1, point[term.0 as usize], denominator)?;
    }
    Ok(sum)
}

/// Whether a sum, a numerator and a denominator, meets the row: it is at least the bound, and at an equality the bound.
fn meets(row: &LpRow, sum: &(i128, i128)) -> bool
    requires denominator { pos 0 <ℤ sum.now.1 }
    requires bound { unsigned_abs row.now.bound ≤ 2 ^ 80 }
    ensures { IsTrue result ↔ Meets row.now (fraction sum.now.0 (unsigned_abs sum.now.1)) }
{
    match compare_ratios(sum, &(row.bound, 1)) {
        Ordering::Less => false,
        Ordering::Equal => true,
        Ordering::Greater => !row.equal,
    }
}

/// Whether the row holds at the point.
fn row_holds(row: &LpRow, point: &[i128], denominator: i64) -> Result<bool, RangePassed>
    requires row { IsProgramRow (length point.now) row.now }
    requires small { AreSmall point.now }
    requires denominator { pos 0 <ℤ denominator }
    ensures holds { IfOk result (λ b. IsTrue b ↔ SatisfiesRow (length point.now) (point_value point.now denominator) row.now) }
    ensures passed { IfErr result (λ e. PassesAt (IsTermsStep row.now.terms point.now denominator) e.op e.left e.right) }
{
    if let Some(sum) = quick_sum(row.terms.as_slice(), point) {
        return Ok(meets(row, &(sum, denominator as i128)));
    }
    let sum = exact_sum(row.terms.as_slice(), point, denominator)?;
    Ok(meets(row, &(sum.n(), sum.d())))
}

/// Whether each row holds at the point.
pub(crate) fn rows_hold(
    rows: &[LpRow],
    point: &[i128],
    denominator: i64,
) -> Result<bool, RangePassed>
    requires rows { All (IsProgramRow (length point.now)) rows.now }
    requires small { AreSmall point.now }
    requires denominator { pos 0 <ℤ denominator }
    ensures hold { IfOk result (λ b. IsTrue b ↔ All (SatisfiesRow (length point.now) (point_value point.now denominator)) rows.now) }
    ensures passed { IfErr result (λ e. PassesAt (IsRowsStep rows.now point.now denominator) e.op e.left e.right) }
{
    for row in rows {
        if !row_holds(row, point, denominator)? {
            return Ok(false);
        }
    }
    Ok(true)
}

/// The cost of the point with the constant.
pub(crate) fn cost_at(
    program: &Program,
    constant: i64,
    point: &[i128],
    denominator: i64,
) -> Result<Frac, RangePassed>
    requires solvable { IsSolvable program.now }
    requires long { length point.now ≡ column_count program.now }
    requires small { AreSmall point.now }
    requires denominator { pos 0 <ℤ denominator }
    ensures exact { IfOk result (λ f. value_of f ≡ cost_of program.now (point_value point.now denominator) +ℚ whole_ℚ constant) }
    ensures passed { IfErr result (λ e. PassesAt (IsCostStep program.now constant point.now denominator) e.op e.left e.right) }
{
    let costs = program.cost.as_slice();
    let mut cost = fraction_of(0);
    for j in 0..point.len() {
        cost = with_value(cost, costs[j], point[j], denominator)?;
    }
    add_constant(cost, Some(constant))
}
