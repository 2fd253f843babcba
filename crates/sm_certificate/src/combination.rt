//! The combination of a program's rows by multipliers, and the bound that it gives.
ghost use Rattle.std.specs.Prelude.{◌≡◌, ◌≢◌, ℕ, ◌<◌, ◌≤◌, ◌^◌, ◌↔◌, IsTrue, IfOk, IfErr, All, AllPairs, length, map, vec_len, unsigned_abs, false};
ghost use Rattle.sm_frac.specs.Frac.{value_of};
ghost use Rattle.sm_frac.specs.Rational.{◌+ℚ◌, ◌-ℚ◌, ◌*ℚ◌, zero_ℚ, whole_ℚ};
ghost use Rattle.sm_certificate.specs.Signs.{AtLeast};
ghost use Rattle.sm_certificate.specs.Numbers.{number_at};
ghost use Rattle.sm_certificate.specs.Conditions.{IsSolvable, IsProgramRow, IsTerm};
ghost use Rattle.sm_certificate.specs.Program.{column_count, coefficient, AreMultipliers, combined_coefficient, combined_bound, rest_coefficient, least_rest, target_at};
ghost use Rattle.sm_certificate.specs.Fine.{AreFine};
ghost use Rattle.sm_certificate.specs.Checking.{PassesAt, IsRowTermsStep, IsColumnsStep, IsDifferencesStep, IsRowsBoundStep, IsConstantStep, with_constant, IsEndStep, IsEndsStep, IsBoundStep, least_end};

use crate::feasible::with_product;
use crate::number::{fraction_of, is_negative, whole};
use crate::program::{LpRow, Program};
use sm_frac::{Frac, RangePassed};

/// Whether a multiplier of the row is of any sign for an equality and at least 0 for any other row.
fn is_lawful(row: &LpRow, multiplier: Frac) -> bool
    ensures { IsTrue result ↔ (row.now.equal ≡ false → AtLeast (value_of multiplier)) }
{
    if row.equal {
        return true;
    }
    !is_negative(multiplier)
}

/// Whether there is a multiplier for each row, at least 0 but for equalities.
pub(crate) fn are_lawful(rows: &[LpRow], multipliers: &[Frac]) -> bool
    ensures { IsTrue result ↔ AreMultipliers rows.now (map value_of multipliers.now) }
{
    if rows.len() != multipliers.len() {
        return false;
    }
    for i in 0..rows.len() {
        if !is_lawful(&rows[i], multipliers[i]) {
            return false;
        }
    }
    true
}

/// Adds a row, times its multiplier, to the columns' sums.
fn add_terms(
    mut sums: Vec<Frac>,
    multiplier: Frac,
    terms: &[(u32, i64)],
) -> Result<Vec<Frac>, RangePassed>
    requires terms { All (IsTerm (vec_len sums)) terms.now }
    requires different { AllPairs (λ s t. s.0 ≢ t.0) terms.now }
    ensures long { IfOk result (λ v. vec_len v ≡ vec_len sums) }
    ensures exact { IfOk result (λ v. (j : ℕ) → number_at v.items j ≡ number_at sums.items j +ℚ value_of multiplier *ℚ coefficient terms.now j) }
    ensures fine { IfOk result (λ v. AreFine (IsRowTermsStep (vec_len sums) (number_at sums.items) (value_of multiplier) terms.now)) }
    ensures passed { IfErr result (λ e. PassesAt (IsRowTermsStep (vec_len sums) (number_at sums.items) (value_of multiplier) terms.now) e.op e.left e.right) }
{
    for i in 0..terms.len() {
        let (column, number) = terms[i];
        let place = column as usize;
        sums[place] = with_product(sums[place], multiplier, fraction_of(number))?;
    }
    Ok(sums)
}

/// Adds up the columns' products of multipliers and numbers, in one pass over the terms of the rows.
fn column_sums(
    mut sums: Vec<Frac>,
    rows: &[LpRow],
    multipliers: &[Frac],
) -> Result<Vec<Frac>, RangePassed>
    requires rows { All (IsProgramRow (vec_len sums)) rows.now }
    requires long { length multipliers.now ≡ length rows.now }
    requires zero { (j : ℕ) → number_at sums.items j ≡ zero_ℚ }
    ensures long { IfOk result (λ v. vec_len v ≡ vec_len sums) }
    ensures exact { IfOk result (λ v. (j : ℕ) → number_at v.items j ≡ combined_coefficient rows.now (map value_of multipliers.now) j) }
    ensures fine { IfOk result (λ v. AreFine (IsColumnsStep (vec_len sums) rows.now (map value_of multipliers.now))) }
    ensures passed { IfErr result (λ e. PassesAt (IsColumnsStep (vec_len sums) rows.now (map value_of multipliers.now)) e.op e.left e.right) }
{
    for i in 0..rows.len() {
        sums = add_terms(sums, multipliers[i], rows[i].terms.as_slice())?;
    }
    Ok(sums)
}

/// The target's coefficient of a column.
fn coefficient_of(target: &[i64], column: usize) -> Frac
    ensures { value_of result ≡ target_at target.now column }
{
    match target.get(column) {
        Some(number) => fraction_of(*number),
        None => fraction_of(0),
    }
}

/// What the columns' sums leave of the target's coefficients.
fn differences(mut sums: Vec<Frac>, target: &[i64]) -> Result<Vec<Frac>, RangePassed>
    ensures long { IfOk result (λ v. vec_len v ≡ vec_len sums) }
    ensures exact { IfOk result (λ v. (j : ℕ) → j < vec_len sums → number_at v.items j ≡ target_at target.now j -ℚ number_at sums.items j) }
    ensures fine { IfOk result (λ v. AreFine (IsDifferencesStep (vec_len sums) (target_at target.now) (number_at sums.items))) }
    ensures passed { IfErr result (λ e. PassesAt (IsDifferencesStep (vec_len sums) (target_at target.now) (number_at sums.items)) e.op e.left e.right) }
{
    for j in 0..sums.len() {
        sums[j] = coefficient_of(target, j).minus(sums[j])?;
    }
    Ok(sums)
}

/// The sum of the rows' bounds, each times its multiplier.
fn rows_bound(rows: &[LpRow], multipliers: &[Frac]) -> Result<Frac, RangePassed>
    requires small { All (λ row. unsigned_abs row.bound ≤ 2 ^ 80) rows.now }
    requires long { length multipliers.now ≡ length rows.now }
    ensures exact { IfOk result (λ f. value_of f ≡ combined_bound rows.now (map value_of multipliers.now)) }
    ensures fine { IfOk result (λ f. AreFine (IsRowsBoundStep rows.now (map value_of multipliers.now))) }
    ensures passed { IfErr result (λ e. PassesAt (IsRowsBoundStep rows.now (map value_of multipliers.now)) e.op e.left e.right) }
{
    let mut bound = fraction_of(0);
    for i in 0..rows.len() {
        bound = with_product(bound, multipliers[i], whole(rows[i].bound))?;
    }
    Ok(bound)
}

/// The bound with the constant, where the target has one.
pub(crate) fn add_constant(bound: Frac, constant: Option<i64>) -> Result<Frac, RangePassed>
    ensures exact { IfOk result (λ f. value_of f ≡ with_constant (value_of bound) constant) }
    ensures fine { IfOk result (λ f. AreFine (IsConstantStep (value_of bound) constant)) }
    ensures passed { IfErr result (λ e. PassesAt (IsConstantStep (value_of bound) constant) e.op e.left e.right) }
{
    match constant {
        Some(number) => bound.plus(fraction_of(number)),
        None => Ok(bound),
    }
}

/// The end of a column at which its product with the coefficient is least.
fn end_for(coefficient: Frac, ends: &(i64, i64)) -> Frac
    ensures { value_of result ≡ least_end (value_of coefficient) (whole_ℚ ends.now.0) (whole_ℚ ends.now.1) }
{
    if is_negative(coefficient) {
        fraction_of(ends.1)
    } else {
        fraction_of(ends.0)
    }
}

/// The bound with the least that a column can add.
fn with_end(bound: Frac, coefficient: Frac, ends: &(i64, i64)) -> Result<Frac, RangePassed>
    ensures exact { IfOk result (λ f. value_of f ≡ value_of bound +ℚ value_of coefficient *ℚ least_end (value_of coefficient) (whole_ℚ ends.now.0) (whole_ℚ ends.now.1)) }
    ensures fine { IfOk result (λ f. AreFine (IsEndStep (value_of bound) (value_of coefficient) (whole_ℚ ends.now.0) (whole_ℚ ends.now.1))) }
    ensures passed { IfErr result (λ e. PassesAt (IsEndStep (value_of bound) (value_of coefficient) (whole_ℚ ends.now.0) (whole_ℚ ends.now.1)) e.op e.left e.right) }
{
    if coefficient.n() == 0 {
        return Ok(bound);
    }
    with_product(bound, coefficient, end_for(coefficient, ends))
}

/// The bound with the least that the remaining coefficients can come to between the columns' ends.
fn with_ends(mut bound: Frac, program: &Program, rest: &[Frac]) -> Result<Frac, RangePassed>
    requires { length rest.now ≡ column_count program.now }
    ensures exact { IfOk result (λ f. value_of f ≡ value_of bound +ℚ least_rest program.now (number_at rest.now)) }
    ensures fine { IfOk result (λ f. AreFine (IsEndsStep program.now (value_of bound) (number_at rest.now))) }
    ensures passed { IfErr result (λ e. PassesAt (IsEndsStep program.now (value_of bound) (number_at rest.now)) e.op e.left e.right) }
{
    let columns = program.columns.as_slice();
    for j in 0..rest.len() {
        bound = with_end(bound, rest[j], &columns[j])?;
    }
    Ok(bound)
}

/// The bound that the multipliers give for a target: of each column its number in the list, or 0, and the constant.
pub(crate) fn multiplier_bound(
    blank: Vec<Frac>,
    program: &Program,
    target: &[i64],
    constant: Option<i64>,
    multipliers: &[Frac],
) -> Result<Frac, RangePassed>
    requires solvable { IsSolvable program.now }
    requires blank { vec_len blank ≡ column_count program.now }
    requires zero { (j : ℕ) → number_at blank.items j ≡ zero_ℚ }
    requires long { length multipliers.now ≡ length program.now.rows }
    ensures exact { IfOk result (λ b. value_of b ≡ with_constant (combined_bound program.now.rows (map value_of multipliers.now)) constant +ℚ least_rest program.now (rest_coefficient program.now (target_at target.now) (map value_of multipliers.now))) }
    ensures fine { IfOk result (λ b. AreFine (IsBoundStep program.now (target_at target.now) constant (map value_of multipliers.now))) }
    ensures passed { IfErr result (λ e. PassesAt (IsBoundStep program.now (target_at target.now) constant (map value_of multipliers.now)) e.op e.left e.right) }
{
    let rows = program.rows.as_slice();
    let sums = column_sums(blank, rows, multipliers)?;
    let rest = differences(sums, target)?;
    let of_rows = rows_bound(rows, multipliers)?;
    let bound = add_constant(of_rows, constant)?;
    with_ends(bound, program, &rest)
}
