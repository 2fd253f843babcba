//! The answer at the end of the path.
ghost use Rattle.std.specs.Prelude.{◌≡◌, ◌≢◌, ℕ, ℤ, suc, pos, ◌+◌, ◌*◌, ◌<◌, ◌≤◌, ◌≤ℤ◌, ◌<ℤ◌, ◌^◌, ◌⊎◌, length, vec_len, IfOk, IfErr, IfSome, nat_lt, slice_index_or, unsigned_abs, map, if◌then◌else◌, ◌==◌, All, true};
ghost use Rattle.std.specs.Int.{◌∣◌};
ghost use Rattle.sm_frac.specs.Frac.{value_of};
ghost use Rattle.sm_frac.specs.Rational.{neg_ℚ, zero_ℚ, one_ℚ, ◌-ℚ◌, fraction};
ghost use Rattle.sm_certificate.specs.Numbers.{number_at};
ghost use Rattle.sm_lp.specs.Dictionary.{IsProper, value_at};
ghost use Rattle.sm_lp.specs.Rule.{place};
ghost use Rattle.sm_lp.specs.Moves.{IsOptimal, IsInfeasible};
ghost use Rattle.sm_certificate.specs.Conditions.{IsSolvable, IsBox};
ghost use Rattle.sm_certificate.specs.Program.{column_count, point_value};
ghost use Rattle.sm_certificate.specs.Slacks.{slack_count, number_count, halves, halves_of};
ghost use Rattle.sm_lp.specs.Steps.{constant_of};
ghost use Rattle.sm_lp.specs.Path.{numbers_below, IsOnPath};
ghost use Rattle.sm_lp.specs.Answer.{row_multipliers, EndsPath, IsRight, IsExact};
ghost use Rattle.sm_lp.specs.Table.{dictionary_of};
ghost use Rattle.sm_lp.specs.Ending.{AreValues, IsValuePassed, IsJoined, IsJoinPassed, IsCommon, IsCommonPassed, slack_of, multiplier_of, AreApart, AreBoxed};

use crate::answer::LpAnswer;
use crate::pivot::turned;
use crate::table::Table;
use sm_certificate::{LpRow, OutOfMemory, Program, halves_in};
use sm_frac::{Frac, RangePassed, lcm_52};
use std::alloc::{AllocError, Global};

/// The place of a number, or the length of the list.
fn place_of(numbers: &[u32], number: u32) -> usize
    ensures { result ≡ place (λ i. slice_index_or numbers.now i 0) number (length numbers.now) }
{
    for (i, x) in numbers.iter().enumerate() {
        if *x == number {
            return i;
        }
    }
    numbers.len()
}

/// The basic numbers below `count`, increasing.
pub(crate) fn basis_below(alloc: Global, basic: &[u32], count: u32) -> Result<Vec<u32>, AllocError>
    ensures { IfOk result (λ b. b.items ≡ numbers_below (λ y. nat_lt (place (λ i. slice_index_or basic.now i 0) y (length basic.now)) (length basic.now)) count) }
{
    let mut basis = Vec::new(alloc);
    for number in 0..count {
        if place_of(basic, number) < basic.len() {
            basis.push(number)?;
        }
    }
    Ok(basis)
}

/// The constant of a number: 0 where it is nonbasic.
fn constant_at(table: &Table, number: u32) -> Frac
    requires { IsProper (dictionary_of table.now) }
    ensures { value_of result ≡ constant_of (dictionary_of table.now) table.now.constant number }
{
    let row = place_of(&table.basic, number);
    if row <= table.goal {
        table.entry(row, table.constant)
    } else {
        Frac::whole(0)
    }
}

/// The coefficient of a number in a row: 0 where it is basic.
fn coefficient_at(table: &Table, row: usize, number: u32) -> Frac
    requires proper { IsProper (dictionary_of table.now) }
    requires row { row ≤ table.now.goal }
    ensures { value_of result ≡ value_at table.now.constant (dictionary_of table.now).nonbasic ((dictionary_of table.now).entry row) number zero_ℚ }
{
    let column = place_of(&table.nonbasic, number);
    if column < table.constant {
        table.entry(row, column)
    } else {
        Frac::whole(0)
    }
}

/// Fills in the columns' values at the point of the table.
fn column_values(
    mut values: Vec<Frac>,
    program: &Program,
    table: &Table,
) -> Result<Vec<Frac>, RangePassed>
    requires proper { IsProper (dictionary_of table.now) }
    requires long { vec_len values ≡ column_count program.now }
    requires constant { table.now.constant ≡ column_count program.now }
    requires small { column_count program.now < 2 ^ 32 }
    requires boxes { All IsBox program.now.columns }
    ensures values { IfOk result (λ v. AreValues program.now (dictionary_of table.now) v.items) }
    ensures passed { IfErr result (λ e. IsValuePassed program.now (dictionary_of table.now) e.op e.left e.right) }
{
    let columns = program.columns.as_slice();
    for j in 0..values.len() {
        values[j] = Frac::whole(columns[j].0).plus(constant_at(table, j as u32))?;
    }
    Ok(values)
}

/// The greatest denominator that a step may have.
const MOST: i128 = 1 << 52;

/// The least common multiple with one more denominator. One above 2^52 joins as 2^52 and then 2^52 - 1, so that the operands
/// of each step stay within 2^52; one of the two passes.
fn joined(common: i64, denominator: i128) -> Result<i64, RangePassed>
    requires common { (pos 1 ≤ℤ common) × (common ≤ℤ pos (2 ^ 52)) }
    requires denominator { pos 0 <ℤ denominator }
    ensures joined { IfOk result (λ r. IsJoined common denominator r) }
    ensures passed { IfErr result (λ e. IsJoinPassed (unsigned_abs common) (unsigned_abs denominator) e.op e.left e.right) }
{
    if denominator <= MOST {
        lcm_52(common, denominator as i64)
    } else {
        let common = lcm_52(common, 1 << 52)?;
        lcm_52(common, (1 << 52) - 1)
    }
}

/// The least common denominator.
fn common_denominator(values: &[Frac]) -> Result<i64, RangePassed>
    ensures common { IfOk result (λ r. IsCommon values.now r) }
    ensures passed { IfErr result (λ e. IsCommonPassed values.now e.op e.left e.right) }
{
    let mut common: i64 = 1;
    for j in 0..values.len() {
        common = joined(common, values[j].d())?;
    }
    Ok(common)
}

/// The numerator of a fraction over a multiple of its denominator.
fn numerator(value: Frac, common: i64) -> i128
    requires common { (pos 1 ≤ℤ common) × (common ≤ℤ pos (2 ^ 52)) }
    requires divides { unsigned_abs value.d ∣ unsigned_abs common }
    requires boxed { unsigned_abs value.n ≤ 2 ^ 31 * unsigned_abs value.d }
    ensures { fraction result (unsigned_abs common) ≡ value_of value }
{
    value.n() * (common as i128 / value.d())
}

/// The numerators over the common denominator.
fn numerators(alloc: Global, values: &[Frac], common: i64) -> Result<Vec<i128>, AllocError>
    requires common { IsCommon values.now common }
    requires boxed { AreBoxed values.now }
    ensures long { IfOk result (λ p. length p.items ≡ length values.now) }
    ensures exact { IfOk result (λ p. (j : ℕ) → j < length values.now → point_value p.items common j ≡ number_at values.now j) }
{
    let mut point = Vec::with_capacity(alloc, values.len())?;
    for value in values {
        point.push(numerator(*value, common))?;
    }
    Ok(point)
}

/// The multiplier of a slack by an infeasible row: its coefficient turned in sign, and 1 for the row's own number.
fn turned_multiplier(table: &Table, row: usize, slack: u32) -> Frac
    requires proper { IsProper (dictionary_of table.now) }
    requires row { row ≤ table.now.goal }
    ensures { value_of result ≡ (if (dictionary_of table.now).basic row == slack then one_ℚ else neg_ℚ (value_at table.now.constant (dictionary_of table.now).nonbasic ((dictionary_of table.now).entry row) slack zero_ℚ)) }
{
    if table.basic(row) == slack {
        Frac::whole(1)
    } else {
        turned(coefficient_at(table, row, slack))
    }
}

/// The multiplier of a slack at the end of the path: at an optimal basis its coefficient in the goal, else that by the
/// infeasible row.
fn slack_multiplier(table: &Table, infeasible: Option<usize>, slack: u32) -> Frac
    requires proper { IsProper (dictionary_of table.now) }
    requires row { IfSome infeasible (λ r. r ≤ table.now.goal) }
    ensures { value_of result ≡ slack_of table.now.constant table.now.goal (dictionary_of table.now) infeasible slack }
{
    match infeasible {
        None => coefficient_at(table, table.goal, slack),
        Some(row) => turned_multiplier(table, row, slack),
    }
}

/// The multiplier of an equality, of whose two halves one at least has the multiplier 0.
fn equal_multiplier(upper: Frac, lower: Frac) -> Frac
    requires { (value_of upper ≡ zero_ℚ) ⊎ (value_of lower ≡ zero_ℚ) }
    ensures { value_of result ≡ value_of upper -ℚ value_of lower }
{
    if upper.n() == 0 { turned(lower) } else { upper }
}

/// The multiplier of a row, whose first slack this is.
fn row_multiplier(table: &Table, infeasible: Option<usize>, row: &LpRow, slack: u32) -> Frac
    requires proper { IsProper (dictionary_of table.now) }
    requires row { IfSome infeasible (λ r. r ≤ table.now.goal) }
    requires small { slack + length (halves_of row.now) < 2 ^ 32 }
    requires apart { row.now.equal ≡ true → (slack_of table.now.constant table.now.goal (dictionary_of table.now) infeasible slack ≡ zero_ℚ) ⊎ (slack_of table.now.constant table.now.goal (dictionary_of table.now) infeasible (slack + 1) ≡ zero_ℚ) }
    ensures { value_of result ≡ multiplier_of row.now (slack_of table.now.constant table.now.goal (dictionary_of table.now) infeasible) slack }
{
    let upper = slack_multiplier(table, infeasible, slack);
    if row.equal {
        let lower = slack_multiplier(table, infeasible, slack + 1);
        equal_multiplier(upper, lower)
    } else {
        upper
    }
}

/// The multipliers of the rows.
fn row_multipliers(
    alloc: Global,
    rows: &[LpRow],
    table: &Table,
    infeasible: Option<usize>,
) -> Result<Vec<Frac>, AllocError>
    requires proper { IsProper (dictionary_of table.now) }
    requires row { IfSome infeasible (λ r. r ≤ table.now.goal) }
    requires small { table.now.constant + length (halves rows.now) < 2 ^ 32 }
    requires apart { AreApart rows.now (slack_of table.now.constant table.now.goal (dictionary_of table.now) infeasible) table.now.constant }
    ensures { IfOk result (λ m. map value_of m.items ≡ row_multipliers rows.now (slack_of table.now.constant table.now.goal (dictionary_of table.now) infeasible) table.now.constant) }
{
    let mut multipliers = Vec::new(alloc);
    let mut slack = table.constant as u32;
    for row in rows {
        multipliers.push(row_multiplier(table, infeasible, row, slack))?;
        slack += halves_in(row) as u32;
    }
    Ok(multipliers)
}

/// The answer at an optimal basis.
///
/// # Errors
///
/// `OutOfMemory`.
pub(crate) fn optimal_answer(
    alloc: Global,
    program: &Program,
    table: &Table,
) -> Result<LpAnswer, OutOfMemory>
    requires solvable { IsSolvable program.now }
    requires path { IsOnPath program.now (dictionary_of table.now) }
    requires goal { table.now.goal ≡ slack_count program.now }
    requires constant { table.now.constant ≡ column_count program.now }
    requires small { suc (number_count program.now) < 2 ^ 32 }
    requires optimal { IsOptimal (dictionary_of table.now) table.now.constant table.now.goal }
    ensures path { IfOk result (λ a. EndsPath program.now a) }
    ensures right { IfOk result (λ a. IsRight program.now a) }
    ensures exact { IfOk result (λ a. IsExact program.now a) }
{
    let basis = basis_below(alloc, &table.basic, table.basic(table.goal))?;
    let blank = vec![in alloc; Frac::whole(0); table.constant]?;
    let values = match column_values(blank, program, table) {
        Ok(values) => values,
        Err(passed) => return Ok(LpAnswer::Passed { basis, passed }),
    };
    match common_denominator(&values) {
        Ok(denominator) => {
            let point = numerators(alloc, &values, denominator)?;
            let multipliers = row_multipliers(alloc, program.rows.as_slice(), table, None)?;
            Ok(LpAnswer::Optimal {
                basis,
                denominator,
                point,
                multipliers,
            })
        }
        Err(passed) => Ok(LpAnswer::Passed { basis, passed }),
    }
}

/// The answer at an infeasible basis, whose row has no solution.
///
/// # Errors
///
/// `OutOfMemory`.
pub(crate) fn infeasible_answer(
    alloc: Global,
    program: &Program,
    table: &Table,
    row: usize,
) -> Result<LpAnswer, OutOfMemory>
    requires solvable { IsSolvable program.now }
    requires path { IsOnPath program.now (dictionary_of table.now) }
    requires goal { table.now.goal ≡ slack_count program.now }
    requires constant { table.now.constant ≡ column_count program.now }
    requires small { suc (number_count program.now) < 2 ^ 32 }
    requires infeasible { IsInfeasible (dictionary_of table.now) table.now.constant table.now.goal row }
    ensures path { IfOk result (λ a. EndsPath program.now a) }
    ensures right { IfOk result (λ a. IsRight program.now a) }
    ensures exact { IfOk result (λ a. IsExact program.now a) }
{
    let basis = basis_below(alloc, &table.basic, table.basic(table.goal))?;
    let multipliers = row_multipliers(alloc, program.rows.as_slice(), table, Some(row))?;
    Ok(LpAnswer::Infeasible { basis, multipliers })
}
