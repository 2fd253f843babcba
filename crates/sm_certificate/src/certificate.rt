//! The check of a proposed answer.
ghost use Rattle.std.specs.Prelude.{◌≡◌, ◌↔◌, ℕ, Option, Some, None, IsTrue, IfOk, IfErr, length, map, vec_len};
ghost use Rattle.sm_frac.specs.declared.operation.RangePassed.{RangePassed};
ghost use Rattle.sm_frac.specs.Frac.{value_of};
ghost use Rattle.sm_frac.specs.Rational.{zero_ℚ};
ghost use Rattle.sm_certificate.specs.declared.proposal.Checked.TheVariants.{Certified};
ghost use Rattle.sm_certificate.specs.Numbers.{number_at};
ghost use Rattle.sm_certificate.specs.Conditions.{IsSolvable};
ghost use Rattle.sm_certificate.specs.Program.{column_count, cost};
ghost use Rattle.sm_certificate.specs.Certificate.{IsOptimalPair, ShowsNoPoint, IsCertificate, IsProven};
ghost use Rattle.sm_certificate.specs.Checking.{PassesAt, NonePasses, Finds, IsBoxed, IsTight, IsBoundStep, IsPairStep, IsCombinationStep, IsCheckStep};

use crate::combination::{are_lawful, multiplier_bound};
use crate::feasible::{cost_at, is_boxed, rows_hold};
use crate::number::{fraction_of, is_positive};
use crate::program::{OutOfMemory, Program};
use crate::proposal::{Checked, Proposal};
use sm_frac::{Frac, RangePassed};
use std::alloc::{AllocError, Global};
use std::cmp::Ordering;

/// A zero for each column.
fn zeros(alloc: Global, program: &Program) -> Result<Vec<Frac>, AllocError>
    ensures long { IfOk result (λ v. vec_len v ≡ column_count program.now) }
    ensures zero { IfOk result (λ v. (j : ℕ) → number_at v.items j ≡ zero_ℚ) }
{
    let zeros = vec![in alloc; fraction_of(0); program.columns.len()]?;
    Ok(zeros)
}

/// Whether the rows hold at a point between the columns' ends, and its cost with the constant is what the multipliers give as
/// a bound.
fn is_tight(
    blank: Vec<Frac>,
    program: &Program,
    constant: i64,
    denominator: i64,
    point: &[i128],
    multipliers: &[Frac],
) -> Result<bool, RangePassed>
    requires solvable { IsSolvable program.now }
    requires boxed { IsBoxed program.now denominator point.now }
    requires blank { vec_len blank ≡ column_count program.now }
    requires zero { (j : ℕ) → number_at blank.items j ≡ zero_ℚ }
    requires long { length multipliers.now ≡ length program.now.rows }
    ensures tight { IfOk result (λ b. IsTrue b ↔ IsTight program.now denominator point.now (map value_of multipliers.now)) }
    ensures none_passes { IfOk result (λ b. IsTrue b → NonePasses (IsBoundStep program.now (cost program.now) (Some constant) (map value_of multipliers.now))) }
    ensures passed { IfErr result (λ e. PassesAt (IsPairStep program.now constant denominator point.now (map value_of multipliers.now)) e.op e.left e.right) }
{
    if !rows_hold(program.rows.as_slice(), point, denominator)? {
        return Ok(false);
    }
    let value = cost_at(program, constant, point, denominator)?;
    let costs = program.cost.as_slice();
    let bound = multiplier_bound(blank, program, costs, Some(constant), multipliers)?;
    match value.compare(bound) {
        Ordering::Equal => Ok(true),
        _ => Ok(false),
    }
}

/// Checks a point of least cost.
fn check_pair(
    alloc: Global,
    program: &Program,
    constant: i64,
    denominator: i64,
    point: &[i128],
    multipliers: &[Frac],
) -> Result<Checked, OutOfMemory>
    requires { IsSolvable program.now }
    ensures found { IfOk result (λ c. Finds (IsOptimalPair program.now denominator point.now (map value_of multipliers.now)) (IsPairStep program.now constant denominator point.now (map value_of multipliers.now)) c) }
    ensures none_passes { IfOk result (λ c. c ≡ Certified → NonePasses (IsBoundStep program.now (cost program.now) (Some constant) (map value_of multipliers.now))) }
{
    if !is_boxed(program, denominator, point) {
        return Ok(Checked::Refuted);
    }
    if !are_lawful(program.rows.as_slice(), multipliers) {
        return Ok(Checked::Refuted);
    }
    let blank = zeros(alloc, program)?;
    match is_tight(blank, program, constant, denominator, point, multipliers) {
        Ok(true) => Ok(Checked::Certified),
        Ok(false) => Ok(Checked::Refuted),
        Err(passed) => Ok(Checked::Passed(passed)),
    }
}

/// Checks that no point satisfies the program.
fn check_no_point(
    alloc: Global,
    program: &Program,
    multipliers: &[Frac],
) -> Result<Checked, OutOfMemory>
    requires { IsSolvable program.now }
    ensures found { IfOk result (λ c. Finds (ShowsNoPoint program.now (map value_of multipliers.now)) (IsBoundStep program.now (λ _. zero_ℚ) None (map value_of multipliers.now)) c) }
    ensures none_passes { IfOk result (λ c. c ≡ Certified → NonePasses (IsBoundStep program.now (λ _. zero_ℚ) None (map value_of multipliers.now))) }
{
    if !are_lawful(program.rows.as_slice(), multipliers) {
        return Ok(Checked::Refuted);
    }
    let blank = zeros(alloc, program)?;
    match multiplier_bound(blank, program, &[], None, multipliers) {
        Ok(bound) => {
            if is_positive(bound) {
                Ok(Checked::Certified)
            } else {
                Ok(Checked::Refuted)
            }
        }
        Err(passed) => Ok(Checked::Passed(passed)),
    }
}

/// Checks a proposed answer by its own numbers. `Certified` comes exactly where these show that the answer is right, unless a
/// step of the check passes the range of fractions: then the answer is `Passed`, with such a step, and nothing is said of
/// the proposal. Where the answer is `Certified`, no step of the combination passes.
///
/// The constant belongs to the cost: the cost of a point with the constant is compared with the bound that the multipliers
/// give with the constant. It changes no answer but by the steps that it takes.
///
/// The check takes one pass over the terms of the rows for the point and one for the combination. It allocates one number
/// for each column.
///
/// # Errors
///
/// `OutOfMemory`.
pub fn certify(
    alloc: Global,
    program: &Program,
    constant: i64,
    proposal: &Proposal,
) -> Result<Checked, OutOfMemory>
    requires { IsSolvable program.now }
    ensures certified { IfOk result (λ c. c ≡ Checked.Certified → IsCertificate program.now proposal.now) }
    ensures proven { IfOk result (λ c. c ≡ Checked.Certified → IsProven program.now proposal.now) }
    ensures none_passes { IfOk result (λ c. c ≡ Checked.Certified → NonePasses (IsCombinationStep program.now constant proposal.now)) }
    ensures refuted { IfOk result (λ c. c ≡ Checked.Refuted → IsCertificate program.now proposal.now → ⊥) }
    ensures passed { IfOk result (λ c. (e : RangePassed) → c ≡ Checked.Passed e → PassesAt (IsCheckStep program.now constant proposal.now) e.op e.left e.right) }
{
    match proposal {
        Proposal::Optimal {
            denominator,
            point,
            multipliers,
        } => check_pair(alloc, program, constant, *denominator, point, multipliers),
        Proposal::Infeasible { multipliers } => check_no_point(alloc, program, multipliers),
    }
}
