//! The proposal of an answer.
ghost use Rattle.std.specs.Prelude.{IfOk, IfSome};
ghost use Rattle.sm_certificate.specs.Conditions.{IsSolvable};
ghost use Rattle.sm_certificate.specs.Certificate.{IsCertificate, IsProven};

use crate::build::first_tableau;
use crate::opening::{open, turn_costs};
use crate::reading::{infeasible_proposal, optimal_proposal};
use crate::search::{End, search};
use crate::tableau::Tableau;
use sm_certificate::{Checked, OutOfMemory, Program, Proposal, certify};
use std::alloc::Global;

/// Where the simplex ends, or None where it gives up.
fn end_of(tableau: &mut Tableau, program: &Program) -> Option<End> {
    open(tableau, program)?;
    turn_costs(tableau)?;
    search(tableau)
}

/// A proposal of which nothing is known yet, or None where the simplex gives up.
fn unchecked(alloc: Global, program: &Program) -> Result<Option<Proposal>, OutOfMemory> {
    let Some(mut tableau) = first_tableau(alloc, program)? else {
        return Ok(None);
    };
    match end_of(&mut tableau, program) {
        Some(End::Optimal) => optimal_proposal(alloc, program, &tableau),
        Some(End::Infeasible(row)) => infeasible_proposal(alloc, program, &tableau, row),
        None => Ok(None),
    }
}

/// The proposal, if its own numbers show that it is right.
fn certified(
    alloc: Global,
    program: &Program,
    proposal: Proposal,
) -> Result<Option<Proposal>, OutOfMemory>
    requires { IsSolvable program.now }
    ensures certified { IfOk result (λ o. IfSome o (λ p. IsCertificate program.now p)) }
    ensures proven { IfOk result (λ o. IfSome o (λ p. IsProven program.now p)) }
{
    match certify(alloc, program, 0, &proposal)? {
        Checked::Certified => Ok(Some(proposal)),
        Checked::Refuted | Checked::Passed(_) => Ok(None),
    }
}

/// Proposes an answer to a linear program, found by a quick simplex in numbers of 64 bits. The proposal's own numbers show
/// that it is right: that its point costs least, or that there is no point.
///
/// None says nothing of the program. It comes where the simplex gives up, since a number passes the range of its short
/// arithmetic, the common denominator of the point is above 2^52, or there were four pivots for each row and column and a
/// hundred more, and where a step of the check, with the constant 0, is out of the range of fractions. The exact simplex
/// then decides.
///
/// # Errors
///
/// `OutOfMemory`.
pub fn propose(alloc: Global, program: &Program) -> Result<Option<Proposal>, OutOfMemory>
    requires { IsSolvable program.now }
    ensures certified { IfOk result (λ o. IfSome o (λ p. IsCertificate program.now p)) }
    ensures proven { IfOk result (λ o. IfSome o (λ p. IsProven program.now p)) }
{
    match unchecked(alloc, program)? {
        Some(proposal) => certified(alloc, program, proposal),
        None => Ok(None),
    }
}
