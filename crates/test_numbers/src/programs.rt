//! Linear programs.
ghost use Rattle.sm_certificate.specs.Conditions.{IsSolvable};

use crate::input::Input;
use crate::output::Output;
use sm_certificate::{Checked, Program, Proposal, certify, is_solvable};
use sm_frac::gcd;
use sm_lp::{LpAnswer, solve_lp};
use sm_quick::propose;
use std::alloc::Global;

/// Puts the cost of a point in lowest terms.
fn put_cost(program: &Program, point: &[i128], denominator: i64, out: &mut Output) {
    let mut sum: i128 = 0;
    for (cost, value) in program.cost.as_slice().iter().zip(point) {
        sum = sum.wrapping_add((*cost as i128).wrapping_mul(*value));
    }
    let divisor = gcd(sum.unsigned_abs(), denominator.unsigned_abs() as u128);
    let divisor = i128::try_from(divisor).unwrap_or(1);
    out.next(sum.checked_div(divisor).unwrap_or(sum));
    out.text("/");
    let denominator = denominator as i128;
    out.whole(denominator.checked_div(divisor).unwrap_or(denominator));
}

/// Puts the least cost that a proposal says, or that there is no point.
fn put_least(program: &Program, proposal: &Proposal, out: &mut Output) {
    match proposal {
        Proposal::Optimal {
            denominator,
            point,
            ..
        } => put_cost(program, point, *denominator, out),
        Proposal::Infeasible { .. } => out.text(" infeasible"),
    }
}

/// Puts what the check finds of a proposal.
fn put_checked(
    alloc: Global,
    program: &Program,
    constant: i64,
    proposal: &Proposal,
    out: &mut Output,
)
    requires { IsSolvable program.now }
{
    match certify(alloc, program, constant, proposal) {
        Ok(Checked::Certified) => out.text(" certified"),
        Ok(Checked::Refuted) => out.text(" refuted"),
        Ok(Checked::Passed(passed)) => out.passed(passed),
        Err(_) => out.fail(),
    }
}

/// Puts an answer by its numbers: the basis, the denominator and the point, and the multipliers.
fn put_numbers(answer: &LpAnswer, out: &mut Output) {
    match answer {
        LpAnswer::Optimal {
            basis,
            denominator,
            point,
            multipliers,
        } => {
            put_basis(basis, out);
            out.text(" denominator");
            out.next(*denominator as i128);
            out.text(" point");
            for value in point {
                out.next(*value);
            }
            out.text(" multipliers");
            out.fractions(multipliers);
        }
        LpAnswer::Infeasible { basis, multipliers } => {
            put_basis(basis, out);
            out.text(" multipliers");
            out.fractions(multipliers);
        }
        LpAnswer::Passed { basis, passed } => {
            put_basis(basis, out);
            out.passed(*passed);
        }
    }
}

fn put_basis(basis: &[u32], out: &mut Output) {
    out.text(" basis");
    for number in basis {
        out.next(*number as i128);
    }
}

/// What an answer says without its basis, or None for a step that passed.
fn proposal_of(answer: LpAnswer) -> Option<Proposal> {
    match answer {
        LpAnswer::Optimal {
            denominator,
            point,
            multipliers,
            ..
        } => Some(Proposal::Optimal {
            denominator,
            point,
            multipliers,
        }),
        LpAnswer::Infeasible { multipliers, .. } => Some(Proposal::Infeasible { multipliers }),
        LpAnswer::Passed { .. } => None,
    }
}

/// Puts the least cost by the exact simplex, what the check finds of the answer, and where it is asked the answer's numbers.
fn put_path(alloc: Global, program: &Program, with_numbers: bool, out: &mut Output)
    requires { IsSolvable program.now }
{
    match solve_lp(alloc, program) {
        Ok(answer) => {
            if with_numbers {
                put_numbers(&answer, out);
            }
            if let Some(proposal) = proposal_of(answer) {
                put_least(program, &proposal, out);
                put_checked(alloc, program, 0, &proposal, out);
            }
        }
        Err(_) => out.fail(),
    }
}

/// Puts the least cost by the quick simplex, and what the check finds of the answer.
fn put_quick(alloc: Global, program: &Program, out: &mut Output)
    requires { IsSolvable program.now }
{
    match propose(alloc, program) {
        Ok(Some(proposal)) => {
            put_least(program, &proposal, out);
            put_checked(alloc, program, 0, &proposal, out);
        }
        Ok(None) => out.text(" none"),
        Err(_) => out.fail(),
    }
}

/// Puts whether the answer of the quick simplex is right, if there is one.
fn put_right(alloc: Global, program: &Program, out: &mut Output)
    requires { IsSolvable program.now }
{
    match propose(alloc, program) {
        Ok(Some(proposal)) => put_checked(alloc, program, 0, &proposal, out),
        Ok(None) => out.text(" certified"),
        Err(_) => out.fail(),
    }
}

/// Puts what is asked of a program that can be solved.
fn put_answer(name: &str, program: &Program, input: &mut Input<'_>, out: &mut Output)
    requires { IsSolvable program.now }
{
    let alloc = input.alloc();
    match name {
        "least" => {
            put_path(alloc, program, false, out);
            put_quick(alloc, program, out);
        }
        "path" => put_path(alloc, program, true, out),
        "quick" => put_quick(alloc, program, out),
        "right" => put_right(alloc, program, out),
        "pair" => {
            let constant = input.short();
            let proposal = Proposal::Optimal {
                denominator: input.short(),
                point: input.wholes(),
                multipliers: input.fractions(),
            };
            put_checked(alloc, program, constant, &proposal, out);
        }
        "contradiction" => {
            let multipliers = input.fractions();
            let proposal = Proposal::Infeasible { multipliers };
            put_checked(alloc, program, 0, &proposal, out);
        }
        _ => input.refuse(),
    }
}

/// Puts the title of a case, and what is asked of its program.
pub(crate) fn put_program(input: &mut Input<'_>, out: &mut Output) {
    let name = input.word();
    out.text(input.word());
    let program = input.program();
    if is_solvable(&program) {
        put_answer(name, &program, input, out);
    } else {
        out.text(" unsolvable");
    }
}
