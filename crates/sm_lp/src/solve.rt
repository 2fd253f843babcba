//! The exact simplex.
ghost use Rattle.std.specs.Prelude.{◌≡◌, IfOk};
ghost use Rattle.sm_certificate.specs.Conditions.{IsSolvable};
ghost use Rattle.sm_lp.specs.Answer.{EndsPath, IsRight, IsExact};

use crate::answer::LpAnswer;
use crate::ending::{basis_below, infeasible_answer, optimal_answer};
use crate::first::first_table;
use crate::pivot::{Moved, make_move};
use crate::turn::{Turn, next_turn};
use sm_certificate::{OutOfMemory, Program};
use std::alloc::Global;

/// Solves a linear program by the exact simplex in dictionaries, by the rule of the least number, on which no basis comes
/// twice. So it returns for every program, and there is no budget of moves.
///
/// `Optimal` has a point of least cost, `Infeasible` multipliers that show that there is no point. `Passed` comes where a basis
/// on the path has a step out of the range of fractions, and names the first such basis and one such step.
///
/// # Errors
///
/// `OutOfMemory`.
pub fn solve_lp(alloc: Global, program: &Program) -> Result<LpAnswer, OutOfMemory>
    requires { IsSolvable program.now }
    ensures path { IfOk result (λ a. EndsPath program.now a) }
    ensures right { IfOk result (λ a. IsRight program.now a) }
    ensures exact { IfOk result (λ a. IsExact program.now a) }
{
    let mut table = first_table(alloc, program)?;
    loop {
        match next_turn(&table) {
            Turn::Optimal => return optimal_answer(alloc, program, &table),
            Turn::Infeasible(row) => return infeasible_answer(alloc, program, &table, row),
            Turn::Move(row, column) => {
                let count = table.basic(table.goal);
                match make_move(alloc, table, row, column)? {
                    Moved::Turned(next) => table = next,
                    Moved::Passed(basic, passed) => {
                        let basis = basis_below(alloc, &basic, count)?;
                        return Ok(LpAnswer::Passed { basis, passed });
                    }
                }
            }
        }
    }
}
