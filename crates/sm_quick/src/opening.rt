//! The steps before the search.
ghost use Rattle.std.specs.Prelude.{◌≡◌, ◌≤◌, ◌<◌};
ghost use Rattle.sm_quick.specs.Shape.{IsSameShape};

use crate::pivot::pivot;
use crate::tableau::Tableau;
use crate::turn::{turn_column, turn_row};
use sm_certificate::{LpRow, Program};

/// Whether a column has a cost.
fn is_costly(program: &Program, column: u32) -> bool {
    program
        .cost
        .as_slice()
        .get(column as usize)
        .copied()
        .unwrap_or(0)
        != 0
}

/// The only column of a row that has a cost, or None where none has, or several have.
fn sole_cost(program: &Program, row: &LpRow) -> Option<usize> {
    let mut sole = None;
    for term in row.terms.as_slice() {
        if term.1 != 0 && is_costly(program, term.0) {
            if sole.is_some() {
                return None;
            }
            sole = Some(term.0 as usize);
        }
    }
    sole
}

/// Pivots at a row and a column, whose number may have left the column already.
fn open_row(tableau: &mut Tableau, row: usize, column: usize) -> Option<()>
    requires row { row < tableau.old.goal }
    requires column { column < tableau.old.constant }
    ensures { IsSameShape tableau.old tableau.new }
{
    let entry = tableau.at(row, column);
    if entry == 0 || tableau.nonbasic[column] != column {
        return Some(());
    }
    if entry < 0 {
        turn_row(tableau, row)?;
    }
    pivot(tableau, row, column)
}

/// Pivots at each equality that has one column of cost. A goal that a row defines leaves all costs but one at 0, and nearly
/// all steps would change no cost. After this pivot the columns of that row have costs.
pub(crate) fn open(tableau: &mut Tableau, program: &Program) -> Option<()>
    ensures { IsSameShape tableau.old tableau.new }
{
    let rows = program.rows.as_slice();
    for i in 0..rows.len() {
        let row = &rows[i];
        if row.equal
            && let Some(column) = sole_cost(program, row)
            && i < tableau.goal
            && column < tableau.constant
        {
            open_row(tableau, i, column)?;
        }
    }
    Some(())
}

/// Turns each column of negative cost, so that no cost is negative: every column has two ends, so no first phase is needed
/// (H. Wagner, "The dual simplex algorithm for bounded variables", 1958).
pub(crate) fn turn_costs(tableau: &mut Tableau) -> Option<()>
    ensures { IsSameShape tableau.old tableau.new }
{
    for j in 0..tableau.constant {
        let cost = tableau.at(tableau.goal, j);
        if cost < 0 && tableau.room(tableau.nonbasic[j]) != 0 {
            turn_column(tableau, j)?;
        }
    }
    Some(())
}
