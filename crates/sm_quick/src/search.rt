//! The search for the last basis.
ghost use Rattle.std.specs.Prelude.{◌≡◌, ◌≤◌, ◌<◌};
ghost use Rattle.sm_quick.specs.Shape.{IsSameShape};

use crate::choice::{entering_column, leaving_row};
use crate::pivot::pivot;
use crate::tableau::Tableau;
use crate::turn::turn_row;

/// Where the search ends.
#[derive(Clone, Copy)]
pub(crate) enum End {
    /// Every basic number is in its room.
    Optimal,
    /// The number of this row is below 0, whatever the nonbasic numbers are.
    Infeasible(usize),
}

/// What a step of the search finds.
#[derive(Clone, Copy)]
enum Step {
    End(End),
    Pivoted,
}

/// One step: the end, or the next pivot. None where a number passes the limit.
fn make_step(tableau: &mut Tableau) -> Option<Step>
    ensures { IsSameShape tableau.old tableau.new }
{
    let Some(leaving) = leaving_row(tableau) else {
        return Some(Step::End(End::Optimal));
    };
    if leaving.above {
        turn_row(tableau, leaving.row)?;
    }
    match entering_column(tableau, leaving.row) {
        Some(column) => {
            pivot(tableau, leaving.row, column)?;
            Some(Step::Pivoted)
        }
        None => Some(Step::End(End::Infeasible(leaving.row))),
    }
}

/// How many pivots are tried. The choice of rows and columns may cycle, and is never seen to need a sixth of these.
fn budget(tableau: &Tableau) -> usize {
    tableau
        .goal
        .saturating_add(tableau.constant)
        .saturating_mul(4)
        .saturating_add(100)
}

/// The dual simplex with bounded columns (V. Chvatal, "Linear Programming", 1983): the costs are never negative, and each
/// pivot brings one basic number into its room. None where it gives up.
pub(crate) fn search(tableau: &mut Tableau) -> Option<End>
    ensures { IsSameShape tableau.old tableau.new }
{
    for _ in 0..budget(tableau) {
        if let Step::End(end) = make_step(tableau)? {
            return Some(end);
        }
    }
    None
}
