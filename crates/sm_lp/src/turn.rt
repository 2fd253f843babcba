//! The next move by the rule of the least number (R. Bland, "New finite pivoting rules for the simplex method", 1977), which
//! here chooses among the columns and the rows alike (M. Avis and V. Chvatal, "Notes on Bland's pivoting rule", 1978).
ghost use Rattle.std.specs.Prelude.{◌≡◌, ℕ, ◌<◌, ◌≤◌, ◌+◌, MatchOption, Bool, true, false};
ghost use Rattle.sm_certificate.specs.Signs.{AtLeast, Below};
ghost use Rattle.sm_lp.specs.Moves.{IsMove, IsOptimal, IsInfeasible};
ghost use Rattle.sm_lp.specs.Table.{dictionary_of, IsLeaving, NoneLeaves, IsEntering, NoneEnters, HasSign, LacksSign};
ghost use Rattle.sm_lp.specs.Turn.{IsTurn, NeedsByRow, NeedsByColumn, HasLeaving};

use crate::table::Table;
use sm_certificate::{is_negative, is_positive};

/// What the rule says at a basis.
pub(crate) enum Turn {
    /// No number needs a move.
    Optimal,
    /// The number of this row needs a move, and none can enter for it.
    Infeasible(usize),
    /// The number of this row leaves and that of this column enters.
    Move(usize, usize),
}

/// The better of the row so far and the next.
fn better_row(table: &Table, column: usize, best: Option<usize>, next: usize) -> Option<usize>
    requires column { column ≤ table.now.constant }
    requires row { next < table.now.goal }
    requires best { MatchOption best (NoneLeaves (dictionary_of table.now) next column) (λ r. IsLeaving (dictionary_of table.now) next column r) }
    ensures { MatchOption result (NoneLeaves (dictionary_of table.now) (next + 1) column) (λ r. IsLeaving (dictionary_of table.now) (next + 1) column r) }
{
    if !is_negative(table.entry(next, column)) {
        return best;
    }
    match best {
        None => Some(next),
        Some(row) => {
            if table.basic(row) <= table.basic(next) {
                Some(row)
            } else {
                Some(next)
            }
        }
    }
}

/// The row of the least number whose entry in the column is negative.
fn leaving_row(table: &Table, column: usize) -> Option<usize>
    requires { column ≤ table.now.constant }
    ensures { MatchOption result (NoneLeaves (dictionary_of table.now) table.now.goal column) (λ r. IsLeaving (dictionary_of table.now) table.now.goal column r) }
{
    let mut best = None;
    for i in 0..table.goal {
        best = better_row(table, column, best, i);
    }
    best
}

/// Whether an entry has the sign.
fn has_sign(table: &Table, row: usize, column: usize, positive: bool) -> bool
    requires row { row ≤ table.now.goal }
    requires column { column ≤ table.now.constant }
    ensures yes { result ≡ true → HasSign positive ((dictionary_of table.now).entry row column) }
    ensures no { result ≡ false → LacksSign positive ((dictionary_of table.now).entry row column) }
{
    if positive {
        is_positive(table.entry(row, column))
    } else {
        is_negative(table.entry(row, column))
    }
}

/// The better of the column so far and the next.
fn better_column(
    table: &Table,
    row: usize,
    positive: bool,
    best: Option<usize>,
    next: usize,
) -> Option<usize>
    requires row { row ≤ table.now.goal }
    requires column { next < table.now.constant }
    requires best { MatchOption best (NoneEnters (dictionary_of table.now) next row positive) (λ c. IsEntering (dictionary_of table.now) next row positive c) }
    ensures { MatchOption result (NoneEnters (dictionary_of table.now) (next + 1) row positive) (λ c. IsEntering (dictionary_of table.now) (next + 1) row positive c) }
{
    if !has_sign(table, row, next, positive) {
        return best;
    }
    match best {
        None => Some(next),
        Some(column) => {
            if table.nonbasic(column) <= table.nonbasic(next) {
                Some(column)
            } else {
                Some(next)
            }
        }
    }
}

/// The column of the least number whose entry in the row has the sign.
fn entering_column(table: &Table, row: usize, positive: bool) -> Option<usize>
    requires { row ≤ table.now.goal }
    ensures { MatchOption result (NoneEnters (dictionary_of table.now) table.now.constant row positive) (λ c. IsEntering (dictionary_of table.now) table.now.constant row positive c) }
{
    let mut best = None;
    for j in 0..table.constant {
        best = better_column(table, row, positive, best, j);
    }
    best
}

/// The move where the number of this row needs one.
fn turn_of_row(table: &Table, row: usize) -> Turn
    requires least { NeedsByRow (dictionary_of table.now) table.now.constant table.now.goal row }
    ensures { IsTurn (dictionary_of table.now) table.now.constant table.now.goal result }
{
    match entering_column(table, row, true) {
        Some(column) => Turn::Move(row, column),
        None => Turn::Infeasible(row),
    }
}

/// The move where the number of this column needs one.
fn turn_of_column(table: &Table, column: usize) -> Turn
    requires least { NeedsByColumn (dictionary_of table.now) table.now.constant table.now.goal column }
    requires leaving { HasLeaving (dictionary_of table.now) table.now.constant table.now.goal }
    ensures { IsTurn (dictionary_of table.now) table.now.constant table.now.goal result }
{
    match leaving_row(table, column) {
        Some(row) => Turn::Move(row, column),
        None => unreachable!(),
    }
}

/// What the rule says at the table's basis: the least number that needs a move decides.
pub(crate) fn next_turn(table: &Table) -> Turn
    requires leaving { HasLeaving (dictionary_of table.now) table.now.constant table.now.goal }
    ensures { IsTurn (dictionary_of table.now) table.now.constant table.now.goal result }
{
    let row = leaving_row(table, table.constant);
    let column = entering_column(table, table.goal, false);
    match (row, column) {
        (None, None) => Turn::Optimal,
        (Some(row), None) => turn_of_row(table, row),
        (None, Some(column)) => turn_of_column(table, column),
        (Some(row), Some(column)) => {
            if table.basic(row) < table.nonbasic(column) {
                turn_of_row(table, row)
            } else {
                turn_of_column(table, column)
            }
        }
    }
}
