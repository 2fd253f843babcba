//! The first dictionary of a program, in which all slacks are basic.
ghost use Rattle.std.specs.Prelude.{◌≡◌, ◌≤◌, ◌+◌, length, vec_len, IfOk};

use crate::number::narrowed;
use crate::tableau::{ENDLESS, Entry, Tableau};
use sm_certificate::{LpRow, OutOfMemory, Program};
use std::alloc::{AllocError, Global};

/// Writes the coefficients of a row into a row of zeros.
fn write_terms(numbers: &mut [i64], terms: &[(u32, i64)])
    ensures { length numbers.new ≡ length numbers.old }
{
    for term in terms {
        let column = term.0 as usize;
        if column < numbers.len() {
            numbers[column] = term.1;
        }
    }
}

/// The product with a term added to a sum, unless it passes 128 bits.
fn with_term(sum: i128, term: &(u32, i64), columns: &[(i64, i64)]) -> Option<i128> {
    let (least, _) = columns.get(term.0 as usize).copied().unwrap_or((0, 0));
    sum.checked_add((term.1 as i128).checked_mul(least as i128)?)
}

/// The row at the least ends of all columns, less its bound.
fn constant_of(row: &LpRow, columns: &[(i64, i64)]) -> Option<i64> {
    let mut sum: i128 = 0;
    for term in row.terms.as_slice() {
        sum = with_term(sum, term, columns)?;
    }
    narrowed(sum.checked_sub(row.bound)?)
}

/// Writes a row of the program: its slack as a sum of the columns, and the constant.
fn write_row(numbers: &mut [i64], row: &LpRow, columns: &[(i64, i64)]) -> Option<()>
    ensures { length numbers.new ≡ length numbers.old }
{
    write_terms(numbers, row.terms.as_slice());
    let constant = constant_of(row, columns)?;
    let count = columns.len();
    if count < numbers.len() {
        numbers[count] = constant;
    }
    Some(())
}

/// Writes the goal. Its constant changes no choice, so it is left at 0.
fn write_goal(numbers: &mut [i64], cost: &[i64])
    ensures { length numbers.new ≡ length numbers.old }
{
    for j in 0..cost.len() {
        if j < numbers.len() {
            numbers[j] = cost[j];
        }
    }
}

/// The room of each column and then of each slack.
fn rooms_of(alloc: Global, program: &Program) -> Result<Vec<i64>, AllocError> {
    let mut rooms = Vec::new(alloc);
    for (least, greatest) in program.columns.as_slice() {
        rooms.push(greatest.saturating_sub(*least))?;
    }
    for row in program.rows.as_slice() {
        rooms.push(if row.equal { 0 } else { ENDLESS })?;
    }
    Ok(rooms)
}

/// The numbers from the first on.
fn numbers_from(alloc: Global, first: usize, count: usize) -> Result<Vec<usize>, AllocError>
    ensures { IfOk result (λ v. vec_len v ≡ count) }
{
    let mut numbers = vec![in alloc; 0; count]?;
    for k in 0..count {
        numbers[k] = first.saturating_add(k);
    }
    Ok(numbers)
}

/// A tableau of zeros over 1, or None where it has more numbers than a `usize` counts.
fn blank_tableau(
    alloc: Global,
    goal: usize,
    constant: usize,
    rooms: Vec<i64>,
) -> Result<Option<Tableau>, AllocError> {
    let (Some(height), Some(width)) = (goal.checked_add(1), constant.checked_add(1)) else {
        return Ok(None);
    };
    let Some(area) = height.checked_mul(width) else {
        return Ok(None);
    };
    let turned = vec![in alloc; false; rooms.len()]?;
    Ok(Some(Tableau {
        goal,
        constant,
        cells: vec![in alloc; 0; area]?,
        denominators: vec![in alloc; 1; height]?,
        sizes: vec![in alloc; 1; height]?,
        basic: numbers_from(alloc, constant, goal)?,
        nonbasic: numbers_from(alloc, 0, constant)?,
        rooms,
        turned,
        lead: Vec::with_capacity(alloc, width)?,
        wide: vec![in alloc; 0; width]?,
    }))
}

/// Writes the rows of the program, and then the goal.
fn write_rows(tableau: &mut Tableau, program: &Program) -> Option<()> {
    let columns = program.columns.as_slice();
    let rows = program.rows.as_slice();
    for i in 0..rows.len() {
        if i < tableau.goal {
            let start = tableau.start(i);
            let end = start + tableau.width();
            let numbers = &mut tableau.cells[start..end];
            write_row(numbers, &rows[i], columns)?;
            tableau.measure(i);
        }
    }
    let goal = tableau.goal;
    let start = tableau.start(goal);
    let end = start + tableau.width();
    write_goal(&mut tableau.cells[start..end], program.cost.as_slice());
    tableau.measure(goal);
    Some(())
}

/// The first dictionary, or None where a number of it is above the limit of short arithmetic.
pub(crate) fn first_tableau(
    alloc: Global,
    program: &Program,
) -> Result<Option<Tableau>, OutOfMemory> {
    let rooms = rooms_of(alloc, program)?;
    let blank = blank_tableau(alloc, program.rows.len(), program.columns.len(), rooms)?;
    match blank {
        Some(mut tableau) => match write_rows(&mut tableau, program) {
            Some(()) => Ok(Some(tableau)),
            None => Ok(None),
        },
        None => Ok(None),
    }
}
