//! The first dictionary of a program.
ghost use Rattle.std.specs.Prelude.{◌≡◌, ◌≢◌, ℕ, ℤ, suc, ◌+◌, ◌*◌, ◌<◌, ◌≤◌, ◌^◌, length, vec_len, IfOk, IfSome, pos, ◌+ℤ◌, ◌*ℤ◌, unsigned_abs, slice_index_or, All, AllPairs, count_by, not, ◌==◌};
ghost use Rattle.sm_frac.specs.Frac.{value_of};
ghost use Rattle.sm_frac.specs.Rational.{neg_ℚ, zero_ℚ, whole_ℚ, ◌*ℚ◌, ◌-ℚ◌};
ghost use Rattle.sm_certificate.specs.Numbers.{number_at};
ghost use Rattle.sm_certificate.specs.Totals.{total};
ghost use Rattle.sm_certificate.specs.Program.{column_count, coefficient};
ghost use Rattle.sm_certificate.specs.Conditions.{IsSolvable, IsTerm, IsBox, IsProgramRow};
ghost use Rattle.sm_lp.specs.First.{first};
ghost use Rattle.sm_certificate.specs.Slacks.{halves, halves_of, half_count, slack_count, number_count};
ghost use Rattle.sm_lp.specs.Table.{dictionary_of};
ghost use Rattle.sm_lp.specs.Writing.{AreNumbers, IsSmall, shift_total, signed, IsRowWritten, AreHalvesWritten, AreRowsWritten, IsEndWritten, AreEndsWritten, IsZeroFrom, AreSizes, IsCounting, AreFirstCells};

use crate::table::Table;
use sm_certificate::{LpRow, OutOfMemory, Program, half_rows, halves_in, whole};
use sm_frac::Frac;
use std::alloc::{AllocError, Global};

/// How many numbers a program has.
#[derive(Clone, Copy)]
struct Sizes {
    columns: usize,
    halves: usize,
    /// The slacks, and so the row of the goal.
    slacks: usize,
    /// The columns and slacks, and so the number of the goal. The constant has the next.
    numbers: u32,
    /// The entries of the dictionary.
    area: usize,
}

/// The sizes.
fn sizes_of(program: &Program) -> Sizes
    requires { IsSolvable program.now }
    ensures { AreSizes program.now result }
{
    let columns = program.columns.len();
    let halves = match half_rows(program.rows.as_slice()) {
        Some(halves) => halves,
        None => unreachable!(),
    };
    let slacks = halves + columns;
    let numbers = (columns + slacks) as u32;
    let area = (slacks + 1) * (columns + 1);
    Sizes {
        columns,
        halves,
        slacks,
        numbers,
        area,
    }
}

/// The numbers that the terms give to the columns, 0 where none names one.
fn numbers_of(alloc: Global, columns: usize, terms: &[(u32, i64)]) -> Result<Vec<i64>, AllocError>
    requires terms { All (IsTerm columns) terms.now }
    requires different { AllPairs (λ s t. s.0 ≢ t.0) terms.now }
    ensures { IfOk result (λ n. AreNumbers columns terms.now n.items) }
{
    let mut numbers = vec![in alloc; 0; columns]?;
    for term in terms {
        numbers[term.0 as usize] = term.1;
    }
    Ok(numbers)
}

/// The sum with one more product.
fn with_product(shift: i128, number: i64, end: i64) -> i128
    requires shift { unsigned_abs shift ≤ 2 ^ 94 }
    requires number { unsigned_abs number ≤ 2 ^ 42 }
    requires end { unsigned_abs end ≤ 2 ^ 31 }
    ensures { result ≡ shift +ℤ number *ℤ end }
{
    let product = number as i128 * end as i128;
    shift + product
}

/// The sum of the numbers times the least ends of their columns.
fn shift_of(numbers: &[i64], columns: &[(i64, i64)]) -> i128
    requires long { length numbers.now ≡ length columns.now }
    requires small { All IsSmall numbers.now }
    requires boxes { All IsBox columns.now }
    requires few { count_by (λ (box : ℤ × ℤ). not (unsigned_abs box.0 == 0)) columns.now < 2 ^ 20 }
    ensures sum { whole_ℚ result ≡ shift_total numbers.now columns.now }
    ensures small { unsigned_abs result ≤ 2 ^ 93 }
{
    let mut shift: i128 = 0;
    for j in 0..columns.len() {
        shift = with_product(shift, numbers[j], columns[j].0);
    }
    shift
}

/// The number, turned in sign or not.
fn signed_number(number: i64, turned: bool) -> Frac
    requires { unsigned_abs number ≤ 2 ^ 42 }
    ensures { value_of result ≡ signed turned (whole_ℚ number) }
{
    if turned {
        whole(-(number as i128))
    } else {
        whole(number as i128)
    }
}

/// The constant, turned in sign or not.
fn signed_constant(constant: i128, turned: bool) -> Frac
    requires { unsigned_abs constant < 2 ^ 127 }
    ensures { value_of result ≡ signed turned (whole_ℚ constant) }
{
    if turned {
        whole(-constant)
    } else {
        whole(constant)
    }
}

/// Writes a row: the numbers and after them the constant, turned in sign or not.
fn write_row(
    mut cells: Vec<Frac>,
    start: usize,
    numbers: &[i64],
    constant: i128,
    turned: bool,
) -> Vec<Frac>
    requires inside { start + length numbers.now < vec_len cells }
    requires small { All IsSmall numbers.now }
    requires constant { unsigned_abs constant < 2 ^ 127 }
    ensures { IsRowWritten cells.items result.items start numbers.now constant turned }
{
    for j in 0..numbers.len() {
        cells[start + j] = signed_number(numbers[j], turned);
    }
    cells[start + numbers.len()] = signed_constant(constant, turned);
    cells
}

/// Writes the halves of a row from a place on.
fn write_halves_of(
    alloc: Global,
    cells: Vec<Frac>,
    start: usize,
    program: &Program,
    row: &LpRow,
) -> Result<Vec<Frac>, AllocError>
    requires solvable { IsSolvable program.now }
    requires row { IsProgramRow (column_count program.now) row.now }
    requires inside { start + length (halves_of row.now) * suc (column_count program.now) ≤ vec_len cells }
    ensures { IfOk result (λ new. AreHalvesWritten program.now row.now cells.items new.items start) }
{
    let columns = program.columns.as_slice();
    let numbers = numbers_of(alloc, columns.len(), row.terms.as_slice())?;
    let constant = shift_of(&numbers, columns) - row.bound;
    let cells = write_row(cells, start, &numbers, constant, false);
    if row.equal {
        let next = start + columns.len() + 1;
        return Ok(write_row(cells, next, &numbers, constant, true));
    }
    Ok(cells)
}

/// Writes the halves of all rows.
fn write_halves(
    alloc: Global,
    mut cells: Vec<Frac>,
    program: &Program,
) -> Result<Vec<Frac>, AllocError>
    requires solvable { IsSolvable program.now }
    requires inside { half_count program.now * suc (column_count program.now) ≤ vec_len cells }
    ensures { IfOk result (λ new. AreRowsWritten program.now cells.items new.items) }
{
    let width = program.columns.len() + 1;
    let mut half = 0;
    for row in program.rows.as_slice() {
        cells = write_halves_of(alloc, cells, half * width, program, row)?;
        half += halves_in(row);
    }
    Ok(cells)
}

/// Writes the row of a column's greatest end.
fn write_end(mut cells: Vec<Frac>, start: usize, column: usize, columns: &[(i64, i64)]) -> Vec<Frac>
    requires inside { start + length columns.now < vec_len cells }
    requires column { column < length columns.now }
    requires boxes { All IsBox columns.now }
    ensures { IsEndWritten cells.items result.items start column columns.now }
{
    let (least, greatest) = columns[column];
    cells[start + column] = Frac::whole(-1);
    cells[start + columns.len()] = Frac::whole(greatest - least);
    cells
}

/// Writes the rows of all columns' greatest ends.
fn write_ends(mut cells: Vec<Frac>, halves: usize, program: &Program) -> Vec<Frac>
    requires solvable { IsSolvable program.now }
    requires halves { halves ≡ half_count program.now }
    requires inside { slack_count program.now * suc (column_count program.now) ≤ vec_len cells }
    requires zero { IsZeroFrom cells.items (half_count program.now * suc (column_count program.now)) }
    ensures { AreEndsWritten program.now cells.items result.items }
{
    let columns = program.columns.as_slice();
    let width = columns.len() + 1;
    for k in 0..columns.len() {
        cells = write_end(cells, (halves + k) * width, k, columns);
    }
    cells
}

/// The numbers from the first on, up to the last.
fn numbers_from(alloc: Global, first: u32, last: u32) -> Result<Vec<u32>, AllocError>
    requires order { first ≤ last }
    requires small { suc last < 2 ^ 32 }
    ensures { IfOk result (λ n. IsCounting n.items first last) }
{
    let mut numbers = Vec::new(alloc);
    for number in first..last + 1 {
        numbers.push(number)?;
    }
    Ok(numbers)
}

/// The cells of the first dictionary.
fn first_cells(alloc: Global, program: &Program, sizes: Sizes) -> Result<Vec<Frac>, AllocError>
    requires solvable { IsSolvable program.now }
    requires sizes { AreSizes program.now sizes }
    ensures { IfOk result (λ cells. AreFirstCells program.now cells.items) }
{
    let blank = vec![in alloc; Frac::whole(0); sizes.area]?;
    let cells = write_halves(alloc, blank, program)?;
    let cells = write_ends(cells, sizes.halves, program);
    let costs = program.cost.as_slice();
    let shift = shift_of(costs, program.columns.as_slice());
    let start = sizes.slacks * (sizes.columns + 1);
    Ok(write_row(cells, start, costs, shift, false))
}

/// The table of the first dictionary.
///
/// # Errors
///
/// `OutOfMemory`.
pub(crate) fn first_table(alloc: Global, program: &Program) -> Result<Table, OutOfMemory>
    requires { IsSolvable program.now }
    ensures first { IfOk result (λ t. dictionary_of t ≡ first program.now) }
    ensures goal { IfOk result (λ t. t.goal ≡ slack_count program.now) }
    ensures constant { IfOk result (λ t. t.constant ≡ column_count program.now) }
    ensures small { IfOk result (λ _. suc (number_count program.now) < 2 ^ 32) }
{
    let sizes = sizes_of(program);
    let cells = first_cells(alloc, program, sizes)?;
    let basic = numbers_from(alloc, sizes.columns as u32, sizes.numbers)?;
    let mut nonbasic = numbers_from(alloc, 0, sizes.columns as u32)?;
    nonbasic[sizes.columns] = sizes.numbers + 1;
    Ok(Table {
        goal: sizes.slacks,
        constant: sizes.columns,
        cells,
        basic,
        nonbasic,
    })
}
