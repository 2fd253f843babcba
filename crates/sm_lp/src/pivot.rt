//! The dictionary after a move.
ghost use Rattle.std.specs.Prelude.{◌≡◌, ◌≢◌, ℕ, suc, ◌+◌, ◌*◌, ◌<◌, ◌≤◌, length, vec_len, IfOk, IfErr, slice_set, slice_index};
ghost use Rattle.sm_frac.specs.Frac.{value_of};
ghost use Rattle.sm_frac.specs.Rational.{neg_ℚ, zero_ℚ};
ghost use Rattle.sm_certificate.specs.Numbers.{number_at};
ghost use Rattle.sm_lp.specs.Steps.{dividend};
ghost use Rattle.sm_lp.specs.Table.{dictionary_of, IsEliminated, IsRowPassed, IsSubtracted, IsSubtractionPassed, IsRowSubtracted};
ghost use Rattle.sm_lp.specs.Moved.{AreQuotients, IsPassedMove, AreEliminated, IsSomeRowPassed, IsTurnedRow, IsPassedAt, IsMoved};

use crate::reading::cell_of;
use crate::table::Table;
use sm_certificate::OutOfMemory;
use sm_frac::{Frac, RangePassed};
use std::alloc::Global;

/// What a move made of a table.
#[derive(Drop)]
pub(crate) enum Moved {
    Turned(Table),
    /// The basic numbers before the move, and the step that passed.
    Passed(Vec<u32>, RangePassed),
}

/// The parts of a table, whose numbers may not fit its cells yet.
#[derive(Drop)]
struct Parts {
    goal: usize,
    constant: usize,
    cells: Vec<Frac>,
    basic: Vec<u32>,
    nonbasic: Vec<u32>,
}

/// What the row's entry is divided by in the end: in the entering column 1.
fn dividend_at(table: &Table, row: usize, column: usize, j: usize) -> Frac
    requires row { row ≤ table.now.goal }
    requires column { j ≤ table.now.constant }
    ensures { value_of result ≡ dividend (dictionary_of table.now) row column j }
{
    if j == column {
        Frac::whole(1)
    } else {
        table.entry(row, j)
    }
}

/// Fills in the quotients of a row by its entry in the entering column.
fn quotients_of(
    mut blank: Vec<Frac>,
    table: &Table,
    row: usize,
    column: usize,
) -> Result<Vec<Frac>, RangePassed>
    requires long { vec_len blank ≡ suc table.now.constant }
    requires row { row ≤ table.now.goal }
    requires column { column ≤ table.now.constant }
    requires some { (dictionary_of table.now).entry row column ≡ zero_ℚ → ⊥ }
    ensures quotients { IfOk result (λ q. AreQuotients (dictionary_of table.now) row column q.items) }
    ensures passed { IfErr result (λ e. IsPassedMove (dictionary_of table.now) row column e.op e.left e.right) }
{
    let divisor = table.entry(row, column);
    for j in 0..table.width() {
        blank[j] = dividend_at(table, row, column, j).over(divisor)?;
    }
    Ok(blank)
}

/// Takes a product from the fraction at a place. A product with 0 takes no work.
pub(crate) fn subtract_at(
    mut cells: Vec<Frac>,
    place: usize,
    factor: Frac,
    quotient: Frac,
) -> Result<Vec<Frac>, RangePassed>
    requires { place < vec_len cells }
    ensures subtracted { IfOk result (λ new. IsSubtracted cells.items new.items place (value_of factor) (value_of quotient)) }
    ensures passed { IfErr result (λ e. IsSubtractionPassed (number_at cells.items place) (value_of factor) (value_of quotient) e.op e.left e.right) }
{
    if quotient.n() == 0 {
        return Ok(cells);
    }
    let product = factor.times(quotient)?;
    let old = cell_of(&cells, place);
    cells[place] = old.minus(product)?;
    Ok(cells)
}

/// Takes the multiple of the quotients from a row that starts at a place, except in the entering column.
fn subtract_row(
    mut cells: Vec<Frac>,
    start: usize,
    factor: Frac,
    quotients: &[Frac],
    column: usize,
) -> Result<Vec<Frac>, RangePassed>
    requires inside { start + length quotients.now ≤ vec_len cells }
    requires factor { value_of factor ≡ number_at cells.items (start + column) }
    ensures row { IfOk result (λ new. IsRowSubtracted cells.items new.items (value_of factor) quotients.now start column) }
    ensures passed { IfErr result (λ e. IsRowPassed cells.items quotients.now start column e.op e.left e.right) }
{
    for j in 0..quotients.len() {
        if j != column {
            cells = subtract_at(cells, start + j, factor, cell_of(quotients, j))?;
        }
    }
    Ok(cells)
}

/// Eliminates the entering number from a row that starts at a place. A row with 0 in the entering column stays as it is.
fn eliminate_row(
    cells: Vec<Frac>,
    start: usize,
    quotients: &[Frac],
    column: usize,
) -> Result<Vec<Frac>, RangePassed>
    requires inside { start + length quotients.now ≤ vec_len cells }
    requires column { column < length quotients.now }
    ensures long { IfOk result (λ new. vec_len new ≡ vec_len cells) }
    ensures row { IfOk result (λ new. IsEliminated cells.items new.items quotients.now start column) }
    ensures passed { IfErr result (λ e. IsRowPassed cells.items quotients.now start column e.op e.left e.right) }
{
    let factor = cell_of(&cells, start + column);
    if factor.n() == 0 {
        return Ok(cells);
    }
    let mut cells = subtract_row(cells, start, factor, quotients, column)?;
    cells[start + column] = factor.times(cell_of(quotients, column))?;
    Ok(cells)
}

/// Eliminates the entering number from every row but the leaving one's.
fn eliminate_rows(
    mut cells: Vec<Frac>,
    height: usize,
    quotients: &[Frac],
    row: usize,
    column: usize,
) -> Result<Vec<Frac>, RangePassed>
    requires shape { vec_len cells ≡ height * length quotients.now }
    requires row { row < height }
    requires column { column < length quotients.now }
    ensures rows { IfOk result (λ new. AreEliminated cells.items new.items quotients.now height row column) }
    ensures passed { IfErr result (λ e. IsSomeRowPassed cells.items quotients.now height row column e.op e.left e.right) }
{
    for i in 0..height {
        if i != row {
            cells = eliminate_row(cells, i * quotients.len(), quotients, column)?;
        }
    }
    Ok(cells)
}

/// The number with the other sign, which is always in range.
pub(crate) fn turned(number: Frac) -> Frac
    ensures { value_of result ≡ neg_ℚ (value_of number) }
{
    match Frac::whole(0).minus(number) {
        Ok(turned) => turned,
        Err(_) => unreachable!(),
    }
}

/// The new entry of the leaving number's row.
fn own_entry(quotients: &[Frac], column: usize, j: usize) -> Frac
    requires { j < length quotients.now }
    ensures here { j ≡ column → value_of result ≡ number_at quotients.now column }
    ensures other { j ≢ column → value_of result ≡ neg_ℚ (number_at quotients.now j) }
{
    if j == column {
        cell_of(quotients, j)
    } else {
        turned(cell_of(quotients, j))
    }
}

/// Writes the leaving number's row: the quotients turned in sign, except in the entering column.
fn write_row(mut cells: Vec<Frac>, start: usize, quotients: &[Frac], column: usize) -> Vec<Frac>
    requires { start + length quotients.now ≤ vec_len cells }
    ensures { IsTurnedRow cells.items result.items quotients.now start column }
{
    for j in 0..quotients.len() {
        cells[start + j] = own_entry(quotients, column, j);
    }
    cells
}

/// The table of these cells, with the leaving number and the entering one exchanged.
fn exchanged(parts: Parts, row: usize, column: usize) -> Table
    requires shape { vec_len parts.cells ≡ suc parts.goal * suc parts.constant }
    requires rows { vec_len parts.basic ≡ suc parts.goal }
    requires columns { vec_len parts.nonbasic ≡ suc parts.constant }
    requires row { row ≤ parts.goal }
    requires column { column ≤ parts.constant }
    ensures sizes { (result.goal ≡ parts.goal) × (result.constant ≡ parts.constant) }
    ensures cells { result.cells ≡ parts.cells }
    ensures basic { result.basic.items ≡ slice_set parts.basic.items row (slice_index parts.nonbasic.items column) }
    ensures nonbasic { result.nonbasic.items ≡ slice_set parts.nonbasic.items column (slice_index parts.basic.items row) }
{
    let Parts {
        goal,
        constant,
        cells,
        mut basic,
        mut nonbasic,
    } = parts;
    let leaving = basic[row];
    basic[row] = nonbasic[column];
    nonbasic[column] = leaving;
    Table {
        goal,
        constant,
        cells,
        basic,
        nonbasic,
    }
}

/// The move with its quotients.
fn turned_table(table: Table, quotients: &[Frac], row: usize, column: usize) -> Moved
    requires row { row < table.goal }
    requires column { column < table.constant }
    requires quotients { AreQuotients (dictionary_of table) row column quotients.now }
    ensures { IsMoved table row column result }
{
    let height = table.height();
    let Table {
        goal,
        constant,
        cells,
        basic,
        nonbasic,
    } = table;
    match eliminate_rows(cells, height, quotients, row, column) {
        Ok(cells) => {
            let cells = write_row(cells, row * quotients.len(), quotients, column);
            let parts = Parts {
                goal,
                constant,
                cells,
                basic,
                nonbasic,
            };
            Moved::Turned(exchanged(parts, row, column))
        }
        Err(passed) => Moved::Passed(basic, passed),
    }
}

/// A step of the move passed.
fn passed_at(table: Table, passed: RangePassed) -> Moved
    ensures { IsPassedAt table passed result }
{
    let Table {
        goal: _,
        constant: _,
        cells: _,
        basic,
        nonbasic: _,
    } = table;
    Moved::Passed(basic, passed)
}

/// Makes the move: the number of the row leaves the basis and that of the column enters.
///
/// # Errors
///
/// `OutOfMemory`.
pub(crate) fn make_move(
    alloc: Global,
    table: Table,
    row: usize,
    column: usize,
) -> Result<Moved, OutOfMemory>
    requires row { row < table.goal }
    requires column { column < table.constant }
    requires some { (dictionary_of table).entry row column ≡ zero_ℚ → ⊥ }
    ensures { IfOk result (λ m. IsMoved table row column m) }
{
    let blank = vec![in alloc; Frac::whole(0); table.width()]?;
    match quotients_of(blank, &table, row, column) {
        Ok(quotients) => Ok(turned_table(table, &quotients, row, column)),
        Err(passed) => Ok(passed_at(table, passed)),
    }
}
