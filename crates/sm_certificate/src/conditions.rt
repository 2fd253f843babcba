//! Which programs can be solved.
ghost use Rattle.std.specs.Prelude.{◌≡◌, ◌≢◌, ◌≤◌, ◌<◌, ◌+◌, ◌^◌, ◌↔◌, ℕ, IsTrue, All, AllPairs, length, unsigned_abs, count_by, not, ◌==◌, suc, MatchOption};
ghost use Rattle.sm_certificate.specs.Slacks.{halves, halves_of, number_count};
ghost use Rattle.sm_certificate.specs.Conditions.{IsSolvable, AreColumns, IsBox, IsTerm, IsProgramRow, HasColumn, LacksColumn};

use crate::program::{LpRow, Program};

/// Whether the ends are in order and within 2^31.
fn is_box(ends: &(i64, i64)) -> bool
    ensures { IsTrue result ↔ IsBox ends.now }
{
    ends.0 <= ends.1 && ends.0.unsigned_abs() <= 1 << 31 && ends.1.unsigned_abs() <= 1 << 31
}

/// Whether the term names one of the columns, with a number within 2^42.
fn is_term(columns: usize, term: &(u32, i64)) -> bool
    ensures { IsTrue result ↔ IsTerm columns term.now }
{
    (term.0 as usize) < columns && term.1.unsigned_abs() <= 1 << 42
}

/// The place, among the first so many terms, of one that names the column.
fn place_of_column(terms: &[(u32, i64)], count: usize, column: u32) -> Option<usize>
    requires { count ≤ length terms.now }
    ensures { MatchOption result (LacksColumn terms.now count column) (λ k. HasColumn terms.now count column k) }
{
    for i in 0..count {
        if terms[i].0 == column {
            return Some(i);
        }
    }
    None
}

/// Whether no column is named twice.
fn are_different(terms: &[(u32, i64)]) -> bool
    ensures { IsTrue result ↔ AllPairs (λ s t. s.0 ≢ t.0) terms.now }
{
    for j in 0..terms.len() {
        if let Some(_) = place_of_column(terms, j, terms[j].0) {
            return false;
        }
    }
    true
}

/// Whether the terms name different ones of the columns.
fn are_terms(columns: usize, terms: &[(u32, i64)]) -> bool
    ensures { IsTrue result ↔ (All (IsTerm columns) terms.now × AllPairs (λ s t. s.0 ≢ t.0) terms.now) }
{
    terms.iter().all(|term| is_term(columns, term)) && are_different(terms)
}

fn is_row(columns: usize, row: &LpRow) -> bool
    ensures { IsTrue result ↔ IsProgramRow columns row.now }
{
    are_terms(columns, row.terms.as_slice()) && row.bound.unsigned_abs() <= 1 << 80
}

/// How many columns have a least end other than 0.
fn shifted(columns: &[(i64, i64)]) -> usize
    ensures { result ≡ count_by (λ box. not (unsigned_abs box.0 == 0)) columns.now }
{
    columns.iter().filter(|ends| ends.0 != 0).count()
}

fn are_boxes(columns: &[(i64, i64)]) -> bool
    ensures { IsTrue result ↔ All IsBox columns.now }
{
    columns.iter().all(is_box)
}

fn are_rows(columns: usize, rows: &[LpRow]) -> bool
    ensures { IsTrue result ↔ All (IsProgramRow columns) rows.now }
{
    rows.iter().all(|row| is_row(columns, row))
}

fn are_small(costs: &[i64]) -> bool
    ensures { IsTrue result ↔ All (λ c. unsigned_abs c ≤ 2 ^ 42) costs.now }
{
    costs.iter().all(|cost| cost.unsigned_abs() <= 1 << 42)
}

/// How many halves a row has.
pub fn halves_in(row: &LpRow) -> usize
    ensures count { result ≡ length (halves_of row.now) }
    ensures small { result ≤ 2 }
{
    if row.equal { 2 } else { 1 }
}

/// How many halves there are, or None where a `usize` can't say it.
pub fn half_rows(rows: &[LpRow]) -> Option<usize>
    ensures { MatchOption result (2 ^ 64 ≤ length (halves rows.now)) (λ n. n ≡ length (halves rows.now)) }
{
    let mut count: usize = 0;
    for row in rows {
        let Some(next) = count.checked_add(halves_in(row)) else {
            return None;
        };
        count = next;
    }
    Some(count)
}

/// Whether 32 bits number the columns, the slacks, the goal and the constant.
fn is_numbered(program: &Program) -> bool
    ensures { IsTrue result ↔ (suc (number_count program.now) < 2 ^ 32) }
{
    let columns = program.columns.len() as u128;
    match half_rows(program.rows.as_slice()) {
        Some(halves) => columns + (halves as u128 + columns) < u32::MAX as u128,
        None => false,
    }
}

/// Whether there is a cost for each column, and the columns' ends and costs are small.
fn are_columns(columns: &[(i64, i64)], costs: &[i64]) -> bool
    ensures { IsTrue result ↔ AreColumns columns.now costs.now }
{
    costs.len() == columns.len()
        && are_boxes(columns)
        && are_small(costs)
        && shifted(columns) < 1 << 20
}

/// Whether a program can be solved, and an answer to it checked.
pub fn is_solvable(program: &Program) -> bool
    ensures { IsTrue result ↔ IsSolvable program.now }
{
    if !are_columns(program.columns.as_slice(), program.cost.as_slice()) {
        return false;
    }
    if !are_rows(program.columns.len(), program.rows.as_slice()) {
        return false;
    }
    is_numbered(program)
}
