//! Names with their indices.
ghost use Rattle.std.specs.Prelude.{◌≡◌, IfOk, ◌≤ℤ◌, drop, ◌≤◌, ◌<◌, ◌+◌, ◌-ℤ◌, pos, ℕ, length, map, not, ◌==◌, None, Some, unsigned_abs, slice_index_or, []};
ghost use Rattle.sm_kinds.specs.Limits.{most_variables};
ghost use Rattle.sm_syntax.specs.Expressions.{expression_of, expressions_of};
ghost use Rattle.sm_forms.specs.Forms.{IsFormOf};
ghost use Rattle.sm_meaning.specs.declared.refusal.Wrong.TheVariants.{Unknown, Shape, Index};
ghost use Rattle.sm_meaning.specs.Places.{place_of};
ghost use Rattle.sm_meaning.specs.Refusals.{wrong_if};
ghost use Rattle.sm_meaning.specs.Scopes as thing;
ghost use Rattle.sm_meaning.specs.Scopes.{Scope as ScopeValue, count_of, is_known};
ghost use Rattle.sm_meaning.specs.Trials.{GoesThrough, tried, ◌▸◌};
ghost use Rattle.sm_meaning.specs.Tuples.{member_count};
ghost use Rattle.sm_data.specs.declared.table.Table.TheVariants as table;
ghost use Rattle.sm_meaning.specs.Worths.{named_worth, whole, value_of};
ghost use Rattle.sm_meaning.specs.ExpressionTrials.{expression_count, is_within, places_of, indices_within, value_tried};
ghost use Rattle.sm_scopes.specs.Things.{thing_of, HasVariables};
ghost use Rattle.sm_expressions.specs.Named.{number_in, thing_in, IsKnown, HasKnown, IsMember, behind_indices};

use crate::value::{number_form, variable_form};
use sm_data::Table;
use sm_forms::Form;
use sm_meaning::{ExpandRefusal, Range, Wrong};
use sm_scopes::{Cases, Scope, Thing};
use sm_syntax::{Expr, Name, Place};
use sqlite_items::Items;
use std::alloc::Global;

/// What a name stands for: a binder's number, or a thing.
#[derive(Clone, Copy)]
pub(crate) enum Known<'s, 't> {
    Number(i64),
    Thing(&'s Thing<'t>),
}

/// Which member of a family it is, and how many there are.
#[derive(Clone, Copy)]
struct Member {
    before: u64,
    count: u64,
}

/// What a name stands for.
pub(crate) fn stands_for<'s, 't>(
    scope: &'s Scope<'t>,
    cases: &Cases,
    name: &Name,
    place: Place,
) -> Result<Known<'s, 't>, ExpandRefusal>
    ensures known { (count : ℕ) → GoesThrough (tried (wrong_if (not (is_known scope.now cases.now.tuple name.now.text)) place Unknown)) count count
        (IsKnown scope.now cases.now.tuple name.now.text) result }
    ensures variables { IfOk result (HasKnown (count_of scope.now)) }
    ensures few { IfOk result (HasKnown most_variables) }
{
    let text = name.text.as_slice();
    if let Some(number) = cases.number_of(text) {
        return Ok(Known::Number(number));
    }
    match scope.look(text) {
        Some(thing) => Ok(Known::Thing(thing)),
        None => Err(ExpandRefusal::at(place, Wrong::Unknown)),
    }
}

/// Tries that there are so many indices.
fn expect_count(count: usize, parts: &[Expr], place: Place) -> Result<(), ExpandRefusal>
    ensures tried { (visited : ℕ) → GoesThrough (tried (wrong_if (not (count == expression_count (expressions_of (map expression_of parts.now)))) place Shape)) visited visited
        (λ _. length parts.now ≡ count) result }
    ensures count { IfOk result (λ _. length parts.now ≡ count) }
{
    if parts.len() != count {
        return Err(ExpandRefusal::at(place, Wrong::Shape));
    }
    Ok(())
}

/// Tries that an index lies in its set.
fn expect_in(set: &Range, number: i64, part: &Expr) -> Result<(), ExpandRefusal>
    ensures { (visited : ℕ) → GoesThrough (tried (wrong_if (not (is_within set.now number)) (place_of (expression_of part.now)) Index)) visited visited
        (λ _. (set.now.least ≤ℤ number) × (number ≤ℤ set.now.greatest)) result }
{
    if set.least <= number && number <= set.greatest {
        return Ok(());
    }
    Err(ExpandRefusal::at(part.place, Wrong::Index))
}

/// Tries that an index is one of so many places, which count from 0.
fn expect_place(count: usize, number: i64, part: &Expr) -> Result<usize, ExpandRefusal>
    ensures tried { (visited : ℕ) → GoesThrough (tried (wrong_if (not (is_within (places_of count) number)) (place_of (expression_of part.now)) Index)) visited visited
        (λ _. Unit {0}) result }
    ensures place { IfOk result (λ k. k ≡ unsigned_abs number) }
    ensures below { IfOk result (λ k. k < count) }
{
    if 0 <= number && i128::from(number) < count as i128 {
        return Ok(number as usize);
    }
    Err(ExpandRefusal::at(part.place, Wrong::Index))
}

/// Where a number stands in its set.
fn place_in(set: &Range, number: i64) -> Member
    requires least { set.now.least ≤ℤ number }
    requires greatest { number ≤ℤ set.now.greatest }
    requires few { unsigned_abs (set.now.greatest -ℤ set.now.least) < most_variables }
    ensures before { result.before ≡ unsigned_abs (number -ℤ set.now.least) }
    ensures count { result.count ≡ unsigned_abs (set.now.greatest -ℤ set.now.least) + 1 }
    ensures below { result.before < result.count }
{
    let least = i128::from(set.least);
    Member {
        before: (i128::from(number) - least) as u64,
        count: (i128::from(set.greatest) - least) as u64 + 1,
    }
}

/// The member of a family at these indices, from the one at `at` on.
fn member_at(
    sets: &[Range],
    numbers: &[i64],
    parts: &[Expr],
    at: usize,
) -> Result<Member, ExpandRefusal>
    requires few { member_count (drop at sets.now) ≤ most_variables }
    requires numbers { length numbers.now ≡ length sets.now }
    requires parts { length parts.now ≡ length sets.now }
    ensures { (visited : ℕ) → GoesThrough (indices_within (drop at sets.now) (drop at numbers.now) (expressions_of (map expression_of (drop at parts.now)))) visited visited
        (IsMember (drop at sets.now) (drop at numbers.now)) result }
{
    if at >= sets.len() {
        return Ok(Member {
            before: 0,
            count: 1,
        });
    }
    expect_in(&sets[at], numbers[at], &parts[at])?;
    let inner = member_at(sets, numbers, parts, at + 1)?;
    let outer = place_in(&sets[at], numbers[at]);
    Ok(Member {
        before: outer.before * inner.count + inner.before,
        count: outer.count * inner.count,
    })
}

/// The member of a family, as a variable.
fn family_form(
    alloc: Global,
    first: u32,
    sets: &[Range],
    place: Place,
    numbers: &[i64],
    parts: &[Expr],
) -> Result<Form, ExpandRefusal>
    requires few { first + member_count sets.now ≤ most_variables }
    requires numbers { length numbers.now ≡ length parts.now }
    ensures { (s : ScopeValue) → first + member_count sets.now ≤ count_of s → (visited : ℕ) →
        GoesThrough (behind_indices place None (Some (thing.family first sets.now)) numbers.now (expressions_of (map expression_of parts.now)) s) visited visited
        (IsFormOf (count_of s) (named_worth None (Some (thing.family first sets.now)) numbers.now)) result }
{
    expect_count(sets.len(), parts, place)?;
    let member = member_at(sets, numbers, parts, 0)?;
    variable_form(alloc, first + member.before as u32)
}

/// An entry of a list, at an index.
fn list_form(
    alloc: Global,
    entries: &[i64],
    number: i64,
    part: &Expr,
) -> Result<Form, ExpandRefusal>
    ensures { (s : ScopeValue) (visited : ℕ) →
        GoesThrough (tried (wrong_if (not (is_within (places_of (length entries.now)) number)) (place_of (expression_of part.now)) Index)
        ▸ value_tried s (whole (slice_index_or entries.now (unsigned_abs number) (pos 0)))) visited visited
        (IsFormOf (count_of s) (whole (slice_index_or entries.now (unsigned_abs number) (pos 0)))) result }
{
    let at = expect_place(entries.len(), number, part)?;
    number_form(alloc, i128::from(entries[at]))
}

/// How long the first row is.
fn width(rows: &[Items<i64>]) -> usize
    ensures { result ≡ length (slice_index_or rows.now 0 []) }
{
    match rows {
        [] => 0,
        [row, ..] => row.len(),
    }
}

/// An entry of a grid, and 0 beyond the end of a row.
fn entry(rows: &[Items<i64>], row: usize, column: usize) -> i64
    requires { row < length rows.now }
    ensures { result ≡ slice_index_or (slice_index_or rows.now row []) column (pos 0) }
{
    let row = rows[row].as_slice();
    if column < row.len() { row[column] } else { 0 }
}

/// An entry of a grid, at a row and a column.
fn grid_form(
    alloc: Global,
    rows: &[Items<i64>],
    row: i64,
    column: i64,
    row_part: &Expr,
    column_part: &Expr,
) -> Result<Form, ExpandRefusal>
    ensures { (s : ScopeValue) (visited : ℕ) →
        GoesThrough (tried (wrong_if (not (is_within (places_of (length rows.now)) row)) (place_of (expression_of row_part.now)) Index)
        ▸ tried (wrong_if (not (is_within (places_of (length (slice_index_or rows.now 0 []))) column)) (place_of (expression_of column_part.now)) Index)
        ▸ value_tried s (whole (slice_index_or (slice_index_or rows.now (unsigned_abs row) []) (unsigned_abs column) (pos 0)))) visited visited
        (IsFormOf (count_of s) (whole (slice_index_or (slice_index_or rows.now (unsigned_abs row) []) (unsigned_abs column) (pos 0)))) result }
{
    let row = expect_place(rows.len(), row, row_part)?;
    let column = expect_place(width(rows), column, column_part)?;
    number_form(alloc, i128::from(entry(rows, row, column)))
}

/// A number that takes no index.
fn number_at(
    alloc: Global,
    number: i64,
    place: Place,
    parts: &[Expr],
) -> Result<Form, ExpandRefusal>
    ensures { (s : ScopeValue) (visited : ℕ) →
        GoesThrough (tried (wrong_if (not (0 == expression_count (expressions_of (map expression_of parts.now)))) place Shape) ▸ value_tried s (whole number)) visited visited
        (IsFormOf (count_of s) (whole number)) result }
{
    expect_count(0, parts, place)?;
    number_form(alloc, i128::from(number))
}

/// A variable that takes no index.
fn variable_at(alloc: Global, var: u32, place: Place, parts: &[Expr]) -> Result<Form, ExpandRefusal>
    ensures { (s : ScopeValue) → var < count_of s → (visited : ℕ) →
        GoesThrough (tried (wrong_if (not (0 == expression_count (expressions_of (map expression_of parts.now)))) place Shape) ▸ value_tried s (value_of var)) visited visited
        (IsFormOf (count_of s) (value_of var)) result }
{
    expect_count(0, parts, place)?;
    variable_form(alloc, var)
}

/// An entry of a list.
fn list_at(
    alloc: Global,
    entries: &[i64],
    place: Place,
    numbers: &[i64],
    parts: &[Expr],
) -> Result<Form, ExpandRefusal>
    requires { length numbers.now ≡ length parts.now }
    ensures { (s : ScopeValue) (visited : ℕ) →
        GoesThrough (behind_indices place None (Some (thing.table (table.List entries.now))) numbers.now (expressions_of (map expression_of parts.now)) s) visited visited
        (IsFormOf (count_of s) (named_worth None (Some (thing.table (table.List entries.now))) numbers.now)) result }
{
    expect_count(1, parts, place)?;
    list_form(alloc, entries, numbers[0], &parts[0])
}

/// An entry of a grid.
fn grid_at(
    alloc: Global,
    rows: &[Items<i64>],
    place: Place,
    numbers: &[i64],
    parts: &[Expr],
) -> Result<Form, ExpandRefusal>
    requires { length numbers.now ≡ length parts.now }
    ensures { (s : ScopeValue) (visited : ℕ) →
        GoesThrough (behind_indices place None (Some (thing.table (table.Grid rows.now))) numbers.now (expressions_of (map expression_of parts.now)) s) visited visited
        (IsFormOf (count_of s) (named_worth None (Some (thing.table (table.Grid rows.now))) numbers.now)) result }
{
    expect_count(2, parts, place)?;
    grid_form(alloc, rows, numbers[0], numbers[1], &parts[0], &parts[1])
}

/// A number of a table, at as many indices as it takes.
fn table_form(
    alloc: Global,
    table: &Table,
    place: Place,
    numbers: &[i64],
    parts: &[Expr],
) -> Result<Form, ExpandRefusal>
    requires { length numbers.now ≡ length parts.now }
    ensures { (s : ScopeValue) (visited : ℕ) →
        GoesThrough (behind_indices place None (Some (thing.table table.now)) numbers.now (expressions_of (map expression_of parts.now)) s) visited visited
        (IsFormOf (count_of s) (named_worth None (Some (thing.table table.now)) numbers.now)) result }
{
    match table {
        Table::Number(number) => number_at(alloc, *number, place, parts),
        Table::List(entries) => list_at(alloc, entries.as_slice(), place, numbers, parts),
        Table::Grid(rows) => grid_at(alloc, rows.as_slice(), place, numbers, parts),
    }
}

/// What stands at the indices of a thing.
fn thing_form(
    alloc: Global,
    thing: &Thing,
    place: Place,
    numbers: &[i64],
    parts: &[Expr],
) -> Result<Form, ExpandRefusal>
    requires variables { HasVariables most_variables (thing_of thing.now) }
    requires numbers { length numbers.now ≡ length parts.now }
    ensures { (s : ScopeValue) → HasVariables (count_of s) (thing_of thing.now) → (visited : ℕ) →
        GoesThrough (behind_indices place None (Some (thing_of thing.now)) numbers.now (expressions_of (map expression_of parts.now)) s) visited visited
        (IsFormOf (count_of s) (named_worth None (Some (thing_of thing.now)) numbers.now)) result }
{
    match thing {
        Thing::Table(table) => table_form(alloc, table, place, numbers, parts),
        Thing::IndexSet(_) => Err(ExpandRefusal::at(place, Wrong::Shape)),
        Thing::Variable(var) => variable_at(alloc, *var, place, parts),
        Thing::Family { first, sets } => {
            family_form(alloc, *first, sets.as_slice(), place, numbers, parts)
        }
    }
}

/// What stands at the indices of a name.
pub(crate) fn named_form(
    alloc: Global,
    known: &Known,
    place: Place,
    numbers: &[i64],
    parts: &[Expr],
) -> Result<Form, ExpandRefusal>
    requires variables { HasKnown most_variables known.now }
    requires numbers { length numbers.now ≡ length parts.now }
    ensures { (s : ScopeValue) → HasKnown (count_of s) known.now → (visited : ℕ) →
        GoesThrough (behind_indices place (number_in known.now) (thing_in known.now) numbers.now (expressions_of (map expression_of parts.now)) s) visited visited
        (IsFormOf (count_of s) (named_worth (number_in known.now) (thing_in known.now) numbers.now)) result }
{
    match known {
        Known::Number(number) => number_at(alloc, *number, place, parts),
        Known::Thing(thing) => thing_form(alloc, thing, place, numbers, parts),
    }
}
