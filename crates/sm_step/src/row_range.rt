//! Which columns and rows are in the ranges of the grammar.
ghost use Rattle.std.specs.Prelude.{◌↔◌, IsTrue};
ghost use Rattle.sm_step.specs.Grammar.{IsLongNumber, IsNumber, IsList, IsColumn, ComesBefore, FollowInOrder, AreColumns, IsRow};

use crate::cursor::Cursor;
use crate::part::Part;
use crate::row::{Col, RowRef, Term};
use crate::row_text::{push_column, push_term, read_column, read_term};
use sm_base::OutOfMemory;
use std::alloc::Global;

/// The least number that is too great for a number of a node, a lemma or a cut.
const LONG_NUMBERS: u64 = 1 << 40;

pub(crate) fn is_long_number(number: u64) -> bool
    ensures { IsTrue result ↔ IsLongNumber number }
{
    number < LONG_NUMBERS
}

/// Whether numbers strictly increase.
pub(crate) fn is_list(numbers: &[u32]) -> bool
    ensures { IsTrue result ↔ IsList numbers.now }
{
    let mut least: u64 = 0;
    for number in numbers {
        let number = u64::from(*number);
        if number < least {
            return false;
        }
        least = number + 1;
    }
    true
}

/// Whether two numbers are in range.
pub(crate) fn are_numbers(first: u32, second: u32) -> bool
    ensures { IsTrue result ↔ (IsNumber first × IsNumber second) }
{
    first.is_in_range() && second.is_in_range()
}

fn is_column(column: Col) -> bool
    ensures { IsTrue result ↔ IsColumn column }
{
    match column {
        Col::Var(_var) => true,
        Col::Is(_var, _value) => true,
    }
}

/// Whether a column comes before another in the order of variables, each before its values.
fn comes_before(column: Col, other: Col) -> bool
    ensures { IsTrue result ↔ ComesBefore column other }
{
    match (column, other) {
        (Col::Var(var), Col::Var(next)) | (Col::Is(var, _), Col::Var(next)) => var < next,
        (Col::Var(var), Col::Is(next, _)) => var <= next,
        (Col::Is(var, value), Col::Is(next, other)) => var < next || (var == next && value < other),
    }
}

/// Whether columns come in order behind a first one.
fn follow_in_order(first: Col, columns: &[Col]) -> bool
    ensures { IsTrue result ↔ FollowInOrder first columns.now }
{
    let mut before = first;
    for column in columns {
        if !comes_before(before, *column) || !is_column(*column) {
            return false;
        }
        before = *column;
    }
    true
}

/// Whether there are columns and they come in order.
pub(crate) fn are_columns(columns: &[Col]) -> bool
    ensures { IsTrue result ↔ AreColumns columns.now }
{
    let [first, rest @ ..] = columns else {
        return false;
    };
    is_column(*first) && follow_in_order(*first, rest)
}

/// Whether the name of a row is in the ranges.
pub(crate) fn is_row(row: &RowRef) -> bool
    ensures { IsTrue result ↔ IsRow row.now }
{
    match row {
        RowRef::Lin { k } | RowRef::Table { k } | RowRef::Pack { k } => k.is_in_range(),
        RowRef::Link { var } | RowRef::Mean { var } => var.is_in_range(),
        RowRef::Clause { k, clause: other }
        | RowRef::When { k, half: other }
        | RowRef::Cap { k, group: other }
        | RowRef::Once { k, node: other }
        | RowRef::SelfLoop { k, place: other } => are_numbers(*k, *other),
        RowRef::Value { k, value: other } | RowRef::Time { k, moment: other } => {
            k.is_in_range() && other.is_in_range()
        }
        RowRef::Par { k, tasks } => k.is_in_range() && is_list(tasks.as_slice()),
        RowRef::Cut { cut } => is_long_number(*cut),
        RowRef::Goal { .. } | RowRef::Named { .. } => false,
    }
}

impl Part for Col {
    ghost use Rattle.sm_step.specs.RowText.{column_text};
    ghost use Rattle.sm_step.specs.RowReading.{column_in};
    ghost use Rattle.sm_step.specs.Grammar.{IsColumn};

    ghost text = { column_text };

    ghost reading = { column_in };

    ghost fits = { IsColumn };

    fn push(&self, into: &mut Vec<u8>) -> Result<(), OutOfMemory> {
        push_column(into, self)
    }

    fn read(_alloc: Global, cursor: &mut Cursor<'_>) -> Col {
        read_column(cursor)
    }

    fn is_in_range(&self) -> bool {
        is_column(*self)
    }
}

impl Part for Term {
    ghost use Rattle.sm_step.specs.RowText.{term_text};
    ghost use Rattle.sm_step.specs.RowReading.{term_in};
    ghost use Rattle.sm_step.specs.Grammar.{IsTerm};

    ghost text = { term_text };

    ghost reading = { term_in };

    ghost fits = { IsTerm };

    fn push(&self, into: &mut Vec<u8>) -> Result<(), OutOfMemory> {
        push_term(into, self)
    }

    fn read(alloc: Global, cursor: &mut Cursor<'_>) -> Term {
        read_term(alloc, cursor)
    }

    fn is_in_range(&self) -> bool {
        is_row(&self.row)
    }
}
