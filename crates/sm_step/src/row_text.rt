//! Columns, rows and terms in a line.
ghost use Rattle.std.specs.Prelude.{◌≡◌, ◌++◌, ◌^◌, pos, codes, Some, None, Err, IfOk, OnOk};
ghost use Rattle.sm_base.specs.Whole.{whole_text};
ghost use Rattle.sm_step.specs.PartText.{number_text, list_text};
ghost use Rattle.sm_step.specs.RowText.{column_text, row_text, term_text};
ghost use Rattle.sm_step.specs.RowReading.{column_in, pair_in, number_and_whole_in, task_row_in, row_in, term_in};
ghost use Rattle.sm_step.specs.Taking.{Takes, TakesBehind};

use crate::cursor::Cursor;
use crate::fraction::{push_fraction, read_fraction};
use crate::lists::{push_listed, read_listed};
use crate::part::push_numbered;
use crate::row::{Col, RowRef, Term};
use sm_base::{OutOfMemory, push_whole};
use std::alloc::Global;

/// Appends the column of a variable's value.
fn push_value_column(into: &mut Vec<u8>, var: u32, value: i64) -> Result<(), OutOfMemory>
    ensures { OnOk result (into.new.items ≡ into.old.items ++ (codes "v" ++ number_text var ++ codes "=" ++ whole_text value)) }
{
    push_numbered(into, b"v", u64::from(var))?;
    into.extend_from_slice(b"=")?;
    push_whole(into, i128::from(value))
}

pub(crate) fn push_column(into: &mut Vec<u8>, column: &Col) -> Result<(), OutOfMemory>
    ensures { OnOk result (into.new.items ≡ into.old.items ++ column_text column.now) }
{
    match column {
        Col::Var(var) => push_numbered(into, b"v", u64::from(*var)),
        Col::Is(var, value) => push_value_column(into, *var, *value),
    }
}

/// Appends a name, a number, a point and a whole number.
fn push_pair(into: &mut Vec<u8>, name: &[u8], k: u32, number: i128) -> Result<(), OutOfMemory>
    ensures { OnOk result (into.new.items ≡ into.old.items ++ (name.now ++ number_text k ++ codes "." ++ whole_text number)) }
{
    push_numbered(into, name, u64::from(k))?;
    into.extend_from_slice(b".")?;
    push_whole(into, number)
}

/// Appends a list of tasks behind a constraint's number.
fn push_tasks(into: &mut Vec<u8>, k: u32, tasks: &[u32]) -> Result<(), OutOfMemory>
    ensures { OnOk result (into.new.items ≡ into.old.items ++ (codes "par." ++ number_text k ++ codes "." ++ list_text tasks.now)) }
{
    push_numbered(into, b"par.", u64::from(k))?;
    into.extend_from_slice(b".")?;
    push_listed(into, b',', tasks)
}

pub(crate) fn push_row(into: &mut Vec<u8>, row: &RowRef) -> Result<(), OutOfMemory>
    ensures { OnOk result (into.new.items ≡ into.old.items ++ row_text row.now) }
{
    match row {
        RowRef::Lin { k } => push_numbered(into, b"lin.", u64::from(*k)),
        RowRef::Link { var } => push_numbered(into, b"link.", u64::from(*var)),
        RowRef::Mean { var } => push_numbered(into, b"mean.", u64::from(*var)),
        RowRef::Clause { k, clause } => push_pair(into, b"clause.", *k, i128::from(*clause)),
        RowRef::When { k, half } => push_pair(into, b"when.", *k, i128::from(*half)),
        RowRef::Value { k, value } => push_pair(into, b"value.", *k, *value),
        RowRef::Table { k } => push_numbered(into, b"table.", u64::from(*k)),
        RowRef::Time { k, moment } => push_pair(into, b"time.", *k, *moment),
        RowRef::Par { k, tasks } => push_tasks(into, *k, tasks.as_slice()),
        RowRef::Cap { k, group } => push_pair(into, b"cap.", *k, i128::from(*group)),
        RowRef::Pack { k } => push_numbered(into, b"pack.", u64::from(*k)),
        RowRef::Once { k, node } => push_pair(into, b"once.", *k, i128::from(*node)),
        RowRef::SelfLoop { k, place } => push_pair(into, b"self.", *k, i128::from(*place)),
        RowRef::Cut { cut } => push_numbered(into, b"cut.", *cut),
        RowRef::Goal { level } => push_numbered(into, b"goal.", u64::from(*level)),
        RowRef::Named { name } => push_numbered(into, b"r", *name),
    }
}

pub(crate) fn push_term(into: &mut Vec<u8>, term: &Term) -> Result<(), OutOfMemory>
    ensures { OnOk result (into.new.items ≡ into.old.items ++ term_text term.now) }
{
    push_fraction(into, &term.by)?;
    into.extend_from_slice(b"@")?;
    push_row(into, &term.row)
}

pub(crate) fn read_column(cursor: &mut Cursor<'_>) -> Col
    ensures { Takes column_in (column_text result) cursor.old result cursor.new }
{
    cursor.expect(b"v");
    let var = cursor.number();
    if cursor.accept(b"=") {
        let value = cursor.narrow();
        return Col::Is(var, value);
    }
    Col::Var(var)
}

/// Reads two numbers with a point between them.
fn read_pair(cursor: &mut Cursor<'_>) -> (u32, u32)
    ensures { Takes pair_in (number_text result.0 ++ codes "." ++ number_text result.1) cursor.old result cursor.new }
{
    let k = cursor.number();
    cursor.expect(b".");
    let number = cursor.number();
    (k, number)
}

/// Reads a number and a whole number with a point between them.
fn read_number_and_whole(cursor: &mut Cursor<'_>) -> (u32, i128)
    ensures { Takes number_and_whole_in (number_text result.0 ++ codes "." ++ whole_text result.1) cursor.old result cursor.new }
{
    let k = cursor.number();
    cursor.expect(b".");
    let number = cursor.whole();
    (k, number)
}

/// Reads the name of a row of scheduling, packing or a circuit, or of a cut.
fn read_task_row(alloc: Global, cursor: &mut Cursor<'_>) -> RowRef
    ensures { Takes task_row_in (row_text result) cursor.old result cursor.new }
{
    if cursor.accept(b"time.") {
        let (k, moment) = read_number_and_whole(cursor);
        return RowRef::Time { k, moment };
    }
    if cursor.accept(b"par.") {
        let k = cursor.number();
        cursor.expect(b".");
        let tasks = read_listed(alloc, cursor, b',');
        return RowRef::Par { k, tasks };
    }
    if cursor.accept(b"cap.") {
        let (k, group) = read_pair(cursor);
        return RowRef::Cap { k, group };
    }
    if cursor.accept(b"pack.") {
        let k = cursor.number();
        return RowRef::Pack { k };
    }
    if cursor.accept(b"once.") {
        let (k, node) = read_pair(cursor);
        return RowRef::Once { k, node };
    }
    if cursor.accept(b"self.") {
        let (k, place) = read_pair(cursor);
        return RowRef::SelfLoop { k, place };
    }
    cursor.expect(b"cut.");
    let cut = cursor.long_number();
    RowRef::Cut { cut }
}

/// Reads the name of a row.
pub(crate) fn read_row(alloc: Global, cursor: &mut Cursor<'_>) -> RowRef
    ensures { Takes row_in (row_text result) cursor.old result cursor.new }
{
    if cursor.accept(b"lin.") {
        let k = cursor.number();
        return RowRef::Lin { k };
    }
    if cursor.accept(b"link.") {
        let var = cursor.number();
        return RowRef::Link { var };
    }
    if cursor.accept(b"mean.") {
        let var = cursor.number();
        return RowRef::Mean { var };
    }
    if cursor.accept(b"clause.") {
        let (k, clause) = read_pair(cursor);
        return RowRef::Clause { k, clause };
    }
    if cursor.accept(b"when.") {
        let (k, half) = read_pair(cursor);
        return RowRef::When { k, half };
    }
    if cursor.accept(b"value.") {
        let (k, value) = read_number_and_whole(cursor);
        return RowRef::Value { k, value };
    }
    if cursor.accept(b"table.") {
        let k = cursor.number();
        return RowRef::Table { k };
    }
    read_task_row(alloc, cursor)
}

pub(crate) fn read_term(alloc: Global, cursor: &mut Cursor<'_>) -> Term
    ensures { Takes term_in (term_text result) cursor.old result cursor.new }
{
    let by = read_fraction(cursor);
    cursor.expect(b"@");
    let row = read_row(alloc, cursor);
    Term { by, row }
}
