//! The tables of a TOML document.
ghost use Rattle.std.specs.Prelude.{map};
ghost use Rattle.toml.specs.View.{view};
ghost use Rattle.sm_data.specs.Numbers.{Gives, each};
ghost use Rattle.sm_data.specs.Documents.{number_in, row_in, grid_in, array_in, table_in};

use crate::numbers::entry;
use crate::refusal::{DataCause, DataRefusal};
use crate::table::Table;
use sqlite_items::Items;
use std::alloc::Global;
use toml::Value;

const SHAPE: DataRefusal = DataRefusal::BadData {
    cause: DataCause::Shape,
};

/// A whole number within the limit.
fn number(value: &Value) -> Result<i64, DataRefusal>
    ensures { Gives (λ z. z) result (number_in (view value.now)) }
{
    match value.as_integer() {
        Some(number) => entry(i128::from(number)),
        None => Err(SHAPE),
    }
}

/// An array of whole numbers.
fn numbers(alloc: Global, values: &[Value]) -> Result<Items<i64>, DataRefusal>
    ensures { Gives (λ v. v) result (each (λ v. number_in (view v)) values.now) }
{
    let mut numbers = Items::new(alloc);
    for value in values {
        numbers.push(number(value)?)?;
    }
    Ok(numbers)
}

/// A row of a table of two indices.
fn row(alloc: Global, width: usize, value: &Value) -> Result<Items<i64>, DataRefusal>
    ensures { Gives (λ v. v) result (row_in width (view value.now)) }
{
    let Some(array) = value.as_array() else {
        return Err(SHAPE);
    };
    if array.len() != width {
        return Err(SHAPE);
    }
    numbers(alloc, array.as_slice())
}

/// The rows of a table of two indices.
fn rows(alloc: Global, width: usize, values: &[Value]) -> Result<Items<Items<i64>>, DataRefusal>
    ensures { Gives (λ v. v) result (each (λ v. row_in width (view v)) values.now) }
{
    let mut rows = Items::new(alloc);
    for value in values {
        rows.push(row(alloc, width, value)?)?;
    }
    Ok(rows)
}

/// A table of two indices, with rows of the given length.
fn grid(alloc: Global, width: usize, values: &[Value]) -> Result<Table, DataRefusal>
    ensures { Gives (λ t. t) result (grid_in width (map view values.now)) }
{
    if width == 0 {
        return Err(SHAPE);
    }
    Ok(Table::Grid(rows(alloc, width, values)?))
}

/// The table that an array stands for.
fn array(alloc: Global, values: &[Value]) -> Result<Table, DataRefusal>
    ensures { Gives (λ t. t) result (array_in (map view values.now)) }
{
    let Some(first) = values.first() else {
        return Ok(Table::List(Items::new(alloc)));
    };
    match first.as_array() {
        Some(first) => grid(alloc, first.len(), values),
        None => Ok(Table::List(numbers(alloc, values)?)),
    }
}

/// The table that a value stands for.
pub(crate) fn table(alloc: Global, value: &Value) -> Result<Table, DataRefusal>
    ensures { Gives (λ t. t) result (table_in (view value.now)) }
{
    if value.is_integer() {
        return Ok(Table::Number(number(value)?));
    }
    match value.as_array() {
        Some(values) => array(alloc, values.as_slice()),
        None => Err(SHAPE),
    }
}
