//! The tables of files with comma-separated fields.
ghost use Rattle.std.specs.Prelude.{◌≡◌, ◌⊎◌, ℤ, List, Option, IfOk, IfErr, map, Err};
ghost use Rattle.csv.specs.Records.{fields_of};
ghost use Rattle.csv.specs.Reading.{error_kind};
ghost use Rattle.sm_data.specs.Numbers.{Gives, bad, number_of, each};
ghost use Rattle.sm_data.specs.Records.{AreRows, AreUneven, HasReading, HaveReadings, RowsHaveReadings, refusal_by};
ghost use Rattle.sm_data.specs.declared.refusal.DataCause.TheVariants as cause;
ghost use Rattle.sm_data.specs.declared.refusal.DataRefusal.TheVariants.{OutOfMemory};

use crate::numbers::entry;
use crate::refusal::{DataCause, DataRefusal};
use csv::{ByteRecord, ErrorKind, ReaderBuilder};
use sm_base::read_whole;
use sqlite_items::Items;
use std::alloc::Global;

/// What an error of the reader comes to. Bytes in memory give no fault of reading, but no clause of the reader says
/// so: each error but unequal lengths is answered as want of memory.
fn refusal_of(error: csv::Error) -> DataRefusal
    ensures { result ≡ refusal_by (error_kind error) }
{
    match error.kind() {
        ErrorKind::UnequalLengths { .. } => DataRefusal::BadData {
            cause: DataCause::Csv,
        },
        _ => DataRefusal::OutOfMemory,
    }
}

/// The records of a text with no header, all of one length.
pub(crate) fn rows(alloc: Global, bytes: &[u8]) -> Result<Vec<ByteRecord>, DataRefusal>
    ensures found { IfOk result (λ v. AreRows bytes.now (map fields_of v.items)) }
    ensures csv { result ≡ Err (bad cause.Csv) → AreUneven bytes.now }
    ensures only { IfErr result (λ e. (e ≡ bad cause.Csv) ⊎ (e ≡ OutOfMemory)) }
{
    let rdr = ReaderBuilder::new()
        .has_headers(false)
        .from_reader(alloc, bytes);
    let mut rows = Vec::new(alloc);
    for row in rdr.into_byte_records() {
        match row {
            Ok(row) => {
                if rows.push(row).is_err() {
                    return Err(DataRefusal::OutOfMemory);
                }
            }
            Err(error) => return Err(refusal_of(error)),
        }
    }
    Ok(rows)
}

/// The number that a field writes, if it is one of 128 bits in its canonical form.
fn reading(field: &[u8]) -> Option<i128>
    ensures value { HasReading field.now result }
    ensures only { (r : Option ℤ) → HasReading field.now r → r ≡ result }
{
    read_whole(field)
}

/// The entry that a field writes.
fn number(field: &[u8]) -> Result<i64, DataRefusal>
    ensures { (r : Option ℤ) → HasReading field.now r → Gives (λ z. z) result (number_of r) }
{
    match reading(field) {
        Some(number) => entry(number),
        None => Err(DataRefusal::BadData {
            cause: DataCause::Shape,
        }),
    }
}

/// The entries of a record.
fn numbers(alloc: Global, row: &ByteRecord) -> Result<Items<i64>, DataRefusal>
    ensures { (rs : List (Option ℤ)) → HaveReadings (fields_of row.now) rs → Gives (λ v. v) result (each number_of rs) }
{
    let mut numbers = Items::new(alloc);
    for field in row.iter() {
        numbers.push(number(field)?)?;
    }
    Ok(numbers)
}

/// The entries of the records.
pub(crate) fn grid(alloc: Global, rows: &[ByteRecord]) -> Result<Items<Items<i64>>, DataRefusal>
    ensures { (rss : List (List (Option ℤ))) → RowsHaveReadings (map fields_of rows.now) rss →
        Gives (λ v. v) result (each (each number_of) rss) }
{
    let mut grid = Items::new(alloc);
    for row in rows {
        grid.push(numbers(alloc, row)?)?;
    }
    Ok(grid)
}
