//! What comes of data files.
use anyhow::{Result, bail};
use sm_data::{Counted, DataCause, DataRefusal, Table, Tables};
use std::alloc::{AllocError, Global};
use test_tables::Answers;

fn cause_word(cause: DataCause) -> &'static [u8] {
    match cause {
        DataCause::Name => b"name",
        DataCause::Toml => b"toml",
        DataCause::Csv => b"csv",
        DataCause::Shape => b"shape",
        DataCause::Doubled => b"doubled",
    }
}

/// A limit that a file passes.
fn limit_text(
    alloc: Global,
    what: Counted,
    found: i128,
    bound: i128,
) -> Result<String, AllocError> {
    let word = if what == Counted::Entry {
        "entry"
    } else {
        "another limit"
    };
    format!(in alloc; "{word} {found} {bound}")
}

/// Adds a file, and answers `added`, or the refusal.
pub fn add(
    alloc: Global,
    tables: &mut Tables,
    name: &str,
    bytes: &[u8],
    answers: &mut Answers,
) -> Result<()> {
    match tables.add(name, bytes) {
        Ok(()) => answers.add(b"added")?,
        Err(DataRefusal::BadData { cause }) => answers.add(cause_word(cause))?,
        Err(DataRefusal::Limit { what, found, bound }) => {
            answers.add(limit_text(alloc, what, found, bound)?.as_bytes())?
        }
        Err(DataRefusal::OutOfMemory) => bail!("memory ran out"),
    }
    Ok(())
}

/// Adds numbers to a line, each behind a space.
fn push_numbers(alloc: Global, line: &mut String, numbers: &[i64]) -> Result<(), AllocError> {
    for number in numbers {
        let one = format!(in alloc; " {number}")?;
        line.push_str(one.as_str())?;
    }
    Ok(())
}

/// Answers numbers behind a word.
fn add_numbers(
    alloc: Global,
    word: &str,
    numbers: &[i64],
    answers: &mut Answers,
) -> Result<(), AllocError> {
    let mut line = String::from_str(alloc, word)?;
    push_numbers(alloc, &mut line, numbers)?;
    answers.add(line.as_bytes())
}

/// Answers what a table holds, or that there is none.
pub fn show(
    alloc: Global,
    tables: &Tables,
    name: &str,
    answers: &mut Answers,
) -> Result<(), AllocError> {
    match tables.get(name) {
        None => answers.add(b"no table"),
        Some(Table::Number(number)) => add_numbers(alloc, "number", &[*number], answers),
        Some(Table::List(numbers)) => add_numbers(alloc, "list", numbers.as_slice(), answers),
        Some(Table::Grid(rows)) => {
            answers.add(b"grid")?;
            for row in rows.as_slice() {
                add_numbers(alloc, "row", row.as_slice(), answers)?;
            }
            Ok(())
        }
    }
}

/// Answers how many rows a table has, and the last one.
pub fn show_rows(
    alloc: Global,
    tables: &Tables,
    name: &str,
    answers: &mut Answers,
) -> Result<(), AllocError> {
    let Some(Table::Grid(rows)) = tables.get(name) else {
        return answers.add(b"no grid");
    };
    let count = format!(in alloc; "{} rows", rows.len())?;
    answers.add(count.as_bytes())?;
    match rows.as_slice().last() {
        Some(row) => add_numbers(alloc, "row", row.as_slice(), answers),
        None => Ok(()),
    }
}
