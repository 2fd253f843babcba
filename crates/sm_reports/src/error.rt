//! Lines that tell what is wrong.
ghost use Rattle.std.specs.Prelude.{◌≡◌, ◌++◌, codes, pos, OnOk, IfOk};
ghost use Rattle.sm_base.specs.Whole.{whole_text};
ghost use Rattle.sm_reports.specs.Words.{wrong_word, data_word, counted_word};
ghost use Rattle.sm_reports.specs.Errors.{place_text, model_text, data_text, limit_text, body_text, error_text};
ghost use Rattle.sm_reports.specs.declared.error.ErrorLine.TheVariants.{Usage, Read, Memory};

use crate::path::file_name;
use crate::word::{counted_word, data_word, push_words, wrong_word};
use sm_base::{OutOfMemory, push_whole};
use sm_data::{Counted, DataCause};
use sm_meaning::Wrong;
use std::alloc::Global;

/// What is told of a run that has no answer. Lines and columns count from 1, columns in bytes.
#[derive(Clone, Copy)]
pub enum ErrorLine<'a> {
    /// The words of the command line ask for nothing.
    Usage,
    /// A file can't be read.
    Read,
    /// Memory ran out.
    Memory,
    /// The text is no model; this is the first bad token.
    Syntax {
        line: u32,
        column: u32,
    },
    /// Something is wrong with what the text means.
    Model {
        line: u32,
        column: u32,
        what: Wrong,
    },
    /// Something is wrong with a data file. `file` is its path, of which the part after the last slash is told.
    Data {
        file: &'a [u8],
        cause: DataCause,
    },
    /// Something is over its limit.
    Limit {
        what: Counted,
        found: i128,
        bound: i128,
    },
}

/// Appends words and a place.
fn push_place(into: &mut Vec<u8>, words: &[u8], line: u32, column: u32) -> Result<(), OutOfMemory>
    ensures { OnOk result (into.new.items ≡ into.old.items ++ (words.now ++ place_text line column)) }
{
    into.extend_from_slice(words)?;
    push_whole(into, i128::from(line))?;
    into.extend_from_slice(b" ")?;
    push_whole(into, i128::from(column))
}

/// Appends what is wrong, and where.
fn push_model(into: &mut Vec<u8>, line: u32, column: u32, what: Wrong) -> Result<(), OutOfMemory>
    ensures { OnOk result (into.new.items ≡ into.old.items ++ model_text line column what) }
{
    push_place(into, b"error model ", line, column)?;
    into.extend_from_slice(b" ")?;
    push_words(into, wrong_word(what))
}

/// Appends what is wrong with a data file.
fn push_data(into: &mut Vec<u8>, file: &[u8], cause: DataCause) -> Result<(), OutOfMemory>
    ensures { OnOk result (into.new.items ≡ into.old.items ++ data_text file.now cause) }
{
    into.extend_from_slice(b"error data ")?;
    into.extend_from_slice(file_name(file))?;
    into.extend_from_slice(b" ")?;
    push_words(into, data_word(cause))
}

/// Appends what is over its limit, what it is, and the limit.
fn push_limit(
    into: &mut Vec<u8>,
    what: Counted,
    found: i128,
    bound: i128,
) -> Result<(), OutOfMemory>
    ensures { OnOk result (into.new.items ≡ into.old.items ++ limit_text what found bound) }
{
    into.extend_from_slice(b"error limit ")?;
    into.extend_from_slice(counted_word(what))?;
    into.extend_from_slice(b" ")?;
    push_whole(into, found)?;
    into.extend_from_slice(b" ")?;
    push_whole(into, bound)
}

/// Appends the line without its end.
fn push_body(into: &mut Vec<u8>, error: &ErrorLine<'_>) -> Result<(), OutOfMemory>
    ensures { OnOk result (into.new.items ≡ into.old.items ++ body_text error.now) }
{
    match error {
        ErrorLine::Usage => push_words(into, b"error usage"),
        ErrorLine::Read => push_words(into, b"error read"),
        ErrorLine::Memory => push_words(into, b"error memory"),
        ErrorLine::Syntax { line, column } => { push_place(into, b"error syntax ", *line, *column) }
        ErrorLine::Model { line, column, what } => push_model(into, *line, *column, *what),
        ErrorLine::Data { file, cause } => push_data(into, file, *cause),
        ErrorLine::Limit { what, found, bound } => push_limit(into, *what, *found, *bound),
    }
}

/// The line that tells what is wrong.
///
/// # Errors
///
/// `OutOfMemory`. What tells that is at hand without memory, as `memory_line`.
pub fn error_line(alloc: Global, error: &ErrorLine<'_>) -> Result<Vec<u8>, OutOfMemory>
    ensures { IfOk result (λ t. t.items ≡ error_text error.now) }
{
    let mut text = Vec::new(alloc);
    push_body(&mut text, error)?;
    text.extend_from_slice(b"\n")?;
    Ok(text)
}

/// The line for words that ask for nothing.
pub fn usage_line() -> &'static [u8]
    ensures { result.now ≡ error_text Usage }
{
    b"error usage\n"
}

/// The line for a file that can't be read.
pub fn read_line() -> &'static [u8]
    ensures { result.now ≡ error_text Read }
{
    b"error read\n"
}

/// The line for want of memory.
pub fn memory_line() -> &'static [u8]
    ensures { result.now ≡ error_text Memory }
{
    b"error memory\n"
}
