//! Words of causes.
ghost use Rattle.std.specs.Prelude.{◌≡◌, ◌++◌, OnOk};
ghost use Rattle.sm_reports.specs.Words.{wrong_word, data_word, counted_word};

use sm_base::OutOfMemory;
use sm_data::{Counted, DataCause};
use sm_meaning::Wrong;

/// Appends words.
pub(crate) fn push_words(into: &mut Vec<u8>, words: &[u8]) -> Result<(), OutOfMemory>
    ensures { OnOk result (into.new.items ≡ into.old.items ++ words.now) }
{
    into.extend_from_slice(words)?;
    Ok(())
}

/// The word of what is wrong at a place of the text.
pub(crate) fn wrong_word(what: Wrong) -> &'static [u8]
    ensures { result.now ≡ wrong_word what }
{
    match what {
        Wrong::Unknown => b"unknown",
        Wrong::Doubled => b"doubled",
        Wrong::Shape => b"shape",
        Wrong::Index => b"index",
        Wrong::Whole => b"whole",
        Wrong::Linear => b"linear",
        Wrong::Variable => b"variable",
        Wrong::Kind => b"kind",
        Wrong::Value => b"value",
        Wrong::Benders => b"benders",
    }
}

/// The word of what is wrong with a data file.
pub(crate) fn data_word(cause: DataCause) -> &'static [u8]
    ensures { result.now ≡ data_word cause }
{
    match cause {
        DataCause::Name => b"name",
        DataCause::Toml => b"toml",
        DataCause::Csv => b"csv",
        DataCause::Shape => b"shape",
        DataCause::Doubled => b"doubled",
    }
}

/// The word of what a limit counts or measures.
pub(crate) fn counted_word(what: Counted) -> &'static [u8]
    ensures { result.now ≡ counted_word what }
{
    match what {
        Counted::File => b"file",
        Counted::Files => b"files",
        Counted::Nesting => b"nesting",
        Counted::Size => b"size",
        Counted::Tuples => b"tuples",
        Counted::Value => b"value",
        Counted::Coefficient => b"coefficient",
        Counted::Bound => b"bound",
        Counted::Entry => b"entry",
        Counted::Variables => b"variables",
        Counted::Width => b"width",
        Counted::Widths => b"widths",
        Counted::Constraints => b"constraints",
        Counted::Terms => b"terms",
        Counted::Total => b"total",
        Counted::Clauses => b"clauses",
        Counted::Tasks => b"tasks",
        Counted::Horizon => b"horizon",
        Counted::Items => b"items",
        Counted::Groups => b"groups",
        Counted::Capacity => b"capacity",
        Counted::Reals => b"reals",
        Counted::Realrows => b"realrows",
        Counted::Branch => b"branch",
        Counted::Sub => b"sub",
        Counted::Log => b"log",
        Counted::Objectives => b"objectives",
    }
}
