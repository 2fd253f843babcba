//! Parts of a line, which are printed, read and tested alike wherever they stand.
ghost use Rattle.std.specs.Prelude.{◌≡◌, ◌++◌, ◌↔◌, IsTrue, List, ℕ, OnOk};
ghost use Rattle.sm_step.specs.PartText.{number_text};
ghost use Rattle.sm_step.specs.Reading.{Reads};
ghost use Rattle.sm_step.specs.Taking.{Takes};

use crate::cursor::Cursor;
use sm_base::{OutOfMemory, push_whole};
use std::alloc::Global;
use std::default::MadeWith;

/// A part of a line.
pub(crate) trait Part: Sized + Drop + MadeWith<Global> {
    /// Its text.
    ghost text: { Self → List ℕ };

    /// The part at the front of a text, and the rest behind it.
    ghost reading: { Reads Self };

    /// It is in the ranges of the grammar.
    ghost fits: { Self → Type 0 };

    /// Appends the part's text.
    fn push(&self, into: &mut Vec<u8>) -> Result<(), OutOfMemory>
        ensures { OnOk result (into.new.items ≡ into.old.items ++ text self.now) };

    /// Reads a part, in the ranges or not.
    fn read(alloc: Global, cursor: &mut Cursor<'_>) -> Self
        ensures { Takes reading (text result) cursor.old result cursor.new };

    /// Whether the part is in the ranges.
    fn is_in_range(&self) -> bool
        ensures { IsTrue result ↔ fits self.now };
}

/// Appends words.
pub(crate) fn push_words(into: &mut Vec<u8>, words: &[u8]) -> Result<(), OutOfMemory>
    ensures { OnOk result (into.new.items ≡ into.old.items ++ words.now) }
{
    into.extend_from_slice(words)?;
    Ok(())
}

/// Appends a word and a number.
pub(crate) fn push_numbered(into: &mut Vec<u8>, word: &[u8], number: u64) -> Result<(), OutOfMemory>
    ensures { OnOk result (into.new.items ≡ into.old.items ++ (word.now ++ number_text number)) }
{
    into.extend_from_slice(word)?;
    push_whole(into, i128::from(number))
}

impl Part for u32 {
    ghost use Rattle.sm_step.specs.Reading.{number_in};
    ghost use Rattle.sm_step.specs.Grammar.{IsNumber};

    ghost text = { number_text };

    ghost reading = { number_in };

    ghost fits = { IsNumber };

    fn push(&self, into: &mut Vec<u8>) -> Result<(), OutOfMemory> {
        push_whole(into, i128::from(*self))
    }

    fn read(_alloc: Global, cursor: &mut Cursor<'_>) -> u32 {
        cursor.number()
    }

    fn is_in_range(&self) -> bool {
        let _number = *self;
        true
    }
}

impl Part for i128 {
    ghost use Rattle.sm_base.specs.Whole.{whole_text};
    ghost use Rattle.sm_step.specs.Reading.{whole_in};
    ghost use Rattle.sm_step.specs.Grammar.{IsWideNumber};

    ghost text = { whole_text };

    ghost reading = { whole_in };

    ghost fits = { IsWideNumber };

    fn push(&self, into: &mut Vec<u8>) -> Result<(), OutOfMemory> {
        push_whole(into, *self)
    }

    fn read(_alloc: Global, cursor: &mut Cursor<'_>) -> i128 {
        cursor.whole()
    }

    fn is_in_range(&self) -> bool {
        let _number = *self;
        true
    }
}
