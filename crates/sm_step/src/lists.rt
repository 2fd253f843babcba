//! Lists inside a line.
ghost use Rattle.std.specs.Prelude.{◌≡◌, ◌++◌, ◌∷◌, ◌↔◌, [], All, IsTrue, Some, None, Err, IfOk, OnOk};
ghost use Rattle.sm_step.specs.PartText.{each_after, joined, joined_or_none};
ghost use Rattle.sm_step.specs.Reading.{each_in, joined_in, listed_in};
ghost use Rattle.sm_step.specs.Taking.{Takes, TakesBehind};

use crate::cursor::Cursor;
use crate::part::Part;
use crate::short::Short;
use sm_base::OutOfMemory;
use std::alloc::Global;

/// Appends each part after a mark.
pub(crate) fn push_each<T: Part>(
    into: &mut Vec<u8>,
    mark: u8,
    parts: &[T],
) -> Result<(), OutOfMemory>
    ensures { OnOk result (into.new.items ≡ into.old.items ++ each_after mark T.text parts.now) }
{
    for part in parts {
        into.push(mark)?;
        part.push(into)?;
    }
    Ok(())
}

/// Reads parts, each after a mark, as long as the mark comes.
pub(crate) fn read_each<T: Part>(alloc: Global, cursor: &mut Cursor<'_>, mark: u8) -> Short<T>
    ensures { Takes (each_in mark T.reading) (each_after mark T.text result) cursor.old result cursor.new }
{
    let mut parts = Short::new(alloc);
    while cursor.accept(&[mark]) {
        let part = T::read(alloc, cursor);
        if parts.push(part).is_err() {
            cursor.run_out();
        }
    }
    parts
}

/// Appends the parts with a mark between them.
pub(crate) fn push_joined<T: Part>(
    into: &mut Vec<u8>,
    mark: u8,
    parts: &[T],
) -> Result<(), OutOfMemory>
    ensures { OnOk result (into.new.items ≡ into.old.items ++ joined mark T.text parts.now) }
{
    let [first, rest @ ..] = parts else {
        return Ok(());
    };
    first.push(into)?;
    push_each(into, mark, rest)
}

/// Reads one or more parts with a mark between them.
pub(crate) fn read_joined<T: Part>(alloc: Global, cursor: &mut Cursor<'_>, mark: u8) -> Short<T>
    ensures { Takes (joined_in mark T.reading) (joined mark T.text result) cursor.old result cursor.new }
{
    let first = T::read(alloc, cursor);
    let mut parts = read_each(alloc, cursor, mark);
    if parts.push_front(first).is_err() {
        cursor.run_out();
    }
    parts
}

/// Appends the parts with a mark between them, or a `-` for none.
pub(crate) fn push_listed<T: Part>(
    into: &mut Vec<u8>,
    mark: u8,
    parts: &[T],
) -> Result<(), OutOfMemory>
    ensures { OnOk result (into.new.items ≡ into.old.items ++ joined_or_none mark T.text parts.now) }
{
    let [first, rest @ ..] = parts else {
        into.push(b'-')?;
        return Ok(());
    };
    first.push(into)?;
    push_each(into, mark, rest)
}

/// Reads parts with a mark between them, or a `-` for none.
pub(crate) fn read_listed<T: Part>(alloc: Global, cursor: &mut Cursor<'_>, mark: u8) -> Short<T>
    ensures { Takes (listed_in mark T.reading) (joined_or_none mark T.text result) cursor.old result cursor.new }
{
    if cursor.accept_none() {
        return Short::new(alloc);
    }
    read_joined(alloc, cursor, mark)
}

/// Whether each part is in the ranges.
pub(crate) fn all_in_range<T: Part>(parts: &[T]) -> bool
    ensures { IsTrue result ↔ All T.fits parts.now }
{
    for part in parts {
        if !part.is_in_range() {
            return false;
        }
    }
    true
}
