//! Reading a line.
ghost use Rattle.std.specs.Prelude.{◌≡◌, ◌<◌, ◌^◌, ◌++◌, ℕ, List, length, codes, Some, None, Ok, Err, true, false, IsOk, IfOk, IfErr, IfSome, IfNone};
ghost use Rattle.sm_step.specs.declared.line.Line.{Line as Step};
ghost use Rattle.sm_step.specs.declared.refusal.LineRefusal.TheVariants.{BadLine};
ghost use Rattle.sm_step.specs.Text.{text_of};
ghost use Rattle.sm_step.specs.Reading.{rest_behind};
ghost use Rattle.sm_step.specs.LineReading.{line_in};
ghost use Rattle.sm_step.specs.Grammar.{IsInRange, IsLine};
ghost use Rattle.sm_step.specs.Taking.{Takes};

use crate::cursor::Cursor;
use crate::line::Line;
use crate::line_text::read_body;
use crate::range::is_in_range;
use crate::refusal::LineRefusal;
use std::alloc::Global;

/// The greatest length of a line other than `norange`, with its end.
const LENGTHS: usize = 1 << 24;

/// Reads a whole line, with its end.
fn read_line(alloc: Global, cursor: &mut Cursor<'_>) -> Line
    ensures { Takes line_in (text_of result) cursor.old result cursor.new }
{
    let line = read_body(alloc, cursor);
    cursor.expect(b"\n");
    cursor.end();
    line
}

/// Why a line that was read is refused: the first fault, or that it is out of range.
fn refusal_of(cursor: &Cursor<'_>, line: &Line) -> Option<LineRefusal>
    ensures none { IfNone result (IsOk cursor.now × IsInRange line.now) }
    ensures bad { result ≡ Some BadLine → IsOk cursor.now → IsInRange line.now → ⊥ }
    ensures fault { IfSome result (λ fault. IfErr cursor.now (λ first. fault ≡ first)) }
{
    if let Some(fault) = cursor.fault() {
        return Some(fault);
    }
    if is_in_range(line) {
        return None;
    }
    Some(LineRefusal::BadLine)
}

/// The value, or why it is refused. Generic, so that what is dropped is one value, whatever it holds.
fn unless<T: Drop>(value: T, refusal: Option<LineRefusal>) -> Result<T, LineRefusal>
    ensures none { IfNone refusal (result ≡ Ok value) }
    ensures some { IfSome refusal (λ why. result ≡ Err why) }
{
    match refusal {
        Some(why) => Err(why),
        None => Ok(value),
    }
}

/// Whether bytes are too many for a line that begins as they do.
pub fn is_too_long(bytes: &[u8]) -> bool
    ensures yes { result ≡ true → (2 ^ 24 < length bytes.now) × (rest_behind (codes "norange ") bytes.now ≡ None) }
    ensures no { result ≡ false → 2 ^ 24 < length bytes.now → rest_behind (codes "norange ") bytes.now ≡ None → ⊥ }
    ensures begins { result ≡ true → (l : Step) (more : List ℕ) → IsLine l → bytes.now ++ more ≡ text_of l → ⊥ }
{
    bytes.len() > LENGTHS && !Cursor::new(bytes).accept(b"norange ")
}

/// The line of these bytes, its end among them.
///
/// # Errors
///
/// `BadLine` exactly where the bytes are the text of no line of the grammar, or `OutOfMemory`.
pub fn read(alloc: Global, bytes: &[u8]) -> Result<Line, LineRefusal>
    ensures found { IfOk result (λ l. IsLine l × (bytes.now ≡ text_of l)) }
    ensures bad { result ≡ Err BadLine → (l : Step) → IsLine l → bytes.now ≡ text_of l → ⊥ }
{
    if is_too_long(bytes) {
        return Err(LineRefusal::BadLine);
    }
    let mut cursor = Cursor::new(bytes);
    let line = read_line(alloc, &mut cursor);
    let refusal = refusal_of(&cursor, &line);
    unless(line, refusal)
}

/// Two lines of the grammar have different texts.
pub fn one_line()
    ensures { (l k : Step) → IsLine l → IsLine k → text_of l ≡ text_of k → l ≡ k }
{}
