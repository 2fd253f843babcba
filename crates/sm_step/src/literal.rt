//! Literals in a line.
ghost use Rattle.std.specs.Prelude.{◌≡◌, ◌++◌, Some, None, Err, IfOk, OnOk, ◌↔◌, IsTrue};
ghost use Rattle.sm_step.specs.PartText.{test_text, literal_text};
ghost use Rattle.sm_step.specs.PartReading.{test_in, literal_in};
ghost use Rattle.sm_step.specs.Grammar.{IsLiteral};
ghost use Rattle.sm_step.specs.Taking.{Takes, TakesBehind};

use crate::cursor::Cursor;
use crate::part::Part;
use sm_base::{OutOfMemory, push_whole};
use sm_flat::{Literal, Test};
use std::alloc::Global;

fn push_test(into: &mut Vec<u8>, test: Test) -> Result<(), OutOfMemory>
    ensures { OnOk result (into.new.items ≡ into.old.items ++ test_text test) }
{
    let text: &[u8] = match test {
        Test::AtMost => b"<=",
        Test::AtLeast => b">=",
        Test::Equal => b"=",
        Test::Unequal => b"!=",
    };
    into.extend_from_slice(text)?;
    Ok(())
}

pub(crate) fn push_literal(into: &mut Vec<u8>, literal: &Literal) -> Result<(), OutOfMemory>
    ensures { OnOk result (into.new.items ≡ into.old.items ++ literal_text literal.now) }
{
    into.extend_from_slice(b"v")?;
    push_whole(into, i128::from(literal.var))?;
    push_test(into, literal.test)?;
    push_whole(into, i128::from(literal.bound))
}

fn read_test(cursor: &mut Cursor<'_>) -> Test
    ensures { Takes test_in (test_text result) cursor.old result cursor.new }
{
    if cursor.accept(b"<=") {
        return Test::AtMost;
    }
    if cursor.accept(b">=") {
        return Test::AtLeast;
    }
    if cursor.accept(b"=") {
        return Test::Equal;
    }
    cursor.expect(b"!=");
    Test::Unequal
}

pub(crate) fn read_literal(cursor: &mut Cursor<'_>) -> Literal
    ensures { Takes literal_in (literal_text result) cursor.old result cursor.new }
{
    cursor.expect(b"v");
    let var = cursor.number();
    let test = read_test(cursor);
    let bound = cursor.narrow();
    Literal { var, test, bound }
}

/// The greatest bound of a literal, in absolute value.
const BOUNDS: u64 = 1 << 32;

pub(crate) fn is_literal(literal: &Literal) -> bool
    ensures { IsTrue result ↔ IsLiteral literal.now }
{
    literal.var.is_in_range() && literal.bound.unsigned_abs() <= BOUNDS
}

impl Part for Literal {
    ghost use Rattle.sm_step.specs.PartText.{literal_text};
    ghost use Rattle.sm_step.specs.PartReading.{literal_in};
    ghost use Rattle.sm_step.specs.Grammar.{IsLiteral};

    ghost text = { literal_text };

    ghost reading = { literal_in };

    ghost fits = { IsLiteral };

    fn push(&self, into: &mut Vec<u8>) -> Result<(), OutOfMemory> {
        push_literal(into, self)
    }

    fn read(_alloc: Global, cursor: &mut Cursor<'_>) -> Literal {
        read_literal(cursor)
    }

    fn is_in_range(&self) -> bool {
        is_literal(self)
    }
}
