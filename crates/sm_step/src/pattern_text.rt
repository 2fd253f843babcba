//! Patterns, programs and operations in a line.
ghost use Rattle.std.specs.Prelude.{◌≡◌, ◌++◌, ◌↔◌, IsTrue, codes, Some, None, Err, IfOk, OnOk};
ghost use Rattle.sm_step.specs.PartText.{number_text, list_text, joined_or_none};
ghost use Rattle.sm_step.specs.Text.{listed_text, pattern_text, program_text, operation_text};
ghost use Rattle.sm_step.specs.LineReading.{listed_pattern_in, pattern_in, program_in, operation_in};
ghost use Rattle.sm_step.specs.Grammar.{IsListed, IsPattern, IsProgram};
ghost use Rattle.sm_step.specs.Taking.{Takes, TakesBehind};

use crate::cursor::Cursor;
use crate::line::{Listed, NorangeOf, Pattern};
use crate::lists::{all_in_range, push_listed, read_listed};
use crate::part::{Part, push_numbered, push_words};
use crate::row_range::is_list;
use sm_base::{OutOfMemory, push_whole};
use sm_frac::Op;
use std::alloc::Global;

/// Appends a group and its items.
fn push_group(into: &mut Vec<u8>, group: u32, items: &[u32]) -> Result<(), OutOfMemory>
    ensures { OnOk result (into.new.items ≡ into.old.items ++ (number_text group ++ codes ":" ++ list_text items.now)) }
{
    push_whole(into, i128::from(group))?;
    into.extend_from_slice(b":")?;
    push_listed(into, b',', items)
}

fn push_listed_pattern(into: &mut Vec<u8>, pattern: &Listed) -> Result<(), OutOfMemory>
    ensures { OnOk result (into.new.items ≡ into.old.items ++ listed_text pattern.now) }
{
    push_group(into, pattern.group, pattern.items.as_slice())
}

fn read_listed_pattern(alloc: Global, cursor: &mut Cursor<'_>) -> Listed
    ensures { Takes listed_pattern_in (listed_text result) cursor.old result cursor.new }
{
    let group = cursor.number();
    cursor.expect(b":");
    let items = read_listed(alloc, cursor, b',');
    Listed { group, items }
}

fn is_listed(pattern: &Listed) -> bool
    ensures { IsTrue result ↔ IsListed pattern.now }
{
    pattern.group.is_in_range() && is_list(pattern.items.as_slice())
}

impl Part for Listed {
    ghost use Rattle.sm_step.specs.Text.{listed_text};
    ghost use Rattle.sm_step.specs.LineReading.{listed_pattern_in};
    ghost use Rattle.sm_step.specs.Grammar.{IsListed};

    ghost text = { listed_text };

    ghost reading = { listed_pattern_in };

    ghost fits = { IsListed };

    fn push(&self, into: &mut Vec<u8>) -> Result<(), OutOfMemory> {
        push_listed_pattern(into, self)
    }

    fn read(alloc: Global, cursor: &mut Cursor<'_>) -> Listed {
        read_listed_pattern(alloc, cursor)
    }

    fn is_in_range(&self) -> bool {
        is_listed(self)
    }
}

fn push_pattern(into: &mut Vec<u8>, pattern: &Pattern) -> Result<(), OutOfMemory>
    ensures { OnOk result (into.new.items ≡ into.old.items ++ pattern_text pattern.now) }
{
    push_group(into, pattern.group, pattern.items.as_slice())?;
    into.extend_from_slice(b":")?;
    push_whole(into, pattern.weight)
}

fn read_pattern(alloc: Global, cursor: &mut Cursor<'_>) -> Pattern
    ensures { Takes pattern_in (pattern_text result) cursor.old result cursor.new }
{
    let group = cursor.number();
    cursor.expect(b":");
    let items = read_listed(alloc, cursor, b',');
    cursor.expect(b":");
    let weight = cursor.whole();
    Pattern {
        group,
        items,
        weight,
    }
}

fn is_pattern(pattern: &Pattern) -> bool
    ensures { IsTrue result ↔ IsPattern pattern.now }
{
    pattern.group.is_in_range() && is_list(pattern.items.as_slice()) && pattern.weight.is_in_range()
}

impl Part for Pattern {
    ghost use Rattle.sm_step.specs.Text.{pattern_text};
    ghost use Rattle.sm_step.specs.LineReading.{pattern_in};
    ghost use Rattle.sm_step.specs.Grammar.{IsPattern};

    ghost text = { pattern_text };

    ghost reading = { pattern_in };

    ghost fits = { IsPattern };

    fn push(&self, into: &mut Vec<u8>) -> Result<(), OutOfMemory> {
        push_pattern(into, self)
    }

    fn read(alloc: Global, cursor: &mut Cursor<'_>) -> Pattern {
        read_pattern(alloc, cursor)
    }

    fn is_in_range(&self) -> bool {
        is_pattern(self)
    }
}

/// Appends a packing's program.
fn push_pack(into: &mut Vec<u8>, k: u32, patterns: &[Listed]) -> Result<(), OutOfMemory>
    ensures { OnOk result (into.new.items ≡ into.old.items ++ (codes "pack." ++ number_text k ++ codes " " ++ joined_or_none 59 listed_text patterns.now)) }
{
    push_numbered(into, b"pack.", u64::from(k))?;
    into.extend_from_slice(b" ")?;
    push_listed(into, b';', patterns)
}

pub(crate) fn push_program(into: &mut Vec<u8>, program: &NorangeOf) -> Result<(), OutOfMemory>
    ensures { OnOk result (into.new.items ≡ into.old.items ++ program_text program.now) }
{
    match program {
        NorangeOf::Relax => push_words(into, b"relax"),
        NorangeOf::Leaf => push_words(into, b"leaf"),
        NorangeOf::Pack { k, patterns } => push_pack(into, *k, patterns.as_slice()),
    }
}

pub(crate) fn read_program(alloc: Global, cursor: &mut Cursor<'_>) -> NorangeOf
    ensures { Takes program_in (program_text result) cursor.old result cursor.new }
{
    if cursor.accept(b"relax") {
        return NorangeOf::Relax;
    }
    if cursor.accept(b"leaf") {
        return NorangeOf::Leaf;
    }
    cursor.expect(b"pack.");
    let k = cursor.number();
    cursor.expect(b" ");
    let patterns = read_listed(alloc, cursor, b';');
    NorangeOf::Pack { k, patterns }
}

pub(crate) fn is_program(program: &NorangeOf) -> bool
    ensures { IsTrue result ↔ IsProgram program.now }
{
    match program {
        NorangeOf::Relax | NorangeOf::Leaf => true,
        NorangeOf::Pack { k, patterns } => k.is_in_range() && all_in_range(patterns.as_slice()),
    }
}

pub(crate) fn push_operation(into: &mut Vec<u8>, operation: Op) -> Result<(), OutOfMemory>
    ensures { OnOk result (into.new.items ≡ into.old.items ++ operation_text operation) }
{
    let text: &[u8] = match operation {
        Op::Plus => b"plus",
        Op::Minus => b"minus",
        Op::Times => b"times",
        Op::Over => b"over",
        Op::Lcm => b"lcm",
    };
    into.extend_from_slice(text)?;
    Ok(())
}

pub(crate) fn read_operation(cursor: &mut Cursor<'_>) -> Op
    ensures { Takes operation_in (operation_text result) cursor.old result cursor.new }
{
    if cursor.accept(b"plus") {
        return Op::Plus;
    }
    if cursor.accept(b"minus") {
        return Op::Minus;
    }
    if cursor.accept(b"times") {
        return Op::Times;
    }
    if cursor.accept(b"over") {
        return Op::Over;
    }
    cursor.expect(b"lcm");
    Op::Lcm
}
