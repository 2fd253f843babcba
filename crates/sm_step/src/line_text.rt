//! Reading a line without its end.
ghost use Rattle.std.specs.Prelude.{◌≡◌, ◌++◌, ℤ, List, codes, Some, None, Err, IfOk};
ghost use Rattle.sm_base.specs.Whole.{whole_text};
ghost use Rattle.sm_step.specs.PartText.{number_text, prices_text, fraction_text, spaced};
ghost use Rattle.sm_step.specs.Text.{operation_text, body_text};
ghost use Rattle.sm_step.specs.PartReading.{values_in};
ghost use Rattle.sm_step.specs.LineReading.{node_in, infer_in, lemma_in, cutoff_in, close_in, step_in, norange_in, packing_in, price_in, cut_in, seldom_in, relaxed_in, body_in};
ghost use Rattle.sm_step.specs.Taking.{Takes, TakesBehind};

use crate::cursor::Cursor;
use crate::fraction::read_fraction;
use crate::line::Line;
use crate::lists::{read_each, read_joined, read_listed};
use crate::literal::read_literal;
use crate::pattern_text::{read_operation, read_program};
use crate::row_text::read_row;
use crate::rule_text::{read_outcome, read_rule};
use crate::short::Short;
use crate::verdict_text::read_verdict;
use sm_frac::{Frac, Op};
use std::alloc::Global;

/// Reads what stands behind `node `.
fn read_node(cursor: &mut Cursor<'_>) -> Line
    ensures { TakesBehind (codes "node ") node_in (body_text result) cursor.old result cursor.new }
{
    let id = cursor.long_number();
    cursor.expect(b" ");
    let parent = cursor.long_number();
    cursor.expect(b" ");
    let literal = read_literal(cursor);
    Line::Node {
        id,
        parent,
        literal,
    }
}

/// Reads what stands behind `infer `.
fn read_infer(alloc: Global, cursor: &mut Cursor<'_>) -> Line
    ensures { TakesBehind (codes "infer ") infer_in (body_text result) cursor.old result cursor.new }
{
    let rule = read_rule(alloc, cursor);
    cursor.expect(b" -> ");
    let result = read_outcome(alloc, cursor);
    Line::Infer { rule, result }
}

/// Reads what stands behind `lemma `.
fn read_lemma(alloc: Global, cursor: &mut Cursor<'_>) -> Line
    ensures { TakesBehind (codes "lemma ") lemma_in (body_text result) cursor.old result cursor.new }
{
    let lemma = cursor.long_number();
    cursor.expect(b" -> ");
    let result = read_outcome(alloc, cursor);
    Line::Lemma { lemma, result }
}

/// Reads what stands behind `cutoff `.
fn read_cutoff(alloc: Global, cursor: &mut Cursor<'_>) -> Line
    ensures { TakesBehind (codes "cutoff ") cutoff_in (body_text result) cursor.old result cursor.new }
{
    let literal = read_literal(cursor);
    if cursor.accept(b" none") {
        let terms = read_each(alloc, cursor, b' ');
        return Line::CutoffNone { literal, terms };
    }
    cursor.expect(b" cost");
    let terms = read_each(alloc, cursor, b' ');
    Line::CutoffCost { literal, terms }
}

/// Reads what stands behind `close `.
fn read_close(alloc: Global, cursor: &mut Cursor<'_>) -> Line
    ensures { TakesBehind (codes "close ") close_in (body_text result) cursor.old result cursor.new }
{
    if cursor.accept(b"none") {
        let terms = read_each(alloc, cursor, b' ');
        return Line::CloseNone { terms };
    }
    if cursor.accept(b"cost") {
        let terms = read_each(alloc, cursor, b' ');
        return Line::CloseCost { terms };
    }
    cursor.expect(b"floor");
    Line::CloseFloor
}

/// Reads an operation and its operands.
fn read_step(cursor: &mut Cursor<'_>) -> (Op, Frac, Frac)
    ensures { Takes step_in (operation_text result.0 ++ codes " " ++ fraction_text result.1 ++ codes " " ++ fraction_text result.2) cursor.old result cursor.new }
{
    let op = read_operation(cursor);
    cursor.expect(b" ");
    let left = read_fraction(cursor);
    cursor.expect(b" ");
    let right = read_fraction(cursor);
    (op, left, right)
}

/// Reads what stands behind `norange `.
fn read_norange(alloc: Global, cursor: &mut Cursor<'_>) -> Line
    ensures { TakesBehind (codes "norange ") norange_in (body_text result) cursor.old result cursor.new }
{
    let of = read_program(alloc, cursor);
    cursor.expect(b" ");
    let basis = read_listed(alloc, cursor, b',');
    cursor.expect(b" ");
    let (op, left, right) = read_step(cursor);
    Line::Norange {
        of,
        basis,
        op,
        left,
        right,
    }
}

/// Reads a constraint, a denominator and prices.
fn read_packing(alloc: Global, cursor: &mut Cursor<'_>) -> (u32, i64, Short<i128>)
    ensures { Takes packing_in (number_text result.0 ++ codes " " ++ whole_text result.1 ++ codes " " ++ prices_text result.2) cursor.old result cursor.new }
{
    let k = cursor.number();
    cursor.expect(b" ");
    let denominator = cursor.narrow();
    cursor.expect(b" ");
    let prices = read_listed(alloc, cursor, b',');
    (k, denominator, prices)
}

/// Reads what stands behind `price `.
fn read_price(alloc: Global, cursor: &mut Cursor<'_>) -> Line
    ensures { TakesBehind (codes "price ") price_in (body_text result) cursor.old result cursor.new }
{
    let (k, denominator, prices) = read_packing(alloc, cursor);
    cursor.expect(b" ");
    let scale = cursor.narrow();
    let patterns = read_each(alloc, cursor, b' ');
    Line::Price {
        k,
        denominator,
        prices,
        scale,
        patterns,
    }
}

/// Reads what stands behind `cut `.
fn read_cut(alloc: Global, cursor: &mut Cursor<'_>) -> Line
    ensures { TakesBehind (codes "cut ") cut_in (body_text result) cursor.old result cursor.new }
{
    if cursor.accept(b"gomory") {
        let terms = read_each(alloc, cursor, b' ');
        return Line::CutGomory { terms };
    }
    if cursor.accept(b"cover ") {
        let row = read_row(alloc, cursor);
        cursor.expect(b" ");
        let columns = read_joined(alloc, cursor, b',');
        return Line::CutCover { row, columns };
    }
    cursor.expect(b"leave ");
    let k = cursor.number();
    cursor.expect(b" ");
    let nodes = read_listed(alloc, cursor, b',');
    Line::CutLeave { k, nodes }
}

/// Reads a denominator and numerators.
fn read_values(alloc: Global, cursor: &mut Cursor<'_>) -> (i64, Short<i128>)
    ensures { Takes values_in (whole_text result.0 ++ spaced result.1) cursor.old result cursor.new }
{
    let denominator = cursor.narrow();
    let values = read_each(alloc, cursor, b' ');
    (denominator, values)
}

/// Reads a line of a frame, a sub or a packing, or the first or the last line.
fn read_seldom(alloc: Global, cursor: &mut Cursor<'_>) -> Line
    ensures { Takes seldom_in (body_text result) cursor.old result cursor.new }
{
    if cursor.accept(b"assume") {
        let literals = read_each(alloc, cursor, b' ');
        return Line::Assume { literals };
    }
    if cursor.accept(b"qed") {
        return Line::Qed;
    }
    if cursor.accept(b"drop") {
        return Line::Drop;
    }
    if cursor.accept(b"feasible ") {
        let sub = cursor.number();
        cursor.expect(b" ");
        let (denominator, values) = read_values(alloc, cursor);
        return Line::Feasible {
            sub,
            denominator,
            values,
        };
    }
    if cursor.accept(b"price ") {
        return read_price(alloc, cursor);
    }
    if cursor.accept(b"farkas ") {
        let (k, denominator, prices) = read_packing(alloc, cursor);
        return Line::Farkas {
            k,
            denominator,
            prices,
        };
    }
    if cursor.accept(b"verdict ") {
        let verdict = read_verdict(alloc, cursor);
        return Line::Verdict(verdict);
    }
    cursor.expect(b"simpl-log ");
    let version = cursor.number();
    Line::Header { version }
}

/// Reads a line of the relaxation, a solution, or one of the lines above.
fn read_relaxed(alloc: Global, cursor: &mut Cursor<'_>) -> Line
    ensures { Takes relaxed_in (body_text result) cursor.old result cursor.new }
{
    if cursor.accept(b"cutoff ") {
        return read_cutoff(alloc, cursor);
    }
    if cursor.accept(b"floor") {
        let terms = read_each(alloc, cursor, b' ');
        return Line::Floor { terms };
    }
    if cursor.accept(b"pair ") {
        let (denominator, values) = read_values(alloc, cursor);
        return Line::Pair {
            denominator,
            values,
        };
    }
    if cursor.accept(b"norange ") {
        return read_norange(alloc, cursor);
    }
    if cursor.accept(b"cut ") {
        return read_cut(alloc, cursor);
    }
    if cursor.accept(b"sol ") {
        let (denominator, values) = read_values(alloc, cursor);
        return Line::Sol {
            denominator,
            values,
        };
    }
    read_seldom(alloc, cursor)
}

/// Reads a line without its end.
pub(crate) fn read_body(alloc: Global, cursor: &mut Cursor<'_>) -> Line
    ensures { Takes body_in (body_text result) cursor.old result cursor.new }
{
    if cursor.accept(b"node ") {
        return read_node(cursor);
    }
    if cursor.accept(b"at ") {
        let id = cursor.long_number();
        return Line::At { id };
    }
    if cursor.accept(b"infer ") {
        return read_infer(alloc, cursor);
    }
    if cursor.accept(b"close ") {
        return read_close(alloc, cursor);
    }
    if cursor.accept(b"violated ") {
        let k = cursor.number();
        return Line::Violated { k };
    }
    if cursor.accept(b"lemma ") {
        return read_lemma(alloc, cursor);
    }
    read_relaxed(alloc, cursor)
}
