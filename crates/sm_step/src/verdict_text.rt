//! Verdicts in a line.
ghost use Rattle.std.specs.Prelude.{◌≡◌, ◌++◌, ◌↔◌, IsTrue, codes, Some, None, Err, IfOk, OnOk};
ghost use Rattle.sm_step.specs.PartText.{number_text, fraction_text, value_text};
ghost use Rattle.sm_step.specs.Text.{best_text, verdict_text};
ghost use Rattle.sm_step.specs.LineReading.{best_in, bound_in, verdict_in};
ghost use Rattle.sm_step.specs.Grammar.{IsBest, IsVerdict};
ghost use Rattle.sm_step.specs.Taking.{Takes, TakesBehind};

use crate::cursor::Cursor;
use crate::fraction::{push_fraction, read_fraction};
use crate::lists::{push_joined, read_joined};
use crate::part::{push_numbered, push_words};
use crate::row_range::is_long_number;
use crate::short::Short;
use crate::verdict::Verdict;
use sm_base::OutOfMemory;
use sm_frac::Frac;
use std::alloc::Global;

fn push_best(into: &mut Vec<u8>, best: &Option<Short<Frac>>) -> Result<(), OutOfMemory>
    ensures { OnOk result (into.new.items ≡ into.old.items ++ best_text best.now) }
{
    match best {
        Some(values) => push_joined(into, b',', values.as_slice()),
        None => push_words(into, b"none"),
    }
}

/// Appends a bound and a best.
fn push_bound(
    into: &mut Vec<u8>,
    bound: &Frac,
    best: &Option<Short<Frac>>,
) -> Result<(), OutOfMemory>
    ensures { OnOk result (into.new.items ≡ into.old.items ++ (fraction_text bound.now ++ codes " " ++ best_text best.now)) }
{
    push_fraction(into, bound)?;
    into.extend_from_slice(b" ")?;
    push_best(into, best)
}

fn push_optimal(into: &mut Vec<u8>, values: &[Frac]) -> Result<(), OutOfMemory>
    ensures { OnOk result (into.new.items ≡ into.old.items ++ (codes "optimal " ++ value_text values.now)) }
{
    into.extend_from_slice(b"optimal ")?;
    push_joined(into, b',', values)
}

fn push_limit(
    into: &mut Vec<u8>,
    nodes: u64,
    bound: &Frac,
    best: &Option<Short<Frac>>,
) -> Result<(), OutOfMemory>
    ensures { OnOk result (into.new.items ≡ into.old.items ++ (codes "limit " ++ number_text nodes ++ codes " " ++ fraction_text bound.now ++ codes " " ++ best_text best.now)) }
{
    push_numbered(into, b"limit ", nodes)?;
    into.extend_from_slice(b" ")?;
    push_bound(into, bound, best)
}

fn push_range(
    into: &mut Vec<u8>,
    bound: &Frac,
    best: &Option<Short<Frac>>,
) -> Result<(), OutOfMemory>
    ensures { OnOk result (into.new.items ≡ into.old.items ++ (codes "range " ++ fraction_text bound.now ++ codes " " ++ best_text best.now)) }
{
    into.extend_from_slice(b"range ")?;
    push_bound(into, bound, best)
}

/// Appends the one text of a verdict, as it stands in its line.
///
/// # Errors
///
/// `OutOfMemory`. Then `into` may have some of the text.
pub fn push_verdict(into: &mut Vec<u8>, verdict: &Verdict) -> Result<(), OutOfMemory>
    ensures { OnOk result (into.new.items ≡ into.old.items ++ verdict_text verdict.now) }
{
    match verdict {
        Verdict::Optimal { values } => push_optimal(into, values.as_slice()),
        Verdict::Satisfied => push_words(into, b"satisfied"),
        Verdict::Infeasible => push_words(into, b"infeasible"),
        Verdict::Limit { nodes, bound, best } => push_limit(into, *nodes, bound, best),
        Verdict::Range { bound, best } => push_range(into, bound, best),
    }
}

fn read_best(alloc: Global, cursor: &mut Cursor<'_>) -> Option<Short<Frac>>
    ensures { Takes best_in (best_text result) cursor.old result cursor.new }
{
    if cursor.accept(b"none") {
        return None;
    }
    let values = read_joined(alloc, cursor, b',');
    Some(values)
}

/// Reads a bound and a best.
fn read_bound(alloc: Global, cursor: &mut Cursor<'_>) -> (Frac, Option<Short<Frac>>)
    ensures { Takes bound_in (fraction_text result.0 ++ codes " " ++ best_text result.1) cursor.old result cursor.new }
{
    let bound = read_fraction(cursor);
    cursor.expect(b" ");
    let best = read_best(alloc, cursor);
    (bound, best)
}

/// Reads a verdict.
pub(crate) fn read_verdict(alloc: Global, cursor: &mut Cursor<'_>) -> Verdict
    ensures { Takes verdict_in (verdict_text result) cursor.old result cursor.new }
{
    if cursor.accept(b"optimal ") {
        let values = read_joined(alloc, cursor, b',');
        return Verdict::Optimal { values };
    }
    if cursor.accept(b"satisfied") {
        return Verdict::Satisfied;
    }
    if cursor.accept(b"infeasible") {
        return Verdict::Infeasible;
    }
    if cursor.accept(b"limit ") {
        let nodes = cursor.long_number();
        cursor.expect(b" ");
        let (bound, best) = read_bound(alloc, cursor);
        return Verdict::Limit { nodes, bound, best };
    }
    cursor.expect(b"range ");
    let (bound, best) = read_bound(alloc, cursor);
    Verdict::Range { bound, best }
}

fn is_best(best: &Option<Short<Frac>>) -> bool
    ensures { IsTrue result ↔ IsBest best.now }
{
    match best {
        Some(values) => !values.as_slice().is_empty(),
        None => true,
    }
}

pub(crate) fn is_verdict(verdict: &Verdict) -> bool
    ensures { IsTrue result ↔ IsVerdict verdict.now }
{
    match verdict {
        Verdict::Optimal { values } => !values.as_slice().is_empty(),
        Verdict::Satisfied | Verdict::Infeasible => true,
        Verdict::Limit { nodes, best, .. } => is_long_number(*nodes) && is_best(best),
        Verdict::Range { best, .. } => is_best(best),
    }
}
