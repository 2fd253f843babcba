//! Which lines are in the ranges of the grammar.
ghost use Rattle.std.specs.Prelude.{◌≡◌, ◌↔◌, IsTrue, All};
ghost use Rattle.sm_step.specs.Grammar.{IsSome, IsLongNumber, IsNumber, IsList, IsWideNumber, IsLiteral, IsDenominator, AreInLowestTerms, AreValues, ArePrices, IsTask, IsRule, IsOutcome, IsOneOutcome, IsTerm, IsPattern, IsInRange};

use crate::line::{Line, Outcome, Pattern};
use crate::lists::all_in_range;
use crate::literal::is_literal;
use crate::part::Part;
use crate::pattern_text::is_program;
use crate::row::Term;
use crate::row_range::{are_columns, are_numbers, is_list, is_long_number, is_row};
use crate::rule::Rule;
use crate::verdict_text::is_verdict;
use sm_flat::Literal;
use sm_frac::gcd;

/// The greatest denominator.
const DENOMINATORS: i64 = 1 << 52;

fn is_denominator(denominator: i64) -> bool
    ensures { IsTrue result ↔ IsDenominator denominator }
{
    1 <= denominator && denominator <= DENOMINATORS
}

/// Whether no number but 1 divides the denominator and each numerator.
fn are_in_lowest_terms(denominator: i64, numerators: &[i128]) -> bool
    ensures lowest { IsTrue result ↔ AreInLowestTerms denominator numerators.now }
    ensures whole { All IsWideNumber numerators.now }
{
    let mut divisor = u128::from(denominator.unsigned_abs());
    for numerator in numerators {
        divisor = gcd(divisor, numerator.unsigned_abs());
    }
    divisor == 1
}

fn are_values(denominator: i64, numerators: &[i128]) -> bool
    ensures { IsTrue result ↔ AreValues denominator numerators.now }
{
    is_denominator(denominator) && are_in_lowest_terms(denominator, numerators)
}

fn are_prices(denominator: i64, prices: &[i128]) -> bool
    ensures { IsTrue result ↔ ArePrices denominator prices.now }
{
    is_denominator(denominator) && all_in_range(prices)
}

fn is_task(task: Option<u32>) -> bool
    ensures { IsTrue result ↔ IsTask task }
{
    match task {
        Some(task) => task.is_in_range(),
        None => true,
    }
}

/// Whether the numbers and lists of a rule are in range.
fn is_rule(rule: &Rule) -> bool
    ensures { IsTrue result ↔ IsRule rule.now }
{
    match rule {
        Rule::Sum { k, half: other }
        | Rule::Clause { k, clause: other }
        | Rule::When { k, half: other }
        | Rule::Cap { k, group: other }
        | Rule::Chain { k, place: other } => are_numbers(*k, *other),
        Rule::Elem { k } | Rule::Isum { k } | Rule::Pay { k } => k.is_in_range(),
        Rule::Time { k, moment, task } => k.is_in_range() && moment.is_in_range() && is_task(*task),
        Rule::Hall { k, w } | Rule::Energy { k, w } | Rule::Load { k, w } => k.is_in_range()
            && is_list(w.as_slice()),
        Rule::After { k, task, w, v } | Rule::Before { k, task, w, v } => {
            are_numbers(*k, *task) && is_list(w.as_slice()) && is_list(v.as_slice())
        }
    }
}

/// Whether there is a literal and all are in range.
fn are_literals(literals: &[Literal]) -> bool
    ensures { IsTrue result ↔ (IsSome literals.now × All IsLiteral literals.now) }
{
    !literals.is_empty() && all_in_range(literals)
}

fn is_outcome(outcome: &Outcome) -> bool
    ensures { IsTrue result ↔ IsOutcome outcome.now }
{
    match outcome {
        Outcome::Close => true,
        Outcome::Literals(literals) => are_literals(literals.as_slice()),
    }
}

/// Whether a lemma may come to this: `close`, or one literal.
fn is_one_outcome(outcome: &Outcome) -> bool
    ensures { IsTrue result ↔ IsOneOutcome outcome.now }
{
    match outcome {
        Outcome::Close => true,
        Outcome::Literals(literals) => literals.as_slice().len() == 1
            && all_in_range(literals.as_slice()),
    }
}

fn are_terms(terms: &[Term]) -> bool
    ensures { IsTrue result ↔ All IsTerm terms.now }
{
    all_in_range(terms)
}

fn are_patterns(patterns: &[Pattern]) -> bool
    ensures { IsTrue result ↔ All IsPattern patterns.now }
{
    all_in_range(patterns)
}

fn is_node(id: u64, parent: u64, literal: &Literal) -> bool
    ensures { IsTrue result ↔ (IsLongNumber id × IsLongNumber parent × IsLiteral literal.now) }
{
    is_long_number(id) && is_long_number(parent) && is_literal(literal)
}

fn is_price(k: u32, denominator: i64, prices: &[i128], scale: i64, patterns: &[Pattern]) -> bool
    ensures { IsTrue result ↔ (IsNumber k × ArePrices denominator prices.now × IsDenominator scale × All IsPattern patterns.now) }
{
    k.is_in_range()
        && are_prices(denominator, prices)
        && is_denominator(scale)
        && are_patterns(patterns)
}

/// Whether nodes that a circuit leaves are some, and in range.
fn is_leave(k: u32, nodes: &[u32]) -> bool
    ensures { IsTrue result ↔ (IsNumber k × IsSome nodes.now × IsList nodes.now) }
{
    k.is_in_range() && !nodes.is_empty() && is_list(nodes)
}

/// Whether there is a term and all are in range.
fn is_combination(terms: &[Term]) -> bool
    ensures { IsTrue result ↔ (IsSome terms.now × All IsTerm terms.now) }
{
    !terms.is_empty() && are_terms(terms)
}

/// Whether what the line says is in range.
pub(crate) fn is_in_range(line: &Line) -> bool
    ensures { IsTrue result ↔ IsInRange line.now }
{
    match line {
        Line::Header { version } => *version == 1,
        Line::Node {
            id,
            parent,
            literal,
        } => is_node(*id, *parent, literal),
        Line::At { id } => is_long_number(*id),
        Line::Infer { rule, result } => is_rule(rule) && is_outcome(result),
        Line::Lemma { lemma, result } => is_long_number(*lemma) && is_one_outcome(result),
        Line::CutoffNone { literal, terms } | Line::CutoffCost { literal, terms } => is_literal(
            literal,
        ) && are_terms(terms.as_slice()),
        Line::Floor { terms } | Line::CloseNone { terms } | Line::CloseCost { terms } => are_terms(
            terms.as_slice(),
        ),
        Line::CloseFloor | Line::Qed | Line::Drop => true,
        Line::Violated { k } => k.is_in_range(),
        Line::Pair {
            denominator,
            values,
        }
        | Line::Sol {
            denominator,
            values,
        } => are_values(*denominator, values.as_slice()),
        Line::Norange { of, basis, .. } => is_program(of) && is_list(basis.as_slice()),
        Line::Price {
            k,
            denominator,
            prices,
            scale,
            patterns,
        } => is_price(
            *k,
            *denominator,
            prices.as_slice(),
            *scale,
            patterns.as_slice(),
        ),
        Line::Farkas {
            k,
            denominator,
            prices,
        } => k.is_in_range() && are_prices(*denominator, prices.as_slice()),
        Line::CutGomory { terms } => is_combination(terms.as_slice()),
        Line::CutCover { row, columns } => is_row(row) && are_columns(columns.as_slice()),
        Line::CutLeave { k, nodes } => is_leave(*k, nodes.as_slice()),
        Line::Assume { literals } => are_literals(literals.as_slice()),
        Line::Feasible {
            sub,
            denominator,
            values,
        } => sub.is_in_range() && are_values(*denominator, values.as_slice()),
        Line::Verdict(verdict) => is_verdict(verdict),
        _ => false,
    }
}
