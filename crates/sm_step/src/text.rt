//! The text of a line.
ghost use Rattle.std.specs.Prelude.{◌≡◌, ◌++◌, ℤ, List, codes, IfOk, OnOk, OnErr};
ghost use Rattle.sm_base.specs.Whole.{whole_text};
ghost use Rattle.sm_step.specs.PartText.{number_text, list_text, prices_text, literal_text, fraction_text, each_after, joined, spaced};
ghost use Rattle.sm_step.specs.RowText.{column_text, row_text, terms_text};
ghost use Rattle.sm_step.specs.RuleText.{rule_text, outcome_text};
ghost use Rattle.sm_step.specs.Text.{pattern_text, program_text, operation_text, verdict_text, body_text, text_of};

use crate::fraction::push_fraction;
use crate::line::{Line, NorangeOf, Outcome, Pattern};
use crate::lists::{push_each, push_joined, push_listed};
use crate::literal::push_literal;
use crate::part::{push_numbered, push_words};
use crate::pattern_text::{push_operation, push_program};
use crate::row::{Col, RowRef, Term};
use crate::row_text::push_row;
use crate::rule::Rule;
use crate::rule_text::{push_outcome, push_rule};
use crate::verdict::Verdict;
use crate::verdict_text::push_verdict;
use sm_base::{OutOfMemory, push_whole};
use sm_flat::Literal;
use sm_frac::{Frac, Op};

fn push_node(into: &mut Vec<u8>, id: u64, parent: u64, literal: &Literal) -> Result<(), OutOfMemory>
    ensures { OnOk result (into.new.items ≡ into.old.items ++ (codes "node " ++ number_text id ++ codes " " ++ number_text parent ++ codes " " ++ literal_text literal.now)) }
{
    push_numbered(into, b"node ", id)?;
    push_numbered(into, b" ", parent)?;
    into.extend_from_slice(b" ")?;
    push_literal(into, literal)
}

fn push_infer(into: &mut Vec<u8>, rule: &Rule, outcome: &Outcome) -> Result<(), OutOfMemory>
    ensures { OnOk result (into.new.items ≡ into.old.items ++ (codes "infer " ++ rule_text rule.now ++ codes " -> " ++ outcome_text outcome.now)) }
{
    into.extend_from_slice(b"infer ")?;
    push_rule(into, rule)?;
    into.extend_from_slice(b" -> ")?;
    push_outcome(into, outcome)
}

fn push_lemma(into: &mut Vec<u8>, lemma: u64, outcome: &Outcome) -> Result<(), OutOfMemory>
    ensures { OnOk result (into.new.items ≡ into.old.items ++ (codes "lemma " ++ number_text lemma ++ codes " -> " ++ outcome_text outcome.now)) }
{
    push_numbered(into, b"lemma ", lemma)?;
    into.extend_from_slice(b" -> ")?;
    push_outcome(into, outcome)
}

/// Appends words, and each term after a space.
fn push_terms(into: &mut Vec<u8>, words: &[u8], terms: &[Term]) -> Result<(), OutOfMemory>
    ensures { OnOk result (into.new.items ≡ into.old.items ++ (words.now ++ terms_text terms.now)) }
{
    into.extend_from_slice(words)?;
    push_each(into, b' ', terms)
}

/// Appends words and a level, and each term after a space.
fn push_level(
    into: &mut Vec<u8>,
    words: &[u8],
    level: u32,
    terms: &[Term],
) -> Result<(), OutOfMemory>
    ensures { OnOk result (into.new.items ≡ into.old.items ++ (words.now ++ number_text level ++ terms_text terms.now)) }
{
    push_numbered(into, words, u64::from(level))?;
    push_each(into, b' ', terms)
}

/// Appends a literal that a combination gives, and the combination.
fn push_cutoff(
    into: &mut Vec<u8>,
    literal: &Literal,
    words: &[u8],
    terms: &[Term],
) -> Result<(), OutOfMemory>
    ensures { OnOk result (into.new.items ≡ into.old.items ++ (codes "cutoff " ++ literal_text literal.now ++ words.now ++ terms_text terms.now)) }
{
    into.extend_from_slice(b"cutoff ")?;
    push_literal(into, literal)?;
    push_terms(into, words, terms)
}

/// Appends the same at a level.
fn push_cutoff_level(
    into: &mut Vec<u8>,
    literal: &Literal,
    level: u32,
    terms: &[Term],
) -> Result<(), OutOfMemory>
    ensures { OnOk result (into.new.items ≡ into.old.items ++ (codes "cutoff " ++ literal_text literal.now ++ codes " cost level " ++ number_text level ++ terms_text terms.now)) }
{
    into.extend_from_slice(b"cutoff ")?;
    push_literal(into, literal)?;
    push_level(into, b" cost level ", level, terms)
}

/// Appends a word, a denominator and numerators.
fn push_values(
    into: &mut Vec<u8>,
    word: &[u8],
    denominator: i64,
    values: &[i128],
) -> Result<(), OutOfMemory>
    ensures { OnOk result (into.new.items ≡ into.old.items ++ (word.now ++ whole_text denominator ++ spaced values.now)) }
{
    into.extend_from_slice(word)?;
    push_whole(into, i128::from(denominator))?;
    push_each(into, b' ', values)
}

fn push_feasible(
    into: &mut Vec<u8>,
    sub: u32,
    denominator: i64,
    values: &[i128],
) -> Result<(), OutOfMemory>
    ensures { OnOk result (into.new.items ≡ into.old.items ++ (codes "feasible " ++ number_text sub ++ codes " " ++ whole_text denominator ++ spaced values.now)) }
{
    push_numbered(into, b"feasible ", u64::from(sub))?;
    push_values(into, b" ", denominator, values)
}

/// Appends a word, a constraint, a denominator and prices.
fn push_prices(
    into: &mut Vec<u8>,
    word: &[u8],
    k: u32,
    denominator: i64,
    prices: &[i128],
) -> Result<(), OutOfMemory>
    ensures { OnOk result (into.new.items ≡ into.old.items ++ (word.now ++ number_text k ++ codes " " ++ whole_text denominator ++ codes " " ++ prices_text prices.now)) }
{
    push_numbered(into, word, u64::from(k))?;
    into.extend_from_slice(b" ")?;
    push_whole(into, i128::from(denominator))?;
    into.extend_from_slice(b" ")?;
    push_listed(into, b',', prices)
}

/// Appends a scale and each pattern after a space.
fn push_patterns(into: &mut Vec<u8>, scale: i64, patterns: &[Pattern]) -> Result<(), OutOfMemory>
    ensures { OnOk result (into.new.items ≡ into.old.items ++ (codes " " ++ whole_text scale ++ each_after 32 pattern_text patterns.now)) }
{
    into.extend_from_slice(b" ")?;
    push_whole(into, i128::from(scale))?;
    push_each(into, b' ', patterns)
}

/// Appends an operation and its operands.
fn push_step(into: &mut Vec<u8>, op: Op, left: &Frac, right: &Frac) -> Result<(), OutOfMemory>
    ensures { OnOk result (into.new.items ≡ into.old.items ++ (codes " " ++ operation_text op ++ codes " " ++ fraction_text left.now ++ codes " " ++ fraction_text right.now)) }
{
    into.extend_from_slice(b" ")?;
    push_operation(into, op)?;
    into.extend_from_slice(b" ")?;
    push_fraction(into, left)?;
    into.extend_from_slice(b" ")?;
    push_fraction(into, right)
}

/// Appends a program and its basis.
fn push_basis(into: &mut Vec<u8>, program: &NorangeOf, basis: &[u32]) -> Result<(), OutOfMemory>
    ensures { OnOk result (into.new.items ≡ into.old.items ++ (codes "norange " ++ program_text program.now ++ codes " " ++ list_text basis.now)) }
{
    into.extend_from_slice(b"norange ")?;
    push_program(into, program)?;
    into.extend_from_slice(b" ")?;
    push_listed(into, b',', basis)
}

fn push_norange(
    into: &mut Vec<u8>,
    program: &NorangeOf,
    basis: &[u32],
    op: Op,
    left: &Frac,
    right: &Frac,
) -> Result<(), OutOfMemory>
    ensures { OnOk result (into.new.items ≡ into.old.items ++ (codes "norange " ++ program_text program.now ++ codes " " ++ list_text basis.now ++ codes " " ++ operation_text op ++ codes " " ++ fraction_text left.now ++ codes " " ++ fraction_text right.now)) }
{
    push_basis(into, program, basis)?;
    push_step(into, op, left, right)
}

fn push_price(
    into: &mut Vec<u8>,
    k: u32,
    denominator: i64,
    prices: &[i128],
    scale: i64,
    patterns: &[Pattern],
) -> Result<(), OutOfMemory>
    ensures { OnOk result (into.new.items ≡ into.old.items ++ (codes "price " ++ number_text k ++ codes " " ++ whole_text denominator ++ codes " " ++ prices_text prices.now ++ codes " " ++ whole_text scale ++ each_after 32 pattern_text patterns.now)) }
{
    push_prices(into, b"price ", k, denominator, prices)?;
    push_patterns(into, scale, patterns)
}

fn push_assume(into: &mut Vec<u8>, literals: &[Literal]) -> Result<(), OutOfMemory>
    ensures { OnOk result (into.new.items ≡ into.old.items ++ (codes "assume" ++ each_after 32 literal_text literals.now)) }
{
    into.extend_from_slice(b"assume")?;
    push_each(into, b' ', literals)
}

/// Appends the last line.
fn push_last(into: &mut Vec<u8>, verdict: &Verdict) -> Result<(), OutOfMemory>
    ensures { OnOk result (into.new.items ≡ into.old.items ++ (codes "verdict " ++ verdict_text verdict.now)) }
{
    into.extend_from_slice(b"verdict ")?;
    push_verdict(into, verdict)
}

fn push_cover(into: &mut Vec<u8>, row: &RowRef, columns: &[Col]) -> Result<(), OutOfMemory>
    ensures { OnOk result (into.new.items ≡ into.old.items ++ (codes "cut cover " ++ row_text row.now ++ codes " " ++ joined 44 column_text columns.now)) }
{
    into.extend_from_slice(b"cut cover ")?;
    push_row(into, row)?;
    into.extend_from_slice(b" ")?;
    push_joined(into, b',', columns)
}

fn push_leave(into: &mut Vec<u8>, k: u32, nodes: &[u32]) -> Result<(), OutOfMemory>
    ensures { OnOk result (into.new.items ≡ into.old.items ++ (codes "cut leave " ++ number_text k ++ codes " " ++ list_text nodes.now)) }
{
    push_numbered(into, b"cut leave ", u64::from(k))?;
    into.extend_from_slice(b" ")?;
    push_listed(into, b',', nodes)
}

fn push_name(into: &mut Vec<u8>, name: u64, row: &RowRef) -> Result<(), OutOfMemory>
    ensures { OnOk result (into.new.items ≡ into.old.items ++ (codes "name " ++ number_text name ++ codes " " ++ row_text row.now)) }
{
    push_numbered(into, b"name ", name)?;
    into.extend_from_slice(b" ")?;
    push_row(into, row)
}

fn push_body(into: &mut Vec<u8>, line: &Line) -> Result<(), OutOfMemory>
    ensures { OnOk result (into.new.items ≡ into.old.items ++ body_text line.now) }
{
    match line {
        Line::Header { version } => push_numbered(into, b"simpl-log ", u64::from(*version)),
        Line::Node {
            id,
            parent,
            literal,
        } => push_node(into, *id, *parent, literal),
        Line::At { id } => push_numbered(into, b"at ", *id),
        Line::Infer { rule, result } => push_infer(into, rule, result),
        Line::Lemma { lemma, result } => push_lemma(into, *lemma, result),
        Line::CutoffNone { literal, terms } => push_cutoff(
            into,
            literal,
            b" none",
            terms.as_slice(),
        ),
        Line::CutoffCost { literal, terms } => push_cutoff(
            into,
            literal,
            b" cost",
            terms.as_slice(),
        ),
        Line::CutoffCostLevel {
            literal,
            level,
            terms,
        } => push_cutoff_level(into, literal, *level, terms.as_slice()),
        Line::Floor { terms } => push_terms(into, b"floor", terms.as_slice()),
        Line::FloorLevel { level, terms } => push_level(
            into,
            b"floor level ",
            *level,
            terms.as_slice(),
        ),
        Line::CloseNone { terms } => push_terms(into, b"close none", terms.as_slice()),
        Line::CloseCost { terms } => push_terms(into, b"close cost", terms.as_slice()),
        Line::CloseCostLevel { level, terms } => push_level(
            into,
            b"close cost level ",
            *level,
            terms.as_slice(),
        ),
        Line::CloseFloor => push_words(into, b"close floor"),
        Line::Violated { k } => push_numbered(into, b"violated ", u64::from(*k)),
        Line::Pair {
            denominator,
            values,
        } => push_values(into, b"pair ", *denominator, values.as_slice()),
        Line::Norange {
            of,
            basis,
            op,
            left,
            right,
        } => push_norange(into, of, basis.as_slice(), *op, left, right),
        Line::Price {
            k,
            denominator,
            prices,
            scale,
            patterns,
        } => push_price(
            into,
            *k,
            *denominator,
            prices.as_slice(),
            *scale,
            patterns.as_slice(),
        ),
        Line::Farkas {
            k,
            denominator,
            prices,
        } => push_prices(into, b"farkas ", *k, *denominator, prices.as_slice()),
        Line::CutGomory { terms } => push_terms(into, b"cut gomory", terms.as_slice()),
        Line::CutCover { row, columns } => push_cover(into, row, columns.as_slice()),
        Line::CutLeave { k, nodes } => push_leave(into, *k, nodes.as_slice()),
        Line::Assume { literals } => push_assume(into, literals.as_slice()),
        Line::Qed => push_words(into, b"qed"),
        Line::Drop => push_words(into, b"drop"),
        Line::Feasible {
            sub,
            denominator,
            values,
        } => push_feasible(into, *sub, *denominator, values.as_slice()),
        Line::Sol {
            denominator,
            values,
        } => push_values(into, b"sol ", *denominator, values.as_slice()),
        Line::Name { name, row } => push_name(into, *name, row),
        Line::ForgetLemma { lemma } => push_numbered(into, b"forget lemma ", *lemma),
        Line::ForgetCut { cut } => push_numbered(into, b"forget cut ", *cut),
        Line::Verdict(verdict) => push_last(into, verdict),
    }
}

#[tactic(auto, unfolding(crate::specs::Text::text_of))]
fn push_text(into: &mut Vec<u8>, line: &Line) -> Result<(), OutOfMemory>
    ensures { OnOk result (into.new.items ≡ into.old.items ++ text_of line.now) }
{
    push_body(into, line)?;
    into.extend_from_slice(b"\n")?;
    Ok(())
}

/// Appends the one text of a line, with its end. After want of memory `into` is as before.
pub fn print(line: &Line, into: &mut Vec<u8>) -> Result<(), OutOfMemory>
    ensures ok { OnOk result (into.new.items ≡ into.old.items ++ text_of line.now) }
    ensures err { OnErr result (into.new.items ≡ into.old.items) }
{
    let mut text = Vec::new(*into.allocator());
    push_text(&mut text, line)?;
    into.extend_from_slice(text.as_slice())?;
    Ok(())
}
