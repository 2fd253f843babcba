//! Reading expressions.
ghost use Rattle.std.specs.Prelude.{◌≡◌, ◌<◌, ◌∷◌, [], None, Some, IfSome, IfNone, IfOk, OnOk, length, map};
ghost use Rattle.sm_syntax.specs.Grammars.{leaf, number_of, predict};
ghost use Rattle.sm_syntax.specs.Grammar as g;
ghost use Rattle.sm_syntax.specs.Reading.{Standing, next, Leads, ReadsWhole, Chooses};
ghost use Rattle.sm_syntax.specs.Expressions.{expression_of, binding_of, factor_of, term_of, test_of, addends_of, operands_of, addend_of, expressions_of, comparisons_of};
ghost use Rattle.sm_syntax.specs.TreeSteps.{sign_then, minus_then, relation_then, bind_then, list_then, more_exprs_then, expression_then, addends_then, product_then, operand_then, operands_then, indices_then, binding_then, tests_then, comparisons_then, comparison_then};
ghost use Rattle.sm_syntax.specs.Symbols.{sign_of, relation_of, begins_sign};

use crate::expression::{Addend, Binders, Expr, Factor, Term, Test};
use crate::failure::Failure;
use crate::group::{Grouped, read_repeated};
use crate::part::{Behind, Pair, Part, gathered, joined};
use crate::place::Place;
use crate::reader::Reader;
use crate::rule::{Rule, read_rule};
use crate::sign::{Comma, In};
use crate::terminal::Terminal;
use crate::tree::{Bind, Name, Relation, Sign};
use sqlite_items::{Boxed, Items};
use std::alloc::Global;

/// The sign that a token is.
fn sign_of(terminal: Terminal) -> Option<Sign>
    ensures { result ≡ sign_of terminal }
{
    match terminal {
        Terminal::Plus => Some(Sign::Plus),
        Terminal::Minus => Some(Sign::Minus),
        _ => None,
    }
}

/// Reads the sign before a further term.
fn read_sign(reader: &mut Reader<'_>) -> Result<Sign, Failure>
    ensures read { ReadsWhole reader.old (g.sign ∷ []) sign_then reader.new result }
    ensures shorter { OnOk result (length reader.new.later < length reader.old.later) }
{
    let terminal = reader.terminal();
    let Some(sign) = sign_of(terminal) else {
        return Err(Failure::Syntax);
    };
    reader.take(terminal);
    Ok(sign)
}

/// Whether a further term begins with the token.
fn begins_sign(terminal: Terminal) -> bool
    ensures { result ≡ begins_sign terminal }
{
    match terminal {
        Terminal::Plus | Terminal::Minus => true,
        _ => false,
    }
}

/// Reads the minus that may stand before the first term.
fn read_minus(reader: &mut Reader<'_>) -> bool
    ensures { Leads reader.old (g.minus ∷ []) (minus_then result) reader.new [] }
{
    reader.accept(Terminal::Minus)
}

/// The relation that a token is.
fn relation_of(terminal: Terminal) -> Option<Relation>
    ensures { result ≡ relation_of terminal }
{
    match terminal {
        Terminal::Less => Some(Relation::Less),
        Terminal::AtMost => Some(Relation::AtMost),
        Terminal::Greater => Some(Relation::Greater),
        Terminal::AtLeast => Some(Relation::AtLeast),
        Terminal::Equal => Some(Relation::Equal),
        Terminal::Unequal => Some(Relation::Unequal),
        _ => None,
    }
}

/// Reads the relation of a test.
fn read_relation(reader: &mut Reader<'_>) -> Result<Relation, Failure>
    ensures { ReadsWhole reader.old (g.relation ∷ []) relation_then reader.new result }
{
    let terminal = reader.terminal();
    let Some(relation) = relation_of(terminal) else {
        return Err(Failure::Syntax);
    };
    reader.take(terminal);
    Ok(relation)
}

/// The right side of a bind.
type BindParts = Pair<Name, Behind<In, Name>>;

impl Rule<BindParts> for Bind {
    ghost number = { number_of g.bind };

    ghost listed = { bind_then };

    fn build(place: Place, parts: BindParts) -> Bind {
        let Pair(name, Behind(set, _)) = parts;
        Bind { place, name, set }
    }
}

impl Part for Bind {
    ghost symbols = { g.bind ∷ [] };

    ghost steps = { bind_then };

    fn read(alloc: Global, reader: &mut Reader<'_>) -> Result<Bind, Failure> {
        read_rule::<BindParts, Bind>(alloc, reader)
    }
}

impl Grouped<Comma> for Bind {
    ghost group = { number_of g.more_binds };
}

impl Part for Items<Bind> {
    ghost symbols = { g.more_binds ∷ [] };

    ghost steps = { λ xs. list_then g.more_binds (g.token_comma ∷ g.bind ∷ g.more_binds ∷ []) bind_then xs };

    fn read(alloc: Global, reader: &mut Reader<'_>) -> Result<Items<Bind>, Failure> {
        read_repeated::<Comma, Bind>(alloc, reader)
    }
}

/// Reads an expression.
#[cycle(expression)]
fn read_expr(alloc: Global, reader: &mut Reader<'_>) -> Result<Expr, Failure>
    ensures { ReadsWhole reader.old (g.expr ∷ []) (λ x. expression_then (expression_of x)) reader.new result }
{
    let place = reader.place();
    let is_negated = read_minus(reader);
    let first = read_term(alloc, reader)?;
    let more = read_more_terms(alloc, reader);
    let parts = joined(first, more)?;
    let Pair(first, more) = parts;
    Ok(Expr::new(place, is_negated, first, more))
}

/// Reads the further terms of an expression.
#[cycle(expression)]
fn read_more_terms(alloc: Global, reader: &mut Reader<'_>) -> Result<Items<Addend>, Failure>
    ensures { ReadsWhole reader.old (g.more_terms ∷ []) (λ xs. addends_then (addends_of (map addend_of xs))) reader.new result }
{
    let mut terms = Items::new(alloc);
    'terms: while begins_sign(reader.terminal()) {
        let sign = read_sign(reader)?;
        let term = read_term(alloc, reader)?;
        let addend = Addend::new(sign, term);
        terms.push(addend)?;
    }
    Ok(terms)
}

/// Reads a term.
#[cycle(expression)]
fn read_term(alloc: Global, reader: &mut Reader<'_>) -> Result<Term, Failure>
    ensures { ReadsWhole reader.old (g.term ∷ []) (λ x. product_then (term_of x)) reader.new result }
{
    let place = reader.place();
    let first = read_factor(alloc, reader)?;
    let more = read_more_factors(alloc, reader);
    let parts = joined(first, more)?;
    let Pair(first, more) = parts;
    Ok(Term::new(place, first, more))
}

/// Reads the further factors of a term.
#[cycle(expression)]
fn read_more_factors(alloc: Global, reader: &mut Reader<'_>) -> Result<Items<Factor>, Failure>
    ensures { ReadsWhole reader.old (g.more_factors ∷ []) (λ xs. operands_then (operands_of (map factor_of xs))) reader.new result }
{
    let mut factors = Items::new(alloc);
    'factors: while reader.accept(Terminal::Times) {
        let factor = read_factor(alloc, reader)?;
        factors.push(factor)?;
    }
    Ok(factors)
}

/// Reads a factor.
#[cycle(expression)]
fn read_factor(alloc: Global, reader: &mut Reader<'_>) -> Result<Factor, Failure>
    ensures { ReadsWhole reader.old (g.factor ∷ []) (λ x. operand_then (factor_of x)) reader.new result }
{
    match reader.terminal() {
        Terminal::Name => read_named(alloc, reader),
        Terminal::OpenRound => read_group(alloc, reader),
        Terminal::Sum => read_sum(alloc, reader),
        _ => read_numeral(reader),
    }
}

/// Reads a number as a factor.
fn read_numeral(reader: &mut Reader<'_>) -> Result<Factor, Failure>
    requires { Chooses reader.old g.factor (g.token_number ∷ []) }
    ensures { ReadsWhole reader.old (g.factor ∷ []) (λ x. operand_then (factor_of x)) reader.new result }
{
    let place = reader.place();
    let number = reader.number()?;
    Ok(Factor::from_number(place, number))
}

/// Reads a name and its indices.
#[cycle(expression)]
fn read_named(alloc: Global, reader: &mut Reader<'_>) -> Result<Factor, Failure>
    requires { Chooses reader.old g.factor (g.token_name ∷ g.indices ∷ []) }
    ensures { ReadsWhole reader.old (g.factor ∷ []) (λ x. operand_then (factor_of x)) reader.new result }
{
    let place = reader.place();
    let name = reader.name(alloc)?;
    let indices = read_indices(alloc, reader);
    let parts = joined(name, indices)?;
    let Pair(name, indices) = parts;
    Ok(Factor::from_name(place, name, indices))
}

/// Reads the indices that may stand behind a name.
#[cycle(expression)]
fn read_indices(alloc: Global, reader: &mut Reader<'_>) -> Result<Items<Expr>, Failure>
    ensures { ReadsWhole reader.old (g.indices ∷ []) (λ xs. indices_then (expressions_of (map expression_of xs))) reader.new result }
{
    if !reader.is(Terminal::OpenSquare) {
        return Ok(Items::new(alloc));
    }
    let opened = read_opened_indices(alloc, reader)?;
    let closed = reader.close(Terminal::CloseSquare);
    let parts = joined(opened, closed)?;
    let Pair(Pair(first, more), _) = parts;
    let indices = gathered(alloc, first, more)?;
    Ok(indices)
}

/// Reads the indices with the bracket before them.
#[cycle(expression)]
fn read_opened_indices(
    alloc: Global,
    reader: &mut Reader<'_>,
) -> Result<Pair<Expr, Items<Expr>>, Failure>
    ensures { ReadsWhole reader.old (g.token_open_square ∷ g.expr ∷ g.more_exprs ∷ []) (λ p r. expression_then (expression_of p.0) (more_exprs_then (map expression_of p.1) r)) reader.new result }
{
    reader.open(Terminal::OpenSquare)?;
    let first = read_expr(alloc, reader)?;
    let more = read_more_exprs(alloc, reader);
    let parts = joined(first, more)?;
    Ok(parts)
}

/// Reads the further expressions of a list.
#[cycle(expression)]
fn read_more_exprs(alloc: Global, reader: &mut Reader<'_>) -> Result<Items<Expr>, Failure>
    ensures { ReadsWhole reader.old (g.more_exprs ∷ []) (λ xs. more_exprs_then (map expression_of xs)) reader.new result }
{
    let mut exprs = Items::new(alloc);
    'exprs: while reader.accept(Terminal::Comma) {
        let expr = read_expr(alloc, reader)?;
        exprs.push(expr)?;
    }
    Ok(exprs)
}

/// Reads an expression in brackets.
#[cycle(expression)]
fn read_group(alloc: Global, reader: &mut Reader<'_>) -> Result<Factor, Failure>
    requires { Chooses reader.old g.factor (g.token_open_round ∷ g.expr ∷ g.token_close_round ∷ []) }
    ensures { ReadsWhole reader.old (g.factor ∷ []) (λ x. operand_then (factor_of x)) reader.new result }
{
    let place = reader.place();
    let inner = read_bracketed(alloc, reader)?;
    let closed = reader.close(Terminal::CloseRound);
    let parts = joined(inner, closed)?;
    let Pair(inner, _) = parts;
    Ok(Factor::from_group(place, inner))
}

/// Reads an expression with the bracket before it.
#[cycle(expression)]
fn read_bracketed(alloc: Global, reader: &mut Reader<'_>) -> Result<Boxed<Expr>, Failure>
    ensures { ReadsWhole reader.old (g.token_open_round ∷ g.expr ∷ []) (λ x. expression_then (expression_of x)) reader.new result }
{
    reader.open(Terminal::OpenRound)?;
    let inner = read_expr(alloc, reader)?;
    let inner = Boxed::new(alloc, inner)?;
    Ok(inner)
}

/// Reads a sum over tuples.
#[cycle(expression)]
fn read_sum(alloc: Global, reader: &mut Reader<'_>) -> Result<Factor, Failure>
    requires { Chooses reader.old g.factor (g.token_sum ∷ g.token_open_round ∷ g.expr ∷ g.token_for ∷ g.binders ∷ g.token_close_round ∷ []) }
    ensures { ReadsWhole reader.old (g.factor ∷ []) (λ x. operand_then (factor_of x)) reader.new result }
{
    let place = reader.place();
    reader.expect(Terminal::Sum)?;
    let summand = read_bracketed(alloc, reader)?;
    let binders = read_scope(alloc, reader);
    let parts = joined(summand, binders)?;
    let Pair(summand, binders) = parts;
    let binders = Boxed::new(alloc, binders)?;
    Ok(Factor::from_sum(place, summand, binders))
}

/// Reads the binders of a sum or a quantifier, with the word before them and the bracket behind them.
#[cycle(expression)]
pub fn read_scope(alloc: Global, reader: &mut Reader<'_>) -> Result<Binders, Failure>
    ensures { ReadsWhole reader.old (g.token_for ∷ g.binders ∷ g.token_close_round ∷ []) (λ b. binding_then (binding_of b)) reader.new result }
{
    reader.expect(Terminal::For)?;
    let binders = read_binders(alloc, reader)?;
    let closed = reader.close(Terminal::CloseRound);
    let parts = joined(binders, closed)?;
    let Pair(binders, _) = parts;
    Ok(binders)
}

/// Reads binders.
#[cycle(expression)]
fn read_binders(alloc: Global, reader: &mut Reader<'_>) -> Result<Binders, Failure>
    ensures { ReadsWhole reader.old (g.binders ∷ []) (λ b. binding_then (binding_of b)) reader.new result }
{
    let place = reader.place();
    let parts = Pair::<Bind, Items<Bind>>::read(alloc, reader)?;
    let tests = read_tests(alloc, reader);
    let whole = joined(parts, tests)?;
    let Pair(Pair(first, more), tests) = whole;
    Ok(Binders::new(place, first, more, tests))
}

/// Reads the tests that binders may have.
#[cycle(expression)]
fn read_tests(alloc: Global, reader: &mut Reader<'_>) -> Result<Items<Test>, Failure>
    ensures { ReadsWhole reader.old (g.tests ∷ []) (λ ts. tests_then (comparisons_of (map test_of ts))) reader.new result }
{
    if !reader.accept(Terminal::If) {
        return Ok(Items::new(alloc));
    }
    let first = read_test(alloc, reader)?;
    let more = read_more_tests(alloc, reader);
    let parts = joined(first, more)?;
    let Pair(first, more) = parts;
    let tests = gathered(alloc, first, more)?;
    Ok(tests)
}

/// Reads the further tests.
#[cycle(expression)]
fn read_more_tests(alloc: Global, reader: &mut Reader<'_>) -> Result<Items<Test>, Failure>
    ensures { ReadsWhole reader.old (g.more_tests ∷ []) (λ ts. comparisons_then (comparisons_of (map test_of ts))) reader.new result }
{
    let mut tests = Items::new(alloc);
    'tests: while reader.accept(Terminal::And) {
        let test = read_test(alloc, reader)?;
        tests.push(test)?;
    }
    Ok(tests)
}

/// Reads a test.
#[cycle(expression)]
fn read_test(alloc: Global, reader: &mut Reader<'_>) -> Result<Test, Failure>
    ensures { ReadsWhole reader.old (g.test ∷ []) (λ t. comparison_then (test_of t)) reader.new result }
{
    let place = reader.place();
    let left = read_expr(alloc, reader)?;
    let comparison = read_comparison(alloc, reader);
    let parts = joined(left, comparison)?;
    let Pair(left, Pair(relation, right)) = parts;
    Ok(Test::new(place, left, relation, right))
}

/// Reads the relation of a test and the expression behind it.
#[cycle(expression)]
fn read_comparison(alloc: Global, reader: &mut Reader<'_>) -> Result<Pair<Relation, Expr>, Failure>
    ensures { ReadsWhole reader.old (g.relation ∷ g.expr ∷ []) (λ p r. relation_then p.0 (expression_then (expression_of p.1) r)) reader.new result }
{
    let relation = read_relation(reader)?;
    let right = read_expr(alloc, reader)?;
    Ok(Pair(relation, right))
}

impl Part for Expr {
    ghost symbols = { g.expr ∷ [] };

    ghost steps = { λ x. expression_then (expression_of x) };

    fn read(alloc: Global, reader: &mut Reader<'_>) -> Result<Expr, Failure> {
        read_expr(alloc, reader)
    }
}

impl Part for Binders {
    ghost symbols = { g.binders ∷ [] };

    ghost steps = { λ b. binding_then (binding_of b) };

    fn read(alloc: Global, reader: &mut Reader<'_>) -> Result<Binders, Failure> {
        read_binders(alloc, reader)
    }
}

impl Part for Items<Expr> {
    ghost symbols = { g.more_exprs ∷ [] };

    ghost steps = { λ xs. more_exprs_then (map expression_of xs) };

    fn read(alloc: Global, reader: &mut Reader<'_>) -> Result<Items<Expr>, Failure> {
        read_more_exprs(alloc, reader)
    }
}
