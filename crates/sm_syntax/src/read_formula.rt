//! Reading literals and formulas.
ghost use Rattle.std.specs.Prelude.{◌≡◌, ◌∷◌, [], false, IfOk, map};
ghost use Rattle.sm_syntax.specs.Grammar as g;
ghost use Rattle.sm_syntax.specs.Grammars.{number_of};
ghost use Rattle.sm_syntax.specs.Reading.{Standing, Leads, ReadsWhole, ReadsTo, Chooses, each, is_next};
ghost use Rattle.sm_syntax.specs.Expressions.{literal_of};
ghost use Rattle.sm_syntax.specs.Formulas.{formula_of, conclusion_of, disj_of, conj_of, unit_of, atom_of, conjunctions_of, claims_of};
ghost use Rattle.sm_syntax.specs.TreeSteps.{lit_relation_then, quantifier_then, literal_then, negation_then, statement_then, ending_then, disjunction_then, conjunctions_then, conjunction_then, claims_then, claim_then};
ghost use Rattle.sm_syntax.specs.Symbols.{lit_relation_of, quantifier_of};

use crate::expression::{Binders, Expr};
use crate::failure::Failure;
use crate::formula::{Atom, Conclusion, Conj, Disj, Formula, Quantifier, Unit};
use crate::part::{Pair, Part, Within, joined};
use crate::place::Place;
use crate::read_expression::read_scope;
use crate::reader::Reader;
use crate::rule::{Rule, read_rule};
use crate::sign::Square;
use crate::terminal::Terminal;
use crate::tree::{Lit, LitRelation};
use sqlite_items::{Boxed, Items};
use std::alloc::Global;

/// The relation of a literal that a token is.
fn lit_relation_of(terminal: Terminal) -> Option<LitRelation>
    ensures { result ≡ lit_relation_of terminal }
{
    match terminal {
        Terminal::AtMost => Some(LitRelation::AtMost),
        Terminal::AtLeast => Some(LitRelation::AtLeast),
        Terminal::Equal => Some(LitRelation::Equal),
        Terminal::Unequal => Some(LitRelation::Unequal),
        _ => None,
    }
}

/// The quantifier that a token is.
fn quantifier_of(terminal: Terminal) -> Option<Quantifier>
    ensures { result ≡ quantifier_of terminal }
{
    match terminal {
        Terminal::All => Some(Quantifier::All),
        Terminal::Any => Some(Quantifier::Any),
        _ => None,
    }
}

/// Reads a quantifier.
fn read_quantifier(reader: &mut Reader<'_>) -> Result<Quantifier, Failure>
    ensures { ReadsWhole reader.old (g.quantifier ∷ []) quantifier_then reader.new result }
{
    let terminal = reader.terminal();
    let Some(quantifier) = quantifier_of(terminal) else {
        return Err(Failure::Syntax);
    };
    reader.take(terminal);
    Ok(quantifier)
}

impl Part for LitRelation {
    ghost symbols = { g.lit_relation ∷ [] };

    ghost steps = { lit_relation_then };

    fn read(_alloc: Global, reader: &mut Reader<'_>) -> Result<LitRelation, Failure> {
        let terminal = reader.terminal();
        let Some(relation) = lit_relation_of(terminal) else {
            return Err(Failure::Syntax);
        };
        reader.take(terminal);
        Ok(relation)
    }
}

/// The right side of a literal.
type LitParts = Within<Square, Pair<Expr, Pair<LitRelation, Expr>>>;

impl Rule<LitParts> for Lit {
    ghost number = { number_of g.lit };

    ghost listed = { λ l. literal_then (literal_of l) };

    fn build(place: Place, parts: LitParts) -> Lit {
        let Within(Pair(left, Pair(relation, right)), _) = parts;
        Lit {
            place,
            left,
            relation,
            right,
        }
    }
}

impl Part for Lit {
    ghost symbols = { g.lit ∷ [] };

    ghost steps = { λ l. literal_then (literal_of l) };

    fn read(alloc: Global, reader: &mut Reader<'_>) -> Result<Lit, Failure> {
        read_rule::<LitParts, Lit>(alloc, reader)
    }
}

/// Reads the negations before a unit.
fn read_negations(alloc: Global, reader: &mut Reader<'_>) -> Result<Items<Place>, Failure>
    ensures read { ReadsTo reader.old (g.unit ∷ []) (each negation_then) reader.new (g.unit ∷ []) result }
    ensures none { IfOk result (λ ns. is_next Terminal.Not reader.new ≡ false) }
{
    let mut negations = Items::new(alloc);
    'negations: while reader.is(Terminal::Not) {
        let place = reader.place();
        reader.take(Terminal::Not);
        negations.push(place)?;
    }
    Ok(negations)
}

/// Reads a formula.
#[cycle(formula)]
fn read_formula(alloc: Global, reader: &mut Reader<'_>) -> Result<Formula, Failure>
    ensures { ReadsWhole reader.old (g.formula ∷ []) (λ f. statement_then (formula_of f)) reader.new result }
{
    let place = reader.place();
    let left = read_disj(alloc, reader)?;
    let conclusion = read_conclusion(alloc, reader);
    let parts = joined(left, conclusion)?;
    let Pair(left, conclusion) = parts;
    Ok(Formula::new(place, left, conclusion))
}

/// Reads what may stand behind the first disjunction of a formula.
#[cycle(formula)]
fn read_conclusion(alloc: Global, reader: &mut Reader<'_>) -> Result<Conclusion, Failure>
    ensures { ReadsWhole reader.old (g.conclusion ∷ []) (λ e. ending_then (conclusion_of e)) reader.new result }
{
    if reader.accept(Terminal::Implies) {
        let disj = read_disj(alloc, reader)?;
        return Ok(Conclusion::implied(disj));
    }
    if reader.accept(Terminal::Iff) {
        let disj = read_disj(alloc, reader)?;
        return Ok(Conclusion::equivalent(disj));
    }
    Ok(Conclusion::empty())
}

/// Reads a disjunction.
#[cycle(formula)]
fn read_disj(alloc: Global, reader: &mut Reader<'_>) -> Result<Disj, Failure>
    ensures { ReadsWhole reader.old (g.disj ∷ []) (λ d. disjunction_then (disj_of d)) reader.new result }
{
    let place = reader.place();
    let first = read_conj(alloc, reader)?;
    let more = read_more_conjs(alloc, reader);
    let parts = joined(first, more)?;
    let Pair(first, more) = parts;
    Ok(Disj::new(place, first, more))
}

/// Reads the further conjunctions of a disjunction.
#[cycle(formula)]
fn read_more_conjs(alloc: Global, reader: &mut Reader<'_>) -> Result<Items<Conj>, Failure>
    ensures { ReadsWhole reader.old (g.more_conjs ∷ []) (λ xs. conjunctions_then (conjunctions_of (map conj_of xs))) reader.new result }
{
    let mut conjs = Items::new(alloc);
    'conjs: while reader.accept(Terminal::Or) {
        let conj = read_conj(alloc, reader)?;
        conjs.push(conj)?;
    }
    Ok(conjs)
}

/// Reads a conjunction.
#[cycle(formula)]
fn read_conj(alloc: Global, reader: &mut Reader<'_>) -> Result<Conj, Failure>
    ensures { ReadsWhole reader.old (g.conj ∷ []) (λ x. conjunction_then (conj_of x)) reader.new result }
{
    let place = reader.place();
    let first = read_unit(alloc, reader)?;
    let more = read_more_units(alloc, reader);
    let parts = joined(first, more)?;
    let Pair(first, more) = parts;
    Ok(Conj::new(place, first, more))
}

/// Reads the further units of a conjunction.
#[cycle(formula)]
fn read_more_units(alloc: Global, reader: &mut Reader<'_>) -> Result<Items<Unit>, Failure>
    ensures { ReadsWhole reader.old (g.more_units ∷ []) (λ xs. claims_then (claims_of (map unit_of xs))) reader.new result }
{
    let mut units = Items::new(alloc);
    'units: while reader.accept(Terminal::And) {
        let unit = read_unit(alloc, reader)?;
        units.push(unit)?;
    }
    Ok(units)
}

/// Reads a unit.
#[cycle(formula)]
fn read_unit(alloc: Global, reader: &mut Reader<'_>) -> Result<Unit, Failure>
    ensures { ReadsWhole reader.old (g.unit ∷ []) (λ u. claim_then (unit_of u)) reader.new result }
{
    let negations = read_negations(alloc, reader)?;
    let inner = read_atom(alloc, reader)?;
    Ok(Unit::new(negations, inner))
}

/// Reads a unit that isn't a negation.
#[cycle(formula)]
fn read_atom(alloc: Global, reader: &mut Reader<'_>) -> Result<Atom, Failure>
    requires { is_next Terminal.Not reader.old ≡ false }
    ensures { ReadsWhole reader.old (g.unit ∷ []) (λ a. claim_then (atom_of a)) reader.new result }
{
    match reader.terminal() {
        Terminal::OpenRound => read_formula_group(alloc, reader),
        Terminal::All => read_quantified(alloc, reader),
        Terminal::Any => read_quantified(alloc, reader),
        _ => read_lit_atom(alloc, reader),
    }
}

/// Reads a literal as a unit.
fn read_lit_atom(alloc: Global, reader: &mut Reader<'_>) -> Result<Atom, Failure>
    requires { Chooses reader.old g.unit (g.lit ∷ []) }
    ensures { ReadsWhole reader.old (g.unit ∷ []) (λ a. claim_then (atom_of a)) reader.new result }
{
    let place = reader.place();
    let lit = Lit::read(alloc, reader)?;
    Ok(Atom::from_lit(place, lit))
}

/// Reads a formula in brackets.
#[cycle(formula)]
fn read_formula_group(alloc: Global, reader: &mut Reader<'_>) -> Result<Atom, Failure>
    requires { Chooses reader.old g.unit (g.token_open_round ∷ g.formula ∷ g.token_close_round ∷ []) }
    ensures { ReadsWhole reader.old (g.unit ∷ []) (λ a. claim_then (atom_of a)) reader.new result }
{
    let place = reader.place();
    let inner = read_inner(alloc, reader)?;
    reader.close(Terminal::CloseRound)?;
    Ok(Atom::from_group(place, inner))
}

/// Reads a formula of all tuples, or of any.
#[cycle(formula)]
fn read_quantified(alloc: Global, reader: &mut Reader<'_>) -> Result<Atom, Failure>
    requires { Chooses reader.old g.unit (g.quantifier ∷ g.token_open_round ∷ g.formula ∷ g.token_for ∷ g.binders ∷ g.token_close_round ∷ []) }
    ensures { ReadsWhole reader.old (g.unit ∷ []) (λ a. claim_then (atom_of a)) reader.new result }
{
    let place = reader.place();
    let quantifier = read_quantifier(reader)?;
    let inner = read_inner(alloc, reader)?;
    let binders = read_scope(alloc, reader)?;
    Ok(Atom::from_quantified(place, quantifier, inner, binders))
}

/// Reads the formula in brackets, with the bracket before it.
#[cycle(formula)]
fn read_inner(alloc: Global, reader: &mut Reader<'_>) -> Result<Boxed<Formula>, Failure>
    ensures { ReadsWhole reader.old (g.token_open_round ∷ g.formula ∷ []) (λ f. statement_then (formula_of f)) reader.new result }
{
    reader.open(Terminal::OpenRound)?;
    let inner = read_formula(alloc, reader)?;
    let inner = Boxed::new(alloc, inner)?;
    Ok(inner)
}

impl Part for Formula {
    ghost symbols = { g.formula ∷ [] };

    ghost steps = { λ f. statement_then (formula_of f) };

    fn read(alloc: Global, reader: &mut Reader<'_>) -> Result<Formula, Failure> {
        read_formula(alloc, reader)
    }
}
