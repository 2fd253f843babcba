//! The trees of formulas.
ghost use Rattle.std.specs.Prelude.{◌≡◌, map};
ghost use Rattle.sm_syntax.specs.Expressions.{binding_of, literal_of};
ghost use Rattle.sm_syntax.specs.Formulas as plain;
ghost use Rattle.sm_syntax.specs.Formulas.{formula_of, conclusion_of, disj_of, conj_of, unit_of, atom_of, conjunctions_of, claims_of, negated};

use crate::expression::Binders;
use crate::place::Place;
use crate::tree::Lit;
use sqlite_items::{Boxed, Items};

/// A disjunction that may imply another, or hold exactly where the other does.
#[cycle(formula)]
#[derive(Drop)]
pub struct Formula {
    pub place: Place,
    pub left: Disj,
    pub conclusion: Conclusion,
}

/// What may stand behind the first disjunction of a formula.
#[cycle(formula)]
#[derive(Drop)]
pub enum Conclusion {
    None,
    Implies(Disj),
    Iff(Disj),
}

/// Conjunctions of which one holds.
#[cycle(formula)]
#[derive(Drop)]
pub struct Disj {
    pub place: Place,
    pub first: Conj,
    pub more: Items<Conj>,
}

/// Units that all hold.
#[cycle(formula)]
#[derive(Drop)]
pub struct Conj {
    pub place: Place,
    pub first: Unit,
    pub more: Items<Unit>,
}

/// A unit behind its negations. Each `not` begins a unit, at the place that is kept, and the innermost unit is
/// last. So a text may have as many as it likes, and no call goes deeper for them.
#[cycle(formula)]
#[derive(Drop)]
pub struct Unit {
    pub negations: Items<Place>,
    pub inner: Atom,
}

/// A unit that isn't a negation.
#[cycle(formula)]
#[derive(Drop)]
pub enum Atom {
    Lit {
        place: Place,
        lit: Lit,
    },
    Group {
        place: Place,
        inner: Boxed<Formula>,
    },
    Quantified {
        place: Place,
        quantifier: Quantifier,
        inner: Boxed<Formula>,
        binders: Binders,
    },
}

/// Whether all formulas of the tuples hold, or one of them.
#[derive(Clone, Copy)]
pub enum Quantifier {
    All,
    Any,
}

impl Formula {
    /// The formula of these parts.
    pub fn new(place: Place, left: Disj, conclusion: Conclusion) -> Formula
        ensures { formula_of result ≡ plain.statement place (disj_of left) (conclusion_of conclusion) }
    {
        Formula {
            place,
            left,
            conclusion,
        }
    }
}

impl Conclusion {
    /// Nothing behind the first disjunction.
    pub fn empty() -> Conclusion
        ensures { conclusion_of result ≡ plain.nothing }
    {
        Conclusion::None
    }

    /// A disjunction that is implied.
    pub fn implied(disj: Disj) -> Conclusion
        ensures { conclusion_of result ≡ plain.implied (disj_of disj) }
    {
        Conclusion::Implies(disj)
    }

    /// A disjunction that holds exactly where the first does.
    pub fn equivalent(disj: Disj) -> Conclusion
        ensures { conclusion_of result ≡ plain.equivalent (disj_of disj) }
    {
        Conclusion::Iff(disj)
    }
}

impl Disj {
    /// The disjunction of these parts.
    pub fn new(place: Place, first: Conj, more: Items<Conj>) -> Disj
        ensures { disj_of result ≡ plain.disjunction place (conj_of first) (conjunctions_of (map conj_of more)) }
    {
        Disj { place, first, more }
    }
}

impl Conj {
    /// The conjunction of these parts.
    pub fn new(place: Place, first: Unit, more: Items<Unit>) -> Conj
        ensures { conj_of result ≡ plain.conjunction place (unit_of first) (claims_of (map unit_of more)) }
    {
        Conj { place, first, more }
    }
}

impl Unit {
    /// The unit behind its negations.
    pub fn new(negations: Items<Place>, inner: Atom) -> Unit
        ensures { unit_of result ≡ negated negations (atom_of inner) }
    {
        Unit { negations, inner }
    }
}

impl Atom {
    /// A literal as a unit.
    pub fn from_lit(place: Place, lit: Lit) -> Atom
        ensures { atom_of result ≡ plain.literal place (literal_of lit) }
    {
        Atom::Lit { place, lit }
    }

    /// A formula in brackets as a unit.
    pub fn from_group(place: Place, inner: Boxed<Formula>) -> Atom
        ensures { atom_of result ≡ plain.group place (formula_of inner) }
    {
        Atom::Group { place, inner }
    }

    /// A formula of all tuples, or of any, as a unit.
    pub fn from_quantified(
        place: Place,
        quantifier: Quantifier,
        inner: Boxed<Formula>,
        binders: Binders,
    ) -> Atom
        ensures { atom_of result ≡ plain.quantified place quantifier (formula_of inner) (binding_of binders) }
    {
        Atom::Quantified {
            place,
            quantifier,
            inner,
            binders,
        }
    }
}
