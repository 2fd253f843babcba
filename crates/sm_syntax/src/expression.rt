//! The trees of expressions, and of the binders of sums.
ghost use Rattle.std.specs.Prelude.{◌≡◌, map};
ghost use Rattle.sm_syntax.specs.Expressions as plain;
ghost use Rattle.sm_syntax.specs.Expressions.{expression_of, addend_of, addends_of, term_of, operands_of, factor_of, expressions_of, binding_of, test_of, comparisons_of};

use crate::place::Place;
use crate::tree::{Bind, Name, Number, Relation, Sign};
use sqlite_items::{Boxed, Items};

/// Terms that are added or subtracted.
#[cycle(expression)]
#[derive(Drop)]
pub struct Expr {
    pub place: Place,
    /// Whether a minus stands before the first term.
    pub is_negated: bool,
    pub first: Term,
    pub more: Items<Addend>,
}

/// A further term of an expression.
#[cycle(expression)]
#[derive(Drop)]
pub struct Addend {
    pub sign: Sign,
    pub term: Term,
}

/// Factors that are multiplied.
#[cycle(expression)]
#[derive(Drop)]
pub struct Term {
    pub place: Place,
    pub first: Factor,
    pub more: Items<Factor>,
}

/// A number, a name with its indices if it has some, an expression in brackets, or a sum over tuples.
#[cycle(expression)]
#[derive(Drop)]
pub enum Factor {
    Number {
        place: Place,
        number: Number,
    },
    Name {
        place: Place,
        name: Name,
        indices: Items<Expr>,
    },
    Group {
        place: Place,
        inner: Boxed<Expr>,
    },
    Sum {
        place: Place,
        summand: Boxed<Expr>,
        binders: Boxed<Binders>,
    },
}

/// Names bound to index sets, and the tests that a tuple passes.
#[cycle(expression)]
#[derive(Drop)]
pub struct Binders {
    pub place: Place,
    pub first: Bind,
    pub more: Items<Bind>,
    pub tests: Items<Test>,
}

/// A comparison of two expressions.
#[cycle(expression)]
#[derive(Drop)]
pub struct Test {
    pub place: Place,
    pub left: Expr,
    pub relation: Relation,
    pub right: Expr,
}

impl Expr {
    /// The expression of these parts.
    pub fn new(place: Place, is_negated: bool, first: Term, more: Items<Addend>) -> Expr
        ensures { expression_of result ≡ plain.expression place is_negated (term_of first) (addends_of (map addend_of more)) }
    {
        Expr {
            place,
            is_negated,
            first,
            more,
        }
    }
}

impl Addend {
    /// The term with its sign.
    pub fn new(sign: Sign, term: Term) -> Addend
        ensures { addend_of result ≡ (sign, term_of term) }
    {
        Addend { sign, term }
    }
}

impl Term {
    /// The product of these factors.
    pub fn new(place: Place, first: Factor, more: Items<Factor>) -> Term
        ensures { term_of result ≡ plain.product place (factor_of first) (operands_of (map factor_of more)) }
    {
        Term { place, first, more }
    }
}

impl Factor {
    /// A number as a factor.
    pub fn from_number(place: Place, number: Number) -> Factor
        ensures { factor_of result ≡ plain.number place number }
    {
        Factor::Number { place, number }
    }

    /// A name with its indices as a factor.
    pub fn from_name(place: Place, name: Name, indices: Items<Expr>) -> Factor
        ensures { factor_of result ≡ plain.named place name (expressions_of (map expression_of indices)) }
    {
        Factor::Name {
            place,
            name,
            indices,
        }
    }

    /// An expression in brackets as a factor.
    pub fn from_group(place: Place, inner: Boxed<Expr>) -> Factor
        ensures { factor_of result ≡ plain.group place (expression_of inner) }
    {
        Factor::Group { place, inner }
    }

    /// A sum over tuples as a factor.
    pub fn from_sum(place: Place, summand: Boxed<Expr>, binders: Boxed<Binders>) -> Factor
        ensures { factor_of result ≡ plain.sum place (expression_of summand) (binding_of binders) }
    {
        Factor::Sum {
            place,
            summand,
            binders,
        }
    }
}

impl Binders {
    /// The binders of these parts.
    pub fn new(place: Place, first: Bind, more: Items<Bind>, tests: Items<Test>) -> Binders
        ensures { binding_of result ≡ plain.binding place first more (comparisons_of (map test_of tests)) }
    {
        Binders {
            place,
            first,
            more,
            tests,
        }
    }
}

impl Test {
    /// The comparison of two expressions.
    pub fn new(place: Place, left: Expr, relation: Relation, right: Expr) -> Test
        ensures { test_of result ≡ plain.comparison place (expression_of left) relation (expression_of right) }
    {
        Test {
            place,
            left,
            relation,
            right,
        }
    }
}
