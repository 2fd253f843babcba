//! Literals: tests of one variable.
ghost use Rattle.std.specs.Prelude.{◌≡◌, ◌<◌, ◌^◌, ◌↔◌, IsTrue, unsigned_abs};
ghost use Rattle.sm_kinds.specs.Literals.{complement, is_true, IsLiteral};

use crate::values::{Values, scaled};
use crate::var::{Var, is_discrete};

/// How a literal compares its variable with its bound.
#[derive(Clone, Copy, Debug, Default, PartialEq, Eq)]
pub enum Test {
    #[default]
    AtMost,
    AtLeast,
    Equal,
    Unequal,
}

/// A test of a variable's value against a whole number.
#[derive(Clone, Copy, Debug, Default, PartialEq, Eq)]
pub struct Literal {
    /// The number of the variable.
    pub var: u32,
    pub test: Test,
    pub bound: i64,
}

impl Literal {
    /// The literal that is true of exactly the whole numbers of which this one is false.
    pub fn complement(self) -> Literal
        requires { unsigned_abs self.bound < 2 ^ 62 }
        ensures { result ≡ complement self }
    {
        let (test, bound) = match self.test {
            Test::AtMost => (Test::AtLeast, self.bound + 1),
            Test::AtLeast => (Test::AtMost, self.bound - 1),
            Test::Equal => (Test::Unequal, self.bound),
            Test::Unequal => (Test::Equal, self.bound),
        };
        Literal {
            var: self.var,
            test,
            bound,
        }
    }
}

/// Whether the literal is of one of these variables, with whole values, and its bound is within the limit.
pub(crate) fn is_literal(vars: &[Var], limit: u64, literal: &Literal) -> bool
    ensures { IsTrue result ↔ IsLiteral vars.now limit literal.now }
{
    is_discrete(vars, literal.var) && literal.bound.unsigned_abs() <= limit
}

/// Whether the literal is true of the values.
pub fn is_true<V: Values>(literal: &Literal, a: &V) -> bool
    ensures { result ≡ is_true (V.point a.now) literal.now }
{
    let bound = scaled(literal.bound, a);
    let value = a.numerator(literal.var);
    match literal.test {
        Test::AtMost => value <= bound,
        Test::AtLeast => value >= bound,
        Test::Equal => value == bound,
        Test::Unequal => value != bound,
    }
}
