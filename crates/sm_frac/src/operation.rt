//! Sums, differences, products and quotients.
ghost use Rattle.std.specs.Prelude.{◌≡◌, ◌↔◌, IsNone, IfSome, IfOk, IsErr, IfErr, neg_ℤ, pos, ◌≢◌, unsigned_abs};
ghost use Rattle.sm_frac.specs.Frac.{value_of, ProductPasses, SumPasses, signed_like};
ghost use Rattle.sm_frac.specs.Passes.{Passes};
ghost use Rattle.sm_frac.specs.Rational.{◌*ℚ◌, ◌+ℚ◌, ◌-ℚ◌, inverse};

use crate::divisor::{lowest_terms, lowest_terms_by};
use crate::fraction::{Frac, make};
use crate::range::{product_within, sum_within};

/// An operation of this crate.
#[derive(Clone, Copy, PartialEq, Eq, Debug)]
pub enum Op {
    Plus,
    Minus,
    Times,
    Over,
    /// The least common multiple of [`lcm_52`](crate::lcm_52).
    Lcm,
}

/// An operation that passed the range, with its operands.
#[derive(Clone, Copy, PartialEq, Eq, Debug)]
pub struct RangePassed {
    pub op: Op,
    pub left: Frac,
    pub right: Frac,
}

/// The sum of two fractions of one denominator, which takes no product.
fn sum_alike(left: Frac, right: Frac) -> Option<Frac>
    requires { left.d ≡ right.d }
    ensures none { IsNone result ↔ SumPasses left.n left.d right.n right.d }
    ensures exact { IfSome result (λ r. value_of r ≡ value_of left +ℚ value_of right) }
{
    let n = sum_within(left.n, right.n)?;
    let parts = lowest_terms(n, left.d);
    Some(make(parts.n, parts.d))
}

/// The sum over the least common denominator, brought to lowest terms by what the two denominators share (P. Henrici,
/// "A subroutine for computations with rational numbers", 1956; D. Knuth, "Seminumerical Algorithms", 4.5.1).
fn sum_unlike(left: Frac, right: Frac) -> Option<Frac>
    ensures none { IsNone result ↔ SumPasses left.n left.d right.n right.d }
    ensures exact { IfSome result (λ r. value_of r ≡ value_of left +ℚ value_of right) }
{
    let denominators = lowest_terms(left.d, right.d);
    let first = product_within(left.n, denominators.d)?;
    let second = product_within(right.n, denominators.n)?;
    let n = sum_within(first, second)?;
    let d = product_within(left.d, denominators.d)?;
    let parts = lowest_terms_by(n, d, denominators.divisor);
    Some(make(parts.n, parts.d))
}

/// The sum, or None where it passes the range.
fn sum(left: Frac, right: Frac) -> Option<Frac>
    ensures none { IsNone result ↔ SumPasses left.n left.d right.n right.d }
    ensures exact { IfSome result (λ r. value_of r ≡ value_of left +ℚ value_of right) }
{
    if left.d == right.d {
        sum_alike(left, right)
    } else {
        sum_unlike(left, right)
    }
}

/// The difference, or None where it passes the range.
fn difference(left: Frac, right: Frac) -> Option<Frac>
    ensures none { IsNone result ↔ SumPasses left.n left.d (neg_ℤ right.n) right.d }
    ensures exact { IfSome result (λ r. value_of r ≡ value_of left -ℚ value_of right) }
{
    sum(left, negated(right))
}

/// The product, or None where it passes the range. Each numerator is first divided by what it shares with the other
/// denominator, so that the products are in lowest terms.
fn product(left: Frac, right: Frac) -> Option<Frac>
    ensures none { IsNone result ↔ ProductPasses left.n left.d right.n right.d }
    ensures exact { IfSome result (λ r. value_of r ≡ value_of left *ℚ value_of right) }
{
    let first = lowest_terms(left.n, right.d);
    let second = lowest_terms(right.n, left.d);
    let n = product_within(first.n, second.n)?;
    let d = product_within(second.d, first.d)?;
    Some(make(n, d))
}

/// The number with the other sign.
fn negated(f: Frac) -> Frac
    ensures { (result.n ≡ neg_ℤ f.n) × (result.d ≡ f.d) }
{
    make(-f.n, f.d)
}

/// One over the number.
fn reciprocal(f: Frac) -> Frac
    requires { f.n ≢ pos 0 }
    ensures { (result.n ≡ signed_like f.n f.d) × (result.d ≡ pos (unsigned_abs f.n)) }
{
    if f.n > 0 {
        make(f.d, f.n)
    } else {
        make(-f.d, -f.n)
    }
}

/// The quotient, or None where it passes the range.
fn quotient(left: Frac, right: Frac) -> Option<Frac>
    requires { right.n ≢ pos 0 }
    ensures none { IsNone result ↔ ProductPasses left.n left.d (signed_like right.n right.d) (pos (unsigned_abs right.n)) }
    ensures exact { IfSome result (λ r. value_of r ≡ value_of left *ℚ inverse (value_of right)) }
{
    product(left, reciprocal(right))
}

impl Frac {
    /// The sum.
    ///
    /// # Errors
    ///
    /// Where a numerator over the least common denominator, their sum or that denominator is out of range, even if the sum in
    /// lowest terms is not.
    pub fn plus(self, other: Frac) -> Result<Frac, RangePassed>
        ensures exact { IfOk result (λ r. value_of r ≡ value_of self +ℚ value_of other) }
        ensures passed { IsErr result ↔ Passes Op.Plus self other }
        ensures carried { IfErr result (λ e. e ≡ record { op = Op.Plus; left = self; right = other }) }
    {
        sum(self, other).ok_or(RangePassed {
            op: Op::Plus,
            left: self,
            right: other,
        })
    }

    /// The difference.
    ///
    /// # Errors
    ///
    /// Where the sum with the negated `other` is out of range, as [`Frac::plus`] says.
    pub fn minus(self, other: Frac) -> Result<Frac, RangePassed>
        ensures exact { IfOk result (λ r. value_of r ≡ value_of self -ℚ value_of other) }
        ensures passed { IsErr result ↔ Passes Op.Minus self other }
        ensures carried { IfErr result (λ e. e ≡ record { op = Op.Minus; left = self; right = other }) }
    {
        difference(self, other).ok_or(RangePassed {
            op: Op::Minus,
            left: self,
            right: other,
        })
    }

    /// The product.
    ///
    /// # Errors
    ///
    /// Where its numerator or its denominator in lowest terms is out of range.
    pub fn times(self, other: Frac) -> Result<Frac, RangePassed>
        ensures exact { IfOk result (λ r. value_of r ≡ value_of self *ℚ value_of other) }
        ensures passed { IsErr result ↔ Passes Op.Times self other }
        ensures carried { IfErr result (λ e. e ≡ record { op = Op.Times; left = self; right = other }) }
    {
        product(self, other).ok_or(RangePassed {
            op: Op::Times,
            left: self,
            right: other,
        })
    }

    /// The quotient by a number other than 0.
    ///
    /// # Errors
    ///
    /// Where its numerator or its denominator in lowest terms is out of range.
    pub fn over(self, other: Frac) -> Result<Frac, RangePassed>
        requires { other.n ≢ pos 0 }
        ensures exact { IfOk result (λ r. value_of r ≡ value_of self *ℚ inverse (value_of other)) }
        ensures passed { IsErr result ↔ Passes Op.Over self other }
        ensures carried { IfErr result (λ e. e ≡ record { op = Op.Over; left = self; right = other }) }
    {
        quotient(self, other).ok_or(RangePassed {
            op: Op::Over,
            left: self,
            right: other,
        })
    }
}
