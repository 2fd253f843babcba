//! A fraction in lowest terms.
ghost use Rattle.std.specs.Prelude.{◌≡◌, ◌<◌, ◌^◌, ◌<ℤ◌, pos, unsigned_abs, ◌↔◌, IsSome, IfSome};
ghost use Rattle.sm_frac.specs.Lowest.{IsLowest};

use crate::divisor::is_lowest;

/// A rational number n/d in lowest terms, with d from 1 to 2^127 - 1 and n from -(2^127 - 1) to 2^127 - 1.
///
/// A number has one such fraction at most, so two fractions are equal exactly where their numbers are.
#[derive(Clone, Copy, PartialEq, Eq, Debug)]
pub struct Frac {
    pub(crate) n: i128,
    pub(crate) d: i128,
    pub ghost positive: { pos 0 <ℤ d },
    pub ghost bounded: { unsigned_abs n < 2 ^ 127 },
    pub ghost small: { unsigned_abs d < 2 ^ 127 },
    pub ghost lowest: { IsLowest n d },
}

/// The fraction of these parts. Every fraction is made here.
pub(crate) fn make(n: i128, d: i128) -> Frac
    requires positive { pos 0 <ℤ d }
    requires bounded { unsigned_abs n < 2 ^ 127 }
    requires lowest { IsLowest n d }
    ensures { (result.n ≡ n) × (result.d ≡ d) }
{
    Frac { n, d }
}

impl Default for Frac {
    ghost use Rattle.std.specs.Prelude.{◌≡◌, pos};

    ghost is_default = { λ f. (f.n ≡ pos 0) × (f.d ≡ pos 1) };

    /// Zero.
    fn default() -> Frac {
        Frac::whole(0)
    }
}

impl Frac {
    /// The numerator, which has the sign of the number.
    pub fn n(&self) -> i128
        ensures { result ≡ self.now.n }
    {
        self.n
    }

    /// The denominator, from 1 to 2^127 - 1.
    pub fn d(&self) -> i128
        ensures { result ≡ self.now.d }
    {
        self.d
    }

    /// A whole number, over 1.
    pub fn whole(number: i64) -> Frac
        ensures { (result.n ≡ number) × (result.d ≡ pos 1) }
    {
        make(number as i128, 1)
    }

    /// The fraction of these parts, or None where they are not in lowest terms or out of range.
    pub fn new(n: i128, d: i128) -> Option<Frac>
        ensures some { IsSome result ↔ ((pos 0 <ℤ d) × (unsigned_abs n < 2 ^ 127) × IsLowest n d) }
        ensures parts { IfSome result (λ f. (f.n ≡ n) × (f.d ≡ d)) }
    {
        if d > 0 && n > i128::MIN && is_lowest(n, d) {
            Some(make(n, d))
        } else {
            None
        }
    }
}
