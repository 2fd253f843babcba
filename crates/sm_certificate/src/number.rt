//! Whole numbers as fractions, and the signs of fractions.
ghost use Rattle.std.specs.Prelude.{◌≡◌, ◌<◌, ◌^◌, IsTrue, false, unsigned_abs};
ghost use Rattle.sm_frac.specs.Frac.{value_of};
ghost use Rattle.sm_frac.specs.Rational.{whole_ℚ};
ghost use Rattle.sm_certificate.specs.Signs.{AtLeast, Below, AtMost, Above};

use sm_frac::Frac;

/// A whole number as a fraction.
pub fn fraction_of(number: i64) -> Frac
    ensures { value_of result ≡ whole_ℚ number }
{
    Frac::whole(number)
}

/// A whole number in the range of a fraction as one.
pub fn whole(number: i128) -> Frac
    requires { unsigned_abs number < 2 ^ 127 }
    ensures { value_of result ≡ whole_ℚ number }
{
    match Frac::new(number, 1) {
        Some(fraction) => fraction,
        None => unreachable!(),
    }
}

/// Whether a number is below 0.
pub fn is_negative(number: Frac) -> bool
    ensures yes { IsTrue result → Below (value_of number) }
    ensures no { result ≡ false → AtLeast (value_of number) }
{
    number.n() < 0
}

/// Whether a number is above 0.
pub fn is_positive(number: Frac) -> bool
    ensures yes { IsTrue result → Above (value_of number) }
    ensures no { result ≡ false → AtMost (value_of number) }
{
    number.n() > 0
}
