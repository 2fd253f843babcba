//! Rounding to whole numbers.
ghost use Rattle.std.specs.Prelude.{◌≡◌, pos, ◌<ℤ◌};
ghost use Rattle.std.specs.Int.{int_div_euclid};
ghost use Rattle.sm_frac.specs.Frac.{value_of};
ghost use Rattle.sm_frac.specs.Rounding.{IsFloor, IsCeiling};

use crate::fraction::Frac;

/// The quotient, rounded down.
fn quotient_down(n: i128, d: i128) -> i128
    requires { pos 0 <ℤ d }
    ensures { result ≡ int_div_euclid n d }
{
    if d == 1 {
        return n;
    }
    match (i64::try_from(n), i64::try_from(d)) {
        (Ok(narrow), Ok(by)) => narrow.div_euclid(by) as i128,
        _ => n.div_euclid(d),
    }
}

impl Frac {
    /// The greatest whole number that is at most this one. It never passes the range.
    pub fn floor(self) -> i128
        ensures { IsFloor (value_of self) result }
    {
        quotient_down(self.n, self.d)
    }

    /// The least whole number that is at least this one. It never passes the range.
    pub fn ceil(self) -> i128
        ensures { IsCeiling (value_of self) result }
    {
        -quotient_down(-self.n, self.d)
    }
}
