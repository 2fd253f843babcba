//! Values of variables, and tests of variables, as those that have them give them.
ghost use Rattle.std.specs.Prelude.{◌≡◌, ◌≤◌, ◌<◌, ◌^◌, ◌/◌, ◌↔◌, ◌*ℤ◌, ◌≤ℤ◌, ℕ, pos, Bool, IsTrue, IsSome, IfSome, unsigned_abs};
ghost use Rattle.sm_kinds.specs.Points.{Point, HasValue};

/// Has a value for each variable, by number: a fraction over one denominator.
pub trait Values {
    /// The values.
    ghost point: { Self → Point };

    /// The common denominator.
    fn denominator(&self) -> i64
        ensures value { result ≡ (point self.now).denominator }
        ensures range { (pos 1 ≤ℤ result) × (result ≤ℤ pos (2 ^ 52)) };

    /// The numerator of a variable's value, within 2^31 times the denominator.
    fn numerator(&self, var: u32) -> i128
        ensures value { result ≡ (point self.now).numerator var }
        ensures bound { unsigned_abs result ≤ 2 ^ 83 };
}

/// Says of each variable, by number, whether it passes.
pub trait VarTest {
    /// The variables that pass.
    ghost passing: { Self → ℕ → Bool };

    fn test(&self, var: u32) -> bool
        ensures { result ≡ passing self.now var };
}

/// A whole number, times the denominator of the values.
pub fn scaled<V: Values>(number: i64, a: &V) -> i128
    ensures value { result ≡ number *ℤ (V.point a.now).denominator }
    ensures bound { unsigned_abs result ≤ 2 ^ 115 }
    ensures small { unsigned_abs number ≤ 2 ^ 31 → unsigned_abs result ≤ 2 ^ 83 }
{
    i128::from(number) * i128::from(a.denominator())
}

/// A quotient of whole numbers, the short way where the divisor is 1.
fn quotient(whole: u128, unit: u128) -> u128
    requires { 0 < unit }
    ensures { result ≡ whole / unit }
{
    if unit == 1 { whole } else { whole / unit }
}

/// Which of the numbers below a count is the variable's value; none where no one is.
pub(crate) fn place<V: Values>(a: &V, var: u32, count: usize) -> Option<usize>
    ensures variant { IsSome result ↔ ((j : ℕ) × (j < count) × HasValue (V.point a.now) var (pos j)) }
    ensures value { IfSome result (λ j. (j < count) × HasValue (V.point a.now) var (pos j)) }
    ensures unit { pos 1 ≤ℤ (V.point a.now).denominator }
    ensures one { IfSome result (λ j. (k : ℕ) → HasValue (V.point a.now) var (pos k) → k ≡ j) }
{
    let numerator = a.numerator(var);
    let unit = u128::from(a.denominator().unsigned_abs());
    if numerator < 0 {
        return None;
    }
    let whole = numerator.unsigned_abs();
    let place = quotient(whole, unit);
    if place >= count as u128 || place * unit != whole {
        return None;
    }
    Some(place as usize)
}
