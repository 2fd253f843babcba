//! The order of fractions.
ghost use Rattle.std.specs.Prelude.{◌≡◌, ◌*◌, ◌<◌, ◌*ℤ◌, ◌<ℤ◌, pos};
ghost use Rattle.std.specs.Ordering.{MatchOrdering};
ghost use Rattle.sm_frac.specs.Frac.{value_of};
ghost use Rattle.sm_frac.specs.Rational.{◌<ℚ◌};

use crate::fraction::Frac;
use crate::range::product_within;
use std::cmp::Ordering;

/// Compares a * b with c * d, each of 256 bits.
fn compare_products(a: u128, b: u128, c: u128, d: u128) -> Ordering
    ensures { MatchOrdering result (a * b < c * d) (a * b ≡ c * d) (c * d < a * b) }
{
    let (left_low, left_high) = a.carrying_mul(b, 0);
    let (right_low, right_high) = c.carrying_mul(d, 0);
    if left_high < right_high {
        Ordering::Less
    } else if right_high < left_high {
        Ordering::Greater
    } else if left_low < right_low {
        Ordering::Less
    } else if right_low < left_low {
        Ordering::Greater
    } else {
        Ordering::Equal
    }
}

/// Compares two numbers.
fn compare_whole(left: i128, right: i128) -> Ordering
    ensures { MatchOrdering result (left <ℤ right) (left ≡ right) (right <ℤ left) }
{
    if left < right {
        Ordering::Less
    } else if right < left {
        Ordering::Greater
    } else {
        Ordering::Equal
    }
}

/// Compares the cross products, which may be out of range.
fn compare_wide(left: &(i128, i128), right: &(i128, i128)) -> Ordering
    requires left_above { pos 0 <ℤ left.now.1 }
    requires right_above { pos 0 <ℤ right.now.1 }
    ensures { let first = left.now.0 *ℤ right.now.1 in
        let second = right.now.0 *ℤ left.now.1 in
        MatchOrdering result (first <ℤ second) (first ≡ second) (second <ℤ first) }
{
    let left_d = left.1.unsigned_abs();
    let right_d = right.1.unsigned_abs();
    let left_n = left.0.unsigned_abs();
    let right_n = right.0.unsigned_abs();
    if left.0 < 0 {
        if right.0 < 0 {
            compare_products(right_n, left_d, left_n, right_d)
        } else {
            Ordering::Less
        }
    } else if right.0 < 0 {
        Ordering::Greater
    } else {
        compare_products(left_n, right_d, right_n, left_d)
    }
}

/// Which of two ratios is the lesser, each a numerator and a denominator, in lowest terms or not. It never passes the range.
pub fn compare_ratios(left: &(i128, i128), right: &(i128, i128)) -> Ordering
    requires left_above { pos 0 <ℤ left.now.1 }
    requires right_above { pos 0 <ℤ right.now.1 }
    ensures { let first = left.now.0 *ℤ right.now.1 in
        let second = right.now.0 *ℤ left.now.1 in
        MatchOrdering result (first <ℤ second) (first ≡ second) (second <ℤ first) }
{
    match (
        product_within(left.0, right.1),
        product_within(right.0, left.1),
    ) {
        (Some(first), Some(second)) => compare_whole(first, second),
        _ => compare_wide(left, right),
    }
}

impl Frac {
    /// Which number is the lesser. It never passes the range.
    pub fn compare(self, other: Frac) -> Ordering
        ensures { let left = value_of self in
            let right = value_of other in
            MatchOrdering result (left <ℚ right) (left ≡ right) (right <ℚ left) }
    {
        compare_ratios(&(self.n, self.d), &(other.n, other.d))
    }
}
