//! The short arithmetic of the tableau.
use sm_frac::gcd;

/// The numbers of a tableau stay below this.
pub(crate) const LIMIT: u64 = 1 << 62;

/// The number in 64 bits, or None where it isn't below the limit.
pub(crate) fn narrowed(wide: i128) -> Option<i64> {
    match i64::try_from(wide) {
        Ok(number) if number.unsigned_abs() < LIMIT => Some(number),
        _ => None,
    }
}

/// The greatest common divisor.
pub(crate) fn common_divisor(a: i64, b: i64) -> i64 {
    let divisor = gcd(a.unsigned_abs() as u128, b.unsigned_abs() as u128);
    i64::try_from(divisor).unwrap_or(1)
}

/// The quotient by a divisor above 1, and else the number itself.
pub(crate) fn quotient(number: i64, divisor: i64) -> i64 {
    if divisor > 1 {
        number / divisor
    } else {
        number
    }
}

/// The product of two numbers of 64 bits.
pub(crate) fn product(a: i64, b: i64) -> i128 {
    a as i128 * b as i128
}

/// Whether a/b is less than c/d, or the same with a lesser b. The denominators are above 0.
pub(crate) fn is_lesser_ratio(a: i64, b: i64, c: i64, d: i64) -> bool {
    let left = product(a, d);
    let right = product(c, b);
    left < right || (left == right && d < b)
}

/// Whether a/b is above c/d, where the denominators are above 0.
pub(crate) fn is_greater_ratio(a: u64, b: u64, c: u64, d: u64) -> bool {
    a as u128 * d as u128 > c as u128 * b as u128
}

/// The greatest common divisor of wide numbers.
pub(crate) fn common_divisor_wide(a: i128, b: i128) -> i128 {
    i128::try_from(gcd(a.unsigned_abs(), b.unsigned_abs())).unwrap_or(1)
}

/// A divisor, and what an exact division by it needs.
#[derive(Clone, Copy)]
pub(crate) struct Divisor {
    number: i64,
    /// How often it can be halved.
    shift: u32,
    /// The number whose product with what is then left is 1, modulo 2^64.
    inverse: u64,
}

/// What an exact division by a number above 0 needs. Each step of Newton's doubles the digits of the inverse that are right,
/// of which an odd number itself has three.
pub(crate) fn divisor_by(number: i64) -> Divisor {
    let shift = number.trailing_zeros();
    let odd = number.unsigned_abs().wrapping_shr(shift);
    let mut inverse = odd;
    for _ in 0..5 {
        inverse = inverse.wrapping_mul(2u64.wrapping_sub(odd.wrapping_mul(inverse)));
    }
    Divisor {
        number,
        shift,
        inverse,
    }
}

/// The last 64 bits of a number.
fn low_half(number: i128) -> u64 {
    (number.cast_unsigned() & 0xFFFF_FFFF_FFFF_FFFF) as u64
}

/// The quotient, or None where the divisor doesn't divide the number or the quotient isn't below the limit. A quotient of 64
/// bits is found from the last digits, by one product (T. Jebelean, "An algorithm for exact division", 1993).
pub(crate) fn exact_quotient(number: i128, divisor: &Divisor) -> Option<i64> {
    let low = low_half(number.wrapping_shr(divisor.shift));
    let quotient = low.wrapping_mul(divisor.inverse).cast_signed();
    if product(quotient, divisor.number) == number && quotient.unsigned_abs() < LIMIT {
        Some(quotient)
    } else {
        None
    }
}
