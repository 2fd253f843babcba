//! Products and sums that stay within -(2^127 - 1) ..= 2^127 - 1.
ghost use Rattle.std.specs.Prelude.{◌≡◌, ◌↔◌, IsNone, IfSome, ◌*ℤ◌, ◌+ℤ◌};
ghost use Rattle.sm_frac.specs.Lowest.{IsBeyond};

/// The product, unless it is out of range. One of two numbers of 64 bits never is.
pub(crate) fn product_within(a: i128, b: i128) -> Option<i128>
    ensures none { IsNone result ↔ IsBeyond (a *ℤ b) }
    ensures some { IfSome result (λ p. p ≡ a *ℤ b) }
{
    if let (Ok(left), Ok(right)) = (i64::try_from(a), i64::try_from(b)) {
        return Some(left as i128 * right as i128);
    }
    match a.checked_mul(b) {
        Some(product) if product > i128::MIN => Some(product),
        _ => None,
    }
}

/// The sum, unless it is out of range.
pub(crate) fn sum_within(a: i128, b: i128) -> Option<i128>
    ensures none { IsNone result ↔ IsBeyond (a +ℤ b) }
    ensures some { IfSome result (λ s. s ≡ a +ℤ b) }
{
    match a.checked_add(b) {
        Some(sum) if sum > i128::MIN => Some(sum),
        _ => None,
    }
}
