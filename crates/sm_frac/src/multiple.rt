//! The least common multiple.
ghost use Rattle.std.specs.Prelude.{◌≡◌, ◌≤◌, ◌^◌, ◌≤ℤ◌, pos, unsigned_abs, IfOk, IsErr, IfErr, ◌↔◌};
ghost use Rattle.sm_frac.specs.Lowest.{IsLeastMultiple};
ghost use Rattle.sm_frac.specs.Passes.{LcmPasses};

use crate::divisor::gcd;
use crate::fraction::Frac;
use crate::operation::{Op, RangePassed};

/// The least common multiple, which is at most 2^104.
fn least_multiple(a: u64, b: u64) -> u128
    requires left { (1 ≤ a) × (a ≤ 2 ^ 52) }
    requires right { (1 ≤ b) × (b ≤ 2 ^ 52) }
    ensures { IsLeastMultiple a b result }
{
    let divisor = gcd(a as u128, b as u128) as u64;
    (a / divisor) as u128 * b as u128
}

/// The least common multiple of two numbers from 1 to 2^52, which fits a 64-bit float's digits.
///
/// # Errors
///
/// Where it is above 2^52.
pub fn lcm_52(left: i64, right: i64) -> Result<i64, RangePassed>
    requires left { (pos 1 ≤ℤ left) × (left ≤ℤ pos (2 ^ 52)) }
    requires right { (pos 1 ≤ℤ right) × (right ≤ℤ pos (2 ^ 52)) }
    ensures above { IfOk result (λ r. pos 1 ≤ℤ r) }
    ensures exact { IfOk result (λ r. IsLeastMultiple (unsigned_abs left) (unsigned_abs right) (unsigned_abs r)) }
    ensures passed { IsErr result ↔ LcmPasses left right }
    ensures carried { IfErr result (λ e. e.op ≡ Op.Lcm) }
    ensures carried_left { IfErr result (λ e. (e.left.n ≡ left) × (e.left.d ≡ pos 1)) }
    ensures carried_right { IfErr result (λ e. (e.right.n ≡ right) × (e.right.d ≡ pos 1)) }
{
    let multiple = least_multiple(left.unsigned_abs(), right.unsigned_abs());
    if multiple <= 1 << 52 {
        Ok(multiple as i64)
    } else {
        Err(RangePassed {
            op: Op::Lcm,
            left: Frac::whole(left),
            right: Frac::whole(right),
        })
    }
}
