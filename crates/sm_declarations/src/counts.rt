//! How many members index sets and families have.
ghost use Rattle.std.specs.Prelude.{◌≡◌, ◌≤◌, ◌+◌, ◌*◌, ◌^◌, ℕ, min, pos, OnOk};
ghost use Rattle.sm_kinds.specs.Limits.{most_variables, most_total};
ghost use Rattle.sm_meaning.specs.Refusals.{number_over};
ghost use Rattle.sm_meaning.specs.Trials.{tried};
ghost use Rattle.sm_meaning.specs.Limits.{count_tried};
ghost use Rattle.sm_meaning.specs.Tuples.{size_of, member_count};
ghost use Rattle.sm_drafts.specs.Drafts.{Passes};

use sm_data::Counted;
use sm_drafts::try_number;
use sm_kinds::MOST_VARIABLES;
use sm_meaning::{ExpandRefusal, Range};

/// How many numbers a range has.
pub(crate) fn size_of(range: Range) -> u128
    ensures value { result ≡ size_of range }
    ensures bound { result ≤ 2 ^ 64 }
{
    if range.least <= range.greatest {
        return (i128::from(range.greatest) - i128::from(range.least)).unsigned_abs() + 1;
    }
    0
}

/// A product, or one more than there may be variables.
#[tactic(auto, using(crate::proofs::Counting::capped_product))]
fn product(size: u128, count: u128) -> u128
    requires size { size ≤ 2 ^ 64 }
    requires count { count ≤ most_variables + 1 }
    ensures value { (n : ℕ) → count ≡ min n (most_variables + 1) → result ≡ min (size * n) (most_variables + 1) }
    ensures bound { result ≤ most_variables + 1 }
{
    (size * count).min(MOST_VARIABLES as u128 + 1)
}

/// How many members a family over these sets has, or one more than there may be variables.
pub(crate) fn member_count(ranges: &[Range]) -> u128
    ensures value { result ≡ min (member_count ranges.now) (most_variables + 1) }
    ensures bound { result ≤ most_variables + 1 }
{
    match ranges {
        [] => 1,
        [first, rest @ ..] => product(size_of(*first), member_count(rest)),
    }
}

/// Tries that there are no more than the limit, however many there are.
pub(crate) fn try_large_count(what: Counted, bound: usize, count: u128) -> Result<(), ExpandRefusal>
    requires { bound ≤ most_total }
    ensures { Passes (count_tried what bound count) result }
{
    if count > bound as u128 {
        return Err(ExpandRefusal::Limit {
            what,
            found: bound as i128 + 1,
            bound: bound as i128,
        });
    }
    Ok(())
}

/// Tries that an amount is within the limit.
pub(crate) fn try_amount(what: Counted, bound: u64, amount: u128) -> Result<(), ExpandRefusal>
    requires { amount ≤ 2 ^ 78 }
    ensures tried { Passes (tried (number_over what bound (pos amount))) result }
    ensures small { OnOk result (amount ≤ bound) }
{
    try_number(what, bound, amount as i128)
}
