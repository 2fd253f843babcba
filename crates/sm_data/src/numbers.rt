//! Entries of tables.
ghost use Rattle.std.specs.Prelude.{◌≡◌, ◌-◌, ◌^◌, pos, min, unsigned_abs};
ghost use Rattle.sm_data.specs.Numbers.{Gives, entry_of};

use crate::refusal::{Counted, DataRefusal};

/// The greatest absolute value of an entry.
const MOST: i64 = 1 << 31;

/// The absolute value, or 2^127 - 1 where that is less.
fn size_of(number: i128) -> i128
    ensures { result ≡ pos (min (unsigned_abs number) (2 ^ 127 - 1)) }
{
    match i128::try_from(number.unsigned_abs()) {
        Ok(size) => size,
        Err(_) => i128::MAX,
    }
}

/// The number, if it is within the limit.
pub(crate) fn entry(number: i128) -> Result<i64, DataRefusal>
    ensures { Gives (λ z. z) result (entry_of number) }
{
    let found = size_of(number);
    if found <= i128::from(MOST) {
        Ok(number as i64)
    } else {
        Err(DataRefusal::Limit {
            what: Counted::Entry,
            found,
            bound: i128::from(MOST),
        })
    }
}
