//! The numbers of one row.
ghost use Rattle.std.specs.Prelude.{◌≡◌, length};

/// The sum of the sizes of some numbers and their denominator, and the greatest of 64 bits where it is above that.
pub(crate) fn size_of(numbers: &[i64], denominator: i64) -> u64 {
    let mut size = denominator.unsigned_abs();
    for number in numbers {
        size = size.saturating_add(number.unsigned_abs());
    }
    size
}

/// Turns the signs of a row.
pub(crate) fn negate(row: &mut [i64])
    ensures { length row.new ≡ length row.old }
{
    for number in row.iter_mut() {
        *number = number.wrapping_neg();
    }
}
