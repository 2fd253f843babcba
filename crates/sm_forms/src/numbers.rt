//! Numbers of a form, in the width that a sum of a number and a product takes, and their limit.
ghost use Rattle.std.specs.Prelude.{◌≡◌, ◌≢◌, ◌≤◌, ◌+ℤ◌, ◌*ℤ◌, unsigned_abs, IfOk, IfErr};
ghost use Rattle.sm_forms.specs.Meanings.{above, greatest_value};
ghost use Rattle.sm_forms.specs.Forms.{IsRefused};
ghost use Rattle.sm_forms.specs.declared.refusal.FormRefusal.TheVariants.{OutOfMemory};

use crate::refusal::FormRefusal;

/// by * right
pub(crate) fn product(by: i64, right: i64) -> i128
    ensures { result ≡ by *ℤ right }
{
    i128::from(by) * i128::from(right)
}

/// left + by * right
pub(crate) fn sum_of(left: i64, by: i64, right: i64) -> i128
    ensures { result ≡ left +ℤ (by *ℤ right) }
{
    i128::from(left) + i128::from(by) * i128::from(right)
}

/// The number, if it is within 2^62.
pub(crate) fn within(number: i128) -> Result<i64, FormRefusal>
    ensures same { IfOk result (λ z. z ≡ number) }
    ensures small { IfOk result (λ z. unsigned_abs z ≤ greatest_value) }
    ensures large { IfErr result (IsRefused (above greatest_value number)) }
    ensures memory { IfErr result (λ e. e ≢ OutOfMemory) }
{
    let found = number.unsigned_abs();
    if found > 1 << 62 {
        return Err(FormRefusal::TooLarge { found });
    }
    Ok(number as i64)
}
