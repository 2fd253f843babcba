//! The terms of a multiple.
ghost use Rattle.std.specs.Prelude.{◌≡◌, ◌≢◌, ℕ, ℤ, ◌*ℤ◌, [], IfOk, IfErr};
ghost use Rattle.sm_kinds.specs.Sums.{sum_at};
ghost use Rattle.sm_forms.specs.Meanings.{coefficient_above, greatest_value};
ghost use Rattle.sm_forms.specs.Forms.{Rises, IsRefused};
ghost use Rattle.sm_forms.specs.Merging.{terms_added};
ghost use Rattle.sm_forms.specs.declared.refusal.FormRefusal.TheVariants.{OutOfMemory};

use crate::numbers::{product, within};
use crate::refusal::FormRefusal;
use sqlite_items::Items;

/// The list without its terms.
fn emptied(mut terms: Items<(u32, i64)>) -> Items<(u32, i64)>
    ensures { result ≡ [] }
{
    while terms.pop().is_some() {}
    terms
}

/// The terms, each coefficient times `by`, in place.
pub(crate) fn scaled(
    mut terms: Items<(u32, i64)>,
    by: i64,
) -> Result<Items<(u32, i64)>, FormRefusal>
    ensures rises { IfOk result (λ v. (n : ℕ) → Rises n 0 terms → Rises n 0 v) }
    ensures total { IfOk result (λ v. (p : ℕ → ℤ) → sum_at v p ≡ by *ℤ sum_at terms p) }
    ensures large { IfErr result (λ e. (n : ℕ) → Rises n 0 terms →
        IsRefused (coefficient_above greatest_value n (terms_added [] by terms)) e) }
    ensures memory { IfErr result (λ e. e ≢ OutOfMemory) }
{
    if by == 0 {
        return Ok(emptied(terms));
    }
    for i in 0..terms.len() {
        let (var, coefficient) = terms.as_slice()[i];
        terms.set(i, (var, within(product(by, coefficient))?));
    }
    Ok(terms)
}
