//! Products of forms.
ghost use Rattle.std.specs.Prelude.{◌≡◌, ◌+◌, ℕ, All, map, nat_lt};
ghost use Rattle.sm_forms.specs.Forms.{IsForm, IsFormOf, value_at};
ghost use Rattle.sm_meaning.specs.declared.refusal.Wrong.TheVariants.{Linear};
ghost use Rattle.sm_meaning.specs.Refusals.{wrong_if};
ghost use Rattle.sm_meaning.specs.Scopes.{Scope, count_of};
ghost use Rattle.sm_meaning.specs.Trials.{GoesThrough, ◌▸◌, tried};
ghost use Rattle.sm_meaning.specs.ExpressionTrials.{one_if_varying};
ghost use Rattle.sm_expressions.specs.Products.{varying_in, times_all, products_tried};

use crate::value::multiplied;
use sm_forms::Form;
use sm_meaning::{ExpandRefusal, Wrong};
use sm_syntax::Place;

/// In how many of the forms some variable matters.
fn varying_in(forms: &[Form]) -> usize
    ensures { (s : Scope) → All (λ f. IsForm (count_of s) f) forms.now → result ≡ varying_in s (map value_at forms.now) }
{
    let mut count = 0;
    for form in forms {
        if !form.is_constant() {
            count += 1;
        }
    }
    count
}

/// The product of forms, of a term at this place.
pub(crate) fn product_form(
    place: Place,
    first: Form,
    more: Vec<Form>,
) -> Result<Form, ExpandRefusal>
    ensures { (s : Scope) → IsForm (count_of s) first → All (λ f. IsForm (count_of s) f) more.items → (count : ℕ) →
        GoesThrough (tried (wrong_if (nat_lt 1 (one_if_varying s (value_at first) + varying_in s (map value_at more.items))) place Linear)
        ▸ products_tried s (value_at first) (map value_at more.items)) count count
        (IsFormOf (count_of s) (times_all (value_at first) (map value_at more.items))) result }
{
    let varying = varying_in(more.as_slice());
    if varying > 1 || (varying == 1 && !first.is_constant()) {
        return Err(ExpandRefusal::at(place, Wrong::Linear));
    }
    let mut product = first;
    for form in more {
        product = multiplied(product, form)?;
    }
    Ok(product)
}
