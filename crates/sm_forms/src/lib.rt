//! Linear forms over numbered variables: terms in the order of their variables, and a constant.
//!
//! What a form says of an expression is its meaning: the expression's value at each assignment of fractions to the
//! variables. Each call that makes a form ensures what it means, for any number of variables.
#![tactic(auto)]

ghost use Rattle.std.specs.Prelude.{◌≡◌, ◌≤◌, ◌<◌, ℕ, ℤ, ◌*ℤ◌, true, Some, None};
ghost use Rattle.sm_forms.specs.declared.form.Form.{Form};
ghost use Rattle.sm_forms.specs.Meanings.{Values, Meaning, large_value, constant_of, is_constant, variable_of, terms_of, product_of};
ghost use Rattle.sm_forms.specs.Forms.{IsFormOf};

mod form;
mod merge;
mod numbers;
mod refusal;
mod scale;

pub use form::Form;
pub use refusal::FormRefusal;

/// Laws of meanings: two that have the same values are one, and a product with a constant is a multiple.
pub fn meaning_laws()
    ensures same { (g h : Meaning) → ((a : Values) → g a ≡ h a) → g ≡ h }
    ensures left { (x y : Meaning) (k : ℤ) → ((a : Values) → x a ≡ k *ℤ a.denominator) →
        product_of x y ≡ (λ a. k *ℤ y a) }
    ensures right { (x y : Meaning) (k : ℤ) → ((a : Values) → y a ≡ k *ℤ a.denominator) →
        product_of x y ≡ (λ a. k *ℤ x a) }
{}

/// Laws of forms: a meaning has one form at most, whose numbers are those of the meaning and none of them too large. It
/// is a form of more variables too.
pub fn form_laws()
    ensures small { (n : ℕ) (g : Meaning) (f : Form) → IsFormOf n g f → large_value n g ≡ None }
    ensures terms { (n : ℕ) (g : Meaning) (f : Form) → IsFormOf n g f → f.terms ≡ terms_of n g }
    ensures constant { (n : ℕ) (g : Meaning) (f : Form) → IsFormOf n g f → constant_of g ≡ f.constant }
    ensures one { (n : ℕ) (g : Meaning) (e f : Form) → IsFormOf n g e → IsFormOf n g f → e ≡ f }
    ensures wider { (m n : ℕ) (g : Meaning) (f : Form) → m ≤ n → IsFormOf m g f → IsFormOf n g f }

    // What is constant, or a single variable, is so everywhere.
    ensures constant_value { (n : ℕ) (g : Meaning) (f : Form) → IsFormOf n g f → is_constant n g ≡ true →
        (a : Values) → g a ≡ constant_of g *ℤ a.denominator }
    ensures variable_value { (n v : ℕ) (g : Meaning) (f : Form) → IsFormOf n g f → variable_of n g ≡ Some v →
        (v < n) × ((a : Values) → g a ≡ a.numerator v) }
{}
