//! Linear forms.
ghost use Rattle.std.specs.Prelude.{◌≡◌, ◌≢◌, ℕ, ◌<◌, ◌≤◌, ◌*ℤ◌, ◌+ℤ◌, ◌-ℤ◌, true, unsigned_abs, IfOk, IfErr, IfSome};
ghost use Rattle.sm_forms.specs.Meanings.{Values, Meaning, greatest_value, large_value, constant_of, coefficient_above, is_constant, variable_of, terms_of};

use crate::merge::merged;
use crate::numbers::{product, sum_of, within};
use crate::refusal::FormRefusal;
use crate::scale::scaled;
use sqlite_items::Items;
use std::alloc::{AllocError, Global};

/// A sum of variables with coefficients, and a constant. No number is above 2^62 in absolute value.
#[derive(Drop)]
pub struct Form {
    /// Variables by number with their coefficients, in increasing order of variable; no coefficient is 0.
    pub terms: Items<(u32, i64)>,
    /// What it is where every variable is 0.
    pub constant: i64,
}

impl Form {
    ghost use Rattle.sm_forms.specs.Forms.{IsFormOf, Comes};
    ghost use Rattle.sm_forms.specs.declared.refusal.FormRefusal.TheVariants.{OutOfMemory};

    /// A number.
    pub fn number(alloc: Global, number: i64) -> Form
        requires { unsigned_abs number ≤ greatest_value }
        ensures { (n : ℕ) → IsFormOf n (λ a. number *ℤ a.denominator) result }
    {
        Form {
            terms: Items::new(alloc),
            constant: number,
        }
    }

    /// A variable.
    pub fn variable(alloc: Global, var: u32) -> Result<Form, AllocError>
        ensures { IfOk result (λ f. (n : ℕ) → var < n → IsFormOf n (λ a. a.numerator var) f) }
    {
        let mut terms = Items::new(alloc);
        terms.push((var, 1))?;
        Ok(Form { terms, constant: 0 })
    }

    /// self + by * other
    fn combined(self, alloc: Global, by: i64, other: Form) -> Result<Form, FormRefusal>
        ensures { (n : ℕ) (g h : Meaning) → IsFormOf n g self → IsFormOf n h other →
            Comes (large_value n (λ a. g a +ℤ (by *ℤ h a))) (IsFormOf n (λ a. g a +ℤ (by *ℤ h a))) result }
    {
        let Form { terms, constant } = self;
        let terms = merged(alloc, terms, by, other.terms.as_slice())?;
        let constant = within(sum_of(constant, by, other.constant))?;
        Ok(Form { terms, constant })
    }

    /// self + other. Where the variables of the other come after those of self, its terms are put at the end of self's,
    /// in the time that these take.
    ///
    /// # Errors
    ///
    /// While memory lasts, `TooLarge` exactly where a number of the sum is above 2^62 in absolute value; else
    /// `OutOfMemory`.
    pub fn plus(self, alloc: Global, other: Form) -> Result<Form, FormRefusal>
        ensures { (n : ℕ) (g h : Meaning) → IsFormOf n g self → IsFormOf n h other →
            Comes (large_value n (λ a. g a +ℤ h a)) (IsFormOf n (λ a. g a +ℤ h a)) result }
    {
        self.combined(alloc, 1, other)
    }

    /// self - other, in the time that the sum takes.
    ///
    /// # Errors
    ///
    /// While memory lasts, `TooLarge` exactly where a number of the difference is above 2^62 in absolute value; else
    /// `OutOfMemory`.
    pub fn minus(self, alloc: Global, other: Form) -> Result<Form, FormRefusal>
        ensures { (n : ℕ) (g h : Meaning) → IsFormOf n g self → IsFormOf n h other →
            Comes (large_value n (λ a. g a -ℤ h a)) (IsFormOf n (λ a. g a -ℤ h a)) result }
    {
        self.combined(alloc, -1, other)
    }

    /// by * self, in place. Times 0 it has no terms.
    ///
    /// # Errors
    ///
    /// `TooLarge` exactly where a number of the product is above 2^62 in absolute value, and no other.
    pub fn scaled(self, by: i64) -> Result<Form, FormRefusal>
        ensures comes { (n : ℕ) (g : Meaning) → IsFormOf n g self →
            Comes (large_value n (λ a. by *ℤ g a)) (IsFormOf n (λ a. by *ℤ g a)) result }
        ensures memory { IfErr result (λ e. e ≢ OutOfMemory) }
    {
        let Form { terms, constant } = self;
        let terms = scaled(terms, by)?;
        let constant = within(product(by, constant))?;
        Ok(Form { terms, constant })
    }

    /// Whether no variable matters.
    pub fn is_constant(&self) -> bool
        ensures same { (n : ℕ) (g : Meaning) → IsFormOf n g self.now → result ≡ is_constant n g }
        ensures value { (n : ℕ) (g : Meaning) → IsFormOf n g self.now → result ≡ true →
            (a : Values) → g a ≡ self.now.constant *ℤ a.denominator }
    {
        self.terms.is_empty()
    }

    /// The variable that this is: with the coefficient 1, without others and without a constant.
    pub fn single(&self) -> Option<u32>
        ensures same { (n : ℕ) (g : Meaning) → IsFormOf n g self.now → result ≡ variable_of n g }
        ensures below { IfSome result (λ v. (n : ℕ) (g : Meaning) → IsFormOf n g self.now → v < n) }
        ensures value { IfSome result (λ v. (n : ℕ) (g : Meaning) → IsFormOf n g self.now →
            (a : Values) → g a ≡ a.numerator v) }
    {
        if self.terms.len() != 1 || self.constant != 0 {
            return None;
        }
        let (var, coefficient) = self.terms.as_slice()[0];
        if coefficient == 1 { Some(var) } else { None }
    }

    /// The absolute value of the first coefficient that is above the limit.
    pub fn large_coefficient(&self, limit: u64) -> Option<u64>
        ensures { (n : ℕ) (g : Meaning) → IsFormOf n g self.now → result ≡ coefficient_above limit n g }
    {
        for term in self.terms.as_slice() {
            let found = term.1.unsigned_abs();
            if found > limit {
                return Some(found);
            }
        }
        None
    }

    /// What it is where every variable is 0.
    pub fn constant(&self) -> i64
        ensures field { result ≡ self.now.constant }
        ensures value { (n : ℕ) (g : Meaning) → IsFormOf n g self.now → result ≡ constant_of g }
    {
        self.constant
    }

    /// The terms in the order of their variables, none with the coefficient 0.
    pub fn terms(&self) -> &[(u32, i64)]
        ensures field { result.now ≡ self.now.terms }
        ensures value { (n : ℕ) (g : Meaning) → IsFormOf n g self.now → result.now ≡ terms_of n g }
    {
        self.terms.as_slice()
    }

    /// The same terms, as they lie in memory.
    pub fn into_terms(self) -> Items<(u32, i64)>
        ensures field { result ≡ self.terms }
        ensures value { (n : ℕ) (g : Meaning) → IsFormOf n g self → result ≡ terms_of n g }
    {
        let Form { terms, .. } = self;
        terms
    }
}
