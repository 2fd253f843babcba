//! The values that all variables may still have.
ghost use Rattle.std.specs.Prelude.{◌≡◌, ◌<◌, ◌≤◌, ◌≤ℤ◌, ◌^◌, ◌↔◌, [], pos, is_some, Any, length, unsigned_abs, IsTrue, IsSome, IfOk, IfSome};
ghost use Rattle.sm_kinds.specs.Vars.{LiesIn};
ghost use Rattle.sm_kinds.specs.declared.var.VarKind.TheVariants.{Set as Listed};
ghost use Rattle.sm_store.specs.Stores.{AreWordsOf, declared, narrow, extent_at, least_of, greatest_of, fixed_value, fixed_at, fixed_point, size_in, truth_of, narrowed, Narrows, Tightens, Changes};

use crate::build::declared_block;
use crate::domain::Domain;
use crate::layout::{domain_at, narrow_at};
use crate::place::Place;
use sm_flat::{Flat, Literal, Values, VarTest};
use std::alloc::{AllocError, Global};
use std::marker::Model;
use std::rc::Rc;

/// The values that each variable of a model may still have, by number of variable.
#[derive(Drop)]
pub struct Store {
    /// Where each variable lies in the block; a store and its copies have one list of them.
    places: Rc<Vec<Place>>,
    /// The numbers of all variables, so that a copy is one move of memory.
    block: Vec<u64>,
    /// Whether some variable has no value.
    empty: bool,
}

impl Model for Store {
    ghost use Rattle.std.specs.Prelude.{List};
    ghost use Rattle.sm_store.specs.Stores.{Extent};

    ghost Value = { List Extent };

    ghost use Rattle.sm_store.specs.Blocks.{shown, IsKept};

    ghost view = { λ s. shown s.places.value.items s.block.items };

    ghost invariant = { λ s. IsKept s.places.value.items s.block.items s.empty };
}

impl Store {
    ghost use Rattle.sm_flat.specs.Limits.{IsFlat};

    /// The store of the declared domains of a model.
    #[tactic(auto, unfolding(crate::specs::Blocks::shown, crate::specs::Blocks::IsKept))]
    pub fn declared(alloc: Global, flat: &Flat) -> Result<Store, AllocError>
        ensures { IfOk result (λ s. s ≡ declared flat.now.vars) }
    {
        let (places, block) = declared_block(alloc, flat.vars())?;
        let places = Rc::new(alloc, places)?;
        Ok(Store {
            places,
            block,
            empty: false,
        })
    }

    /// A copy in memory of its own.
    pub fn copy(&self, alloc: Global) -> Result<Store, AllocError>
        ensures { IfOk result (λ s. s ≡ self.now) }
    {
        let places = self.places.clone()?;
        let block = Vec::from_slice(alloc, self.block.as_slice())?;
        Ok(Store {
            places,
            block,
            empty: self.empty,
        })
    }

    /// The domain of a variable.
    #[tactic(auto, unfolding(crate::specs::Blocks::shown, crate::specs::Blocks::IsKept))]
    fn domain(&self, var: u32) -> Domain<'_>
        requires { var < length self.now }
        ensures { result ≡ extent_at self.now var }
    {
        domain_at(self.places.as_slice(), self.block.as_slice(), var)
    }

    /// Keeps of the literal's variable what the literal leaves, and says whether that is another domain.
    #[tactic(auto, unfolding(crate::specs::Blocks::shown, crate::specs::Blocks::IsKept))]
    pub fn narrow(&mut self, literal: &Literal) -> bool
        requires { literal.now.var < length self.old }
        ensures narrowed { self.new ≡ narrow self.old literal.now }
        ensures changed { IsTrue result ↔ Changes self.old literal.now }
    {
        narrow_at(
            self.places.as_slice(),
            self.block.as_mut_slice(),
            &mut self.empty,
            literal,
        )
    }

    /// Whether the literal leaves a value of its variable, and changes its domain.
    pub fn narrows(&self, literal: &Literal) -> bool
        ensures { IsTrue result ↔ Narrows self.now literal.now }
    {
        if literal.bound.unsigned_abs() > 1 << 32 {
            return false;
        }
        if literal.var as usize >= self.len() {
            return false;
        }
        let domain = self.domain(literal.var);
        domain.leaves(literal) && domain.changes(literal)
    }

    /// Whether the literal is of a variable of the store, has a bound within 2^32, and makes the variable's domain another one.
    #[tactic(auto, using(crate::proofs::Parts::tightens_where))]
    pub fn tightens(&self, literal: &Literal) -> bool
        ensures { IsTrue result ↔ Tightens self.now literal.now }
    {
        if literal.bound.unsigned_abs() > 1 << 32 {
            return false;
        }
        if literal.var as usize >= self.len() {
            return false;
        }
        self.domain(literal.var).changes(literal)
    }

    /// The least and the greatest value of the literal's variable that the literal leaves; none exactly where it leaves none.
    pub fn ends_left(&self, literal: &Literal) -> Option<(i64, i64)>
        requires { literal.now.var < length self.now }
        ensures variant { IsSome result ↔ (0 < length (narrowed literal.now (extent_at self.now literal.now.var)).values) }
        ensures value { IfSome result (λ b. (b.0 ≡ least_of (narrowed literal.now (extent_at self.now literal.now.var))) × (b.1 ≡ greatest_of (narrowed literal.now (extent_at self.now literal.now.var)))) }
        ensures small { IfSome result (λ b. (unsigned_abs b.0 ≤ 2 ^ 31) × (unsigned_abs b.1 ≤ 2 ^ 31)) }
    {
        self.domain(literal.var).ends_left(literal)
    }

    /// Whether some variable has no value left.
    #[tactic(auto, unfolding(crate::specs::Blocks::shown, crate::specs::Blocks::IsKept))]
    pub fn empty(&self) -> bool
        ensures { IsTrue result ↔ Any (λ e. e.values ≡ []) self.now }
    {
        self.empty
    }

    /// How many variables the store has.
    #[tactic(auto, unfolding(crate::specs::Blocks::shown, crate::specs::Blocks::IsKept))]
    pub fn len(&self) -> usize
        ensures { result ≡ length self.now }
    {
        self.places.len()
    }

    /// The least and the greatest value of a variable; none exactly where it has no value.
    pub fn bounds(&self, var: u32) -> Option<(i64, i64)>
        requires { var < length self.now }
        ensures variant { IsSome result ↔ (0 < length (extent_at self.now var).values) }
        ensures value { IfSome result (λ b. (b.0 ≡ least_of (extent_at self.now var)) × (b.1 ≡ greatest_of (extent_at self.now var))) }
        ensures small { IfSome result (λ b. (unsigned_abs b.0 ≤ 2 ^ 31) × (unsigned_abs b.1 ≤ 2 ^ 31)) }
    {
        self.domain(var).bounds()
    }

    /// Whether a variable may still have a value.
    pub fn has(&self, var: u32, value: i64) -> bool
        requires { var < length self.now }
        ensures { IsTrue result ↔ LiesIn (extent_at self.now var).kind (extent_at self.now var).values value (pos 1) }
    {
        self.domain(var).has(value)
    }

    /// The base and the words of a variable of kind `Set`, and none for another: place p of the words is 1 exactly where base + p is
    /// in the domain. The base is the greatest multiple of 64 at or below the least declared value.
    pub fn words(&self, var: u32) -> Option<(i64, &[u64])>
        requires { var < length self.now }
        ensures variant { IsSome result ↔ ((extent_at self.now var).kind ≡ Listed) }
        ensures base { IfSome result (λ w. w.0 ≡ (extent_at self.now var).base) }
        ensures words { IfSome result (λ w. AreWordsOf (extent_at self.now var) w.1.now) }
    {
        self.domain(var).words()
    }

    /// The value of a variable that has just one.
    pub fn fixed(&self, var: u32) -> Option<i64>
        requires { var < length self.now }
        ensures value { result ≡ fixed_value (extent_at self.now var).kind (extent_at self.now var).values }
        ensures small { IfSome result (λ v. unsigned_abs v ≤ 2 ^ 31) }
    {
        self.domain(var).fixed()
    }

    /// How many values a variable may still have.
    pub fn size(&self, var: u32) -> u64
        requires { var < length self.now }
        ensures { result ≡ size_in (extent_at self.now var).kind (extent_at self.now var).values }
    {
        self.domain(var).size()
    }

    /// What the literal is for all values that its variable may have, where they agree.
    pub fn truth(&self, literal: &Literal) -> Option<bool>
        requires { literal.now.var < length self.now }
        ensures { result ≡ truth_of self.now literal.now }
    {
        self.domain(literal.var).truth(literal)
    }
}

impl Values for Store {
    ghost use Rattle.sm_store.specs.Stores.{fixed_point};

    ghost point = { fixed_point };

    fn denominator(&self) -> i64
        ensures value { result ≡ (fixed_point self.now).denominator }
        ensures range { (pos 1 ≤ℤ result) × (result ≤ℤ pos (2 ^ 52)) }
    {
        1
    }

    /// The least value of a variable, which is its value where it has one alone.
    fn numerator(&self, var: u32) -> i128
        ensures value { result ≡ (fixed_point self.now).numerator var }
        ensures bound { unsigned_abs result ≤ 2 ^ 83 }
    {
        if (var as usize) < self.len() {
            i128::from(self.domain(var).least())
        } else {
            0
        }
    }
}

impl VarTest for Store {
    ghost use Rattle.std.specs.Prelude.{is_some};
    ghost use Rattle.sm_store.specs.Stores.{fixed_at};

    ghost passing = { λ s i. is_some (fixed_at s i) };

    /// Whether a variable has one value alone.
    fn test(&self, var: u32) -> bool
        ensures { result ≡ is_some (fixed_at self.now var) }
    {
        (var as usize) < self.len() && self.domain(var).fixed().is_some()
    }
}
