//! Which variable a node is split on, and where.
ghost use Rattle.std.specs.Prelude.{◌≡◌, ◌<◌, ◌≤◌, ◌^◌, ◌↔◌, ◌⊎◌, ◌<ℤ◌, ◌≤ℤ◌, Some, IsTrue, IfSome, IfNone, length, unsigned_abs};
ghost use Rattle.sm_store.specs.Stores.{extent_at, least_of, greatest_of, IsOrdered, IsStoreOf};
ghost use Rattle.sm_search.specs.Leaves.{IsUnfixed, NoneUnfixed};
ghost use Rattle.sm_search.specs.Picks.{Splits};

use sm_flat::{Constraint, Flat, Form, Literal, PickBy, SplitBy, Test};
use sm_store::Store;

/// The variable that a constraint is split on, and how.
#[derive(Clone, Copy)]
struct Choice {
    branch: u32,
    var: u32,
    split: SplitBy,
}

/// Whether a variable has more than one value left; a real variable never has, since its values aren't counted.
fn is_unfixed(store: &Store, var: u32) -> bool
    ensures { IsTrue result ↔ IsUnfixed store.now var }
{
    (var as usize) < store.len() && store.size(var) > 1
}

/// Whether a variable has fewer values than the one found so far, or is the first.
fn is_smaller(store: &Store, var: u32, found: Option<u32>) -> bool
    requires var { IsUnfixed store.now var }
    requires found { IfSome found (λ v. IsUnfixed store.now v) }
    ensures { IfNone found (IsTrue result) }
{
    match found {
        Some(other) => store.size(var) < store.size(other),
        None => true,
    }
}

/// The variable of fewest values among those of the terms that have several, the first of equals.
fn smallest_of(store: &Store, terms: &[(u32, i64)]) -> Option<u32>
    ensures { IfSome result (λ v. IsUnfixed store.now v) }
{
    let mut found: Option<u32> = None;
    for term in terms {
        let var = term.0;
        if is_unfixed(store, var) && is_smaller(store, var, found) {
            found = Some(var);
        }
    }
    found
}

/// The first variable of the terms that has several values.
fn first_of(store: &Store, terms: &[(u32, i64)]) -> Option<u32>
    ensures { IfSome result (λ v. IsUnfixed store.now v) }
{
    for term in terms {
        let var = term.0;
        if is_unfixed(store, var) {
            return Some(var);
        }
    }
    None
}

/// The variable that a constraint is split on, where it has one with several values. Only linear constraints choose so far.
fn variable_of(store: &Store, constraint: &Constraint) -> Option<u32>
    ensures { IfSome result (λ v. IsUnfixed store.now v) }
{
    let Form::Linear(row) = &constraint.form else {
        return None;
    };
    match constraint.tags.pick {
        PickBy::First => first_of(store, row.terms.as_slice()),
        // Where there is no relaxed point to go by, the variable of fewest values is taken.
        PickBy::Small | PickBy::Point => smallest_of(store, row.terms.as_slice()),
    }
}

/// The choice of a constraint, where it has a variable with several values.
fn choice_of(store: &Store, constraint: &Constraint) -> Option<Choice>
    ensures { IfSome result (λ c. IsUnfixed store.now c.var) }
{
    match variable_of(store, constraint) {
        Some(var) => Some(Choice {
            branch: constraint.tags.branch,
            var,
            split: constraint.tags.split,
        }),
        None => None,
    }
}

/// The one of lesser branch number, the first of equals.
fn preferred(found: Option<Choice>, next: Choice) -> Choice
    ensures { (result ≡ next) ⊎ (found ≡ Some result) }
{
    match found {
        Some(choice) if choice.branch <= next.branch => choice,
        _ => next,
    }
}

/// The choice of the constraint of least branch number, the first of equals.
fn best_choice(store: &Store, constraints: &[Constraint]) -> Option<Choice>
    ensures { IfSome result (λ c. IsUnfixed store.now c.var) }
{
    let mut found: Option<Choice> = None;
    for constraint in constraints {
        if let Some(next) = choice_of(store, constraint) {
            found = Some(preferred(found, next));
        }
    }
    found
}

/// The first variable that has several values.
fn first_unfixed(store: &Store) -> Option<u32>
    requires { length store.now < 2 ^ 32 }
    ensures some { IfSome result (λ v. IsUnfixed store.now v) }
    ensures none { IfNone result (NoneUnfixed store.now) }
{
    for i in 0..store.len() {
        let var = i as u32;
        if is_unfixed(store, var) {
            return Some(var);
        }
    }
    None
}

/// The floor of half the sum of two whole numbers, the first of which is less.
fn middle(least: &i64, greatest: &i64) -> i64
    requires apart { least.now <ℤ greatest.now }
    requires least { unsigned_abs least.now ≤ 2 ^ 31 }
    requires greatest { unsigned_abs greatest.now ≤ 2 ^ 31 }
    ensures least { least.now ≤ℤ result }
    ensures most { result <ℤ greatest.now }
    ensures small { unsigned_abs result ≤ 2 ^ 31 }
{
    *least + (*greatest - *least) / 2
}

/// The least and the greatest value of a variable that has several.
#[tactic(auto, using(crate::proofs::Splitting::unfixed_some, crate::proofs::Splitting::ends_apart))]
fn ends(store: &Store, var: u32) -> (i64, i64)
    requires unfixed { IsUnfixed store.now var }
    requires ordered { IsOrdered (extent_at store.now var).kind (extent_at store.now var).values }
    ensures least { result.0 ≡ least_of (extent_at store.now var) }
    ensures greatest { result.1 ≡ greatest_of (extent_at store.now var) }
    ensures apart { result.0 <ℤ result.1 }
    ensures small { (unsigned_abs result.0 ≤ 2 ^ 31) × (unsigned_abs result.1 ≤ 2 ^ 31) }
{
    match store.bounds(var) {
        Some(ends) => ends,
        None => unreachable!(),
    }
}

/// The literal of a first child that splits a variable's domain.
#[tactic(auto, using(crate::proofs::Splitting::low_splits, crate::proofs::Splitting::high_splits))]
fn split(store: &Store, var: u32, by: SplitBy) -> Literal
    requires unfixed { IsUnfixed store.now var }
    requires ordered { IsOrdered (extent_at store.now var).kind (extent_at store.now var).values }
    ensures { Splits store.now result }
{
    let (least, greatest) = ends(store, var);
    match by {
        SplitBy::Half => Literal {
            var,
            test: Test::AtMost,
            bound: middle(&least, &greatest),
        },
        SplitBy::Least => Literal {
            var,
            test: Test::AtMost,
            bound: least,
        },
        SplitBy::Most => Literal {
            var,
            test: Test::AtLeast,
            bound: greatest,
        },
    }
}

/// The literal that a node of this store is split by: of the constraint of least branch number that has a
/// variable with several values, by its tags; where none has, the first such variable is halved.
#[tactic(auto, using(crate::proofs::Splitting::ordered_at))]
pub(crate) fn pick(flat: &Flat, store: &Store) -> Option<Literal>
    requires of { IsStoreOf flat.now store.now }
    requires few { length store.now < 2 ^ 32 }
    ensures some { IfSome result (λ l. Splits store.now l) }
    ensures none { IfNone result (NoneUnfixed store.now) }
{
    if let Some(choice) = best_choice(store, flat.constraints()) {
        return Some(split(store, choice.var, choice.split));
    }
    match first_unfixed(store) {
        Some(var) => Some(split(store, var, SplitBy::Half)),
        None => None,
    }
}
