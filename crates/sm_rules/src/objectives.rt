//! What goals cost at least over a store, and how costs compare with those of the best.
ghost use Rattle.std.specs.Prelude.{◌≡◌, ◌<◌, ◌≤◌, ◌+◌, ◌^◌, ◌↔◌, ◌<ℤ◌, ◌*ℤ◌, ◌-ℤ◌, pos, All, IsTrue, IfOk, length, map, unsigned_abs};
ghost use Rattle.std.specs.Ordering.{MatchOrdering};
ghost use Rattle.sm_frac.specs.Rational.{◌<ℚ◌};
ghost use Rattle.sm_rules.specs.Standings.{Stands};
ghost use Rattle.sm_flat.specs.Limits.{IsFlat, IsGoal};
ghost use Rattle.sm_flat.specs.Assignments.{point_of};
ghost use Rattle.sm_flat.specs.Goals.{goal_at, minimised, worth, cost, IsBetter, HasValues};
ghost use Rattle.sm_store.specs.Stores.{extent_at};
ghost use Rattle.sm_step.specs.Verdicts.{parts_of};
ghost use Rattle.sm_rules.specs.Floors.{number_of, numbers_of, greater, raised, Reaches, EndsNode};
ghost use Rattle.sm_rules.specs.Trees.{raised_first};
ghost use Rattle.sm_rules.specs.Objectives.{IsGoalOver, least_product, least_sum, least_cost, least_costs, is_discrete, is_whole, level_of, levels};

use sm_flat::{Assignment, Flat, Goal, Sense, VarKind, value};
use sm_frac::{Frac, compare_ratios};
use sm_store::Store;
use std::alloc::{AllocError, Global};
use std::cmp::Ordering;

/// A number of a goal as one to be minimised.
fn minimised(sense: Sense, number: i128) -> i128
    requires { unsigned_abs number < 2 ^ 127 }
    ensures value { result ≡ minimised sense number }
    ensures size { unsigned_abs result ≡ unsigned_abs number }
{
    match sense {
        Sense::Minimise | Sense::Satisfy => number,
        Sense::Maximise => -number,
    }
}

/// A coefficient times a value of a domain, which leaves room for a sum of 4,096 such products.
pub(crate) fn product(coefficient: i128, value: i64) -> i128
    requires coefficient { unsigned_abs coefficient ≤ 2 ^ 31 }
    requires value { unsigned_abs value ≤ 2 ^ 31 }
    ensures value { result ≡ coefficient *ℤ value }
    ensures bound { unsigned_abs result ≤ 2 ^ 62 }
{
    coefficient * i128::from(value)
}

/// The least product of the coefficient with a number between the ends of the variable's domain.
fn least_product(coefficient: i128, store: &Store, var: u32) -> i128
    requires known { var < length store.now }
    requires small { unsigned_abs coefficient ≤ 2 ^ 31 }
    ensures value { result ≡ least_product coefficient (extent_at store.now var) }
    ensures bound { unsigned_abs result ≤ 2 ^ 62 }
{
    match store.bounds(var) {
        Some((least, greatest)) => {
            if coefficient >= 0 {
                product(coefficient, least)
            } else {
                product(coefficient, greatest)
            }
        }
        None => 0,
    }
}

/// The least that a term adds to the cost.
fn least_term(sense: Sense, store: &Store, term: &(u32, i64)) -> i128
    requires known { term.now.0 < length store.now }
    requires small { unsigned_abs term.now.1 ≤ 2 ^ 31 }
    ensures value { result ≡ least_product (minimised sense term.now.1) (extent_at store.now term.now.0) }
    ensures bound { unsigned_abs result ≤ 2 ^ 62 }
{
    let coefficient = minimised(sense, i128::from(term.1));
    least_product(coefficient, store, term.0)
}

fn least_sum(sense: Sense, store: &Store, terms: &[(u32, i64)]) -> i128
    requires known { All (λ t. t.0 < length store.now) terms.now }
    requires small { All (λ t. unsigned_abs t.1 ≤ 2 ^ 31) terms.now }
    requires few { length terms.now ≤ 4096 }
    ensures value { result ≡ least_sum sense store.now terms.now }
    ensures bound { unsigned_abs result ≤ 2 ^ 74 }
{
    let mut total: i128 = 0;
    for term in terms {
        total += least_term(sense, store, term);
    }
    total
}

/// The least that the goal costs over the boxes of the store.
fn least_cost(store: &Store, goal: &Goal) -> i128
    requires { IsGoalOver (length store.now) goal.now }
    ensures value { result ≡ least_cost store.now goal.now }
    ensures bound { unsigned_abs result < 2 ^ 127 }
{
    let constant = minimised(goal.sense, i128::from(goal.constant));
    least_sum(goal.sense, store, goal.terms.as_slice()) + constant
}

/// A whole number, over 1.
fn whole(number: i128) -> Frac
    requires { unsigned_abs number < 2 ^ 127 }
    ensures { parts_of result ≡ (number, pos 1) }
{
    Frac::new(number, 1).unwrap()
}

/// What the goal costs at least over the boxes of the store, over 1.
fn least_floor(store: &Store, goal: &Goal) -> Frac
    requires { IsGoalOver (length store.now) goal.now }
    ensures { parts_of result ≡ (least_cost store.now goal.now, pos 1) }
{
    whole(least_cost(store, goal))
}

/// The floors of the root: what each goal costs at least over the boxes of its store.
pub(crate) fn least_floors(
    alloc: Global,
    goals: &[Goal],
    store: &Store,
) -> Result<Vec<Frac>, AllocError>
    requires { All (IsGoalOver (length store.now)) goals.now }
    ensures { IfOk result (λ v. map parts_of v.items ≡ least_costs goals.now store.now) }
{
    let mut floors = Vec::with_capacity(alloc, goals.len())?;
    for goal in goals {
        floors.push(least_floor(store, goal))?;
    }
    Ok(floors)
}

/// The second where it is greater.
fn greater(first: Frac, second: Frac) -> Frac
    ensures { parts_of result ≡ greater (parts_of first) (parts_of second) }
{
    if first.compare(second).is_lt() {
        second
    } else {
        first
    }
}

/// Raises the floors to what each goal costs at least over the boxes of the store, where that is greater.
pub(crate) fn raise_floors(floors: &mut Vec<Frac>, goals: &[Goal], store: &Store)
    requires goals { All (IsGoalOver (length store.now)) goals.now }
    requires each { length floors.old.items ≡ length goals.now }
    ensures { map parts_of floors.new.items ≡ raised (map parts_of floors.old.items) (least_costs goals.now store.now) }
{
    for level in 0..goals.len() {
        let least = least_floor(store, &goals[level]);
        floors[level] = greater(floors[level], least);
    }
}

/// Raises the first floor to what the first goal costs at least over the boxes of the store, where that is greater.
pub(crate) fn raise_first(floors: &mut Vec<Frac>, goals: &[Goal], store: &Store)
    requires goals { All (IsGoalOver (length store.now)) goals.now }
    requires each { length floors.old.items ≡ length goals.now }
    ensures { map parts_of floors.new.items ≡ raised_first goals.now store.now (map parts_of floors.old.items) }
{
    if let Some(goal) = goals.first() {
        floors[0] = greater(floors[0], least_floor(store, goal));
    }
}

/// The value of the goal of a level at an assignment: numerator and denominator.
fn worth(flat: &Flat, level: u32, a: &Assignment) -> (i128, i128)
    requires { level < length flat.now.goals }
    ensures numerator { result.0 ≡ worth (goal_at flat.now level) (point_of a.now) }
    ensures denominator { result.1 ≡ a.now.denominator }
    ensures bound { unsigned_abs result.0 ≤ 2 ^ 126 + 2 ^ 83 }
    ensures positive { pos 0 <ℤ result.1 }
    ensures small { unsigned_abs result.1 ≤ 2 ^ 52 }
{
    let (numerator, _) = value(flat, level, a);
    (numerator, i128::from(a.denominator()))
}

/// What the goal of a level costs at an assignment: numerator and denominator.
fn cost(flat: &Flat, level: u32, a: &Assignment) -> (i128, i128)
    requires { level < length flat.now.goals }
    ensures numerator { result.0 ≡ cost (goal_at flat.now level) (point_of a.now) }
    ensures denominator { result.1 ≡ a.now.denominator }
    ensures bound { unsigned_abs result.0 ≤ 2 ^ 126 + 2 ^ 83 }
    ensures positive { pos 0 <ℤ result.1 }
    ensures small { unsigned_abs result.1 ≤ 2 ^ 52 }
{
    let sense = flat.goals()[level as usize].sense;
    let (numerator, denominator) = worth(flat, level, a);
    (minimised(sense, numerator), denominator)
}

fn is_discrete(kind: VarKind) -> bool
    ensures { result ≡ is_discrete kind }
{
    match kind {
        VarKind::Set | VarKind::Int => true,
        VarKind::Real => false,
    }
}

/// Whether all variables of the goal have whole values alone.
fn is_whole(flat: &Flat, goal: &Goal) -> bool
    requires { IsGoalOver (length flat.now.vars) goal.now }
    ensures { result ≡ is_whole flat.now goal.now }
{
    for term in goal.terms.as_slice() {
        if !is_discrete(flat.vars()[term.0 as usize].kind) {
            return false;
        }
    }
    true
}

/// Numerator and denominator.
fn ratio(fraction: Frac) -> (i128, i128)
    ensures value { result ≡ parts_of fraction }
    ensures positive { pos 0 <ℤ result.1 }
{
    (fraction.n(), fraction.d())
}

/// Whether the first number is the lesser.
#[tactic(auto, using(crate::proofs::Fractions::lt_ratios))]
fn is_less(left: &(i128, i128), right: &(i128, i128)) -> bool
    requires left_above { pos 0 <ℤ left.now.1 }
    requires right_above { pos 0 <ℤ right.now.1 }
    ensures { IsTrue result ↔ ((number_of left.now) <ℚ (number_of right.now)) }
{
    match compare_ratios(left, right) {
        Ordering::Less => true,
        Ordering::Equal | Ordering::Greater => false,
    }
}

/// One less than the number.
fn one_less(number: &(i128, i128)) -> (i128, i128)
    requires bound { unsigned_abs number.now.0 ≤ 2 ^ 126 + 2 ^ 83 }
    requires small { unsigned_abs number.now.1 ≤ 2 ^ 52 }
    ensures numerator { result.0 ≡ number.now.0 -ℤ number.now.1 }
    ensures denominator { result.1 ≡ number.now.1 }
{
    (number.0 - number.1, number.1)
}

/// Whether nothing that costs at least the floor costs less than the best.
fn reaches(floor: &(i128, i128), best: &(i128, i128), is_whole: bool) -> bool
    requires floor_above { pos 0 <ℤ floor.now.1 }
    requires best_above { pos 0 <ℤ best.now.1 }
    requires bound { unsigned_abs best.now.0 ≤ 2 ^ 126 + 2 ^ 83 }
    requires small { unsigned_abs best.now.1 ≤ 2 ^ 52 }
    ensures { IsTrue result ↔ Reaches (number_of floor.now) (record { best = number_of best.now; whole = is_whole }) }
{
    if !is_less(floor, best) {
        return true;
    }
    is_whole && is_less(&one_less(best), floor)
}

/// How the floors of the levels from one on stand to the best.
enum Standing {
    /// The floor of this level is above the best, so that the node ends.
    Ends,
    /// It reaches the best, so that the next level decides.
    Reaches,
    /// The node doesn't end.
    Fails,
}

/// How the floor of a level stands to the best.
fn compare_with_best(flat: &Flat, level: u32, floor: Frac, best: &Assignment) -> Standing
    requires { level < length flat.now.goals }
    ensures { Stands result (number_of (parts_of floor)) (level_of flat.now (point_of best.now) (goal_at flat.now level)) }
{
    let floor = ratio(floor);
    let best = cost(flat, level, best);
    if is_less(&best, &floor) {
        return Standing::Ends;
    }
    let is_whole = is_whole(flat, &flat.goals()[level as usize]);
    if reaches(&floor, &best, is_whole) {
        Standing::Reaches
    } else {
        Standing::Fails
    }
}

/// Whether the floors end a node where this is the best.
pub(crate) fn ends_node(flat: &Flat, floors: &[Frac], best: &Assignment) -> bool
    ensures { IsTrue result ↔ EndsNode (numbers_of (map parts_of floors.now)) (levels flat.now (point_of best.now)) }
{
    for level in 0..flat.goals().len() {
        let Some(floor) = floors.get(level) else {
            return false;
        };
        match compare_with_best(flat, level as u32, *floor, best) {
            Standing::Ends => return true,
            Standing::Reaches => {}
            Standing::Fails => return false,
        }
    }
    true
}

/// Which of two assignments costs less at a level.
fn compare_costs(flat: &Flat, level: u32, a: &Assignment, b: &Assignment) -> Ordering
    requires { level < length flat.now.goals }
    ensures { MatchOrdering result ((cost (goal_at flat.now level) (point_of a.now) *ℤ b.now.denominator) <ℤ (cost (goal_at flat.now level) (point_of b.now) *ℤ a.now.denominator)) (cost (goal_at flat.now level) (point_of a.now) *ℤ b.now.denominator ≡ cost (goal_at flat.now level) (point_of b.now) *ℤ a.now.denominator) ((cost (goal_at flat.now level) (point_of b.now) *ℤ a.now.denominator) <ℤ (cost (goal_at flat.now level) (point_of a.now) *ℤ b.now.denominator)) }
{
    compare_ratios(&cost(flat, level, a), &cost(flat, level, b))
}

/// Whether the first assignment costs less at the first goal where the costs differ.
pub(crate) fn is_better(flat: &Flat, a: &Assignment, b: &Assignment) -> bool
    ensures { IsTrue result ↔ IsBetter flat.now (point_of a.now) (point_of b.now) }
{
    for level in 0..flat.goals().len() {
        match compare_costs(flat, level as u32, a, b) {
            Ordering::Less => return true,
            Ordering::Equal => {}
            Ordering::Greater => return false,
        }
    }
    false
}

/// Whether the goal of a level has this value.
fn has_value(flat: &Flat, level: u32, a: &Assignment, wanted: Frac) -> bool
    requires { level < length flat.now.goals }
    ensures { IsTrue result ↔ (worth (goal_at flat.now level) (point_of a.now) *ℤ wanted.d ≡ wanted.n *ℤ a.now.denominator) }
{
    match compare_ratios(&worth(flat, level, a), &ratio(wanted)) {
        Ordering::Equal => true,
        Ordering::Less | Ordering::Greater => false,
    }
}

/// Whether the goals have these values at an assignment.
pub(crate) fn has_values(flat: &Flat, a: &Assignment, values: &[Frac]) -> bool
    ensures { IsTrue result ↔ HasValues flat.now (point_of a.now) (map parts_of values.now) }
{
    if values.len() != flat.goals().len() {
        return false;
    }
    for level in 0..flat.goals().len() {
        if !has_value(flat, level as u32, a, values[level]) {
            return false;
        }
    }
    true
}
