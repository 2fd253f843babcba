//! Which lines are lawful.
ghost use Rattle.std.specs.Prelude.{◌≡◌, ◌≢◌, ◌↔◌, All, Some, IsTrue, IfOk, IfSome, IfNone, MatchOption, map, length};
ghost use Rattle.sm_flat.specs.Assignments.{point_of};
ghost use Rattle.sm_flat.specs.Assignments.{Numbers, IsAssignment};
ghost use Rattle.sm_flat.specs.Goals.{IsBetter, HasValues, goal_at};
ghost use Rattle.sm_step.specs.Verdicts.{parts_of};
ghost use Rattle.sm_rules.specs.Nodes.{LawfulChild, TakesChild};
ghost use Rattle.sm_rules.specs.Laws.{BeatsBest, IsNextBest, AsksForAny};
ghost use Rattle.sm_rules.specs.Transitions.{SaysVerdict};
ghost use Rattle.sm_kinds.specs.Literals.{complement};
ghost use Rattle.sm_store.specs.Stores.{Narrows};

use crate::cause::Cause;
use crate::node::Status;
use crate::objectives::{ends_node, has_values, is_better};
use sm_flat::{Assignment, Flat, Literal, Sense, is_assignment, solves};
use sm_frac::Frac;
use sm_step::{Line, Short, Verdict};
use sm_store::Store;
use sqlite_items::Items;
use std::alloc::{AllocError, Global};

/// Whether there is a best, and these floors end a node.
pub(crate) fn beats_best(flat: &Flat, floors: &[Frac], best: &Option<Assignment>) -> bool
    ensures { IsTrue result ↔ BeatsBest flat.now (map parts_of floors.now) best.now }
{
    match best {
        Some(b) => ends_node(flat, floors, b),
        None => false,
    }
}

/// Whether the assignment is better than the best, or there is no best.
pub(crate) fn is_better_than(flat: &Flat, a: &Assignment, best: &Option<Assignment>) -> bool
    ensures { IsTrue result ↔ IfSome best.now (λ b. IsBetter flat.now (point_of a.now) (point_of b)) }
{
    match best {
        Some(b) => is_better(flat, a, b),
        None => true,
    }
}

/// The assignment of these numbers; none where they aren't one.
pub(crate) fn assignment_of(
    alloc: Global,
    denominator: i64,
    values: &[i128],
) -> Result<Option<Assignment>, AllocError>
    ensures some { IfOk result (λ r. IfSome r (λ a. a ≡ record { denominator = denominator; values = values.now })) }
    ensures fit { IfOk result (λ r. IfSome r (λ a. IsAssignment denominator values.now)) }
    ensures none { IfOk result (λ r. IfNone r (IsAssignment denominator values.now → ⊥)) }
{
    if !is_assignment(denominator, values) {
        return Ok(None);
    }
    let values = Items::from_slice(alloc, values)?;
    Ok(Some(Assignment::new(denominator, values)))
}

/// Whether the numbers are a solution that is better than the best.
pub(crate) fn is_next_best(
    alloc: Global,
    flat: &Flat,
    best: &Option<Assignment>,
    denominator: i64,
    values: &[i128],
) -> Result<bool, AllocError>
    ensures { IfOk result (λ r. IsTrue r ↔ IsNextBest flat.now best.now denominator values.now) }
{
    match assignment_of(alloc, denominator, values)? {
        Some(a) => Ok(solves(flat, &a) && is_better_than(flat, &a, best)),
        None => Ok(false),
    }
}

/// Whether the literal may open a first child under an open node of this store: it and its complement both narrow the store and
/// leave it nonempty, which is never so of a real variable.
pub(crate) fn splits(store: &Store, literal: &Literal) -> bool
    ensures { IsTrue result ↔ LawfulChild store.now Status.Open literal.now }
{
    store.narrows(literal) && store.narrows(&literal.complement())
}

/// Whether any solution will do.
pub(crate) fn asks_for_any(flat: &Flat) -> bool
    ensures { IsTrue result ↔ AsksForAny flat.now }
{
    match flat.goals().first() {
        Some(goal) => goal.sense == Sense::Satisfy,
        None => true,
    }
}

/// Whether there is a best, of these values.
pub(crate) fn is_best_of(flat: &Flat, values: &[Frac], best: &Option<Assignment>) -> bool
    ensures { IsTrue result ↔ MatchOption best.now ⊥ (λ b. HasValues flat.now (point_of b) (map parts_of values.now)) }
{
    match best {
        Some(b) => has_values(flat, b, values),
        None => false,
    }
}

/// Whether a node of this status has room for a child.
pub(crate) fn takes_child(status: Status) -> bool
    ensures { IsTrue result ↔ TakesChild status }
{
    match status {
        Status::Open | Status::Half(_) => true,
        Status::Split(_) => false,
    }
}

/// Why a line is refused that isn't lawful.
pub(crate) fn cause_of(line: &Line) -> Cause
    ensures verdict { SaysVerdict line.now → result ≡ Cause.Verdict }
    ensures law { (SaysVerdict line.now → ⊥) → result ≡ Cause.Law }
{
    match line {
        Line::Verdict(_) => Cause::Verdict,
        _ => Cause::Law,
    }
}

/// A copy in memory of its own.
fn copied_values(alloc: Global, values: &Short<Frac>) -> Result<Short<Frac>, AllocError>
    ensures { IfOk result (λ v. v ≡ values.now) }
{
    Short::from_slice(alloc, values.as_slice())
}

fn copied_best(alloc: Global, best: &Option<Short<Frac>>) -> Result<Option<Short<Frac>>, AllocError>
    ensures { IfOk result (λ b. b ≡ best.now) }
{
    match best {
        Some(values) => {
            let values = copied_values(alloc, values)?;
            Ok(Some(values))
        }
        None => Ok(None),
    }
}

/// A copy in memory of its own.
pub(crate) fn copied_verdict(alloc: Global, verdict: &Verdict) -> Result<Verdict, AllocError>
    ensures { IfOk result (λ v. v ≡ verdict.now) }
{
    match verdict {
        Verdict::Optimal { values } => {
            let values = copied_values(alloc, values)?;
            Ok(Verdict::Optimal { values })
        }
        Verdict::Satisfied => Ok(Verdict::Satisfied),
        Verdict::Infeasible => Ok(Verdict::Infeasible),
        Verdict::Limit { nodes, bound, best } => {
            let best = copied_best(alloc, best)?;
            Ok(Verdict::Limit {
                nodes: *nodes,
                bound: *bound,
                best,
            })
        }
        Verdict::Range { bound, best } => {
            let best = copied_best(alloc, best)?;
            Ok(Verdict::Range {
                bound: *bound,
                best,
            })
        }
    }
}
