//! Bounds: right sides, the numbers of literals, durations, demands, sizes and capacities.
ghost use Rattle.std.specs.Prelude.{◌≡◌, ◌≤◌, unsigned_abs, OnOk};
ghost use Rattle.sm_kinds.specs.declared.literal.Literal.{Literal as Condition};
ghost use Rattle.sm_kinds.specs.declared.packing.Item.{Item as Packed};
ghost use Rattle.sm_kinds.specs.declared.tasks.Task.{Task as Timed};
ghost use Rattle.sm_kinds.specs.Limits.{greatest_number};
ghost use Rattle.sm_meaning.specs.Trials.{each_tried};
ghost use Rattle.sm_meaning.specs.Limits.{presence_bounds, task_bounds, kind_bounds};
ghost use Rattle.sm_drafts.specs.Drafts.{Passes, bound_tried, bounds_tried};

use crate::numbers::{try_numbers, try_small};
use sm_data::Counted;
use sm_flat::{Form, Item, Literal, Task};
use sm_kinds::GREATEST_NUMBER;
use sm_meaning::ExpandRefusal;

/// Tries one bound.
///
/// # Errors
///
/// `Limit` where it is over its limit.
pub fn try_bound(bound: &i64) -> Result<(), ExpandRefusal>
    ensures tried { Passes (bound_tried bound.now) result }
    ensures small { OnOk result (unsigned_abs bound.now ≤ greatest_number) }
{
    try_small(Counted::Bound, GREATEST_NUMBER, bound)
}

/// Tries the bounds of literals.
///
/// # Errors
///
/// `Limit` of the first that is over its limit.
pub(crate) fn try_conditions(literals: &[Literal]) -> Result<(), ExpandRefusal>
    ensures { Passes (each_tried (λ (l : Condition). bound_tried l.bound) literals.now) result }
{
    for literal in literals {
        try_bound(&literal.bound)?;
    }
    Ok(())
}

fn try_presence(present: &Option<Literal>) -> Result<(), ExpandRefusal>
    ensures { Passes (bounds_tried (presence_bounds present.now)) result }
{
    match present {
        Some(literal) => try_bound(&literal.bound),
        None => Ok(()),
    }
}

fn try_task(task: &Task) -> Result<(), ExpandRefusal>
    ensures { Passes (bounds_tried (task_bounds task.now)) result }
{
    try_bound(&task.duration)?;
    try_bound(&task.demand)?;
    try_presence(&task.present)
}

fn try_tasks(tasks: &[Task]) -> Result<(), ExpandRefusal>
    ensures { Passes (each_tried (λ (t : Timed). bounds_tried (task_bounds t)) tasks.now) result }
{
    for task in tasks {
        try_task(task)?;
    }
    Ok(())
}

fn try_sizes(items: &[Item]) -> Result<(), ExpandRefusal>
    ensures { Passes (each_tried (λ (i : Packed). bound_tried i.size) items.now) result }
{
    for item in items {
        try_bound(&item.size)?;
    }
    Ok(())
}

/// Tries the bounds of a kind: durations, demands, sizes and capacities.
///
/// # Errors
///
/// `Limit` of the first that is over its limit.
pub(crate) fn try_kind_bounds(form: &Form) -> Result<(), ExpandRefusal>
    ensures { Passes (bounds_tried (kind_bounds form.now)) result }
{
    match form {
        Form::Cumulative { capacity, tasks } => {
            try_bound(capacity)?;
            try_tasks(tasks.as_slice())
        }
        Form::Disjunctive(tasks) => try_tasks(tasks.as_slice()),
        Form::Packing(packing) => {
            try_numbers(
                Counted::Bound,
                GREATEST_NUMBER,
                packing.capacities.as_slice(),
            )?;
            try_sizes(packing.items.as_slice())
        }
        _ => Ok(()),
    }
}
