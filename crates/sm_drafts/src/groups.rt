//! Tasks, items and groups.
ghost use Rattle.std.specs.Prelude.{◌≡◌, ◌≤◌, ◌^◌, ◌-ℤ◌, map, unsigned_abs, int_lt, if◌then◌else◌};
ghost use Rattle.sm_kinds.specs.Vars.{last_of, var_at};
ghost use Rattle.sm_kinds.specs.Tasks.{earliest_start, latest_end};
ghost use Rattle.sm_meaning.specs.Limits.{least_of, greatest_of, horizon_of, tasks_limits_tried, kind_limits_tried};
ghost use Rattle.sm_drafts.specs.Drafts.{Passes, packing_limits_tried};

use crate::numbers::{try_count, try_number, try_numbers};
use sm_data::Counted;
use sm_flat::{Form, Packing, Task, Var};
use sm_kinds::{MOST_CAPACITY, MOST_GROUPS, MOST_HORIZON, MOST_ITEMS, MOST_TASKS};
use sm_meaning::ExpandRefusal;

/// The least declared start.
fn earliest_start(vars: &[Var], task: &Task) -> i64
    ensures { result ≡ earliest_start vars.now task.now }
{
    match vars.get(task.start as usize) {
        Some(var) => match var.values.as_slice().first() {
            Some(first) => *first,
            None => 0,
        },
        None => 0,
    }
}

/// The greatest declared start.
fn latest_start(vars: &[Var], task: &Task) -> i64
    ensures { result ≡ last_of (var_at vars.now task.now.start).values }
{
    match vars.get(task.start as usize) {
        Some(var) => match var.values.as_slice().last() {
            Some(last) => *last,
            None => 0,
        },
        None => 0,
    }
}

/// The greatest declared end.
fn latest_end(vars: &[Var], task: &Task) -> i128
    ensures value { result ≡ latest_end vars.now task.now }
    ensures bound { unsigned_abs result ≤ 2 ^ 65 }
{
    i128::from(latest_start(vars, task)) + i128::from(task.duration)
}

/// The earlier of two times.
fn earlier(first: i64, second: i64) -> i64
    ensures { result ≡ (if int_lt second first then second else first) }
{
    if second < first { second } else { first }
}

/// The least declared start of the tasks, or this one.
fn least_start(vars: &[Var], least: i64, tasks: &[Task]) -> i64
    ensures { result ≡ least_of least (map (earliest_start vars.now) tasks.now) }
{
    match tasks {
        [] => least,
        [first, rest @ ..] => least_start(vars, earlier(least, earliest_start(vars, first)), rest),
    }
}

/// The later of two times.
fn later(first: i128, second: i128) -> i128
    requires first { unsigned_abs first ≤ 2 ^ 65 }
    requires second { unsigned_abs second ≤ 2 ^ 65 }
    ensures value { result ≡ (if int_lt first second then second else first) }
    ensures bound { unsigned_abs result ≤ 2 ^ 65 }
{
    if first < second { second } else { first }
}

/// The greatest declared end of the tasks, or this one.
fn greatest_end(vars: &[Var], greatest: i128, tasks: &[Task]) -> i128
    requires { unsigned_abs greatest ≤ 2 ^ 65 }
    ensures value { result ≡ greatest_of greatest (map (latest_end vars.now) tasks.now) }
    ensures bound { unsigned_abs result ≤ 2 ^ 65 }
{
    match tasks {
        [] => greatest,
        [first, rest @ ..] => greatest_end(vars, later(greatest, latest_end(vars, first)), rest),
    }
}

/// From one time to another.
fn span(from: i64, to: i128) -> i128
    requires { unsigned_abs to ≤ 2 ^ 65 }
    ensures { result ≡ to -ℤ from }
{
    to - i128::from(from)
}

/// From the least declared start to the greatest declared end.
fn horizon(vars: &[Var], tasks: &[Task]) -> i128
    ensures { result ≡ horizon_of vars.now tasks.now }
{
    match tasks {
        [] => 0,
        [first, rest @ ..] => {
            let start = least_start(vars, earliest_start(vars, first), rest);
            span(start, greatest_end(vars, latest_end(vars, first), rest))
        }
    }
}

fn try_tasks(vars: &[Var], tasks: &[Task]) -> Result<(), ExpandRefusal>
    ensures { Passes (tasks_limits_tried vars.now tasks.now) result }
{
    try_count(Counted::Tasks, MOST_TASKS, tasks.len())?;
    try_number(Counted::Horizon, MOST_HORIZON as u64, horizon(vars, tasks))
}

fn try_packing(packing: &Packing) -> Result<(), ExpandRefusal>
    ensures { Passes (packing_limits_tried packing.now) result }
{
    try_count(Counted::Items, MOST_ITEMS, packing.items.len())?;
    try_count(Counted::Groups, MOST_GROUPS, packing.capacities.len())?;
    let capacities = packing.capacities.as_slice();
    try_numbers(Counted::Capacity, MOST_CAPACITY as u64, capacities)
}

/// Tries how many tasks, items and groups a kind has, how far its tasks reach, and its capacities.
pub(crate) fn try_kind_limits(vars: &[Var], form: &Form) -> Result<(), ExpandRefusal>
    ensures { Passes (kind_limits_tried vars.now form.now) result }
{
    match form {
        Form::Cumulative { tasks, .. } => try_tasks(vars, tasks.as_slice()),
        Form::Disjunctive(tasks) => try_tasks(vars, tasks.as_slice()),
        Form::Packing(packing) => try_packing(packing),
        _ => Ok(()),
    }
}
