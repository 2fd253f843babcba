//! Tasks: what starts at a variable's value, lasts a while, and is there or not.
ghost use Rattle.std.specs.Prelude.{◌≡◌, ◌≤◌, ◌<◌, ◌+◌, ◌^◌, ◌↔◌, ◌≤ℤ◌, ◌-ℤ◌, ℕ, All, IsTrue, IsSome, IfSome, true, length, unsigned_abs};
ghost use Rattle.sm_kinds.specs.Limits.{IsAmount, greatest_number};
ghost use Rattle.sm_kinds.specs.Literals.{IsLiteral};
ghost use Rattle.sm_kinds.specs.Vars.{last_of, var_at};
ghost use Rattle.sm_kinds.specs.Tasks.{IsTask, earliest_start, latest_end, EndsNear, IsNear, AreTasks, task_at, presence_size, tasks_size, EachTaskVar, EachTasksVar, is_true_if_any, is_present, start_at, end_at};

use crate::limits::{GREATEST_NUMBER, MOST_HORIZON, MOST_TASKS, is_amount, left_after};
use crate::literal::{Literal, is_literal, is_true};
use crate::values::{Values, VarTest, scaled};
use crate::var::{Var, is_set};

/// A task starts at a variable's value and runs for its duration. It is there where it has no literal, or its literal is true.
#[derive(Clone, Copy, Debug, PartialEq, Eq)]
pub struct Task {
    /// The number of the variable that has the start.
    pub start: u32,
    pub duration: i64,
    /// What it needs of the capacity while it runs; 1 in a disjunctive.
    pub demand: i64,
    pub present: Option<Literal>,
}

fn is_presence(vars: &[Var], present: &Option<Literal>) -> bool
    ensures { IsTrue result ↔ IfSome present.now (IsLiteral vars.now greatest_number) }
{
    match present {
        Some(literal) => is_literal(vars, GREATEST_NUMBER, literal),
        None => true,
    }
}

fn is_task(vars: &[Var], task: &Task) -> bool
    ensures { IsTrue result ↔ IsTask vars.now task.now }
{
    is_set(vars, task.start)
        && is_amount(task.duration)
        && is_amount(task.demand)
        && is_presence(vars, &task.present)
}

/// The least declared start.
fn earliest_start(vars: &[Var], task: &Task) -> i64
    ensures { result ≡ earliest_start vars.now task.now }
{
    match vars.get(task.start as usize) {
        Some(var) => match var.values.as_slice().first() {
            Some(first) => *first,
            None => 0,
        },
        None => 0,
    }
}

/// The greatest declared start.
fn latest_start(vars: &[Var], task: &Task) -> i64
    ensures { result ≡ last_of (var_at vars.now task.now.start).values }
{
    match vars.get(task.start as usize) {
        Some(var) => match var.values.as_slice().last() {
            Some(last) => *last,
            None => 0,
        },
        None => 0,
    }
}

/// The greatest declared end.
fn latest_end(vars: &[Var], task: &Task) -> i128
    ensures value { result ≡ latest_end vars.now task.now }
    ensures bound { unsigned_abs result ≤ 2 ^ 65 }
{
    i128::from(latest_start(vars, task)) + i128::from(task.duration)
}

/// The number of a task with the least declared start.
fn earliest_task(vars: &[Var], tasks: &[Task]) -> usize
    requires { 0 < length tasks.now }
    ensures known { result < length tasks.now }
    ensures least { (k : ℕ) → k < length tasks.now → earliest_start vars.now (task_at tasks.now result) ≤ℤ earliest_start vars.now (task_at tasks.now k) }
{
    let mut best = 0;
    for i in 1..tasks.len() {
        if earliest_start(vars, &tasks[i]) < earliest_start(vars, &tasks[best]) {
            best = i;
        }
    }
    best
}

/// How far a task's last declared end is after another's first declared start.
fn span(vars: &[Var], task: &Task, other: &Task) -> i128
    ensures { result ≡ latest_end vars.now task.now -ℤ earliest_start vars.now other.now }
{
    latest_end(vars, task) - i128::from(earliest_start(vars, other))
}

/// Whether the last declared ends aren't too far after a task's first declared start.
fn all_end_near(vars: &[Var], tasks: &[Task], other: &Task) -> bool
    ensures { IsTrue result ↔ All (EndsNear vars.now (earliest_start vars.now other.now)) tasks.now }
{
    tasks.iter().all(|t| span(vars, t, other) <= MOST_HORIZON)
}

/// Whether no declared end is further than the limit after a declared start. It is enough to look at the earliest start.
fn are_near(vars: &[Var], tasks: &[Task]) -> bool
    ensures { IsTrue result ↔ IsNear vars.now tasks.now }
{
    if tasks.is_empty() {
        return true;
    }
    all_end_near(vars, tasks, &tasks[earliest_task(vars, tasks)])
}

/// Whether the tasks are within the limits, and fit these variables.
pub(crate) fn are_tasks(vars: &[Var], tasks: &[Task]) -> bool
    ensures { IsTrue result ↔ AreTasks vars.now tasks.now }
{
    tasks.len() <= MOST_TASKS && tasks.iter().all(|t| is_task(vars, t)) && are_near(vars, tasks)
}

/// How many literals a task has.
fn presence_size(present: &Option<Literal>) -> usize
    ensures { result ≡ presence_size present.now }
{
    match present {
        Some(_) => 1,
        None => 0,
    }
}

/// What is left of a count without the literals of the tasks.
pub(crate) fn spend_tasks(tasks: &[Task], left: u64) -> Option<u64>
    ensures variant { IsSome result ↔ (tasks_size tasks.now ≤ left) }
    ensures value { IfSome result (λ r. r + tasks_size tasks.now ≡ left) }
{
    let mut rest = left;
    for task in tasks {
        rest = left_after(rest, presence_size(&task.present))?;
    }
    Some(rest)
}

fn presence_passes<T: VarTest>(present: &Option<Literal>, test: &T) -> bool
    ensures { IsTrue result ↔ IfSome present.now (λ l. T.passing test.now l.var ≡ true) }
{
    match present {
        Some(literal) => test.test(literal.var),
        None => true,
    }
}

fn task_passes<T: VarTest>(task: &Task, test: &T) -> bool
    ensures { IsTrue result ↔ EachTaskVar (λ v. T.passing test.now v ≡ true) task.now }
{
    test.test(task.start) && presence_passes(&task.present, test)
}

/// Whether each variable of the tasks passes the test.
pub(crate) fn every_task_var<T: VarTest>(tasks: &[Task], test: &T) -> bool
    ensures { IsTrue result ↔ EachTasksVar (λ v. T.passing test.now v ≡ true) tasks.now }
{
    tasks.iter().all(|t| task_passes(t, test))
}

fn is_true_if_any<V: Values>(present: &Option<Literal>, a: &V) -> bool
    ensures { result ≡ is_true_if_any (V.point a.now) present.now }
{
    match present {
        Some(literal) => is_true(literal, a),
        None => true,
    }
}

/// Whether a task is there.
pub(crate) fn is_present<V: Values>(task: &Task, a: &V) -> bool
    ensures { result ≡ is_present (V.point a.now) task.now }
{
    is_true_if_any(&task.present, a)
}

/// When a task starts, times the denominator.
pub(crate) fn start_at<V: Values>(task: &Task, a: &V) -> i128
    ensures { result ≡ start_at (V.point a.now) task.now }
{
    a.numerator(task.start)
}

/// When a task ends, times the denominator.
pub(crate) fn end_at<V: Values>(task: &Task, a: &V) -> i128
    requires { IsAmount task.now.duration }
    ensures { result ≡ end_at (V.point a.now) task.now }
{
    a.numerator(task.start) + scaled(task.duration, a)
}
