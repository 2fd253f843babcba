//! Disjunctive: of each two present tasks with positive durations one ends at or before the other's start.
ghost use Rattle.std.specs.Prelude.{◌≡◌, ◌≤◌, ◌<◌, ◌+◌, ◌↔◌, ◌≤ℤ◌, ℕ, List, IsTrue, IsSome, IfSome, true, length, All, slice_index_or};
ghost use Rattle.sm_kinds.specs.declared.tasks.Task.{Task as Stated};
ghost use Rattle.sm_kinds.specs.declared.var.Var.{Var as Variable};
ghost use Rattle.sm_kinds.specs.Limits.{IsAmount};
ghost use Rattle.sm_kinds.specs.Tasks.{task_at, start_at, end_at};
ghost use Rattle.sm_kinds.specs.Disjunctive.{IsDisjunctive, disjunctive_size, EachDisjunctiveVar, takes_time, AreApart, SatDisjunctive};

use crate::tasks::{Task, are_tasks, end_at, every_task_var, is_present, spend_tasks, start_at};
use crate::values::{Values, VarTest};
use crate::var::Var;

/// Whether the tasks are within the limits, and fit these variables.
pub fn fits(vars: &[Var], tasks: &[Task]) -> bool
    ensures { IsTrue result ↔ IsDisjunctive vars.now tasks.now }
{
    are_tasks(vars, tasks) && tasks.iter().all(|t| t.demand == 1)
}

/// What is left of a count without the literals of the tasks.
pub fn spend(tasks: &[Task], left: u64) -> Option<u64>
    ensures variant { IsSome result ↔ (disjunctive_size tasks.now ≤ left) }
    ensures value { IfSome result (λ r. r + disjunctive_size tasks.now ≡ left) }
{
    spend_tasks(tasks, left)
}

/// Whether each variable of the tasks passes the test.
pub fn every_var<T: VarTest>(tasks: &[Task], test: &T) -> bool
    ensures { IsTrue result ↔ EachDisjunctiveVar (λ v. T.passing test.now v ≡ true) tasks.now }
{
    every_task_var(tasks, test)
}

/// Whether a task is present and takes time.
fn takes_time<V: Values>(task: &Task, a: &V) -> bool
    ensures { result ≡ takes_time (V.point a.now) task.now }
{
    is_present(task, a) && 0 < task.duration
}

/// Whether a task ends before another starts, or just then.
fn ends_before<V: Values>(left: &Task, right: &Task, a: &V) -> bool
    requires { IsAmount left.now.duration }
    ensures { IsTrue result ↔ (end_at (V.point a.now) left.now ≤ℤ start_at (V.point a.now) right.now) }
{
    end_at(left, a) <= start_at(right, a)
}

/// Whether one of the tasks ends before the other starts, or just then, where both are present and take time.
fn are_apart<V: Values>(left: &Task, right: &Task, a: &V) -> bool
    requires { IsAmount left.now.duration × IsAmount right.now.duration }
    ensures { IsTrue result ↔ AreApart (V.point a.now) left.now right.now }
{
    !takes_time(left, a)
        || !takes_time(right, a)
        || ends_before(left, right, a)
        || ends_before(right, left, a)
}

/// Whether task i is apart from each later one.
fn apart_from_later<V: Values>(tasks: &[Task], i: usize, a: &V) -> bool
    requires known { i < length tasks.now }
    requires durations { All (λ (t : Stated). IsAmount t.duration) tasks.now }
    ensures { IsTrue result ↔ ((j : ℕ) → i < j → j < length tasks.now → AreApart (V.point a.now) (task_at tasks.now i) (task_at tasks.now j)) }
{
    for j in i + 1..tasks.len() {
        if !are_apart(&tasks[i], &tasks[j], a) {
            return false;
        }
    }
    true
}

/// Whether each two present tasks that take time are apart.
pub fn holds<V: Values>(tasks: &[Task], a: &V) -> bool
    requires { (vars : List Variable) × IsDisjunctive vars tasks.now }
    ensures { IsTrue result ↔ SatDisjunctive tasks.now (V.point a.now) }
{
    for i in 0..tasks.len() {
        if !apart_from_later(tasks, i, a) {
            return false;
        }
    }
    true
}
