//! Cumulative: at the start of each present task, the demands of the present tasks that run then sum to at most the capacity.
ghost use Rattle.std.specs.Prelude.{◌≡◌, ◌≤◌, ◌<◌, ◌+◌, ◌^◌, ◌↔◌, List, IsTrue, IsSome, IfSome, true, length, All, unsigned_abs};
ghost use Rattle.sm_kinds.specs.declared.tasks.Task.{Task as Stated};
ghost use Rattle.sm_kinds.specs.declared.var.Var.{Var as Variable};
ghost use Rattle.sm_kinds.specs.Limits.{IsAmount, most_tasks};
ghost use Rattle.sm_kinds.specs.Tasks.{start_at};
ghost use Rattle.sm_kinds.specs.Cumulative.{IsCumulative, cumulative_size, EachCumulativeVar, runs_at, demand_at, load_at, StartFits, SatCumulative};

use crate::limits::is_amount;
use crate::tasks::{Task, are_tasks, end_at, every_task_var, is_present, spend_tasks, start_at};
use crate::values::{Values, VarTest};
use crate::var::Var;

/// Whether the parts are within the limits, and fit these variables.
pub fn fits(vars: &[Var], capacity: i64, tasks: &[Task]) -> bool
    ensures { IsTrue result ↔ IsCumulative vars.now capacity tasks.now }
{
    is_amount(capacity) && are_tasks(vars, tasks)
}

/// What is left of a count without the literals of the tasks.
pub fn spend(tasks: &[Task], left: u64) -> Option<u64>
    ensures variant { IsSome result ↔ (cumulative_size tasks.now ≤ left) }
    ensures value { IfSome result (λ r. r + cumulative_size tasks.now ≡ left) }
{
    spend_tasks(tasks, left)
}

/// Whether each variable of the tasks passes the test.
pub fn every_var<T: VarTest>(tasks: &[Task], test: &T) -> bool
    ensures { IsTrue result ↔ EachCumulativeVar (λ v. T.passing test.now v ≡ true) tasks.now }
{
    every_task_var(tasks, test)
}

/// Whether a task runs when another starts.
fn runs_at<V: Values>(task: &Task, starting: &Task, a: &V) -> bool
    requires { IsAmount task.now.duration }
    ensures { result ≡ runs_at (V.point a.now) (start_at (V.point a.now) starting.now) task.now }
{
    let time = start_at(starting, a);
    is_present(task, a) && start_at(task, a) <= time && time < end_at(task, a)
}

/// What a task demands when another starts.
fn demand_at<V: Values>(task: &Task, starting: &Task, a: &V) -> i64
    requires duration { IsAmount task.now.duration }
    requires demand { IsAmount task.now.demand }
    ensures value { result ≡ demand_at (V.point a.now) (start_at (V.point a.now) starting.now) task.now }
    ensures bound { unsigned_abs result ≤ 2 ^ 31 }
{
    if runs_at(task, starting, a) {
        task.demand
    } else {
        0
    }
}

/// The demands of the tasks that run when a task starts.
fn load_at<V: Values>(tasks: &[Task], starting: &Task, a: &V) -> i64
    requires few { length tasks.now ≤ most_tasks }
    requires durations { All (λ (t : Stated). IsAmount t.duration) tasks.now }
    requires demands { All (λ (t : Stated). IsAmount t.demand) tasks.now }
    ensures { result ≡ load_at (V.point a.now) (start_at (V.point a.now) starting.now) tasks.now }
{
    let mut load: i64 = 0;
    for task in tasks {
        load += demand_at(task, starting, a);
    }
    load
}

/// Whether what runs at the start of a task, where it is present, fits the capacity.
fn fits_at<V: Values>(task: &Task, capacity: i64, tasks: &[Task], a: &V) -> bool
    requires few { length tasks.now ≤ most_tasks }
    requires durations { All (λ (t : Stated). IsAmount t.duration) tasks.now }
    requires demands { All (λ (t : Stated). IsAmount t.demand) tasks.now }
    ensures { IsTrue result ↔ StartFits (V.point a.now) capacity tasks.now task.now }
{
    !is_present(task, a) || load_at(tasks, task, a) <= capacity
}

/// Whether the demands of what runs at each start of a present task fit the capacity.
pub fn holds<V: Values>(capacity: i64, tasks: &[Task], a: &V) -> bool
    requires { (vars : List Variable) × IsCumulative vars capacity tasks.now }
    ensures { IsTrue result ↔ SatCumulative capacity tasks.now (V.point a.now) }
{
    tasks.iter().all(|task| fits_at(task, capacity, tasks, a))
}
