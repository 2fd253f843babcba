//! The tests behind `Flat::new`: each limit, and how the parts fit each other.
ghost use Rattle.std.specs.Prelude.{◌≡◌, ◌≤◌, ◌<◌, ◌↔◌, IsTrue, All, length, sum_by, if◌then◌else◌};
ghost use Rattle.sm_kinds.specs.Limits.{most_variables, most_total};
ghost use Rattle.sm_kinds.specs.Vars.{IsDomain, set_width, IsDiscrete};
ghost use Rattle.sm_kinds.specs.declared.var.Var.{Var as Variable};
ghost use Rattle.sm_flat.specs.Forms.{IsConstraint, size_of};
ghost use Rattle.sm_flat.specs.Limits.{one_if_real, has_real, one_if_real_row, AreVars, AreConstraints, IsGoal, StandsAlone, RealsLast, AreGoals};
ghost use Rattle.sm_flat.specs.declared.form.Constraint.{Constraint as Stated};

use crate::form::{Constraint, Form, is_constraint, spend};
use crate::goal::{Goal, Sense};
use sm_kinds::{
    MOST_CONSTRAINTS, MOST_GOAL_TERMS, MOST_GOALS, MOST_REAL_ROWS, MOST_REALS, MOST_TOTAL,
    MOST_VARIABLES, MOST_WIDTHS, Var, is_discrete, is_domain, is_real, is_real_kind, is_small,
    is_sum, set_width,
};

fn are_domains(vars: &[Var]) -> bool
    ensures { IsTrue result ↔ All (λ (v : Variable). IsDomain v.kind v.values) vars.now }
{
    vars.iter().all(|v| is_domain(v))
}

/// The sum of the widths of all variables of kind `Set`.
fn widths_of(vars: &[Var]) -> u64
    requires few { length vars.now ≤ most_variables }
    requires each { All (λ (v : Variable). IsDomain v.kind v.values) vars.now }
    ensures { result ≡ sum_by (λ (v : Variable). set_width v.kind v.values) vars.now }
{
    let mut total: u64 = 0;
    for var in vars {
        total += set_width(var);
    }
    total
}

fn one_if_real(var: &Var) -> usize
    ensures { result ≡ one_if_real var.now }
{
    if is_real_kind(var.kind) { 1 } else { 0 }
}

/// How many of the variables are real.
fn reals_of(vars: &[Var]) -> usize
    ensures { result ≡ sum_by one_if_real vars.now }
{
    let mut total: usize = 0;
    for var in vars {
        total += one_if_real(var);
    }
    total
}

/// Whether the variables are within the limits.
pub(crate) fn are_vars(vars: &[Var]) -> bool
    ensures { IsTrue result ↔ AreVars vars.now }
{
    vars.len() <= MOST_VARIABLES
        && are_domains(vars)
        && widths_of(vars) <= MOST_WIDTHS
        && reals_of(vars) <= MOST_REALS
}

/// Whether the constraints have no more terms, literals and members of tables than the limit.
fn is_total_within(constraints: &[Constraint]) -> bool
    ensures { IsTrue result ↔ (sum_by (λ (c : Stated). size_of c.form) constraints.now ≤ most_total) }
{
    let mut left = MOST_TOTAL;
    for constraint in constraints {
        match spend(&constraint.form, left) {
            Some(rest) => left = rest,
            None => return false,
        }
    }
    true
}

/// Whether some term is of a real variable.
fn has_real(vars: &[Var], terms: &[(u32, i64)]) -> bool
    ensures { result ≡ has_real vars.now terms.now }
{
    terms.iter().any(|t| is_real(vars, t.0))
}

fn one_if(real: bool) -> usize
    ensures { result ≡ (if real then 1 else 0) }
{
    if real { 1 } else { 0 }
}

/// 1 of a linear or `when` constraint with a real variable.
fn one_if_real_row(vars: &[Var], form: &Form) -> usize
    ensures { result ≡ one_if_real_row vars.now form.now }
{
    match form {
        Form::Linear(row) => one_if(has_real(vars, row.terms.as_slice())),
        Form::When { row, .. } => one_if(has_real(vars, row.terms.as_slice())),
        _ => 0,
    }
}

/// How many linear and `when` constraints have a real variable.
fn real_rows_of(vars: &[Var], constraints: &[Constraint]) -> usize
    ensures { result ≡ sum_by (λ (c : Stated). one_if_real_row vars.now c.form) constraints.now }
{
    let mut total: usize = 0;
    for constraint in constraints {
        total += one_if_real_row(vars, &constraint.form);
    }
    total
}

/// Whether the constraints are within the limits, and fit these variables.
pub(crate) fn are_constraints(vars: &[Var], constraints: &[Constraint]) -> bool
    ensures { IsTrue result ↔ AreConstraints vars.now constraints.now }
{
    constraints.len() <= MOST_CONSTRAINTS
        && constraints.iter().all(|c| is_constraint(vars, c))
        && is_total_within(constraints)
        && real_rows_of(vars, constraints) <= MOST_REAL_ROWS
}

fn is_goal(vars: &[Var], goal: &Goal) -> bool
    ensures { IsTrue result ↔ IsGoal vars.now goal.now }
{
    let terms = goal.terms.as_slice();
    is_sum(vars, terms) && terms.len() <= MOST_GOAL_TERMS && is_small(goal.constant)
}

/// Whether the goal may stand among so many: one that asks for any solution stands alone, and is 0.
fn stands_alone(goals: usize, goal: &Goal) -> bool
    ensures { IsTrue result ↔ StandsAlone goals goal.now goal.now.sense }
{
    match goal.sense {
        Sense::Minimise | Sense::Maximise => true,
        Sense::Satisfy => goals == 1 && goal.terms.is_empty() && goal.constant == 0,
    }
}

/// Whether no term of the goal is of a real variable.
fn has_no_real(vars: &[Var], goal: &Goal) -> bool
    ensures { IsTrue result ↔ All (λ t. IsDiscrete vars.now t.0) goal.now.terms }
{
    goal.terms.as_slice().iter().all(|t| is_discrete(vars, t.0))
}

/// Whether no goal but the last is of a real variable.
fn are_reals_last(vars: &[Var], goals: &[Goal]) -> bool
    ensures { IsTrue result ↔ RealsLast vars.now goals.now }
{
    for i in 0..goals.len() {
        if i + 1 < goals.len() && !has_no_real(vars, &goals[i]) {
            return false;
        }
    }
    true
}

/// Whether the goals are within the limits, and fit these variables.
pub(crate) fn are_goals(vars: &[Var], goals: &[Goal]) -> bool
    ensures { IsTrue result ↔ AreGoals vars.now goals.now }
{
    !goals.is_empty()
        && goals.len() <= MOST_GOALS
        && goals.iter().all(|g| is_goal(vars, g))
        && goals.iter().all(|g| stands_alone(goals.len(), g))
        && are_reals_last(vars, goals)
}
