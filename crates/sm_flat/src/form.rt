//! Constraints and their forms. What a form is, its kind says: each function here only chooses the kind.
ghost use Rattle.std.specs.Prelude.{◌≡◌, ◌≤◌, ◌+◌, ◌↔◌, List, IsTrue, IsSome, IfSome, true};
ghost use Rattle.sm_kinds.specs.declared.var.Var.{Var as Variable};
ghost use Rattle.sm_flat.specs.Forms.{Sat, IsForm, size_of, EachVar, kind_of, IsConstraint};

use crate::tags::{Tags, are_tags};
use sm_kinds::{
    Choice, Clause, Entry, LinRow, Literal, Packing, Task, Values, Var, VarTest, alldiff, assign,
    circuit, cumulative, disjunctive, element, indexsum, linear, logic, packing, when,
};
use sqlite_items::Items;

/// The kind of a constraint.
#[derive(Clone, Copy, Debug, PartialEq, Eq)]
pub enum Kind {
    Linear,
    Logic,
    When,
    Alldiff,
    Element,
    IndexSum,
    Cumulative,
    Disjunctive,
    Packing,
    Circuit,
    Assign,
}

/// What a constraint says.
#[derive(Drop)]
pub enum Form {
    /// A linear row holds.
    Linear(LinRow),
    /// Each clause has a true literal.
    Logic(Items<Clause>),
    /// Some literal is false, or the row holds.
    When {
        literals: Items<Literal>,
        row: LinRow,
    },
    /// The values at different positions differ.
    Alldiff(Items<u32>),
    /// `x` is the number, from 0, of an entry, and `z` equals that entry.
    Element {
        x: u32,
        entries: Items<Entry>,
        z: u32,
    },
    /// Each variable chooses a member of its table, and z equals the sum of these.
    IndexSum(Choice),
    /// At the start of each present task, the demands of the present tasks that run then sum to at most the capacity.
    Cumulative {
        capacity: i64,
        tasks: Items<Task>,
    },
    /// Of each two present tasks with positive durations one ends at or before the other's start.
    Disjunctive(Items<Task>),
    /// Each item is in a group, no group holds more than its capacity, and z has the costs.
    Packing(Packing),
    /// From node 0 on, each variable names the next node, and a tour passes through all.
    Circuit(Items<u32>),
    /// Each variable chooses a member of its table, no two at the same place, and z equals the sum of these.
    Assign(Choice),
}

/// A constraint, with the tags that say how it infers, relaxes and branches.
#[derive(Drop)]
pub struct Constraint {
    pub form: Form,
    pub tags: Tags,
}

/// The kind of a form.
pub fn kind_of(form: &Form) -> Kind
    ensures { result ≡ kind_of form.now }
{
    match form {
        Form::Linear(_) => Kind::Linear,
        Form::Logic(_) => Kind::Logic,
        Form::When { .. } => Kind::When,
        Form::Alldiff(_) => Kind::Alldiff,
        Form::Element { .. } => Kind::Element,
        Form::IndexSum(_) => Kind::IndexSum,
        Form::Cumulative { .. } => Kind::Cumulative,
        Form::Disjunctive(_) => Kind::Disjunctive,
        Form::Packing(_) => Kind::Packing,
        Form::Circuit(_) => Kind::Circuit,
        Form::Assign(_) => Kind::Assign,
    }
}

/// Whether the parts are within the limits of the kind, and fit these variables.
fn is_form(vars: &[Var], form: &Form) -> bool
    ensures { IsTrue result ↔ IsForm vars.now form.now }
{
    match form {
        Form::Linear(row) => linear::fits(vars, row),
        Form::Logic(clauses) => logic::fits(vars, clauses.as_slice()),
        Form::When { literals, row } => when::fits(vars, literals.as_slice(), row),
        Form::Alldiff(positions) => alldiff::fits(vars, positions.as_slice()),
        Form::Element { x, entries, z } => element::fits(vars, *x, entries.as_slice(), *z),
        Form::IndexSum(choice) => indexsum::fits(vars, choice),
        Form::Cumulative { capacity, tasks } => {
            cumulative::fits(vars, *capacity, tasks.as_slice())
        }
        Form::Disjunctive(tasks) => disjunctive::fits(vars, tasks.as_slice()),
        Form::Packing(packing) => packing::fits(vars, packing),
        Form::Circuit(successors) => circuit::fits(vars, successors.as_slice()),
        Form::Assign(choice) => assign::fits(vars, choice),
    }
}

/// Whether the form and the tags are within the limits, and fit these variables.
pub(crate) fn is_constraint(vars: &[Var], constraint: &Constraint) -> bool
    ensures { IsTrue result ↔ IsConstraint vars.now constraint.now }
{
    is_form(vars, &constraint.form) && are_tags(&constraint.tags)
}

/// What is left of a count without the terms, literals and members of tables of a form.
pub fn spend(form: &Form, left: u64) -> Option<u64>
    ensures variant { IsSome result ↔ (size_of form.now ≤ left) }
    ensures value { IfSome result (λ r. r + size_of form.now ≡ left) }
{
    match form {
        Form::Linear(row) => linear::spend(row, left),
        Form::Logic(clauses) => logic::spend(clauses.as_slice(), left),
        Form::When { literals, row } => when::spend(literals.as_slice(), row, left),
        Form::Alldiff(positions) => alldiff::spend(positions.as_slice(), left),
        Form::Element { entries, .. } => element::spend(entries.as_slice(), left),
        Form::IndexSum(choice) => indexsum::spend(choice, left),
        Form::Cumulative { tasks, .. } => cumulative::spend(tasks.as_slice(), left),
        Form::Disjunctive(tasks) => disjunctive::spend(tasks.as_slice(), left),
        Form::Packing(packing) => packing::spend(packing, left),
        Form::Circuit(successors) => circuit::spend(successors.as_slice(), left),
        Form::Assign(choice) => assign::spend(choice, left),
    }
}

/// Whether each variable of a form passes the test.
pub(crate) fn each_var<T: VarTest>(form: &Form, test: &T) -> bool
    ensures { IsTrue result ↔ EachVar (λ v. T.passing test.now v ≡ true) form.now }
{
    match form {
        Form::Linear(row) => linear::every_var(row, test),
        Form::Logic(clauses) => logic::every_var(clauses.as_slice(), test),
        Form::When { literals, row } => when::every_var(literals.as_slice(), row, test),
        Form::Alldiff(positions) => alldiff::every_var(positions.as_slice(), test),
        Form::Element { x, entries, z } => element::every_var(*x, entries.as_slice(), *z, test),
        Form::IndexSum(choice) => indexsum::every_var(choice, test),
        Form::Cumulative { tasks, .. } => cumulative::every_var(tasks.as_slice(), test),
        Form::Disjunctive(tasks) => disjunctive::every_var(tasks.as_slice(), test),
        Form::Packing(packing) => packing::every_var(packing, test),
        Form::Circuit(successors) => circuit::every_var(successors.as_slice(), test),
        Form::Assign(choice) => assign::every_var(choice, test),
    }
}

/// Whether a form holds at these values.
pub(crate) fn holds_form<V: Values>(form: &Form, a: &V) -> bool
    requires { (vars : List Variable) × IsForm vars form.now }
    ensures { IsTrue result ↔ Sat form.now (V.point a.now) }
{
    match form {
        Form::Linear(row) => linear::holds(row, a),
        Form::Logic(clauses) => logic::holds(clauses.as_slice(), a),
        Form::When { literals, row } => when::holds(literals.as_slice(), row, a),
        Form::Alldiff(positions) => alldiff::holds(positions.as_slice(), a),
        Form::Element { x, entries, z } => element::holds(*x, entries.as_slice(), *z, a),
        Form::IndexSum(choice) => indexsum::holds(choice, a),
        Form::Cumulative { capacity, tasks } => cumulative::holds(*capacity, tasks.as_slice(), a),
        Form::Disjunctive(tasks) => disjunctive::holds(tasks.as_slice(), a),
        Form::Packing(packing) => packing::holds(packing, a),
        Form::Circuit(successors) => circuit::holds(successors.as_slice(), a),
        Form::Assign(choice) => assign::holds(choice, a),
    }
}
