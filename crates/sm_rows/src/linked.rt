//! Linked variables: those that have a column for each of their values.
ghost use Rattle.std.specs.Prelude.{◌≡◌, ◌↔◌, IsTrue};
ghost use Rattle.sm_rows.specs.Links.{in_positions, in_literals, in_clauses, in_row, is_entry_of, in_entries, in_element, in_picks, in_choice, is_presence_of, in_tasks, in_items, in_packing, is_in_unlinear, is_listed_kind, links, some_links, is_linked};

use sm_flat::{
    Choice, Clause, Constraint, Entry, Flat, Form, Item, LinRow, Literal, Packing, Task, VarKind,
};
use sqlite_items::Items;

/// The most declared values of a linked variable.
pub const MOST_LINKED: usize = 64;

fn in_positions(var: u32, positions: &[u32]) -> bool
    ensures { result ≡ in_positions var positions.now }
{
    positions.iter().any(|p| *p == var)
}

fn in_literals(var: u32, literals: &[Literal]) -> bool
    ensures { result ≡ in_literals var literals.now }
{
    literals.iter().any(|l| l.var == var)
}

fn in_clauses(var: u32, clauses: &[Clause]) -> bool
    ensures { result ≡ in_clauses var clauses.now }
{
    clauses
        .iter()
        .any(|c| in_literals(var, c.literals.as_slice()))
}

fn in_row(var: u32, row: &LinRow) -> bool
    ensures { result ≡ in_row var row.now }
{
    row.terms.as_slice().iter().any(|t| t.0 == var)
}

fn is_entry_of(var: u32, entry: &Entry) -> bool
    ensures { result ≡ is_entry_of var entry.now }
{
    match entry {
        Entry::Number(_) => false,
        Entry::Variable(other) => *other == var,
    }
}

fn in_entries(var: u32, entries: &[Entry]) -> bool
    ensures { result ≡ in_entries var entries.now }
{
    entries.iter().any(|e| is_entry_of(var, e))
}

fn in_element(var: u32, x: u32, entries: &[Entry], z: u32) -> bool
    ensures { result ≡ in_element var x entries.now z }
{
    if x == var {
        return true;
    }
    z == var || in_entries(var, entries)
}

fn in_picks(var: u32, picks: &[(u32, Items<i64>)]) -> bool
    ensures { result ≡ in_picks var picks.now }
{
    picks.iter().any(|p| p.0 == var)
}

fn in_choice(var: u32, choice: &Choice) -> bool
    ensures { result ≡ in_choice var choice.now }
{
    choice.z == var || in_picks(var, choice.picks.as_slice())
}

fn is_presence_of(var: u32, present: &Option<Literal>) -> bool
    ensures { result ≡ is_presence_of var present.now }
{
    match present {
        None => false,
        Some(literal) => literal.var == var,
    }
}

fn in_tasks(var: u32, tasks: &[Task]) -> bool
    ensures { result ≡ in_tasks var tasks.now }
{
    tasks
        .iter()
        .any(|t| t.start == var || is_presence_of(var, &t.present))
}

fn in_items(var: u32, items: &[Item]) -> bool
    ensures { result ≡ in_items var items.now }
{
    items.iter().any(|i| i.group == var)
}

fn in_packing(var: u32, packing: &Packing) -> bool
    ensures { result ≡ in_packing var packing.now }
{
    packing.z == var || in_items(var, packing.items.as_slice())
}

/// Whether the variable stands in a constraint that isn't linear.
fn is_in_unlinear(var: u32, form: &Form) -> bool
    ensures { result ≡ is_in_unlinear var form.now }
{
    match form {
        Form::Linear(_) => false,
        Form::Logic(clauses) => in_clauses(var, clauses.as_slice()),
        Form::When { literals, row } => in_literals(var, literals.as_slice()) || in_row(var, row),
        Form::Alldiff(positions) => in_positions(var, positions.as_slice()),
        Form::Element { x, entries, z } => in_element(var, *x, entries.as_slice(), *z),
        Form::IndexSum(choice) => in_choice(var, choice),
        Form::Cumulative { tasks, .. } => in_tasks(var, tasks.as_slice()),
        Form::Disjunctive(tasks) => in_tasks(var, tasks.as_slice()),
        Form::Packing(packing) => in_packing(var, packing),
        Form::Circuit(successors) => in_positions(var, successors.as_slice()),
        Form::Assign(choice) => in_choice(var, choice),
    }
}

fn is_listed_kind(kind: VarKind) -> bool
    ensures { result ≡ is_listed_kind kind }
{
    match kind {
        VarKind::Set => true,
        VarKind::Int | VarKind::Real => false,
    }
}

/// Whether the constraint has rows in the relaxation, isn't linear, and has the variable.
fn links(var: u32, constraint: &Constraint) -> bool
    ensures { result ≡ links var constraint.now }
{
    constraint.tags.relax && is_in_unlinear(var, &constraint.form)
}

fn some_links(var: u32, constraints: &[Constraint]) -> bool
    ensures { result ≡ some_links var constraints.now }
{
    constraints.iter().any(|c| links(var, c))
}

/// Whether the variable has a column for each of its declared values: it is a set of at most 64, and stands in a constraint that
/// isn't linear and has rows in the relaxation.
pub fn is_linked(flat: &Flat, var: u32) -> bool
    ensures { result ≡ is_linked flat.now var }
{
    let Some(variable) = flat.vars().get(var as usize) else {
        return false;
    };
    if !is_listed_kind(variable.kind) {
        return false;
    }
    variable.values.len() <= MOST_LINKED && some_links(var, flat.constraints())
}
