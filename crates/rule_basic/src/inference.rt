//! Whether an inference is lawful.
ghost use Rattle.std.specs.Prelude.{◌≡◌, ◌≤◌, ◌<◌, ◌^◌, ◌↔◌, All, IsTrue, IfOk, length, unsigned_abs};
ghost use Rattle.sm_store.specs.Stores.{IsStoreOf, TightensEach};
ghost use Rattle.sm_rows.specs.Inferences.{constraint_of, Closes, Infers, IsInference, IsLawfulInference};
ghost use Rattle.sm_rows.specs.Whole.{IsWholeVar, AreNear, AreWholeVars, IsFormIn};

use crate::clause::{clause_closes, clause_infers};
use crate::sum::{sum_closes, sum_infers};
use crate::turns::tightens_each;
use crate::when::{when_closes, when_infers};
use sm_flat::{Flat, Form, Literal};
use sm_step::{Line, Outcome, Rule};
use sm_store::Store;
use std::alloc::{AllocError, Global};

/// Whether by the rule no assignment of the store satisfies the constraint.
fn closes(store: &Store, rule: &Rule, form: &Form) -> bool
    requires { IsFormIn store.now form.now }
    ensures { IsTrue result ↔ Closes store.now rule.now form.now }
{
    match rule {
        Rule::Sum { half, .. } => sum_closes(store, form, *half),
        Rule::Clause { clause, .. } => clause_closes(store, form, *clause),
        Rule::When { half, .. } => when_closes(store, form, *half),
        _ => false,
    }
}

/// Whether by the rule the literal is true of each assignment of the store that satisfies the constraint.
fn infers(store: &Store, rule: &Rule, form: &Form, literal: &Literal) -> bool
    requires form { IsFormIn store.now form.now }
    requires whole { IsWholeVar store.now literal.now }
    requires bounded { unsigned_abs literal.now.bound ≤ 2 ^ 32 }
    ensures { IsTrue result ↔ Infers store.now rule.now literal.now form.now }
{
    match rule {
        Rule::Sum { half, .. } => sum_infers(store, form, *half, literal),
        Rule::Clause { clause, .. } => clause_infers(store, form, *clause, literal),
        Rule::When { half, .. } => when_infers(store, form, *half, literal),
        _ => false,
    }
}

/// Whether by the rule each of the literals is.
fn infers_each(store: &Store, rule: &Rule, form: &Form, literals: &[Literal]) -> bool
    requires form { IsFormIn store.now form.now }
    requires whole { AreWholeVars store.now literals.now }
    requires near { AreNear literals.now }
    ensures { IsTrue result ↔ All (λ l. Infers store.now rule.now l form.now) literals.now }
{
    literals.iter().all(|l| infers(store, rule, form, l))
}

/// Whether the literals are a result of the rule: at least one, each of which is so of the store and changes it in its turn.
#[tactic(auto, using(sm_rows::proofs::Inferring::near_each))]
fn narrows_by(
    alloc: Global,
    store: &Store,
    rule: &Rule,
    form: &Form,
    literals: &[Literal],
) -> Result<bool, AllocError>
    requires { IsFormIn store.now form.now }
    ensures { IfOk result (λ r. IsTrue r ↔ ((0 < length literals.now) × All (λ l. Infers store.now rule.now l form.now) literals.now × TightensEach store.now literals.now)) }
{
    if literals.is_empty() {
        return Ok(false);
    }
    if !tightens_each(alloc, store, literals)? {
        return Ok(false);
    }
    Ok(infers_each(store, rule, form, literals))
}

/// The constraint that a rule names.
fn constraint_of(rule: &Rule) -> u32
    ensures { result ≡ constraint_of rule.now }
{
    match rule {
        Rule::Sum { k, .. }
        | Rule::Clause { k, .. }
        | Rule::When { k, .. }
        | Rule::Hall { k, .. }
        | Rule::Elem { k }
        | Rule::Isum { k }
        | Rule::Time { k, .. }
        | Rule::Energy { k, .. }
        | Rule::Load { k, .. }
        | Rule::After { k, .. }
        | Rule::Before { k, .. }
        | Rule::Cap { k, .. }
        | Rule::Pay { k }
        | Rule::Chain { k, .. } => *k,
    }
}

/// Whether the rule's result is lawful at a node of this store.
#[tactic(auto, using(crate::proofs::Choosing::no_constraint))]
fn is_inference(
    alloc: Global,
    flat: &Flat,
    store: &Store,
    rule: &Rule,
    outcome: &Outcome,
) -> Result<bool, AllocError>
    requires { IsStoreOf flat.now store.now }
    ensures { IfOk result (λ r. IsTrue r ↔ IsInference flat.now store.now rule.now outcome.now) }
{
    let k = constraint_of(rule);
    if k as usize >= flat.constraints().len() {
        return Ok(false);
    }
    let form = &flat.constraint(k).form;
    match outcome {
        Outcome::Close => Ok(closes(store, rule, form)),
        Outcome::Literals(literals) => { narrows_by(alloc, store, rule, form, literals.as_slice()) }
    }
}

/// Whether the line is an inference by one of these rules that is lawful at a node of this store.
///
/// # Errors
///
/// `AllocError`, only where the line has several literals.
pub fn valid(alloc: Global, flat: &Flat, store: &Store, line: &Line) -> Result<bool, AllocError>
    requires { IsStoreOf flat.now store.now }
    ensures { IfOk result (λ r. IsTrue r ↔ IsLawfulInference flat.now store.now line.now) }
{
    match line {
        Line::Infer { rule, result } => is_inference(alloc, flat, store, rule, result),
        _ => Ok(false),
    }
}
