//! Rules of inference in a line, and what they come to.
ghost use Rattle.std.specs.Prelude.{◌≡◌, ◌++◌, ℕ, List, Option, codes, Some, None, Err, IfOk, OnOk};
ghost use Rattle.sm_base.specs.Whole.{whole_text};
ghost use Rattle.sm_step.specs.PartText.{number_text, list_text};
ghost use Rattle.sm_step.specs.RuleText.{task_text, rule_text, outcome_text};
ghost use Rattle.sm_step.specs.RuleReading.{task_in, two_numbers_in, number_and_list_in, time_rule_in, order_in, task_rule_in, value_rule_in, rule_in, outcome_in};
ghost use Rattle.sm_step.specs.Taking.{Takes, TakesBehind};

use crate::cursor::Cursor;
use crate::line::Outcome;
use crate::lists::{push_joined, push_listed, read_joined, read_listed};
use crate::part::{push_numbered, push_words};
use crate::rule::Rule;
use crate::short::Short;
use sm_base::{OutOfMemory, push_whole};
use std::alloc::Global;

fn push_task(into: &mut Vec<u8>, task: Option<u32>) -> Result<(), OutOfMemory>
    ensures { OnOk result (into.new.items ≡ into.old.items ++ task_text task) }
{
    match task {
        Some(task) => push_whole(into, i128::from(task)),
        None => push_words(into, b"-"),
    }
}

/// Appends a rule's name, a constraint's number and a number behind a space.
fn push_two_numbers(into: &mut Vec<u8>, name: &[u8], k: u32, number: u32) -> Result<(), OutOfMemory>
    ensures { OnOk result (into.new.items ≡ into.old.items ++ (name.now ++ number_text k ++ codes " " ++ number_text number)) }
{
    push_numbered(into, name, u64::from(k))?;
    into.extend_from_slice(b" ")?;
    push_whole(into, i128::from(number))
}

/// Appends a rule's name, a constraint's number and a list.
fn push_number_and_list(
    into: &mut Vec<u8>,
    name: &[u8],
    k: u32,
    w: &[u32],
) -> Result<(), OutOfMemory>
    ensures { OnOk result (into.new.items ≡ into.old.items ++ (name.now ++ number_text k ++ codes " " ++ list_text w.now)) }
{
    push_numbered(into, name, u64::from(k))?;
    into.extend_from_slice(b" ")?;
    push_listed(into, b',', w)
}

/// Appends a rule that orders a task and a set of tasks.
fn push_order(
    into: &mut Vec<u8>,
    name: &[u8],
    k: u32,
    task: u32,
    w: &[u32],
    v: &[u32],
) -> Result<(), OutOfMemory>
    ensures { OnOk result (into.new.items ≡ into.old.items ++ (name.now ++ number_text k ++ codes " " ++ number_text task ++ codes " " ++ list_text w.now ++ codes " " ++ list_text v.now)) }
{
    push_two_numbers(into, name, k, task)?;
    into.extend_from_slice(b" ")?;
    push_listed(into, b',', w)?;
    into.extend_from_slice(b" ")?;
    push_listed(into, b',', v)
}

/// Appends the rule of the time-table.
fn push_time(into: &mut Vec<u8>, k: u32, moment: i128, task: Option<u32>) -> Result<(), OutOfMemory>
    ensures { OnOk result (into.new.items ≡ into.old.items ++ (codes "time " ++ number_text k ++ codes " " ++ whole_text moment ++ codes " " ++ task_text task)) }
{
    push_numbered(into, b"time ", u64::from(k))?;
    into.extend_from_slice(b" ")?;
    push_whole(into, moment)?;
    into.extend_from_slice(b" ")?;
    push_task(into, task)
}

pub(crate) fn push_rule(into: &mut Vec<u8>, rule: &Rule) -> Result<(), OutOfMemory>
    ensures { OnOk result (into.new.items ≡ into.old.items ++ rule_text rule.now) }
{
    match rule {
        Rule::Sum { k, half } => push_two_numbers(into, b"sum ", *k, *half),
        Rule::Clause { k, clause } => push_two_numbers(into, b"clause ", *k, *clause),
        Rule::When { k, half } => push_two_numbers(into, b"when ", *k, *half),
        Rule::Hall { k, w } => push_number_and_list(into, b"hall ", *k, w.as_slice()),
        Rule::Elem { k } => push_numbered(into, b"elem ", u64::from(*k)),
        Rule::Isum { k } => push_numbered(into, b"isum ", u64::from(*k)),
        Rule::Time { k, moment, task } => push_time(into, *k, *moment, *task),
        Rule::Energy { k, w } => push_number_and_list(into, b"energy ", *k, w.as_slice()),
        Rule::Load { k, w } => push_number_and_list(into, b"load ", *k, w.as_slice()),
        Rule::After { k, task, w, v } => push_order(
            into,
            b"after ",
            *k,
            *task,
            w.as_slice(),
            v.as_slice(),
        ),
        Rule::Before { k, task, w, v } => push_order(
            into,
            b"before ",
            *k,
            *task,
            w.as_slice(),
            v.as_slice(),
        ),
        Rule::Cap { k, group } => push_two_numbers(into, b"cap ", *k, *group),
        Rule::Pay { k } => push_numbered(into, b"pay ", u64::from(*k)),
        Rule::Chain { k, place } => push_two_numbers(into, b"chain ", *k, *place),
    }
}

pub(crate) fn push_outcome(into: &mut Vec<u8>, outcome: &Outcome) -> Result<(), OutOfMemory>
    ensures { OnOk result (into.new.items ≡ into.old.items ++ outcome_text outcome.now) }
{
    match outcome {
        Outcome::Close => push_words(into, b"close"),
        Outcome::Literals(literals) => push_joined(into, b' ', literals.as_slice()),
    }
}

fn read_task(cursor: &mut Cursor<'_>) -> Option<u32>
    ensures { Takes task_in (task_text result) cursor.old result cursor.new }
{
    if cursor.accept(b"-") {
        return None;
    }
    let task = cursor.number();
    Some(task)
}

/// Reads two numbers with a space between them.
fn read_two_numbers(cursor: &mut Cursor<'_>) -> (u32, u32)
    ensures { Takes two_numbers_in (number_text result.0 ++ codes " " ++ number_text result.1) cursor.old result cursor.new }
{
    let k = cursor.number();
    cursor.expect(b" ");
    let number = cursor.number();
    (k, number)
}

/// Reads a number and a list.
fn read_number_and_list(alloc: Global, cursor: &mut Cursor<'_>) -> (u32, Short<u32>)
    ensures { Takes number_and_list_in (number_text result.0 ++ codes " " ++ list_text result.1) cursor.old result cursor.new }
{
    let k = cursor.number();
    cursor.expect(b" ");
    let w = read_listed(alloc, cursor, b',');
    (k, w)
}

/// Reads a constraint, a task and two lists.
fn read_order(alloc: Global, cursor: &mut Cursor<'_>) -> (u32, u32, Short<u32>, Short<u32>)
    ensures { Takes order_in (number_text result.0 ++ codes " " ++ number_text result.1 ++ codes " " ++ list_text result.2 ++ codes " " ++ list_text result.3) cursor.old result cursor.new }
{
    let (k, task) = read_two_numbers(cursor);
    cursor.expect(b" ");
    let w = read_listed(alloc, cursor, b',');
    cursor.expect(b" ");
    let v = read_listed(alloc, cursor, b',');
    (k, task, w, v)
}

/// Reads what stands behind `time `.
fn read_time_rule(cursor: &mut Cursor<'_>) -> Rule
    ensures { TakesBehind (codes "time ") time_rule_in (rule_text result) cursor.old result cursor.new }
{
    let k = cursor.number();
    cursor.expect(b" ");
    let moment = cursor.whole();
    cursor.expect(b" ");
    let task = read_task(cursor);
    Rule::Time { k, moment, task }
}

/// Reads a rule of scheduling.
fn read_task_rule(alloc: Global, cursor: &mut Cursor<'_>) -> Rule
    ensures { Takes task_rule_in (rule_text result) cursor.old result cursor.new }
{
    if cursor.accept(b"time ") {
        return read_time_rule(cursor);
    }
    if cursor.accept(b"energy ") {
        let (k, w) = read_number_and_list(alloc, cursor);
        return Rule::Energy { k, w };
    }
    if cursor.accept(b"load ") {
        let (k, w) = read_number_and_list(alloc, cursor);
        return Rule::Load { k, w };
    }
    if cursor.accept(b"after ") {
        let (k, task, w, v) = read_order(alloc, cursor);
        return Rule::After { k, task, w, v };
    }
    cursor.expect(b"before ");
    let (k, task, w, v) = read_order(alloc, cursor);
    Rule::Before { k, task, w, v }
}

/// Reads a rule of values, packing or circuits, or of scheduling.
fn read_value_rule(alloc: Global, cursor: &mut Cursor<'_>) -> Rule
    ensures { Takes value_rule_in (rule_text result) cursor.old result cursor.new }
{
    if cursor.accept(b"elem ") {
        let k = cursor.number();
        return Rule::Elem { k };
    }
    if cursor.accept(b"isum ") {
        let k = cursor.number();
        return Rule::Isum { k };
    }
    if cursor.accept(b"cap ") {
        let (k, group) = read_two_numbers(cursor);
        return Rule::Cap { k, group };
    }
    if cursor.accept(b"pay ") {
        let k = cursor.number();
        return Rule::Pay { k };
    }
    if cursor.accept(b"chain ") {
        let (k, place) = read_two_numbers(cursor);
        return Rule::Chain { k, place };
    }
    read_task_rule(alloc, cursor)
}

/// Reads a rule with its arguments.
pub(crate) fn read_rule(alloc: Global, cursor: &mut Cursor<'_>) -> Rule
    ensures { Takes rule_in (rule_text result) cursor.old result cursor.new }
{
    if cursor.accept(b"sum ") {
        let (k, half) = read_two_numbers(cursor);
        return Rule::Sum { k, half };
    }
    if cursor.accept(b"clause ") {
        let (k, clause) = read_two_numbers(cursor);
        return Rule::Clause { k, clause };
    }
    if cursor.accept(b"when ") {
        let (k, half) = read_two_numbers(cursor);
        return Rule::When { k, half };
    }
    if cursor.accept(b"hall ") {
        let (k, w) = read_number_and_list(alloc, cursor);
        return Rule::Hall { k, w };
    }
    read_value_rule(alloc, cursor)
}

/// Reads `close`, or literals with spaces between them.
pub(crate) fn read_outcome(alloc: Global, cursor: &mut Cursor<'_>) -> Outcome
    ensures { Takes outcome_in (outcome_text result) cursor.old result cursor.new }
{
    if cursor.accept(b"close") {
        return Outcome::Close;
    }
    let literals = read_joined(alloc, cursor, b' ');
    Outcome::Literals(literals)
}
