//! A solution by the names of its variables, and a verdict.
ghost use Rattle.std.specs.Prelude.{◌≡◌, ◌<ℤ◌, ◌++◌, codes, pos, option_map, int_div, OnOk, IfOk};
ghost use Rattle.sm_flat.specs.Assignments.{point_of};
ghost use Rattle.sm_reports.specs.Briefs.{common_divisor, ratio_text, value_line, solution_text, value_lines, brief_text};

use sm_base::{OutOfMemory, push_whole};
use sm_flat::{Assignment, Var};
use sm_frac::gcd;
use sm_step::{Verdict, push_verdict};
use std::alloc::Global;

/// The greatest number that divides both parts of a fraction.
fn common_divisor(n: i128, d: i128) -> i128
    requires { pos 0 <ℤ d }
    ensures value { result ≡ pos (common_divisor n d) }
    ensures above { pos 0 <ℤ result }
{
    gcd(n.unsigned_abs(), d.unsigned_abs()) as i128
}

/// The quotient by a number above 0.
fn quotient(number: i128, by: i128) -> i128
    requires { pos 0 <ℤ by }
    ensures { result ≡ int_div number by }
{
    number / by
}

/// Appends a fraction in lowest terms.
fn push_ratio(into: &mut Vec<u8>, n: i128, d: i128) -> Result<(), OutOfMemory>
    requires { pos 0 <ℤ d }
    ensures { OnOk result (into.new.items ≡ into.old.items ++ ratio_text n d) }
{
    let by = common_divisor(n, d);
    push_whole(into, quotient(n, by))?;
    if d == by {
        return Ok(());
    }
    into.extend_from_slice(b"/")?;
    push_whole(into, quotient(d, by))
}

/// Appends the line of a variable with its value.
fn push_value(into: &mut Vec<u8>, name: &[u8], n: i128, d: i128) -> Result<(), OutOfMemory>
    requires { pos 0 <ℤ d }
    ensures { OnOk result (into.new.items ≡ into.old.items ++ value_line name.now n d) }
{
    into.extend_from_slice(name)?;
    into.extend_from_slice(b" = ")?;
    push_ratio(into, n, d)?;
    into.extend_from_slice(b"\n")?;
    Ok(())
}

/// The numerator of variable i, or 0 where the assignment has none.
fn numerator_at(a: &Assignment, i: usize) -> i128
    ensures { result ≡ (point_of a.now).numerator i }
{
    match a.values().get(i) {
        Some(numerator) => *numerator,
        None => 0,
    }
}

/// Appends a line for each variable.
fn push_values(into: &mut Vec<u8>, vars: &[Var], best: &Assignment) -> Result<(), OutOfMemory>
    ensures { OnOk result (into.new.items ≡ into.old.items ++ value_lines (point_of best.now) 0 vars.now) }
{
    let d = i128::from(best.denominator());
    for (i, var) in vars.iter().enumerate() {
        push_value(into, var.name.as_slice(), numerator_at(best, i), d)?;
    }
    Ok(())
}

/// Appends the values of the best solution, if there is one.
fn push_solution(
    into: &mut Vec<u8>,
    vars: &[Var],
    best: Option<&Assignment>,
) -> Result<(), OutOfMemory>
    ensures { OnOk result (into.new.items ≡ into.old.items ++ solution_text vars.now (option_map (λ a. a.now) best.entry)) }
{
    match best {
        Some(best) => push_values(into, vars, best),
        None => Ok(()),
    }
}

/// The values of the best solution, if there is one: a line for each variable, in the order of their declaration. Behind
/// them stands the verdict.
///
/// # Errors
///
/// `OutOfMemory`.
pub fn brief_text(
    alloc: Global,
    vars: &[Var],
    best: Option<&Assignment>,
    verdict: &Verdict,
) -> Result<Vec<u8>, OutOfMemory>
    ensures { IfOk result (λ t. t.items ≡ brief_text vars.now (option_map (λ a. a.now) best.entry) verdict.now) }
{
    let mut text = Vec::new(alloc);
    push_solution(&mut text, vars, best)?;
    push_verdict(&mut text, verdict)?;
    text.extend_from_slice(b"\n")?;
    Ok(text)
}
