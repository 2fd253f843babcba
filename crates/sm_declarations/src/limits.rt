//! The limits of a declaration of variables, in their order.
ghost use Rattle.std.specs.Prelude.{◌≡◌, ◌+◌, ◌≤◌, ◌^◌, ℕ, length, pos, sum_by, IfOk};
ghost use Rattle.sm_kinds.specs.Limits.{greatest_number, most_variables, most_width};
ghost use Rattle.sm_flat.specs.Limits.{one_if_real};
ghost use Rattle.sm_syntax.specs.Trees.{kind_of, values_of};
ghost use Rattle.sm_data.specs.declared.refusal.Counted.TheVariants as counted;
ghost use Rattle.sm_meaning.specs.Scopes as meaning;
ghost use Rattle.sm_meaning.specs.Trials.{GoesThrough, ◌▸◌, tried};
ghost use Rattle.sm_meaning.specs.Refusals.{number_over, count_over};
ghost use Rattle.sm_meaning.specs.Tuples.{member_count};
ghost use Rattle.sm_meaning.specs.Limits.{numbers_tried};
ghost use Rattle.sm_meaning.specs.Expansions.{Expansion, vars_of};
ghost use Rattle.sm_meaning.specs.Declarations.{widths_tried, set_widths_tried, reals_tried, var_limits_tried, width_of, widths_of};
ghost use Rattle.sm_drafts.specs.Drafts.{Passes};
ghost use Rattle.sm_declarations.specs.Numbers.{AreNumbers, AreValues};

use crate::counts::{member_count, try_amount, try_large_count};
use crate::domain::width_of;
use crate::spans::widths_of;
use sm_data::Counted;
use sm_drafts::{try_bound, try_count};
use sm_flat::Var;
use sm_kinds::{MOST_REALS, MOST_VARIABLES, MOST_WIDTH, MOST_WIDTHS, is_real_kind};
use sm_meaning::{ExpandRefusal, Range};
use sm_syntax::{Kind, Values};

/// Tries the numbers of a kind.
fn try_bounds(numbers: &[i64]) -> Result<(), ExpandRefusal>
    ensures { Passes (numbers_tried counted.Bound greatest_number numbers.now) result }
{
    for number in numbers {
        try_bound(number)?;
    }
    Ok(())
}

/// Tries the widths of members of one width, one after another, with what is so far.
fn try_widths(members: usize, width: u128, so_far: u128) -> Result<(), ExpandRefusal>
    requires width { width ≤ 2 ^ 64 }
    requires so_far { so_far ≤ 2 ^ 76 }
    ensures { Passes (widths_tried members width so_far) result }
{
    let mut total = so_far;
    for _member in 0..members {
        total += width;
        try_amount(Counted::Widths, MOST_WIDTHS, total)?;
    }
    Ok(())
}

/// Tries the widths of members of a set, where there are some.
fn try_some_widths(
    vars: &[Var],
    members: usize,
    values: &Values,
    numbers: &[i64],
) -> Result<(), ExpandRefusal>
    requires { length vars.now ≤ most_variables }
    ensures { (s : meaning.Scope) → AreValues s (values_of values.now) numbers.now →
        Passes (tried (number_over counted.Width most_width (pos (width_of s (values_of values.now)))) ▸ widths_tried members (width_of s (values_of values.now)) (widths_of vars.now)) result }
{
    let width = width_of(values, numbers);
    try_amount(Counted::Width, MOST_WIDTH, width)?;
    try_widths(members, width, widths_of(vars))
}

/// Tries the widths of set variables.
fn try_set_widths(
    vars: &[Var],
    members: usize,
    kind: &Kind,
    numbers: &[i64],
) -> Result<(), ExpandRefusal>
    requires { length vars.now ≤ most_variables }
    ensures { (e : Expansion) (s : meaning.Scope) → vars.now ≡ vars_of e → AreNumbers s (kind_of kind.now) numbers.now →
        Passes (set_widths_tried e s members (kind_of kind.now)) result }
{
    if members == 0 {
        return Ok(());
    }
    match kind {
        Kind::Set { values, .. } => try_some_widths(vars, members, values, numbers),
        Kind::Int { .. } => Ok(()),
        Kind::Real { .. } => Ok(()),
    }
}

/// 1 of a real variable.
fn one_if_real(var: &Var) -> usize
    ensures value { result ≡ one_if_real var.now }
    ensures bound { result ≤ 1 }
{
    if is_real_kind(var.kind) { 1 } else { 0 }
}

/// How many real variables there are.
fn reals_of(vars: &[Var]) -> usize
    ensures value { result ≡ sum_by one_if_real vars.now }
    ensures bound { result ≤ length vars.now }
{
    let mut reals = 0;
    for var in vars {
        reals += one_if_real(var);
    }
    reals
}

/// Tries how many real variables there are.
fn try_reals(vars: &[Var], members: usize, kind: &Kind) -> Result<(), ExpandRefusal>
    requires vars { length vars.now ≤ most_variables }
    requires members { members ≤ most_variables }
    ensures { (e : Expansion) → vars.now ≡ vars_of e → Passes (reals_tried e members (kind_of kind.now)) result }
{
    match kind {
        Kind::Set { .. } => Ok(()),
        Kind::Int { .. } => Ok(()),
        Kind::Real { .. } => try_count(Counted::Reals, MOST_REALS, reals_of(vars) + members),
    }
}

/// Tries how many variables there are: how many members.
fn try_members(vars: &[Var], ranges: &[Range]) -> Result<usize, ExpandRefusal>
    ensures tried { (e : Expansion) → vars.now ≡ vars_of e → (count : ℕ) →
        GoesThrough (tried (count_over counted.Variables most_variables (length e.variables + member_count ranges.now))) count count (λ m. m ≡ member_count ranges.now) result }
    ensures few { IfOk result (λ m. length vars.now + m ≤ most_variables) }
{
    let members = member_count(ranges);
    try_large_count(
        Counted::Variables,
        MOST_VARIABLES,
        vars.len() as u128 + members,
    )?;
    Ok(members as usize)
}

/// Tries the limits of so many variables of a kind with these numbers.
pub(crate) fn try_limits(
    vars: &[Var],
    ranges: &[Range],
    kind: &Kind,
    numbers: &[i64],
) -> Result<(), ExpandRefusal>
    ensures { (e : Expansion) (s : meaning.Scope) → vars.now ≡ vars_of e → AreNumbers s (kind_of kind.now) numbers.now → (count : ℕ) →
        GoesThrough (var_limits_tried e s (member_count ranges.now) (kind_of kind.now)) count count
        (λ _. length vars.now + member_count ranges.now ≤ most_variables) result }
{
    try_bounds(numbers)?;
    let members = try_members(vars, ranges)?;
    try_set_widths(vars, members, kind, numbers)?;
    try_reals(vars, members, kind)
}
