//! Reading an answer off the last dictionary.
ghost use Rattle.std.specs.Prelude.{◌≡◌, ◌≤◌, ◌<◌};

use crate::number::{common_divisor, product, quotient};
use crate::tableau::Tableau;
use sm_certificate::{OutOfMemory, Program, Proposal};
use sm_frac::{Frac, lcm_52};
use std::alloc::{AllocError, Global};

/// The greatest common denominator of a point.
const GREATEST_DENOMINATOR: i64 = 1 << 52;

/// A fraction in lowest terms, or None where its parts are no fraction.
fn fraction_of(number: i64, denominator: i64) -> Option<Frac> {
    let divisor = common_divisor(number, denominator);
    Frac::new(
        quotient(number, divisor) as i128,
        quotient(denominator, divisor) as i128,
    )
}

/// Writes the multiplier of a slack's row, turned in sign where the slack is turned.
fn write_multiplier(
    multipliers: &mut [Frac],
    tableau: &Tableau,
    columns: usize,
    slack: usize,
    number: i64,
    denominator: i64,
) -> Option<()> {
    if number == 0 || slack < columns {
        return Some(());
    }
    let signed = if tableau.is_turned(slack) {
        number.wrapping_neg()
    } else {
        number
    };
    let multiplier = multipliers.get_mut(slack - columns)?;
    *multiplier = fraction_of(signed, denominator)?;
    Some(())
}

/// The multipliers by the entries of the goal.
fn write_costs(multipliers: &mut [Frac], tableau: &Tableau, columns: usize) -> Option<()> {
    let denominator = tableau.denominators[tableau.goal];
    for j in 0..tableau.constant {
        let cost = tableau.at(tableau.goal, j);
        write_multiplier(
            multipliers,
            tableau,
            columns,
            tableau.nonbasic[j],
            cost,
            denominator,
        )?;
    }
    Some(())
}

/// The multipliers by a row that no point satisfies: of the row's own number its denominator, and of the others their
/// entries, turned in sign.
fn write_entries(
    multipliers: &mut [Frac],
    tableau: &Tableau,
    columns: usize,
    row: usize,
) -> Option<()>
    requires { row < tableau.now.goal }
{
    for j in 0..tableau.constant {
        let entry = tableau.at(row, j).wrapping_neg();
        write_multiplier(multipliers, tableau, columns, tableau.nonbasic[j], entry, 1)?;
    }
    let own = tableau.denominators[row];
    write_multiplier(multipliers, tableau, columns, tableau.basic[row], own, 1)
}

/// The least common multiple of two denominators, or None where it is above 2^52.
fn joined(common: i64, denominator: i64) -> Option<i64> {
    if common < 1
        || denominator < 1
        || common > GREATEST_DENOMINATOR
        || denominator > GREATEST_DENOMINATOR
    {
        return None;
    }
    lcm_52(common, denominator).ok()
}

/// What a basic number's value is over, in lowest terms.
fn denominator_of(tableau: &Tableau, row: usize) -> i64
    requires { row < tableau.now.goal }
{
    let constant = tableau.at(row, tableau.constant);
    let denominator = tableau.denominators[row];
    quotient(denominator, common_divisor(constant, denominator))
}

/// The least common denominator of the columns' values.
fn common_denominator(tableau: &Tableau, columns: usize) -> Option<i64> {
    let mut common = 1;
    for i in 0..tableau.goal {
        if tableau.basic[i] < columns {
            common = joined(common, denominator_of(tableau, i))?;
        }
    }
    Some(common)
}

/// The value of a basic number times the common denominator.
fn value_of(tableau: &Tableau, row: usize, common: i64) -> i128
    requires { row < tableau.now.goal }
{
    let constant = tableau.at(row, tableau.constant);
    let denominator = tableau.denominators[row];
    let divisor = common_divisor(constant, denominator);
    let times = quotient(common, quotient(denominator, divisor));
    product(quotient(constant, divisor), times)
}

/// A column's value: so much above its least end, or below its greatest where it is turned.
fn with_value(end: i128, value: i128, turned: bool) -> Option<i128> {
    if turned {
        end.checked_sub(value)
    } else {
        end.checked_add(value)
    }
}

/// The end that a column is counted from, times the common denominator.
fn end_of(tableau: &Tableau, column: usize, ends: &(i64, i64), common: i64) -> i128 {
    let end = if tableau.is_turned(column) {
        ends.1
    } else {
        ends.0
    };
    product(end, common)
}

/// Adds the values of the basic columns to their ends.
fn add_values(point: &mut [i128], tableau: &Tableau, common: i64) -> Option<()> {
    for i in 0..tableau.goal {
        let column = tableau.basic[i];
        if column < point.len() {
            let value = value_of(tableau, i, common);
            point[column] = with_value(point[column], value, tableau.is_turned(column))?;
        }
    }
    Some(())
}

/// The ends that the columns are counted from, times the common denominator.
fn ends_of(
    alloc: Global,
    program: &Program,
    tableau: &Tableau,
    common: i64,
) -> Result<Vec<i128>, AllocError> {
    let mut point = Vec::new(alloc);
    let columns = program.columns.as_slice();
    for j in 0..columns.len() {
        point.push(end_of(tableau, j, &columns[j], common))?;
    }
    Ok(point)
}

/// The proposal of a dictionary whose numbers are all in their rooms.
pub(crate) fn optimal_proposal(
    alloc: Global,
    program: &Program,
    tableau: &Tableau,
) -> Result<Option<Proposal>, OutOfMemory> {
    let columns = program.columns.len();
    let mut multipliers = vec![in alloc; Frac::whole(0); program.rows.len()]?;
    let Some(denominator) = common_denominator(tableau, columns) else {
        return Ok(None);
    };
    let mut point = ends_of(alloc, program, tableau, denominator)?;
    if add_values(&mut point, tableau, denominator).is_none()
        || write_costs(&mut multipliers, tableau, columns).is_none()
    {
        return Ok(None);
    }
    Ok(Some(Proposal::Optimal {
        denominator,
        point,
        multipliers,
    }))
}

/// The proposal of a dictionary with a row that no point satisfies.
pub(crate) fn infeasible_proposal(
    alloc: Global,
    program: &Program,
    tableau: &Tableau,
    row: usize,
) -> Result<Option<Proposal>, OutOfMemory> {
    if row >= tableau.goal {
        return Ok(None);
    }
    let mut multipliers = vec![in alloc; Frac::whole(0); program.rows.len()]?;
    match write_entries(&mut multipliers, tableau, program.columns.len(), row) {
        Some(()) => Ok(Some(Proposal::Infeasible { multipliers })),
        None => Ok(None),
    }
}
