//! One pivot: the number of a row leaves the basis and that of a column enters.
ghost use Rattle.std.specs.Prelude.{◌≡◌, ◌≤◌, ◌<◌, suc, length};
ghost use Rattle.sm_quick.specs.Shape.{IsSameShape};

use crate::number::{
    Divisor, LIMIT, common_divisor, common_divisor_wide, divisor_by, exact_quotient, narrowed,
    product, quotient,
};
use crate::row::negate;
use crate::tableau::{Entry, Tableau};

/// The row of the leaving number, as the other rows need it.
#[derive(Clone, Copy)]
struct Lead {
    row: usize,
    column: usize,
    /// The entry of the column, which is above 0.
    entry: i64,
    denominator: i64,
    size: u64,
}

/// How a row changes: it is multiplied by one number, and the leading row, multiplied by another, is taken from it.
#[derive(Clone, Copy)]
struct Change {
    times: i64,
    less: i64,
    /// What the numbers are over afterwards.
    denominator: i128,
    /// The number that the row has in the column of the pivot afterwards.
    own: i128,
}

/// Gathers the numbers of a row that aren't 0, but for that of the column.
fn gather(lead: &mut Vec<Entry>, row: &[i64], column: usize) -> Option<()> {
    lead.clear();
    for j in 0..row.len() {
        let number = row[j];
        if number != 0 && j != column {
            lead.push(Entry { column: j, number }).ok()?;
        }
    }
    Some(())
}

/// Whether a row less a multiple of the leading one keeps the sum of its sizes, and so all its numbers, below the limit.
fn is_narrow(change: &Change, size: u64, lead: u64) -> bool {
    match change.less.unsigned_abs().checked_mul(lead) {
        Some(taken) => size.saturating_add(taken) < LIMIT,
        None => false,
    }
}

/// Takes a multiple of the leading entries from a row. The sum of its sizes stays below the limit, so nothing wraps.
/// Answers how much greater the sum of sizes is, where it is less modulo 2^64.
fn subtract(row: &mut [i64], lead: &[Entry], less: i64) -> u64
    ensures { length row.new ≡ length row.old }
{
    let mut grown: u64 = 0;
    for entry in lead {
        if entry.column < row.len() {
            let old = row[entry.column];
            let new = old.wrapping_sub(less.wrapping_mul(entry.number));
            row[entry.column] = new;
            grown = grown
                .wrapping_add(new.unsigned_abs())
                .wrapping_sub(old.unsigned_abs());
        }
    }
    grown
}

/// How the row changes that has this entry in the column of the pivot.
fn change_of(lead: &Lead, entry: i64, denominator: i64) -> Change {
    let divisor = common_divisor(lead.entry, entry);
    let times = quotient(lead.entry, divisor);
    let less = quotient(entry, divisor);
    Change {
        times,
        less,
        denominator: product(denominator, times),
        own: product(less, lead.denominator),
    }
}

/// Changes a row over 1 that isn't multiplied. Only the columns of the leading entries are touched.
fn change_whole(tableau: &mut Tableau, row: usize, column: usize, change: &Change) -> Option<()>
    requires row { row ≤ tableau.old.goal }
    requires column { column < tableau.old.constant }
    ensures { IsSameShape tableau.old tableau.new }
{
    let own = narrowed(change.own)?;
    let start = tableau.start(row);
    let end = start + tableau.width();
    let grown = subtract(&mut tableau.cells[start..end], &tableau.lead, change.less);
    let old = tableau.cells[start + column];
    tableau.cells[start + column] = own;
    tableau.sizes[row] = tableau.sizes[row]
        .wrapping_add(grown)
        .wrapping_add(own.unsigned_abs())
        .wrapping_sub(old.unsigned_abs());
    Some(())
}

/// Writes the changed row into wide numbers.
fn widen(wide: &mut [i128], row: &[i64], lead: &[Entry], column: usize, change: &Change)
    requires { length wide.old ≡ length row.now }
    ensures { length wide.new ≡ length wide.old }
{
    for j in 0..row.len() {
        wide[j] = product(row[j], change.times);
    }
    for entry in lead {
        if entry.column < wide.len() {
            wide[entry.column] = wide[entry.column].wrapping_sub(product(
                change.less,
                entry.number,
            ));
        }
    }
    if column < wide.len() {
        wide[column] = change.own;
    }
}

/// Writes the quotients of wide numbers into a row. Answers the first number that the divisor doesn't divide, or whose
/// quotient isn't below the limit, and None where there is no such number.
fn divide(row: &mut [i64], wide: &[i128], divisor: &Divisor) -> Option<i128>
    requires { length row.old ≡ length wide.now }
    ensures { length row.new ≡ length row.old }
{
    for j in 0..wide.len() {
        match exact_quotient(wide[j], divisor) {
            Some(quotient) => row[j] = quotient,
            None => return Some(wide[j]),
        }
    }
    None
}

/// Writes wide numbers over their greatest common divisor into a row, and answers that divisor. It begins with a multiple of
/// it. Each turn but the last one makes that less by half at least.
fn reduce(row: &mut [i64], wide: &[i128], multiple: i64) -> Option<i64>
    requires { length row.old ≡ length wide.now }
    ensures { length row.new ≡ length row.old }
{
    let mut divisor = multiple;
    for _ in 0..i64::BITS {
        let Some(number) = divide(row, wide, &divisor_by(divisor)) else {
            return Some(divisor);
        };
        let less = i64::try_from(common_divisor_wide(number, divisor as i128)).ok()?;
        if less == divisor {
            return None;
        }
        divisor = less;
    }
    None
}

/// Changes a row in 128 bits.
fn change_wide(tableau: &mut Tableau, row: usize, column: usize, change: &Change) -> Option<()>
    requires row { row ≤ tableau.old.goal }
    requires column { column < tableau.old.constant }
    ensures { IsSameShape tableau.old tableau.new }
{
    let start = tableau.start(row);
    let end = start + tableau.width();
    widen(
        &mut tableau.wide,
        &tableau.cells[start..end],
        &tableau.lead,
        column,
        change,
    );
    let multiple = i64::try_from(common_divisor_wide(change.denominator, change.own)).ok()?;
    let divisor = reduce(&mut tableau.cells[start..end], &tableau.wide, multiple)?;
    tableau.denominators[row] = exact_quotient(change.denominator, &divisor_by(divisor))?;
    tableau.measure(row);
    Some(())
}

/// Eliminates the entering number from a row.
fn eliminate(tableau: &mut Tableau, row: usize, lead: &Lead) -> Option<()>
    requires row { row ≤ tableau.old.goal }
    requires column { lead.now.column < tableau.old.constant }
    ensures { IsSameShape tableau.old tableau.new }
{
    let entry = tableau.at(row, lead.column);
    if entry == 0 {
        return Some(());
    }
    let change = change_of(lead, entry, tableau.denominators[row]);
    if change.times == 1
        && change.denominator == 1
        && is_narrow(&change, tableau.sizes[row], lead.size)
    {
        change_whole(tableau, row, lead.column, &change)
    } else {
        change_wide(tableau, row, lead.column, &change)
    }
}

/// Eliminates the entering number from every row but that of the leaving one.
fn eliminate_all(tableau: &mut Tableau, lead: &Lead) -> Option<()>
    requires column { lead.now.column < tableau.old.constant }
    ensures { IsSameShape tableau.old tableau.new }
{
    for i in 0..tableau.height() {
        if i != lead.row {
            eliminate(tableau, i, lead)?;
        }
    }
    Some(())
}

/// Solves the row of the leaving number for the entering one.
fn solve_lead(tableau: &mut Tableau, lead: &Lead)
    requires row { lead.now.row ≤ tableau.old.goal }
    requires column { lead.now.column < tableau.old.constant }
    ensures { IsSameShape tableau.old tableau.new }
{
    let start = tableau.start(lead.row);
    let end = start + tableau.width();
    negate(&mut tableau.cells[start..end]);
    tableau.cells[start + lead.column] = lead.denominator;
    tableau.denominators[lead.row] = lead.entry;
}

/// Exchanges the number of the row and that of the column.
fn exchange(tableau: &mut Tableau, row: usize, column: usize)
    requires row { row < tableau.old.goal }
    requires column { column < tableau.old.constant }
    ensures { IsSameShape tableau.old tableau.new }
{
    let leaving = tableau.basic[row];
    tableau.basic[row] = tableau.nonbasic[column];
    tableau.nonbasic[column] = leaving;
}

/// What the other rows need of the row of the leaving number.
fn lead_of(tableau: &Tableau, row: usize, column: usize) -> Lead
    requires row { row < tableau.now.goal }
    requires column { column < tableau.now.constant }
    ensures { (result.row ≡ row) × (result.column ≡ column) }
{
    Lead {
        row,
        column,
        entry: tableau.at(row, column),
        denominator: tableau.denominators[row],
        size: tableau.sizes[row],
    }
}

/// The pivot at an entry above 0: the number of the row leaves and that of the column enters. None where a number passes the
/// limit, after which the tableau is of no use.
///
/// Each row keeps a denominator of its own, and a division by it is exact (E. Bareiss, "Sylvester's identity and multistep
/// integer-preserving Gaussian elimination", 1968).
pub(crate) fn pivot(tableau: &mut Tableau, row: usize, column: usize) -> Option<()>
    requires row { row < tableau.old.goal }
    requires column { column < tableau.old.constant }
    ensures { IsSameShape tableau.old tableau.new }
{
    let lead = lead_of(tableau, row, column);
    let start = tableau.start(row);
    let end = start + tableau.width();
    gather(&mut tableau.lead, &tableau.cells[start..end], column)?;
    eliminate_all(tableau, &lead)?;
    solve_lead(tableau, &lead);
    exchange(tableau, row, column);
    Some(())
}
