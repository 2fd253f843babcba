//! Counting a number from its other end.
ghost use Rattle.std.specs.Prelude.{◌≡◌, ◌≤◌, ◌<◌, ◌+◌, length};
ghost use Rattle.sm_quick.specs.Shape.{IsSameShape};

use crate::number::{narrowed, product};
use crate::row::negate;
use crate::tableau::{ENDLESS, Tableau};

/// Counts the number of a row from its greatest end down.
pub(crate) fn turn_row(tableau: &mut Tableau, row: usize) -> Option<()>
    requires { row < tableau.old.goal }
    ensures { IsSameShape tableau.old tableau.new }
{
    let number = tableau.basic[row];
    let room = tableau.room(number);
    if room == ENDLESS {
        return None;
    }
    let old = tableau.at(row, tableau.constant);
    let top = product(room, tableau.denominators[row]);
    let constant = narrowed(top.checked_sub(old as i128)?)?;
    let start = tableau.start(row);
    let end = start + tableau.width();
    negate(&mut tableau.cells[start..end]);
    tableau.cells[end - 1] = constant;
    tableau.measure(row);
    tableau.flip(number);
    Some(())
}

/// Moves a row's constant by the room of a column, and turns the sign of the column's entry.
fn turn_entry(tableau: &mut Tableau, row: usize, column: usize, room: i64) -> Option<()>
    requires row { row ≤ tableau.old.goal }
    requires column { column < tableau.old.constant }
    ensures { IsSameShape tableau.old tableau.new }
{
    let entry = tableau.at(row, column);
    if entry == 0 {
        return Some(());
    }
    let old = tableau.at(row, tableau.constant);
    let constant = narrowed(product(entry, room).checked_add(old as i128)?)?;
    let start = tableau.start(row);
    let end = start + tableau.constant;
    tableau.cells[start + column] = entry.wrapping_neg();
    tableau.cells[end] = constant;
    tableau.sizes[row] = tableau.sizes[row]
        .saturating_sub(old.unsigned_abs())
        .saturating_add(constant.unsigned_abs());
    Some(())
}

/// Counts the number of a column from its greatest end down.
pub(crate) fn turn_column(tableau: &mut Tableau, column: usize) -> Option<()>
    requires { column < tableau.old.constant }
    ensures { IsSameShape tableau.old tableau.new }
{
    let number = tableau.nonbasic[column];
    let room = tableau.room(number);
    if room == ENDLESS {
        return None;
    }
    for i in 0..tableau.height() {
        turn_entry(tableau, i, column, room)?;
    }
    tableau.flip(number);
    Some(())
}
