//! The row and the column of the next pivot.
ghost use Rattle.std.specs.Prelude.{◌≡◌, ◌≤◌, ◌<◌, ◌⊎◌, IfSome, IsSomeAnd};

use crate::number::{is_greater_ratio, is_lesser_ratio};
use crate::tableau::Tableau;

/// A basic number that is outside of its room.
#[derive(Clone, Copy)]
pub(crate) struct Leaving {
    pub(crate) row: usize,
    /// Whether it is above its room, and not below 0.
    pub(crate) above: bool,
    /// By how much, over the denominator of the row.
    excess: u64,
    /// The sum of the sizes of the row's denominator and its entries.
    weight: u64,
}

/// How a row's number is outside of its room, or None where it is inside.
fn leaving_of(tableau: &Tableau, row: usize) -> Option<Leaving>
    requires { row < tableau.now.goal }
    ensures { IfSome result (λ l. l.row ≡ row) }
{
    let constant = tableau.at(row, tableau.constant);
    let room = tableau.room(tableau.basic[row]);
    let top = room.saturating_mul(tableau.denominators[row]);
    if constant >= 0 && constant <= top {
        return None;
    }
    let above = constant > 0;
    let size = constant.unsigned_abs();
    Some(Leaving {
        row,
        above,
        excess: if above { constant.abs_diff(top) } else { size },
        weight: tableau.sizes[row].saturating_sub(size),
    })
}

/// The better of the row so far and the next: the one of the greater excess by weight.
fn better_row(best: Option<Leaving>, next: Leaving) -> Leaving
    ensures { (result.row ≡ next.row) ⊎ IsSomeAnd best (λ old. result.row ≡ old.row) }
{
    match best {
        Some(old) if !is_greater_ratio(next.excess, next.weight, old.excess, old.weight) => old,
        _ => next,
    }
}

/// The row whose number is outside of its room by most, measured by the sizes of the row's entries: a cheap stand-in for
/// the steepest edge (J. Forrest and D. Goldfarb, "Steepest-edge simplex algorithms for linear programming", 1992). None
/// where every number is in its room.
pub(crate) fn leaving_row(tableau: &Tableau) -> Option<Leaving>
    ensures { IfSome result (λ l. l.row < tableau.now.goal) }
{
    let mut best = None;
    for i in 0..tableau.goal {
        if let Some(next) = leaving_of(tableau, i) {
            best = Some(better_row(best, next));
        }
    }
    best
}

/// A nonbasic number that may enter.
#[derive(Clone, Copy)]
struct Entering {
    column: usize,
    /// Its entry in the goal.
    cost: i64,
    /// Its entry in the row of the leaving number.
    entry: i64,
}

/// The better of the column so far and the next: the one of the lesser ratio of cost and entry, or of the greater entry.
fn better_column(best: Option<Entering>, next: Entering) -> Entering
    ensures { (result.column ≡ next.column) ⊎ IsSomeAnd best (λ old. result.column ≡ old.column) }
{
    match best {
        Some(old) if !is_lesser_ratio(next.cost, next.entry, old.cost, old.entry) => old,
        _ => next,
    }
}

/// The column of the number that enters for that of the row, or None where no number can: then no point satisfies the
/// program.
pub(crate) fn entering_column(tableau: &Tableau, row: usize) -> Option<usize>
    requires { row < tableau.now.goal }
    ensures { IfSome result (λ c. c < tableau.now.constant) }
{
    let entries = tableau.row(row);
    let costs = tableau.row(tableau.goal);
    let mut best = None;
    for j in 0..tableau.constant {
        let entry = entries[j];
        if entry > 0 && tableau.room(tableau.nonbasic[j]) != 0 {
            let next = Entering {
                column: j,
                cost: costs[j],
                entry,
            };
            best = Some(better_column(best, next));
        }
    }
    match best {
        Some(entering) => Some(entering.column),
        None => None,
    }
}
