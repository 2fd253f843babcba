//! The dictionary of a basis as the quick simplex keeps it.
ghost use Rattle.std.specs.Prelude.{◌≡◌, ◌≤◌, ◌+◌, ◌*◌, suc, vec_len, length};

use crate::row::size_of;

/// The room of a number without a greatest end.
pub(crate) const ENDLESS: i64 = i64::MAX;

/// A number that is not 0, and its column.
#[derive(Clone, Copy)]
pub(crate) struct Entry {
    pub(crate) column: usize,
    pub(crate) number: i64,
}

/// A dictionary: each basic number, and the goal, is a constant plus a sum over the nonbasic numbers, all over the row's own
/// denominator. Each number, a column of the program less its least end or the slack of a row, has 0 as its least end and
/// its room as its greatest; a turned one is counted from its greatest end down. The nonbasic ones are 0.
#[derive(Drop)]
pub(crate) struct Tableau {
    /// The row of the goal, the last one.
    pub(crate) goal: usize,
    /// The place of the constant in a row, the last one.
    pub(crate) constant: usize,
    /// The entries and the constant of each row, row after row.
    pub(crate) cells: Vec<i64>,
    /// What all numbers of a row are over.
    pub(crate) denominators: Vec<i64>,
    /// The sum of the sizes of a row's numbers, its denominator among them.
    pub(crate) sizes: Vec<u64>,
    /// The number of each row but the goal's.
    pub(crate) basic: Vec<usize>,
    /// The number of each column but the constant's.
    pub(crate) nonbasic: Vec<usize>,
    /// The room of each number.
    pub(crate) rooms: Vec<i64>,
    /// Whether a number is counted from its greatest end down.
    pub(crate) turned: Vec<bool>,
    /// The entries of the row of the pivot, kept to be used again.
    pub(crate) lead: Vec<Entry>,
    /// A row of wide numbers, kept to be used again.
    pub(crate) wide: Vec<i128>,
    pub ghost shape: { vec_len cells ≡ suc goal * suc constant },
    pub ghost over: { vec_len denominators ≡ suc goal },
    pub ghost measured: { vec_len sizes ≡ suc goal },
    pub ghost rows: { vec_len basic ≡ goal },
    pub ghost columns: { vec_len nonbasic ≡ constant },
    pub ghost wide_row: { vec_len wide ≡ suc constant },
}

impl Tableau {
    ghost use Rattle.sm_quick.specs.Shape.{IsSameShape};

    /// The number of rows, with that of the goal.
    pub(crate) fn height(&self) -> usize
        ensures { result ≡ suc self.now.goal }
    {
        self.goal + 1
    }

    /// The length of a row, with its constant.
    pub(crate) fn width(&self) -> usize
        ensures { result ≡ suc self.now.constant }
    {
        self.constant + 1
    }

    /// The place of a row's first number.
    pub(crate) fn start(&self, row: usize) -> usize
        requires { row ≤ self.now.goal }
        ensures { result + suc self.now.constant ≤ vec_len self.now.cells }
    {
        row * self.width()
    }

    /// The numbers of a row.
    pub(crate) fn row(&self, row: usize) -> &[i64]
        requires { row ≤ self.now.goal }
        ensures { length result.now ≡ suc self.now.constant }
    {
        let start = self.start(row);
        let end = start + self.width();
        &self.cells[start..end]
    }

    /// The number of a row at a place.
    pub(crate) fn at(&self, row: usize, place: usize) -> i64
        requires row { row ≤ self.now.goal }
        requires place { place ≤ self.now.constant }
    {
        let start = self.start(row);
        self.cells[start + place]
    }

    /// The room of a number.
    pub(crate) fn room(&self, number: usize) -> i64 {
        self.rooms.get(number).copied().unwrap_or(0)
    }

    /// Whether a number is turned.
    pub(crate) fn is_turned(&self, number: usize) -> bool {
        self.turned.get(number).copied().unwrap_or(false)
    }

    /// Counts a number from its other end.
    pub(crate) fn flip(&mut self, number: usize)
        ensures { IsSameShape self.old self.new }
    {
        if let Some(turned) = self.turned.get_mut(number) {
            *turned = !*turned;
        }
    }

    /// Sums the sizes of a row anew.
    pub(crate) fn measure(&mut self, row: usize)
        requires { row ≤ self.old.goal }
        ensures { IsSameShape self.old self.new }
    {
        let size = size_of(self.row(row), self.denominators[row]);
        self.sizes[row] = size;
    }
}
