//! Reading a table.
ghost use Rattle.std.specs.Prelude.{◌≡◌, ℕ, suc, ◌+◌, ◌*◌, ◌<◌, ◌≤◌, vec_len, length, IsTrue, false};
ghost use Rattle.sm_frac.specs.Frac.{value_of};
ghost use Rattle.sm_certificate.specs.Numbers.{number_at};
ghost use Rattle.sm_lp.specs.Table.{dictionary_of};

use crate::table::Table;
use sm_frac::Frac;

/// The place of row i and column j where rows of `width` stand one after the other.
pub(crate) fn place_in(i: usize, j: usize, height: usize, width: usize, cells: &[Frac]) -> usize
    requires shape { length cells.now ≡ height * width }
    requires row { i < height }
    requires column { j < width }
    ensures at { result ≡ i * width + j }
    ensures inside { result < length cells.now }
{
    i * width + j
}

/// The fraction at a place.
pub(crate) fn cell_of(cells: &[Frac], place: usize) -> Frac
    requires { place < length cells.now }
    ensures { number_at cells.now place ≡ value_of result }
{
    cells[place]
}

impl Table {
    /// The number of rows, with that of the goal.
    pub(crate) fn height(&self) -> usize
        ensures { result ≡ suc self.now.goal }
    {
        self.goal + 1
    }

    /// The number of columns, with that of the constant.
    pub(crate) fn width(&self) -> usize
        ensures { result ≡ suc self.now.constant }
    {
        self.constant + 1
    }

    pub(crate) fn entry(&self, i: usize, j: usize) -> Frac
        requires row { i ≤ self.now.goal }
        requires column { j ≤ self.now.constant }
        ensures { value_of result ≡ (dictionary_of self.now).entry i j }
    {
        cell_of(
            &self.cells,
            place_in(i, j, self.height(), self.width(), &self.cells),
        )
    }

    pub(crate) fn basic(&self, i: usize) -> u32
        requires { i ≤ self.now.goal }
        ensures { result ≡ (dictionary_of self.now).basic i }
    {
        self.basic[i]
    }

    pub(crate) fn nonbasic(&self, j: usize) -> u32
        requires { j ≤ self.now.constant }
        ensures { result ≡ (dictionary_of self.now).nonbasic j }
    {
        self.nonbasic[j]
    }
}
