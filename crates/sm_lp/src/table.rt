//! The dictionary of a basis as the simplex keeps it.
ghost use Rattle.std.specs.Prelude.{◌≡◌, suc, ◌*◌, vec_len};

use sm_frac::Frac;

/// A dictionary: each basic number, and the goal, as a sum over the nonbasic ones and the constant. The goal is the last
/// row, the constant the last column.
#[derive(Drop)]
pub(crate) struct Table {
    /// The row of the goal.
    pub(crate) goal: usize,
    /// The column of the constant.
    pub(crate) constant: usize,
    /// The entries, row after row.
    pub(crate) cells: Vec<Frac>,
    /// The number of each row.
    pub(crate) basic: Vec<u32>,
    /// The number of each column.
    pub(crate) nonbasic: Vec<u32>,
    pub ghost shape: { vec_len cells ≡ suc goal * suc constant },
    pub ghost rows: { vec_len basic ≡ suc goal },
    pub ghost columns: { vec_len nonbasic ≡ suc constant },
}
