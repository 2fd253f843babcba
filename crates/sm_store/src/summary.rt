//! What the cells of a variable say: its ends, and how many values it has.
ghost use Rattle.std.specs.Prelude.{◌≡◌, ◌≤◌, ◌^◌, drop, length, unsigned_abs};
ghost use Rattle.sm_store.specs.Blocks.{value_in, summary_in, AreCells};

/// How many cells each variable has before its words.
pub(crate) const CELLS: usize = 3;

/// The least and the greatest value and how many values there are, as the kind counts them. Where there is none the ends are
/// 1 and 0.
#[derive(Clone, Copy)]
pub(crate) struct Summary {
    pub(crate) least: i64,
    pub(crate) greatest: i64,
    pub(crate) size: u64,
}

/// Of no value.
pub(crate) const NOTHING: Summary = Summary {
    least: 1,
    greatest: 0,
    size: 0,
};

fn value_in(cell: u64) -> i64
    requires { cell ≤ 2 ^ 32 }
    ensures { result ≡ value_in cell }
{
    cell as i64 - (1 << 31)
}

fn cell_of(value: &i64) -> u64
    requires { unsigned_abs value.now ≤ 2 ^ 31 }
    ensures value { value_in result ≡ value.now }
    ensures small { result ≤ 2 ^ 32 }
{
    (*value + (1 << 31)) as u64
}

/// What the cells of a part say.
pub(crate) fn summary_in(part: &[u64]) -> Summary
    requires { AreCells part.now }
    ensures { result ≡ summary_in part.now }
{
    Summary {
        least: value_in(part[0]),
        greatest: value_in(part[1]),
        size: part[2],
    }
}

/// Writes the cells of a part.
pub(crate) fn write_cells(part: &mut [u64], summary: &Summary)
    requires long { 3 ≤ length part.old }
    requires least { unsigned_abs summary.now.least ≤ 2 ^ 31 }
    requires greatest { unsigned_abs summary.now.greatest ≤ 2 ^ 31 }
    ensures summary { summary_in part.new ≡ summary.now }
    ensures cells { AreCells part.new }
    ensures words { drop 3 part.new ≡ drop 3 part.old }
    ensures len { length part.new ≡ length part.old }
{
    part[0] = cell_of(&summary.least);
    part[1] = cell_of(&summary.greatest);
    part[2] = summary.size;
}
