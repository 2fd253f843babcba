//! Linear programs.
use sqlite_items::Items;
use std::alloc::{AllocError, AllocFailed};

/// Memory ran out.
#[derive(Clone, Copy, Debug, PartialEq, Eq)]
pub struct OutOfMemory;

impl From<AllocError> for OutOfMemory {
    fn from(_: AllocError) -> OutOfMemory {
        OutOfMemory
    }
}

impl<T: Drop> From<AllocFailed<T>> for OutOfMemory {
    fn from(_: AllocFailed<T>) -> OutOfMemory {
        OutOfMemory
    }
}

/// A sum of columns, each times a number, that is at least the bound, or equal to it.
#[derive(Debug, Drop)]
pub struct LpRow {
    /// Different columns, each with its number.
    pub terms: Items<(u32, i64)>,
    pub equal: bool,
    pub bound: i128,
}

/// A linear program: the least sum of cost times column is wanted, where each column lies between its two ends and each row
/// holds.
#[derive(Debug, Drop)]
pub struct Program {
    /// The least and the greatest end of each column.
    pub columns: Items<(i64, i64)>,
    pub rows: Items<LpRow>,
    /// The cost of each column.
    pub cost: Items<i64>,
}
