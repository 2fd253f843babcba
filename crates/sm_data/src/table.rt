//! Tables.
use sqlite_items::Items;

/// A table of whole numbers, each at most 2^31 in absolute value.
#[derive(Debug, Drop)]
pub enum Table {
    /// One number, without an index.
    Number(i64),
    /// One index.
    List(Items<i64>),
    /// Two indices, first the row; all rows have one length.
    Grid(Items<Items<i64>>),
}
