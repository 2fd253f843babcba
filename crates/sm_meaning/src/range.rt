//! Ranges of whole numbers.

/// The whole numbers from a least to a greatest; none where the least is greater.
#[derive(Clone, Copy, Debug)]
pub struct Range {
    pub least: i64,
    pub greatest: i64,
}
