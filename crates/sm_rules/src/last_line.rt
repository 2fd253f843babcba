//! What a line may ask of the one before it.
use sm_frac::Frac;

/// What the last line was, as far as the next one asks.
#[derive(Clone, Copy)]
pub enum LastLine {
    /// There was none, or one that no line asks for.
    Other,
    /// A `floor` line of the first level, which gave this bound: a `pair` may follow.
    Floor(Frac),
    /// A `norange leaf` line: the verdict `range` may follow.
    PassedLeaf,
}
