//! Why a line of a log isn't allowed.

/// Why a line isn't allowed.
#[derive(Clone, Copy, Debug, PartialEq, Eq)]
pub enum Cause {
    /// The bytes are no line.
    Grammar,
    /// The line may not come now.
    Order,
    /// The line isn't lawful.
    Law,
    /// The verdict isn't shown by the lines before it.
    Verdict,
    /// The log ends without a verdict.
    End,
}
