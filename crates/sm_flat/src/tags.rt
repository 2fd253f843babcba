//! Tags: how a constraint infers, relaxes and branches. No tag changes what a constraint means.
ghost use Rattle.std.specs.Prelude.{◌≤◌, ◌↔◌, IsTrue, IfSome};
ghost use Rattle.sm_kinds.specs.Limits.{greatest_sub};
ghost use Rattle.sm_flat.specs.Forms.{AreTags};

use sm_kinds::{GREATEST_BRANCH, GREATEST_SUB};

/// How much a constraint infers.
#[derive(Clone, Copy, Debug, PartialEq, Eq)]
pub enum Level {
    Nothing,
    Bounds,
    Full,
}

/// Which variable of a constraint is split.
#[derive(Clone, Copy, Debug, PartialEq, Eq)]
pub enum PickBy {
    /// The least-numbered one.
    First,
    /// The one of fewest values.
    Small,
    /// The least-numbered one whose value at the relaxation's point isn't whole.
    Point,
}

/// Where the domain of the picked variable is split.
#[derive(Clone, Copy, Debug, PartialEq, Eq)]
pub enum SplitBy {
    /// In the middle between its ends.
    Half,
    /// Its least value first.
    Least,
    /// Its greatest value first.
    Most,
}

/// The tags of one constraint.
#[derive(Clone, Copy, Debug, PartialEq, Eq)]
pub struct Tags {
    pub infer: Level,
    /// Whether its rows stand in the relaxation.
    pub relax: bool,
    /// Constraints of a lesser number are split first; up to 1,000,000.
    pub branch: u32,
    pub pick: PickBy,
    pub split: SplitBy,
    /// The subproblem that it belongs to, where it is tagged with one; up to 4,095.
    pub sub: Option<u32>,
}

fn is_sub(sub: Option<u32>) -> bool
    ensures { IsTrue result ↔ IfSome sub (λ g. g ≤ greatest_sub) }
{
    match sub {
        Some(number) => number <= GREATEST_SUB,
        None => true,
    }
}

/// Whether the numbers of the tags are within the limits.
pub(crate) fn are_tags(tags: &Tags) -> bool
    ensures { IsTrue result ↔ AreTags tags.now }
{
    tags.branch <= GREATEST_BRANCH && is_sub(tags.sub)
}
