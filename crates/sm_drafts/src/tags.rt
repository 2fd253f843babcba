//! Tags in the making.
ghost use Rattle.std.specs.Prelude.{◌≡◌, ◌≤◌, ℕ, pos, OnOk};
ghost use Rattle.sm_meaning.specs.Refusals.{number_over};
ghost use Rattle.sm_meaning.specs.Trials.{GoesThrough, tried};
ghost use Rattle.sm_meaning.specs.Limits.{sub_tried, tag_limits_tried};
ghost use Rattle.sm_meaning.specs.Tags.{default_tags};
ghost use Rattle.sm_drafts.specs.TagDrafts.{tags_of};

use crate::numbers::over;
use sm_data::Counted;
use sm_flat::{Level, PickBy, SplitBy, Tags};
use sm_kinds::{GREATEST_BRANCH, GREATEST_SUB};
use sm_meaning::ExpandRefusal;

/// The tags of a constraint before their numbers are known to be within the limits.
#[derive(Clone, Copy, Debug)]
pub struct DraftTags {
    pub infer: Level,
    pub relax: bool,
    pub branch: u64,
    pub pick: PickBy,
    pub split: SplitBy,
    pub sub: Option<u64>,
}

impl DraftTags {
    /// What holds without a tag.
    pub fn new() -> DraftTags
        ensures { tags_of result ≡ default_tags }
    {
        DraftTags {
            infer: Level::Full,
            relax: true,
            branch: 100,
            pick: PickBy::Small,
            split: SplitBy::Half,
            sub: None,
        }
    }
}

/// The number of a tag, within its limit.
fn tag_number(what: Counted, bound: u32, number: u64) -> Result<u32, ExpandRefusal>
    ensures { (count : ℕ) → GoesThrough (tried (number_over what bound (pos number))) count count (λ n. n ≡ number) result }
{
    if number > u64::from(bound) {
        return Err(over(what, u64::from(bound), u128::from(number)));
    }
    Ok(number as u32)
}

/// The number of a subproblem, within its limit.
fn sub_number(sub: Option<u64>) -> Result<Option<u32>, ExpandRefusal>
    ensures { (count : ℕ) → GoesThrough (sub_tried sub) count count (λ s. s ≡ sub) result }
{
    match sub {
        Some(number) => Ok(Some(tag_number(Counted::Sub, GREATEST_SUB, number)?)),
        None => Ok(None),
    }
}

/// The tags, with numbers within their limits.
///
/// # Errors
///
/// `Limit` of the first that is over its limit.
pub(crate) fn tags_within(draft: &DraftTags) -> Result<Tags, ExpandRefusal>
    ensures { (count : ℕ) → GoesThrough (tag_limits_tried (tags_of draft.now)) count count (λ t. t ≡ tags_of draft.now) result }
{
    let branch = tag_number(Counted::Branch, GREATEST_BRANCH, draft.branch)?;
    let sub = sub_number(draft.sub)?;
    Ok(Tags {
        infer: draft.infer,
        relax: draft.relax,
        branch,
        pick: draft.pick,
        split: draft.split,
        sub,
    })
}
