//! The tags of a constraint at a tuple.
ghost use Rattle.std.specs.Prelude.{◌≡◌, ◌==◌, [], map};
ghost use Rattle.std.specs.List.{list_any};
ghost use Rattle.sm_syntax.specs.Trees.{tag_of};
ghost use Rattle.sm_meaning.specs.Trials.{GoesThrough};
ghost use Rattle.sm_meaning.specs.Tags.{inference_of, is_on, pick_of, split_of, with_tag, tags_at, word_of, tag_place, tag_number_tried, tags_tried};
ghost use Rattle.sm_drafts.specs.TagDrafts.{tags_of};

use sm_drafts::DraftTags;
use sm_flat::{PickBy, SplitBy};
use sm_meaning::{ExpandRefusal, Wrong};
use sm_parts::amount;
use sm_scopes::{Cases, Scope};
use sm_syntax::{Level, Picking, Place, Relaxing, Splitting, Tag};
use std::alloc::Global;

/// How much is inferred.
fn inference_of(level: Level) -> sm_flat::Level
    ensures { result ≡ inference_of level }
{
    match level {
        Level::None => sm_flat::Level::Nothing,
        Level::Bounds => sm_flat::Level::Bounds,
        Level::Full => sm_flat::Level::Full,
    }
}

/// Whether rows are relaxed.
fn is_on(relaxing: Relaxing) -> bool
    ensures { result ≡ is_on relaxing }
{
    match relaxing {
        Relaxing::On => true,
        Relaxing::None => false,
    }
}

/// Which variable is picked.
fn pick_of(picking: Picking) -> PickBy
    ensures { result ≡ pick_of picking }
{
    match picking {
        Picking::First => PickBy::First,
        Picking::Small => PickBy::Small,
        Picking::Point => PickBy::Point,
    }
}

/// How a domain is split.
fn split_of(splitting: Splitting) -> SplitBy
    ensures { result ≡ split_of splitting }
{
    match splitting {
        Splitting::Half => SplitBy::Half,
        Splitting::Least => SplitBy::Least,
        Splitting::Most => SplitBy::Most,
    }
}

/// The number of a tag's word: each word has its own.
fn word_of(tag: &Tag) -> u8
    ensures { result ≡ word_of (tag_of tag.now) }
{
    match tag {
        Tag::Infer { .. } => 0,
        Tag::Relax { .. } => 1,
        Tag::Branch { .. } => 2,
        Tag::Pick { .. } => 3,
        Tag::Split { .. } => 4,
        Tag::Sub { .. } => 5,
    }
}

/// Where a tag stands.
fn place_of(tag: &Tag) -> Place
    ensures { result ≡ tag_place (tag_of tag.now) }
{
    match tag {
        Tag::Infer { place, .. } => *place,
        Tag::Relax { place, .. } => *place,
        Tag::Branch { place, .. } => *place,
        Tag::Pick { place, .. } => *place,
        Tag::Split { place, .. } => *place,
        Tag::Sub { place, .. } => *place,
    }
}

/// Whether one of the tags has this word.
fn has_word(tags: &[Tag], word: u8) -> bool
    ensures { result ≡ list_any (λ t. word_of (tag_of t) == word) tags.now }
{
    tags.iter().any(|tag| word_of(tag) == word)
}

/// The tags with one more, which is taken whatever stood before.
fn with_tag<'t>(
    alloc: Global,
    scope: &Scope,
    cases: &Cases<'t>,
    visited: &mut u64,
    tags: DraftTags,
    tag: &'t Tag,
) -> Result<DraftTags, ExpandRefusal>
    ensures { GoesThrough (tag_number_tried scope.now cases.now.tuple (tag_of tag.now)) visited.old visited.new
        (λ t. tags_of t ≡ with_tag scope.now cases.now.tuple (tag_of tag.now) (tags_of tags)) result }
{
    match tag {
        Tag::Infer { level, .. } => Ok(DraftTags {
            infer: inference_of(*level),
            ..tags
        }),
        Tag::Relax { relaxing, .. } => Ok(DraftTags {
            relax: is_on(*relaxing),
            ..tags
        }),
        Tag::Branch { rank, .. } => Ok(DraftTags {
            branch: rank.value,
            ..tags
        }),
        Tag::Pick { picking, .. } => Ok(DraftTags {
            pick: pick_of(*picking),
            ..tags
        }),
        Tag::Split { splitting, .. } => Ok(DraftTags {
            split: split_of(*splitting),
            ..tags
        }),
        Tag::Sub { number, .. } => {
            let number = amount(alloc, scope, cases, visited, number)?;
            Ok(DraftTags {
                sub: Some(number.unsigned_abs()),
                ..tags
            })
        }
    }
}

/// The tags at a tuple, with the defaults of those that aren't given.
///
/// # Errors
///
/// What is refused of the number of a subproblem, and `Doubled` for a word that stands twice, in the order of the text.
pub fn tags<'t>(
    alloc: Global,
    scope: &Scope,
    cases: &Cases<'t>,
    visited: &mut u64,
    tags: &'t [Tag],
) -> Result<DraftTags, ExpandRefusal>
    ensures { GoesThrough (tags_tried scope.now cases.now.tuple [] (map tag_of tags.now)) visited.old visited.new
        (λ t. tags_of t ≡ tags_at scope.now cases.now.tuple (map tag_of tags.now)) result }
{
    let mut draft = DraftTags::new();
    for (i, tag) in tags.iter().enumerate() {
        draft = with_tag(alloc, scope, cases, visited, draft, tag)?;
        if has_word(&tags[..i], word_of(tag)) {
            return Err(ExpandRefusal::at(place_of(tag), Wrong::Doubled));
        }
    }
    Ok(draft)
}
