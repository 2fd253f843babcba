//! The constraint that a text adds at one tuple.
ghost use Rattle.std.specs.Prelude.{◌≡◌, [], map, length};
ghost use Rattle.sm_syntax.specs.Trees.{constraint_of, tag_of};
ghost use Rattle.sm_meaning.specs.Scopes.{count_of};
ghost use Rattle.sm_meaning.specs.Trials.{◌▸◌, GoesThrough};
ghost use Rattle.sm_meaning.specs.Tags.{tags_tried};
ghost use Rattle.sm_meaning.specs.DemandTrials.{demand_tried};
ghost use Rattle.sm_meaning.specs.Expansions.{Expansion, scope_of, post_at};
ghost use Rattle.sm_meaning.specs.Models.{post_tried};
ghost use Rattle.sm_declarations.specs.Making.{IsMakingOf, IsOfSome};
ghost use Rattle.sm_posts.specs.Adding.{IsDrafted, IsAddedAt};

use sm_declarations::Making;
use sm_demands::{demand, tags as draft_tags};
use sm_drafts::{Added, Draft, DraftTags, constraint};
use sm_meaning::ExpandRefusal;
use sm_scopes::{Cases, Scope};
use sm_syntax::{Cons, Tag};
use std::alloc::Global;

/// A constraint in the making, with its tags.
#[derive(Drop)]
struct Drafted {
    draft: Draft,
    tags: DraftTags,
}

/// What a constraint demands at a tuple, and its tags there.
fn draft_at<'t>(
    alloc: Global,
    scope: &Scope,
    visited: &mut u64,
    cases: &Cases<'t>,
    cons: &'t Cons,
    tags: &'t [Tag],
) -> Result<Drafted, ExpandRefusal>
    ensures { GoesThrough (demand_tried (constraint_of cons.now) scope.now cases.now.tuple ▸ tags_tried scope.now cases.now.tuple [] (map tag_of tags.now)) visited.old visited.new
        (IsDrafted (count_of scope.now) (post_at (constraint_of cons.now) (map tag_of tags.now) scope.now cases.now.tuple)) result }
{
    let draft = demand(alloc, scope, cases, visited, cons)?;
    match draft_tags(alloc, scope, cases, visited, tags) {
        Ok(tags) => Ok(Drafted { draft, tags }),
        Err(refusal) => {
            drop(draft);
            Err(refusal)
        }
    }
}

/// The flat constraint at a tuple behind those that there are, within all limits.
pub(crate) fn constraint_at<'t>(
    alloc: Global,
    made: &Making<'t>,
    visited: &mut u64,
    cases: &Cases<'t>,
    cons: &'t Cons,
    tags: &'t [Tag],
) -> Result<Added, ExpandRefusal>
    requires { IsOfSome made.now }
    ensures { (e : Expansion) → IsMakingOf e made.now →
        GoesThrough (post_tried (constraint_of cons.now) (map tag_of tags.now) e cases.now.tuple) visited.old visited.new
        (IsAddedAt (length made.now.vars.items) e (post_at (constraint_of cons.now) (map tag_of tags.now) (scope_of e) cases.now.tuple)) result }
{
    let Drafted { draft, tags } = draft_at(alloc, &made.scope, visited, cases, cons, tags)?;
    constraint(alloc, made.vars.as_slice(), made.totals, draft, tags)
}
