//! Reading tags.
ghost use Rattle.std.specs.Prelude.{◌≡◌, ◌<◌, ◌∷◌, [], OnOk, length, map};
ghost use Rattle.sm_syntax.specs.Grammar as g;
ghost use Rattle.sm_syntax.specs.Grammars.{number_of};
ghost use Rattle.sm_syntax.specs.Reading.{Standing, Leads, ReadsWhole};
ghost use Rattle.sm_syntax.specs.Trees.{tag_of};
ghost use Rattle.sm_syntax.specs.TreeSteps.{level_then, relaxing_then, picking_then, splitting_then, tag_then, tags_then};
ghost use Rattle.sm_syntax.specs.Symbols.{level_of, relaxing_of, picking_of, splitting_of, begins_tag};

use crate::expression::Expr;
use crate::failure::Failure;
use crate::keyword::{Branch, Infer, Pick, Relax, Split, Sub};
use crate::part::{Behind, Part};
use crate::place::Place;
use crate::reader::Reader;
use crate::rule::{Rule, read_rule_behind};
use crate::terminal::Terminal;
use crate::tree::{Level, Number, Picking, Relaxing, Splitting, Tag};
use sqlite_items::Items;
use std::alloc::Global;

/// The level that a token is.
fn level_of(terminal: Terminal) -> Option<Level>
    ensures { result ≡ level_of terminal }
{
    match terminal {
        Terminal::None => Some(Level::None),
        Terminal::Bounds => Some(Level::Bounds),
        Terminal::Full => Some(Level::Full),
        _ => None,
    }
}

impl Part for Level {
    ghost symbols = { g.level ∷ [] };

    ghost steps = { level_then };

    fn read(_alloc: Global, reader: &mut Reader<'_>) -> Result<Level, Failure> {
        let terminal = reader.terminal();
        let Some(level) = level_of(terminal) else {
            return Err(Failure::Syntax);
        };
        reader.take(terminal);
        Ok(level)
    }
}

/// Whether rows are relaxed, as a token says.
fn relaxing_of(terminal: Terminal) -> Option<Relaxing>
    ensures { result ≡ relaxing_of terminal }
{
    match terminal {
        Terminal::On => Some(Relaxing::On),
        Terminal::None => Some(Relaxing::None),
        _ => None,
    }
}

impl Part for Relaxing {
    ghost symbols = { g.relaxing ∷ [] };

    ghost steps = { relaxing_then };

    fn read(_alloc: Global, reader: &mut Reader<'_>) -> Result<Relaxing, Failure> {
        let terminal = reader.terminal();
        let Some(relaxing) = relaxing_of(terminal) else {
            return Err(Failure::Syntax);
        };
        reader.take(terminal);
        Ok(relaxing)
    }
}

/// The way of picking that a token is.
fn picking_of(terminal: Terminal) -> Option<Picking>
    ensures { result ≡ picking_of terminal }
{
    match terminal {
        Terminal::First => Some(Picking::First),
        Terminal::Small => Some(Picking::Small),
        Terminal::Point => Some(Picking::Point),
        _ => None,
    }
}

impl Part for Picking {
    ghost symbols = { g.picking ∷ [] };

    ghost steps = { picking_then };

    fn read(_alloc: Global, reader: &mut Reader<'_>) -> Result<Picking, Failure> {
        let terminal = reader.terminal();
        let Some(picking) = picking_of(terminal) else {
            return Err(Failure::Syntax);
        };
        reader.take(terminal);
        Ok(picking)
    }
}

/// The way of splitting that a token is.
fn splitting_of(terminal: Terminal) -> Option<Splitting>
    ensures { result ≡ splitting_of terminal }
{
    match terminal {
        Terminal::Half => Some(Splitting::Half),
        Terminal::Least => Some(Splitting::Least),
        Terminal::Most => Some(Splitting::Most),
        _ => None,
    }
}

impl Part for Splitting {
    ghost symbols = { g.splitting ∷ [] };

    ghost steps = { splitting_then };

    fn read(_alloc: Global, reader: &mut Reader<'_>) -> Result<Splitting, Failure> {
        let terminal = reader.terminal();
        let Some(splitting) = splitting_of(terminal) else {
            return Err(Failure::Syntax);
        };
        reader.take(terminal);
        Ok(splitting)
    }
}

impl Rule<Behind<Infer, Level>> for Tag {
    ghost number = { number_of g.tag };

    ghost listed = { λ t. tag_then (tag_of t) };

    fn build(place: Place, parts: Behind<Infer, Level>) -> Tag {
        let Behind(level, _) = parts;
        Tag::Infer { place, level }
    }
}

impl Rule<Behind<Relax, Relaxing>> for Tag {
    ghost number = { number_of g.tag };

    ghost listed = { λ t. tag_then (tag_of t) };

    fn build(place: Place, parts: Behind<Relax, Relaxing>) -> Tag {
        let Behind(relaxing, _) = parts;
        Tag::Relax { place, relaxing }
    }
}

impl Rule<Behind<Branch, Number>> for Tag {
    ghost number = { number_of g.tag };

    ghost listed = { λ t. tag_then (tag_of t) };

    fn build(place: Place, parts: Behind<Branch, Number>) -> Tag {
        let Behind(rank, _) = parts;
        Tag::Branch { place, rank }
    }
}

impl Rule<Behind<Pick, Picking>> for Tag {
    ghost number = { number_of g.tag };

    ghost listed = { λ t. tag_then (tag_of t) };

    fn build(place: Place, parts: Behind<Pick, Picking>) -> Tag {
        let Behind(picking, _) = parts;
        Tag::Pick { place, picking }
    }
}

impl Rule<Behind<Split, Splitting>> for Tag {
    ghost number = { number_of g.tag };

    ghost listed = { λ t. tag_then (tag_of t) };

    fn build(place: Place, parts: Behind<Split, Splitting>) -> Tag {
        let Behind(splitting, _) = parts;
        Tag::Split { place, splitting }
    }
}

impl Rule<Behind<Sub, Expr>> for Tag {
    ghost number = { number_of g.tag };

    ghost listed = { λ t. tag_then (tag_of t) };

    fn build(place: Place, parts: Behind<Sub, Expr>) -> Tag {
        let Behind(number, _) = parts;
        Tag::Sub { place, number }
    }
}

/// Reads a tag.
fn read_tag(alloc: Global, reader: &mut Reader<'_>) -> Result<Tag, Failure>
    ensures read { ReadsWhole reader.old (g.tag ∷ []) (λ t. tag_then (tag_of t)) reader.new result }
    ensures shorter { OnOk result (length reader.new.later < length reader.old.later) }
{
    match reader.terminal() {
        Terminal::Relax => read_rule_behind::<Relax, Relaxing, Tag>(alloc, reader),
        Terminal::Branch => read_rule_behind::<Branch, Number, Tag>(alloc, reader),
        Terminal::Pick => read_rule_behind::<Pick, Picking, Tag>(alloc, reader),
        Terminal::Split => read_rule_behind::<Split, Splitting, Tag>(alloc, reader),
        Terminal::Sub => read_rule_behind::<Sub, Expr, Tag>(alloc, reader),
        _ => read_rule_behind::<Infer, Level, Tag>(alloc, reader),
    }
}

/// Whether a tag begins with the token.
fn begins_tag(terminal: Terminal) -> bool
    ensures { result ≡ begins_tag terminal }
{
    match terminal {
        Terminal::Infer | Terminal::Relax | Terminal::Branch => true,
        Terminal::Pick | Terminal::Split | Terminal::Sub => true,
        _ => false,
    }
}

impl Part for Items<Tag> {
    ghost symbols = { g.tags ∷ [] };

    ghost steps = { λ ts. tags_then (map tag_of ts) };

    fn read(alloc: Global, reader: &mut Reader<'_>) -> Result<Items<Tag>, Failure> {
        let mut tags = Items::new(alloc);
        'tags: while begins_tag(reader.terminal()) {
            let tag = read_tag(alloc, reader)?;
            tags.push(tag)?;
        }
        Ok(tags)
    }
}
