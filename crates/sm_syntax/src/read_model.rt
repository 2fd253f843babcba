//! Reading items, goals and models.
ghost use Rattle.std.specs.Prelude.{◌≡◌, ◌<◌, ◌∷◌, [], IfErr, OnOk, length, map, option_map};
ghost use Rattle.sm_syntax.specs.Grammar as g;
ghost use Rattle.sm_syntax.specs.Grammars.{number_of};
ghost use Rattle.sm_syntax.specs.Reading.{Standing, next, Leads, Fault, ReadsWhole, Chooses, ReadsAll};
ghost use Rattle.sm_syntax.specs.Expressions.{binding_of};
ghost use Rattle.sm_syntax.specs.Trees.{values_of, kind_of, aim_of, goal_of, item_of, tree_of};
ghost use Rattle.sm_syntax.specs.TreeSteps.{list_then, name_then, values_then, kind_then, family_then, forall_then, item_then, items_then, aim_then, goal_then, tree_then};
ghost use Rattle.sm_syntax.specs.Symbols.{begins_item};

use crate::expression::{Binders, Expr};
use crate::failure::Failure;
use crate::group::{Grouped, read_repeated};
use crate::keyword::{Index, Int, Maximise, Minimise, Post, Real, Satisfy, Set, Var};
use crate::part::{Behind, Mark, Pair, Part, Within, gathered, joined};
use crate::place::Place;
use crate::reader::Reader;
use crate::rule::{Rule, read_rule, read_rule_behind};
use crate::sign::{Brace, Colon, Comma, Equal, Semicolon, Square, To};
use crate::terminal::Terminal;
use crate::tree::{Aim, Cons, Goal, Item, Kind, Name, Tag, Tree, Values};
use sqlite_items::Items;
use std::alloc::Global;

/// What stands behind the word of an index set.
type IndexParts = Pair<Name, Behind<Equal, Pair<Expr, Behind<To, Pair<Expr, Mark<Semicolon>>>>>>;

impl Rule<Behind<Index, IndexParts>> for Item {
    ghost number = { number_of g.item };

    ghost listed = { λ x. item_then (item_of x) };

    fn build(place: Place, parts: Behind<Index, IndexParts>) -> Item {
        let Behind(Pair(name, Behind(Pair(least, Behind(Pair(greatest, _), _)), _)), _) = parts;
        Item::Index {
            place,
            name,
            least,
            greatest,
        }
    }
}

impl Grouped<Comma> for Name {
    ghost group = { number_of g.more_sets };
}

impl Part for Items<Name> {
    ghost symbols = { g.more_sets ∷ [] };

    ghost steps = { list_then g.more_sets (g.token_comma ∷ g.token_name ∷ g.more_sets ∷ []) name_then };

    fn read(alloc: Global, reader: &mut Reader<'_>) -> Result<Items<Name>, Failure> {
        read_repeated::<Comma, Name>(alloc, reader)
    }
}

/// The index sets that variables may have.
#[derive(Drop)]
struct Family(Items<Name>);

/// The index sets that variables have, where they have some.
type FamilyParts = Within<Square, Pair<Name, Items<Name>>>;

impl Part for Family {
    ghost symbols = { g.family ∷ [] };

    ghost steps = { λ f. family_then f.0 };

    fn read(alloc: Global, reader: &mut Reader<'_>) -> Result<Family, Failure> {
        if !reader.is(Terminal::OpenSquare) {
            return Ok(Family(Items::new(alloc)));
        }
        let parts = FamilyParts::read(alloc, reader)?;
        let Within(Pair(first, more), _) = parts;
        let sets = gathered(alloc, first, more)?;
        Ok(Family(sets))
    }
}

/// Two ends.
type Range = Pair<Expr, Behind<To, Expr>>;

impl Rule<Range> for Values {
    ghost number = { number_of g.values };

    ghost listed = { λ x. values_then (values_of x) };

    fn build(_place: Place, parts: Range) -> Values {
        let Pair(least, Behind(greatest, _)) = parts;
        Values::Range { least, greatest }
    }
}

/// A list of values.
type ValueList = Within<Brace, Pair<Expr, Items<Expr>>>;

impl Rule<ValueList> for Values {
    ghost number = { number_of g.values };

    ghost listed = { λ x. values_then (values_of x) };

    fn build(_place: Place, parts: ValueList) -> Values {
        let Within(Pair(first, more), _) = parts;
        Values::List { first, more }
    }
}

impl Part for Values {
    ghost symbols = { g.values ∷ [] };

    ghost steps = { λ vs. values_then (values_of vs) };

    fn read(alloc: Global, reader: &mut Reader<'_>) -> Result<Values, Failure> {
        match reader.terminal() {
            Terminal::OpenBrace => read_rule::<ValueList, Values>(alloc, reader),
            _ => read_rule::<Range, Values>(alloc, reader),
        }
    }
}

/// A set of values behind its word.
type SetParts = Behind<Set, Values>;

impl Rule<SetParts> for Kind {
    ghost number = { number_of g.kind };

    ghost listed = { λ x. kind_then (kind_of x) };

    fn build(place: Place, parts: SetParts) -> Kind {
        let Behind(values, _) = parts;
        Kind::Set { place, values }
    }
}

/// The two ends of whole variables behind their word.
type IntParts = Behind<Int, Range>;

impl Rule<IntParts> for Kind {
    ghost number = { number_of g.kind };

    ghost listed = { λ x. kind_then (kind_of x) };

    fn build(place: Place, parts: IntParts) -> Kind {
        let Behind(Pair(least, Behind(greatest, _)), _) = parts;
        Kind::Int {
            place,
            least,
            greatest,
        }
    }
}

/// The two ends of real variables behind their word.
type RealParts = Behind<Real, Range>;

impl Rule<RealParts> for Kind {
    ghost number = { number_of g.kind };

    ghost listed = { λ x. kind_then (kind_of x) };

    fn build(place: Place, parts: RealParts) -> Kind {
        let Behind(Pair(least, Behind(greatest, _)), _) = parts;
        Kind::Real {
            place,
            least,
            greatest,
        }
    }
}

impl Part for Kind {
    ghost symbols = { g.kind ∷ [] };

    ghost steps = { λ k. kind_then (kind_of k) };

    fn read(alloc: Global, reader: &mut Reader<'_>) -> Result<Kind, Failure> {
        match reader.terminal() {
            Terminal::Int => read_rule::<IntParts, Kind>(alloc, reader),
            Terminal::Real => read_rule::<RealParts, Kind>(alloc, reader),
            _ => read_rule::<SetParts, Kind>(alloc, reader),
        }
    }
}

/// What stands behind the word of variables.
type VarParts = Pair<Name, Pair<Family, Behind<Colon, Pair<Kind, Mark<Semicolon>>>>>;

impl Rule<Behind<Var, VarParts>> for Item {
    ghost number = { number_of g.item };

    ghost listed = { λ x. item_then (item_of x) };

    fn build(place: Place, parts: Behind<Var, VarParts>) -> Item {
        let Behind(Pair(name, Pair(Family(sets), Behind(Pair(kind, _), _))), _) = parts;
        Item::Var {
            place,
            name,
            sets,
            kind,
        }
    }
}

/// The binders that a constraint may have.
#[derive(Drop)]
struct Forall(Option<Binders>);

impl Part for Forall {
    ghost symbols = { g.forall ∷ [] };

    ghost steps = { λ f. forall_then (option_map binding_of f.0) };

    fn read(alloc: Global, reader: &mut Reader<'_>) -> Result<Forall, Failure> {
        if !reader.accept(Terminal::Forall) {
            return Ok(Forall(None));
        }
        let parts = Pair::<Binders, Mark<Colon>>::read(alloc, reader)?;
        let Pair(binders, _) = parts;
        Ok(Forall(Some(binders)))
    }
}

/// What stands behind the word of a constraint.
type PostParts = Pair<Forall, Pair<Cons, Pair<Items<Tag>, Mark<Semicolon>>>>;

impl Rule<Behind<Post, PostParts>> for Item {
    ghost number = { number_of g.item };

    ghost listed = { λ x. item_then (item_of x) };

    fn build(place: Place, parts: Behind<Post, PostParts>) -> Item {
        let Behind(Pair(Forall(forall), Pair(cons, Pair(tags, _))), _) = parts;
        Item::Post {
            place,
            forall,
            cons,
            tags,
        }
    }
}

/// Reads an item.
fn read_item(alloc: Global, reader: &mut Reader<'_>) -> Result<Item, Failure>
    ensures read { ReadsWhole reader.old (g.item ∷ []) (λ i. item_then (item_of i)) reader.new result }
    ensures shorter { OnOk result (length reader.new.later < length reader.old.later) }
{
    match reader.terminal() {
        Terminal::Var => read_rule_behind::<Var, VarParts, Item>(alloc, reader),
        Terminal::Post => read_rule_behind::<Post, PostParts, Item>(alloc, reader),
        _ => read_rule_behind::<Index, IndexParts, Item>(alloc, reader),
    }
}

/// Whether an item begins with the token.
fn begins_item(terminal: Terminal) -> bool
    ensures { result ≡ begins_item terminal }
{
    match terminal {
        Terminal::Index | Terminal::Var | Terminal::Post => true,
        _ => false,
    }
}

impl Part for Items<Item> {
    ghost symbols = { g.items ∷ [] };

    ghost steps = { λ xs. items_then (map item_of xs) };

    fn read(alloc: Global, reader: &mut Reader<'_>) -> Result<Items<Item>, Failure> {
        let mut items = Items::new(alloc);
        'items: while begins_item(reader.terminal()) {
            let item = read_item(alloc, reader)?;
            items.push(item)?;
        }
        Ok(items)
    }
}

impl Rule<Behind<Maximise, Expr>> for Aim {
    ghost number = { number_of g.aim };

    ghost listed = { λ x. aim_then (aim_of x) };

    fn build(place: Place, parts: Behind<Maximise, Expr>) -> Aim {
        let Behind(expr, _) = parts;
        Aim::Maximise { place, expr }
    }
}

impl Rule<Behind<Minimise, Expr>> for Aim {
    ghost number = { number_of g.aim };

    ghost listed = { λ x. aim_then (aim_of x) };

    fn build(place: Place, parts: Behind<Minimise, Expr>) -> Aim {
        let Behind(expr, _) = parts;
        Aim::Minimise { place, expr }
    }
}

impl Part for Aim {
    ghost symbols = { g.aim ∷ [] };

    ghost steps = { λ a. aim_then (aim_of a) };

    fn read(alloc: Global, reader: &mut Reader<'_>) -> Result<Aim, Failure> {
        match reader.terminal() {
            Terminal::Maximise => read_rule::<Behind<Maximise, Expr>, Aim>(alloc, reader),
            _ => read_rule::<Behind<Minimise, Expr>, Aim>(alloc, reader),
        }
    }
}

impl Rule<Mark<Satisfy>> for Goal {
    ghost number = { number_of g.goal };

    ghost listed = { λ x. goal_then (goal_of x) };

    fn build(place: Place, _parts: Mark<Satisfy>) -> Goal {
        Goal::Satisfy { place }
    }
}

/// Reads an aim as a goal.
fn read_aims(alloc: Global, reader: &mut Reader<'_>) -> Result<Goal, Failure>
    requires { Chooses reader.old g.goal (g.aim ∷ []) }
    ensures { ReadsWhole reader.old (g.goal ∷ []) (λ x. goal_then (goal_of x)) reader.new result }
{
    let place = reader.place();
    let first = Aim::read(alloc, reader)?;
    let more = Items::new(alloc);
    Ok(Goal::Aims { place, first, more })
}

impl Part for Goal {
    ghost symbols = { g.goal ∷ [] };

    ghost steps = { λ x. goal_then (goal_of x) };

    fn read(alloc: Global, reader: &mut Reader<'_>) -> Result<Goal, Failure> {
        match reader.terminal() {
            Terminal::Minimise => read_aims(alloc, reader),
            Terminal::Maximise => read_aims(alloc, reader),
            _ => read_rule::<Mark<Satisfy>, Goal>(alloc, reader),
        }
    }
}

/// The right side of a model.
type TreeParts = Pair<Items<Item>, Pair<Goal, Mark<Semicolon>>>;

impl Rule<TreeParts> for Tree {
    ghost number = { number_of g.model };

    ghost listed = { λ x. tree_then (tree_of x) };

    fn build(place: Place, parts: TreeParts) -> Tree {
        let Pair(items, Pair(goal, _)) = parts;
        Tree { place, items, goal }
    }
}

impl Part for Tree {
    ghost symbols = { g.model ∷ [] };

    ghost steps = { λ t. tree_then (tree_of t) };

    fn read(alloc: Global, reader: &mut Reader<'_>) -> Result<Tree, Failure> {
        read_rule::<TreeParts, Tree>(alloc, reader)
    }
}

/// Tells whether the text ends where the reader stands.
fn read_end(reader: &Reader<'_>) -> Result<(), Failure>
    ensures end { OnOk result ((next reader.now ≡ 69) × (reader.now.later ≡ [])) }
    ensures fault { IfErr result (λ e. Fault reader.now (g.token_end ∷ []) reader.now e) }
{
    if reader.is_at_end() {
        Ok(())
    } else {
        Err(Failure::Syntax)
    }
}

/// Reads a model and the end of the text.
pub fn read_text(alloc: Global, reader: &mut Reader<'_>) -> Result<Tree, Failure>
    ensures { ReadsAll reader.old (λ t. tree_then (tree_of t)) reader.new result }
{
    let tree = Tree::read(alloc, reader)?;
    let end = read_end(reader);
    let parts = joined(tree, end)?;
    let Pair(tree, _) = parts;
    Ok(tree)
}
