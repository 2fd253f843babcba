//! Reading lists, and the parts of constraints that stand in lists.
ghost use Rattle.std.specs.Prelude.{◌≡◌, ◌∷◌, [], map, option_map};
ghost use Rattle.sm_syntax.specs.Grammar as g;
ghost use Rattle.sm_syntax.specs.Grammars.{number_of};
ghost use Rattle.sm_syntax.specs.Reading.{Standing, Leads, ReadsWhole};
ghost use Rattle.sm_syntax.specs.Expressions.{binding_of, literal_of};
ghost use Rattle.sm_syntax.specs.Trees.{listing_of, choice_of, ctask_of, dtask_of, load_of};
ghost use Rattle.sm_syntax.specs.TreeSteps.{for_each_then, presence_then, listing_then, choice_then, choices_then, ctask_then, ctasks_then, dtask_then, more_dtasks_then, load_then, loads_then};

use crate::expression::{Binders, Expr};
use crate::failure::Failure;
use crate::group::{Grouped, read_optional, read_repeated};
use crate::keyword::When;
use crate::part::{Behind, Pair, Part, Within};
use crate::place::Place;
use crate::reader::Reader;
use crate::rule::{Rule, read_rule};
use crate::sign::{Colon, Comma, For, Semicolon, Square};
use crate::tree::{Choice, Ctask, Dtask, List, Lit, Load};
use sqlite_items::Items;
use std::alloc::Global;

impl Grouped<For> for Binders {
    ghost group = { number_of g.for_each };
}

impl Part for Option<Binders> {
    ghost symbols = { g.for_each ∷ [] };

    ghost steps = { λ x. for_each_then (option_map binding_of x) };

    fn read(alloc: Global, reader: &mut Reader<'_>) -> Result<Option<Binders>, Failure> {
        read_optional::<For, Binders>(alloc, reader)
    }
}

impl Grouped<When> for Lit {
    ghost group = { number_of g.presence };
}

impl Part for Option<Lit> {
    ghost symbols = { g.presence ∷ [] };

    ghost steps = { λ x. presence_then (option_map literal_of x) };

    fn read(alloc: Global, reader: &mut Reader<'_>) -> Result<Option<Lit>, Failure> {
        read_optional::<When, Lit>(alloc, reader)
    }
}

/// The right side of a list.
type ListParts = Pair<Expr, Pair<Items<Expr>, Option<Binders>>>;

impl Rule<ListParts> for List {
    ghost number = { number_of g.list };

    ghost listed = { λ x. listing_then (listing_of x) };

    fn build(place: Place, parts: ListParts) -> List {
        let Pair(first, Pair(more, binders)) = parts;
        List {
            place,
            first,
            more,
            binders,
        }
    }
}

impl Part for List {
    ghost symbols = { g.list ∷ [] };

    ghost steps = { λ x. listing_then (listing_of x) };

    fn read(alloc: Global, reader: &mut Reader<'_>) -> Result<List, Failure> {
        read_rule::<ListParts, List>(alloc, reader)
    }
}

/// A list in square brackets.
pub type Table = Within<Square, List>;

/// The right side of a choice.
type ChoiceParts = Pair<Expr, Behind<Colon, Pair<Table, Option<Binders>>>>;

impl Rule<ChoiceParts> for Choice {
    ghost number = { number_of g.choice };

    ghost listed = { λ x. choice_then (choice_of x) };

    fn build(place: Place, parts: ChoiceParts) -> Choice {
        let Pair(picks, Behind(Pair(Within(table, _), binders), _)) = parts;
        Choice {
            place,
            picks,
            table,
            binders,
        }
    }
}

impl Part for Choice {
    ghost symbols = { g.choice ∷ [] };

    ghost steps = { λ x. choice_then (choice_of x) };

    fn read(alloc: Global, reader: &mut Reader<'_>) -> Result<Choice, Failure> {
        read_rule::<ChoiceParts, Choice>(alloc, reader)
    }
}

impl Grouped<Semicolon> for Choice {
    ghost group = { number_of g.choices };
}

impl Part for Items<Choice> {
    ghost symbols = { g.choices ∷ [] };

    ghost steps = { λ xs. choices_then (map choice_of xs) };

    fn read(alloc: Global, reader: &mut Reader<'_>) -> Result<Items<Choice>, Failure> {
        read_repeated::<Semicolon, Choice>(alloc, reader)
    }
}

/// The right side of a task that takes a part of a capacity.
type CtaskParts = Pair<
    Expr,
    Behind<Comma, Pair<Expr, Behind<Comma, Pair<Expr, Pair<Option<Lit>, Option<Binders>>>>>>,
>;

impl Rule<CtaskParts> for Ctask {
    ghost number = { number_of g.ctask };

    ghost listed = { λ x. ctask_then (ctask_of x) };

    fn build(place: Place, parts: CtaskParts) -> Ctask {
        let Pair(
            start,
            Behind(Pair(duration, Behind(Pair(demand, Pair(presence, binders)), _)), _),
        ) = parts;
        Ctask {
            place,
            start,
            duration,
            demand,
            presence,
            binders,
        }
    }
}

impl Part for Ctask {
    ghost symbols = { g.ctask ∷ [] };

    ghost steps = { λ x. ctask_then (ctask_of x) };

    fn read(alloc: Global, reader: &mut Reader<'_>) -> Result<Ctask, Failure> {
        read_rule::<CtaskParts, Ctask>(alloc, reader)
    }
}

impl Grouped<Semicolon> for Ctask {
    ghost group = { number_of g.ctasks };
}

impl Part for Items<Ctask> {
    ghost symbols = { g.ctasks ∷ [] };

    ghost steps = { λ xs. ctasks_then (map ctask_of xs) };

    fn read(alloc: Global, reader: &mut Reader<'_>) -> Result<Items<Ctask>, Failure> {
        read_repeated::<Semicolon, Ctask>(alloc, reader)
    }
}

/// The right side of a task that takes all there is.
type DtaskParts = Pair<Expr, Behind<Comma, Pair<Expr, Pair<Option<Lit>, Option<Binders>>>>>;

impl Rule<DtaskParts> for Dtask {
    ghost number = { number_of g.dtask };

    ghost listed = { λ x. dtask_then (dtask_of x) };

    fn build(place: Place, parts: DtaskParts) -> Dtask {
        let Pair(start, Behind(Pair(duration, Pair(presence, binders)), _)) = parts;
        Dtask {
            place,
            start,
            duration,
            presence,
            binders,
        }
    }
}

impl Part for Dtask {
    ghost symbols = { g.dtask ∷ [] };

    ghost steps = { λ x. dtask_then (dtask_of x) };

    fn read(alloc: Global, reader: &mut Reader<'_>) -> Result<Dtask, Failure> {
        read_rule::<DtaskParts, Dtask>(alloc, reader)
    }
}

impl Grouped<Semicolon> for Dtask {
    ghost group = { number_of g.more_dtasks };
}

impl Part for Items<Dtask> {
    ghost symbols = { g.more_dtasks ∷ [] };

    ghost steps = { λ xs. more_dtasks_then (map dtask_of xs) };

    fn read(alloc: Global, reader: &mut Reader<'_>) -> Result<Items<Dtask>, Failure> {
        read_repeated::<Semicolon, Dtask>(alloc, reader)
    }
}

/// The right side of an item of a packing.
type LoadParts = Pair<Expr, Behind<Comma, Pair<Expr, Behind<Comma, Pair<Table, Option<Binders>>>>>>;

impl Rule<LoadParts> for Load {
    ghost number = { number_of g.load };

    ghost listed = { λ x. load_then (load_of x) };

    fn build(place: Place, parts: LoadParts) -> Load {
        let Pair(group, Behind(Pair(size, Behind(Pair(Within(costs, _), binders), _)), _)) = parts;
        Load {
            place,
            group,
            size,
            costs,
            binders,
        }
    }
}

impl Part for Load {
    ghost symbols = { g.load ∷ [] };

    ghost steps = { λ x. load_then (load_of x) };

    fn read(alloc: Global, reader: &mut Reader<'_>) -> Result<Load, Failure> {
        read_rule::<LoadParts, Load>(alloc, reader)
    }
}

impl Grouped<Semicolon> for Load {
    ghost group = { number_of g.loads };
}

impl Part for Items<Load> {
    ghost symbols = { g.loads ∷ [] };

    ghost steps = { λ xs. loads_then (map load_of xs) };

    fn read(alloc: Global, reader: &mut Reader<'_>) -> Result<Items<Load>, Failure> {
        read_repeated::<Semicolon, Load>(alloc, reader)
    }
}
