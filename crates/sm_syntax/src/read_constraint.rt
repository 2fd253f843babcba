//! Reading constraints.
ghost use Rattle.std.specs.Prelude.{◌≡◌, ◌∷◌, [], map};
ghost use Rattle.sm_syntax.specs.Grammar as g;
ghost use Rattle.sm_syntax.specs.Grammars.{number_of};
ghost use Rattle.sm_syntax.specs.Reading.{Standing, Leads, ReadsWhole};
ghost use Rattle.sm_syntax.specs.Expressions.{literal_of};
ghost use Rattle.sm_syntax.specs.Trees.{constraint_of};
ghost use Rattle.sm_syntax.specs.TreeSteps.{cmp_then, more_lits_then, choosing_then, constraint_then};
ghost use Rattle.sm_syntax.specs.Symbols.{choosing_of};

use crate::expression::Expr;
use crate::failure::Failure;
use crate::formula::Formula;
use crate::group::{Grouped, read_repeated};
use crate::keyword::{Alldiff, Circuit, Cumulative, Disjunctive, Element, Logic, Packing, When};
use crate::part::{Behind, Mark, Pair, Part, Within};
use crate::place::Place;
use crate::read_list::Table;
use crate::reader::Reader;
use crate::rule::{Rule, read_rule};
use crate::sign::{AtLeast, AtMost, Comma, Equal, Round, Semicolon, Then};
use crate::terminal::Terminal;
use crate::tree::{Choice, Choosing, Cmp, Cons, Ctask, Dtask, List, Lit, Load};
use sqlite_items::Items;
use std::alloc::Global;

impl Rule<Mark<AtMost>> for Cmp {
    ghost number = { number_of g.cmp };

    ghost listed = { cmp_then };

    fn build(place: Place, _parts: Mark<AtMost>) -> Cmp {
        Cmp::AtMost { place }
    }
}

impl Rule<Mark<AtLeast>> for Cmp {
    ghost number = { number_of g.cmp };

    ghost listed = { cmp_then };

    fn build(place: Place, _parts: Mark<AtLeast>) -> Cmp {
        Cmp::AtLeast { place }
    }
}

impl Rule<Mark<Equal>> for Cmp {
    ghost number = { number_of g.cmp };

    ghost listed = { cmp_then };

    fn build(place: Place, _parts: Mark<Equal>) -> Cmp {
        Cmp::Equal { place }
    }
}

impl Part for Cmp {
    ghost symbols = { g.cmp ∷ [] };

    ghost steps = { cmp_then };

    fn read(alloc: Global, reader: &mut Reader<'_>) -> Result<Cmp, Failure> {
        match reader.terminal() {
            Terminal::AtLeast => read_rule::<Mark<AtLeast>, Cmp>(alloc, reader),
            Terminal::Equal => read_rule::<Mark<Equal>, Cmp>(alloc, reader),
            _ => read_rule::<Mark<AtMost>, Cmp>(alloc, reader),
        }
    }
}

/// The right side of a linear constraint.
type LinearParts = Pair<Expr, Pair<Cmp, Expr>>;

impl Rule<LinearParts> for Cons {
    ghost number = { number_of g.cons };

    ghost listed = { λ x. constraint_then (constraint_of x) };

    fn build(place: Place, parts: LinearParts) -> Cons {
        let Pair(left, Pair(cmp, right)) = parts;
        Cons::Linear {
            place,
            left,
            cmp,
            right,
        }
    }
}

/// A formula behind its word.
type LogicParts = Behind<Logic, Formula>;

impl Rule<LogicParts> for Cons {
    ghost number = { number_of g.cons };

    ghost listed = { λ x. constraint_then (constraint_of x) };

    fn build(place: Place, parts: LogicParts) -> Cons {
        let Behind(formula, _) = parts;
        Cons::Logic { place, formula }
    }
}

impl Grouped<Comma> for Lit {
    ghost group = { number_of g.more_lits };
}

impl Part for Items<Lit> {
    ghost symbols = { g.more_lits ∷ [] };

    ghost steps = { λ xs. more_lits_then (map literal_of xs) };

    fn read(alloc: Global, reader: &mut Reader<'_>) -> Result<Items<Lit>, Failure> {
        read_repeated::<Comma, Lit>(alloc, reader)
    }
}

/// A row that holds under a condition, behind its word.
type WhenParts = Behind<
    When,
    Pair<Lit, Pair<Items<Lit>, Behind<Then, Pair<Expr, Pair<Cmp, Expr>>>>>,
>;

impl Rule<WhenParts> for Cons {
    ghost number = { number_of g.cons };

    ghost listed = { λ x. constraint_then (constraint_of x) };

    fn build(place: Place, parts: WhenParts) -> Cons {
        let Behind(Pair(first, Pair(more, Behind(Pair(left, Pair(cmp, right)), _))), _) = parts;
        Cons::When {
            place,
            first,
            more,
            left,
            cmp,
            right,
        }
    }
}

/// Variables that all differ, behind their word.
type AlldiffParts = Behind<Alldiff, Within<Round, List>>;

impl Rule<AlldiffParts> for Cons {
    ghost number = { number_of g.cons };

    ghost listed = { λ x. constraint_then (constraint_of x) };

    fn build(place: Place, parts: AlldiffParts) -> Cons {
        let Behind(Within(list, _), _) = parts;
        Cons::Alldiff { place, list }
    }
}

/// A circuit behind its word.
type CircuitParts = Behind<Circuit, Within<Round, List>>;

impl Rule<CircuitParts> for Cons {
    ghost number = { number_of g.cons };

    ghost listed = { λ x. constraint_then (constraint_of x) };

    fn build(place: Place, parts: CircuitParts) -> Cons {
        let Behind(Within(list, _), _) = parts;
        Cons::Circuit { place, list }
    }
}

/// An element constraint behind its word.
type ElementParts = Behind<
    Element,
    Within<Round, Pair<Expr, Behind<Comma, Pair<Table, Behind<Comma, Expr>>>>>,
>;

impl Rule<ElementParts> for Cons {
    ghost number = { number_of g.cons };

    ghost listed = { λ x. constraint_then (constraint_of x) };

    fn build(place: Place, parts: ElementParts) -> Cons {
        let Behind(
            Within(Pair(index, Behind(Pair(Within(entries, _), Behind(value, _)), _)), _),
            _,
        ) = parts;
        Cons::Element {
            place,
            index,
            entries,
            value,
        }
    }
}

/// How entries are chosen, as a token says.
fn choosing_of(terminal: Terminal) -> Option<Choosing>
    ensures { result ≡ choosing_of terminal }
{
    match terminal {
        Terminal::Indexsum => Some(Choosing::Indexsum),
        Terminal::Assign => Some(Choosing::Assign),
        _ => None,
    }
}

impl Part for Choosing {
    ghost symbols = { g.choosing ∷ [] };

    ghost steps = { choosing_then };

    fn read(_alloc: Global, reader: &mut Reader<'_>) -> Result<Choosing, Failure> {
        let terminal = reader.terminal();
        let Some(choosing) = choosing_of(terminal) else {
            return Err(Failure::Syntax);
        };
        reader.take(terminal);
        Ok(choosing)
    }
}

/// The right side of a sum of chosen entries.
type ChosenParts = Pair<Choosing, Within<Round, Pair<Expr, Items<Choice>>>>;

impl Rule<ChosenParts> for Cons {
    ghost number = { number_of g.cons };

    ghost listed = { λ x. constraint_then (constraint_of x) };

    fn build(place: Place, parts: ChosenParts) -> Cons {
        let Pair(choosing, Within(Pair(total, choices), _)) = parts;
        Cons::Choices {
            place,
            choosing,
            total,
            choices,
        }
    }
}

/// Tasks that share a capacity, behind their word.
type CumulativeParts = Behind<Cumulative, Within<Round, Pair<Expr, Items<Ctask>>>>;

impl Rule<CumulativeParts> for Cons {
    ghost number = { number_of g.cons };

    ghost listed = { λ x. constraint_then (constraint_of x) };

    fn build(place: Place, parts: CumulativeParts) -> Cons {
        let Behind(Within(Pair(capacity, tasks), _), _) = parts;
        Cons::Cumulative {
            place,
            capacity,
            tasks,
        }
    }
}

/// Tasks of which no two may run at once, behind their word.
type DisjunctiveParts = Behind<Disjunctive, Within<Round, Pair<Dtask, Items<Dtask>>>>;

impl Rule<DisjunctiveParts> for Cons {
    ghost number = { number_of g.cons };

    ghost listed = { λ x. constraint_then (constraint_of x) };

    fn build(place: Place, parts: DisjunctiveParts) -> Cons {
        let Behind(Within(Pair(first, more), _), _) = parts;
        Cons::Disjunctive { place, first, more }
    }
}

/// A packing behind its word.
type PackingParts = Behind<
    Packing,
    Within<
        Round,
        Pair<Expr, Behind<Semicolon, Pair<Table, Behind<Semicolon, Pair<Table, Items<Load>>>>>>,
    >,
>;

impl Rule<PackingParts> for Cons {
    ghost number = { number_of g.cons };

    ghost listed = { λ x. constraint_then (constraint_of x) };

    fn build(place: Place, parts: PackingParts) -> Cons {
        let Behind(
            Within(
                Pair(
                    cost,
                    Behind(
                        Pair(Within(capacities, _), Behind(Pair(Within(openings, _), loads), _)),
                        _,
                    ),
                ),
                _,
            ),
            _,
        ) = parts;
        Cons::Packing {
            place,
            cost,
            capacities,
            openings,
            loads,
        }
    }
}

impl Part for Cons {
    ghost symbols = { g.cons ∷ [] };

    ghost steps = { λ x. constraint_then (constraint_of x) };

    fn read(alloc: Global, reader: &mut Reader<'_>) -> Result<Cons, Failure> {
        match reader.terminal() {
            Terminal::Logic => read_rule::<LogicParts, Cons>(alloc, reader),
            Terminal::When => read_rule::<WhenParts, Cons>(alloc, reader),
            Terminal::Alldiff => read_rule::<AlldiffParts, Cons>(alloc, reader),
            Terminal::Circuit => read_rule::<CircuitParts, Cons>(alloc, reader),
            Terminal::Element => read_rule::<ElementParts, Cons>(alloc, reader),
            Terminal::Indexsum => read_rule::<ChosenParts, Cons>(alloc, reader),
            Terminal::Assign => read_rule::<ChosenParts, Cons>(alloc, reader),
            Terminal::Cumulative => read_rule::<CumulativeParts, Cons>(alloc, reader),
            Terminal::Disjunctive => read_rule::<DisjunctiveParts, Cons>(alloc, reader),
            Terminal::Packing => read_rule::<PackingParts, Cons>(alloc, reader),
            _ => read_rule::<LinearParts, Cons>(alloc, reader),
        }
    }
}
