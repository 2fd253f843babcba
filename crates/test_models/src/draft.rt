//! The parts of a flat model, as a table has them.
use crate::pieces::Pieces;
use crate::words::Words;
use sm_flat::{Constraint, Flat, Form, Goal, Level, PickBy, SplitBy, Tags, Var, VarKind};
use sqlite_items::Items;
use std::alloc::Global;

/// The tags of a constraint, but for what an entry says.
const TAGS: Tags = Tags {
    infer: Level::Full,
    relax: true,
    branch: 100,
    pick: PickBy::Small,
    split: SplitBy::Half,
    sub: None,
};

/// The variables, constraints and goals so far, the pieces of the next constraint, and its tags.
#[derive(Drop)]
pub(crate) struct Draft {
    alloc: Global,
    vars: Vec<Var>,
    constraints: Vec<Constraint>,
    goals: Vec<Goal>,
    pieces: Pieces,
    tags: Tags,
}

impl Draft {
    pub(crate) fn new(alloc: Global) -> Draft {
        Draft {
            alloc,
            vars: Vec::new(alloc),
            constraints: Vec::new(alloc),
            goals: Vec::new(alloc),
            pieces: Pieces::new(alloc),
            tags: TAGS,
        }
    }

    /// Adds a variable of a kind, with its values or its ends.
    fn add_var(&mut self, kind: VarKind, words: &mut Words<'_>) {
        let var = Var {
            name: Items::from_vec(Vec::new(self.alloc)),
            kind,
            values: self.pieces.take_numbers(words),
        };
        words.note(self.vars.push(var).is_ok());
    }

    /// Adds a goal: its sense, its constant and its terms.
    fn add_goal(&mut self, words: &mut Words<'_>) {
        let goal = Goal {
            sense: words.sense(),
            constant: words.number(),
            terms: self.pieces.take_terms(words),
        };
        words.note(self.goals.push(goal).is_ok());
    }

    /// Adds a constraint, with the tags, which are as before then.
    fn add_form(&mut self, words: &mut Words<'_>, form: Form) {
        let constraint = Constraint {
            form,
            tags: self.tags,
        };
        self.tags = TAGS;
        words.note(self.constraints.push(constraint).is_ok());
    }

    /// Adds the constraint of a kind. A key of no kind isn't good.
    fn add_constraint(&mut self, key: &str, words: &mut Words<'_>) {
        match self.pieces.take_form(key, words) {
            Some(form) => self.add_form(words, form),
            None => words.note(false),
        }
    }

    /// Adds the part of an entry.
    pub(crate) fn add(&mut self, key: &str, words: &mut Words<'_>) {
        match key {
            "var" => self.add_var(VarKind::Set, words),
            "int" => self.add_var(VarKind::Int, words),
            "real" => self.add_var(VarKind::Real, words),
            "goal" => self.add_goal(words),
            "sub" => self.tags.sub = Some(words.var()),
            "branch" => self.tags.branch = words.var(),
            _ => {
                if !self.pieces.add(key, words) {
                    self.add_constraint(key, words);
                }
            }
        }
    }

    /// Adds the part of an entry so many times.
    pub(crate) fn add_many(&mut self, words: &mut Words<'_>) {
        let count = words.var();
        let entry = words.take_rest();
        for _ in 0..count {
            let mut again = Words::new(entry);
            self.add(again.word(), &mut again);
            words.note(again.is_done());
        }
    }

    /// The model of the parts, where they are within the limits and fit each other. Then there are no parts.
    pub(crate) fn take_flat(&mut self) -> Option<Flat> {
        let vars = std::mem::replace(&mut self.vars, Vec::new(self.alloc));
        let constraints = std::mem::replace(&mut self.constraints, Vec::new(self.alloc));
        let goals = std::mem::replace(&mut self.goals, Vec::new(self.alloc));
        Flat::new(vars, constraints, goals)
    }
}
