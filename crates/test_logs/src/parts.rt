//! The parts of a flat model, as a table has them.
use anyhow::{Context, Result, bail};
use sm_flat::{
    Cmp, Constraint, Flat, Form, Goal, Level, LinRow, PickBy, Sense, SplitBy, Tags, Var, VarKind,
};
use sqlite_items::Items;
use std::alloc::Global;
use std::str::SplitWhitespace;
use test_tables::Entry;

/// The tags of a constraint where a text has none.
const DEFAULT_TAGS: Tags = Tags {
    infer: Level::Full,
    relax: true,
    branch: 100,
    pick: PickBy::Small,
    split: SplitBy::Half,
    sub: None,
};

/// The variables, constraints and goals so far.
#[derive(Drop)]
pub struct Parts {
    vars: Vec<Var>,
    constraints: Vec<Constraint>,
    goals: Vec<Goal>,
}

/// Variables with their coefficients.
fn terms_of(alloc: Global, words: SplitWhitespace<'_>) -> Result<Items<(u32, i64)>> {
    let mut terms = Vec::new(alloc);
    for word in words {
        let (var, coefficient) = word.split_once(':').context("a term has a colon")?;
        terms.push((var.parse::<u32>()?, coefficient.parse::<i64>()?))?;
    }
    Ok(Items::from_vec(terms))
}

/// A variable of the kind and the values that the words say.
fn var_of(alloc: Global, mut words: SplitWhitespace<'_>) -> Result<Var> {
    let kind = match words.next() {
        Some("set") => VarKind::Set,
        Some("int") => VarKind::Int,
        Some("real") => VarKind::Real,
        _ => bail!("a variable has a kind"),
    };
    let mut values = Vec::new(alloc);
    for word in words {
        values.push(word.parse::<i64>()?)?;
    }
    Ok(Var {
        name: Items::from_slice(alloc, b"x")?,
        kind,
        values: Items::from_vec(values),
    })
}

fn row_of(alloc: Global, mut words: SplitWhitespace<'_>) -> Result<Constraint> {
    let cmp = match words.next() {
        Some("<=") => Cmp::AtMost,
        Some(">=") => Cmp::AtLeast,
        Some("=") => Cmp::Equal,
        _ => bail!("a row has a comparison"),
    };
    let bound = words.next().context("a row has a bound")?.parse::<i64>()?;
    let terms = terms_of(alloc, words)?;
    Ok(Constraint {
        form: Form::Linear(LinRow { terms, cmp, bound }),
        tags: DEFAULT_TAGS,
    })
}

fn goal_of(alloc: Global, mut words: SplitWhitespace<'_>) -> Result<Goal> {
    let sense = match words.next() {
        Some("satisfy") => Sense::Satisfy,
        Some("minimise") => Sense::Minimise,
        Some("maximise") => Sense::Maximise,
        _ => bail!("a goal has a sense"),
    };
    let terms = terms_of(alloc, words)?;
    Ok(Goal {
        sense,
        terms,
        constant: 0,
    })
}

impl Parts {
    pub fn new(alloc: Global) -> Parts {
        Parts {
            vars: Vec::new(alloc),
            constraints: Vec::new(alloc),
            goals: Vec::new(alloc),
        }
    }

    /// Adds the part of an entry.
    pub fn add(&mut self, alloc: Global, entry: &Entry) -> Result<()> {
        let words = entry.value.as_str().split_whitespace();
        match entry.key.as_str() {
            "var" => self.vars.push(var_of(alloc, words)?)?,
            "row" => self.constraints.push(row_of(alloc, words)?)?,
            _ => self.goals.push(goal_of(alloc, words)?)?,
        }
        Ok(())
    }

    /// The model of the parts, where they are within the limits and fit each other.
    pub fn into_flat(self) -> Option<Flat> {
        Flat::new(self.vars, self.constraints, self.goals)
    }
}
