//! Flat models of every kind on tables of cases: puts what each call answered.
//!
//! An entry of a table is a line of words, with a blank between each two. The first is its key. The keys of a case: `case` and its name;
//! `var` and its values; `int` or `real` and two ends; `goal`, a sense, a constant and terms, each a variable's number, a colon and
//! a coefficient; `sub` and `branch`, tags of the next constraint; and constraints:
//!
//! - `row`, a comparison, a bound and terms
//! - `clause` and literals, each a variable's number, a test and a bound; `logic`, of the clauses before it
//! - `if` and literals; `when` and a row, of the literals before it
//! - `alldiff` and variables
//! - `element`, `x`, `z` and entries, numbers or `v` and a variable's number
//! - `pick`, a variable and its table; `indexsum` or `assign` and `z`, of the picks before it
//! - `task`, its start, duration, demand, and where it has one its literal; `cumulative` and a capacity, or `disjunctive`
//! - `capacities`, `opening` and numbers; `item`, its variable, size and costs; `packing` and `z`
//! - `circuit` and variables
//!
//! `many`, a count and an entry is this entry so many times. `numbers`, `if`, `listed` and `entries` begin a list that the next
//! part with such a list goes on with; `terms` begins one with a term for each of so many variables, and `literals` with so many
//! literals. `model` makes a model of the parts. Of a model: `holds` of constraint 0, `fits` or
//! `solves`, a denominator, a scale, and the ends between which each value's numbers lie, which times the scale are numerators:
//! the answer has a digit for each point; `in` and a subproblem, or none: a digit for each variable; `kinds` of all constraints.
//! `answer` puts what these answered, one line each; what stands below it in a table is the expected answer, which the stored
//! output has too; it isn't looked at.
#![tactic(auto)]

mod asked;
mod draft;
mod pieces;
mod points;
mod words;

use crate::asked::answer_of;
use crate::draft::Draft;
use crate::words::Words;
use anyhow::{Context, Result, bail};
use sm_flat::Flat;
use std::alloc::Global;
use std::io::Write;
use std::{fs, io};
use test_tables::Answers;

/// The tables, in the order of their answers.
const TABLES: [&str; 4] = ["kinds.table", "drawn.table", "limits.table", "subs.table"];

/// What a case has made so far.
#[derive(Drop)]
struct Case {
    draft: Draft,
    flat: Option<Flat>,
}

impl Case {
    fn new(alloc: Global) -> Case {
        Case {
            draft: Draft::new(alloc),
            flat: None,
        }
    }

    /// Makes the model of the parts.
    fn make(&mut self, answers: &mut Answers) -> Result<()> {
        drop(std::mem::replace(&mut self.flat, self.draft.take_flat()));
        let answer: &[u8] = if self.flat.is_some() {
            b"model"
        } else {
            b"no model"
        };
        Ok(answers.add(answer)?)
    }

    /// Answers what is asked of the model.
    fn answer(
        &self,
        alloc: Global,
        key: &str,
        words: &mut Words<'_>,
        answers: &mut Answers,
    ) -> Result<()> {
        let Some(flat) = &self.flat else {
            bail!("there is no model");
        };
        let line = answer_of(alloc, flat, key, words)?;
        Ok(answers.add(&line)?)
    }

    /// Does what an entry asks for.
    fn take(&mut self, alloc: Global, line: &str, answers: &mut Answers) -> Result<()> {
        let mut words = Words::new(line);
        match words.word() {
            "case" => {
                drop(std::mem::replace(self, Case::new(alloc)));
                answers.begin(words.take_rest())?;
            }
            "model" => self.make(answers)?,
            "answer" => answers.put()?,
            "many" => self.draft.add_many(&mut words),
            key @ ("holds" | "fits" | "solves" | "in" | "kinds") => {
                self.answer(alloc, key, &mut words, answers)?;
            }
            key => self.draft.add(key, &mut words),
        }
        if !words.is_done() {
            bail!("it isn't what was to be read");
        }
        Ok(())
    }
}

/// Does what each entry of a table asks for.
fn take_all(alloc: Global, case: &mut Case, table: &str, answers: &mut Answers) -> Result<()> {
    for line in table.lines() {
        if !line.is_empty() && !line.starts_with("  ") {
            case.take(alloc, line, answers)
                .context(format_args!("at {line}"))?;
        }
    }
    Ok(())
}

/// Adds what the cases of a table answer.
fn answer_table(alloc: Global, bytes: &[u8], answers: &mut Answers) -> Result<()> {
    let table = str::from_utf8(bytes).ok().context("a table is a text")?;
    let mut case = Case::new(alloc);
    let taken = take_all(alloc, &mut case, table, answers);
    drop(case);
    taken
}

fn main(rt: HostRuntime) -> Result<()> {
    for name in TABLES {
        let bytes = fs::read(&rt, name)?;
        let mut answers = Answers::new(rt.alloc());
        let taken = answer_table(rt.alloc(), &bytes, &mut answers);
        drop(bytes);
        taken?;
        io::writer(&rt).write_all(answers.text())?;
    }
    Ok(())
}
