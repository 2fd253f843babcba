//! Model texts, data files and formulas on tables of cases: puts what each call answered.
//!
//! The arguments name the tables. The keys of a case: `case` and its name; `model`, whose text is to be a model; `add`, a file's
//! name, with its bytes as text; `table`, the name of a table; `rows`, the name of a table of which the count of rows and the last
//! one are shown; `formula`, in postfix form, whose clauses are shown; `count`, a formula of which the counts are shown.
//! `answer` puts what these answered, one line each; what stands below it in a table is the expected answer, which the
//! stored output has too; it isn't looked at.
#![tactic(auto)]

mod data;
mod formulas;
mod models;
mod print_constraint;
mod print_expression;
mod print_formula;
mod print_list;
mod print_model;
mod print_token;

use anyhow::{Context, Result, bail};
use sm_data::Tables;
use std::alloc::Global;
use std::io::Write;
use std::{env, fs, io};
use test_tables::{Answers, Entry, entries_of};

/// Does what an entry asks for.
fn take(alloc: Global, tables: &mut Tables, entry: &Entry, answers: &mut Answers) -> Result<()> {
    let value = entry.value.as_str();
    match entry.key.as_str() {
        "model" => models::answer(alloc, &entry.text, answers),
        "add" => data::add(alloc, tables, value, &entry.text, answers),
        "table" => Ok(data::show(alloc, tables, value, answers)?),
        "rows" => Ok(data::show_rows(alloc, tables, value, answers)?),
        "formula" => formulas::show(alloc, value, answers),
        "count" => formulas::count(alloc, value, answers),
        "answer" => Ok(answers.put()?),
        other => bail!("{other} is no key"),
    }
}

/// Begins a case with each entry that names one, and does what each other entry asks for.
fn take_all(
    alloc: Global,
    tables: &mut Tables,
    entries: &[Entry],
    answers: &mut Answers,
) -> Result<()> {
    for entry in entries {
        if entry.key.as_str() == "case" {
            drop(std::mem::replace(tables, Tables::new(alloc)));
            answers.begin(entry.value.as_str())?;
        } else {
            take(alloc, tables, entry, answers).context(format_args!(
                "at {}",
                entry.value.as_str()
            ))?;
        }
    }
    Ok(())
}

/// Adds what the cases of a table answer.
fn answer_table(alloc: Global, table: &str, answers: &mut Answers) -> Result<()> {
    let entries = entries_of(alloc, table)?;
    let mut tables = Tables::new(alloc);
    let taken = take_all(alloc, &mut tables, &entries, answers);
    drop(tables);
    drop(entries);
    taken
}

fn main(rt: HostRuntime) -> Result<()> {
    for name in env::args(&rt)?.skip(1) {
        let table = fs::read_to_string(&rt, name.as_str())?;
        let mut answers = Answers::new(rt.alloc());
        let taken = answer_table(rt.alloc(), table.as_str(), &mut answers);
        drop(table);
        taken?;
        io::writer(&rt).write_all(answers.text())?;
    }
    Ok(())
}
