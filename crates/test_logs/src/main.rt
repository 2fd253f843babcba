//! Models, stores, lines and logs on tables of cases: puts what each call answered.
//!
//! The arguments name the tables. The keys of a case: `case` and its name; `var`, a kind and values; `row`, a comparison, a bound
//! and terms, each a variable's number, a colon and a coefficient; `goal`, a sense and terms; `model`, which makes a model of these.
//! Of a model: `solves` and an assignment, its denominator first; `value`, a level and an assignment; `narrow`, a literal by which
//! its store is narrowed; `domain` and `words`, a variable; `apply`, whose text has lines of a log; `state`, what is asked of the
//! log's state. Without a model: `read`, whose text is to be a line. `answer` puts what these answered, one line each; what stands
//! below it in a table is the expected answer, which the stored output has too; it isn't looked at.
#![tactic(auto)]

mod parts;
mod subject;

use crate::parts::Parts;
use crate::subject::Subject;
use anyhow::{Context, Result, bail};
use sm_step::{Line, LineRefusal, print, read};
use std::alloc::Global;
use std::io::Write;
use std::{env, fs, io};
use test_tables::{Answers, Entry, entries_of};

/// Whether a line is printed as these bytes.
fn is_printed(alloc: Global, line: &Line, bytes: &[u8]) -> Result<bool> {
    let mut printed = Vec::new(alloc);
    print(line, &mut printed).ok().context("memory ran out")?;
    Ok(printed.as_slice() == bytes)
}

/// Whether bytes are a line that is printed as the same bytes, as others, or no line.
fn reading_word(
    alloc: Global,
    found: &Result<Line, LineRefusal>,
    bytes: &[u8],
) -> Result<&'static [u8]> {
    match found {
        Ok(line) if is_printed(alloc, line, bytes)? => Ok(b"same"),
        Ok(_) => Ok(b"other"),
        Err(LineRefusal::BadLine) => Ok(b"bad"),
        Err(LineRefusal::OutOfMemory) => bail!("memory ran out"),
    }
}

/// Answers what comes of bytes that are to be a line.
fn answer_reading(alloc: Global, bytes: &[u8], answers: &mut Answers) -> Result<()> {
    let found = read(alloc, bytes);
    let word = reading_word(alloc, &found, bytes);
    drop(found);
    answers.add(word?)?;
    Ok(())
}

/// What a case has made so far.
#[derive(Drop)]
struct Case {
    parts: Parts,
    subject: Option<Subject>,
}

impl Case {
    fn new(alloc: Global) -> Case {
        Case {
            parts: Parts::new(alloc),
            subject: None,
        }
    }

    /// Makes the model of the parts.
    fn make(&mut self, alloc: Global, answers: &mut Answers) -> Result<()> {
        let parts = std::mem::replace(&mut self.parts, Parts::new(alloc));
        let subject = Subject::of_flat(alloc, parts.into_flat())?;
        let word: &[u8] = match &subject {
            Some(_) => b"model",
            None => b"no model",
        };
        drop(std::mem::replace(&mut self.subject, subject));
        answers.add(word)?;
        Ok(())
    }

    /// Does what an entry asks for.
    fn take(&mut self, alloc: Global, entry: &Entry, answers: &mut Answers) -> Result<()> {
        match entry.key.as_str() {
            "var" | "row" | "goal" => self.parts.add(alloc, entry),
            "model" => self.make(alloc, answers),
            "read" => answer_reading(alloc, &entry.text, answers),
            "answer" => Ok(answers.put()?),
            _ => match &mut self.subject {
                Some(subject) => subject.answer(alloc, entry, answers),
                None => bail!("there is no model"),
            },
        }
    }
}

/// Begins a case with each entry that names one, and does what each other entry asks for.
fn take_all(
    alloc: Global,
    case: &mut Case,
    entries: &[Entry],
    answers: &mut Answers,
) -> Result<()> {
    for entry in entries {
        if entry.key.as_str() == "case" {
            drop(std::mem::replace(case, Case::new(alloc)));
            answers.begin(entry.value.as_str())?;
        } else {
            case.take(alloc, entry, answers)
                .context(format_args!("at {}", entry.value.as_str()))?;
        }
    }
    Ok(())
}

/// Adds what the cases of a table answer.
fn answer_table(alloc: Global, table: &str, answers: &mut Answers) -> Result<()> {
    let entries = entries_of(alloc, table)?;
    let mut case = Case::new(alloc);
    let taken = take_all(alloc, &mut case, &entries, answers);
    drop(case);
    drop(entries);
    taken
}

fn main(rt: HostRuntime) -> Result<()> {
    for name in env::args(&rt)?.skip(1) {
        let table = fs::read_to_string(&rt, name.as_str())?;
        let mut answers = Answers::new(rt.alloc());
        let taken = answer_table(rt.alloc(), table.as_str(), &mut answers);
        drop(table);
        taken?;
        io::writer(&rt).write_all(answers.text())?;
    }
    Ok(())
}
