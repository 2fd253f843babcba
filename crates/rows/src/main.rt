//! Runs the program on tables of cases, over a shelf and two sinks in memory, and puts what each case showed.
//!
//! The arguments name the tables. The keys of a case: `case` and its name; `words`, a command line, or `word`, one more word;
//! `file`, a name, with the text of that file; `room` and `most`, how many bytes the sink takes in all and at a put; `puts` and
//! `fetches`, the numbers, from 1, of those that fail; `aside_room`, `aside_most` and `aside_puts`, the same of the sink for
//! what is put aside; `keep`, a name, under which what these words put becomes a file, before further words, and `keep_aside`
//! for what they put aside.
//! What is shown: `status`; of what was put `out`, all of it, `first` and `last`, a line, and `count`, the number of bytes; of
//! what was put aside `aside`, `aside_first` and `aside_last`.
//! What stands in a table below those, or behind `status` and `count`, is the expected answer, which the stored output has too;
//! it isn't looked at.
#![tactic(auto)]

mod case;

use crate::case::{Case, Outcome};
use anyhow::{Result, bail};
use std::alloc::Global;
use std::io::Write;
use std::{env, fs, io};
use test_tables::{Answers, Entry, entries_of};

/// What stands before the first line feed.
fn first_line(text: &[u8]) -> &[u8] {
    match text.iter().position(|byte| *byte == b'\n') {
        Some(end) => &text[..end],
        None => text,
    }
}

/// What stands behind the last line feed, but for one at the end.
fn last_line(text: &[u8]) -> &[u8] {
    let text = text.strip_suffix(b"\n").unwrap_or(text);
    match text.iter().rposition(|byte| *byte == b'\n') {
        Some(end) => &text[end + 1..],
        None => text,
    }
}

/// Puts what a key asks for.
fn put(answers: &mut Answers, key: &str, outcome: &Outcome) -> Result<()> {
    match key {
        "status" => answers.put_number(key, u64::from(outcome.status))?,
        "out" => answers.put_text(key, &outcome.put)?,
        "first" => answers.put_text(key, first_line(&outcome.put))?,
        "last" => answers.put_text(key, last_line(&outcome.put))?,
        "count" => answers.put_number(key, outcome.put.len() as u64)?,
        "aside" => answers.put_text(key, &outcome.aside)?,
        "aside_first" => answers.put_text(key, first_line(&outcome.aside))?,
        "aside_last" => answers.put_text(key, last_line(&outcome.aside))?,
        other => bail!("{other} is no key of an answer"),
    }
    Ok(())
}

/// Takes an entry into a case, or shows what it asks for.
fn take(alloc: Global, case: &mut Case, answers: &mut Answers, entry: &Entry) -> Result<()> {
    match entry.key.as_str() {
        "status" | "out" | "first" | "last" | "count" | "aside" | "aside_first" | "aside_last" => {
            let outcome = case.outcome(alloc)?;
            put(answers, entry.key.as_str(), outcome)
        }
        _ => case.set(alloc, entry),
    }
}

/// What the cases of a table show.
fn answers_of(alloc: Global, table: &str) -> Result<Answers> {
    let entries = entries_of(alloc, table)?;
    let mut answers = Answers::new(alloc);
    let mut case = Case::new(alloc);
    for entry in entries.iter() {
        if entry.key.as_str() == "case" {
            case = Case::new(alloc);
            answers.begin(entry.value.as_str())?;
        } else {
            take(alloc, &mut case, &mut answers, entry)?;
        }
    }
    Ok(answers)
}

fn main(rt: HostRuntime) -> Result<()> {
    for name in env::args(&rt)?.skip(1) {
        let table = fs::read_to_string(&rt, name.as_str())?;
        let answers = answers_of(rt.alloc(), table.as_str())?;
        io::writer(&rt).write_all(answers.text())?;
    }
    Ok(())
}
