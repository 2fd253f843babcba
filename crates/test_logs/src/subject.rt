//! A model with a store and the state of a log, and what is asked of them.
use anyhow::{Context, Error, Result, bail};
use sm_flat::{Assignment, Flat, Literal, is_assignment, solves, value};
use sm_rules::{ApplyRefusal, Cause, LogState};
use sm_step::{Line, LineRefusal, read};
use sm_store::Store;
use sqlite_items::Items;
use std::alloc::{AllocError, Global};
use std::marker::Model;
use std::str::SplitWhitespace;
use test_tables::{Answers, Entry};

/// A model and the state of a log of it.
#[derive(Drop)]
struct Replay {
    flat: Flat,
    state: LogState,
}

impl Model for Replay {
    ghost use Rattle.sm_flat.specs.Models.{FlatModel};
    ghost use Rattle.sm_rules.specs.States.{State};
    ghost use Rattle.sm_rules.specs.Sound.{IsOf};

    ghost Value = { FlatModel × State };

    ghost view = { λ r. (r.flat, r.state) };

    ghost invariant = { λ r. IsOf r.flat r.state };
}

impl Replay {
    fn new(alloc: Global, flat: Flat) -> Result<Replay> {
        let state = LogState::new(alloc, &flat).ok().context("memory ran out")?;
        Ok(Replay { flat, state })
    }

    /// The answer to a line.
    fn apply(&mut self, line: &Line) -> Result<&'static [u8]> {
        match self.state.apply(&self.flat, line) {
            Ok(()) => Ok(b"ok"),
            Err(ApplyRefusal::Refused { cause }) => Ok(word_of(cause)),
            Err(ApplyRefusal::OutOfMemory) => bail!("memory ran out"),
        }
    }

    /// The answer to what was read as a line.
    fn apply_found(&mut self, found: &Result<Line, LineRefusal>) -> Result<&'static [u8]> {
        match found {
            Ok(line) => self.apply(line),
            Err(LineRefusal::BadLine) => Ok(word_of(Cause::Grammar)),
            Err(LineRefusal::OutOfMemory) => bail!("memory ran out"),
        }
    }
}

/// A model with its store, narrowed or not, and the state of a log.
#[derive(Drop)]
pub struct Subject {
    replay: Replay,
    store: Store,
}

fn word_of(cause: Cause) -> &'static [u8] {
    match cause {
        Cause::Grammar => b"grammar",
        Cause::Order => b"order",
        Cause::Law => b"law",
        Cause::Verdict => b"verdict",
        Cause::End => b"end",
    }
}

/// The assignment that the words say, its denominator first; none where they say none.
fn assignment_of(alloc: Global, mut words: SplitWhitespace<'_>) -> Result<Option<Assignment>> {
    let denominator = words.next().context("a denominator")?.parse::<i64>()?;
    let mut numerators = Vec::new(alloc);
    for word in words {
        numerators.push(word.parse::<i128>()?)?;
    }
    if !is_assignment(denominator, &numerators) {
        return Ok(None);
    }
    Ok(Some(Assignment::new(denominator, Items::from_vec(numerators))))
}

/// The literal of a line that opens a node.
fn node_literal(found: &Result<Line, LineRefusal>) -> Option<Literal> {
    match found {
        Ok(Line::Node { literal, .. }) => Some(*literal),
        _ => None,
    }
}

/// The literal of a text.
fn literal_of(alloc: Global, text: &str) -> Result<Literal> {
    let line = format!(in alloc; "node 1 0 {text}\n")?;
    let found = read(alloc, line.as_bytes());
    let literal = node_literal(&found);
    drop(found);
    literal.context("a literal")
}

/// Answers a text.
fn add_text(text: Result<String>, answers: &mut Answers) -> Result<()> {
    answers.add(text?.as_bytes())?;
    Ok(())
}

impl Subject {
    pub fn new(alloc: Global, flat: Flat) -> Result<Subject> {
        let store = Store::declared(alloc, &flat)?;
        let replay = Replay::new(alloc, flat)?;
        Ok(Subject { replay, store })
    }

    /// Of a model, where there is one.
    pub fn of_flat(alloc: Global, flat: Option<Flat>) -> Result<Option<Subject>> {
        match flat {
            Some(flat) => Ok(Some(Subject::new(alloc, flat)?)),
            None => Ok(None),
        }
    }

    /// Answers what an entry asks.
    pub fn answer(&mut self, alloc: Global, entry: &Entry, answers: &mut Answers) -> Result<()> {
        let text = entry.value.as_str();
        match entry.key.as_str() {
            "solves" => self.answer_solves(alloc, text, answers),
            "value" => self.answer_value(alloc, text, answers),
            "narrow" => self.answer_narrow(alloc, text, answers),
            "domain" => self.answer_domain(alloc, text, answers),
            "words" => self.answer_words(alloc, text, answers),
            "apply" => self.answer_apply(alloc, &entry.text, answers),
            "state" => Ok(self.answer_state(alloc, answers)?),
            other => bail!("{other} is no key"),
        }
    }

    fn answer_solves(&self, alloc: Global, text: &str, answers: &mut Answers) -> Result<()> {
        let Some(a) = assignment_of(alloc, text.split_whitespace())? else {
            answers.add(b"no assignment")?;
            return Ok(());
        };
        let answer: &[u8] = if solves(&self.replay.flat, &a) {
            b"solves"
        } else {
            b"fails"
        };
        answers.add(answer)?;
        Ok(())
    }

    /// The value of a level at an assignment.
    fn value_text(&self, alloc: Global, level: u32, a: &Assignment) -> Result<String> {
        if level as usize >= self.replay.flat.goals().len() {
            return Ok(String::from_str(alloc, "no goal")?);
        }
        let (numerator, denominator) = value(&self.replay.flat, level, a);
        Ok(format!(in alloc; "{numerator} over {denominator}")?)
    }

    /// The value of a level at the assignment that the words say.
    fn value_at(&self, alloc: Global, level: u32, words: &str) -> Result<String> {
        let found = assignment_of(alloc, words.split_whitespace())?;
        let text = match &found {
            Some(a) => self.value_text(alloc, level, a),
            None => Err(Error::msg("no assignment")),
        };
        drop(found);
        text
    }

    fn answer_value(&self, alloc: Global, text: &str, answers: &mut Answers) -> Result<()> {
        let (level, rest) = text.split_once(' ').context("a level")?;
        let level = level.parse::<u32>()?;
        add_text(self.value_at(alloc, level, rest), answers)
    }

    /// Answers what the literal is for all values of its variable, where they agree, and whether it removed one.
    fn answer_narrow(&mut self, alloc: Global, text: &str, answers: &mut Answers) -> Result<()> {
        let literal = literal_of(alloc, text)?;
        if literal.var as usize >= self.store.len() {
            answers.add(b"no variable")?;
            return Ok(());
        }
        let truth: &[u8] = match self.store.truth(&literal) {
            Some(true) => b"true",
            Some(false) => b"false",
            None => b"open",
        };
        answers.add(truth)?;
        let change: &[u8] = if self.store.narrow(&literal) {
            b"changes"
        } else {
            b"stays"
        };
        answers.add(change)?;
        Ok(())
    }

    /// What is left of a variable's domain.
    fn domain_text(&self, alloc: Global, var: u32) -> Result<String> {
        if var as usize >= self.store.len() {
            return Ok(String::from_str(alloc, "no variable")?);
        }
        let size = self.store.size(var);
        let text = match (self.store.bounds(var), self.store.fixed(var)) {
            (_, Some(value)) => format!(in alloc; "fixed {value}")?,
            (Some((least, greatest)), None) => {
                format!(in alloc; "{size} values from {least} to {greatest}")?
            }
            (None, None) => String::from_str(alloc, "empty")?,
        };
        Ok(text)
    }

    /// Answers what is left of a variable's domain.
    fn answer_domain(&self, alloc: Global, text: &str, answers: &mut Answers) -> Result<()> {
        let var = text.parse::<u32>()?;
        add_text(self.domain_text(alloc, var), answers)
    }

    /// The base and the words of a variable's domain, where it is a set.
    fn words_text(&self, alloc: Global, var: u32) -> Result<String> {
        if var as usize >= self.store.len() {
            return Ok(String::from_str(alloc, "no variable")?);
        }
        let text = match self.store.words(var) {
            Some((base, words)) => format!(in alloc; "base {base} words {words:?}")?,
            None => String::from_str(alloc, "no set")?,
        };
        Ok(text)
    }

    /// Answers the base and the words of a variable's domain.
    fn answer_words(&self, alloc: Global, text: &str, answers: &mut Answers) -> Result<()> {
        let var = text.parse::<u32>()?;
        add_text(self.words_text(alloc, var), answers)
    }

    /// Applies each line of a text.
    fn answer_apply(&mut self, alloc: Global, text: &[u8], answers: &mut Answers) -> Result<()> {
        for piece in text.split_inclusive(|byte| *byte == b'\n') {
            let found = read(alloc, piece);
            let answer = self.replay.apply_found(&found);
            drop(found);
            answers.add(answer?)?;
        }
        Ok(())
    }

    /// Answers whether the tree is refuted and the focus ended.
    fn answer_focus(&self, answers: &mut Answers) -> Result<(), AllocError> {
        let state = &self.replay.state;
        let tree: &[u8] = if state.is_refuted() {
            b"refuted"
        } else {
            b"open"
        };
        answers.add(tree)?;
        let focus: &[u8] = if state.is_ended(&self.replay.flat) {
            b"ended"
        } else {
            b"not ended"
        };
        answers.add(focus)
    }

    /// Answers how many nodes and cuts there are, and which node is the focus.
    fn answer_counts(&self, alloc: Global, answers: &mut Answers) -> Result<(), AllocError> {
        let state = &self.replay.state;
        let counts = format!(in alloc;
            "nodes {} kept {} focus {}",
            state.nodes(),
            state.kept(),
            state.focus()
        )?;
        answers.add(counts.as_bytes())
    }

    /// Answers the floor of the focus at the first level, where it has one.
    fn answer_floor(&self, alloc: Global, answers: &mut Answers) -> Result<(), AllocError> {
        let state = &self.replay.state;
        let Some(floor) = state.floor(state.focus(), 0) else {
            return Ok(());
        };
        let line = format!(in alloc; "floor {}/{}", floor.n(), floor.d())?;
        answers.add(line.as_bytes())
    }

    /// Answers which node waits for its other child, where one does.
    fn answer_half(&self, alloc: Global, answers: &mut Answers) -> Result<(), AllocError> {
        let Some((parent, literal)) = self.replay.state.half() else {
            return Ok(());
        };
        let line = format!(in alloc; "half of {parent}: v{} {}", literal.var, literal.bound)?;
        answers.add(line.as_bytes())
    }

    /// Answers the best solution so far, where there is one.
    fn answer_best(&self, alloc: Global, answers: &mut Answers) -> Result<(), AllocError> {
        let Some(best) = self.replay.state.best() else {
            return Ok(());
        };
        let line = format!(in alloc; "best {:?} over {}", best.values(), best.denominator())?;
        answers.add(line.as_bytes())
    }

    fn answer_state(&self, alloc: Global, answers: &mut Answers) -> Result<(), AllocError> {
        self.answer_counts(alloc, answers)?;
        self.answer_focus(answers)?;
        self.answer_floor(alloc, answers)?;
        self.answer_half(alloc, answers)?;
        self.answer_best(alloc, answers)?;
        let verdict: &[u8] = match self.replay.state.verdict() {
            Some(_) => b"verdict",
            None => b"no verdict",
        };
        answers.add(verdict)
    }
}
