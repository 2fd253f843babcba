//! What comes of formulas.
//!
//! A formula stands in postfix form: a literal, as `0<=3`; `not`, `implies` and `iff` behind their parts; and `and:2` and `or:2`
//! behind so many parts.
use anyhow::{Context, Result, bail};
use sm_clausify::{ClauseRefusal, Formula, clauses, has_small_bounds};
use sm_flat::{Clause, Literal, Test};
use sqlite_items::{Boxed, Items};
use std::alloc::{AllocError, Global};
use test_tables::Answers;

/// The literal of a test of a variable against a bound.
fn literal(var: &str, test: Test, bound: &str) -> Result<Literal> {
    let var = var.parse::<u32>()?;
    let bound = bound.parse::<i64>()?;
    Ok(Literal { var, test, bound })
}

/// The literal of a word.
fn literal_of(word: &str) -> Result<Literal> {
    if let Some((var, bound)) = word.split_once("<=") {
        literal(var, Test::AtMost, bound)
    } else if let Some((var, bound)) = word.split_once(">=") {
        literal(var, Test::AtLeast, bound)
    } else if let Some((var, bound)) = word.split_once("!=") {
        literal(var, Test::Unequal, bound)
    } else {
        let (var, bound) = word.split_once('=').context("a literal")?;
        literal(var, Test::Equal, bound)
    }
}

/// Both values, where there are both.
fn both<A: Drop, B: Drop>(first: Result<A>, second: Result<B>) -> Result<(A, B)> {
    let first = first?;
    let second = second?;
    Ok((first, second))
}

/// The formulas that wait for what stands behind them.
#[derive(Drop)]
struct Stack {
    alloc: Global,
    parts: Vec<Formula>,
}

impl Stack {
    fn take(&mut self) -> Result<Formula> {
        self.parts.pop().context("a part is missing")
    }

    fn take_boxed(&mut self) -> Result<Boxed<Formula>> {
        let part = self.take()?;
        Ok(Boxed::new(self.alloc, part)?)
    }

    /// The last two parts, in their order.
    fn take_two(&mut self) -> Result<(Boxed<Formula>, Boxed<Formula>)> {
        let second = self.take_boxed();
        let first = self.take_boxed();
        both(first, second)
    }

    /// Moves the last parts, so many, the last one first.
    fn move_parts(&mut self, count: &str, turned: &mut Vec<Formula>) -> Result<()> {
        for _ in 0..count.parse::<u32>()? {
            let part = self.take()?;
            turned.push(part)?;
        }
        Ok(())
    }

    /// The last parts, so many, in their order.
    fn take_parts(&mut self, count: &str) -> Result<Items<Formula>> {
        let mut turned = Vec::new(self.alloc);
        let moved = self.move_parts(count, &mut turned);
        turned.reverse();
        let (parts, _) = both(Ok(Items::from_vec(turned)), moved)?;
        Ok(parts)
    }

    /// The formula of a word with a count, or of a literal.
    fn counted_or_literal(&mut self, word: &str) -> Result<Formula> {
        match word.split_once(':') {
            Some(("and", count)) => Ok(Formula::And(self.take_parts(count)?)),
            Some(("or", count)) => Ok(Formula::Or(self.take_parts(count)?)),
            _ => Ok(Formula::Lit(literal_of(word)?)),
        }
    }

    /// The formula of a word and the parts before it.
    fn formula_of(&mut self, word: &str) -> Result<Formula> {
        match word {
            "not" => Ok(Formula::Not(self.take_boxed()?)),
            "implies" => {
                let (first, second) = self.take_two()?;
                Ok(Formula::Implies(first, second))
            }
            "iff" => {
                let (first, second) = self.take_two()?;
                Ok(Formula::Iff(first, second))
            }
            _ => self.counted_or_literal(word),
        }
    }

    /// The formula of a text.
    fn read(&mut self, text: &str) -> Result<Formula> {
        for word in text.split_whitespace() {
            let formula = self.formula_of(word)?;
            self.parts.push(formula)?;
        }
        self.take()
    }
}

fn formula_of(alloc: Global, text: &str) -> Result<Formula> {
    let mut stack = Stack {
        alloc,
        parts: Vec::new(alloc),
    };
    let formula = stack.read(text);
    drop(stack);
    formula
}

/// The clauses of a formula; none where there are too many, or a bound is too great, which is answered.
fn clauses_found(
    alloc: Global,
    formula: &Formula,
    answers: &mut Answers,
) -> Result<Option<Vec<Clause>>> {
    if !has_small_bounds(formula) {
        answers.add(b"a bound is too great")?;
        return Ok(None);
    }
    match clauses(alloc, formula) {
        Ok(found) => Ok(Some(found)),
        Err(ClauseRefusal::TooManyClauses { count }) => {
            let line = format!(in alloc; "{count} clauses are too many")?;
            answers.add(line.as_bytes())?;
            Ok(None)
        }
        Err(ClauseRefusal::OutOfMemory) => bail!("memory ran out"),
    }
}

/// The clauses of a formula's text.
fn clauses_of(alloc: Global, text: &str, answers: &mut Answers) -> Result<Option<Vec<Clause>>> {
    let formula = formula_of(alloc, text)?;
    let found = clauses_found(alloc, &formula, answers);
    drop(formula);
    found
}

fn sign(test: Test) -> &'static str {
    match test {
        Test::AtMost => "<=",
        Test::AtLeast => ">=",
        Test::Equal => "=",
        Test::Unequal => "!=",
    }
}

/// Adds literals to a line, each behind a space.
fn push_literals(alloc: Global, line: &mut String, literals: &[Literal]) -> Result<(), AllocError> {
    for literal in literals {
        let one = format!(in alloc; " {}{}{}", literal.var, sign(literal.test), literal.bound)?;
        line.push_str(one.as_str())?;
    }
    Ok(())
}

/// Answers a clause.
fn show_clause(alloc: Global, clause: &Clause, answers: &mut Answers) -> Result<(), AllocError> {
    let mut line = String::from_str(alloc, "clause")?;
    push_literals(alloc, &mut line, clause.literals.as_slice())?;
    answers.add(line.as_bytes())
}

/// Answers each clause.
fn show_clauses(alloc: Global, found: &[Clause], answers: &mut Answers) -> Result<(), AllocError> {
    for clause in found {
        show_clause(alloc, clause, answers)?;
    }
    Ok(())
}

/// Answers each clause of a formula.
pub fn show(alloc: Global, text: &str, answers: &mut Answers) -> Result<()> {
    let found = clauses_of(alloc, text, answers)?;
    let shown = match &found {
        Some(found) => show_clauses(alloc, found, answers),
        None => Ok(()),
    };
    drop(found);
    Ok(shown?)
}

/// Answers how many clauses there are, and how many literals stand in them.
fn show_counts(alloc: Global, found: &[Clause], answers: &mut Answers) -> Result<(), AllocError> {
    let mut literals: usize = 0;
    for clause in found {
        literals = literals.saturating_add(clause.literals.len());
    }
    let line = format!(in alloc; "{} clauses of {literals} literals", found.len())?;
    answers.add(line.as_bytes())
}

/// Answers how many clauses a formula has, and how many literals stand in them.
pub fn count(alloc: Global, text: &str, answers: &mut Answers) -> Result<()> {
    let found = clauses_of(alloc, text, answers)?;
    let shown = match &found {
        Some(found) => show_counts(alloc, found, answers),
        None => Ok(()),
    };
    drop(found);
    Ok(shown?)
}
