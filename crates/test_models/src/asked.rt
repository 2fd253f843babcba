//! What is asked of a model.
use crate::points::Point;
use crate::words::Words;
use sm_flat::{Assignment, Flat, Kind, fits, holds, kind_of, solves, sub_of};
use std::alloc::{AllocError, Global};

/// The most points of a box.
const MOST_POINTS: u32 = 1 << 16;

/// Whether it is so at an assignment that constraint 0 holds, that each value is of its domain, or both of all.
fn is_so(flat: &Flat, question: &str, a: &Assignment) -> bool {
    match question {
        "holds" => !flat.constraints().is_empty() && holds(flat, 0, a),
        "fits" => fits(flat, a),
        _ => solves(flat, a),
    }
}

/// The answer at a point: whether it is so, or that the point is no assignment.
fn answer_at(
    alloc: Global,
    flat: &Flat,
    question: &str,
    point: &Point,
    words: &mut Words<'_>,
) -> u8 {
    match point.assignment(alloc, words) {
        Some(a) => digit_of(is_so(flat, question, &a)),
        None => b'?',
    }
}

/// The answers at all points of the box that the words say.
fn answers_at_points(alloc: Global, flat: &Flat, question: &str, words: &mut Words<'_>) -> Vec<u8> {
    let mut answers = Vec::new(alloc);
    let mut point = Point::new(alloc, words);
    for _ in 0..MOST_POINTS {
        let answer = answer_at(alloc, flat, question, &point, words);
        words.note(answers.push(answer).is_ok());
        if !point.advance() {
            return answers;
        }
    }
    words.note(false);
    answers
}

/// The digit of whether it is so.
fn digit_of(is_so: bool) -> u8 {
    if is_so { b'1' } else { b'0' }
}

/// Whether each variable is of the subproblem, or of none where the words say none.
fn answers_of_vars(alloc: Global, flat: &Flat, words: &mut Words<'_>) -> Vec<u8> {
    let sub = words.var_if_any();
    let mut answers = Vec::new(alloc);
    for var in 0..flat.vars().len() {
        let answer = digit_of(sub_of(flat, var as u32) == sub);
        words.note(answers.push(answer).is_ok());
    }
    answers
}

fn word_of(kind: Kind) -> &'static [u8] {
    match kind {
        Kind::Linear => b" linear",
        Kind::Logic => b" logic",
        Kind::When => b" when",
        Kind::Alldiff => b" alldiff",
        Kind::Element => b" element",
        Kind::IndexSum => b" indexsum",
        Kind::Cumulative => b" cumulative",
        Kind::Disjunctive => b" disjunctive",
        Kind::Packing => b" packing",
        Kind::Circuit => b" circuit",
        Kind::Assign => b" assign",
    }
}

/// The kind of each constraint.
fn answer_kinds(alloc: Global, flat: &Flat) -> Result<Vec<u8>, AllocError> {
    let mut line = Vec::new(alloc);
    for constraint in flat.constraints() {
        line.extend_from_slice(word_of(kind_of(&constraint.form)))?;
    }
    Ok(line)
}

/// The answer to a question.
pub(crate) fn answer_of(
    alloc: Global,
    flat: &Flat,
    question: &str,
    words: &mut Words<'_>,
) -> Result<Vec<u8>, AllocError> {
    match question {
        "in" => Ok(answers_of_vars(alloc, flat, words)),
        "kinds" => answer_kinds(alloc, flat),
        _ => Ok(answers_at_points(alloc, flat, question, words)),
    }
}
