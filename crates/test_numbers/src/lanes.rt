//! Lists of words and of numbers, which stay until others are given.
ghost use Rattle.std.specs.Prelude.{◌≤◌, length, IsTrue};
ghost use Rattle.sm_lanes.specs.Numbers.{SumsFit};

use crate::input::Input;
use crate::output::Output;
use sm_lanes::{
    add_over, and_into, count_ones, first_above, first_one, is_subset, last_one, max_over, or_into,
};
use std::alloc::Global;

/// The most words of a list that a case looks at.
const MOST: usize = 4096;

#[derive(Drop)]
pub(crate) struct Lists {
    words: Vec<u64>,
    others: Vec<u64>,
    numbers: Vec<i64>,
}

impl Lists {
    pub(crate) fn new(alloc: Global) -> Lists {
        Lists {
            words: Vec::new(alloc),
            others: Vec::new(alloc),
            numbers: Vec::new(alloc),
        }
    }
}

/// Puts a number that tells lists of words apart.
fn put_fold(words: &[u64], out: &mut Output) {
    let mut fold: u64 = 0;
    for word in words {
        fold = fold.wrapping_mul(6364136223846793005).wrapping_add(*word);
    }
    out.next(fold as i128);
}

/// Puts the same of numbers.
fn put_number_fold(numbers: &[i64], out: &mut Output) {
    let mut fold: u64 = 0;
    for number in numbers {
        fold = fold
            .wrapping_mul(6364136223846793005)
            .wrapping_add(number.cast_unsigned());
    }
    out.next(fold as i128);
}

/// Puts the places of ones in a part of the words, and whether it is a subset of the others' part.
fn put_places(input: &mut Input<'_>, lists: &Lists, out: &mut Output) {
    let limit = lists.words.len().min(lists.others.len()).min(MOST);
    let (from, to) = input.range(limit);
    let words = &lists.words[from..to];
    let others = &lists.others[from..to];
    out.next(count_ones(words) as i128);
    out.place(first_one(words));
    out.place(last_one(words));
    out.next(is_subset(words, others) as i128);
    out.next(is_subset(words, words) as i128);
}

/// Puts the words after those of a part became the conjunctions with the others', and then the disjunctions.
fn put_bitwise(input: &mut Input<'_>, lists: &mut Lists, out: &mut Output) {
    let limit = lists.words.len().min(lists.others.len());
    let (from, to) = input.range(limit);
    let both = Vec::from_slice(input.alloc(), &lists.words);
    let either = Vec::from_slice(input.alloc(), &lists.words);
    if let Ok(mut both) = both
        && both.len() == lists.words.len()
    {
        and_into(&mut both[from..to], &lists.others[from..to]);
        put_fold(&both, out);
    }
    if let Ok(mut either) = either
        && either.len() == lists.words.len()
    {
        or_into(&mut either[from..to], &lists.others[from..to]);
        put_fold(&either, out);
    }
}

/// Whether the amount can be added to each number of the part.
fn can_add(numbers: &[i64], from: usize, to: usize, amount: i64) -> bool
    requires order { from ≤ to }
    requires room { to ≤ length numbers.now }
    ensures { IsTrue result → SumsFit numbers.now from to amount }
{
    for place in from..to {
        if numbers[place].checked_add(amount).is_none() {
            return false;
        }
    }
    true
}

/// Adds an amount to the numbers of a part, and puts them.
fn put_sums(input: &mut Input<'_>, lists: &mut Lists, out: &mut Output) {
    let (from, to) = input.range(lists.numbers.len());
    let amount = input.short();
    if can_add(&lists.numbers, from, to, amount) {
        add_over(&mut lists.numbers, from, to, amount);
        put_number_fold(&lists.numbers, out);
    } else {
        input.refuse();
    }
}

/// Puts the greatest number of a part, and for each bound the first place of a number above it.
fn put_search(input: &mut Input<'_>, lists: &Lists, out: &mut Output) {
    let (from, to) = input.range(lists.numbers.len());
    match max_over(&lists.numbers, from, to) {
        Some(number) => out.next(number as i128),
        None => out.text(" none"),
    }
    for bound in &input.shorts() {
        out.place(first_above(&lists.numbers[..to], from, *bound));
    }
}

/// Puts what is asked of lists.
pub(crate) fn put_lanes(input: &mut Input<'_>, lists: &mut Lists, out: &mut Output) {
    let name = input.word();
    out.text(name);
    match name {
        "words" => lists.words = input.words_of_bits(),
        "others" => lists.others = input.words_of_bits(),
        "numbers" => lists.numbers = input.shorts(),
        "places" => put_places(input, lists, out),
        "bitwise" => put_bitwise(input, lists, out),
        "sums" => put_sums(input, lists, out),
        "search" => put_search(input, lists, out),
        _ => input.refuse(),
    }
}
