//! A line of words, read one after the other. What it lacks is read as 0 or as nothing, and then it is no case.
ghost use Rattle.std.specs.Prelude.{◌≤◌};

use sm_base::read_whole;
use sm_certificate::{LpRow, Program};
use sm_frac::Frac;
use sqlite_items::Items;
use std::alloc::Global;
use std::str::SplitWhitespace;

#[derive(Drop)]
pub(crate) struct Input<'a> {
    alloc: Global,
    words: SplitWhitespace<'a>,
    is_case: bool,
}

impl<'a> Input<'a> {
    pub(crate) fn new(alloc: Global, line: &'a str) -> Input<'a> {
        Input {
            alloc,
            words: line.split_whitespace(),
            is_case: true,
        }
    }

    pub(crate) fn alloc(&self) -> Global {
        self.alloc
    }

    /// Says that this is no case.
    pub(crate) fn refuse(&mut self) {
        self.is_case = false;
    }

    /// Whether this was a case, and all of it is read.
    pub(crate) fn is_done(&mut self) -> bool {
        self.is_case && self.words.next().is_none()
    }

    pub(crate) fn word(&mut self) -> &'a str {
        match self.words.next() {
            Some(word) => word,
            None => {
                self.is_case = false;
                ""
            }
        }
    }

    pub(crate) fn whole(&mut self) -> i128 {
        match read_whole(self.word().as_bytes()) {
            Some(number) => number,
            None => {
                self.is_case = false;
                0
            }
        }
    }

    pub(crate) fn short(&mut self) -> i64 {
        match i64::try_from(self.whole()) {
            Ok(number) => number,
            Err(_) => {
                self.is_case = false;
                0
            }
        }
    }

    pub(crate) fn bits(&mut self) -> u64 {
        match u64::try_from(self.whole()) {
            Ok(number) => number,
            Err(_) => {
                self.is_case = false;
                0
            }
        }
    }

    pub(crate) fn size(&mut self) -> usize {
        match usize::try_from(self.whole()) {
            Ok(number) => number,
            Err(_) => {
                self.is_case = false;
                0
            }
        }
    }

    /// A place and a later one, up to the limit.
    pub(crate) fn range(&mut self, limit: usize) -> (usize, usize)
        ensures order { result.0 ≤ result.1 }
        ensures room { result.1 ≤ limit }
    {
        let from = self.size();
        let to = self.size();
        if from <= to && to <= limit {
            return (from, to);
        }
        self.is_case = false;
        (0, 0)
    }

    /// A fraction, by its numerator and its denominator.
    pub(crate) fn fraction(&mut self) -> Frac {
        let n = self.whole();
        let d = self.whole();
        match Frac::new(n, d) {
            Some(number) => number,
            None => {
                self.is_case = false;
                Frac::whole(0)
            }
        }
    }

    pub(crate) fn shorts(&mut self) -> Vec<i64> {
        let mut numbers = Vec::new(self.alloc);
        for _ in 0..self.size() {
            let number = self.short();
            self.is_case &= numbers.push(number).is_ok();
        }
        numbers
    }

    pub(crate) fn words_of_bits(&mut self) -> Vec<u64> {
        let mut words = Vec::new(self.alloc);
        for _ in 0..self.size() {
            let word = self.bits();
            self.is_case &= words.push(word).is_ok();
        }
        words
    }

    pub(crate) fn bytes(&mut self) -> Vec<u8> {
        let mut bytes = Vec::new(self.alloc);
        for _ in 0..self.size() {
            let byte = u8::try_from(self.bits()).unwrap_or(0);
            self.is_case &= bytes.push(byte).is_ok();
        }
        bytes
    }

    pub(crate) fn wholes(&mut self) -> Vec<i128> {
        let mut numbers = Vec::new(self.alloc);
        for _ in 0..self.size() {
            let number = self.whole();
            self.is_case &= numbers.push(number).is_ok();
        }
        numbers
    }

    pub(crate) fn fractions(&mut self) -> Vec<Frac> {
        let mut fractions = Vec::new(self.alloc);
        for _ in 0..self.size() {
            let fraction = self.fraction();
            self.is_case &= fractions.push(fraction).is_ok();
        }
        fractions
    }

    /// The terms of a row: of each the column and the number.
    fn terms(&mut self) -> Vec<(u32, i64)> {
        let mut terms = Vec::new(self.alloc);
        for _ in 0..self.size() {
            let column = u32::try_from(self.bits()).unwrap_or(u32::MAX);
            let number = self.short();
            self.is_case &= terms.push((column, number)).is_ok();
        }
        terms
    }

    /// The rows of a program: of each 1 for an equality, the bound and the terms.
    fn rows(&mut self) -> Vec<LpRow> {
        let mut rows = Vec::new(self.alloc);
        for _ in 0..self.size() {
            let equal = self.whole() == 1;
            let bound = self.whole();
            let terms = Items::from_vec(self.terms());
            let row = LpRow {
                terms,
                equal,
                bound,
            };
            self.is_case &= rows.push(row).is_ok();
        }
        rows
    }

    /// A program: of each column the two ends and the cost, and then the rows.
    pub(crate) fn program(&mut self) -> Program {
        let mut columns = Vec::new(self.alloc);
        let mut cost = Vec::new(self.alloc);
        for _ in 0..self.size() {
            let least = self.short();
            let greatest = self.short();
            self.is_case &= columns.push((least, greatest)).is_ok();
            let number = self.short();
            self.is_case &= cost.push(number).is_ok();
        }
        let rows = self.rows();
        Program {
            columns: Items::from_vec(columns),
            rows: Items::from_vec(rows),
            cost: Items::from_vec(cost),
        }
    }
}
