//! The words of an entry, read one after the other. A word that is missing or isn't what was to be read is read as 0, and
//! then the entry isn't good.
use sm_flat::{Cmp, Entry, Literal, Sense, Test};

#[derive(Drop)]
pub(crate) struct Words<'a> {
    /// The words that are left, with a blank between each two.
    rest: &'a str,
    is_good: bool,
}

impl<'a> Words<'a> {
    pub(crate) fn new(text: &'a str) -> Words<'a> {
        Words {
            rest: text,
            is_good: true,
        }
    }

    /// Whether all words are read.
    pub(crate) fn is_empty(&self) -> bool {
        self.rest.is_empty()
    }

    /// Whether all that was read was there, and all is read.
    pub(crate) fn is_done(&self) -> bool {
        self.is_good && self.is_empty()
    }

    /// Says whether something went well; where it didn't, the entry isn't good.
    pub(crate) fn note(&mut self, went_well: bool) {
        self.is_good = self.is_good && went_well;
    }

    /// No less than how many words are left.
    pub(crate) fn most(&self) -> usize {
        self.rest.len()
    }

    /// The next word, which is empty where none is left.
    pub(crate) fn word(&mut self) -> &'a str {
        let (word, rest) = self.rest.split_once(' ').unwrap_or((self.rest, ""));
        self.rest = rest;
        word
    }

    /// All that is left.
    pub(crate) fn take_rest(&mut self) -> &'a str {
        std::mem::replace(&mut self.rest, "")
    }

    fn number_in(&mut self, word: &str) -> i64 {
        match word.parse::<i64>() {
            Ok(number) => number,
            Err(_) => {
                self.is_good = false;
                0
            }
        }
    }

    fn var_in(&mut self, word: &str) -> u32 {
        match u32::try_from(self.number_in(word)) {
            Ok(number) => number,
            Err(_) => {
                self.is_good = false;
                0
            }
        }
    }

    pub(crate) fn number(&mut self) -> i64 {
        let word = self.word();
        self.number_in(word)
    }

    pub(crate) fn var(&mut self) -> u32 {
        let word = self.word();
        self.var_in(word)
    }

    fn test(&mut self) -> Test {
        match self.word() {
            "<=" => Test::AtMost,
            ">=" => Test::AtLeast,
            "=" => Test::Equal,
            "!=" => Test::Unequal,
            _ => {
                self.is_good = false;
                Test::Equal
            }
        }
    }

    /// A number that isn't below 0, where a word is left.
    pub(crate) fn var_if_any(&mut self) -> Option<u32> {
        if self.is_empty() {
            None
        } else {
            Some(self.var())
        }
    }

    /// How a row compares.
    pub(crate) fn cmp(&mut self) -> Cmp {
        match self.test() {
            Test::AtMost => Cmp::AtMost,
            Test::AtLeast => Cmp::AtLeast,
            Test::Equal => Cmp::Equal,
            Test::Unequal => {
                self.is_good = false;
                Cmp::Equal
            }
        }
    }

    pub(crate) fn sense(&mut self) -> Sense {
        match self.word() {
            "minimise" => Sense::Minimise,
            "maximise" => Sense::Maximise,
            "satisfy" => Sense::Satisfy,
            _ => {
                self.is_good = false;
                Sense::Satisfy
            }
        }
    }
}

/// A part of which an entry may have any number.
pub(crate) trait Read {
    fn read(words: &mut Words<'_>) -> Self;
}

impl Read for i64 {
    fn read(words: &mut Words<'_>) -> i64 {
        words.number()
    }
}

/// The number of a variable.
impl Read for u32 {
    fn read(words: &mut Words<'_>) -> u32 {
        words.var()
    }
}

/// A variable's number, a colon and a coefficient.
impl Read for (u32, i64) {
    fn read(words: &mut Words<'_>) -> (u32, i64) {
        let (var, coefficient) = words.word().split_once(':').unwrap_or(("", ""));
        (words.var_in(var), words.number_in(coefficient))
    }
}

/// A variable's number, a test and a bound.
impl Read for Literal {
    fn read(words: &mut Words<'_>) -> Literal {
        Literal {
            var: words.var(),
            test: words.test(),
            bound: words.number(),
        }
    }
}

/// A number, or `v` and a variable's number.
impl Read for Entry {
    fn read(words: &mut Words<'_>) -> Entry {
        let word = words.word();
        match word.strip_prefix("v") {
            Some(var) => Entry::Variable(words.var_in(var)),
            None => Entry::Number(words.number_in(word)),
        }
    }
}
