//! A case: the words, the files and the devices of a run, and what came of it.
use anyhow::{Context, Result, bail};
use sm_base::{MemShelf, MemSink};
use sm_run::run;
use std::alloc::{AllocError, Global};
use test_tables::Entry;

/// How many bytes a sink takes, in all and at a put, where a case doesn't say.
const AMPLE: usize = 100_000;

const NO_MEMORY: &str = "memory ran out";

/// A file of the shelf.
#[derive(Debug, Drop)]
struct NamedFile {
    name: String,
    bytes: Vec<u8>,
}

/// What came of a run.
#[derive(Debug, Drop)]
pub struct Outcome {
    pub status: u8,
    pub put: Vec<u8>,
    pub aside: Vec<u8>,
}

/// How a sink behaves.
#[derive(Debug, Drop)]
struct Device {
    room: usize,
    most: usize,
    failing_puts: Vec<u64>,
}

/// A case.
#[derive(Debug, Drop)]
pub struct Case {
    words: Vec<String>,
    files: Vec<NamedFile>,
    out: Device,
    aside: Device,
    failing_fetches: Vec<u64>,
    outcome: Option<Outcome>,
}

/// The numbers of a text.
fn numbers_of(alloc: Global, text: &str) -> Result<Vec<u64>> {
    let mut numbers = Vec::new(alloc);
    for word in text.split_whitespace() {
        numbers.push(word.parse::<u64>()?)?;
    }
    Ok(numbers)
}

/// The words of a text.
fn words_of(alloc: Global, text: &str) -> Result<Vec<String>, AllocError> {
    let mut words = Vec::new(alloc);
    for word in text.split_whitespace() {
        words.push(String::from_str(alloc, word)?)?;
    }
    Ok(words)
}

impl Device {
    /// A sink that never fails while it has ample room.
    fn new(alloc: Global) -> Device {
        Device {
            room: AMPLE,
            most: AMPLE,
            failing_puts: Vec::new(alloc),
        }
    }

    fn sink(&self, alloc: Global) -> Result<MemSink> {
        MemSink::new(alloc, self.room, self.most, &self.failing_puts)
            .ok()
            .context(NO_MEMORY)
    }
}

impl Case {
    /// A case without words and files, whose devices never fail.
    pub fn new(alloc: Global) -> Case {
        Case {
            words: Vec::new(alloc),
            files: Vec::new(alloc),
            out: Device::new(alloc),
            aside: Device::new(alloc),
            failing_fetches: Vec::new(alloc),
            outcome: None,
        }
    }

    fn add_file(&mut self, alloc: Global, name: &str, bytes: &[u8]) -> Result<(), AllocError> {
        let name = String::from_str(alloc, name)?;
        let bytes = Vec::from_slice(alloc, bytes)?;
        self.files.push(NamedFile { name, bytes })?;
        Ok(())
    }

    /// The shelf with the case's files.
    fn shelf(&self, alloc: Global) -> Result<MemShelf> {
        let mut shelf = MemShelf::new(alloc, &self.failing_fetches)
            .ok()
            .context(NO_MEMORY)?;
        for file in self.files.iter() {
            shelf
                .add(file.name.as_str(), &file.bytes)
                .ok()
                .context(NO_MEMORY)?;
        }
        Ok(shelf)
    }

    /// Runs the words.
    fn run(&self, alloc: Global) -> Result<Outcome> {
        let mut shelf = self.shelf(alloc)?;
        let mut out = self.out.sink(alloc)?;
        let mut aside = self.aside.sink(alloc)?;
        let status = run(alloc, &self.words, &mut shelf, &mut out, &mut aside);
        let put = Vec::from_slice(alloc, out.written())?;
        let aside = Vec::from_slice(alloc, aside.written())?;
        Ok(Outcome { status, put, aside })
    }

    /// What comes of the words; they are run where they haven't been.
    pub fn outcome(&mut self, alloc: Global) -> Result<&Outcome> {
        if self.outcome.is_none() {
            self.outcome = Some(self.run(alloc)?);
        }
        match &self.outcome {
            Some(outcome) => Ok(outcome),
            None => bail!("nothing was run"),
        }
    }

    /// Adds what the words put as a file.
    fn keep(&mut self, alloc: Global, name: &str) -> Result<()> {
        let outcome = self.run(alloc)?;
        self.add_file(alloc, name, &outcome.put)?;
        Ok(())
    }

    /// Adds what the words put aside as a file.
    fn keep_aside(&mut self, alloc: Global, name: &str) -> Result<()> {
        let outcome = self.run(alloc)?;
        self.add_file(alloc, name, &outcome.aside)?;
        Ok(())
    }

    /// Takes what an entry says of the case.
    pub fn set(&mut self, alloc: Global, entry: &Entry) -> Result<()> {
        let value = entry.value.as_str();
        match entry.key.as_str() {
            "words" => self.words = words_of(alloc, value)?,
            "word" => self.words.push(String::from_str(alloc, value)?)?,
            "file" => self.add_file(alloc, value, &entry.text)?,
            "room" => self.out.room = value.parse::<usize>()?,
            "most" => self.out.most = value.parse::<usize>()?,
            "puts" => self.out.failing_puts = numbers_of(alloc, value)?,
            "aside_room" => self.aside.room = value.parse::<usize>()?,
            "aside_most" => self.aside.most = value.parse::<usize>()?,
            "aside_puts" => self.aside.failing_puts = numbers_of(alloc, value)?,
            "fetches" => self.failing_fetches = numbers_of(alloc, value)?,
            "keep" => self.keep(alloc, value)?,
            "keep_aside" => self.keep_aside(alloc, value)?,
            other => bail!("{other} is no key of a case"),
        }
        self.outcome = None;
        Ok(())
    }
}
