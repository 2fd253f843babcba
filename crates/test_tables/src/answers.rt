//! What the cases answered, as text.
ghost use Rattle.std.specs.Prelude.{◌≡◌, ◌++◌, [], codes, decimal, OnOk};
ghost use Rattle.test_tables.specs.Answers.{margin, indented};

use std::alloc::{AllocError, Global};
use std::marker::Model;

/// The text of all cases, and the lines that the present one has answered since they were put last.
#[derive(Drop)]
pub struct Answers {
    alloc: Global,
    text: Vec<u8>,
    lines: Vec<u8>,
}

impl Model for Answers {
    ghost use Rattle.test_tables.specs.Answers.{Answered};

    ghost Value = { Answered };

    ghost view = { λ a. record { text = a.text.items; lines = a.lines.items } };
}

impl Answers {
    pub fn new(alloc: Global) -> Answers
        ensures { result ≡ record { text = []; lines = [] } }
    {
        Answers {
            alloc,
            text: Vec::new(alloc),
            lines: Vec::new(alloc),
        }
    }

    /// All that is to be put.
    pub fn text(&self) -> &[u8]
        ensures { result.now ≡ self.now.text }
    {
        &self.text
    }

    /// Begins a case, behind an empty line.
    pub fn begin(&mut self, name: &str) -> Result<(), AllocError>
        ensures { OnOk result (self.new ≡ record { text = self.old.text ++ codes "\ncase " ++ name.now ++ codes "\n"; lines = [] }) }
    {
        self.lines.clear();
        self.text.extend_from_slice(b"\ncase ")?;
        self.text.extend_from_slice(name.as_bytes())?;
        self.text.extend_from_slice(b"\n")
    }

    /// Adds a line to the answers of the case.
    pub fn add(&mut self, line: &[u8]) -> Result<(), AllocError>
        ensures { OnOk result (self.new ≡ record { text = self.old.text; lines = self.old.lines ++ margin ++ line.now ++ codes "\n" }) }
    {
        self.lines.extend_from_slice(b"  | ")?;
        self.lines.extend_from_slice(line)?;
        self.lines.extend_from_slice(b"\n")
    }

    /// Puts the answers of the case so far.
    pub fn put(&mut self) -> Result<(), AllocError>
        ensures { OnOk result (self.new ≡ record { text = self.old.text ++ codes "answer\n" ++ self.old.lines; lines = [] }) }
    {
        self.text.extend_from_slice(b"answer\n")?;
        self.text.extend_from_slice(&self.lines)?;
        self.lines.clear();
        Ok(())
    }

    /// Puts a key with its number.
    pub fn put_number(&mut self, key: &str, number: u64) -> Result<(), AllocError>
        ensures { OnOk result (self.new ≡ record { text = self.old.text ++ key.now ++ codes " " ++ decimal number ++ codes "\n"; lines = self.old.lines }) }
    {
        let digits = format!(in self.alloc; "{number}")?;
        self.text.extend_from_slice(key.as_bytes())?;
        self.text.extend_from_slice(b" ")?;
        self.text.extend_from_slice(digits.as_bytes())?;
        self.text.extend_from_slice(b"\n")
    }

    /// Puts a key with a text below it.
    pub fn put_text(&mut self, key: &str, text: &[u8]) -> Result<(), AllocError>
        ensures { OnOk result (self.new ≡ record { text = self.old.text ++ key.now ++ codes "\n" ++ margin ++ indented text.now ++ codes "\n"; lines = self.old.lines }) }
    {
        self.text.extend_from_slice(key.as_bytes())?;
        self.text.extend_from_slice(b"\n  | ")?;
        self.put_indented(text)?;
        self.text.extend_from_slice(b"\n")
    }

    /// Puts a text with the margin behind each line feed.
    fn put_indented(&mut self, text: &[u8]) -> Result<(), AllocError>
        ensures { OnOk result (self.new ≡ record { text = self.old.text ++ indented text.now; lines = self.old.lines }) }
    {
        for byte in text {
            self.text.push(*byte)?;
            if *byte == b'\n' {
                self.text.extend_from_slice(b"  | ")?;
            }
        }
        Ok(())
    }
}
