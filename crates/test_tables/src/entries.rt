//! The entries of a table.
ghost use Rattle.std.specs.Prelude.{◌<◌};

use std::alloc::{AllocError, Global};

/// A key with its value and its text.
#[derive(Debug, Drop)]
pub struct Entry {
    pub key: String,
    pub value: String,
    pub text: Vec<u8>,
    /// How many lines the text has so far.
    pub lines: u32,
}

impl Entry {
    /// An entry without text, of a line.
    fn new(alloc: Global, line: &str) -> Result<Entry, AllocError> {
        let (key, value) = line.split_once(' ').unwrap_or((line, ""));
        let key = String::from_str(alloc, key)?;
        let value = String::from_str(alloc, value)?;
        Ok(Entry {
            key,
            value,
            text: Vec::new(alloc),
            lines: 0,
        })
    }

    /// Adds a line to the text.
    fn add_line(&mut self, line: &str) -> Result<(), AllocError> {
        if self.lines > 0 {
            self.text.push(b'\n')?;
        }
        self.lines = self.lines.saturating_add(1);
        self.text.extend_from_slice(line.as_bytes())
    }

    /// Adds the bytes that pairs of digits write. A digit that is none counts as 0.
    fn add_bytes(&mut self, digits: &str) -> Result<(), AllocError> {
        for pair in digits.as_bytes().chunks_exact(2) {
            if let [high, low] = pair {
                self.text.push(byte_of(*high, *low))?;
            }
        }
        Ok(())
    }

    /// Adds bytes as often as a count says; not at all where there is no count.
    fn add_copies(&mut self, count: &str, digits: &str) -> Result<(), AllocError> {
        for _ in 0..count.parse::<u32>().unwrap_or(0) {
            self.add_bytes(digits)?;
        }
        Ok(())
    }

    /// Adds what a line behind two spaces says.
    fn add(&mut self, line: &str) -> Result<(), AllocError> {
        match line.split_once(' ') {
            Some(("|", text)) => self.add_line(text),
            Some(("x", digits)) => self.add_bytes(digits),
            Some(("*", copies)) => {
                let (count, digits) = copies.split_once(' ').unwrap_or((copies, ""));
                self.add_copies(count, digits)
            }
            _ => Ok(()),
        }
    }
}

/// The value of a hexadecimal digit; 0 of any other byte.
fn digit_of(byte: u8) -> u8
    ensures { result < 16 }
{
    match byte {
        b'0'..=b'9' => byte - b'0',
        b'a'..=b'f' => byte - b'a' + 10,
        _ => 0,
    }
}

/// The byte of two hexadecimal digits.
fn byte_of(high: u8, low: u8) -> u8 {
    digit_of(high) * 16 + digit_of(low)
}

/// The entries of a table, in their order.
///
/// # Errors
///
/// `AllocError`, for want of memory.
pub fn entries_of(alloc: Global, table: &str) -> Result<Vec<Entry>, AllocError> {
    let mut entries: Vec<Entry> = Vec::new(alloc);
    for line in table.lines() {
        match line.strip_prefix("  ") {
            Some(text) => {
                if let Some(mut entry) = entries.pop() {
                    entry.add(text)?;
                    entries.push(entry)?;
                }
            }
            None if line.is_empty() => {}
            None => entries.push(Entry::new(alloc, line)?)?,
        }
    }
    Ok(entries)
}
