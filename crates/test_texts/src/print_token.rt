//! Printing tokens, each behind a space.
use sm_syntax::{Name, Number};
use std::alloc::{AllocError, Global};

/// The tokens so far. Where memory ran out, nothing more is added; so a printer is straight-line code, and the want of memory
/// is told once, at the end.
#[derive(Drop)]
pub struct Output {
    bytes: Vec<u8>,
    fault: Result<(), AllocError>,
}

impl Output {
    /// No token yet.
    pub fn new(alloc: Global) -> Output {
        Output {
            bytes: Vec::new(alloc),
            fault: Ok(()),
        }
    }

    fn add(&mut self, bytes: &[u8]) {
        if self.fault.is_ok() {
            self.fault = self.bytes.extend_from_slice(bytes);
        }
    }

    /// The bytes of all tokens.
    pub fn finish(self) -> Result<Vec<u8>, AllocError> {
        self.fault?;
        Ok(self.bytes)
    }
}

/// Adds a token.
pub fn put(out: &mut Output, token: &[u8]) {
    out.add(b" ");
    out.add(token);
}

pub fn print_name(out: &mut Output, name: &Name) {
    put(out, name.text.as_slice());
}

/// What each digit of a number counts.
const SCALES: [u64; 18] = [
    100_000_000_000_000_000,
    10_000_000_000_000_000,
    1_000_000_000_000_000,
    100_000_000_000_000,
    10_000_000_000_000,
    1_000_000_000_000,
    100_000_000_000,
    10_000_000_000,
    1_000_000_000,
    100_000_000,
    10_000_000,
    1_000_000,
    100_000,
    10_000,
    1_000,
    100,
    10,
    1,
];

pub fn print_number(out: &mut Output, number: &Number) {
    out.add(b" ");
    for scale in SCALES {
        let ahead = number.value.checked_div(scale).unwrap_or(0);
        if ahead > 0 || scale == 1 {
            let digit = u8::try_from(ahead % 10).unwrap_or(0);
            out.add(&[b'0' + digit % 10]);
        }
    }
}
