//! A text that is read from the left, up to the first fault. Behind a fault nothing more is read: what is answered then
//! is of no use, and the fault stays. So a reader is straight-line code, and the fault is asked for once, at its end.
ghost use Rattle.std.specs.Prelude.{◌≡◌, ◌≤◌, ◌^◌, ◌++◌, [], pos, Some, None, Ok, Err, true, false, IsOk, IfSome, IfNone, codes, length};
ghost use Rattle.std.specs.List.{prefix_len};
ghost use Rattle.sm_base.specs.Whole.{whole_text};
ghost use Rattle.sm_step.specs.Reading.{is_digit, begins_with_digit, whole_length, whole_in, number_in, natural_in, narrow_in, rest_behind, rest_behind_none, end_in};
ghost use Rattle.sm_step.specs.Taking.{failed, Accepts, Passes, Takes};
ghost use Rattle.sm_step.specs.declared.refusal.LineRefusal.TheVariants.{BadLine, OutOfMemory as NoMemory};

use crate::refusal::LineRefusal;
use sm_base::read_whole;
use std::marker::Model;

/// The rest of a text, or the first fault. Contracts see the bytes that are still to come, or the fault.
#[derive(Drop)]
pub(crate) struct Cursor<'a> {
    rest: &'a [u8],
    fault: Option<LineRefusal>,
}

impl<'a> Model for Cursor<'a> {
    ghost use Rattle.sm_step.specs.Taking.{Place, place};

    ghost Value = { Place };

    ghost view = { λ r. place r.fault r.rest.now };
}

/// How many of the first bytes are digits.
#[tactic(auto, using(crate::proofs::Numbers::digits_within))]
fn digits_length(bytes: &[u8]) -> usize
    ensures value { result ≡ prefix_len is_digit bytes.now }
    ensures within { result ≤ length bytes.now }
{
    bytes.iter().take_while(|b| b.is_ascii_digit()).count()
}

/// How many of the first bytes are a sign and digits.
fn whole_length(bytes: &[u8]) -> usize
    ensures value { result ≡ whole_length bytes.now }
    ensures within { result ≤ length bytes.now }
{
    match bytes {
        [b'-', digits @ ..] => 1 + digits_length(digits),
        _ => digits_length(bytes),
    }
}

fn begins_with_digit(bytes: &[u8]) -> bool
    ensures { result ≡ begins_with_digit bytes.now }
{
    match bytes {
        [first, ..] => first.is_ascii_digit(),
        [] => false,
    }
}

/// The whole number at the front, and the rest behind it.
fn next_whole(bytes: &[u8]) -> Option<(i128, &[u8])>
    ensures found { IfSome result (λ r. bytes.now ≡ whole_text r.0 ++ r.1.now) }
    ensures some { IfSome result (λ r. whole_in bytes.now ≡ Some (r.0, r.1.now)) }
    ensures none { IfNone result (whole_in bytes.now ≡ None) }
{
    let (front, rest) = bytes.split_at(whole_length(bytes));
    let number = read_whole(front)?;
    Some((number, rest))
}

/// What stands behind a `-` that is no number's sign.
#[tactic(auto, unfolding(crate::specs::Reading::rest_behind_none))]
fn behind_none(bytes: &[u8]) -> Option<&[u8]>
    ensures some { IfSome result (λ r. rest_behind_none bytes.now ≡ Some r.now) }
    ensures found { IfSome result (λ r. bytes.now ≡ codes "-" ++ r.now) }
    ensures none { IfNone result (rest_behind_none bytes.now ≡ None) }
{
    let rest = behind(bytes, b"-")?;
    if begins_with_digit(rest) {
        return None;
    }
    Some(rest)
}

/// What stands behind a text.
fn behind<'a>(bytes: &'a [u8], text: &[u8]) -> Option<&'a [u8]>
    ensures some { IfSome result (λ r. rest_behind text.now bytes.now ≡ Some r.now) }
    ensures found { IfSome result (λ r. bytes.now ≡ text.now ++ r.now) }
    ensures none { IfNone result (rest_behind text.now bytes.now ≡ None) }
{
    match bytes.strip_prefix(text) {
        Some(rest) => Some(rest),
        None => None,
    }
}

impl<'a> Cursor<'a> {
    /// At the front of a text.
    pub(crate) fn new(text: &'a [u8]) -> Cursor<'a>
        ensures { result ≡ Ok text.now }
    {
        Cursor {
            rest: text,
            fault: None,
        }
    }

    /// The first fault, if there was one.
    pub(crate) fn fault(&self) -> Option<LineRefusal>
        ensures none { IfNone result (IsOk self.now) }
        ensures some { IfSome result (λ fault. self.now ≡ Err fault) }
    {
        self.fault
    }

    /// The text is no line.
    pub(crate) fn refuse(&mut self)
        ensures { self.new ≡ failed BadLine self.old }
    {
        if self.fault.is_none() {
            self.fault = Some(LineRefusal::BadLine);
        }
    }

    /// Memory ran out.
    pub(crate) fn run_out(&mut self)
        ensures { self.new ≡ failed NoMemory self.old }
    {
        if self.fault.is_none() {
            self.fault = Some(LineRefusal::OutOfMemory);
        }
    }

    /// Goes on behind what a front passed over.
    fn go_on(&mut self, rest: Option<&'a [u8]>) -> bool
        requires { IsOk self.old }
        ensures some { IfSome rest.entry (λ r. (result ≡ true) × (self.new ≡ Ok r.now)) }
        ensures none { IfNone rest.entry ((result ≡ false) × (self.new ≡ self.old)) }
    {
        match rest {
            Some(rest) => {
                self.rest = rest;
                true
            }
            None => false,
        }
    }

    /// Passes over a text, if it comes next.
    pub(crate) fn accept(&mut self, text: &[u8]) -> bool
        ensures { Accepts (rest_behind text.now) text.now self.old result self.new }
    {
        if self.fault.is_some() {
            return false;
        }
        self.go_on(behind(self.rest, text))
    }

    /// Passes over a `-` that is no number's sign, if it comes next.
    pub(crate) fn accept_none(&mut self) -> bool
        ensures { Accepts rest_behind_none (codes "-") self.old result self.new }
    {
        if self.fault.is_some() {
            return false;
        }
        self.go_on(behind_none(self.rest))
    }

    /// Passes over a text.
    pub(crate) fn expect(&mut self, text: &[u8])
        ensures { Passes (rest_behind text.now) text.now self.old self.new }
    {
        if !self.accept(text) {
            self.refuse();
        }
    }

    /// Passes over the end.
    pub(crate) fn end(&mut self)
        ensures { Passes end_in [] self.old self.new }
    {
        if !self.rest.is_empty() {
            self.refuse();
        }
    }

    /// Reads a whole number.
    pub(crate) fn whole(&mut self) -> i128
        ensures { Takes whole_in (whole_text result) self.old result self.new }
    {
        if self.fault.is_some() {
            return 0;
        }
        match next_whole(self.rest) {
            Some((number, rest)) => {
                self.rest = rest;
                number
            }
            None => {
                self.fault = Some(LineRefusal::BadLine);
                0
            }
        }
    }

    /// Reads a number of 32 bits.
    pub(crate) fn number(&mut self) -> u32
        ensures { Takes number_in (whole_text (pos result)) self.old result self.new }
    {
        match u32::try_from(self.whole()) {
            Ok(number) => number,
            Err(_) => {
                self.refuse();
                0
            }
        }
    }

    /// Reads a number of 64 bits.
    pub(crate) fn long_number(&mut self) -> u64
        ensures { Takes (natural_in (2 ^ 64)) (whole_text (pos result)) self.old result self.new }
    {
        match u64::try_from(self.whole()) {
            Ok(number) => number,
            Err(_) => {
                self.refuse();
                0
            }
        }
    }

    /// Reads a signed number of 64 bits.
    #[tactic(auto, unfolding(crate::specs::Reading::narrow_in))]
    pub(crate) fn narrow(&mut self) -> i64
        ensures { Takes narrow_in (whole_text result) self.old result self.new }
    {
        match i64::try_from(self.whole()) {
            Ok(number) => number,
            Err(_) => {
                self.refuse();
                0
            }
        }
    }
}
