//! Fractions in a line.
ghost use Rattle.std.specs.Prelude.{◌≡◌, ◌++◌, ◌≤ℤ◌, pos, codes, Some, None, Err, IfOk, IfSome, OnOk};
ghost use Rattle.sm_base.specs.Whole.{whole_text};
ghost use Rattle.sm_step.specs.PartText.{fraction_text};
ghost use Rattle.sm_step.specs.Fractions.{fraction_of};
ghost use Rattle.sm_step.specs.PartReading.{denominator_in, fraction_in};
ghost use Rattle.sm_step.specs.Taking.{failed, Takes, TakesBehind};
ghost use Rattle.sm_step.specs.declared.refusal.LineRefusal.TheVariants.{BadLine};

use crate::cursor::Cursor;
use crate::part::Part;
use sm_base::{OutOfMemory, push_whole};
use sm_frac::Frac;
use std::alloc::Global;

/// The fraction of these parts, if they are in lowest terms and in range.
fn fraction_of(n: i128, d: i128) -> Option<Frac>
    ensures value { result ≡ fraction_of n d }
    ensures parts { IfSome result (λ f. (f.n ≡ n) × (f.d ≡ d)) }
{
    Frac::new(n, d)
}

/// A whole number as a fraction, if it is in range.
fn whole_fraction(n: i128) -> Option<Frac>
    ensures value { result ≡ fraction_of n (pos 1) }
    ensures text { IfSome result (λ f. fraction_text f ≡ whole_text n) }
{
    fraction_of(n, 1)
}

/// A fraction that is no whole number, if it is in lowest terms and in range.
fn proper_fraction(n: i128, d: i128) -> Option<Frac>
    requires { pos 2 ≤ℤ d }
    ensures value { result ≡ fraction_of n d }
    ensures text { IfSome result (λ f. fraction_text f ≡ whole_text n ++ codes "/" ++ whole_text d) }
{
    fraction_of(n, d)
}

/// Appends the one text of a fraction: a whole number, or numerator and denominator.
///
/// # Errors
///
/// `OutOfMemory`. Then `into` may have some of the text.
pub fn push_fraction(into: &mut Vec<u8>, fraction: &Frac) -> Result<(), OutOfMemory>
    ensures { OnOk result (into.new.items ≡ into.old.items ++ fraction_text fraction.now) }
{
    push_whole(into, fraction.n())?;
    if fraction.d() == 1 {
        return Ok(());
    }
    into.extend_from_slice(b"/")?;
    push_whole(into, fraction.d())
}

/// The line is bad; the fraction is any.
fn refused(cursor: &mut Cursor<'_>) -> Frac
    ensures { cursor.new ≡ failed BadLine cursor.old }
{
    cursor.refuse();
    Frac::whole(0)
}

/// Reads the denominator of a fraction that is no whole number.
fn read_denominator(cursor: &mut Cursor<'_>, n: i128) -> Frac
    ensures { TakesBehind (whole_text n ++ codes "/") (denominator_in n) (fraction_text result) cursor.old result cursor.new }
{
    let d = cursor.whole();
    if d < 2 {
        return refused(cursor);
    }
    match proper_fraction(n, d) {
        Some(fraction) => fraction,
        None => refused(cursor),
    }
}

pub(crate) fn read_fraction(cursor: &mut Cursor<'_>) -> Frac
    ensures { Takes fraction_in (fraction_text result) cursor.old result cursor.new }
{
    let n = cursor.whole();
    if cursor.accept(b"/") {
        return read_denominator(cursor, n);
    }
    match whole_fraction(n) {
        Some(fraction) => fraction,
        None => refused(cursor),
    }
}

impl Part for Frac {
    ghost use Rattle.sm_step.specs.PartText.{fraction_text};
    ghost use Rattle.sm_step.specs.PartReading.{fraction_in};

    ghost text = { fraction_text };

    ghost reading = { fraction_in };

    ghost fits = { λ _. Unit {0} };

    fn push(&self, into: &mut Vec<u8>) -> Result<(), OutOfMemory> {
        push_fraction(into, self)
    }

    fn read(_alloc: Global, cursor: &mut Cursor<'_>) -> Frac {
        read_fraction(cursor)
    }

    fn is_in_range(&self) -> bool {
        true
    }
}
