//! Fractions.
use crate::input::Input;
use crate::output::Output;
use sm_frac::{Frac, RangePassed, gcd, lcm_52};
use std::cmp::Ordering;

/// Puts what an operation answers.
fn put_result(answer: Result<Frac, RangePassed>, out: &mut Output) {
    match answer {
        Ok(fraction) => out.fraction(fraction),
        Err(passed) => out.passed(passed),
    }
}

/// Puts the quotient, where the divisor isn't 0.
fn put_quotient(input: &mut Input<'_>, out: &mut Output) {
    let left = input.fraction();
    let right = input.fraction();
    if right.n() == 0 {
        input.refuse();
        return;
    }
    put_result(left.over(right), out);
}

fn put_order(left: Frac, right: Frac, out: &mut Output) {
    out.text(match left.compare(right) {
        Ordering::Less => " less",
        Ordering::Equal => " equal",
        Ordering::Greater => " greater",
    });
}

/// Puts the fraction of two parts, or `none`.
fn put_parts(n: i128, d: i128, out: &mut Output) {
    match Frac::new(n, d) {
        Some(fraction) => out.fraction(fraction),
        None => out.text(" none"),
    }
}

/// Puts the least common multiple, where both numbers are from 1 to 2^52.
fn put_multiple(input: &mut Input<'_>, out: &mut Output) {
    let left = input.short();
    let right = input.short();
    if left < 1 || left > 1 << 52 || right < 1 || right > 1 << 52 {
        input.refuse();
        return;
    }
    match lcm_52(left, right) {
        Ok(multiple) => out.next(multiple as i128),
        Err(passed) => out.passed(passed),
    }
}

/// Puts what is asked of fractions.
pub(crate) fn put_fraction(input: &mut Input<'_>, out: &mut Output) {
    let name = input.word();
    out.text(name);
    match name {
        "plus" => put_result(input.fraction().plus(input.fraction()), out),
        "minus" => put_result(input.fraction().minus(input.fraction()), out),
        "times" => put_result(input.fraction().times(input.fraction()), out),
        "over" => put_quotient(input, out),
        "compare" => put_order(input.fraction(), input.fraction(), out),
        "floor" => out.next(input.fraction().floor()),
        "ceil" => out.next(input.fraction().ceil()),
        "new" => put_parts(input.whole(), input.whole(), out),
        "whole" => out.fraction(Frac::whole(input.short())),
        "lcm" => put_multiple(input, out),
        "gcd" => {
            let divisor = gcd(input.bits() as u128, input.bits() as u128);
            out.next(i128::try_from(divisor).unwrap_or(-1));
        }
        _ => input.refuse(),
    }
}
