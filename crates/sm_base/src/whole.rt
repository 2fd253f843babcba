// Whole numbers as canonical decimal text.
ghost use Rattle.std.specs.Prelude.{◌≡◌, ◌≢◌, ◌<◌, ◌≤◌, ◌-◌, ◌^◌, ◌++◌, ℕ, ℤ, pos, negsuc, Some, FitsSigned, IfSome, IfNone, ◌∷◌, OnOk, OnErr};
ghost use Rattle.std.specs.Fmt.{decimal};
ghost use Rattle.std.specs.Int.{w128};
ghost use Rattle.sm_base.specs.Whole.{whole_text};

use crate::devices::OutOfMemory;
use itoa::Buffer;

// The number whose digits these are, with no leading zero. A text is canonical exactly where it is
// what its number prints as.
fn read_digits(text: &[u8]) -> Option<u128>
    ensures found { IfSome result (λ n. (n < 2 ^ 128) × (text.now ≡ decimal n)) }
    ensures only { (n : ℕ) → n < 2 ^ 128 → text.now ≡ decimal n → result ≡ Some n }
{
    let Ok(text) = str::from_utf8(text) else {
        return None;
    };
    let Ok(number) = text.parse::<u128>() else {
        return None;
    };
    let mut buffer = Buffer::new();
    if buffer.format(number) == text {
        Some(number)
    } else {
        None
    }
}

// The number below 0 of that size, where the size isn't 0 and the number is in range.
fn minus(size: u128) -> Option<i128>
    ensures found { IfSome result (λ z. (0 < size) × (z ≡ negsuc (size - 1))) }
    ensures only { 0 < size → size ≤ 2 ^ 127 → result ≡ Some (negsuc (size - 1)) }
{
    if size == 0 {
        return None;
    }
    match i128::try_from(size - 1) {
        Ok(below) => Some(-1 - below),
        Err(_) => None,
    }
}

// The number that is written by a minus and these digits.
fn read_after_minus(digits: &[u8]) -> Option<i128>
    ensures found { IfSome result (λ z. 45 ∷ digits.now ≡ whole_text z) }
    ensures only { (z : ℤ) → FitsSigned w128 z → 45 ∷ digits.now ≡ whole_text z →
        result ≡ Some z }
{
    let Some(size) = read_digits(digits) else {
        return None;
    };
    minus(size)
}

// The number that is written by these digits.
fn read_plain(digits: &[u8]) -> Option<i128>
    ensures found { IfSome result (λ z. digits.now ≡ whole_text z) }
    ensures only { (n : ℕ) → n < 2 ^ 127 → digits.now ≡ decimal n →
        result ≡ Some (pos n) }
{
    let Some(size) = read_digits(digits) else {
        return None;
    };
    match i128::try_from(size) {
        Ok(number) => Some(number),
        Err(_) => None,
    }
}

/// The number that a canonical decimal text stands for: digits without a leading zero, after a `-`
/// where the number is below 0.
///
/// `None` exactly where no number of `i128` has this text: for another text, as one that is empty
/// or has a `+`, a leading zero or the form `-0`, and for a number outside `i128`.
pub fn read_whole(text: &[u8]) -> Option<i128>
    ensures found { IfSome result (λ z. text.now ≡ whole_text z) }
    ensures only { (z : ℤ) → FitsSigned w128 z → text.now ≡ whole_text z →
        result ≡ Some z }
{
    if text.is_empty() {
        return None;
    }
    if text[0] == b'-' {
        read_after_minus(&text[1..])
    } else {
        read_plain(text)
    }
}

/// Appends the canonical decimal text of a number, the one that `read_whole` takes.
///
/// # Errors
///
/// `OutOfMemory`. Then `into` is as before.
pub fn push_whole(into: &mut Vec<u8>, number: i128) -> Result<(), OutOfMemory>
    ensures ok { OnOk result (into.new.items ≡ into.old.items ++ whole_text number) }
    ensures err { OnErr result (into.new.items ≡ into.old.items) }
{
    let mut buffer = Buffer::new();
    let text = buffer.format(number);
    into.extend_from_slice(text.as_bytes())?;
    Ok(())
}
