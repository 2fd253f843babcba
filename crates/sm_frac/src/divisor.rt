//! Greatest common divisors, and numbers in lowest terms.
ghost use Rattle.std.specs.Prelude.{◌≡◌, ℕ, ◌*◌, ◌<◌, ◌≤◌, ◌%◌, ◌^◌, ◌<ℤ◌, pos, unsigned_abs, ◌*ℤ◌, ◌↔◌, IsTrue, int_div};
ghost use Rattle.std.specs.Int.{IsGcd, trailing_zeros, w128, w64};
ghost use Rattle.sm_frac.specs.Lowest.{IsLowest, LowestTerms};

/// The greatest number of 64 bits. Numbers up to it take the short ways, which need no arithmetic of 128 bits.
const NARROW: u128 = 0xFFFF_FFFF_FFFF_FFFF;

/// What is left of a number after it is halved as often as it is even.
fn odd_part_narrow(number: u64) -> u64
    requires { 0 < number }
    ensures same { number ≡ result * 2 ^ trailing_zeros w64 number }
    ensures odd { result % 2 ≡ 1 }
{
    number >> number.trailing_zeros()
}

/// The same of a number of 128 bits.
fn odd_part(number: u128) -> u128
    requires { 0 < number }
    ensures same { number ≡ result * 2 ^ trailing_zeros w128 number }
    ensures odd { result % 2 ≡ 1 }
{
    number >> number.trailing_zeros()
}

/// The greatest common divisor by the binary algorithm (J. Stein, "Computational problems associated with Racah algebra",
/// 1967). The lesser of two odd numbers and their difference have the same common divisors, and so has its odd part.
fn gcd_narrow(odd: u64, other: u64) -> u64
    requires { odd % 2 ≡ 1 }
    ensures { IsGcd odd other result }
{
    let mut x = odd;
    let mut y = other;
    while y != 0 {
        let part = odd_part_narrow(y);
        y = x.abs_diff(part);
        x = x.min(part);
    }
    x
}

/// The greatest common divisor of an odd number of 64 bits and any other. A wider one is first divided by the odd one.
fn gcd_beside(odd: u128, other: u128) -> u128
    requires odd { odd % 2 ≡ 1 }
    requires narrow { odd < 2 ^ 64 }
    ensures { IsGcd odd other result }
{
    let rest = if other <= NARROW { other } else { other % odd };
    gcd_narrow(odd as u64, rest as u64) as u128
}

/// The greatest common divisor by the binary algorithm, which goes on in 64 bits as soon as one number fits them.
fn gcd_odd(odd: u128, other: u128) -> u128
    requires { odd % 2 ≡ 1 }
    ensures { IsGcd odd other result }
{
    let mut x = odd;
    let mut y = other;
    while x > NARROW && y > NARROW {
        let part = odd_part(y);
        y = x.abs_diff(part);
        x = x.min(part);
    }
    if x <= NARROW {
        gcd_beside(x, y)
    } else if y == 0 {
        x
    } else {
        gcd_beside(odd_part(y), x)
    }
}

/// The greatest common divisor. That of 0 and a number is the number.
pub fn gcd(a: u128, b: u128) -> u128
    ensures { IsGcd a b result }
{
    if a == 1 || b == 1 {
        1
    } else if a == 0 {
        b
    } else if b == 0 {
        a
    } else {
        let twos = a.trailing_zeros().min(b.trailing_zeros());
        gcd_odd(odd_part(a), odd_part(b)) << twos
    }
}

/// The quotient by a divisor, rounded toward zero.
fn quotient_of(number: i128, divisor: u128) -> i128
    requires above { 0 < divisor }
    requires small { divisor < 2 ^ 127 }
    ensures { result ≡ int_div number (pos divisor) }
{
    if divisor == 1 {
        return number;
    }
    match (i64::try_from(number), i64::try_from(divisor)) {
        (Ok(narrow), Ok(by)) => (narrow / by) as i128,
        _ => number / divisor as i128,
    }
}

/// Two numbers over a common divisor, and that divisor.
#[derive(Clone, Copy)]
pub(crate) struct Reduced {
    pub(crate) n: i128,
    pub(crate) d: i128,
    pub(crate) divisor: u128,
}

/// n/d in lowest terms. `shared` is a number whose common divisors with n are those of d, as d itself is: where the caller
/// knows a lesser one, the divisor is found sooner, and at once where it is 1.
pub(crate) fn lowest_terms_by(n: i128, d: i128, shared: u128) -> Reduced
    requires above { pos 0 <ℤ d }
    requires enough { (k : ℕ) → IsGcd (unsigned_abs n) shared k → IsGcd (unsigned_abs n) (unsigned_abs d) k }
    ensures terms { LowestTerms n d result.n result.d }
    ensures smaller { unsigned_abs result.n ≤ unsigned_abs n }
    ensures whole { result.n *ℤ pos result.divisor ≡ n }
{
    let divisor = gcd(n.unsigned_abs(), shared);
    Reduced {
        n: quotient_of(n, divisor),
        d: quotient_of(d, divisor),
        divisor,
    }
}

/// n/d in lowest terms.
pub(crate) fn lowest_terms(n: i128, d: i128) -> Reduced
    requires { pos 0 <ℤ d }
    ensures terms { LowestTerms n d result.n result.d }
    ensures smaller { unsigned_abs result.n ≤ unsigned_abs n }
    ensures whole { result.n *ℤ pos result.divisor ≡ n }
{
    lowest_terms_by(n, d, d.unsigned_abs())
}

/// Whether the two numbers have no common divisor but 1.
pub(crate) fn is_lowest(n: i128, d: i128) -> bool
    requires { pos 0 <ℤ d }
    ensures { IsTrue result ↔ IsLowest n d }
{
    gcd(n.unsigned_abs(), d.unsigned_abs()) == 1
}
