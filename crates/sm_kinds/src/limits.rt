//! The limits of a model, each named once.
ghost use Rattle.std.specs.Prelude.{◌≡◌, ◌≤◌, ◌+◌, ◌↔◌, IsTrue, IsSome, IfSome, All, unsigned_abs};
ghost use Rattle.sm_kinds.specs.Limits.{IsSmall, IsAmount};

/// The greatest absolute value of a coefficient, bound, table entry or declared value.
pub const GREATEST_NUMBER: u64 = 2_147_483_648;
/// The greatest absolute value of the bound of a clause's literal, which may be the complement of one that a text has.
pub const GREATEST_CLAUSE_BOUND: u64 = 2_147_483_649;
/// Variables of a model.
pub const MOST_VARIABLES: usize = 4096;
/// From the least to the greatest declared value of a set variable, both counted.
pub const MOST_WIDTH: u64 = 4096;
/// The widths of all set variables together.
pub const MOST_WIDTHS: u64 = 262_144;
/// Constraints of a model.
pub const MOST_CONSTRAINTS: usize = 16384;
/// Terms, picks or listed variables of one constraint.
pub const MOST_TERMS: usize = 1024;
/// Members of one table.
pub const MOST_MEMBERS: usize = 4096;
/// Terms, literals and members of the tables of all constraints.
pub const MOST_TOTAL: u64 = 4_194_304;
/// Clauses of one formula.
pub const MOST_CLAUSES: u64 = 4096;
/// Tasks of one constraint.
pub const MOST_TASKS: usize = 256;
/// From the least declared start of a constraint's tasks to the greatest declared end.
pub const MOST_HORIZON: i128 = 65536;
/// Items of one packing.
pub const MOST_ITEMS: usize = 256;
/// Groups of one packing.
pub const MOST_GROUPS: usize = 64;
/// The capacity of a packing's group.
pub const MOST_CAPACITY: i64 = 16384;
/// Real variables.
pub const MOST_REALS: usize = 400;
/// Linear and `when` constraints that hold a real variable.
pub const MOST_REAL_ROWS: usize = 400;
/// The number by which a tag says when a constraint is split.
pub const GREATEST_BRANCH: u32 = 1_000_000;
/// The number of a subproblem.
pub const GREATEST_SUB: u32 = 4095;
/// Goals of a model.
pub const MOST_GOALS: usize = 4;
/// Terms of a goal.
pub const MOST_GOAL_TERMS: usize = 4096;

/// Whether the number is within 2^31 in absolute value.
pub fn is_small(number: i64) -> bool
    ensures { IsTrue result ↔ IsSmall number }
{
    number.unsigned_abs() <= GREATEST_NUMBER
}

/// Whether all numbers are within 2^31 in absolute value.
pub fn are_small(numbers: &[i64]) -> bool
    ensures { IsTrue result ↔ All IsSmall numbers.now }
{
    numbers.iter().all(|n| is_small(*n))
}

/// Whether the number is from 0 to 2^31.
pub(crate) fn is_amount(number: i64) -> bool
    ensures { IsTrue result ↔ IsAmount number }
{
    0 <= number && is_small(number)
}

/// What is left of a count after taking some away; none where there isn't as much.
pub fn left_after(left: u64, count: usize) -> Option<u64>
    ensures variant { IsSome result ↔ (count ≤ left) }
    ensures value { IfSome result (λ r. r + count ≡ left) }
{
    left.checked_sub(count as u64)
}
