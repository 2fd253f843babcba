//! How many clauses a formula has, from how many its parts have. Counts add up for `and` and multiply for `or`, and those
//! of a formula and of its negation are found together, so that each part is counted once.
ghost use Rattle.std.specs.Prelude.{◌≡◌, if◌then◌else◌};
ghost use Rattle.sm_clausify.specs.Counting.{literal_counts, true_counts, false_counts, flipped_counts, and_counts, or_counts, implied_counts, equivalent_counts};

/// How many clauses a formula and its negation have; 2^64 - 1 stands for that many and for more. What is made of parts
/// is counted before it is built, and [`counts_compose`](crate::counts_compose) says that the count is right.
#[derive(Clone, Copy)]
pub struct Counts {
    pub plain: u64,
    pub negated: u64,
}

impl Counts {
    /// The counts of a literal.
    pub fn literal() -> Counts
        ensures { result ≡ literal_counts }
    {
        Counts {
            plain: 1,
            negated: 1,
        }
    }

    /// The counts of `all` over nothing, from which [`and`](Counts::and) goes on.
    pub fn all_of_nothing() -> Counts
        ensures { result ≡ true_counts }
    {
        Counts {
            plain: 0,
            negated: 1,
        }
    }

    /// The counts of `any` over nothing, from which [`or`](Counts::or) goes on.
    pub fn any_of_nothing() -> Counts
        ensures { result ≡ false_counts }
    {
        Counts {
            plain: 1,
            negated: 0,
        }
    }

    /// How many clauses the formula has.
    pub fn clauses(self) -> u64
        ensures { result ≡ self.plain }
    {
        self.plain
    }

    /// The count of the formula, or of its negation.
    pub(crate) fn get(self, negated: bool) -> u64
        ensures { result ≡ if negated then self.negated else self.plain }
    {
        if negated { self.negated } else { self.plain }
    }

    /// The counts of the negation.
    pub fn flipped(self) -> Counts
        ensures { result ≡ flipped_counts self }
    {
        Counts {
            plain: self.negated,
            negated: self.plain,
        }
    }

    /// The counts of this formula and that one together.
    pub fn and(self, other: Counts) -> Counts
        ensures { result ≡ and_counts self other }
    {
        Counts {
            plain: self.plain.saturating_add(other.plain),
            negated: self.negated.saturating_mul(other.negated),
        }
    }

    /// The counts of this formula or that one.
    pub fn or(self, other: Counts) -> Counts
        ensures { result ≡ or_counts self other }
    {
        Counts {
            plain: self.plain.saturating_mul(other.plain),
            negated: self.negated.saturating_add(other.negated),
        }
    }

    /// The counts of an implication: this formula implies that one.
    pub fn implies(self, other: Counts) -> Counts
        ensures { result ≡ implied_counts self other }
    {
        self.flipped().or(other)
    }

    /// The counts of an equivalence of the two formulas.
    pub fn iff(self, other: Counts) -> Counts
        ensures { result ≡ equivalent_counts self other }
    {
        self.implies(other).and(other.implies(self))
    }
}
