//! Why a model text has no meaning.
ghost use Rattle.std.specs.Prelude.{◌≡◌};
ghost use Rattle.sm_meaning.specs.declared.refusal.ExpandRefusal.TheVariants.{Meaning};

use sm_data::Counted;
use sm_syntax::Place;
use std::alloc::{AllocError, AllocFailed};
use thiserror::Error;

/// What is wrong at a place of the text.
#[derive(Clone, Copy, Debug, PartialEq, Eq)]
pub enum Wrong {
    /// A name isn't known.
    Unknown,
    /// A name is declared or bound that is known, or a word of a tag stands twice.
    Doubled,
    /// A wrong number of indices, a set in the place of a number, or another name in the place of an index set.
    Shape,
    /// An index lies outside its set or table.
    Index,
    /// A whole number is needed, and some variable matters.
    Whole,
    /// In two factors of a product some variable matters.
    Linear,
    /// A single variable is needed.
    Variable,
    /// A variable of this kind can't stand here.
    Kind,
    /// A number below 0 where there can be none, a domain without a value, or lists of different lengths.
    Value,
    /// A real variable stands in constraints of a subproblem, and in others.
    Benders,
}

/// Why a model text isn't expanded.
#[derive(Clone, Copy, Debug, PartialEq, Eq, Error)]
pub enum ExpandRefusal {
    /// What is wrong, and where. Lines and columns count from 1, columns in bytes.
    #[error("{line}:{column}: {what:?}")]
    Meaning {
        line: u32,
        column: u32,
        what: Wrong,
    },
    /// A number or a count is over its limit. A number is told itself, and for a count one more than the limit.
    #[error("{what:?} is {found}, above {bound}")]
    Limit {
        what: Counted,
        found: i128,
        bound: i128,
    },
    #[error("memory ran out")]
    OutOfMemory,
}

impl ExpandRefusal {
    /// This is wrong at this place.
    pub fn at(place: Place, what: Wrong) -> ExpandRefusal
        ensures { result ≡ Meaning place.line place.column what }
    {
        ExpandRefusal::Meaning {
            line: place.line,
            column: place.column,
            what,
        }
    }
}

impl From<AllocError> for ExpandRefusal {
    ghost use Rattle.std.specs.Prelude.{◌≡◌};
    ghost use Rattle.sm_meaning.specs.declared.refusal.ExpandRefusal.TheVariants.{OutOfMemory};

    ghost from_gives = { λ _ e. e ≡ OutOfMemory };

    fn from(_error: AllocError) -> ExpandRefusal {
        ExpandRefusal::OutOfMemory
    }
}

impl<T: Drop> From<AllocFailed<T>> for ExpandRefusal {
    ghost use Rattle.std.specs.Prelude.{◌≡◌};
    ghost use Rattle.sm_meaning.specs.declared.refusal.ExpandRefusal.TheVariants.{OutOfMemory};

    ghost from_gives = { λ _ e. e ≡ OutOfMemory };

    fn from(_error: AllocFailed<T>) -> ExpandRefusal {
        ExpandRefusal::OutOfMemory
    }
}
