//! Why a data file is refused.
use std::alloc::{AllocError, AllocFailed};
use thiserror::Error;

/// What is wrong with a data file.
#[derive(Clone, Copy, Debug, PartialEq, Eq)]
pub enum DataCause {
    /// The file ends neither in `.toml` nor in `.csv`, or a table would have a name that is none.
    Name,
    /// The bytes are no TOML document.
    Toml,
    /// The records have different lengths.
    Csv,
    /// A value is neither a whole number, nor an array of them, nor an array of such arrays of one length.
    Shape,
    /// An earlier file gave the name.
    Doubled,
}

/// What the limits of models and data count or measure.
#[derive(Clone, Copy, Debug, PartialEq, Eq)]
pub enum Counted {
    File,
    Files,
    Nesting,
    Size,
    Tuples,
    Value,
    Coefficient,
    Bound,
    Entry,
    Variables,
    Width,
    Widths,
    Constraints,
    Terms,
    Total,
    Clauses,
    Tasks,
    Horizon,
    Items,
    Groups,
    Capacity,
    Reals,
    Realrows,
    Branch,
    Sub,
    Log,
    Objectives,
}

/// Why a data file is refused.
#[derive(Clone, Copy, Debug, PartialEq, Eq, Error)]
pub enum DataRefusal {
    #[error("the data file is refused: {cause:?}")]
    BadData {
        cause: DataCause,
    },
    /// A number is over its limit; `found` is its absolute value, at most 2^127 - 1.
    #[error("{what:?} is {found}, above {bound}")]
    Limit {
        what: Counted,
        found: i128,
        bound: i128,
    },
    #[error("memory ran out")]
    OutOfMemory,
}

impl From<AllocError> for DataRefusal {
    ghost use Rattle.std.specs.Prelude.{◌≡◌};
    ghost use Rattle.sm_data.specs.declared.refusal.DataRefusal.TheVariants.{OutOfMemory};

    ghost from_gives = { λ _ e. e ≡ OutOfMemory };

    fn from(_error: AllocError) -> DataRefusal {
        DataRefusal::OutOfMemory
    }
}

impl<T: Drop> From<AllocFailed<T>> for DataRefusal {
    ghost use Rattle.std.specs.Prelude.{◌≡◌};
    ghost use Rattle.sm_data.specs.declared.refusal.DataRefusal.TheVariants.{OutOfMemory};

    ghost from_gives = { λ _ e. e ≡ OutOfMemory };

    fn from(_error: AllocFailed<T>) -> DataRefusal {
        DataRefusal::OutOfMemory
    }
}
