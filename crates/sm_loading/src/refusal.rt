//! Why the files of a model aren't loaded.
use sm_data::{Counted, DataCause};

/// Why the files of a model aren't loaded.
#[derive(Clone, Copy, Debug, PartialEq, Eq)]
pub enum LoadRefusal {
    /// The shelf failed.
    ReadFault,
    /// There are more data files than may be (`Files`), a file has more bytes than it may have (`File`), a bracket of
    /// the model is opened too deep (`Nesting`), or a number of a data file is too large (`Entry`).
    Limit {
        what: Counted,
        found: i128,
        bound: i128,
    },
    /// The text of the model file is no model. This is the place of its first bad token.
    Syntax {
        line: u32,
        column: u32,
    },
    /// A data file is refused. `file` is its number among the data files; the first is 0.
    Data {
        file: usize,
        cause: DataCause,
    },
    /// Memory ran out.
    OutOfMemory,
}
