//! Data files: tables of whole numbers with a name, from TOML and from comma-separated fields.
//!
//! [`Tables`] keeps the tables of the files that were added. A file is refused with its first cause, and then the
//! tables are as before.
#![tactic(auto)]

ghost use Rattle.std.specs.Prelude.{◌≡◌, ◌≢◌, ℕ, List, Result, Err};
ghost use Rattle.sm_data.specs.declared.refusal.DataRefusal.{DataRefusal};
ghost use Rattle.sm_data.specs.declared.refusal.DataRefusal.TheVariants.{OutOfMemory};
ghost use Rattle.sm_data.specs.Documents.{Entry};
ghost use Rattle.sm_data.specs.Files.{Answers, FileComesTo, told_by};

mod documents;
mod numbers;
mod paths;
mod records;
mod refusal;
mod table;
mod tables;

pub use refusal::{Counted, DataCause, DataRefusal};
pub use table::Table;
pub use tables::Tables;

/// A law: a file comes to one outcome. So what a call tells that has the memory depends on the path, the bytes and the
/// tables before it, and on nothing else.
pub fn one_outcome()
    ensures file { (path bytes : List ℕ) (known : List Entry) (a b : Result (List Entry) DataRefusal) →
        FileComesTo path bytes known a → FileComesTo path bytes known b → a ≡ b }
    ensures calls { (path bytes : List ℕ) (known after later : List Entry) (a b : Result (Unit {0}) DataRefusal) →
        Answers (FileComesTo path bytes known) after a → Answers (FileComesTo path bytes known) later b →
        a ≢ Err OutOfMemory → b ≢ Err OutOfMemory → told_by after a ≡ told_by later b }
{}
