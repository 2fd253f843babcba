//! The tables of the data files of a model.
ghost use Rattle.std.specs.Prelude.{◌≡◌, ◌↔◌, ◌++◌, ◌∷◌, [], List, String, false, map, length, take, slice_get, ◌⊎◌, IsTrue, IfErr, IfOk, IfSome, OnOk, OnErr, Err, option_map, string_bytes};
ghost use Rattle.std.specs.declared.alloc.Global.{Global};
ghost use Rattle.toml.specs.Data.{Members};
ghost use Rattle.toml.specs.View.{table_view, view};
ghost use Rattle.sm_data.specs.declared.table.Table.{Table};
ghost use Rattle.sm_data.specs.declared.refusal.DataCause.TheVariants as cause;
ghost use Rattle.sm_data.specs.declared.refusal.DataRefusal.TheVariants.{OutOfMemory};
ghost use Rattle.sm_words.specs.Names.{is_name};
ghost use Rattle.sm_data.specs.Numbers.{Gives, bad};
ghost use Rattle.sm_data.specs.Documents.{IsDocument, is_known, entry_in, with_entry, entries_with};
ghost use Rattle.sm_data.specs.Files.{entry_view, table_of, Answers, DocumentComesTo, NamedComesTo, RecordsComeTo, FileComesTo};

use crate::documents::table;
use crate::paths::{file_name, stem_of};
use crate::records::{grid, rows};
use crate::refusal::{DataCause, DataRefusal};
use crate::table::Table;
use indexmap::IndexMap;
use sm_words::{is_name, name_text};
use std::alloc::Global;
use std::marker::Model;
use toml::Value;

/// Adds a table with a new name.
fn insert(
    entries: &mut IndexMap<String, Table>,
    name: String,
    table: Table,
) -> Result<(), DataRefusal>
    requires { is_known (string_bytes name) (map entry_view entries.old.entries) ≡ false }
    ensures ok { OnOk result (entries.new.entries ≡ entries.old.entries ++ (name, table) ∷ []) }
    ensures err { OnErr result (entries.new.entries ≡ entries.old.entries) }
    ensures memory { IfErr result (λ e. e ≡ OutOfMemory) }
{
    if entries.insert(name, table).is_err() {
        return Err(DataRefusal::OutOfMemory);
    }
    Ok(())
}

/// Adds the table of a key and its value.
fn add_member(
    alloc: Global,
    entries: &mut IndexMap<String, Table>,
    name: String,
    value: &Value,
) -> Result<(), DataRefusal>
    ensures gives { Gives (λ _. map entry_view entries.new.entries) result (with_entry (map entry_view entries.old.entries)
        (entry_in (string_bytes name) (view value.now) (map entry_view entries.old.entries))) }
    ensures front { (more : List (String Global × Table)) × (entries.new.entries ≡ entries.old.entries ++ more) }
{
    if !is_name(name.as_bytes()) {
        return Err(DataRefusal::BadData {
            cause: DataCause::Name,
        });
    }
    if entries.contains_key(name.as_str()) {
        return Err(DataRefusal::BadData {
            cause: DataCause::Doubled,
        });
    }
    let table = table(alloc, value)?;
    match insert(entries, name, table) {
        Ok(()) => Ok(()),
        Err(error) => Err(error),
    }
}

/// Adds the tables of a document, as far as they go.
fn add_members(
    alloc: Global,
    entries: &mut IndexMap<String, Table>,
    mut table: toml::Table,
) -> Result<(), DataRefusal>
    ensures gives { Gives (λ _. map entry_view entries.new.entries) result (entries_with (map entry_view entries.old.entries) (table_view table)) }
    ensures front { (more : List (String Global × Table)) × (entries.new.entries ≡ entries.old.entries ++ more) }
{
    while let Some((name, value)) = table.pop_first() {
        add_member(alloc, entries, name, &value)?;
    }
    Ok(())
}

/// The document that bytes spell.
fn document(alloc: Global, bytes: &[u8]) -> Result<toml::Table, DataRefusal>
    ensures found { IfOk result (λ t. IsDocument bytes.now (table_view t)) }
    ensures none { result ≡ Err (bad cause.Toml) → (ms : Members) → IsDocument bytes.now ms → ⊥ }
    ensures only { IfErr result (λ e. (e ≡ bad cause.Toml) ⊎ (e ≡ OutOfMemory)) }
{
    match toml::table_from_slice(alloc, bytes) {
        Ok(table) => Ok(table),
        Err(error) => {
            if error.is_memory() {
                Err(DataRefusal::OutOfMemory)
            } else {
                Err(DataRefusal::BadData {
                    cause: DataCause::Toml,
                })
            }
        }
    }
}

/// Adds the tables of a TOML file.
fn add_document(
    alloc: Global,
    entries: &mut IndexMap<String, Table>,
    bytes: &[u8],
) -> Result<(), DataRefusal>
    ensures file { Answers (DocumentComesTo bytes.now (map entry_view entries.old.entries)) (map entry_view entries.new.entries) result }
    ensures err { OnErr result (entries.new.entries ≡ entries.old.entries) }
{
    let table = document(alloc, bytes)?;
    let before = entries.len();
    match add_members(alloc, entries, table) {
        Ok(()) => Ok(()),
        Err(error) => {
            entries.truncate(before);
            Err(error)
        }
    }
}

/// Adds the table of records whose name is known to be new.
fn add_rows(
    alloc: Global,
    entries: &mut IndexMap<String, Table>,
    name: &str,
    bytes: &[u8],
) -> Result<(), DataRefusal>
    requires { is_known name.now (map entry_view entries.old.entries) ≡ false }
    ensures file { Answers (RecordsComeTo name.now bytes.now (map entry_view entries.old.entries)) (map entry_view entries.new.entries) result }
    ensures err { OnErr result (entries.new.entries ≡ entries.old.entries) }
{
    let rows = rows(alloc, bytes)?;
    let grid = grid(alloc, rows.as_slice())?;
    let name = String::from_str(alloc, name)?;
    match insert(entries, name, Table::Grid(grid)) {
        Ok(()) => Ok(()),
        Err(error) => Err(error),
    }
}

/// Adds the table of a file of comma-separated fields.
fn add_records(
    alloc: Global,
    entries: &mut IndexMap<String, Table>,
    stem: &[u8],
    bytes: &[u8],
) -> Result<(), DataRefusal>
    ensures file { Answers (NamedComesTo (is_name stem.now) (is_known stem.now (map entry_view entries.old.entries)) stem.now bytes.now (map entry_view entries.old.entries))
        (map entry_view entries.new.entries) result }
    ensures err { OnErr result (entries.new.entries ≡ entries.old.entries) }
{
    let Some(name) = name_text(stem) else {
        return Err(DataRefusal::BadData {
            cause: DataCause::Name,
        });
    };
    if entries.contains_key(name) {
        return Err(DataRefusal::BadData {
            cause: DataCause::Doubled,
        });
    }
    add_rows(alloc, entries, name, bytes)
}

/// Tables of whole numbers by name, in the order in which they were added. A contract sees the list of names with their
/// tables; no name stands in it twice.
#[derive(Drop)]
pub struct Tables {
    alloc: Global,
    entries: IndexMap<String, Table>,
}

impl Model for Tables {
    ghost use Rattle.std.specs.Prelude.{List, map};
    ghost use Rattle.sm_data.specs.Documents.{Entry};
    ghost use Rattle.sm_data.specs.Files.{entry_view};

    ghost Value = { List Entry };

    ghost view = { λ t. map entry_view t.entries.entries };
}

impl Tables {
    /// No tables.
    pub fn new(alloc: Global) -> Tables
        ensures { result ≡ [] }
    {
        Tables {
            alloc,
            entries: IndexMap::new(alloc),
        }
    }

    /// The table of a name.
    pub fn get(&self, name: &str) -> Option<&Table>
        ensures { option_map (λ t. t.now) result ≡ table_of self.now name.now }
    {
        self.entries.get(name)
    }

    /// How many tables there are.
    pub fn len(&self) -> usize
        ensures { result ≡ length self.now }
    {
        self.entries.len()
    }

    /// Whether there are no tables.
    pub fn is_empty(&self) -> bool
        ensures { IsTrue result ↔ (self.now ≡ []) }
    {
        self.entries.is_empty()
    }

    /// The name and the table that were added at this place. No table before it has the name.
    pub fn get_index(&self, index: usize) -> Option<(&str, &Table)>
        ensures entry { option_map (λ e. (e.0.now, e.1.now)) result ≡ slice_get self.now index }
        ensures new { IfSome result (λ e. is_known e.0.now (take index self.now) ≡ false) }
    {
        let (name, table) = self.entries.as_slice().get_index(index)?;
        Some((name.as_str(), table))
    }

    /// Adds the tables of a data file. Its name is the part of `name` after the last slash, and ends in `.toml` or in
    /// `.csv`.
    ///
    /// Each key of a TOML document is the name of a table: of a whole number, of an array of them, or of an array of
    /// such arrays of one length. The records of a `.csv` file are the rows of one table, whose name is that of the file.
    ///
    /// # Errors
    ///
    /// `BadData` with its cause, `Limit` for a number above 2^31 in absolute value, and `OutOfMemory`. Of a TOML file
    /// `Toml` comes first; then the keys are walked in the order of their bytes: the name, whether it is new, then its
    /// members in order. Of a `.csv` file the name comes first, then whether it is new, then `Csv`, then the fields in
    /// order. The first refusal is answered, and then the tables are as before.
    pub fn add(&mut self, name: &str, bytes: &[u8]) -> Result<(), DataRefusal>
        ensures file { Answers (FileComesTo name.now bytes.now self.old) self.new result }
        ensures err { OnErr result (self.new ≡ self.old) }
    {
        let file = file_name(name.as_bytes());
        if stem_of(b".toml", file).is_some() {
            return add_document(self.alloc, &mut self.entries, bytes);
        }
        match stem_of(b".csv", file) {
            Some(stem) => add_records(self.alloc, &mut self.entries, stem, bytes),
            None => Err(DataRefusal::BadData {
                cause: DataCause::Name,
            }),
        }
    }
}
