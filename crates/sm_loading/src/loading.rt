//! The files of a model, read one after another.
ghost use Rattle.std.specs.Prelude.{◌≡◌, ◌≤◌, ◌<◌, ℕ, pos, List, length, map, Err, IfOk, OnOk, IfErr};
ghost use Rattle.sm_data.specs.declared.refusal.Counted.TheVariants.{Files};
ghost use Rattle.sm_loading.specs.declared.refusal.LoadRefusal.TheVariants.{Limit};
ghost use Rattle.sm_syntax.specs.Trees.{tree_of, Tree as PlainTree};
ghost use Rattle.sm_loading.specs.Loading.{Held, IsRead, HasTree, IsModelOf, IsAdded, LeaveTables, IsLoaded, IsReadingCause, Reaches, IsLoadCause, told_of};

use crate::refusal::LoadRefusal;
use sm_base::{ReadRefusal, Shelf, read_all};
use sm_data::{Counted, DataRefusal, Tables};
use sm_syntax::{ParseRefusal, Tree, discard, parse};
use std::alloc::Global;

/// How many bytes a file has at most.
const FILE_LIMIT: u64 = 16_777_216;

/// How many data files a model has at most.
const FILES_LIMIT: usize = 64;

/// What the files of a model come to. Who has no more use for it takes it apart, and gives the tree to
/// [`sm_syntax::discard`].
pub struct Loaded {
    /// The tree of the model's text.
    pub tree: Tree,
    /// The tables of the data files, in the order in which these were read.
    pub tables: Tables,
}

/// The bytes of a file.
fn content<F: Shelf>(alloc: Global, shelf: &mut F, name: &str) -> Result<Vec<u8>, LoadRefusal>
    ensures read { IfOk result (λ bytes. IsRead (F.held shelf.old) name.now bytes.items) }
    ensures cause { IfErr result (IsReadingCause (F.held shelf.old) name.now (F.faults shelf.old) (F.faults shelf.new)) }
    ensures same { (q : List ℕ) → F.held shelf.new q ≡ F.held shelf.old q }
    ensures later { F.faults shelf.old ≤ F.faults shelf.new }
{
    match read_all(alloc, shelf, name, FILE_LIMIT) {
        Ok(bytes) => Ok(bytes),
        Err(ReadRefusal::ReadFault) => Err(LoadRefusal::ReadFault),
        Err(ReadRefusal::TooLarge { found }) => Err(LoadRefusal::Limit {
            what: Counted::File,
            found: i128::from(found),
            bound: i128::from(FILE_LIMIT),
        }),
        Err(ReadRefusal::OutOfMemory) => Err(LoadRefusal::OutOfMemory),
    }
}

/// The tree of a text.
fn tree_of_text(alloc: Global, text: &[u8]) -> Result<Tree, LoadRefusal>
    ensures tree { IfOk result (λ t. HasTree (tree_of t) text.now) }
    ensures cause { (held : Held) (model : List ℕ) (files : List (List ℕ)) (before now : ℕ) →
        IsRead held model text.now → IfErr result (IsLoadCause held model files before now) }
{
    match parse(alloc, text) {
        Ok(tree) => Ok(tree),
        Err(ParseRefusal::Syntax { line, column }) => Err(LoadRefusal::Syntax { line, column }),
        Err(ParseRefusal::Nesting { found }) => Err(LoadRefusal::Limit {
            what: Counted::Nesting,
            found: i128::from(found),
            bound: 64,
        }),
        Err(ParseRefusal::OutOfMemory) => Err(LoadRefusal::OutOfMemory),
    }
}

/// The tree of the model file. Its bytes aren't kept.
fn tree_of_file<F: Shelf>(alloc: Global, shelf: &mut F, model: &str) -> Result<Tree, LoadRefusal>
    ensures tree { IfOk result (λ t. IsModelOf (F.held shelf.old) model.now (tree_of t)) }
    ensures cause { (files : List (List ℕ)) →
        IfErr result (IsLoadCause (F.held shelf.old) model.now files (F.faults shelf.old) (F.faults shelf.new)) }
    ensures same { (q : List ℕ) → F.held shelf.new q ≡ F.held shelf.old q }
    ensures later { F.faults shelf.old ≤ F.faults shelf.new }
{
    match content(alloc, shelf, model) {
        Ok(text) => tree_of_text(alloc, text.as_slice()),
        Err(refusal) => Err(refusal),
    }
}

/// Why the data file of this number isn't loaded.
fn refusal_of_data(file: usize, refusal: DataRefusal) -> LoadRefusal
    ensures { result ≡ told_of file refusal }
{
    match refusal {
        DataRefusal::BadData { cause } => LoadRefusal::Data { file, cause },
        DataRefusal::Limit { what, found, bound } => LoadRefusal::Limit { what, found, bound },
        DataRefusal::OutOfMemory => LoadRefusal::OutOfMemory,
    }
}

/// Adds the tables of the data file of this number. Its bytes aren't kept.
fn add_file<F: Shelf>(
    alloc: Global,
    shelf: &mut F,
    tables: &mut Tables,
    name: &str,
    number: usize,
) -> Result<(), LoadRefusal>
    ensures added { OnOk result (IsAdded (F.held shelf.old) name.now tables.old tables.new) }
    ensures cause { (model : List ℕ) (files : List (List ℕ)) → Reaches (F.held shelf.old) model files name.now number tables.old →
        IfErr result (IsLoadCause (F.held shelf.old) model files (F.faults shelf.old) (F.faults shelf.new)) }
    ensures same { (q : List ℕ) → F.held shelf.new q ≡ F.held shelf.old q }
    ensures later { F.faults shelf.old ≤ F.faults shelf.new }
{
    let bytes = match content(alloc, shelf, name) {
        Ok(bytes) => bytes,
        Err(refusal) => return Err(refusal),
    };
    match tables.add(name, bytes.as_slice()) {
        Ok(()) => Ok(()),
        Err(refusal) => Err(refusal_of_data(number, refusal)),
    }
}

/// The tables of the data files.
fn tables_of<F: Shelf>(alloc: Global, shelf: &mut F, files: &[&str]) -> Result<Tables, LoadRefusal>
    ensures tables { IfOk result (λ t. LeaveTables (F.held shelf.old) (map (λ f. f.now) files.now) t) }
    ensures cause { (model : List ℕ) (tree : PlainTree) → IsModelOf (F.held shelf.old) model tree →
        IfErr result (IsLoadCause (F.held shelf.old) model (map (λ f. f.now) files.now) (F.faults shelf.old) (F.faults shelf.new)) }
    ensures same { (q : List ℕ) → F.held shelf.new q ≡ F.held shelf.old q }
    ensures later { F.faults shelf.old ≤ F.faults shelf.new }
{
    let mut tables = Tables::new(alloc);
    for (number, name) in files.iter().enumerate() {
        match add_file(alloc, shelf, &mut tables, name, number) {
            Ok(()) => {}
            Err(refusal) => return Err(refusal),
        }
    }
    Ok(tables)
}

/// Reads the model file and then each data file, in the order of their names: the tree of the one and the tables of the
/// others. No bytes of a file are kept.
///
/// # Errors
///
/// The first of these. `Limit` of `Files` where there are more than 64 data files; then nothing is read. Then for the
/// model file, and after it for each data file in order: `ReadFault`, only where the shelf's count of faults rose; `Limit`
/// of `File` where the file has more than 16,777,216 bytes; and what is wrong with its form, which is `Syntax` or `Limit`
/// of `Nesting` for a model, and `Data` or `Limit` of `Entry` for a data file. `OutOfMemory` may come anywhere but before
/// `Limit` of `Files`.
pub fn load<F: Shelf>(
    alloc: Global,
    shelf: &mut F,
    model: &str,
    data_files: &[&str],
) -> Result<Loaded, LoadRefusal>
    ensures loaded { IfOk result (λ l. IsLoaded (F.held shelf.old) model.now (map (λ f. f.now) data_files.now) (tree_of l.tree) l.tables) }
    ensures cause { IfErr result
        (IsLoadCause (F.held shelf.old) model.now (map (λ f. f.now) data_files.now) (F.faults shelf.old) (F.faults shelf.new)) }

    // Too many data files are refused before anything is read.
    ensures many { 64 < length data_files.now → (result ≡ Err (Limit Files (pos 65) (pos 64))) × (shelf.new ≡ shelf.old) }

    ensures same { (q : List ℕ) → F.held shelf.new q ≡ F.held shelf.old q }
    ensures later { F.faults shelf.old ≤ F.faults shelf.new }
{
    if data_files.len() > FILES_LIMIT {
        return Err(LoadRefusal::Limit {
            what: Counted::Files,
            found: 65,
            bound: 64,
        });
    }
    let tree = match tree_of_file(alloc, shelf, model) {
        Ok(tree) => tree,
        Err(refusal) => return Err(refusal),
    };
    match tables_of(alloc, shelf, data_files) {
        Ok(tables) => Ok(Loaded { tree, tables }),
        Err(refusal) => {
            discard(tree);
            Err(refusal)
        }
    }
}
