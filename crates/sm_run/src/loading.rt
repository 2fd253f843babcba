//! The flat model of files.
ghost use Rattle.std.specs.Prelude.{◌≡◌, ◌≤◌, ℕ, pos, List, map, length, is_some, Err, IfOk, IfErr};
ghost use Rattle.std.specs.List.{list_any};
ghost use Rattle.sm_kinds.specs.Vars.{is_real_kind};
ghost use Rattle.sm_data.specs.Documents.{Entry};
ghost use Rattle.sm_syntax.specs.Trees.{Tree, tree_of};
ghost use Rattle.sm_data.specs.declared.refusal.Counted.TheVariants.{Files};
ghost use Rattle.sm_loading.specs.declared.refusal.LoadRefusal.TheVariants as load;
ghost use Rattle.sm_loading.specs.Loading.{Held, IsLoadCause};
ghost use Rattle.sm_expand.specs.Expanding.{ComesTo};
ghost use Rattle.sm_run.specs.Causes.{IsModelOf, IsFlatOfFiles, IsOfFiles, IsExpandCause, IsModelCause, IsRefusal, files_limit};
ghost use Rattle.sm_run.specs.Causes as early;

use sm_base::Shelf;
use sm_expand::expand;
use sm_flat::{Constraint, Flat, Var, VarKind};
use sm_loading::{LoadRefusal, Loaded, load};
use sm_meaning::ExpandRefusal;
use sm_reports::ErrorLine;
use sm_syntax::discard;
use std::alloc::Global;

/// Why files aren't loaded, as it is told.
fn error_of_load<'a>(refusal: LoadRefusal, files: &[&'a str]) -> ErrorLine<'a>
    requires { IsOfFiles (length files.now) refusal }
    ensures cause { (held : Held) (model : List ℕ) (before now : ℕ) → IsLoadCause held model (map (λ f. f.now) files.now) before now refusal →
        IsModelCause held model (map (λ f. f.now) files.now) before now result }
    ensures files { refusal ≡ load.Limit Files (pos 65) (pos 64) → result ≡ files_limit }
{
    match refusal {
        LoadRefusal::ReadFault => ErrorLine::Read,
        LoadRefusal::Limit { what, found, bound } => ErrorLine::Limit { what, found, bound },
        LoadRefusal::Syntax { line, column } => ErrorLine::Syntax { line, column },
        LoadRefusal::Data { file, cause } => ErrorLine::Data {
            file: files[file].as_bytes(),
            cause,
        },
        LoadRefusal::OutOfMemory => ErrorLine::Memory,
    }
}

/// Why a text has no flat model, as it is told.
fn error_of_expand<'a>(refusal: ExpandRefusal) -> ErrorLine<'a>
    ensures { (whole : Tree) (tables : List Entry) → ComesTo whole tables (Err refusal) → IsExpandCause whole tables result }
{
    match refusal {
        ExpandRefusal::Meaning { line, column, what } => ErrorLine::Model { line, column, what },
        ExpandRefusal::Limit { what, found, bound } => ErrorLine::Limit { what, found, bound },
        ExpandRefusal::OutOfMemory => ErrorLine::Memory,
    }
}

/// The flat model of what was loaded.
fn flat_of<'a>(alloc: Global, loaded: Loaded) -> Result<Flat, ErrorLine<'a>>
    ensures flat { IfOk result (IsModelOf (tree_of loaded.tree) loaded.tables) }
    ensures cause { IfErr result (IsExpandCause (tree_of loaded.tree) loaded.tables) }
{
    let Loaded { tree, tables } = loaded;
    let expanded = expand(alloc, &tree, &tables);
    discard(tree);
    match expanded {
        Ok(flat) => Ok(flat),
        Err(refusal) => Err(error_of_expand(refusal)),
    }
}

/// The flat model of the text of a model file with the tables of its data files.
///
/// # Errors
///
/// What is first refused, as it is told: of the files in their order, and then of what the text means.
pub(crate) fn flat_of_files<'a, F: Shelf>(
    alloc: Global,
    shelf: &mut F,
    model: &str,
    files: &[&'a str],
) -> Result<Flat, ErrorLine<'a>>
    ensures flat { IfOk result (λ m. IsFlatOfFiles (F.held shelf.old) model.now (map (λ f. f.now) files.now) m) }
    ensures cause { IfErr result (IsRefusal (F.held shelf.old) model.now (map (λ f. f.now) files.now) (F.faults shelf.old) (F.faults shelf.new)) }
    ensures same { (q : List ℕ) → F.held shelf.new q ≡ F.held shelf.old q }
    ensures later { F.faults shelf.old ≤ F.faults shelf.new }
{
    match load(alloc, shelf, model, files) {
        Ok(loaded) => flat_of(alloc, loaded),
        Err(refusal) => Err(error_of_load(refusal, files)),
    }
}

/// Whether a variable is real.
fn is_real(var: &Var) -> bool
    ensures { result ≡ is_real_kind var.now.kind }
{
    var.kind == VarKind::Real
}

/// Whether some variable is real.
fn has_real(vars: &[Var]) -> bool
    ensures { result ≡ list_any (λ v. is_real_kind v.kind) vars.now }
{
    vars.iter().any(|var| is_real(var))
}

/// Whether some constraint is of a subproblem.
fn has_subproblem(constraints: &[Constraint]) -> bool
    ensures { result ≡ list_any (λ c. is_some c.tags.sub) constraints.now }
{
    constraints.iter().any(|c| c.tags.sub.is_some())
}

/// Whether the model has a real variable or a subproblem, which no search takes as yet.
pub(crate) fn is_early(flat: &Flat) -> bool
    ensures { result ≡ early.is_early flat.now }
{
    has_real(flat.vars()) || has_subproblem(flat.constraints())
}
