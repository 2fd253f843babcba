//! What a front of a text has come to, in the making.
ghost use Rattle.std.specs.Prelude.{◌≡◌, ◌+◌, take, IfErr, IfOk, OnOk};
ghost use Rattle.sm_meaning.specs.declared.refusal.ExpandRefusal.TheVariants.{OutOfMemory};
ghost use Rattle.sm_meaning.specs.Expansions.{beginning, scope_of};
ghost use Rattle.sm_declarations.specs.Making.{IsMakingOf};

use sm_data::Tables;
use sm_drafts::Totals;
use sm_flat::{Constraint, Var};
use sm_meaning::ExpandRefusal;
use sm_scopes::{Scope, Thing};
use sm_syntax::Place;
use std::alloc::{AllocError, Global};

/// What a front of a text has come to: its names, its variables and its constraints, within all limits.
#[derive(Drop)]
pub struct Making<'t> {
    pub scope: Scope<'t>,
    pub vars: Vec<Var>,
    /// Where the declaration of each variable has its name.
    pub places: Vec<Place>,
    pub constraints: Vec<Constraint>,
    pub totals: Totals,
}

/// The table of this number is known, where there is one.
fn know_table<'t>(scope: &mut Scope<'t>, tables: &'t Tables, index: usize) -> Result<(), AllocError>
    requires { scope.old ≡ scope_of (beginning (take index tables.now)) }
    ensures { OnOk result (scope.new ≡ scope_of (beginning (take (index + 1) tables.now))) }
{
    match tables.get_index(index) {
        Some((name, table)) => scope.insert(name.as_bytes(), Thing::Table(table)),
        None => Ok(()),
    }
}

/// All tables are known.
fn known<'t>(alloc: Global, tables: &'t Tables) -> Result<Scope<'t>, AllocError>
    ensures { IfOk result (λ s. s ≡ scope_of (beginning tables.now)) }
{
    let mut scope = Scope::new(alloc);
    for index in 0..tables.len() {
        know_table(&mut scope, tables, index)?;
    }
    Ok(scope)
}

impl<'t> Making<'t> {
    /// Before the text begins, the tables are known.
    ///
    /// # Errors
    ///
    /// `OutOfMemory`.
    pub fn begin(alloc: Global, tables: &'t Tables) -> Result<Making<'t>, ExpandRefusal>
        ensures begins { IfOk result (IsMakingOf (beginning tables.now)) }
        ensures memory { IfErr result (λ e. e ≡ OutOfMemory) }
    {
        Ok(Making {
            scope: known(alloc, tables)?,
            vars: Vec::new(alloc),
            places: Vec::new(alloc),
            constraints: Vec::new(alloc),
            totals: Totals {
                constraints: 0,
                sizes: 0,
                real_rows: 0,
            },
        })
    }
}
