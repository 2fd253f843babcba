//! Which variables belong to a subproblem.
ghost use Rattle.std.specs.Prelude.{◌≡◌, ◌↔◌, ℕ, Some, IfSome, IsNone, IsTrue, not, ◌==◌, slice_get};
ghost use Rattle.sm_flat.specs.Subproblems.{Mentions, AllTagged, IsSubVariable};
ghost use Rattle.sm_flat.specs.declared.form.Constraint.{Constraint as Stated};

use crate::flat::Flat;
use crate::form::{Form, each_var};
use sm_kinds::VarTest;

/// Passes all variables but one.
#[derive(Clone, Copy)]
struct Other {
    var: u32,
}

impl VarTest for Other {
    ghost use Rattle.std.specs.Prelude.{ℕ, Bool, not, ◌==◌};

    ghost passing = { λ o v. not (v == o.var) };

    fn test(&self, var: u32) -> bool
        ensures { result ≡ not (var == self.now.var) }
    {
        var != self.var
    }
}

/// Whether the variable stands in the form.
fn mentions(form: &Form, var: u32) -> bool
    ensures { IsTrue result ↔ Mentions form.now var }
{
    !each_var(form, &Other { var })
}

/// The number of a constraint that has the variable; none where no one has.
fn first_with(flat: &Flat, var: u32) -> Option<usize>
    ensures some { IfSome result (λ k. (c : Stated) × (slice_get flat.now.constraints k ≡ Some c) × Mentions c.form var) }
    ensures none { IsNone result → (k : ℕ) (c : Stated) → slice_get flat.now.constraints k ≡ Some c → Mentions c.form var → ⊥ }
{
    let constraints = flat.constraints();
    for k in 0..constraints.len() {
        if mentions(&constraints[k].form, var) {
            return Some(k);
        }
    }
    None
}

/// Whether all constraints that have the variable are tagged with the subproblem.
fn all_tagged(flat: &Flat, var: u32, sub: u32) -> bool
    ensures { IsTrue result ↔ AllTagged flat.now var sub }
{
    let constraints = flat.constraints();
    for k in 0..constraints.len() {
        let constraint = &constraints[k];
        if mentions(&constraint.form, var) && constraint.tags.sub != Some(sub) {
            return false;
        }
    }
    true
}

/// The subproblem whose variable it is: some constraint has the variable, and all that have it are tagged with this
/// subproblem. None of a variable of the master problem.
pub fn sub_of(flat: &Flat, var: u32) -> Option<u32>
    ensures { (g : ℕ) → result ≡ Some g ↔ IsSubVariable flat.now var g }
{
    let first = first_with(flat, var)?;
    let sub = flat.constraints()[first].tags.sub?;
    if all_tagged(flat, var, sub) {
        Some(sub)
    } else {
        None
    }
}
