//! The tuples of binders that pass their tests.
ghost use Rattle.std.specs.Prelude.{◌≡◌, ℕ};
ghost use Rattle.sm_syntax.specs.Expressions.{binding_of};
ghost use Rattle.sm_meaning.specs.Trials.{GoesThrough};
ghost use Rattle.sm_parts.specs.Seeking.{Sought, binders_tried, Begins, Seeks};

use sm_expressions::{tests, visit};
use sm_meaning::ExpandRefusal;
use sm_scopes::{Cases, Scope};
use sm_syntax::{Binders, Test};
use std::alloc::Global;
use std::marker::Model;

/// The tuples of binders that pass the tests, in lexicographic order. A contract sees the tests, the tuple that is shown
/// and those to come, of which some may not pass.
#[derive(Drop)]
pub struct Tuples<'t> {
    cases: Cases<'t>,
    tests: &'t [Test],
}

impl<'t> Model for Tuples<'t> {
    ghost use Rattle.sm_parts.specs.Seeking.{Sought};
    ghost use Rattle.sm_syntax.specs.contracts.expression.Test as e;
    ghost use Rattle.std.specs.Coded.{codes};

    ghost Value = { Sought };

    // A test holds expressions, which hold themselves: so the code by which its values are told apart is named.
    ghost coded = { Prim.hlevel (codes, e.the_row.coded) };

    ghost view = { λ t. record { tests = t.tests.now; tuple = t.cases.tuple; to_come = t.cases.to_come } };
}

impl<'t> Tuples<'t> {
    /// The tuples of binders behind what is bound outside.
    ///
    /// # Errors
    ///
    /// `Doubled` for a name that is known, and then `Unknown` or `Shape` for a name of no index set, binder by binder.
    pub fn of(
        alloc: Global,
        scope: &Scope,
        outside: &Cases<'t>,
        binders: &'t Binders,
    ) -> Result<Tuples<'t>, ExpandRefusal>
        ensures { (count : ℕ) → GoesThrough (binders_tried (binding_of binders.now) scope.now outside.now.tuple) count count
            (Begins (binding_of binders.now) scope.now.names outside.now.tuple) result }
    {
        let cases = Cases::within(
            alloc,
            scope,
            outside,
            &binders.first,
            binders.more.as_slice(),
        )?;
        Ok(Tuples {
            cases,
            tests: binders.tests.as_slice(),
        })
    }

    /// Goes on to the next tuple that passes; false where there is none.
    ///
    /// # Errors
    ///
    /// `Limit` where too many tuples are visited, and what is refused of a test.
    pub fn next(
        &mut self,
        alloc: Global,
        scope: &Scope,
        visited: &mut u64,
    ) -> Result<bool, ExpandRefusal>
        ensures { Seeks scope.now self.old self.new visited.old visited.new result }
    {
        'tuples: while self.cases.advance() {
            visit(visited)?;
            if tests(alloc, scope, &self.cases, visited, self.tests)? {
                return Ok(true);
            }
        }
        Ok(false)
    }

    /// The tuple that is shown.
    pub fn cases(&self) -> &Cases<'t>
        ensures { result.now.tuple ≡ self.now.tuple }
    {
        &self.cases
    }
}
