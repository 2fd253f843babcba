//! The flat model of what a text means: laws that both have the same solutions, and goals of the same worth, and that it
//! keeps all limits where the text isn't refused. What makes the flat model of a text proves by them that it means the
//! same.
#![tactic(auto)]

ghost use Rattle.std.specs.Prelude.{◌≡◌, ◌↔◌, ◌++◌, ℕ, List, [], ◌∷◌, map, length, neg_ℤ, All};
ghost use Rattle.sm_kinds.specs.declared.linear.Cmp.{Cmp};
ghost use Rattle.sm_kinds.specs.declared.var.Var.{Var};
ghost use Rattle.sm_flat.specs.declared.form.Constraint.{Constraint};
ghost use Rattle.sm_flat.specs.declared.goal.Goal.{Goal};
ghost use Rattle.sm_flat.specs.Forms as flat;
ghost use Rattle.sm_flat.specs.Forms.{Sat, kind_of};
ghost use Rattle.sm_flat.specs.Limits as flat_limit;
ghost use Rattle.sm_flat.specs.Limits.{IsFlat};
ghost use Rattle.sm_flat.specs.Goals.{worth};
ghost use Rattle.sm_flat.specs.Models.{FlatModel};
ghost use Rattle.sm_flat.specs.Solutions.{Solves, HasNoSolution};
ghost use Rattle.sm_data.specs.Documents.{Entry};
ghost use Rattle.sm_syntax.specs.declared.tree.Name.{Name};
ghost use Rattle.sm_syntax.specs.Trees.{Tree, Kind, Tag, Constraint as TreeConstraint, Goal as TreeGoal};
ghost use Rattle.sm_forms.specs.declared.form.Form.{Form};
ghost use Rattle.sm_forms.specs.Meanings.{Values, Meaning, terms_of};
ghost use Rattle.sm_forms.specs.Forms.{IsFormOf};
ghost use Rattle.sm_meaning.specs.Demands.{Demand, Holds, point_of, demand_of};
ghost use Rattle.sm_meaning.specs.Scopes.{Thing, Scope, Tuple};
ghost use Rattle.sm_meaning.specs.Limits as limit;
ghost use Rattle.sm_meaning.specs.Limits.{term_count};
ghost use Rattle.sm_meaning.specs.Trials.{reached};
ghost use Rattle.sm_meaning.specs.Declarations.{var_tried, with_var, members_of};
ghost use Rattle.sm_meaning.specs.Expansions.{Expansion, beginning, scope_of, with_name, with_posts, post_at};
ghost use Rattle.sm_meaning.specs.Goals.{goal_worths, senses_of, goal_tried};
ghost use Rattle.sm_meaning.specs.Models.{Means, expansion_of, worths_of, listing_of, tree_tried, demand_kind, post_tried};
ghost use Rattle.sm_flattening.specs.Flattening.{row_of, form_of, constraint_of, IsFlattened, Meets, goal_numbers, meaning_numbers};
ghost use Rattle.sm_flattening.specs.Regularity.{IsAffine, HasAffineRow, HasWholeLiterals, HasFewClauses};
ghost use Rattle.sm_flattening.specs.Counts.{HaveSameCounts};
ghost use Rattle.sm_flattening.specs.FlatParts.{AreFlatParts};

/// Laws of rows: a meaning that has a form is affine, and its row has the form's numbers.
pub fn row_laws()
    ensures affine { (n : ℕ) (g : Meaning) (f : Form) → IsFormOf n g f → IsAffine n g }
    ensures numbers { (n : ℕ) (c : Cmp) (g : Meaning) (f : Form) → IsFormOf n g f →
        row_of n c g ≡ record { terms = f.terms; cmp = c; bound = neg_ℤ f.constant } }
{}

/// Laws of models: the flat form of a demand is satisfied exactly where this holds. So values solve the flat model exactly
/// where they meet the expansion, and exactly where the text means them. With the goals of a text that isn't refused, its
/// flat parts are a model that keeps all limits.
pub fn model_laws()
    ensures holds { (n : ℕ) (d : Demand) (a : Values) → HasAffineRow n d → HasWholeLiterals d a →
        Sat (form_of n d) (point_of a) ↔ Holds d a }
    ensures meets { (e : Expansion) (m : FlatModel) (a : Values) → IsFlattened e m.vars m.constraints →
        Solves m (point_of a) ↔ Meets e a }
    ensures means { (t : Tree) (tables : List Entry) (m : FlatModel) →
        IsFlattened (expansion_of t tables) m.vars m.constraints →
        (a : Values) → Solves m (point_of a) ↔ Means t tables a }
    ensures unsolved { (t : Tree) (tables : List Entry) (m : FlatModel) →
        IsFlattened (expansion_of t tables) m.vars m.constraints →
        HasNoSolution m ↔ ((a : Values) → Means t tables a → ⊥) }
    ensures flat { (e : Expansion) (g : TreeGoal) (m : FlatModel) (count after : ℕ) →
        AreFlatParts e m.vars m.constraints → goal_tried (scope_of e) g count ≡ reached after →
        map goal_numbers m.goals ≡ map (meaning_numbers (length m.vars)) (goal_worths (scope_of e) g) →
        map (λ goal. goal.sense) m.goals ≡ senses_of g → IsFlat m }
    ensures flat_text { (t : Tree) (tables : List Entry) (m : FlatModel) (after : ℕ) →
        AreFlatParts (expansion_of t tables) m.vars m.constraints → tree_tried t tables 0 ≡ reached after →
        map goal_numbers m.goals ≡ map (meaning_numbers (length m.vars)) (worths_of t tables) →
        map (λ goal. goal.sense) m.goals ≡ (listing_of t tables).senses → IsFlat m }
{}

/// Laws of steps: the flat parts so far stay those of the expansion, within all limits, as names, variables and
/// constraints come that aren't refused.
pub fn step_laws()
    ensures begins { (tables : List Entry) → AreFlatParts (beginning tables) [] [] }
    ensures named { (e : Expansion) (vars : List Var) (cs : List Constraint) (name : List ℕ) (t : Thing) →
        AreFlatParts e vars cs → AreFlatParts (with_name e name t) vars cs }
    ensures declared { (e : Expansion) (vars all : List Var) (cs : List Constraint)
        (name : Name) (sets : List Name) (k : Kind) (count after : ℕ) →
        AreFlatParts e vars cs → var_tried name sets k e count ≡ reached after →
        all ≡ vars ++ map (λ d. d.var) (members_of name sets k (scope_of e)) →
        AreFlatParts (with_var name sets k e) all cs }
    ensures posted_one { (e : Expansion) (vars : List Var) (cs : List Constraint)
        (c : TreeConstraint) (ts : List Tag) (b : Tuple) (k : Constraint) (count after : ℕ) →
        AreFlatParts e vars cs → post_tried c ts e b count ≡ reached after →
        HasAffineRow (length vars) (demand_of c (scope_of e) b) →
        k ≡ constraint_of (length vars) (post_at c ts (scope_of e) b) →
        AreFlatParts (with_posts e (post_at c ts (scope_of e) b ∷ [])) vars (cs ++ k ∷ []) }
{}

/// Laws of goals: a goal with the numbers of an affine meaning is worth what that is.
pub fn goal_laws()
    ensures worth { (n : ℕ) (g : Meaning) (goal : Goal) (a : Values) → IsAffine n g →
        goal_numbers goal ≡ meaning_numbers n g → worth goal (point_of a) ≡ g a }
    ensures worths { (n : ℕ) (gs : List Meaning) (goals : List Goal) (a : Values) → All (IsAffine n) gs →
        map goal_numbers goals ≡ map (meaning_numbers n) gs →
        map (λ goal. worth goal (point_of a)) goals ≡ map (λ g. g a) gs }
{}

/// Laws of counts: what limits count of a demand is what they count of its flat form. Further names and variables change no
/// count of what is posted.
pub fn count_laws()
    ensures kind { (n : ℕ) (d : Demand) → kind_of (form_of n d) ≡ demand_kind d }
    ensures terms { (n : ℕ) (g : Meaning) → length (terms_of n g) ≡ term_count n g }
    ensures size { (n : ℕ) (d : Demand) → HasFewClauses d → flat.size_of (form_of n d) ≡ limit.size_of n d }
    ensures reals { (vars : List Var) (s : Scope) (n : ℕ) (g : Meaning) → s.kinds ≡ map (λ v. v.kind) vars →
        flat_limit.has_real vars (terms_of n g) ≡ limit.has_real s n g }
    ensures named { (e : Expansion) (name : List ℕ) (t : Thing) → HaveSameCounts e (with_name e name t) }
    ensures declared { (e : Expansion) (vars : List Var) (cs : List Constraint)
        (name : Name) (sets : List Name) (k : Kind) →
        IsFlattened e vars cs → HaveSameCounts e (with_var name sets k e) }
{}
