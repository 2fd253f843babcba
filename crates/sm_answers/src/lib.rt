//! What the verdict of a flat model says of the text whose flat model it is.
#![tactic(auto)]

ghost use Rattle.std.specs.Prelude.{List, Option};
ghost use Rattle.sm_flat.specs.Assignments.{Numbers};
ghost use Rattle.sm_flat.specs.Models.{FlatModel};
ghost use Rattle.sm_data.specs.Documents.{Entry};
ghost use Rattle.sm_syntax.specs.Trees.{Tree};
ghost use Rattle.sm_step.specs.declared.verdict.Verdict.{Verdict};
ghost use Rattle.sm_step.specs.Verdicts.{IsTrueOf};
ghost use Rattle.sm_expand.specs.Expanding.{IsFlatOf};
ghost use Rattle.sm_answers.specs.Answers.{IsTrueOfText};

/// A law: a verdict that is true of the flat model of a text is true of the text.
pub fn answer_law()
    ensures { (t : Tree) (tables : List Entry) (m : FlatModel) (best : Option Numbers) (v : Verdict) → IsFlatOf t tables m →
        IsTrueOf m best v → IsTrueOfText t tables best v }
{}
