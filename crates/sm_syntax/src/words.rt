//! The reserved words.
ghost use Rattle.std.specs.Prelude.{◌≡◌, ◌∷◌, []};
ghost use Rattle.sm_syntax.specs.Words.{terminal_in, item_word, goal_word, binder_word, constraint_word, grouping_word, formula_word, tag_word, level_word, branching_word, outline_word, body_word, setting_word, reserved_word};

use crate::terminal::Terminal;

/// The terminal, where the word is this text.
fn terminal_if(word: &[u8], text: &[u8], terminal: Terminal) -> Option<Terminal>
    ensures { result ≡ terminal_in ((text.now, terminal) ∷ []) word.now }
{
    if word == text { Some(terminal) } else { None }
}

/// A word of an item.
fn item_word(word: &[u8]) -> Option<Terminal>
    ensures { result ≡ item_word word.now }
{
    terminal_if(word, b"index", Terminal::Index)
        .or(terminal_if(word, b"var", Terminal::Var))
        .or(terminal_if(word, b"post", Terminal::Post))
        .or(terminal_if(word, b"forall", Terminal::Forall))
        .or(terminal_if(word, b"set", Terminal::Set))
        .or(terminal_if(word, b"int", Terminal::Int))
        .or(terminal_if(word, b"real", Terminal::Real))
}

/// A word of a goal.
fn goal_word(word: &[u8]) -> Option<Terminal>
    ensures { result ≡ goal_word word.now }
{
    terminal_if(word, b"satisfy", Terminal::Satisfy)
        .or(terminal_if(word, b"minimise", Terminal::Minimise))
        .or(terminal_if(word, b"maximise", Terminal::Maximise))
}

/// A word of binders and sums.
fn binder_word(word: &[u8]) -> Option<Terminal>
    ensures { result ≡ binder_word word.now }
{
    terminal_if(word, b"if", Terminal::If)
        .or(terminal_if(word, b"and", Terminal::And))
        .or(terminal_if(word, b"in", Terminal::In))
        .or(terminal_if(word, b"for", Terminal::For))
        .or(terminal_if(word, b"sum", Terminal::Sum))
}

/// A word of a constraint.
fn constraint_word(word: &[u8]) -> Option<Terminal>
    ensures { result ≡ constraint_word word.now }
{
    terminal_if(word, b"logic", Terminal::Logic)
        .or(terminal_if(word, b"when", Terminal::When))
        .or(terminal_if(word, b"then", Terminal::Then))
        .or(terminal_if(word, b"alldiff", Terminal::Alldiff))
        .or(terminal_if(word, b"circuit", Terminal::Circuit))
        .or(terminal_if(word, b"element", Terminal::Element))
}

/// A word of a constraint over choices, tasks or groups.
fn grouping_word(word: &[u8]) -> Option<Terminal>
    ensures { result ≡ grouping_word word.now }
{
    terminal_if(word, b"indexsum", Terminal::Indexsum)
        .or(terminal_if(word, b"assign", Terminal::Assign))
        .or(terminal_if(word, b"cumulative", Terminal::Cumulative))
        .or(terminal_if(word, b"disjunctive", Terminal::Disjunctive))
        .or(terminal_if(word, b"packing", Terminal::Packing))
}

/// A word of a formula.
fn formula_word(word: &[u8]) -> Option<Terminal>
    ensures { result ≡ formula_word word.now }
{
    terminal_if(word, b"implies", Terminal::Implies)
        .or(terminal_if(word, b"iff", Terminal::Iff))
        .or(terminal_if(word, b"or", Terminal::Or))
        .or(terminal_if(word, b"not", Terminal::Not))
        .or(terminal_if(word, b"all", Terminal::All))
        .or(terminal_if(word, b"any", Terminal::Any))
}

/// A word that begins a tag.
fn tag_word(word: &[u8]) -> Option<Terminal>
    ensures { result ≡ tag_word word.now }
{
    terminal_if(word, b"infer", Terminal::Infer)
        .or(terminal_if(word, b"relax", Terminal::Relax))
        .or(terminal_if(word, b"branch", Terminal::Branch))
        .or(terminal_if(word, b"pick", Terminal::Pick))
        .or(terminal_if(word, b"split", Terminal::Split))
        .or(terminal_if(word, b"sub", Terminal::Sub))
}

/// A word of a level, or of whether a row is relaxed.
fn level_word(word: &[u8]) -> Option<Terminal>
    ensures { result ≡ level_word word.now }
{
    terminal_if(word, b"none", Terminal::None)
        .or(terminal_if(word, b"bounds", Terminal::Bounds))
        .or(terminal_if(word, b"full", Terminal::Full))
        .or(terminal_if(word, b"on", Terminal::On))
}

/// A word of how a variable is picked, or its domain split.
fn branching_word(word: &[u8]) -> Option<Terminal>
    ensures { result ≡ branching_word word.now }
{
    terminal_if(word, b"first", Terminal::First)
        .or(terminal_if(word, b"small", Terminal::Small))
        .or(terminal_if(word, b"point", Terminal::Point))
        .or(terminal_if(word, b"half", Terminal::Half))
        .or(terminal_if(word, b"least", Terminal::Least))
        .or(terminal_if(word, b"most", Terminal::Most))
}

/// A reserved word of a model's outline or of its binders.
fn outline_word(word: &[u8]) -> Option<Terminal>
    ensures { result ≡ outline_word word.now }
{
    if let Some(terminal) = item_word(word) {
        return Some(terminal);
    }
    if let Some(terminal) = goal_word(word) {
        return Some(terminal);
    }
    binder_word(word)
}

/// A reserved word of a constraint without its tags.
fn body_word(word: &[u8]) -> Option<Terminal>
    ensures { result ≡ body_word word.now }
{
    if let Some(terminal) = constraint_word(word) {
        return Some(terminal);
    }
    if let Some(terminal) = grouping_word(word) {
        return Some(terminal);
    }
    formula_word(word)
}

/// A reserved word of a tag.
fn setting_word(word: &[u8]) -> Option<Terminal>
    ensures { result ≡ setting_word word.now }
{
    if let Some(terminal) = tag_word(word) {
        return Some(terminal);
    }
    if let Some(terminal) = level_word(word) {
        return Some(terminal);
    }
    branching_word(word)
}

/// The terminal of a reserved word.
#[tactic(auto, unfolding(crate::specs::Words::reserved_word))]
pub fn reserved_word(word: &[u8]) -> Option<Terminal>
    ensures { result ≡ reserved_word word.now }
{
    if let Some(terminal) = outline_word(word) {
        return Some(terminal);
    }
    if let Some(terminal) = body_word(word) {
        return Some(terminal);
    }
    setting_word(word)
}
