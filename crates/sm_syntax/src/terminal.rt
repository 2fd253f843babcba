//! Terminals: the kinds of tokens.

/// What a token is to the grammar.
#[derive(Clone, Copy, PartialEq)]
pub enum Terminal {
    /// A letter or `_`, then letters, digits and `_`: at most 64 bytes, and no reserved word.
    Name,
    /// 1 to 18 digits.
    Number,
    // words of items
    Index,
    Var,
    Post,
    Forall,
    Set,
    Int,
    Real,
    // words of goals
    Satisfy,
    Minimise,
    Maximise,
    // words of binders and sums
    If,
    And,
    In,
    For,
    Sum,
    // words of constraints
    Logic,
    When,
    Then,
    Alldiff,
    Circuit,
    Element,
    Indexsum,
    Assign,
    Cumulative,
    Disjunctive,
    Packing,
    // words of formulas
    Implies,
    Iff,
    Or,
    Not,
    All,
    Any,
    // words of tags
    Infer,
    Relax,
    Branch,
    Pick,
    Split,
    Sub,
    // words behind those of tags
    None,
    Bounds,
    Full,
    On,
    First,
    Small,
    Point,
    Half,
    Least,
    Most,
    // signs
    Semicolon,
    Comma,
    Colon,
    /// The two dots between the ends of a range.
    To,
    Less,
    AtMost,
    Greater,
    AtLeast,
    Equal,
    Unequal,
    Plus,
    Minus,
    Times,
    OpenRound,
    CloseRound,
    OpenSquare,
    CloseSquare,
    OpenBrace,
    CloseBrace,
    /// The end of the text.
    End,
    /// What no rule has: a longer name or number, or a byte that begins no token.
    Bad,
}

/// What a byte that isn't inside a token begins.
#[derive(Clone, Copy)]
pub enum Piece {
    /// White space, up to the next byte.
    Blank,
    /// A comment, up to the end of its line.
    Comment,
    Word,
    Digits,
    /// A sign of one or two bytes.
    Sign,
}
