//! The words, signs and brackets that stand between the parts of a rule.
ghost use Rattle.std.specs.Prelude.{refl};
ghost use Rattle.sm_syntax.specs.declared.terminal.Terminal.TheVariants as terminals;

use crate::part::{Bracket, Word};
use crate::terminal::Terminal;

/// `,`
#[derive(Drop)]
pub struct Comma;

impl Word for Comma {
    ghost terminal = { terminals.Comma };

    fn terminal() -> Terminal {
        Terminal::Comma
    }

    ghost plain = { refl };
}

/// `;`
#[derive(Drop)]
pub struct Semicolon;

impl Word for Semicolon {
    ghost terminal = { terminals.Semicolon };

    fn terminal() -> Terminal {
        Terminal::Semicolon
    }

    ghost plain = { refl };
}

/// `:`
#[derive(Drop)]
pub struct Colon;

impl Word for Colon {
    ghost terminal = { terminals.Colon };

    fn terminal() -> Terminal {
        Terminal::Colon
    }

    ghost plain = { refl };
}

/// `..`
#[derive(Drop)]
pub struct To;

impl Word for To {
    ghost terminal = { terminals.To };

    fn terminal() -> Terminal {
        Terminal::To
    }

    ghost plain = { refl };
}

/// `=`
#[derive(Drop)]
pub struct Equal;

impl Word for Equal {
    ghost terminal = { terminals.Equal };

    fn terminal() -> Terminal {
        Terminal::Equal
    }

    ghost plain = { refl };
}

/// `<=`
#[derive(Drop)]
pub struct AtMost;

impl Word for AtMost {
    ghost terminal = { terminals.AtMost };

    fn terminal() -> Terminal {
        Terminal::AtMost
    }

    ghost plain = { refl };
}

/// `>=`
#[derive(Drop)]
pub struct AtLeast;

impl Word for AtLeast {
    ghost terminal = { terminals.AtLeast };

    fn terminal() -> Terminal {
        Terminal::AtLeast
    }

    ghost plain = { refl };
}

/// `then`
#[derive(Drop)]
pub struct Then;

impl Word for Then {
    ghost terminal = { terminals.Then };

    fn terminal() -> Terminal {
        Terminal::Then
    }

    ghost plain = { refl };
}

/// `in`
#[derive(Drop)]
pub struct In;

impl Word for In {
    ghost terminal = { terminals.In };

    fn terminal() -> Terminal {
        Terminal::In
    }

    ghost plain = { refl };
}

/// `for`
#[derive(Drop)]
pub struct For;

impl Word for For {
    ghost terminal = { terminals.For };

    fn terminal() -> Terminal {
        Terminal::For
    }

    ghost plain = { refl };
}

/// `(` and `)`
#[derive(Drop)]
pub struct Round;

impl Bracket for Round {
    ghost opening = { terminals.OpenRound };

    ghost closing = { terminals.CloseRound };

    fn opening() -> Terminal {
        Terminal::OpenRound
    }

    fn closing() -> Terminal {
        Terminal::CloseRound
    }

    ghost opened = { refl };

    ghost closed = { refl };
}

/// `[` and `]`
#[derive(Drop)]
pub struct Square;

impl Bracket for Square {
    ghost opening = { terminals.OpenSquare };

    ghost closing = { terminals.CloseSquare };

    fn opening() -> Terminal {
        Terminal::OpenSquare
    }

    fn closing() -> Terminal {
        Terminal::CloseSquare
    }

    ghost opened = { refl };

    ghost closed = { refl };
}

/// `{` and `}`
#[derive(Drop)]
pub struct Brace;

impl Bracket for Brace {
    ghost opening = { terminals.OpenBrace };

    ghost closing = { terminals.CloseBrace };

    fn opening() -> Terminal {
        Terminal::OpenBrace
    }

    fn closing() -> Terminal {
        Terminal::CloseBrace
    }

    ghost opened = { refl };

    ghost closed = { refl };
}
