//! The words that begin an alternative.
ghost use Rattle.std.specs.Prelude.{refl};
ghost use Rattle.sm_syntax.specs.declared.terminal.Terminal.TheVariants as terminals;

use crate::part::Word;
use crate::terminal::Terminal;

/// `logic`
#[derive(Drop)]
pub struct Logic;

impl Word for Logic {
    ghost terminal = { terminals.Logic };

    fn terminal() -> Terminal {
        Terminal::Logic
    }

    ghost plain = { refl };
}

/// `when`
#[derive(Drop)]
pub struct When;

impl Word for When {
    ghost terminal = { terminals.When };

    fn terminal() -> Terminal {
        Terminal::When
    }

    ghost plain = { refl };
}

/// `alldiff`
#[derive(Drop)]
pub struct Alldiff;

impl Word for Alldiff {
    ghost terminal = { terminals.Alldiff };

    fn terminal() -> Terminal {
        Terminal::Alldiff
    }

    ghost plain = { refl };
}

/// `circuit`
#[derive(Drop)]
pub struct Circuit;

impl Word for Circuit {
    ghost terminal = { terminals.Circuit };

    fn terminal() -> Terminal {
        Terminal::Circuit
    }

    ghost plain = { refl };
}

/// `element`
#[derive(Drop)]
pub struct Element;

impl Word for Element {
    ghost terminal = { terminals.Element };

    fn terminal() -> Terminal {
        Terminal::Element
    }

    ghost plain = { refl };
}

/// `cumulative`
#[derive(Drop)]
pub struct Cumulative;

impl Word for Cumulative {
    ghost terminal = { terminals.Cumulative };

    fn terminal() -> Terminal {
        Terminal::Cumulative
    }

    ghost plain = { refl };
}

/// `disjunctive`
#[derive(Drop)]
pub struct Disjunctive;

impl Word for Disjunctive {
    ghost terminal = { terminals.Disjunctive };

    fn terminal() -> Terminal {
        Terminal::Disjunctive
    }

    ghost plain = { refl };
}

/// `packing`
#[derive(Drop)]
pub struct Packing;

impl Word for Packing {
    ghost terminal = { terminals.Packing };

    fn terminal() -> Terminal {
        Terminal::Packing
    }

    ghost plain = { refl };
}

/// `index`
#[derive(Drop)]
pub struct Index;

impl Word for Index {
    ghost terminal = { terminals.Index };

    fn terminal() -> Terminal {
        Terminal::Index
    }

    ghost plain = { refl };
}

/// `var`
#[derive(Drop)]
pub struct Var;

impl Word for Var {
    ghost terminal = { terminals.Var };

    fn terminal() -> Terminal {
        Terminal::Var
    }

    ghost plain = { refl };
}

/// `post`
#[derive(Drop)]
pub struct Post;

impl Word for Post {
    ghost terminal = { terminals.Post };

    fn terminal() -> Terminal {
        Terminal::Post
    }

    ghost plain = { refl };
}

/// `set`
#[derive(Drop)]
pub struct Set;

impl Word for Set {
    ghost terminal = { terminals.Set };

    fn terminal() -> Terminal {
        Terminal::Set
    }

    ghost plain = { refl };
}

/// `int`
#[derive(Drop)]
pub struct Int;

impl Word for Int {
    ghost terminal = { terminals.Int };

    fn terminal() -> Terminal {
        Terminal::Int
    }

    ghost plain = { refl };
}

/// `real`
#[derive(Drop)]
pub struct Real;

impl Word for Real {
    ghost terminal = { terminals.Real };

    fn terminal() -> Terminal {
        Terminal::Real
    }

    ghost plain = { refl };
}

/// `maximise`
#[derive(Drop)]
pub struct Maximise;

impl Word for Maximise {
    ghost terminal = { terminals.Maximise };

    fn terminal() -> Terminal {
        Terminal::Maximise
    }

    ghost plain = { refl };
}

/// `minimise`
#[derive(Drop)]
pub struct Minimise;

impl Word for Minimise {
    ghost terminal = { terminals.Minimise };

    fn terminal() -> Terminal {
        Terminal::Minimise
    }

    ghost plain = { refl };
}

/// `satisfy`
#[derive(Drop)]
pub struct Satisfy;

impl Word for Satisfy {
    ghost terminal = { terminals.Satisfy };

    fn terminal() -> Terminal {
        Terminal::Satisfy
    }

    ghost plain = { refl };
}

/// `infer`
#[derive(Drop)]
pub struct Infer;

impl Word for Infer {
    ghost terminal = { terminals.Infer };

    fn terminal() -> Terminal {
        Terminal::Infer
    }

    ghost plain = { refl };
}

/// `relax`
#[derive(Drop)]
pub struct Relax;

impl Word for Relax {
    ghost terminal = { terminals.Relax };

    fn terminal() -> Terminal {
        Terminal::Relax
    }

    ghost plain = { refl };
}

/// `branch`
#[derive(Drop)]
pub struct Branch;

impl Word for Branch {
    ghost terminal = { terminals.Branch };

    fn terminal() -> Terminal {
        Terminal::Branch
    }

    ghost plain = { refl };
}

/// `pick`
#[derive(Drop)]
pub struct Pick;

impl Word for Pick {
    ghost terminal = { terminals.Pick };

    fn terminal() -> Terminal {
        Terminal::Pick
    }

    ghost plain = { refl };
}

/// `split`
#[derive(Drop)]
pub struct Split;

impl Word for Split {
    ghost terminal = { terminals.Split };

    fn terminal() -> Terminal {
        Terminal::Split
    }

    ghost plain = { refl };
}

/// `sub`
#[derive(Drop)]
pub struct Sub;

impl Word for Sub {
    ghost terminal = { terminals.Sub };

    fn terminal() -> Terminal {
        Terminal::Sub
    }

    ghost plain = { refl };
}
