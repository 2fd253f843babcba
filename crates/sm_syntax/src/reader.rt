//! Reading a text token by token.
ghost use Rattle.std.specs.Prelude.{◌≡◌, ◌≤◌, ◌<◌, ◌∷◌, [], ℕ, List, Err, true, false, IfOk, OnOk, length};
ghost use Rattle.sm_syntax.specs.Terminals.{code_of, opens, closes};
ghost use Rattle.sm_syntax.specs.Tokens.{tokens};
ghost use Rattle.sm_syntax.specs.Lexing.{is_end};
ghost use Rattle.sm_syntax.specs.Grammars.{leaf};
ghost use Rattle.sm_syntax.specs.Reading.{left, is_next, is_plain, unlisted, Leads, ReadsWhole};
ghost use Rattle.sm_syntax.specs.TreeSteps.{name_then, number_then};
ghost use Rattle.sm_syntax.specs.Grammar.{token_name, token_number};

use crate::failure::Failure;
use crate::part::Part;
use crate::place::Place;
use crate::terminal::Terminal;
use crate::token::{Token, next_token};
use crate::tree::{Name, Number};
use sqlite_items::Items;
use std::alloc::Global;
use std::marker::Model;

/// The rest of a text. Contracts see the tokens that are still to come, and how many brackets are open.
#[derive(Drop)]
pub struct Reader<'a> {
    token: Token<'a>,
    rest: &'a [u8],
    /// Where the rest begins.
    next: Place,
    depth: u32,
}

impl<'a> Model for Reader<'a> {
    ghost use Rattle.sm_syntax.specs.Reading.{Standing};
    ghost use Rattle.sm_syntax.specs.Tokens.{tokens_from};
    ghost use Rattle.sm_syntax.specs.Lexing.{seen, behind};

    ghost Value = { Standing };

    ghost view = { λ r. record { depth = r.depth; first = seen r.token; later = behind (seen r.token) (tokens_from r.rest.now r.next) } };
}

impl<'a> Reader<'a> {
    /// The reader of a whole text.
    pub fn new(text: &'a [u8]) -> Reader<'a>
        ensures all { left result ≡ tokens text.now }
        ensures closed { result.depth ≡ 0 }
    {
        let (token, rest, next) = next_token(text, Place::start());
        Reader {
            token,
            rest,
            next,
            depth: 0,
        }
    }

    /// The terminal of the next token.
    pub fn terminal(&self) -> Terminal
        ensures { result ≡ self.now.first.terminal }
    {
        self.token.terminal
    }

    /// The place of the next token.
    pub fn place(&self) -> Place
        ensures { result ≡ self.now.first.place }
    {
        self.token.place
    }

    /// Whether this terminal comes next.
    pub fn is(&self, terminal: Terminal) -> bool
        ensures { result ≡ is_next terminal self.now }
    {
        self.token.terminal == terminal
    }

    /// Whether the text is at its end.
    pub fn is_at_end(&self) -> bool
        ensures next { result ≡ is_next Terminal.End self.now }
        ensures last { result ≡ true → self.now.later ≡ [] }
    {
        self.token.terminal == Terminal::End
    }

    /// Passes over the next token, which isn't the end. So many brackets are open behind it.
    fn pass(&mut self, depth: u32)
        requires { is_end self.old.first ≡ false }
        ensures later { self.old.later ≡ left self.new }
        ensures depth { self.new.depth ≡ depth }
    {
        let (token, rest, next) = next_token(self.rest, self.next);
        self.token = token;
        self.rest = rest;
        self.next = next;
        self.depth = depth;
    }

    /// The bytes of the next token.
    fn word(&self) -> &[u8]
        ensures { result.now ≡ self.now.first.word }
    {
        self.token.word
    }

    /// What the digits of the next token write, if it is a number.
    fn value(&self) -> u64
        ensures { result ≡ self.now.first.value }
    {
        self.token.value
    }

    /// How many brackets are open.
    fn depth(&self) -> u32
        ensures { result ≡ self.now.depth }
    {
        self.depth
    }

    /// Passes over this terminal, which comes next.
    pub fn take(&mut self, terminal: Terminal)
        requires plain { is_plain terminal ≡ true }
        requires next { is_next terminal self.old ≡ true }
        ensures lead { Leads self.old (leaf (code_of terminal) ∷ []) (unlisted terminal) self.new [] }
        ensures shorter { length self.new.later < length self.old.later }
    {
        let _terminal = terminal;
        let depth = self.depth();
        self.pass(depth);
    }

    /// Passes over this terminal, if it comes next.
    pub fn accept(&mut self, terminal: Terminal) -> bool
        requires { is_plain terminal ≡ true }
        ensures next { result ≡ is_next terminal self.old }
        ensures lead { result ≡ true → Leads self.old (leaf (code_of terminal) ∷ []) (unlisted terminal) self.new [] }
        ensures shorter { result ≡ true → length self.new.later < length self.old.later }
        ensures kept { result ≡ false → self.new ≡ self.old }
    {
        if self.is(terminal) {
            self.take(terminal);
            true
        } else {
            false
        }
    }

    /// Passes over this terminal.
    pub fn expect(&mut self, terminal: Terminal) -> Result<(), Failure>
        requires { is_plain terminal ≡ true }
        ensures read { ReadsWhole self.old (leaf (code_of terminal) ∷ []) unlisted self.new result }
        ensures shorter { OnOk result (length self.new.later < length self.old.later) }
    {
        if !self.is(terminal) {
            return Err(Failure::Syntax);
        }
        self.take(terminal);
        Ok(())
    }

    /// Passes over this opening bracket, unless as many are open as may be.
    pub fn open(&mut self, bracket: Terminal) -> Result<(), Failure>
        requires { opens (code_of bracket) ≡ true }
        ensures read { ReadsWhole self.old (leaf (code_of bracket) ∷ []) unlisted self.new result }
        ensures shorter { OnOk result (length self.new.later < length self.old.later) }
    {
        if !self.is(bracket) {
            return Err(Failure::Syntax);
        }
        let depth = self.depth();
        if depth >= 64 {
            return Err(Failure::Nesting);
        }
        self.pass(depth + 1);
        Ok(())
    }

    /// Passes over this closing bracket.
    pub fn close(&mut self, bracket: Terminal) -> Result<(), Failure>
        requires { closes (code_of bracket) ≡ true }
        ensures read { ReadsWhole self.old (leaf (code_of bracket) ∷ []) unlisted self.new result }
        ensures shorter { OnOk result (length self.new.later < length self.old.later) }
    {
        if !self.is(bracket) {
            return Err(Failure::Syntax);
        }
        let depth = self.depth();
        self.pass(depth.saturating_sub(1));
        Ok(())
    }

    /// Reads a name.
    pub fn name(&mut self, alloc: Global) -> Result<Name, Failure>
        ensures read { ReadsWhole self.old (token_name ∷ []) name_then self.new result }
        ensures shorter { OnOk result (length self.new.later < length self.old.later) }
    {
        if !self.is(Terminal::Name) {
            return Err(Failure::Syntax);
        }
        let place = self.place();
        let text = Items::from_slice(alloc, self.word())?;
        let depth = self.depth();
        self.pass(depth);
        Ok(Name { place, text })
    }

    /// Reads a number.
    pub fn number(&mut self) -> Result<Number, Failure>
        ensures read { ReadsWhole self.old (token_number ∷ []) number_then self.new result }
        ensures shorter { OnOk result (length self.new.later < length self.old.later) }
    {
        if !self.is(Terminal::Number) {
            return Err(Failure::Syntax);
        }
        let place = self.place();
        let value = self.value();
        let depth = self.depth();
        self.pass(depth);
        Ok(Number { place, value })
    }
}

impl Part for Name {
    ghost symbols = { token_name ∷ [] };

    ghost steps = { name_then };

    fn read(alloc: Global, reader: &mut Reader<'_>) -> Result<Name, Failure> {
        reader.name(alloc)
    }
}

impl Part for Number {
    ghost symbols = { token_number ∷ [] };

    ghost steps = { number_then };

    fn read(_alloc: Global, reader: &mut Reader<'_>) -> Result<Number, Failure> {
        reader.number()
    }
}
