//! The bytes of a log, piece by piece.
ghost use Rattle.std.specs.Prelude.{◌≡◌, ◌≤◌, ◌<◌, ◌+◌, ◌++◌, ◌^◌, ℕ, List, [], length, take, drop, IfOk, IfErr, IfSome, IfNone, OnOk};
ghost use Rattle.sm_check.specs.Feeds.{Fed, HasNoEnd, IsPiece, Fetches, Readies};
ghost use Rattle.sm_check.specs.Checks.{IsFeedCause};

use crate::refusal::CheckRefusal;
use sm_base::Shelf;
use sm_step::is_too_long;
use std::alloc::{AllocError, Global};
use std::marker::Model;

/// How many bytes a log has at most.
const LOG_LIMIT: u64 = 1 << 40;

/// The most bytes that are fetched at once, into a buffer on the stack.
const PIECE: usize = 65_536;

/// What was fetched of a log and isn't taken yet. The bytes before `from` were taken.
#[derive(Drop)]
pub(crate) struct Feed {
    alloc: Global,
    bytes: Vec<u8>,
    from: usize,
    /// How many bytes were fetched in all.
    place: u64,
}

impl Model for Feed {
    ghost use Rattle.std.specs.Prelude.{◌≤◌, ◌^◌, length, drop};
    ghost use Rattle.sm_check.specs.Feeds.{Fed};

    ghost Value = { Fed };

    ghost view = { λ f. record { left = drop f.from f.bytes.items; place = f.place } };

    ghost invariant = { λ f. (f.from ≤ length f.bytes.items) × (f.place ≤ 2 ^ 40) };
}

/// Where the first line ends of which no byte before `from` is the end: how many bytes it has, its end counted.
fn line_end(bytes: &[u8], from: usize) -> Option<usize>
    requires within { from ≤ length bytes.now }
    requires before { HasNoEnd (take from bytes.now) }
    ensures some { IfSome result (λ n. (n ≤ length bytes.now) × IsPiece (take n bytes.now)) }
    ensures none { IfNone result (HasNoEnd bytes.now) }
{
    for place in from..bytes.len() {
        if bytes[place] == b'\n' {
            return Some(place + 1);
        }
    }
    None
}

impl Feed {
    /// A feed of which nothing was fetched.
    pub(crate) fn new(alloc: Global) -> Feed
        ensures { result ≡ record { left = []; place = 0 } }
    {
        Feed {
            alloc,
            bytes: Vec::new(alloc),
            from: 0,
            place: 0,
        }
    }

    /// What was fetched and isn't taken.
    pub(crate) fn left(&self) -> &[u8]
        ensures { result.now ≡ self.now.left }
    {
        &self.bytes[self.from..]
    }

    /// Takes bytes of what is left.
    pub(crate) fn take(&mut self, count: usize)
        requires { count ≤ length self.old.left }
        ensures { self.new ≡ record { left = drop count self.old.left; place = self.old.place } }
    {
        self.from += count;
    }

    /// Adds bytes that were fetched, and lets go of those that were taken.
    fn add(&mut self, more: &[u8]) -> Result<(), AllocError>
        requires { self.old.place + length more.now ≤ 2 ^ 40 }
        ensures { OnOk result (self.new ≡ record { left = self.old.left ++ more.now; place = self.old.place + length more.now }) }
    {
        if self.from > 0 {
            self.bytes = Vec::from_slice(self.alloc, self.left())?;
            self.from = 0;
        }
        self.bytes.extend_from_slice(more)?;
        self.place += more.len() as u64;
        Ok(())
    }

    /// Fetches some more bytes, and answers how many: none only at the end of the file.
    fn fetch<F: Shelf>(&mut self, shelf: &mut F, name: &str) -> Result<usize, CheckRefusal>
        ensures bytes { IfOk result (Fetches (F.held shelf.old name.now) self.old self.new) }
        ensures limit { OnOk result (self.new.place ≤ 2 ^ 40) }
        ensures cause { IfErr result (IsFeedCause (F.held shelf.old name.now) (F.faults shelf.old) (F.faults shelf.new)) }
        ensures same { (q : List ℕ) → F.held shelf.new q ≡ F.held shelf.old q }
        ensures later { F.faults shelf.old ≤ F.faults shelf.new }
    {
        let mut piece = [0u8; PIECE];
        let most = (LOG_LIMIT + 1 - self.place).min(PIECE as u64) as usize;
        let Ok(count) = shelf.fetch(name, self.place, &mut piece[..most]) else {
            return Err(CheckRefusal::ReadFault);
        };
        if count as u64 > LOG_LIMIT - self.place {
            return Err(CheckRefusal::LogTooLong);
        }
        self.add(&piece[..count])?;
        Ok(count)
    }

    #[tactic(auto, using(crate::proofs::Feeding::gathers_none, crate::proofs::Feeding::gathers_more, crate::proofs::Feeding::readies_piece, crate::proofs::Feeding::readies_end, crate::proofs::Feeding::readies_long, crate::proofs::Feeding::fetch_falls, crate::proofs::Feeding::seen_within, crate::proofs::Feeding::seen_none))]
    /// Fetches until a whole line is left at the front, or the file is at its end, or what is left is more than its line may
    /// have: how many bytes the line has then, or what is left of it has. So what is held is never much more than a line may
    /// have, in whatever file.
    pub(crate) fn next_piece<F: Shelf>(
        &mut self,
        shelf: &mut F,
        name: &str,
    ) -> Result<usize, CheckRefusal>
        requires { self.old.place ≤ 2 ^ 40 }
        ensures bytes { IfOk result (Readies (F.held shelf.old name.now) self.old self.new) }
        ensures limit { OnOk result (self.new.place ≤ 2 ^ 40) }
        ensures cause { IfErr result (IsFeedCause (F.held shelf.old name.now) (F.faults shelf.old) (F.faults shelf.new)) }
        ensures same { (q : List ℕ) → F.held shelf.new q ≡ F.held shelf.old q }
        ensures later { F.faults shelf.old ≤ F.faults shelf.new }
    {
        let mut seen = 0;
        loop {
            if let Some(count) = line_end(self.left(), seen) {
                return Ok(count);
            }
            seen = self.left().len();
            if is_too_long(self.left()) {
                return Ok(seen);
            }
            if self.fetch(shelf, name)? == 0 {
                return Ok(seen);
            }
        }
    }
}
