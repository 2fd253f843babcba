// A shelf of named files and a sink of bytes, each with a count of its faults that never falls.
ghost use Rattle.std.specs.Prelude.{◌≡◌, ◌<◌, ℕ, List, Option, IfOk, OnErr, length};
ghost use Rattle.std.specs.Io.{ReadsAtMost, WritesAtMost};
ghost use Rattle.std.specs.Io.KnownBytes.{WriteAppends};
ghost use Rattle.sm_base.specs.Causes.{HasCause, CountsStall};
ghost use Rattle.sm_base.specs.Bytes.{CopiesKnown};

use std::alloc::{AllocError, AllocFailed};

// The most bytes of a file that are read at once, into a buffer on the stack.
pub(crate) const PIECE: usize = 65_536;

/// A shelf or a sink refused one call, and has counted this fault.
#[derive(Clone, Copy, Debug, PartialEq, Eq)]
pub struct Failed;

/// Memory ran out.
#[derive(Clone, Copy, Debug, PartialEq, Eq)]
pub struct OutOfMemory;

impl From<AllocError> for OutOfMemory {
    fn from(_: AllocError) -> OutOfMemory {
        OutOfMemory
    }
}

impl<T: Drop> From<AllocFailed<T>> for OutOfMemory {
    fn from(_: AllocFailed<T>) -> OutOfMemory {
        OutOfMemory
    }
}

/// Named files that can be read from any place.
///
/// What a shelf says of its files stands in its ghost member `held`. A shelf over the outside world
/// says nothing, and then no more is known of the bytes than that there are as many as were
/// answered.
pub trait Shelf {
    /// The bytes of the file of that name. `None` where the shelf lacks the file or doesn't tell
    /// its bytes.
    ghost held: { Self → List ℕ → Option (List ℕ) };

    /// How often a fetch failed. The count never falls, and stands still at the end of `u64`.
    ghost faults: { Self → ℕ };

    /// Copies bytes of the named file, from the byte numbered `place` on (the first is 0), to the
    /// front of `into`, and answers how many. Into a nonempty `into` it copies none exactly at or
    /// past the end of the file.
    ///
    /// # Errors
    ///
    /// `Failed`, only where the count of faults rose, which a name that the shelf lacks makes it
    /// do. Then `into` is unchanged.
    fn fetch(&mut self, name: &str, place: u64, into: &mut [u8]) -> Result<usize, Failed>
        ensures bound { ReadsAtMost result into.new }
        ensures bytes { IfOk result (λ n. CopiesKnown (held self.old name.now) place n into.new) }
        ensures untouched { OnErr result (into.new ≡ into.old) }
        ensures same { (q : List ℕ) → held self.new q ≡ held self.old q }
        ensures cause { HasCause (faults self.old) (faults self.new) result };
}

/// Takes bytes in order.
///
/// What a sink says of the bytes that it took stands in its ghost member `written`.
pub trait Sink {
    /// All bytes taken so far, in order. `None` where the sink doesn't tell them.
    ghost written: { Self → Option (List ℕ) };

    /// How often a put failed, or took nothing of a piece that has bytes. The count never falls,
    /// and stands still at the end of `u64`.
    ghost faults: { Self → ℕ };

    /// Appends some front of the piece, and answers how many bytes that front has.
    ///
    /// # Errors
    ///
    /// `Failed`, only where the count of faults rose. Then nothing was appended. The count rises
    /// also where the answer is `Ok(0)` for a piece that has bytes.
    fn put(&mut self, piece: &[u8]) -> Result<usize, Failed>
        ensures bound { WritesAtMost result piece.now }
        ensures bytes { WriteAppends (written self.old) (written self.new) result piece.now }
        ensures cause { HasCause (faults self.old) (faults self.new) result }
        ensures stuck { CountsStall (faults self.old) (faults self.new) result piece.now };
}
