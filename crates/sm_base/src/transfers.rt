// A whole file in, and a whole piece out.
ghost use Rattle.std.specs.Prelude.{◌≡◌, ◌≤◌, ◌<◌, ◌+◌, ℕ, List, length, vec_len, IfOk, OnOk, OnErr, IfErr, IfSome};
ghost use Rattle.std.specs.Io.KnownBytes.{Appends};
ghost use Rattle.sm_base.specs.Causes.{Rose, IsReadCause, IsFetchCause};
ghost use Rattle.sm_base.specs.Bytes.{AppendsFront, Continues};

use crate::devices::{PIECE, Shelf, Sink};
use std::alloc::Global;

/// Why a file was not read.
#[derive(Clone, Copy, Debug, PartialEq, Eq)]
pub enum ReadRefusal {
    /// A fetch failed, so the shelf's count of faults rose.
    ReadFault,
    /// The file is longer than the bound. Reading stopped at `found` bytes, which is the bound plus
    /// one.
    TooLarge { found: u64 },
    /// Memory ran out.
    OutOfMemory,
}

/// A sink didn't take all of a piece, and its count of faults rose.
#[derive(Clone, Copy, Debug, PartialEq, Eq)]
pub struct WriteFault;

// Reads some more bytes of the file behind those that are here, and says how many: 0 only at its
// end.
fn fetch_more<F: Shelf>(
    shelf: &mut F,
    name: &str,
    bytes: &mut Vec<u8>,
    most: usize,
) -> Result<usize, ReadRefusal>
    requires { 0 < most }
    ensures within { IfOk result (λ n. n ≤ most) }
    ensures count { IfOk result (λ n. vec_len bytes.new ≡ vec_len bytes.old + n) }
    ensures file { IfOk result (λ n. IfSome (F.held shelf.old name.now) (λ file.
        Continues file bytes.old.items n bytes.new.items)) }
    ensures cause { IfErr result (IsFetchCause (F.faults shelf.old) (F.faults shelf.new)) }
    ensures same { (q : List ℕ) → F.held shelf.new q ≡ F.held shelf.old q }
    ensures later { F.faults shelf.old ≤ F.faults shelf.new }
{
    let mut piece = [0u8; PIECE];
    let room = most.min(PIECE);
    let Ok(n) = shelf.fetch(name, bytes.len() as u64, &mut piece[..room]) else {
        return Err(ReadRefusal::ReadFault);
    };
    match bytes.extend_from_slice(&piece[..n]) {
        Ok(()) => Ok(n),
        Err(_) => Err(ReadRefusal::OutOfMemory),
    }
}

/// The bytes of the named file, where they are no more than `bound`. They are those that the shelf
/// tells, if it tells any.
///
/// # Errors
///
/// - `ReadFault`: only where the shelf's count of faults rose in this call.
/// - `TooLarge`: exactly where `bound + 1` bytes were taken, which are then `found`. A file of
///   `bound` bytes is read.
/// - `OutOfMemory`.
///
/// What the shelf holds is as before in each case.
pub fn read_all<F: Shelf>(
    alloc: Global,
    shelf: &mut F,
    name: &str,
    bound: u64,
) -> Result<Vec<u8>, ReadRefusal>
    ensures bytes { IfOk result (λ v.
        IfSome (F.held shelf.old name.now) (λ file. v.items ≡ file)) }
    ensures within { IfOk result (λ v. vec_len v ≤ bound) }
    ensures cause { IfErr result
        (IsReadCause (F.held shelf.old name.now) bound (F.faults shelf.old) (F.faults shelf.new)) }

    ensures same { (q : List ℕ) → F.held shelf.new q ≡ F.held shelf.old q }
    ensures later { F.faults shelf.old ≤ F.faults shelf.new }
{
    let mut bytes: Vec<u8> = Vec::new(alloc);
    let bound = bound as usize;
    while bytes.len() <= bound {
        let most = (bound - bytes.len()).saturating_add(1);
        if fetch_more(shelf, name, &mut bytes, most)? == 0 {
            return Ok(bytes);
        }
    }
    Err(ReadRefusal::TooLarge {
        found: bytes.len() as u64,
    })
}

/// Puts all of the piece, in as many puts as the sink needs.
///
/// # Errors
///
/// `WriteFault`, only where the sink's count of faults rose in this call. What was appended is then
/// some front of the piece.
pub fn put_all<S: Sink>(sink: &mut S, piece: &[u8]) -> Result<(), WriteFault>
    ensures ok { OnOk result (Appends (S.written sink.old) (S.written sink.new) piece.now) }
    ensures front { AppendsFront (S.written sink.old) (S.written sink.new) piece.now }
    ensures fault { OnErr result (Rose (S.faults sink.old) (S.faults sink.new)) }
    ensures later { S.faults sink.old ≤ S.faults sink.new }
{
    let mut at = 0;
    while at < piece.len() {
        match sink.put(&piece[at..]) {
            Err(_) | Ok(0) => return Err(WriteFault),
            Ok(n) => at += n,
        }
    }
    Ok(())
}
