// A shelf and a sink in memory, which can be made to fail, and a sink that keeps nothing.
ghost use Rattle.std.specs.Prelude.{◌≡◌, ◌≢◌, ◌≤◌, ◌<◌, ◌↔◌, ◌⊎◌, ℕ, List, [], min, length, vec_capacity, Contains, None, Some, Ok, IsErr, IfOk, OnOk, OnErr};
ghost use Rattle.std.specs.Io.{ReadsAtMost, WritesAtMost};
ghost use Rattle.std.specs.Io.KnownBytes.{WriteAppends};
ghost use Rattle.sm_base.specs.Causes.{HasCause, CountsErr, CountsStall, next_count};
ghost use Rattle.sm_base.specs.Bytes.{CopiesKnown};

use crate::devices::{Failed, OutOfMemory, Shelf, Sink};
use std::alloc::Global;
use std::collections::BTreeMap;

/// Files in memory, which the shelf tells. Chosen fetches fail, so that a caller's way with faults
/// can be tried.
#[derive(Drop)]
pub struct MemShelf {
    alloc: Global,
    files: BTreeMap<String, Vec<u8>>,
    failing: Vec<u64>,
    calls: u64,
    faults: u64,
}

impl MemShelf {
    ghost use Rattle.sm_base.specs.Memory.{file_of, failing_fetches, fetch_count, fetch_faults};

    /// A shelf without files. The fetches whose numbers, counted from 1, are in `failing` will
    /// fail.
    ///
    /// # Errors
    ///
    /// `OutOfMemory`.
    pub fn new(alloc: Global, failing: &[u64]) -> Result<MemShelf, OutOfMemory>
        ensures empty { IfOk result (λ s. (q : List ℕ) → file_of s q ≡ None) }
        ensures failing { IfOk result (λ s. failing_fetches s ≡ failing.now) }
        ensures counts { IfOk result (λ s. (fetch_count s ≡ 0) × (fetch_faults s ≡ 0)) }
    {
        let failing = Vec::from_slice(alloc, failing)?;
        Ok(MemShelf {
            alloc,
            files: BTreeMap::new(alloc),
            failing,
            calls: 0,
            faults: 0,
        })
    }

    /// Adds a file, in the place of one of that name.
    ///
    /// # Errors
    ///
    /// `OutOfMemory`. Then each file is as before.
    pub fn add(&mut self, name: &str, bytes: &[u8]) -> Result<(), OutOfMemory>
        ensures added { OnOk result (file_of self.new name.now ≡ Some bytes.now) }
        ensures others { (q : List ℕ) → q ≢ name.now →
            file_of self.new q ≡ file_of self.old q }
        ensures err { OnErr result ((q : List ℕ) → file_of self.new q ≡ file_of self.old q) }
        ensures failing { failing_fetches self.new ≡ failing_fetches self.old }
        ensures calls { fetch_count self.new ≡ fetch_count self.old }
        ensures faults { fetch_faults self.new ≡ fetch_faults self.old }
    {
        let name = String::from_str(self.alloc, name)?;
        let bytes = Vec::from_slice(self.alloc, bytes)?;
        self.files.insert(name, bytes)?;
        Ok(())
    }
}

// Copies the bytes of the file from that place to the front of `into`, as many as there are and
// fit.
fn copy_from(file: &[u8], place: u64, into: &mut [u8]) -> usize
    ensures bound { result ≤ length into.new }
    ensures bytes { CopiesKnown (Some file.now) place result into.new }
{
    if place >= file.len() as u64 {
        return 0;
    }
    let rest = &file[place as usize..];
    let n = rest.len().min(into.len());
    into[..n].copy_from_slice(&rest[..n]);
    n
}

impl Shelf for MemShelf {
    ghost use Rattle.sm_base.specs.Memory.{file_of, failing_fetches, fetch_count, fetch_faults};

    ghost held = { file_of };

    ghost faults = { fetch_faults };

    /// As the trait says. A fetch fails exactly where its number is a failing one or there is no
    /// file of that name, and each failed fetch counts as one fault.
    fn fetch(&mut self, name: &str, place: u64, into: &mut [u8]) -> Result<usize, Failed>
        ensures bound { ReadsAtMost result into.new }
        ensures bytes { IfOk result (λ n.
            CopiesKnown (file_of self.old name.now) place n into.new) }
        ensures untouched { OnErr result (into.new ≡ into.old) }
        ensures same { (q : List ℕ) → file_of self.new q ≡ file_of self.old q }
        ensures cause { HasCause (fetch_faults self.old) (fetch_faults self.new) result }

        ensures planned { IsErr result ↔
            (Contains (failing_fetches self.old) (fetch_count self.new)
            ⊎ (file_of self.old name.now ≡ None)) }
        ensures counted { CountsErr (fetch_faults self.old) (fetch_faults self.new) result }
        ensures calls { fetch_count self.new ≡ next_count (fetch_count self.old) }
        ensures failing { failing_fetches self.new ≡ failing_fetches self.old }
    {
        self.calls = self.calls.saturating_add(1);
        if !self.failing.contains(&self.calls)
            && let Some(file) = self.files.get(name)
        {
            return Ok(copy_from(file, place, into));
        }
        self.faults = self.faults.saturating_add(1);
        Err(Failed)
    }
}

/// Keeps the bytes that it takes, and tells them. Its room is bounded in all and at each put, and
/// chosen puts fail, so that a caller's way with short and failed puts can be tried.
#[derive(Drop)]
pub struct MemSink {
    bytes: Vec<u8>,
    room: usize,
    most: usize,
    failing: Vec<u64>,
    calls: u64,
    faults: u64,
    ghost within: { length bytes.items ≤ room },
    ghost reserved: { room ≤ vec_capacity bytes },
}

impl MemSink {
    ghost use Rattle.sm_base.specs.Memory.{bytes_of, room_of, most_of, failing_puts, put_count, put_faults};

    /// An empty sink that takes at most `most` bytes at a put and `room` bytes in all. The puts
    /// whose numbers, counted from 1, are in `failing` will fail. The room is reserved here, so
    /// that no put takes memory.
    ///
    /// # Errors
    ///
    /// `OutOfMemory`.
    pub fn new(
        alloc: Global,
        room: usize,
        most: usize,
        failing: &[u64],
    ) -> Result<MemSink, OutOfMemory>
        ensures empty { IfOk result (λ s. bytes_of s ≡ []) }
        ensures limits { IfOk result (λ s. (room_of s ≡ room) × (most_of s ≡ most)) }
        ensures failing { IfOk result (λ s. failing_puts s ≡ failing.now) }
        ensures counts { IfOk result (λ s. (put_count s ≡ 0) × (put_faults s ≡ 0)) }
    {
        let bytes = Vec::with_capacity(alloc, room)?;
        let failing = Vec::from_slice(alloc, failing)?;
        Ok(MemSink {
            bytes,
            room,
            most,
            failing,
            calls: 0,
            faults: 0,
        })
    }

    /// All bytes that were put, in order.
    pub fn written(&self) -> &[u8]
        ensures { result.now ≡ bytes_of self.now }
    {
        &self.bytes
    }
}

impl Sink for MemSink {
    ghost use Rattle.sm_base.specs.Memory.{bytes_of, room_of, most_of, space_of};
    ghost use Rattle.sm_base.specs.Memory.{failing_puts, put_count, put_faults};

    ghost written = { λ s. Some (bytes_of s) };

    ghost faults = { put_faults };

    /// As the trait says. A put takes as much as its limits leave. It fails exactly where its
    /// number is a failing one, or the piece has bytes and no space is left for any, and each
    /// failed put counts as one fault.
    fn put(&mut self, piece: &[u8]) -> Result<usize, Failed>
        ensures bound { WritesAtMost result piece.now }
        ensures bytes { WriteAppends (Some (bytes_of self.old)) (Some (bytes_of self.new))
            result piece.now }
        ensures cause { HasCause (put_faults self.old) (put_faults self.new) result }
        ensures stuck { CountsStall (put_faults self.old) (put_faults self.new) result piece.now }

        ensures taken { IfOk result (λ n. n ≡ min (length piece.now) (space_of self.old)) }
        ensures planned { IsErr result ↔
            (Contains (failing_puts self.old) (put_count self.new)
            ⊎ ((0 < length piece.now) × (space_of self.old ≡ 0))) }
        ensures counted { CountsErr (put_faults self.old) (put_faults self.new) result }
        ensures calls { put_count self.new ≡ next_count (put_count self.old) }
        ensures room { room_of self.new ≡ room_of self.old }
        ensures most { most_of self.new ≡ most_of self.old }
        ensures failing { failing_puts self.new ≡ failing_puts self.old }
    {
        self.calls = self.calls.saturating_add(1);
        let space = self.most.min(self.room - self.bytes.len());
        if self.failing.contains(&self.calls) {
            self.faults = self.faults.saturating_add(1);
            return Err(Failed);
        }
        if space == 0 && !piece.is_empty() {
            self.faults = self.faults.saturating_add(1);
            return Err(Failed);
        }
        let n = piece.len().min(space);
        self.bytes.extend_from_slice(&piece[..n]).unwrap();
        Ok(n)
    }
}

/// Takes every byte, keeps none and tells none.
#[derive(Clone, Copy, Debug)]
pub struct NullSink;

impl NullSink {
    /// A sink that takes everything.
    pub fn new() -> NullSink
        ensures silent { ⟦<NullSink as Sink>⟧.written result ≡ None }
        ensures faultless { ⟦<NullSink as Sink>⟧.faults result ≡ 0 }
    {
        NullSink
    }
}

impl Sink for NullSink {
    ghost written = { λ s. None };

    ghost faults = { λ s. 0 };

    /// Takes the whole piece, and never fails.
    fn put(&mut self, piece: &[u8]) -> Result<usize, Failed>
        ensures bound { WritesAtMost result piece.now }
        ensures bytes { WriteAppends None None result piece.now }
        ensures cause { HasCause 0 0 result }
        ensures stuck { CountsStall 0 0 result piece.now }

        ensures whole { result ≡ Ok (length piece.now) }
    {
        Ok(piece.len())
    }
}
