// The file system and standard output, as a shelf and a sink that tell no bytes.
ghost use Rattle.std.specs.Prelude.{◌≡◌, ◌≤◌, ◌<◌, ℕ, List, Option, None, Some, length, IfOk, IfSome, OnErr};
ghost use Rattle.std.specs.Io.{ReadsAtMost, WritesAtMost};
ghost use Rattle.std.specs.Io.KnownBytes.{WriteAppends};
ghost use Rattle.sm_base.specs.Causes.{HasCause, CountsErr, CountsStall};
ghost use Rattle.sm_base.specs.Bytes.{CopiesKnown};

use crate::devices::{Failed, PIECE, Shelf, Sink};
use std::fs::File;
use std::io::{Read, Seek, SeekFrom};
use std::rt::Files;

/// The files of the system, by their paths. The shelf tells no bytes, since no proof can know what
/// a file holds.
#[derive(Drop)]
pub struct DiskShelf<'a, R> {
    rt: &'a R,
    faults: u64,
}

impl<'a, R: Files> DiskShelf<'a, R> {
    ghost use Rattle.sm_base.specs.Outside.{disk_faults};

    /// A shelf over the file system that the runtime gives.
    pub fn new(rt: &'a R) -> DiskShelf<'a, R>
        ensures faultless { disk_faults result ≡ 0 }
    {
        DiskShelf { rt, faults: 0 }
    }
}

// Opens the file, and reads once from that place. Nothing where one of these fails.
fn read_at<R: Files>(rt: &R, name: &str, place: u64, piece: &mut [u8]) -> Option<usize>
    ensures { IfSome result (λ n. n ≤ length piece.new) }
{
    let mut file = File::open(rt, name).ok()?;
    file.seek(SeekFrom::Start(place)).ok()?;
    file.read(piece).ok()
}

impl<R: Files> Shelf for DiskShelf<'_, R> {
    ghost use Rattle.sm_base.specs.Outside.{disk_file, disk_faults};

    ghost held = { disk_file };

    ghost faults = { disk_faults };

    /// As the trait says. Each error of the file system counts as one fault.
    fn fetch(&mut self, name: &str, place: u64, into: &mut [u8]) -> Result<usize, Failed>
        ensures bound { ReadsAtMost result into.new }
        ensures bytes { IfOk result (λ n.
            CopiesKnown (disk_file self.old name.now) place n into.new) }
        ensures untouched { OnErr result (into.new ≡ into.old) }
        ensures same { (q : List ℕ) → disk_file self.new q ≡ disk_file self.old q }
        ensures cause { HasCause (disk_faults self.old) (disk_faults self.new) result }

        ensures counted { CountsErr (disk_faults self.old) (disk_faults self.new) result }
    {
        // What a failed read leaves in its buffer isn't known, so that buffer is not the caller's.
        let mut piece = [0u8; PIECE];
        let most = into.len().min(PIECE);
        match read_at(self.rt, name, place, &mut piece[..most]) {
            Some(n) => {
                into[..n].copy_from_slice(&piece[..n]);
                Ok(n)
            }
            None => {
                self.faults = self.faults.saturating_add(1);
                Err(Failed)
            }
        }
    }
}

/// Standard output. The sink tells no bytes, since no proof can know what became of them.
#[derive(Drop)]
pub struct StdSink<'a, R> {
    rt: &'a R,
    faults: u64,
}

impl<'a, R: Print> StdSink<'a, R> {
    ghost use Rattle.sm_base.specs.Outside.{output_faults};

    /// A sink over the standard output that the runtime gives.
    pub fn new(rt: &'a R) -> StdSink<'a, R>
        ensures faultless { output_faults result ≡ 0 }
    {
        StdSink { rt, faults: 0 }
    }
}

impl<R: Print> Sink for StdSink<'_, R> {
    ghost use Rattle.sm_base.specs.Outside.{output_bytes, output_faults};

    ghost written = { output_bytes };

    ghost faults = { output_faults };

    /// As the trait says. The count of faults rises at each error of standard output, and where it
    /// takes nothing of a piece that has bytes, and stays otherwise.
    fn put(&mut self, piece: &[u8]) -> Result<usize, Failed>
        ensures bound { WritesAtMost result piece.now }
        ensures bytes { WriteAppends (output_bytes self.old) (output_bytes self.new) result piece.now }
        ensures cause { HasCause (output_faults self.old) (output_faults self.new) result }
        ensures stuck { CountsStall (output_faults self.old) (output_faults self.new) result piece.now }

        // No fault is counted where some bytes were taken, or where there were none to take.
        ensures smooth { IfOk result (λ n. (n ≡ 0 → length piece.now ≡ 0) →
            output_faults self.new ≡ output_faults self.old) }
    {
        match self.rt.write_some(piece) {
            Ok(n) => {
                if n == 0 && !piece.is_empty() {
                    self.faults = self.faults.saturating_add(1);
                }
                Ok(n)
            }
            Err(_) => {
                self.faults = self.faults.saturating_add(1);
                Err(Failed)
            }
        }
    }
}
