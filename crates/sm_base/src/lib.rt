//! Bytes in and out with counted faults, and whole numbers as text.
//!
//! A [`Shelf`] lends named files, and a [`Sink`] takes bytes. Either may fail at any call. It then
//! counts a fault, so a caller is known to answer a fault only where the device really had one:
//! each call that can answer it says that the count rose. What a device holds is its ghost member
//! `held` or `written`, which may be nothing where the bytes are outside the program.
//!
//! - [`read_all`] reads a whole file up to a bound, and [`put_all`] puts a whole piece.
//! - [`MemShelf`], [`MemSink`] and [`NullSink`] work in memory, the first two with limits and
//!   faults of the caller's choice.
//! - [`DiskShelf`] and [`StdSink`] are the file system and standard output. Nothing is claimed of
//!   the bytes there.
//! - [`read_whole`] and [`push_whole`] turn canonical decimal text into a whole number and back.
#![tactic(auto)]

mod devices;
mod memory;
mod outside;
mod transfers;
mod whole;

pub use devices::{Failed, OutOfMemory, Shelf, Sink};
pub use memory::{MemShelf, MemSink, NullSink};
pub use outside::{DiskShelf, StdSink};
pub use transfers::{ReadRefusal, WriteFault, put_all, read_all};
pub use whole::{push_whole, read_whole};
