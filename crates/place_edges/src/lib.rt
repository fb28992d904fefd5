//! What the program meets of the outside: shelves, from which files are read, and sinks, to which
//! texts are written.
//!
//! What a stream of the system gave or took is bound to what std tells of its reader or writer: a
//! read answers the bytes that it gave, and none only at the end; a put answers the bytes that were
//! written. No clause says that a stream was flushed, that `RealShelf` and `RealSink` call what is
//! so bound, that a file is opened to be read and is not made anew, or with which status a program
//! ends: tests and runs of the built programs show these.
#![tactic(auto)]

// Which calls are told to fail.
mod failures;
// Files held in memory, and the one that is being read.
mod held;
// A shelf in memory.
mod mem_shelf;
// A sink in memory.
mod mem_sink;
// The files and streams of the system.
mod real;
// A shelf that holds the same byte many times.
mod repeat;
// What a shelf is.
mod shelf;
// What a sink is.
mod sink;
// A shelf and a sink that never fail.
mod sure;
// A file read whole, and a text written whole.
mod whole;

pub use mem_shelf::MemShelf;
pub use mem_sink::MemSink;
pub use real::{RealShelf, RealSink};
pub use repeat::RepeatShelf;
pub use shelf::{Failed, Shelf};
pub use sink::Sink;
pub use sure::{SureShelf, SureSink};
pub use whole::{ReadStop, read_whole, write_whole};

#[cfg(test)]
mod tests;
