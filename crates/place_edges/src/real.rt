// The files and streams of the system. What they hold is not told.

ghost use Rattle.std.specs.Prelude.{◌≡◌, ◌<◌, ℕ, None, true, IfOk, length, take};
ghost use Rattle.std.specs.Io.{ReadsAtMost, WritesAtMost};
ghost use Rattle.std.specs.Io.KnownBytes.{Appends, Keeps, ReadConsumes, WriteAppends};
ghost use Rattle.place_edges.specs.Causes.{HasCause, faults_after};
ghost use Rattle.place_edges.specs.Shelf.{tally_after};
ghost use Rattle.place_edges.specs.Sink.{Puts};

use crate::{Failed, Shelf, Sink};
use std::fs::File;
use std::io::{self, ErrorKind, Read, Write};
use std::marker::Model;
use std::rt::Files;

/// The files of the system, by their paths. It tells no bytes and grants every name.
///
/// A file that is missing or may not be read fails to open. A directory opens, and its first read
/// fails.
#[derive(Drop)]
pub struct RealShelf<R: Files + Drop> {
    rt: R,
    file: Option<R::File>,
    faults: u64,
    tally: u64,
}

impl<R: Files + Drop> Model for RealShelf<R> {
    ghost use Rattle.place_edges.specs.RealShelf.{Counts};

    ghost Value = { Counts };

    ghost view = { λ s. record { faults = s.faults; tally = s.tally } };
}

impl<R: Files + Drop> RealShelf<R> {
    /// The files that this runtime reaches.
    pub fn new(rt: R) -> RealShelf<R>
        ensures { result ≡ record { faults = 0; tally = 0 } }
    {
        RealShelf {
            rt,
            file: None,
            faults: 0,
            tally: 0,
        }
    }
}

impl<R: Files + Drop> Shelf for RealShelf<R> {
    ghost files = { λ _. None };

    ghost rest = { λ _. None };

    ghost grants = { λ _ _. true };

    ghost faults = { λ s. s.faults };

    ghost tally = { λ s. s.tally };

    fn open(&mut self, name: &str) -> Result<(), Failed>
        ensures cause { HasCause self.old.faults self.new.faults result }
        ensures changes { self.new ≡ record self.old {
          faults = faults_after self.old.faults result;
        } }
    {
        self.file = None;
        match File::open(&self.rt, name) {
            Ok(file) => {
                self.file = Some(file);
                Ok(())
            }
            Err(_) => {
                self.faults = self.faults.saturating_add(1);
                Err(Failed)
            }
        }
    }

    fn take(&mut self, into: &mut [u8]) -> Result<usize, Failed>
        ensures bound { ReadsAtMost result into.new }
        ensures cause { HasCause self.old.faults self.new.faults result }
        ensures changes { self.new ≡ record {
          faults = faults_after self.old.faults result;
          tally = tally_after self.old.tally result;
        } }
    {
        let Some(file) = &mut self.file else {
            return Ok(0);
        };
        take_from(file, into, &mut self.faults, &mut self.tally)
    }
}

// Reads once, and counts what was read, or the fault. It gives none only at the reader's end.
pub(crate) fn take_from<R: Read>(
    reader: &mut R,
    into: &mut [u8],
    faults: &mut u64,
    tally: &mut u64,
) -> Result<usize, Failed>
    ensures bound { ReadsAtMost result into.new }
    ensures cause { HasCause faults.old faults.new result }
    ensures bytes { ReadConsumes (R.remaining reader.old) (R.remaining reader.new) result into.new }
    ensures faults { faults.new ≡ faults_after faults.old result }
    ensures tally { tally.new ≡ tally_after tally.old result }
{
    match read_once(reader, into) {
        Ok(count) => {
            *tally = tally.saturating_add(count as u64);
            Ok(count)
        }
        Err(_) => {
            *faults = faults.saturating_add(1);
            Err(Failed)
        }
    }
}

/// A stream of the system, which tells nothing of what it got.
///
/// A put flushes the stream before it answers. Where the flush fails the put fails, though the
/// stream may have got some of its bytes.
#[derive(Drop)]
pub struct RealSink<W: Write> {
    inner: W,
    faults: u64,
}

impl<W: Write> Model for RealSink<W> {
    ghost Value = { ℕ };

    ghost view = { λ s. s.faults };
}

impl<W: Write> RealSink<W> {
    /// A sink over this stream.
    pub fn new(inner: W) -> RealSink<W>
        ensures { result ≡ 0 }
    {
        RealSink { inner, faults: 0 }
    }
}

impl<W: Write> Sink for RealSink<W> {
    ghost written = { λ _. None };

    ghost faults = { λ faults. faults };

    fn put(&mut self, bytes: &[u8]) -> Result<usize, Failed>
        ensures bound { WritesAtMost result bytes.now }
        ensures bytes { Puts None None result bytes.now }
        ensures cause { HasCause self.old self.new result }
        ensures changes { self.new ≡ faults_after self.old result }
    {
        if bytes.is_empty() {
            return Ok(0);
        }
        put_into(&mut self.inner, bytes, &mut self.faults)
    }
}

// Writes once and flushes, and counts the fault where one of them fails.
fn put_into<W: Write>(inner: &mut W, bytes: &[u8], faults: &mut u64) -> Result<usize, Failed>
    requires { 0 < length bytes.now }
    ensures bound { WritesAtMost result bytes.now }
    ensures some { IfOk result (λ n. 0 < n) }
    ensures bytes { IfOk result (λ n.
        Appends (W.contents inner.old) (W.contents inner.new) (take n bytes.now)) }
    ensures faults { faults.new ≡ faults_after faults.old result }
    ensures cause { HasCause faults.old faults.new result }
{
    if let Ok(count) = write_once(inner, bytes)
        && count > 0
        && flush_once(inner).is_ok()
    {
        return Ok(count);
    }
    *faults = faults.saturating_add(1);
    Err(Failed)
}

// Reads once, and again where the system interrupted the read.
#[tactic(auto, using(crate::proofs::Known::keeps_same, crate::proofs::Known::keeps_keeps, crate::proofs::Known::keeps_read))]
fn read_once<R: Read>(reader: &mut R, into: &mut [u8]) -> io::Result<usize>
    ensures bound { ReadsAtMost result into.new }
    ensures bytes { ReadConsumes (R.remaining reader.old) (R.remaining reader.new) result into.new }
{
    for _ in 0..u64::MAX {
        match reader.read(into) {
            Err(error) if error.kind() == ErrorKind::Interrupted => {}
            answer => return answer,
        }
    }
    Err(ErrorKind::Interrupted.into())
}

// Writes once, and again where the system interrupted the write.
#[tactic(auto, using(crate::proofs::Known::keeps_same, crate::proofs::Known::keeps_keeps, crate::proofs::Known::keeps_write))]
fn write_once<W: Write>(writer: &mut W, bytes: &[u8]) -> io::Result<usize>
    ensures bound { WritesAtMost result bytes.now }
    ensures bytes { WriteAppends (W.contents writer.old) (W.contents writer.new) result bytes.now }
{
    for _ in 0..u64::MAX {
        match writer.write(bytes) {
            Err(error) if error.kind() == ErrorKind::Interrupted => {}
            answer => return answer,
        }
    }
    Err(ErrorKind::Interrupted.into())
}

// Flushes once, and again where the system interrupted the flush.
#[tactic(auto, using(crate::proofs::Known::keeps_same, crate::proofs::Known::keeps_keeps))]
fn flush_once<W: Write>(writer: &mut W) -> io::Result<()>
    ensures { Keeps (W.contents writer.old) (W.contents writer.new) }
{
    for _ in 0..u64::MAX {
        match writer.flush() {
            Err(error) if error.kind() == ErrorKind::Interrupted => {}
            answer => return answer,
        }
    }
    Err(ErrorKind::Interrupted.into())
}
