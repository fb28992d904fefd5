// A sink in memory, which fails where it is told to.

ghost use Rattle.std.specs.Prelude.{◌≡◌, ◌↔◌, ◌-◌, ◌<◌, ◌≤◌, ◌∷◌, ◌++◌, [], min, length, Some, OnOk, OnErr, IfOk, IsErr};
ghost use Rattle.std.specs.Io.{WritesAtMost};
ghost use Rattle.place_edges.specs.Causes.{HasCause, counted, faults_after};
ghost use Rattle.place_edges.specs.Sink.{Puts};
ghost use Rattle.place_edges.specs.MemSink.{FailsToPut, put_count};

use crate::failures::Failures;
use crate::{Failed, Sink};
use std::alloc::{AllocError, Global};
use std::marker::Model;

/// Bytes written to memory that is taken at the start. A put fails exactly where it is told to, and
/// where there are bytes and no room is left.
pub struct MemSink {
    bytes: Vec<u8>,
    failures: Failures,
    piece: usize,
    room: usize,
}

// By hand, so that letting one go is one call in the proof of whoever holds it.
impl Drop for MemSink {
    fn drop(self) {
        let Self {
            bytes: _bytes,
            failures: _failures,
            piece: _,
            room: _,
        } = self;
    }
}

impl Model for MemSink {
    ghost use Rattle.std.specs.Prelude.{◌<◌, ◌≤◌, vec_len};
    ghost use Rattle.std.specs.Vec.{vec_capacity};
    ghost use Rattle.place_edges.specs.MemSink.{MemorySink};

    ghost Value = { MemorySink };

    ghost view = { λ s. record {
      bytes = s.bytes.items;
      piece = s.piece;
      room = s.room;
      failing = s.failures.failing;
      calls = s.failures.calls;
      faults = s.failures.faults;
    } };

    ghost invariant = { λ s.
        (0 < s.piece) × (s.room ≤ vec_capacity s.bytes) × (vec_len s.bytes ≤ s.room) };
}

impl MemSink {
    /// A sink with room for so many bytes, which takes at most `piece` of them at once.
    pub fn new(alloc: Global, piece: usize, room: usize) -> Result<MemSink, AllocError>
        requires { 0 < piece }
        ensures { IfOk result (λ s. s ≡ record {
          bytes = [];
          piece = piece;
          room = room;
          failing = [];
          calls = 0;
          faults = 0;
        }) }
    {
        Ok(MemSink {
            bytes: Vec::with_capacity(alloc, room)?,
            failures: Failures::new(alloc),
            piece,
            room,
        })
    }

    /// Lets the put of this number fail, counted from 1.
    pub fn fail_at(&mut self, call: u64) -> Result<(), AllocError>
        ensures told { OnOk result (self.new ≡ record self.old {
          failing = self.old.failing ++ call ∷ [];
        }) }
        ensures same { OnErr result (self.new ≡ self.old) }
    {
        self.failures.fail_at(call)
    }

    /// What was written.
    pub fn bytes(&self) -> &[u8]
        ensures { result.now ≡ self.now.bytes }
    {
        &self.bytes
    }

    /// How many puts failed, up to 2^64 - 1.
    pub fn faults(&self) -> u64
        ensures { result ≡ self.now.faults }
    {
        self.failures.faults()
    }
}

impl Sink for MemSink {
    ghost written = { λ s. Some s.bytes };

    ghost faults = { λ s. s.faults };

    fn put(&mut self, bytes: &[u8]) -> Result<usize, Failed>
        // As every sink.
        ensures bound { WritesAtMost result bytes.now }
        ensures bytes { Puts (Some self.old.bytes) (Some self.new.bytes) result bytes.now }
        ensures cause { HasCause self.old.faults self.new.faults result }

        // Exactly when it fails, how much it takes, and what it changes.
        ensures fails { IsErr result ↔ FailsToPut self.old self.new.calls bytes.now }
        ensures count { IfOk result (λ n. n ≡ put_count self.old bytes.now) }
        ensures changes { self.new ≡ record self.old {
          bytes = self.new.bytes;
          calls = counted self.old.calls;
          faults = faults_after self.old.faults result;
        } }
    {
        let told = self.failures.next_fails();
        let room = self.room - self.bytes.len();
        let count = bytes.len().min(self.piece).min(room);
        if told || (count == 0 && !bytes.is_empty()) {
            return Err(self.failures.fault());
        }
        match self.bytes.extend_from_slice(&bytes[..count]) {
            Ok(()) => Ok(count),
            Err(_) => unreachable!(),
        }
    }
}
