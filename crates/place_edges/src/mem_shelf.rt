// A shelf in memory, which fails where it is told to.

ghost use Rattle.std.specs.Prelude.{◌≡◌, ◌↔◌, ◌∷◌, ◌++◌, [], min, length, Some, None, true, OnOk, OnErr, IfOk, IsErr, Contains};
ghost use Rattle.std.specs.Io.{ReadsAtMost};
ghost use Rattle.std.specs.String.{string_bytes};
ghost use Rattle.place_edges.specs.Causes.{HasCause, counted, faults_after};
ghost use Rattle.place_edges.specs.Shelf.{Opens, Takes, byte_count, tally_after};
ghost use Rattle.place_edges.specs.HeldFiles.{files_of};
ghost use Rattle.place_edges.specs.MemShelf.{FailsToOpen};

use crate::failures::Failures;
use crate::held::HeldFiles;
use crate::{Failed, Shelf};
use std::alloc::{AllocError, Global};
use std::marker::Model;

/// Files held in memory. A call fails exactly where it is told to, and an open also where the name
/// is not held.
pub struct MemShelf {
    held: HeldFiles,
    failures: Failures,
    tally: u64,
}

// By hand, so that letting one go is one call in the proof of whoever holds it.
impl Drop for MemShelf {
    fn drop(self) {
        let Self {
            held: _held,
            failures: _failures,
            tally: _,
        } = self;
    }
}

impl Model for MemShelf {
    ghost use Rattle.place_edges.specs.MemShelf.{MemoryShelf};

    ghost Value = { MemoryShelf };

    ghost view = { λ s. record {
      entries = s.held.entries;
      rest = s.held.rest;
      tally = s.tally;
      failing = s.failures.failing;
      calls = s.failures.calls;
      faults = s.failures.faults;
    } };
}

impl MemShelf {
    /// A shelf that holds nothing.
    pub fn new(alloc: Global) -> MemShelf
        ensures { result ≡ record {
          entries = [];
          rest = Some [];
          tally = 0;
          failing = [];
          calls = 0;
          faults = 0;
        } }
    {
        MemShelf {
            held: HeldFiles::new(alloc),
            failures: Failures::new(alloc),
            tally: 0,
        }
    }

    /// Holds the bytes under the name, in place of older ones. What is left of the current file
    /// stays as it is.
    pub fn add(&mut self, name: String, bytes: Vec<u8>) -> Result<(), AllocError>
        ensures held { OnOk result (self.new ≡ record self.old {
          entries = (string_bytes name, bytes.items) ∷ self.old.entries;
        }) }
        ensures same { OnErr result (self.new ≡ self.old) }
    {
        self.held.add(name, bytes)
    }

    /// Lets the call of this number fail, where opens and takes are counted together from 1.
    pub fn fail_at(&mut self, call: u64) -> Result<(), AllocError>
        ensures told { OnOk result (self.new ≡ record self.old {
          failing = self.old.failing ++ call ∷ [];
        }) }
        ensures same { OnErr result (self.new ≡ self.old) }
    {
        self.failures.fail_at(call)
    }

    /// How many calls there were, up to 2^64 - 1.
    pub fn calls(&self) -> u64
        ensures { result ≡ self.now.calls }
    {
        self.failures.calls()
    }

    /// How many calls failed, up to 2^64 - 1.
    pub fn faults(&self) -> u64
        ensures { result ≡ self.now.faults }
    {
        self.failures.faults()
    }
}

impl Shelf for MemShelf {
    ghost files = { λ s. Some (files_of s.entries) };

    ghost rest = { λ s. s.rest };

    ghost grants = { λ _ _. true };

    ghost faults = { λ s. s.faults };

    ghost tally = { λ s. s.tally };

    fn open(&mut self, name: &str) -> Result<(), Failed>
        // As every shelf.
        ensures opened { Opens (Some (files_of self.old.entries)) name.now result self.new.rest }
        ensures cause { HasCause self.old.faults self.new.faults result }

        // Exactly when it fails, and what it changes.
        ensures fails { IsErr result ↔ FailsToOpen self.old self.new.calls name.now }
        ensures changes { self.new ≡ record self.old {
          rest = self.new.rest;
          calls = counted self.old.calls;
          faults = faults_after self.old.faults result;
        } }
    {
        if !self.failures.next_fails() && self.held.open(name) {
            return Ok(());
        }
        self.held.close();
        Err(self.failures.fault())
    }

    fn take(&mut self, into: &mut [u8]) -> Result<usize, Failed>
        // As every shelf.
        ensures bound { ReadsAtMost result into.new }
        ensures bytes { Takes self.old.rest self.new.rest result into.new }
        ensures cause { HasCause self.old.faults self.new.faults result }

        // Exactly when it fails, how much it gives, and what it changes.
        ensures fails { IsErr result ↔ Contains self.old.failing self.new.calls }
        ensures count { IfOk result (λ n. n ≡ min (byte_count self.old.rest) (length into.new)) }
        ensures changes { self.new ≡ record self.old {
          rest = self.new.rest;
          calls = counted self.old.calls;
          faults = faults_after self.old.faults result;
          tally = tally_after self.old.tally result;
        } }
    {
        if self.failures.next_fails() {
            self.held.lose_place();
            return Err(self.failures.fault());
        }
        let count = self.held.take(into);
        self.tally = self.tally.saturating_add(count as u64);
        Ok(count)
    }
}
