// A shelf and a sink that never fail.

ghost use Rattle.std.specs.Prelude.{◌≡◌, ℕ, ◌∷◌, [], Some, None, true, OnOk, OnErr};
ghost use Rattle.std.specs.String.{string_bytes};
ghost use Rattle.place_edges.specs.HeldFiles.{files_or_empty};

use crate::held::HeldFiles;
use crate::{Failed, Shelf, Sink};
use std::alloc::{AllocError, Global};
use std::marker::Model;

/// Files held in memory, with the empty file under every name that was not added. No call fails.
#[derive(Drop)]
pub struct SureShelf {
    held: HeldFiles,
    tally: u64,
}

impl Model for SureShelf {
    ghost use Rattle.place_edges.specs.SureShelf.{SureFiles};

    ghost Value = { SureFiles };

    ghost view = { λ s. record { entries = s.held.entries; rest = s.held.rest; tally = s.tally } };
}

impl SureShelf {
    /// A shelf that holds the empty file under every name.
    pub fn new(alloc: Global) -> SureShelf
        ensures { result ≡ record { entries = []; rest = Some []; tally = 0 } }
    {
        SureShelf {
            held: HeldFiles::new(alloc),
            tally: 0,
        }
    }

    /// Holds the bytes under the name, in place of older ones. What is left of the current file
    /// stays as it is.
    pub fn add(&mut self, name: String, bytes: Vec<u8>) -> Result<(), AllocError>
        ensures held { OnOk result (self.new ≡ record self.old {
          entries = (string_bytes name, bytes.items) ∷ self.old.entries;
        }) }
        ensures same { OnErr result (self.new ≡ self.old) }
    {
        self.held.add(name, bytes)
    }
}

impl Shelf for SureShelf {
    ghost files = { λ s. Some (files_or_empty s.entries) };

    ghost rest = { λ s. s.rest };

    ghost grants = { λ _ _. true };

    ghost faults = { λ _. 0 };

    ghost tally = { λ s. s.tally };

    fn open(&mut self, name: &str) -> Result<(), Failed> {
        let _ = self.held.open(name);
        Ok(())
    }

    fn take(&mut self, into: &mut [u8]) -> Result<usize, Failed> {
        let count = self.held.take(into);
        self.tally = self.tally.saturating_add(count as u64);
        Ok(count)
    }
}

/// Drops what it is given and tells nothing of it. No call fails.
#[derive(Clone, Copy)]
pub struct SureSink;

impl SureSink {
    /// A sink that drops what it is given.
    pub fn new() -> SureSink {
        SureSink
    }
}

impl Sink for SureSink {
    ghost written = { λ _. None };

    ghost faults = { λ _. 0 };

    fn put(&mut self, bytes: &[u8]) -> Result<usize, Failed> {
        Ok(bytes.len())
    }
}
