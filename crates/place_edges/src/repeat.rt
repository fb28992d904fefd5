// A shelf that holds the same byte many times.

ghost use Rattle.std.specs.Prelude.{◌≡◌, Some, true};
ghost use Rattle.place_edges.specs.RepeatShelf.{repeated};

use crate::{Failed, Shelf};
use std::marker::Model;

/// A file of one byte, so many times, under every name. The bytes are not stored, so that a file
/// longer than any memory can be read. No call fails.
#[derive(Clone, Copy)]
pub struct RepeatShelf {
    byte: u8,
    size: u64,
    left: u64,
    tally: u64,
}

impl Model for RepeatShelf {
    ghost use Rattle.place_edges.specs.RepeatShelf.{RepeatedFile};

    ghost Value = { RepeatedFile };

    ghost view = { λ s. record {
      byte = s.byte;
      size = s.size;
      left = s.left;
      tally = s.tally;
    } };

    ghost inverse = { λ s. record {
      byte = s.byte;
      size = s.size;
      left = s.left;
      tally = s.tally;
    } };
}

impl RepeatShelf {
    /// A shelf that holds the byte `length` times under every name.
    pub fn new(byte: u8, length: u64) -> RepeatShelf
        ensures { result ≡ record { byte = byte; size = length; left = 0; tally = 0 } }
    {
        RepeatShelf {
            byte,
            size: length,
            left: 0,
            tally: 0,
        }
    }
}

impl Shelf for RepeatShelf {
    ghost files = { λ s. Some (λ _. Some (repeated s.byte s.size)) };

    ghost rest = { λ s. Some (repeated s.byte s.left) };

    ghost grants = { λ _ _. true };

    ghost faults = { λ _. 0 };

    ghost tally = { λ s. s.tally };

    fn open(&mut self, _: &str) -> Result<(), Failed> {
        self.left = self.size;
        Ok(())
    }

    fn take(&mut self, into: &mut [u8]) -> Result<usize, Failed> {
        let count = self.left.min(into.len() as u64);
        into[..count as usize].fill(self.byte);
        self.left -= count;
        self.tally = self.tally.saturating_add(count);
        Ok(count as usize)
    }
}
