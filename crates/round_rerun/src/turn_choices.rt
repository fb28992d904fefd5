// What the turns of one type chose, a byte each.

ghost use Rattle.std.specs.Prelude.{◌≡◌, ◌<◌, length, slice_index, slice_set, replicate, IfOk};

use std::alloc::{AllocError, Global};
use std::marker::Model;

/// A byte for each turn of a type, one after the other, which contracts see as the list itself.
#[derive(Drop)]
pub struct TurnChoices {
    bytes: Vec<u8>,
}

impl Model for TurnChoices {
    ghost use Rattle.std.specs.Prelude.{ℕ, List};

    ghost Value = { List ℕ };

    ghost view = { λ c. c.bytes.items };
}

impl TurnChoices {
    /// The same byte for so many turns.
    pub fn all(alloc: Global, byte: u8, turns: usize) -> Result<TurnChoices, AllocError>
        ensures { IfOk result (λ choices. choices ≡ replicate turns byte) }
    {
        let bytes = vec![in alloc; byte; turns]?;
        Ok(TurnChoices { bytes })
    }

    /// The byte of a turn.
    pub fn byte(&self, turn: usize) -> u8
        requires { turn < length self.now }
        ensures { result ≡ slice_index self.now turn }
    {
        self.bytes[turn]
    }

    /// Writes the byte of a turn.
    pub fn write(&mut self, turn: usize, byte: u8)
        requires { turn < length self.old }
        ensures { self.new ≡ slice_set self.old turn byte }
    {
        self.bytes[turn] = byte;
    }
}
