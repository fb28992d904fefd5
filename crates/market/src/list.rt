// A list of numbers.

ghost use Rattle.std.specs.Prelude.{◌≡◌, ◌<◌, length, slice_set, IfOk};

use std::alloc::{AllocError, Global};
use std::marker::Model;

/// A list of numbers, which contracts see as the list itself.
#[derive(Drop)]
pub struct List {
    items: Vec<u32>,
}

impl Model for List {
    ghost use Rattle.std.specs.Prelude.{ℕ};
    ghost use Rattle.std.specs.Prelude as words;

    ghost Value = { words.List ℕ };

    ghost view = { λ l. l.items.items };
}

impl List {
    /// The numbers of a vector, in its order. It takes no memory.
    pub fn from_vec(items: Vec<u32>) -> List
        ensures { result ≡ items.items }
    {
        List { items }
    }

    /// A copy of these numbers, in their order.
    pub fn from_slice(alloc: Global, items: &[u32]) -> Result<List, AllocError>
        ensures { IfOk result (λ list. list ≡ items.now) }
    {
        Ok(List::from_vec(Vec::from_slice(alloc, items)?))
    }

    /// The numbers as a slice.
    pub fn items(&self) -> &[u32]
        ensures { result.now ≡ self.now }
    {
        &self.items
    }

    // Writes one number.
    pub(crate) fn write(&mut self, place: u32, number: u32)
        requires { place < length self.old }
        ensures { self.new ≡ slice_set self.old place number }
    {
        self.items[place as usize] = number;
    }
}
