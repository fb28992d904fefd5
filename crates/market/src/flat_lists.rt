// Lists that lie one after another in one vector.

ghost use Rattle.std.specs.Prelude.{◌≡◌, ◌<◌, [], ◌∷◌, length, slice_index_or, IfOk};
ghost use Rattle.market.specs.FlatLists.{IsFlat, flat_lists};

use std::alloc::{AllocError, Global};
use std::marker::Model;

/// Lists of numbers in one piece of memory: all items, and the bounds between the lists.
pub struct FlatLists {
    items: Vec<u32>,
    bounds: Vec<u32>,
}

// By hand, so that letting one go is one call in the proof of whoever holds it.
impl Drop for FlatLists {
    fn drop(self) {
        let Self {
            items: _items,
            bounds: _bounds,
        } = self;
    }
}

impl Model for FlatLists {
    ghost use Rattle.std.specs.Prelude.{ℕ, List};
    ghost use Rattle.market.specs.FlatLists.{IsFlat, flat_lists};

    ghost Value = { List (List ℕ) };

    ghost view = { λ f. flat_lists f.items.items f.bounds.items };

    ghost invariant = { λ f. IsFlat f.items.items f.bounds.items
        (flat_lists f.items.items f.bounds.items) };
}

impl FlatLists {
    /// The lists of these items, between these bounds.
    pub fn from_parts(items: Vec<u32>, bounds: Vec<u32>) -> FlatLists
        requires { IsFlat items.items bounds.items (flat_lists items.items bounds.items) }
        ensures { result ≡ flat_lists items.items bounds.items }
    {
        FlatLists { items, bounds }
    }

    /// How many lists there are.
    pub fn count(&self) -> usize
        ensures { result ≡ length self.now }
    {
        self.bounds.len() - 1
    }

    /// One list.
    pub fn list(&self, index: usize) -> &[u32]
        requires { index < length self.now }
        ensures { result.now ≡ slice_index_or self.now index [] }
    {
        let start = self.bounds[index] as usize;
        let end = self.bounds[index + 1] as usize;
        &self.items[start..end]
    }
}

/// The bounds of no lists yet, with room for those of so many.
pub fn first_bound(alloc: Global, lists: usize) -> Result<Vec<u32>, AllocError>
    ensures { IfOk result (λ bounds. bounds.items ≡ 0 ∷ []) }
{
    let mut bounds = Vec::with_capacity(alloc, lists.saturating_add(1))?;
    bounds.push(0)?;
    Ok(bounds)
}
