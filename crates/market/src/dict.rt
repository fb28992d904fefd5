// One serial dictatorship over programmes with numbers of their own.

ghost use Rattle.std.specs.Prelude.{◌≡◌, ◌<◌, length, slice_index, IfOk};
ghost use Rattle.market.specs.Dictatorships.{IsValidDictatorship, dictatorship, list_at};

use crate::List;
use crate::flat_lists::FlatLists;
use std::alloc::{AllocError, Global};
use std::marker::Model;

/// The lists of all turns, in one piece or each by itself.
#[derive(Drop)]
pub enum Lists {
    Flat(FlatLists),
    Each(Vec<List>),
}

/// One serial dictatorship: for each programme its quota and the seats taken before the first turn,
/// and for each turn its list. Contracts see it as a `Dictatorship`, which is always valid.
pub struct Dict {
    quota: Vec<u32>,
    fill: Vec<u32>,
    lists: Lists,
}

// By hand, so that letting one go is one call in the proof of whoever holds it.
impl Drop for Dict {
    fn drop(self) {
        let Self {
            quota: _quota,
            fill: _fill,
            lists: _lists,
        } = self;
    }
}

impl Model for Dict {
    ghost use Rattle.market.specs.Dictatorships.{Dictatorship, IsValidDictatorship, dictatorship};
    ghost use Rattle.market.specs.DictLists.{lists_of};

    ghost Value = { Dictatorship };

    ghost view = { λ d. dictatorship d.quota.items d.fill.items (lists_of d.lists) };

    ghost invariant = { λ d. IsValidDictatorship
        (dictatorship d.quota.items d.fill.items (lists_of d.lists)) };
}

impl Dict {
    /// The dictatorship of these parts. It takes no memory.
    pub fn from_parts(quota: Vec<u32>, fill: Vec<u32>, lists: Vec<List>) -> Dict
        requires { IsValidDictatorship (dictatorship quota.items fill.items lists.items) }
        ensures { result ≡ dictatorship quota.items fill.items lists.items }
    {
        Dict {
            quota,
            fill,
            lists: Lists::Each(lists),
        }
    }

    // The same of lists in one piece.
    pub(crate) fn from_flat(quota: Vec<u32>, fill: Vec<u32>, lists: FlatLists) -> Dict
        requires { IsValidDictatorship (dictatorship quota.items fill.items lists) }
        ensures { result ≡ dictatorship quota.items fill.items lists }
    {
        Dict {
            quota,
            fill,
            lists: Lists::Flat(lists),
        }
    }

    /// How many turns there are.
    pub fn turns(&self) -> u32
        ensures count { result ≡ length self.now.lists }
        ensures valid { IsValidDictatorship self.now }
    {
        match &self.lists {
            Lists::Flat(lists) => lists.count() as u32,
            Lists::Each(lists) => lists.len() as u32,
        }
    }

    /// How many programmes there are.
    pub fn programmes(&self) -> u32
        ensures count { result ≡ length self.now.quota }
        ensures valid { IsValidDictatorship self.now }
    {
        self.quota.len() as u32
    }

    /// The quota of a programme.
    pub fn quota(&self, programme: u32) -> u32
        requires { programme < length self.now.quota }
        ensures { result ≡ slice_index self.now.quota programme }
    {
        self.quota[programme as usize]
    }

    /// The seats of a programme that are taken before the first turn.
    pub fn fill(&self, programme: u32) -> u32
        requires { programme < length self.now.quota }
        ensures { result ≡ slice_index self.now.fill programme }
    {
        self.fill[programme as usize]
    }

    /// The seats of each programme that are taken before the first turn.
    pub fn fills(&self, alloc: Global) -> Result<Vec<u32>, AllocError>
        ensures { IfOk result (λ seats. seats.items ≡ self.now.fill) }
    {
        Vec::from_slice(alloc, &self.fill)
    }

    /// The list of a turn: programmes, best first.
    #[tactic(auto, unfolding(crate::specs::Dictatorships::list_at))]
    pub fn list(&self, turn: u32) -> &[u32]
        requires { turn < length self.now.lists }
        ensures { result.now ≡ list_at self.now turn }
    {
        match &self.lists {
            Lists::Flat(lists) => lists.list(turn as usize),
            Lists::Each(lists) => {
                let list = &lists[turn as usize];
                list.items()
            }
        }
    }
}
