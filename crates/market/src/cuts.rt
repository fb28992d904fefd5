// How much of each preference list a round reads.

ghost use Rattle.std.specs.Prelude.{◌≡◌, ◌<◌, ◌≤◌, length, slice_index, slice_set, IfOk};
ghost use Rattle.market.specs.Problems.{IsValid};
ghost use Rattle.market.specs.Mechanism.{whole_cuts};

use crate::Market;
use std::alloc::{AllocError, Global};
use std::marker::Model;

/// For each candidate how many entries of the preference list are left, from its front. A byte each,
/// since a list is short and a round looks many of them up out of order.
#[derive(Drop)]
pub struct Cuts {
    lengths: Vec<u8>,
}

impl Model for Cuts {
    ghost use Rattle.std.specs.Prelude.{ℕ, List};

    ghost Value = { List ℕ };

    ghost view = { λ c. c.lengths.items };
}

impl Cuts {
    /// Each list's whole length.
    pub fn whole(alloc: Global, market: &Market) -> Result<Cuts, AllocError>
        ensures cuts { IfOk result (λ cuts. cuts ≡ whole_cuts market.now) }
        ensures valid { IsValid market.now }
    {
        let mut lengths = Vec::new(alloc);
        for candidate in 0..market.candidate_count() {
            let entries = market.list(candidate).len();
            lengths.push(entries as u8)?;
        }
        Ok(Cuts { lengths })
    }

    /// How many entries are left to a candidate.
    pub fn cut(&self, candidate: u32) -> u32
        requires { candidate < length self.now }
        ensures { result ≡ slice_index self.now candidate }
    {
        u32::from(self.lengths[candidate as usize])
    }

    /// Leaves a candidate so many entries, which are not more than before.
    pub fn set(&mut self, candidate: u32, entries: u32)
        requires candidate { candidate < length self.old }
        requires shorter { entries ≤ slice_index self.old candidate }
        ensures { self.new ≡ slice_set self.old candidate entries }
    {
        let left = self.lengths[candidate as usize];
        self.lengths[candidate as usize] = entries.min(u32::from(left)) as u8;
    }
}
