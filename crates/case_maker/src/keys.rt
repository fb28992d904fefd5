// The keys of a type, and its turn order.

ghost use Rattle.std.specs.Prelude.{◌≡◌, ◌++◌, ◌≤◌, ◌%◌, [], map, IfOk, OnOk};
ghost use Rattle.std.specs.List.{cons_option, range_with_len};
ghost use Rattle.market.specs.declared.limits.TheConstants.{MAX_CANDIDATES};
ghost use Rattle.case_maker.specs.Draws.{word_key};
ghost use Rattle.case_maker.specs.Turns.{turn_order};

use market::List;
use std::alloc::{AllocError, Global};
use std::marker::Model;

/// A word that this divides gives no rank.
pub(crate) const NO_RANK_DIVISOR: u32 = 8;

/// More than the index of any candidate.
pub(crate) const INDEXES: u64 = 1 << 32;

/// The keys of one type, each with the candidate who drew it, in the order in which they were
/// drawn.
#[derive(Drop)]
pub(crate) struct Keys {
    // Each key with its candidate behind it.
    packed: Vec<u64>,
}

impl Model for Keys {
    ghost use Rattle.std.specs.Prelude.{List, map};
    ghost use Rattle.case_maker.specs.Draws.{Key};
    ghost use Rattle.case_maker.specs.Packed.{unpacked};

    ghost Value = { List Key };

    ghost view = { λ k. map unpacked k.packed.items };
}

impl Keys {
    /// No keys, with room for those of so many candidates.
    pub(crate) fn new(alloc: Global, candidates: u32) -> Result<Keys, AllocError>
        ensures { IfOk result (λ keys. keys ≡ []) }
    {
        Ok(Keys {
            packed: Vec::with_capacity(alloc, candidates as usize)?,
        })
    }

    /// Adds the key that a word gives the candidate, if it gives one.
    pub(crate) fn add(&mut self, word: u32, candidate: u32) -> Result<(), AllocError>
        ensures { OnOk result (self.new ≡ self.old ++ cons_option (word_key word candidate) []) }
    {
        if word % NO_RANK_DIVISOR == 0 {
            return Ok(());
        }
        self.packed
            .push(u64::from(word) * INDEXES + u64::from(candidate))?;
        Ok(())
    }

    /// The candidates by key, and those of equal keys by index.
    pub(crate) fn into_turn_order(self, alloc: Global) -> Result<List, AllocError>
        ensures { IfOk result (λ order. order ≡ turn_order self) }
    {
        let mut packed = self.packed;
        packed.sort_unstable();
        Ok(List::from_vec(candidates_of(alloc, &packed)?))
    }
}

// The candidates of packed keys.
fn candidates_of(alloc: Global, packed: &[u64]) -> Result<Vec<u32>, AllocError>
    ensures { IfOk result (λ candidates. candidates.items ≡ map (λ key. key % INDEXES) packed.now) }
{
    packed
        .iter()
        .map(|key| (*key % INDEXES) as u32)
        .collect(alloc)
}

/// The ranks of so many turns: 1, 2, 3 and so on.
pub(crate) fn rising_ranks(alloc: Global, turns: u32) -> Result<List, AllocError>
    requires { turns ≤ MAX_CANDIDATES }
    ensures { IfOk result (λ ranks. ranks ≡ range_with_len 1 turns) }
{
    let mut ranks = Vec::with_capacity(alloc, turns as usize)?;
    for turn in 0..turns {
        ranks.push(turn + 1)?;
    }
    Ok(List::from_vec(ranks))
}
