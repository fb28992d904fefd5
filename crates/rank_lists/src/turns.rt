// The turn order of one type, sorted from the ranks given in it.
ghost use Rattle.std.specs.Prelude.{◌≡◌, ◌+◌, ◌*◌, ◌^◌, ◌<◌, ◌/◌, ◌%◌, ◌++◌, ◌∷◌, [], map, OnOk, IfOk};
ghost use Rattle.rank_lists.specs.Growth.{HasNoRanks, with_rank};
ghost use Rattle.rank_lists.specs.Turns.{AreTurns, AreAllTurns, known_keys};

use crate::keys::{INDEXES, NUMBERS};
use crate::table::RankParts;
use market::List;
use place_base::Finder;
use std::alloc::{AllocError, Global};
use std::marker::Model;

/// The ranks given in one type, each with its candidate behind it, in file order.
#[derive(Drop)]
pub(crate) struct GivenRanks {
    keys: Vec<u64>,
}

impl Model for GivenRanks {
    ghost use Rattle.std.specs.Prelude.{ℕ, List};

    ghost Value = { List ℕ };

    ghost view = { λ g. g.keys.items };
}

/// The candidates of one type in turn order, and their ranks.
#[derive(Drop)]
pub(crate) struct Turns {
    // The candidates by rising rank.
    pub(crate) order: List,
    // Their ranks.
    pub(crate) ranks: List,
}

impl GivenRanks {
    /// No ranks.
    pub(crate) fn new(alloc: Global) -> GivenRanks
        ensures { result ≡ [] }
    {
        GivenRanks {
            keys: Vec::new(alloc),
        }
    }

    /// Adds a rank with its candidate behind it.
    pub(crate) fn push(&mut self, key: u64) -> Result<(), AllocError>
        ensures { OnOk result (self.new ≡ self.old ++ key ∷ []) }
    {
        self.keys.push(key)?;
        Ok(())
    }

    /// The ranks, each with its candidate behind it.
    pub(crate) fn keys(&self) -> &[u64]
        ensures { result.now ≡ self.now }
    {
        &self.keys
    }

    /// The turn order of the known candidates: rising ranks. The ranks have candidates' numbers
    /// behind them.
    pub(crate) fn into_turns<C: Finder>(
        self,
        alloc: Global,
        candidates: &C,
    ) -> Result<Turns, AllocError>
        ensures { IfOk result (λ turns.
            AreTurns (known_keys (C.numbers candidates.now) self) turns.order turns.ranks) }
    {
        let mut keys = known(alloc, &self.keys, candidates)?;
        keys.sort_unstable();
        turns_of(alloc, &keys)
    }
}

/// The candidates of sorted ranks, and the ranks.
pub(crate) fn turns_of(alloc: Global, sorted: &[u64]) -> Result<Turns, AllocError>
    ensures { IfOk result (λ turns. (turns.order ≡ map (λ key. key % INDEXES) sorted.now)
        × (turns.ranks ≡ map (λ key. key / INDEXES) sorted.now)) }
{
    let order = List::from_vec(candidates_of(alloc, sorted)?);
    let ranks = List::from_vec(ranks_of(alloc, sorted)?);
    Ok(Turns { order, ranks })
}

// The ranks of known candidates, each with the candidate's index behind it.
fn known<C: Finder>(alloc: Global, keys: &[u64], candidates: &C) -> Result<Vec<u64>, AllocError>
    ensures { IfOk result (λ known. known.items ≡ known_keys (C.numbers candidates.now) keys.now) }
{
    let mut known = Vec::with_capacity(alloc, keys.len())?;
    for key in keys {
        let Some(index) = candidates.find(*key % NUMBERS) else {
            continue;
        };
        known.push(*key / NUMBERS * INDEXES + u64::from(index))?;
    }
    Ok(known)
}

/// So many types without ranks.
pub(crate) fn no_ranks(alloc: Global, types: u32) -> Result<Vec<GivenRanks>, AllocError>
    ensures { IfOk result (λ given. HasNoRanks types given.items) }
{
    let mut given = Vec::with_capacity(alloc, types as usize)?;
    for _ in 0..types {
        given.push(GivenRanks::new(alloc))?;
    }
    Ok(given)
}

/// Adds a rank with its candidate behind it to those of a type, where the type is known.
pub(crate) fn give(
    given: &mut Vec<GivenRanks>,
    kind: Option<u32>,
    key: u64,
) -> Result<(), AllocError>
    ensures { OnOk result (given.new.items ≡ with_rank given.old.items kind key) }
{
    let Some(kind) = kind else {
        return Ok(());
    };
    let Some(ranks) = given.get_mut(kind as usize) else {
        return Ok(());
    };
    ranks.push(key)
}

/// The turn order of each type, and the ranks in it.
pub(crate) fn all_turns<C: Finder>(
    alloc: Global,
    given: Vec<GivenRanks>,
    candidates: &C,
) -> Result<RankParts, AllocError>
    ensures { IfOk result (λ all.
        AreAllTurns (C.numbers candidates.now) given.items all.orders.items all.ranks.items) }
{
    let mut orders = Vec::with_capacity(alloc, given.len())?;
    let mut ranks = Vec::with_capacity(alloc, given.len())?;
    for of_type in given {
        let turns = of_type.into_turns(alloc, candidates)?;
        orders.push(turns.order)?;
        ranks.push(turns.ranks)?;
    }
    Ok(RankParts { orders, ranks })
}

// The candidates of keys.
fn candidates_of(alloc: Global, keys: &[u64]) -> Result<Vec<u32>, AllocError>
    ensures { IfOk result (λ order. order.items ≡ map (λ key. key % INDEXES) keys.now) }
{
    keys.iter()
        .map(|key| (*key % INDEXES) as u32)
        .collect(alloc)
}

// The ranks of keys.
fn ranks_of(alloc: Global, keys: &[u64]) -> Result<Vec<u32>, AllocError>
    ensures { IfOk result (λ ranks. ranks.items ≡ map (λ key. key / INDEXES) keys.now) }
{
    keys.iter()
        .map(|key| (*key / INDEXES) as u32)
        .collect(alloc)
}
