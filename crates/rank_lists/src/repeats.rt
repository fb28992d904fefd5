// Numbers in order, and the first of them that stands twice.
ghost use Rattle.std.specs.Prelude.{◌≡◌, ℕ, ◌+◌, ◌*◌, ◌/◌, ◌%◌, ◌<◌, ◌++◌, ◌∷◌, [], length, map, Some, IsTrue, OnOk, IfOk, MatchOption};
ghost use Rattle.rank_lists.specs.Repeats.{IsFirstRepeat, HasNoRepeat, IsLeastPair, HasUnequalNeighbours, earlier_repeat};

use crate::keys::{GROUPS, PLACES};
use std::alloc::{AllocError, Global};
use std::marker::Model;

// A value that no word of 64 bits has.
const WORDS: u128 = 1 << 64;

// An odd number that spreads what stands above the first word.
const SPREAD: u64 = 0x9e37_79b9_7f4a_7c15;

/// Two places of a list at which the same number stands.
#[derive(Clone, Copy)]
pub(crate) struct Repeat {
    // The first of them.
    pub(crate) earlier: u32,
    // The other.
    pub(crate) later: u32,
}

/// A list of numbers that can tell the first one that repeats an earlier one.
#[derive(Drop)]
pub(crate) struct Repeats {
    // Each number with its place behind it.
    placed: Vec<u128>,
}

impl Model for Repeats {
    ghost use Rattle.std.specs.Prelude.{ℕ, List, map, ◌/◌};
    ghost use Rattle.rank_lists.specs.Placed.{HasPlaces};
    ghost use Rattle.rank_lists.specs.declared.keys.TheConstants.{PLACES};

    ghost Value = { List ℕ };

    ghost view = { λ r. map (λ p. p / PLACES) r.placed.items };

    ghost invariant = { λ r. HasPlaces r.placed.items };
}

impl Repeats {
    /// No number.
    pub(crate) fn new(alloc: Global) -> Repeats
        ensures { result ≡ [] }
    {
        Repeats {
            placed: Vec::new(alloc),
        }
    }

    /// Adds a number.
    pub(crate) fn push(&mut self, number: u128) -> Result<(), AllocError>
        requires room { length self.old < PLACES }
        requires small { number < GROUPS }
        ensures { OnOk result (self.new ≡ self.old ++ number ∷ []) }
    {
        let place = self.placed.len() as u128;
        self.placed.push(number * PLACES + place)?;
        Ok(())
    }

    /// The first place at which a number stands that stands earlier too, with that earlier place.
    pub(crate) fn first_repeat(self, alloc: Global) -> Result<Option<Repeat>, AllocError>
        ensures { IfOk result (λ first. MatchOption first (HasNoRepeat self (length self))
            (λ r. IsFirstRepeat self r.earlier r.later)) }
    {
        // Mostly all numbers differ, which their short forms tell sooner.
        if are_distinct(alloc, &self.placed)? {
            return Ok(None);
        }
        let mut placed = self.placed;
        placed.sort_unstable();
        Ok(least_pair(&placed))
    }
}

// Whether the short forms of all numbers differ, and so the numbers themselves.
fn are_distinct(alloc: Global, placed: &[u128]) -> Result<bool, AllocError>
    ensures { IfOk result (λ distinct. IsTrue distinct
        → HasNoRepeat (map (λ p. p / PLACES) placed.now) (length placed.now)) }
{
    let mut short = short_forms(alloc, placed)?;
    short.sort_unstable();
    Ok(neighbours_differ(&short))
}

// The short forms of the numbers: equal numbers have one form.
fn short_forms(alloc: Global, placed: &[u128]) -> Result<Vec<u64>, AllocError>
    ensures { IfOk result (λ short. (form : ℕ → ℕ)
        × (short.items ≡ map (λ p. form (p / PLACES)) placed.now)) }
{
    let short = placed
        .iter()
        .map(|number| short_form(*number / PLACES))
        .collect(alloc)?;
    Ok(short)
}

// A number as one word: numbers of one word are themselves, and few others share a form.
fn short_form(number: u128) -> u64
    ensures { result ≡ (number % WORDS + (number / WORDS) * SPREAD % WORDS) % WORDS }
{
    let low = (number % WORDS) as u64;
    let high = (number / WORDS) as u64;
    low.wrapping_add(high.wrapping_mul(SPREAD))
}

// Whether no two neighbours are equal.
fn neighbours_differ(sorted: &[u64]) -> bool
    ensures { IsTrue result → HasUnequalNeighbours sorted.now (length sorted.now) }
{
    for index in 1..sorted.len() {
        if sorted[index - 1] == sorted[index] {
            return false;
        }
    }
    true
}

// The neighbours with the same number whose later place is least.
fn least_pair(sorted: &[u128]) -> Option<Repeat>
    ensures { IsLeastPair sorted.now (length sorted.now) result }
{
    let mut least = None;
    for index in 1..sorted.len() {
        let (before, here) = (sorted[index - 1], sorted[index]);
        if before / PLACES == here / PLACES {
            least = earlier_of(
                least,
                Repeat {
                    earlier: (before % PLACES) as u32,
                    later: (here % PLACES) as u32,
                },
            );
        }
    }
    least
}

// The one whose later place is less.
fn earlier_of(least: Option<Repeat>, other: Repeat) -> Option<Repeat>
    ensures { result ≡ Some (earlier_repeat least other) }
{
    match least {
        Some(repeat) if repeat.later <= other.later => Some(repeat),
        _ => Some(other),
    }
}
