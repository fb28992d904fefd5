// What a round's cuts have touched, without memory.

ghost use Rattle.std.specs.Prelude.{◌≡◌, ◌+◌, ◌<◌, slice_index_or, slice_set, replicate, Option};
ghost use Rattle.market.specs.declared.limits.TheConstants.{MAX_TYPES, MAX_CANDIDATES};
ghost use Rattle.market.specs.Reruns.{least_turn};

use market::MAX_TYPES;
use std::marker::Model;

const TYPES: usize = MAX_TYPES as usize;

/// How many candidates were cut, and the first turn of each type whose choice was cut away.
#[derive(Drop)]
pub struct Touched {
    several: u32,
    first: [Option<u32>; TYPES],
}

impl Model for Touched {
    ghost use Rattle.truncation.specs.Touches.{Touches};

    ghost Value = { Touches };

    ghost view = { λ t. record { several = t.several; first = t.first } };
}

impl Touched {
    /// Nobody cut, and no type touched.
    pub fn none() -> Touched
        ensures several { result.several ≡ 0 }
        ensures first { result.first ≡ replicate MAX_TYPES Option.None }
    {
        Touched {
            several: 0,
            first: [None; TYPES],
        }
    }

    /// Nobody cut, and every type touched from its first turn on: what the first round runs.
    pub fn all() -> Touched
        ensures several { result.several ≡ 0 }
        ensures first { result.first ≡ replicate MAX_TYPES (Option.Some 0) }
    {
        Touched {
            several: 0,
            first: [Some(0); TYPES],
        }
    }

    /// How many candidates were cut.
    pub fn several(&self) -> u32
        ensures { result ≡ self.now.several }
    {
        self.several
    }

    /// The first turn of the type whose choice was cut away, None where no choice of the type was.
    pub fn first(&self, kind: u32) -> Option<u32>
        requires { kind < MAX_TYPES }
        ensures { result ≡ slice_index_or self.now.first kind Option.None }
    {
        self.first[kind as usize]
    }

    // Counts one more candidate.
    pub(crate) fn count_one(&mut self)
        requires { self.old.several < MAX_CANDIDATES }
        ensures several { self.new.several ≡ self.old.several + 1 }
        ensures first { self.new.first ≡ self.old.first }
    {
        self.several += 1;
    }

    // Notes that the choice of this turn of the type was cut away.
    pub(crate) fn note(&mut self, kind: u32, turn: u32)
        requires { kind < MAX_TYPES }
        ensures several { self.new.several ≡ self.old.several }
        ensures first { self.new.first ≡ slice_set self.old.first kind
            (Option.Some (least_turn (slice_index_or self.old.first kind Option.None) turn)) }
    {
        let first = self.first[kind as usize];
        self.first[kind as usize] = Some(earlier(first, turn));
    }
}

// The earlier of a turn, if there is one, and another.
fn earlier(first: Option<u32>, turn: u32) -> u32
    ensures { result ≡ least_turn first turn }
{
    match first {
        Some(other) => { if other < turn { other } else { turn } }
        None => turn,
    }
}
