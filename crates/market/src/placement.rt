// What each candidate holds.

ghost use Rattle.std.specs.Prelude.{◌≡◌, ◌<◌, length};
ghost use Rattle.market.specs.Stability.{held_by};

use std::marker::Model;

/// A programme or none for each candidate, acceptable or not. Contracts see it as that list.
#[derive(Drop)]
pub struct Placement {
    held: Vec<Option<u32>>,
}

impl Model for Placement {
    ghost use Rattle.std.specs.Prelude.{ℕ, Option};
    ghost use Rattle.std.specs.Prelude as words;

    ghost Value = { words.List (Option ℕ) };

    ghost view = { λ p. p.held.items };
}

impl Placement {
    /// The placement with these programmes, by candidate. It takes no memory.
    pub fn from_vec(held: Vec<Option<u32>>) -> Placement
        ensures { result ≡ held.items }
    {
        Placement { held }
    }

    /// What a candidate holds.
    pub fn holds(&self, candidate: u32) -> Option<u32>
        requires { candidate < length self.now }
        ensures { result ≡ held_by self.now candidate }
    {
        self.held[candidate as usize]
    }

    /// What every candidate holds, by candidate.
    pub fn held(&self) -> &[Option<u32>]
        ensures { result.now ≡ self.now }
    {
        &self.held
    }
}

/// What a run of the mechanism gives.
#[derive(Drop)]
pub struct Outcome {
    /// What each candidate holds in the end.
    pub placement: Placement,
    /// How many rounds there were, the last one among them.
    pub rounds: u32,
    /// How many lists were cut, added up over all rounds.
    pub cuts: u32,
    /// How many turns of dictatorships were run, by the account of the placer that ran them.
    pub turns: u64,
}
