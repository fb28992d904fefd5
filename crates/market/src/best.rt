// The candidates with choices in several types, and the best choice of each candidate.

ghost use Rattle.std.specs.Prelude.{◌≡◌, ◌<◌, ◌≤◌, length, slice_get, IfOk};
ghost use Rattle.market.specs.Counting.{is_programme};
ghost use Rattle.market.specs.Problems.{IsValid, kind_of, list_of};
ghost use Rattle.market.specs.Mechanism.{has_several_in, best_in};
ghost use Rattle.market.specs.Choices.{held_in_table, IsChoiceTable, best_programmes_in};

use crate::{Market, Tentative};
use std::alloc::{AllocError, Global};

impl Tentative {
    /// Whether a candidate has choices in two or more types.
    #[tactic(auto, unfolding(crate::specs::Mechanism::has_several_in))]
    pub fn has_several(&self, market: &Market, candidate: u32) -> bool
        requires candidate { candidate < length market.now.lists }
        requires table { IsChoiceTable market.now self.now }
        ensures { result ≡ has_several_in market.now (held_in_table self.now) candidate }
    {
        let mut count: u32 = 0;
        for kind in 0..market.type_count() {
            if self.choice(kind, candidate).is_some() {
                count += 1;
            }
        }
        1 < count
    }

    /// The place of the candidate's best choice in the preference list, or the list's length where
    /// there is no choice.
    pub fn best_place(&self, market: &Market, candidate: u32) -> u32
        requires candidate { candidate < length market.now.lists }
        requires table { IsChoiceTable market.now self.now }
        ensures place { result ≡ best_in market.now (held_in_table self.now) candidate }
        ensures within { result ≤ length (list_of market.now candidate) }
    {
        let list = market.list(candidate);
        for (place, programme) in list.iter().enumerate() {
            if self.has(market, candidate, *programme) {
                return place as u32;
            }
        }
        list.len() as u32
    }

    /// The best choice of each candidate, None where there is no choice.
    pub fn best_programmes(
        &self,
        alloc: Global,
        market: &Market,
    ) -> Result<Vec<Option<u32>>, AllocError>
        requires { IsChoiceTable market.now self.now }
        ensures { IfOk result (λ held. held.items
            ≡ best_programmes_in market.now (held_in_table self.now)) }
    {
        let mut held = Vec::new(alloc);
        for candidate in 0..market.candidate_count() {
            let place = self.best_place(market, candidate);
            let list = market.list(candidate);
            held.push(entry_at(list, place))?;
        }
        Ok(held)
    }

    // Whether the candidate's choice in the programme's type is the programme.
    fn has(&self, market: &Market, candidate: u32, programme: u32) -> bool
        requires valid { IsValid market.now }
        requires candidate { candidate < length market.now.lists }
        requires table { IsChoiceTable market.now self.now }
        requires programme { programme < length market.now.programmes }
        ensures { result ≡ is_programme programme
            (held_in_table self.now (kind_of market.now programme) candidate) }
    {
        let kind = market.programme(programme).kind;
        is_choice(self.choice(kind, candidate), programme)
    }
}

// Whether a choice is the programme.
fn is_choice(choice: Option<u32>, programme: u32) -> bool
    ensures { result ≡ is_programme programme choice }
{
    match choice {
        Some(other) => other == programme,
        None => false,
    }
}

// The entry of a list at a place, if there is one.
fn entry_at(list: &[u32], place: u32) -> Option<u32>
    ensures { result ≡ slice_get list.now place }
{
    list.get(place as usize).copied()
}
