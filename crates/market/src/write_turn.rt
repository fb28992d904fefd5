// What the turns of a type's dictatorship take, written down by candidate.

ghost use Rattle.std.specs.Prelude.{◌≡◌, ℕ, ◌+◌, ◌<◌, [], length, slice_index, slice_index_or, slice_get};
ghost use Rattle.std.specs.Option.{option_map};
ghost use Rattle.market.specs.Problems.{order_of, turn_of};
ghost use Rattle.market.specs.Choices.{held_in_table};
ghost use Rattle.market.specs.Dictatorships.{choice};
ghost use Rattle.market.specs.LocalNumbers.{local_dictatorship, IsFillBefore};
ghost use Rattle.market.specs.Reruns.{IsRunUpto};

use crate::{Cuts, Dict, Market, Tentative};

impl Tentative {
    /// Writes what a turn of a type's dictatorship takes, where `place` is its choice. The
    /// dictatorship is that of the market from a turn on, with the seats that the turns before it
    /// take; the row has what the turns so far took, and then what this one takes too. What it has
    /// of every other turn stays, those yet to come among them.
    pub fn write_turn(
        &mut self,
        market: &Market,
        cuts: &Cuts,
        kind: u32,
        from_turn: u32,
        dict: &Dict,
        turn: u32,
        place: u32,
    )
        requires kind { kind < market.now.types }
        requires turn { from_turn + turn < length (order_of market.now kind) }
        requires dict { dict.now
            ≡ local_dictatorship market.now cuts.now kind from_turn dict.now.fill }
        requires fill { IsFillBefore market.now cuts.now kind from_turn dict.now.fill }
        requires choice { place ≡ choice dict.now turn }
        requires types { length self.old ≡ market.now.types }
        requires row { IsRunUpto market.now cuts.now kind (from_turn + turn)
            (slice_index_or self.old kind []) }

        ensures types { length self.new ≡ market.now.types }
        ensures row { IsRunUpto market.now cuts.now kind (from_turn + turn + 1)
            (slice_index_or self.new kind []) }
        ensures rest { (i : ℕ) → (turn_of market.now kind i ≡ from_turn + turn → ⊥)
            → held_in_table self.new kind i ≡ held_in_table self.old kind i }
        ensures others { (t : ℕ) → (t ≡ kind → ⊥)
            → slice_index_or self.new t [] ≡ slice_index_or self.old t [] }
    {
        let order = market.order(kind);
        let candidate = order[from_turn as usize + turn as usize];
        // Its clause says that the dictatorship is valid.
        let _ = dict.turns();
        let members = market.type_programmes(kind);
        let programme = entry(members, dict.list(turn), place);
        self.set(kind, candidate, programme);
    }
}

// The programme that a list of local numbers has at a place, if there is one.
fn entry(members: &[u32], list: &[u32], place: u32) -> Option<u32>
    requires { (j : ℕ) → j < length list.now → slice_index list.now j < length members.now }
    ensures { result ≡ option_map (slice_index members.now) (slice_get list.now place) }
{
    let place = place as usize;
    if place < list.len() {
        return Some(members[list[place] as usize]);
    }
    None
}
