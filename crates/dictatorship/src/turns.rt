// One dictatorship, turn by turn, with the seats taken so far in an array.

ghost use Rattle.std.specs.Prelude.{◌≡◌, ℕ, ◌+◌, ◌<◌, length, slice_index, nat_lt, IfOk};
ghost use Rattle.std.specs.List.{position_or_len};
ghost use Rattle.market.specs.Dictatorships.{IsValidDictatorship, IsSeatsAt, choice, choices};

use market::Dict;
use std::alloc::{AllocError, Global};

/// The choice of each turn: a place in its list, or the list's length for none.
pub fn run_plain(alloc: Global, dict: &Dict) -> Result<Vec<u32>, AllocError>
    ensures { IfOk result (λ found. found.items ≡ choices dict.now) }
{
    let mut seats = dict.fills(alloc)?;
    let mut found = Vec::new(alloc);
    for turn in 0..dict.turns() {
        found.push(choose(dict, &mut seats, turn))?;
    }
    Ok(found)
}

// What the turn chooses, whose seat is then taken.
fn choose(dict: &Dict, seats: &mut [u32], turn: u32) -> u32
    requires turn { turn < length dict.now.lists }
    requires valid { IsValidDictatorship dict.now }
    requires seats { IsSeatsAt dict.now turn seats.old }
    ensures choice { result ≡ choice dict.now turn }
    ensures seats { IsSeatsAt dict.now (turn + 1) seats.new }
{
    let list = dict.list(turn);
    let place = first_place(dict, seats, list);
    if place >= list.len() {
        return place as u32;
    }
    let programme = list[place];
    seats[programme as usize] += 1;
    place as u32
}

// The first place whose programme has fewer seats taken than its quota, or the list's length.
fn first_place(dict: &Dict, seats: &[u32], list: &[u32]) -> usize
    requires seats { length seats.now ≡ length dict.now.quota }
    requires entries { (j : ℕ) → j < length list.now
        → slice_index list.now j < length dict.now.quota }
    ensures { result
        ≡ position_or_len (λ p. nat_lt (slice_index seats.now p) (slice_index dict.now.quota p))
        list.now }
{
    for (place, programme) in list.iter().enumerate() {
        if seats[*programme as usize] < dict.quota(*programme) {
            return place;
        }
    }
    list.len()
}
