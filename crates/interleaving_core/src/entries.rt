// What is asked of the entries of a turn's list.

ghost use Rattle.std.specs.Prelude.{◌≡◌, ◌<◌, length, nat_lt, slice_index};
ghost use Rattle.market.specs.Dictatorships.{IsValidDictatorship, list_at};
ghost use Rattle.interleaving_core.specs.Core.{entry, quota_of};

use market::Dict;

// How many entries the list of a turn has.
pub(crate) fn list_length(dict: &Dict, turn: u32) -> u32
    requires valid { IsValidDictatorship dict.now }
    requires turn { turn < length dict.now.lists }
    ensures { result ≡ length (list_at dict.now turn) }
{
    dict.list(turn).len() as u32
}

// The programme at a place of a turn's list.
pub(crate) fn entry_at(dict: &Dict, turn: u32, place: u32) -> u32
    requires valid { IsValidDictatorship dict.now }
    requires turn { turn < length dict.now.lists }
    requires place { place < length (list_at dict.now turn) }
    ensures entry { result ≡ entry dict.now turn place }
    ensures programme { result < length dict.now.quota }
{
    dict.list(turn)[place as usize]
}

// Whether the programme at a place of a turn's list has a seat left.
pub(crate) fn has_seat(dict: &Dict, seats: &[u32], turn: u32, place: u32) -> bool
    requires valid { IsValidDictatorship dict.now }
    requires turn { turn < length dict.now.lists }
    requires place { place < length (list_at dict.now turn) }
    requires seats { length seats.now ≡ length dict.now.quota }
    ensures { result ≡ nat_lt (slice_index seats.now (entry dict.now turn place))
        (quota_of dict.now (entry dict.now turn place)) }
{
    let programme = entry_at(dict, turn, place);
    seats[programme as usize] < dict.quota(programme)
}
