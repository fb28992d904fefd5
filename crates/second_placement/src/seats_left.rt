// The programmes and the lists of the market of the seats left.

ghost use Rattle.std.specs.Prelude.{◌≡◌, ℕ, ◌≤◌, length, slice_index_or, if◌then◌else◌};
ghost use Rattle.market.specs.Counting.{count_of};
ghost use Rattle.market.specs.Problems.{no_programme};
ghost use Rattle.second_placement.specs.SeatsLeft.{lists_left, programmes_left};

use market::{List, Prog};
use std::alloc::Global;

/// The programmes, each with the seats that its registered holders leave. It takes no memory.
pub fn programmes_left(
    mut programmes: Vec<Prog>,
    held: &[Option<u32>],
    registered: &[bool],
) -> Vec<Prog>
    requires registered { length registered.now ≡ length held.now }
    requires quotas { (p : ℕ) → count_of p held.now
        ≤ (slice_index_or programmes.items p no_programme).quota }
    ensures { result.items ≡ programmes_left programmes.items held.now registered.now }
{
    for (candidate, holds) in held.iter().enumerate() {
        if let Some(programme) = seat_kept(*holds, registered[candidate]) {
            programmes[programme as usize].quota -= 1;
        }
    }
    programmes
}

// The programme for which a candidate who holds this has registered, or none.
fn seat_kept(holds: Option<u32>, registered: bool) -> Option<u32>
    ensures { result ≡ (if registered then holds else None) }
{
    if registered { holds } else { None }
}

/// The lists, empty for each candidate who holds a programme. It takes no memory.
pub fn lists_left(alloc: Global, mut lists: Vec<List>, held: &[Option<u32>]) -> Vec<List>
    requires { length held.now ≡ length lists.items }
    ensures { result.items ≡ lists_left lists.items held.now }
{
    for (candidate, holds) in held.iter().enumerate() {
        if holds.is_some() {
            lists[candidate] = List::from_vec(Vec::new(alloc));
        }
    }
    lists
}
