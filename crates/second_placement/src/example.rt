// A market with a second placement to follow by hand.

ghost use Rattle.std.specs.Prelude.{◌≡◌, [], ◌∷◌, None, Some, IfOk, true, false};
ghost use Rattle.market.specs.Mechanism.{mechanism_placement};
ghost use Rattle.market.specs.Problems.{IsValid};
ghost use Rattle.second_placement.specs.Examples.{given_second, three_for_two as three_candidates};

use market::{List, Market, Prog};
use std::alloc::{AllocError, Global};

/// Three candidates for two programmes of one seat each: the first lists the first programme, the
/// second both, the third the second programme.
pub fn three_for_two(alloc: Global) -> Result<Market, AllocError>
    ensures { IfOk result (λ m. m ≡ three_candidates) }
{
    let seat = Prog {
        kind: 0,
        quota: 1,
        bar: None,
    };
    let programmes = vec![in alloc; seat, seat]?;
    let first = List::from_slice(alloc, &[0])?;
    let second = List::from_slice(alloc, &[0, 1])?;
    let third = List::from_slice(alloc, &[1])?;
    let lists = vec![in alloc; first, second, third]?;
    let order = List::from_slice(alloc, &[0, 1, 2])?;
    let orders = vec![in alloc; order]?;
    let rank = List::from_slice(alloc, &[1, 2, 3])?;
    let ranks = vec![in alloc; rank]?;
    Market::build(alloc, 1, programmes, lists, orders, ranks)
}

/// At first the first two candidates are placed. Where only the first of them registers, the third
/// gets the seat of the second; where both do, no seat is left; and where nobody registers, the
/// third gets the seat that it wants, and the first two take no part.
pub fn three_for_two_placements()
    ensures valid { IsValid three_candidates }
    ensures first { mechanism_placement three_candidates ≡ Some 0 ∷ Some 1 ∷ None ∷ [] }
    ensures one { given_second three_candidates (true ∷ false ∷ false ∷ [])
        ≡ None ∷ None ∷ Some 1 ∷ [] }
    ensures both { given_second three_candidates (true ∷ true ∷ false ∷ [])
        ≡ None ∷ None ∷ None ∷ [] }
    ensures nobody { given_second three_candidates (false ∷ false ∷ false ∷ [])
        ≡ None ∷ None ∷ Some 1 ∷ [] }
{}
