// A market in which one further seat moves a chain of candidates.

ghost use Rattle.std.specs.Prelude.{◌≡◌, [], ◌∷◌, None, Some, IfOk};
ghost use Rattle.market.specs.Problems.{IsValid};
ghost use Rattle.quota_sweep.specs.Examples.{chain as chain_of_five};
ghost use Rattle.quota_sweep.specs.Sweeps.{sweep_rows};

use market::{List, Market, Prog};
use std::alloc::{AllocError, Global};

/// Five candidates who each list a programme and the next one; the first programme has no seat, and
/// nobody lists the last.
pub fn chain(alloc: Global) -> Result<Market, AllocError>
    ensures { IfOk result (λ m. m ≡ chain_of_five) }
{
    let none = Prog {
        kind: 0,
        quota: 0,
        bar: None,
    };
    let one = Prog {
        kind: 0,
        quota: 1,
        bar: None,
    };
    let two = Prog {
        kind: 0,
        quota: 2,
        bar: None,
    };
    let programmes = vec![in alloc; none, one, one, one, one, two]?;
    let first = List::from_slice(alloc, &[0, 1])?;
    let second = List::from_slice(alloc, &[1, 2])?;
    let third = List::from_slice(alloc, &[2, 3])?;
    let fourth = List::from_slice(alloc, &[3, 4])?;
    let fifth = List::from_slice(alloc, &[4])?;
    let lists = vec![in alloc; first, second, third, fourth, fifth]?;
    let order = List::from_slice(alloc, &[0, 1, 2, 3, 4])?;
    let orders = vec![in alloc; order]?;
    let rank = List::from_slice(alloc, &[1, 2, 3, 4, 5])?;
    let ranks = vec![in alloc; rank]?;
    Market::build(alloc, 1, programmes, lists, orders, ranks)
}

/// A seat in the first programme gives it a holder, and moves all five candidates.
pub fn chain_rows()
    ensures valid { IsValid chain_of_five }
    ensures rows { sweep_rows chain_of_five 0 0 1
        ≡ record { quota = 0; held = 0; base = None; changed = 0 }
        ∷ record { quota = 1; held = 1; base = Some 1; changed = 5 } ∷ [] }
{}
