// The market.

ghost use Rattle.std.specs.Prelude.{◌≡◌, ◌<◌, ◌≤◌, ℕ, [], map, length, slice_index_or, IfOk};
ghost use Rattle.std.specs.List.{range_with_len};
ghost use Rattle.market.specs.Problems.{IsValid};
ghost use Rattle.market.specs.declared.limits.TheConstants.{MAX_CANDIDATES, MAX_PROGRAMMES, MAX_TYPES};
ghost use Rattle.case_maker.specs.MadeMarkets.{AreFit, HasSizes, made_market, made_problem};
ghost use Rattle.case_maker.specs.Turns.{turn_order};
ghost use Rattle.case_maker.specs.Words.{seeded, words_of};

use crate::candidates::draw_candidates;
use crate::keys::{Keys, rising_ranks};
use crate::programmes::draw_programmes;
use crate::sizes::Sizes;
use market::{List, Market};
use rand_pcg::Lcg64Xsh32;
use std::alloc::{AllocError, Global};

/// Makes the market of a seed, with so many candidates, programmes and score types. Nothing but
/// memory is refused.
///
/// The generator is PCG XSH RR 64/32 at the seed and stream 0. Each programme draws a quota; each
/// candidate draws a preference list of at most 24 programmes, and in each type a key or no rank;
/// the ranks of a type are the places of its keys in order.
pub fn make_market(
    alloc: Global,
    seed: u64,
    candidates: u32,
    programmes: u32,
    types: u32,
) -> Result<Market, AllocError>
    requires candidates { candidates ≤ MAX_CANDIDATES }
    requires programmes { programmes ≤ MAX_PROGRAMMES }
    requires types { types ≤ MAX_TYPES }
    requires some_type { 0 < types }

    // The market is the definition's, all of it, and that is a valid one.
    ensures made { IfOk result (λ m. m ≡ made_market seed candidates programmes types) }
    ensures valid { IsValid (made_market seed candidates programmes types) }
    ensures sizes { HasSizes (made_market seed candidates programmes types)
        candidates programmes types }
{
    let sizes = Sizes {
        candidates,
        programmes,
        types,
    };
    make(alloc, seed, sizes)
}

// The market of a seed.
fn make(alloc: Global, seed: u64, sizes: Sizes) -> Result<Market, AllocError>
    requires { AreFit sizes }
    ensures { IfOk result (λ m. m ≡ made_problem sizes (words_of (seeded seed))) }
{
    let mut words = Lcg64Xsh32::new(seed, 0);
    let made = draw_programmes(alloc, &mut words, sizes)?;
    let drawn = draw_candidates(alloc, &mut words, sizes)?;
    let orders = turn_orders(alloc, drawn.keys)?;
    let ranks = all_ranks(alloc, &orders)?;
    Market::build(alloc, sizes.types, made, drawn.lists, orders, ranks)
}

// The turn order of each type.
fn turn_orders(alloc: Global, keys: Vec<Keys>) -> Result<Vec<List>, AllocError>
    ensures { IfOk result (λ orders. orders.items ≡ map turn_order keys.items) }
{
    let mut orders = Vec::with_capacity(alloc, keys.len())?;
    for of_type in keys {
        orders.push(of_type.into_turn_order(alloc)?)?;
    }
    Ok(orders)
}

// The ranks of each type.
fn all_ranks(alloc: Global, orders: &[List]) -> Result<Vec<List>, AllocError>
    requires { (kind : ℕ) → kind < length orders.now
        → length (slice_index_or orders.now kind []) ≤ MAX_CANDIDATES }
    ensures { IfOk result (λ ranks. ranks.items
        ≡ map (λ order. range_with_len 1 (length order)) orders.now) }
{
    let mut ranks = Vec::with_capacity(alloc, orders.len())?;
    for order in orders {
        ranks.push(rising_ranks(alloc, order.items().len() as u32)?)?;
    }
    Ok(ranks)
}
