// Worked examples: the small markets of `specs/Examples.antt` as values, and what the definitions
// give on them, computed by the checker. Who doubts a definition can follow them by hand.

ghost use Rattle.std.specs.Prelude.{◌≡◌, [], ◌∷◌, Option, IfOk};
ghost use Rattle.market.specs.Problems.{IsValid};
ghost use Rattle.market.specs.Dictatorships.{choices, IsValidDictatorship};
ghost use Rattle.market.specs.Mechanism.{mechanism};
ghost use Rattle.market.specs.Reruns.{placement_turns};
ghost use Rattle.market.specs.Examples.{exchange, freed_seat, three_rounds, rank_bars, two_turns, prog};

use crate::{Dict, List, Market, Prog};
use std::alloc::{AllocError, Global};

/// Two candidates who each want first the programme in which the other has the better rank.
pub fn exchange(alloc: Global) -> Result<Market, AllocError>
    ensures { IfOk result (λ m. m ≡ exchange) }
{
    let programmes = vec![in alloc; one_seat(0), one_seat(1)]?;
    let lists = two_lists(alloc, &[0, 1], &[1, 0])?;
    let orders = two_lists(alloc, &[1, 0], &[0, 1])?;
    let ranks = two_lists(alloc, &[1, 2], &[1, 2])?;
    Market::build(alloc, 2, programmes, lists, orders, ranks)
}

/// The first candidate is best in both types; the second wants one of the two programmes.
pub fn freed_seat(alloc: Global) -> Result<Market, AllocError>
    ensures { IfOk result (λ m. m ≡ freed_seat) }
{
    let programmes = vec![in alloc; one_seat(0), one_seat(1)]?;
    let lists = two_lists(alloc, &[0, 1], &[1])?;
    let orders = two_lists(alloc, &[0, 1], &[0, 1])?;
    let ranks = two_lists(alloc, &[1, 2], &[1, 2])?;
    Market::build(alloc, 2, programmes, lists, orders, ranks)
}

/// One cut leads to the next.
pub fn three_rounds(alloc: Global) -> Result<Market, AllocError>
    ensures { IfOk result (λ m. m ≡ three_rounds) }
{
    let programmes = vec![in alloc; one_seat(0), one_seat(0), one_seat(1)]?;
    let first = List::from_slice(alloc, &[0, 2])?;
    let second = List::from_slice(alloc, &[2, 0, 1])?;
    let third = List::from_slice(alloc, &[1])?;
    let lists = vec![in alloc; first, second, third]?;
    let orders = two_lists(alloc, &[0, 1, 2], &[0, 1, 2])?;
    let ranks = two_lists(alloc, &[1, 2, 3], &[1, 2, 3])?;
    Market::build(alloc, 2, programmes, lists, orders, ranks)
}

/// Each candidate is one behind the bar of the first wish, and exactly at that of the second.
pub fn rank_bars(alloc: Global) -> Result<Market, AllocError>
    ensures { IfOk result (λ m. m ≡ rank_bars) }
{
    let programmes = vec![in alloc;
        Prog {
            kind: 0,
            quota: 2,
            bar: Some(50)
        },
        Prog {
            kind: 1,
            quota: 2,
            bar: Some(7)
        },
    ]?;
    let lists = two_lists(alloc, &[1, 0], &[0, 1])?;
    let orders = two_lists(alloc, &[0, 1], &[1, 0])?;
    let ranks = two_lists(alloc, &[50, 51], &[7, 8])?;
    Market::build(alloc, 2, programmes, lists, orders, ranks)
}

/// Two turns over two programmes with a seat each.
pub fn two_turns(alloc: Global) -> Result<Dict, AllocError>
    ensures { IfOk result (λ d. d ≡ two_turns) }
{
    let quota = vec![in alloc; 1, 1]?;
    let fill = vec![in alloc; 0, 0]?;
    let lists = two_lists(alloc, &[0], &[0, 1])?;
    Ok(Dict::from_parts(quota, fill, lists))
}

// A programme of a type with one seat and no bar.
fn one_seat(kind: u32) -> Prog
    ensures { result ≡ prog kind 1 }
{
    Prog {
        kind,
        quota: 1,
        bar: None,
    }
}

// Two lists.
fn two_lists(alloc: Global, first: &[u32], second: &[u32]) -> Result<Vec<List>, AllocError>
    ensures { IfOk result (λ lists. lists.items ≡ first.now ∷ second.now ∷ []) }
{
    let first = List::from_slice(alloc, first)?;
    let second = List::from_slice(alloc, second)?;
    Ok(vec![in alloc; first, second]?)
}

/// The examples are markets and a dictatorship as their conditions ask.
pub fn examples_are_valid()
    ensures exchange { IsValid exchange }
    ensures freed_seat { IsValid freed_seat }
    ensures three_rounds { IsValid three_rounds }
    ensures rank_bars { IsValid rank_bars }
    ensures two_turns { IsValidDictatorship two_turns }
{}

/// Each candidate gets the second wish: the better ranked one in each type takes its seat, and
/// nobody has several. One round, no cut, four turns.
#[tactic(auto, unfolding(crate::proofs::Computes::computes))]
pub fn exchange_placement()
    ensures placement { (mechanism exchange).placement ≡ Option.Some 1 ∷ Option.Some 0 ∷ [] }
    ensures rounds { (mechanism exchange).rounds ≡ 1 }
    ensures cuts { (mechanism exchange).cuts ≡ 0 }
    ensures whole_rounds { (mechanism exchange).turns ≡ 4 }
    ensures reruns { placement_turns exchange ≡ 4 }
{}

/// The first candidate takes both seats and is cut; the second then takes the seat that this frees.
/// Two rounds, one cut, eight turns of whole rounds; six where only what changed is run again.
#[tactic(auto, unfolding(crate::proofs::Computes::computes))]
pub fn freed_seat_placement()
    ensures placement { (mechanism freed_seat).placement ≡ Option.Some 0 ∷ Option.Some 1 ∷ [] }
    ensures rounds { (mechanism freed_seat).rounds ≡ 2 }
    ensures cuts { (mechanism freed_seat).cuts ≡ 1 }
    ensures whole_rounds { (mechanism freed_seat).turns ≡ 8 }
    ensures reruns { placement_turns freed_seat ≡ 6 }
{}

/// One cut leads to the next. Three rounds, two cuts, eighteen turns of whole rounds; eleven where
/// only what changed is run again: six, then three of the second type, then two of the first.
#[tactic(auto, unfolding(crate::proofs::Computes::computes))]
pub fn three_rounds_placement()
    ensures placement { (mechanism three_rounds).placement
        ≡ Option.Some 0 ∷ Option.Some 2 ∷ Option.Some 1 ∷ [] }
    ensures rounds { (mechanism three_rounds).rounds ≡ 3 }
    ensures cuts { (mechanism three_rounds).cuts ≡ 2 }
    ensures whole_rounds { (mechanism three_rounds).turns ≡ 18 }
    ensures reruns { placement_turns three_rounds ≡ 11 }
{}

/// Each candidate gets the second wish, since the bar of the first one excludes by one rank whom
/// that of the second just admits. One round, no cut, four turns.
#[tactic(auto, unfolding(crate::proofs::Computes::computes))]
pub fn rank_bars_placement()
    ensures placement { (mechanism rank_bars).placement ≡ Option.Some 0 ∷ Option.Some 1 ∷ [] }
    ensures rounds { (mechanism rank_bars).rounds ≡ 1 }
    ensures cuts { (mechanism rank_bars).cuts ≡ 0 }
    ensures whole_rounds { (mechanism rank_bars).turns ≡ 4 }
    ensures reruns { placement_turns rank_bars ≡ 4 }
{}

/// The first turn takes the only programme it lists; the second, which lists it first, the other.
#[tactic(auto, unfolding(crate::proofs::Computes::computes))]
pub fn two_turns_choices()
    ensures { choices two_turns ≡ 0 ∷ 1 ∷ [] }
{}
