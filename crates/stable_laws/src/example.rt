// The exchange: a market with two stable placements.

ghost use Rattle.std.specs.Prelude.{[], ◌∷◌, Option};
ghost use Rattle.market.specs.Problems.{IsValid};
ghost use Rattle.market.specs.Stability.{IsStable};
ghost use Rattle.market.specs.Mechanism.{mechanism_placement};
ghost use Rattle.market.specs.Examples.{exchange};

/// The exchange is a market, and the placement that the mechanism gives it is stable. So is the
/// other one, in which each candidate holds the first wish: it is better for both.
pub fn exchange_stable_placements()
    ensures valid { IsValid exchange }
    ensures mechanism { IsStable exchange (mechanism_placement exchange) }
    ensures exchanged { IsStable exchange (Option.Some 0 ∷ Option.Some 1 ∷ []) }
{}
