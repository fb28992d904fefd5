// A market with three stable placements.

ghost use Rattle.std.specs.Prelude.{◌≡◌, [], ◌∷◌};
ghost use Rattle.market.specs.Problems.{IsValid};
ghost use Rattle.market.specs.Stability.{IsStable};
ghost use Rattle.market.specs.Mechanism.{mechanism_placement};
ghost use Rattle.fixed_seats.specs.Reports.{seats_in};
ghost use Rattle.fixed_seats.specs.Examples.{three_stable, three_hold};

/// In this market each of three candidates can hold the first wish, or each the second, or each the
/// last: all three placements are stable, and the mechanism gives the last. In each the fourth and
/// the fifth candidate hold nothing, and each programme has one holder.
pub fn three_stable_placements()
    ensures valid { IsValid three_stable }
    ensures first_wishes { IsStable three_stable (three_hold 0 1 2) }
    ensures second_wishes { IsStable three_stable (three_hold 1 2 0) }
    ensures last_wishes { IsStable three_stable (three_hold 2 0 1) }
    ensures mechanism { mechanism_placement three_stable ≡ three_hold 2 0 1 }
    ensures shared { seats_in three_stable (mechanism_placement three_stable)
        ≡ record { unplaced = 3 ∷ 4 ∷ []; held = 1 ∷ 1 ∷ 1 ∷ 1 ∷ [] } }
{}
