// Worked examples: what the definitions give on small markets that are expanded, computed by the
// checker. Who doubts a definition can follow them by hand.

ghost use Rattle.std.specs.Prelude.{◌≡◌, [], ◌∷◌, Option};
ghost use Rattle.market.specs.Mechanism.{mechanism};
ghost use Rattle.reserved_seats.specs.Expansion.{expanded};
ghost use Rattle.reserved_seats.specs.Examples.{one_programme, third_marked, two_wishes, first_marked};

/// One general and one reserved seat, and a marked candidate of the worst rank: the best candidate
/// holds the general seat, the marked one the reserved seat, and the one between them none.
#[tactic(auto, unfolding(market::proofs::Computes::computes, crate::specs::Expansion::expanded))]
pub fn marked_candidate_last()
    ensures lists { (expanded (one_programme (0 ∷ 1 ∷ 2 ∷ [])) third_marked).lists
        ≡ (0 ∷ []) ∷ (0 ∷ []) ∷ (0 ∷ 1 ∷ []) ∷ [] }
    ensures placement { let m = expanded (one_programme (0 ∷ 1 ∷ 2 ∷ [])) third_marked in
        (mechanism m).placement ≡ Option.Some 0 ∷ Option.None ∷ Option.Some 1 ∷ [] }
{}

/// The same where the marked candidate is the best: the general seat comes first in the list, so
/// the reserved one stays free.
#[tactic(auto, unfolding(market::proofs::Computes::computes, crate::specs::Expansion::expanded))]
pub fn marked_candidate_first()
    ensures { (mechanism (expanded (one_programme (2 ∷ 0 ∷ 1 ∷ [])) third_marked)).placement
        ≡ Option.None ∷ Option.None ∷ Option.Some 0 ∷ [] }
{}

/// A marked candidate takes general seats in both types, and the list is cut between the general
/// and the reserved seats of the first programme; the second round gives the other candidate the
/// seat that this frees.
#[tactic(auto, unfolding(market::proofs::Computes::computes, crate::specs::Expansion::expanded))]
pub fn cut_between_two_seats()
    ensures lists { (expanded two_wishes first_marked).lists
        ≡ (0 ∷ 2 ∷ 1 ∷ 3 ∷ []) ∷ (1 ∷ []) ∷ [] }
    ensures placement { (mechanism (expanded two_wishes first_marked)).placement
        ≡ Option.Some 0 ∷ Option.Some 1 ∷ [] }
    ensures rounds { (mechanism (expanded two_wishes first_marked)).rounds ≡ 2 }
    ensures cuts { (mechanism (expanded two_wishes first_marked)).cuts ≡ 1 }
{}
