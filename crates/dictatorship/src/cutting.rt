// Who is cut after a round, and where.

ghost use Rattle.std.specs.Prelude.{◌≡◌};
ghost use Rattle.market.specs.Mechanism.{IsCuts, next_cuts, several_count};
ghost use Rattle.market.specs.Choices.{IsRound};

use market::{Cuts, Market, Tentative};

/// Cuts the list of each candidate who takes several programmes just after the best of them, and
/// says how many there are.
pub fn cut_round(market: &Market, table: &Tentative, cuts: &mut Cuts) -> u32
    requires cuts { IsCuts market.now cuts.old }
    requires round { IsRound market.now cuts.old table.now }
    ensures cuts { cuts.new ≡ next_cuts market.now cuts.old }
    ensures count { result ≡ several_count market.now cuts.old }
{
    let mut count: u32 = 0;
    for candidate in 0..market.candidate_count() {
        if table.has_several(market, candidate) {
            cuts.set(candidate, table.best_place(market, candidate) + 1);
            count += 1;
        }
    }
    count
}
