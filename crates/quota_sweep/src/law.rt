// The law.

ghost use Rattle.market.specs.Comparisons.{GivesAtLeast, Widens};
ghost use Rattle.market.specs.Mechanism.{mechanism_placement};

use market::Market;

/// In a market with as many seats or more, and with the rest equal, the mechanism gives each
/// candidate what it gives in this market, or a programme listed higher.
///
/// A law: it changes and answers nothing, and a call gives it to a proof.
pub fn more_seats(market: &Market, wider: &Market)
    requires { Widens market.now wider.now }
    ensures { GivesAtLeast market.now (mechanism_placement market.now)
        (mechanism_placement wider.now) }
{
    // Their clauses say that the markets are valid.
    let _ = market.type_count();
    let _ = wider.type_count();
}
