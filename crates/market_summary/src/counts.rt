// What is counted: list entries, seats, and candidates who hold a programme.

ghost use Rattle.std.specs.Prelude.{◌≡◌};
ghost use Rattle.market.specs.Mechanism.{entry_count as entry_count_of};
ghost use Rattle.market_summary.specs.Summaries.{placed_count as placed_count_of, seat_count as seat_count_of};

use market::Market;

// How many entries all preference lists have.
pub(crate) fn entry_count(market: &Market) -> u64
    ensures { result ≡ entry_count_of market.now }
{
    let mut entries: u64 = 0;
    for candidate in 0..market.candidate_count() {
        entries += market.list(candidate).len() as u64;
    }
    entries
}

// How many seats all programmes have.
pub(crate) fn seat_count(market: &Market) -> u64
    ensures { result ≡ seat_count_of market.now }
{
    // Its clause says that the market is valid.
    let _ = market.type_count();
    let mut seats: u64 = 0;
    for programme in 0..market.programme_count() {
        seats += u64::from(market.programme(programme).quota);
    }
    seats
}

// How many candidates hold a programme.
pub(crate) fn placed_count(held: &[Option<u32>]) -> u64
    ensures { result ≡ placed_count_of held.now }
{
    held.iter().filter(|programme| programme.is_some()).count() as u64
}
