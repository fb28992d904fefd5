// The text of a summary.

ghost use Rattle.std.specs.Prelude.{◌≡◌, ◌++◌, IfOk, OnOk};
ghost use Rattle.market_summary.specs.Summaries.{count_line, summary};

use crate::counts::{entry_count, placed_count, seat_count};
use itoa::Buffer;
use market::{Market, Outcome};
use std::alloc::{AllocError, Global};

/// The summary of a market and of what a run of the mechanism gave in it: a line for each of
/// `candidates`, `programmes`, `types`, `entries`, `rounds`, `cuts`, `turns`, `placed` and `seats`,
/// in this order.
pub fn summary_text(
    alloc: Global,
    market: &Market,
    outcome: &Outcome,
) -> Result<Vec<u8>, AllocError>
    ensures { IfOk result (λ text. text.items ≡ summary market.now outcome.now) }
{
    let mut text = Vec::new(alloc);
    put_line(&mut text, "candidates", u64::from(market.candidate_count()))?;
    put_line(&mut text, "programmes", u64::from(market.programme_count()))?;
    put_line(&mut text, "types", u64::from(market.type_count()))?;
    put_line(&mut text, "entries", entry_count(market))?;
    put_line(&mut text, "rounds", u64::from(outcome.rounds))?;
    put_line(&mut text, "cuts", u64::from(outcome.cuts))?;
    put_line(&mut text, "turns", outcome.turns)?;
    put_line(&mut text, "placed", placed_count(outcome.placement.held()))?;
    put_line(&mut text, "seats", seat_count(market))?;
    Ok(text)
}

// Appends a line: a word, a space, a number and a line feed.
fn put_line(text: &mut Vec<u8>, word: &str, number: u64) -> Result<(), AllocError>
    ensures { OnOk result (text.new.items ≡ text.old.items ++ count_line word.now number) }
{
    let mut buffer = Buffer::new();
    text.extend_from_slice(word.as_bytes())?;
    text.push(b' ')?;
    text.extend_from_slice(buffer.format(number).as_bytes())?;
    text.push(b'\n')?;
    Ok(())
}
