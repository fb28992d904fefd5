//! A second kind of seats, which only marked candidates may hold: the expanded market, in which
//! each programme stands once with its general and once with its reserved seats.
//!
//! Between a row of the programmes file and an index of a market stands an offer: the row, and
//! which of its seats. In a market that is not expanded each row has one offer, at its own index.
#![tactic(auto)]

// The two kinds of seats, and offers.
mod offers;
// How many seats are reserved, and for whom.
mod seats;
// The expanded market.
mod expansion;
// Who may hold reserved seats, and when.
mod laws;
// Worked examples: what the definitions give on them.
pub mod examples;
#[cfg(test)]
mod tests;

pub use expansion::{expand, expand_parts};
pub use laws::{acceptable_offers, reserved_seats_last};
pub use offers::{Offer, Seat};
pub use seats::Reserved;
