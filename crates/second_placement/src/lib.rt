//! A second placement of the seats left: once some of those who were placed have registered, the
//! market in which everybody who holds no programme may have the seats that nobody keeps.
//!
//! The market handed in is spent: its orders and ranks are moved into the new one. That nothing is
//! given twice is a clause of `second_market`, for every placement of the new market.
#![tactic(auto)]

// The market of the seats left.
mod second;
// The programmes and the lists of that market.
mod seats_left;
// A registrations file beside the candidates.
mod registrations;
// A market with a second placement to follow by hand.
pub mod example;
#[cfg(test)]
mod tests;

pub use registrations::read_registrations;
pub use second::second_market;
