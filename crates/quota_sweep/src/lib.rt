//! One programme's quota varied: what each quota from one to another gives, and whom a further seat
//! moves.
//!
//! The market is placed once for each quota, and is afterwards as it was. Along the quotas no
//! candidate loses: that is the law `more_seats`, and a clause of `sweep`. How the argument goes
//! stands above its file in `proofs/` (`Widening`).
#![tactic(auto)]

// The law.
mod law;
// The row of one quota.
mod row;
// The rows of all quotas.
mod table;
// Who holds something else than before.
mod changes;
// The sweep.
mod sweeping;
// A market in which one further seat moves a chain of candidates.
pub mod example;
#[cfg(test)]
mod tests;

pub use law::more_seats;
pub use row::{MAX_ROWS, SweepRow};
pub use sweeping::sweep;
pub use table::SweepTable;
