//! Flags of full programmes: a claimant looks at the flags of 64 programmes in one load, and passes
//! the entries of its list that they show to be full; the mark's holder raises the flag of a
//! programme that it has filled.
//!
//! Each call moves its seat by one event of the core, which could be made at this step, told by the
//! word found there. A flag is raised only where its programme is full, and no seat count ever
//! falls, so a flag that was found raised tells of a full programme for the whole round.
#![tactic(auto)]

// The two calls.
mod calls;

pub use calls::{raise_flag, read_flags};
