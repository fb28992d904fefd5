//! The registration desk: placed candidates register with one of several clerks, who share one
//! queue of requests under a lock; and the run of the desk, from words and files to a text.
#![tactic(auto)]

// What a request is answered.
mod reply;
// The desk of one thread.
mod state;
// The rule of the desk's table, and the kinds of atomic step.
mod rule;
// The desk under its lock, and its clerks.
mod desk;
// The opening of a desk, and the parts of its clerks.
mod opening;
// One request, served by a clerk under the lock.
mod serving;
// The end of a desk.
mod closing;
// Points at which a test may hold a clerk.
mod gate;
// All clerks of a desk at work.
mod crew;
// What a desk prints once every request is answered.
mod report;
// The words of the desk.
mod words;
// The limits of a desk in numbers.
mod limits;
// The placement and the requests, read from their files.
mod inputs;
// How a run of the desk ends.
mod status;
// The line of a status.
mod notes;
// The run of the desk.
mod run;

pub use crew::serve_all;
pub use desk::{Clerk, Desk, MOST_CLERKS};
pub use gate::{DeskGate, DeskPoint, OpenDesk};
pub use limits::limits_in_numbers;
pub use reply::Reply;
pub use report::{DeskNumbers, Report, report_all, report_of};
pub use rule::{
    ClerkView, DeskKey, DeskRule, DeskSeat, DeskTable, ReleaseStep, ShareMove, TakeStep,
};
pub use run::run_desk;
pub use serving::serve_next;
pub use state::DeskState;
pub use status::DeskStatus;
pub use words::{DeskWords, read_words};

#[cfg(test)]
mod tests;
