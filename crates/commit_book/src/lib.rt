//! The commit book: whoever takes the mark commits posted turns, in the order of turns, each at
//! the place that its weighing finds, and gives the mark back once the next turn is not posted.
//! Where a turn takes a programme's last seat, the programme's flag is raised before the turn is
//! committed.
//!
//! Each call on the mark moves its seat by one event of the core, which could be made at this step,
//! and answers by what was found there, whatever other workers do before and after. The kinds of
//! step that it makes (`word_rule`) are each bound to their own word. How many turns a call commits
//! is bound whatever kinds of step it makes, since the rule counts them for each seat; how often it
//! tries the mark is bound for these kinds alone, since no word shows a try that missed.
#![tactic(auto)]

// The six calls of the mark's holder, and of who tries to take it.
mod holder;
// The call that takes the mark, commits posted turns and gives the mark back.
mod prefix;

pub use holder::{look, release, seal, seat, take, weigh};
pub use prefix::{commit_prefix, commit_turn};
