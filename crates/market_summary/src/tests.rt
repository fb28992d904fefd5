// A summary that was written by hand.

use crate::summary_text;
use market::examples::three_rounds;
use market::{Outcome, Placement};
use std::alloc::{AllocError, Global};
use std::test::Fail;

// An outcome of three candidates that is made up, so that no two of its numbers are the same: the
// first holds a programme, and the others nothing.
fn made_up(alloc: Global) -> Result<Outcome, AllocError> {
    let held = vec![in alloc; Some(0), None, None]?;
    Ok(Outcome {
        placement: Placement::from_vec(held),
        rounds: 12,
        cuts: 7,
        turns: 4_294_967_296,
    })
}

// The summary of the market of three rounds and of the outcome that is made up.
fn summary_of_three(alloc: Global) -> Result<Vec<u8>, AllocError> {
    let market = three_rounds(alloc)?;
    let outcome = made_up(alloc)?;
    summary_text(alloc, &market, &outcome)
}

// Three lists of 2, 3 and 1 entries, and three programmes with a seat each.
#[test]
fn a_summary_has_a_line_for_each_number(rt: HostRuntime) -> Result<(), Fail> {
    let text = summary_of_three(rt.alloc())?;
    let lines = b"candidates 3\nprogrammes 3\ntypes 2\nentries 6\nrounds 12\ncuts 7\n\
turns 4294967296\nplaced 1\nseats 3\n";
    assert_eq!(rt; text.as_slice(), &lines[..]);
    Ok(())
}
