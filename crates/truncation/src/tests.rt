// The cuts of a round in which nobody has several choices: each list and each type is left alone.
// Rounds that cut are shown where rounds are run.

use crate::{Touched, cut_lists};
use market::examples::three_rounds;
use market::{Cuts, Market, Tentative};
use std::alloc::{AllocError, Global};
use std::test::Fail;

// What the first cuts of the market touch, when nobody has a choice: how many candidates are cut,
// and the first turns of two types.
fn touched_first(
    alloc: Global,
    market: &Market,
) -> Result<(u32, Option<u32>, Option<u32>), AllocError> {
    let table = Tentative::none(alloc, market)?;
    let mut cuts = Cuts::whole(alloc, market)?;
    let touched = cut_lists(market, &table, &mut cuts);
    Ok((touched.several(), touched.first(0), touched.first(1)))
}

// The same of a market of three rounds.
fn touched_in_three_rounds(alloc: Global) -> Result<(u32, Option<u32>, Option<u32>), AllocError> {
    touched_first(alloc, &three_rounds(alloc)?)
}

#[test]
fn nobody_without_several_choices_is_cut(rt: HostRuntime) -> Result<(), Fail> {
    let touched = touched_in_three_rounds(rt.alloc())?;
    assert_eq!(rt; touched, (0, None, None));
    assert_eq!(rt; Touched::all().first(1), Some(0));
    Ok(())
}
