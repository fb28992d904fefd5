// The cuts of a round.

ghost use Rattle.std.specs.Prelude.{◌≡◌, ℕ, ◌+◌, ◌<◌, length, slice_index, slice_index_or, slice_set, Bool, Option};
ghost use Rattle.market.specs.declared.limits.TheConstants.{MAX_TYPES, MAX_CANDIDATES};
ghost use Rattle.market.specs.Problems.{place_of, list_of, turn_of};
ghost use Rattle.market.specs.Mechanism.{IsCuts, has_several_in, best_in, cuts_in, several_in};
ghost use Rattle.market.specs.Choices.{held_in_table, IsChoiceTable, IsWithinCuts};
ghost use Rattle.market.specs.Reruns.{is_beyond, changed_turn, noted};
ghost use Rattle.truncation.specs.Touches.{is_marked};

use crate::Touched;
use market::{Cuts, Market, Tentative};

/// Cuts the list of each candidate with choices in several types just after the best of them. It
/// takes no memory. A type that the market does not have is not touched.
pub fn cut_lists(market: &Market, tentative: &Tentative, cuts: &mut Cuts) -> Touched
    requires table { IsChoiceTable market.now tentative.now }
    requires cuts { IsCuts market.now cuts.old }

    // Each choice is a programme of its type, of a candidate with a turn in it, within the cut.
    requires within { IsWithinCuts market.now tentative.now cuts.old }

    ensures cuts { cuts.new ≡ cuts_in market.now (held_in_table tentative.now) cuts.old }
    ensures several { result.several ≡ several_in market.now (held_in_table tentative.now) }
    ensures first { (t : ℕ) → t < MAX_TYPES → slice_index_or result.first t Option.None
        ≡ changed_turn market.now (held_in_table tentative.now) cuts.old t }
{
    let mut touched = Touched::none();
    for candidate in 0..market.candidate_count() {
        if tentative.has_several(market, candidate) {
            cut_after_best(market, tentative, candidate, cuts, &mut touched);
        }
    }
    touched
}

/// The same where only the marked candidates can have choices in several types: nobody else is
/// looked at.
pub fn cut_marked(
    market: &Market,
    tentative: &Tentative,
    marked: &[bool],
    cuts: &mut Cuts,
) -> Touched
    requires table { IsChoiceTable market.now tentative.now }
    requires cuts { IsCuts market.now cuts.old }
    requires within { IsWithinCuts market.now tentative.now cuts.old }
    requires marks { length marked.now ≡ length market.now.lists }
    requires others { (i : ℕ) → i < length market.now.lists → is_marked marked.now i ≡ Bool.false
        → has_several_in market.now (held_in_table tentative.now) i ≡ Bool.false }

    ensures cuts { cuts.new ≡ cuts_in market.now (held_in_table tentative.now) cuts.old }
    ensures several { result.several ≡ several_in market.now (held_in_table tentative.now) }
    ensures first { (t : ℕ) → t < MAX_TYPES → slice_index_or result.first t Option.None
        ≡ changed_turn market.now (held_in_table tentative.now) cuts.old t }
{
    let mut touched = Touched::none();
    for candidate in 0..market.candidate_count() {
        if takes_several(market, tentative, candidate, marked[candidate as usize]) {
            cut_after_best(market, tentative, candidate, cuts, &mut touched);
        }
    }
    touched
}

// Whether a candidate has choices in several types, which only a marked one can have.
fn takes_several(market: &Market, tentative: &Tentative, candidate: u32, marked: bool) -> bool
    requires candidate { candidate < length market.now.lists }
    requires table { IsChoiceTable market.now tentative.now }
    requires other { marked ≡ Bool.false
        → has_several_in market.now (held_in_table tentative.now) candidate ≡ Bool.false }
    ensures { result ≡ has_several_in market.now (held_in_table tentative.now) candidate }
{
    if !marked {
        return false;
    }
    tentative.has_several(market, candidate)
}

// Cuts the list of a candidate just after the best choice, and notes what this touches.
fn cut_after_best(
    market: &Market,
    tentative: &Tentative,
    candidate: u32,
    cuts: &mut Cuts,
    touched: &mut Touched,
)
    requires candidate { candidate < length market.now.lists }
    requires table { IsChoiceTable market.now tentative.now }
    requires cuts { candidate < length cuts.old }
    requires shorter { best_in market.now (held_in_table tentative.now) candidate
        < slice_index cuts.old candidate }
    requires types { length touched.old.first ≡ MAX_TYPES }
    requires few { touched.old.several < MAX_CANDIDATES }
    ensures cuts { cuts.new ≡ slice_set cuts.old candidate
        (best_in market.now (held_in_table tentative.now) candidate + 1) }
    ensures several { touched.new.several ≡ touched.old.several + 1 }
    ensures types { length touched.new.first ≡ MAX_TYPES }
    ensures first { (t : ℕ) → t < MAX_TYPES → slice_index_or touched.new.first t Option.None
        ≡ noted
        (is_beyond (list_of market.now candidate)
        (best_in market.now (held_in_table tentative.now) candidate + 1)
        (held_in_table tentative.now t candidate))
        (slice_index_or touched.old.first t Option.None) (turn_of market.now t candidate) }
{
    // Its clause says that the market is valid.
    let _ = market.type_count();
    let cut = tentative.best_place(market, candidate) + 1;
    cuts.set(candidate, cut);
    note_types(market, tentative, candidate, cut, touched);
    touched.count_one();
}

// Notes for each type the turn of a candidate whose choice stands beyond the new cut.
fn note_types(
    market: &Market,
    tentative: &Tentative,
    candidate: u32,
    cut: u32,
    touched: &mut Touched,
)
    requires candidate { candidate < length market.now.lists }
    requires table { IsChoiceTable market.now tentative.now }
    requires types { length touched.old.first ≡ MAX_TYPES }
    ensures several { touched.new.several ≡ touched.old.several }
    ensures types { length touched.new.first ≡ MAX_TYPES }
    ensures first { (t : ℕ) → t < MAX_TYPES → slice_index_or touched.new.first t Option.None
        ≡ noted
        (is_beyond (list_of market.now candidate) cut (held_in_table tentative.now t candidate))
        (slice_index_or touched.old.first t Option.None) (turn_of market.now t candidate) }
{
    let list = market.list(candidate);
    for kind in 0..market.type_count() {
        let choice = tentative.choice(kind, candidate);
        if stands_beyond(list, cut, choice) {
            touched.note(kind, market.turn(kind, candidate));
        }
    }
}

// Whether a choice stands at or beyond a cut of the list.
fn stands_beyond(list: &[u32], cut: u32, choice: Option<u32>) -> bool
    ensures { result ≡ is_beyond list.now cut choice }
{
    match choice {
        Some(programme) => !(place_in(list, programme) < cut as usize),
        None => false,
    }
}

// The place of a programme in a list, or the list's length.
fn place_in(list: &[u32], programme: u32) -> usize
    ensures { result ≡ place_of programme list.now }
{
    for (place, entry) in list.iter().enumerate() {
        if *entry == programme {
            return place;
        }
    }
    list.len()
}
