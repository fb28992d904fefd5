// The preference list of a candidate.

ghost use Rattle.std.specs.Prelude.{◌≡◌, IfOk, OnOk};
ghost use Rattle.case_maker.specs.Draws.{drawn_list, list_words};
ghost use Rattle.case_maker.specs.Words.{generator_after, words_of};

use market::List;
use rand_core::utils::NextWord;
use rand_pcg::Lcg64Xsh32;
use std::alloc::{AllocError, Global};

/// More than the number of entries that are drawn for any list.
pub(crate) const DRAWS: u32 = 25;

/// Draws a preference list among so many programmes. An entry that stands in it already is dropped.
pub(crate) fn draw_list(
    alloc: Global,
    words: &mut Lcg64Xsh32,
    programmes: u32,
) -> Result<List, AllocError>
    ensures list { IfOk result (λ list. list ≡ drawn_list programmes (words_of words.old)) }
    ensures taken { OnOk result
        (words.new ≡ generator_after (list_words programmes (words_of words.old)) words.old) }
{
    let draws = programmes.min(words.next_word() % DRAWS);
    let mut list = Vec::with_capacity(alloc, draws as usize)?;
    for _draw in 0..draws {
        let entry = words.next_word() % programmes;
        if !list.contains(&entry) {
            list.push(entry)?;
        }
    }
    Ok(List::from_vec(list))
}
