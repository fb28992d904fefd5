// What the candidates draw, one after the other.

ghost use Rattle.std.specs.Prelude.{◌≡◌, [], length, replicate, IfOk, OnOk};
ghost use Rattle.case_maker.specs.Drawn.{HasDrawn, HasGained};
ghost use Rattle.case_maker.specs.Words.{generator_after, words_of};

use crate::draws::draw_list;
use crate::keys::Keys;
use crate::sizes::Sizes;
use market::List;
use rand_core::utils::NextWord;
use rand_pcg::Lcg64Xsh32;
use std::alloc::{AllocError, Global};

/// The preference list of each candidate, and the keys of each type.
#[derive(Drop)]
pub(crate) struct Drawn {
    pub(crate) lists: Vec<List>,
    pub(crate) keys: Vec<Keys>,
}

/// Draws for each candidate a preference list, and then a word for each type.
pub(crate) fn draw_candidates(
    alloc: Global,
    words: &mut Lcg64Xsh32,
    sizes: Sizes,
) -> Result<Drawn, AllocError>
    ensures { IfOk result (λ drawn. HasDrawn sizes (words_of words.old) sizes.candidates
        drawn.lists.items drawn.keys.items) }
{
    let mut lists = Vec::with_capacity(alloc, sizes.candidates as usize)?;
    let mut keys = no_keys(alloc, sizes)?;
    for candidate in 0..sizes.candidates {
        let list = draw_list(alloc, words, sizes.programmes)?;
        lists.push(list)?;
        draw_keys(words, candidate, &mut keys)?;
    }
    Ok(Drawn { lists, keys })
}

// No keys in each type.
fn no_keys(alloc: Global, sizes: Sizes) -> Result<Vec<Keys>, AllocError>
    ensures { IfOk result (λ keys. keys.items ≡ replicate sizes.types []) }
{
    let mut keys = Vec::with_capacity(alloc, sizes.types as usize)?;
    for _kind in 0..sizes.types {
        keys.push(Keys::new(alloc, sizes.candidates)?)?;
    }
    Ok(keys)
}

// Draws the candidate's word in each type.
fn draw_keys(words: &mut Lcg64Xsh32, candidate: u32, keys: &mut [Keys]) -> Result<(), AllocError>
    ensures taken { OnOk result (words.new ≡ generator_after (length keys.old) words.old) }
    ensures keys { OnOk result
        (HasGained (words_of words.old) candidate keys.old keys.new (length keys.old)) }
{
    for kind in 0..keys.len() {
        let word = words.next_word();
        keys[kind].add(word, candidate)?;
    }
    Ok(())
}
