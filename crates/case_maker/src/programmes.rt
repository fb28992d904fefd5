// The programmes.

ghost use Rattle.std.specs.Prelude.{◌≡◌, ◌<◌, IfOk, OnOk};
ghost use Rattle.case_maker.specs.MadeMarkets.{AreFit, made_programmes, drawn_programme as made_programme};
ghost use Rattle.case_maker.specs.Words.{generator_after, words_of};

use crate::sizes::Sizes;
use market::{MAX_QUOTA, Prog};
use rand_core::utils::NextWord;
use rand_pcg::Lcg64Xsh32;
use std::alloc::{AllocError, Global};

/// Draws a word for each programme.
pub(crate) fn draw_programmes(
    alloc: Global,
    words: &mut Lcg64Xsh32,
    sizes: Sizes,
) -> Result<Vec<Prog>, AllocError>
    requires { AreFit sizes }
    ensures made { IfOk result (λ made. made.items ≡ made_programmes sizes (words_of words.old)) }
    ensures taken { OnOk result (words.new ≡ generator_after sizes.programmes words.old) }
{
    let mut made = Vec::with_capacity(alloc, sizes.programmes as usize)?;
    for index in 0..sizes.programmes {
        let word = words.next_word();
        made.push(drawn_programme(sizes, word, index))?;
    }
    Ok(made)
}

// The programme that a word gives, without a bar. Quotas below this bound are expected to add up to about the
// number of candidates.
fn drawn_programme(sizes: Sizes, word: u32, index: u32) -> Prog
    requires fit { AreFit sizes }
    requires one { index < sizes.programmes }
    ensures { result ≡ made_programme sizes word index }
{
    let bound = 2 * (sizes.candidates / sizes.programmes) + 2;
    Prog {
        kind: index % sizes.types,
        quota: MAX_QUOTA.min(word % bound),
        bar: None,
    }
}
