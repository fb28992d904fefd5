// Words of flags: a word has the flags of `FLAGS_PER_WORD` programmes, one a bit.

ghost use Rattle.std.specs.Prelude.{◌≡◌, ◌<◌, ◌^◌, ◌==◌, length, IfOk};
ghost use Rattle.market.specs.Dictatorships.{IsValidDictatorship, list_at};
ghost use Rattle.interleaving_core.specs.Flags.{flag_word_count, flag_group, flag_bit, is_raised_in, begins_full, first_flag_word, first_flags};
ghost use Rattle.interleaving_core.specs.Events.{is_raised_among, claim_past_flags};

use crate::limits::FLAGS_PER_WORD;
use crate::parts::Claiming;
use market::Dict;
use std::alloc::{AllocError, Global};

/// How many words have a flag for each of so many programmes.
pub fn flag_word_count(programmes: u32) -> u32
    requires { programmes < 2 ^ 31 }
    ensures { result ≡ flag_word_count programmes }
{
    (programmes + (FLAGS_PER_WORD - 1)) / FLAGS_PER_WORD
}

/// Which of these words has the flag of a programme.
pub fn flag_group(programme: u32) -> u32
    ensures { result ≡ flag_group programme }
{
    programme / FLAGS_PER_WORD
}

/// The word in which the flag of this programme alone is raised.
pub fn flag_mask(programme: u32) -> u64
    ensures { result ≡ 2 ^ flag_bit programme }
{
    1 << (programme % FLAGS_PER_WORD)
}

/// Whether the flag of a programme is raised in the word that has it.
pub fn is_raised_in(word: u64, programme: u32) -> bool
    ensures { result ≡ is_raised_in word programme }
{
    (word >> (programme % FLAGS_PER_WORD)) & 1 == 1
}

// Whether a programme, of so many, is full before the first turn.
fn begins_full(dict: &Dict, programmes: u32, programme: u32) -> bool
    requires { programmes ≡ length dict.now.quota }
    ensures { result ≡ begins_full dict.now programme }
{
    programme < programmes && dict.quota(programme) <= dict.fill(programme)
}

/// The word that has the flags of a group of programmes, before the first turn: raised are those
/// of the programmes that are full.
pub fn first_flag_word(dict: &Dict, group: u32) -> u64
    requires { group < flag_word_count (length dict.now.quota) }
    ensures { result ≡ first_flag_word dict.now group }
{
    let programmes = dict.programmes();
    let mut word = 0;
    for bit in 0..FLAGS_PER_WORD {
        let programme = FLAGS_PER_WORD * group + bit;
        if begins_full(dict, programmes, programme) {
            word |= flag_mask(programme);
        }
    }
    word
}

// The words of flags before the first turn.
pub(crate) fn first_flags(alloc: Global, dict: &Dict) -> Result<Vec<u64>, AllocError>
    ensures { IfOk result (λ words. words.items ≡ first_flags dict.now) }
{
    let count = flag_word_count(dict.programmes());
    let mut words = Vec::with_capacity(alloc, count as usize)?;
    for group in 0..count {
        words.push_reserved(first_flag_word(dict, group));
    }
    Ok(words)
}

// Whether the flag of a programme stands in this word, which is that of a group, and is raised.
fn is_raised_among(group: u32, word: u64, programme: u32) -> bool
    ensures { result ≡ is_raised_among group word programme }
{
    flag_group(programme) == group && is_raised_in(word, programme)
}

/// The claim after a look at the flags of its next entries, in the word that has the flag of the
/// next one: entries whose flags are raised in it are passed.
pub fn past_flags(dict: &Dict, claim: Claiming, word: u64) -> Claiming
    requires valid { IsValidDictatorship dict.now }
    requires turn { claim.turn < length dict.now.lists }
    requires place { claim.passed < length (list_at dict.now claim.turn) }
    ensures { result ≡ claim_past_flags dict.now claim.turn claim.passed word }
{
    let list = dict.list(claim.turn);
    let places = list.len() as u32;
    let group = flag_group(list[claim.passed as usize]);
    for place in claim.passed..places {
        let programme = list[place as usize];
        if !is_raised_among(group, word, programme) {
            return Claiming {
                turn: claim.turn,
                passed: place,
                looked: flag_group(programme) == group,
                met: false,
            };
        }
    }
    Claiming {
        turn: claim.turn,
        passed: places,
        looked: false,
        met: false,
    }
}
