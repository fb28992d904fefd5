// The table of commands, and the reading of a list of words against it.

ghost use Rattle.std.specs.Prelude.{◌≡◌, ◌+◌, ◌≤◌, [], slice_index_or, option_copied, IfOk};
ghost use Rattle.std.specs.Option.{option_map};
ghost use Rattle.command_words.specs.Forms.{asked as command_asked, bytes_in, grammar_line};
ghost use Rattle.command_words.specs.Words.{command_of, form_of, number_at, of_numbers, of_quotas, option_of, texts, word_behind, workers_of};
ghost use Rattle.record_files.specs.Numbers.{number_of};

use place_base::limits::{
    LARGEST_CODE, LARGEST_QUOTA, MOST_CANDIDATES, MOST_PROGRAMMES, MOST_RANKS, MOST_TYPES,
};
use record_files::number;

/// The number of workers where the words give none.
pub const WORKERS: u32 = 4;

/// The most workers that the words may ask for.
pub const MAX_WORKERS: u32 = 64;

/// The most quotas that a sweep may ask for.
pub const MAX_QUOTAS: u32 = 1_000;

/// What the words of a command line ask for.
///
/// File names are no part of it: they stand at fixed places of the words.
#[derive(Clone, Copy, Debug, PartialEq, Eq)]
pub enum Command {
    /// The placement of three files, by this number of workers, 1 to 64. It also bounds the
    /// parts in which each file may be read; the outcome does not depend on it.
    Place(u32),
    /// The base ranks of the same placement, by this number of workers.
    Base(u32),
    /// The reason of every list entry in the same placement, by this number of workers.
    Reasons(u32),
    /// The audit of the placement in a fourth file. This number bounds the parts in which the three
    /// files are read, and the threads that make their market.
    Audit(u32),
    /// What all stable placements share, by this number of workers.
    Fixed(u32),
    /// What each quota of one programme gives, from one quota to another.
    Sweep {
        /// The programme's code, 1 to 999,999,999.
        code: u32,
        /// The least quota, at most 100,000.
        low: u32,
        /// The largest quota, from the least one to the lesser of 100,000 and 999 more than the
        /// least one.
        high: u32,
        /// The number of workers, 1 to 64.
        workers: u32,
    },
    /// The second placement, of the seats that the registered candidates of a fifth file leave, by
    /// this number of workers. What was placed first is in the fourth file, and is audited before.
    Second(u32),
    /// The summary of a market that is made from numbers, and of its placement.
    Make {
        /// The seed of the words that are drawn.
        seed: u64,
        /// How many candidates the market has, at most 3,500,000.
        candidates: u32,
        /// How many programmes, at most 60,000.
        programmes: u32,
        /// How many score types, 1 to 16; with the candidates they give at most 20,000,000 ranks.
        types: u32,
        /// The number of workers, 1 to 64.
        workers: u32,
    },
}

/// Why a list of words is no command. A place of a word is counted from 1.
#[derive(Clone, Copy, Debug, PartialEq, Eq)]
pub enum WordsFault {
    /// There is no word.
    NoCommand,
    /// The word at this place, the first, is no command.
    UnknownCommand(u32),
    /// The first place at which a word is missing, or one too many stands.
    WordCount(u32),
    /// The word at this place is no number of its range.
    BadNumber(u32),
}

// A line of the grammar: the command's word, how many words follow it, and what it does.
#[derive(Clone, Copy)]
struct Form {
    word: &'static [u8],
    further: u32,
    kind: Kind,
}

// What a command does.
#[derive(Clone, Copy)]
enum Kind {
    Place,
    Base,
    Reasons,
    Audit,
    Fixed,
    Sweep,
    Second,
    Make,
}

const FORMS: [Form; 8] = [
    Form {
        word: b"place",
        further: 3,
        kind: Kind::Place,
    },
    Form {
        word: b"base",
        further: 3,
        kind: Kind::Base,
    },
    Form {
        word: b"reasons",
        further: 3,
        kind: Kind::Reasons,
    },
    Form {
        word: b"audit",
        further: 4,
        kind: Kind::Audit,
    },
    Form {
        word: b"fixed",
        further: 3,
        kind: Kind::Fixed,
    },
    Form {
        word: b"sweep",
        further: 6,
        kind: Kind::Sweep,
    },
    Form {
        word: b"second",
        further: 5,
        kind: Kind::Second,
    },
    Form {
        word: b"make",
        further: 4,
        kind: Kind::Make,
    },
];

/// The command that these words give, or the first refusal by the order of the grammar's rules.
///
/// Any word is a name where a name stands. Takes no memory.
pub fn read_words(words: &[String]) -> Result<Command, WordsFault>
    ensures { result ≡ command_of (texts words.now) }
{
    let Some((first, further)) = words.split_first() else {
        return Err(WordsFault::NoCommand);
    };
    let Some(form) = find_form(first.as_bytes()) else {
        return Err(WordsFault::UnknownCommand(1));
    };
    let wanted = form.further as usize;
    if further.len() < wanted {
        return Err(WordsFault::WordCount(words.len() as u32 + 1));
    }
    match read_option(&further[wanted..], form.further + 2) {
        Ok(option) => {
            let workers = read_workers(option, form.further + 3);
            asked(form.kind, further, workers)
        }
        Err(refused) => Err(refused),
    }
}

// The line of the grammar with this word.
fn find_form(word: &[u8]) -> Option<Form>
    ensures { option_map grammar_line result ≡ form_of word.now }
{
    FORMS.iter().copied().find(|form| form.word == word)
}

// The word of the option, if the words behind a command's own are the option and a word; the first
// stands at this place. None where there are none.
fn read_option(words: &[String], place: u32) -> Result<Option<&[u8]>, WordsFault>
    requires { place ≤ 1000 }
    ensures { bytes_in result ≡ option_of (texts words.now) place }
{
    let Some((option, behind)) = words.split_first() else {
        return Ok(None);
    };
    if option.as_str() != "--workers" {
        return Err(WordsFault::WordCount(place));
    }
    read_behind(behind, place + 1)
}

// The one word that stands behind the option's; it stands at this place.
fn read_behind(words: &[String], place: u32) -> Result<Option<&[u8]>, WordsFault>
    requires { place ≤ 1001 }
    ensures { bytes_in result ≡ word_behind (texts words.now) place }
{
    let Some((word, behind)) = words.split_first() else {
        return Err(WordsFault::WordCount(place));
    };
    if !behind.is_empty() {
        return Err(WordsFault::WordCount(place + 1));
    }
    Ok(Some(word.as_bytes()))
}

// The number of workers that the option's word gives, which stands at this place.
fn read_workers(option: Option<&[u8]>, place: u32) -> Result<u32, WordsFault>
    ensures { result ≡ workers_of (option_copied option.entry) place }
{
    let Some(word) = option else {
        return Ok(WORKERS);
    };
    let workers = read_number(word, place, 1, u64::from(MAX_WORKERS))?;
    Ok(workers as u32)
}

// The number of a range that the word at a place gives.
fn read_number(word: &[u8], place: u32, low: u64, high: u64) -> Result<u64, WordsFault>
    ensures number { result ≡ number_at (number_of word.now low high) place }
    ensures range { IfOk result (λ n. (low ≤ n) × (n ≤ high)) }
{
    match number(word, low, high) {
        Ok(value) => Ok(value),
        Err(_) => Err(WordsFault::BadNumber(place)),
    }
}

// What a command asks for. Where its words are names only the number of workers can be bad.
fn asked(
    kind: Kind,
    further: &[String],
    workers: Result<u32, WordsFault>,
) -> Result<Command, WordsFault>
    ensures { result ≡ command_asked kind (texts further.now) workers }
{
    match kind {
        Kind::Place => Ok(Command::Place(workers?)),
        Kind::Base => Ok(Command::Base(workers?)),
        Kind::Reasons => Ok(Command::Reasons(workers?)),
        Kind::Audit => Ok(Command::Audit(workers?)),
        Kind::Fixed => Ok(Command::Fixed(workers?)),
        Kind::Sweep => read_quotas(further, workers),
        Kind::Second => Ok(Command::Second(workers?)),
        Kind::Make => read_sizes(further, workers),
    }
}

// The programme and the quotas that the words behind three names ask for, of which the first stands
// at place 5, or the first number that is bad. That of the workers is behind them.
fn read_quotas(words: &[String], workers: Result<u32, WordsFault>) -> Result<Command, WordsFault>
    ensures { result ≡ of_quotas (texts words.now) workers }
{
    let code = read_number(word_at(words, 3), 5, 1, LARGEST_CODE)? as u32;
    let low = read_number(word_at(words, 4), 6, 0, LARGEST_QUOTA)?;
    let most = LARGEST_QUOTA.min(low + u64::from(MAX_QUOTAS - 1));
    let high = read_number(word_at(words, 5), 7, low, most)?;
    Ok(Command::Sweep {
        code,
        low: low as u32,
        high: high as u32,
        workers: workers?,
    })
}

// The market that four words ask for, of which the first stands at place 2, or the first number
// that is bad. That of the workers is behind them.
fn read_sizes(words: &[String], workers: Result<u32, WordsFault>) -> Result<Command, WordsFault>
    ensures { result ≡ of_numbers (texts words.now) workers }
{
    let seed = read_number(word_at(words, 0), 2, 0, u64::MAX)?;
    let candidates = read_number(word_at(words, 1), 3, 0, u64::from(MOST_CANDIDATES))? as u32;
    let programmes = read_number(word_at(words, 2), 4, 0, u64::from(MOST_PROGRAMMES))? as u32;
    let types = read_number(word_at(words, 3), 5, 1, MOST_TYPES as u64)? as u32;
    if u64::from(candidates) * u64::from(types) > u64::from(MOST_RANKS) {
        return Err(WordsFault::BadNumber(5));
    }
    Ok(Command::Make {
        seed,
        candidates,
        programmes,
        types,
        workers: workers?,
    })
}

// The bytes of the word at an index, none behind the last word.
fn word_at(words: &[String], index: usize) -> &[u8]
    ensures { result.now ≡ slice_index_or (texts words.now) index [] }
{
    match words.get(index) {
        Some(word) => word.as_bytes(),
        None => b"",
    }
}
