// The words of the desk.

ghost use Rattle.std.specs.Prelude.{◌≡◌, ◌≤◌, IfOk};
ghost use Rattle.registration_desk.specs.Words.{clerks_of, texts};

use crate::desk::MOST_CLERKS;
use record_files::number;

/// Why the words are refused. A place of a word is counted from 1.
#[derive(Clone, Copy, PartialEq, Eq, Debug)]
pub enum DeskWords {
    /// The first place at which a word is missing, or a wrong one or one too many stands.
    WordCount(u32),
    /// The word at this place is no number from 1 to 64.
    BadNumber(u32),
}

// The number of clerks where the words give none.
const CLERKS: u32 = 4;

/// The number of clerks that the words give: the names of two files, then nothing or `--clerks` and
/// a number from 1 to 64. Takes no memory.
pub fn read_words(words: &[String]) -> Result<u32, DeskWords>
    ensures clerks { result ≡ clerks_of (texts words.now) }
    ensures range { IfOk result (λ clerks. (1 ≤ clerks) × (clerks ≤ MOST_CLERKS)) }
{
    let count = words.len();
    if count < 2 {
        return Err(DeskWords::WordCount(count as u32 + 1));
    }
    if count > 2 && words[2].as_bytes() != b"--clerks".as_slice() {
        return Err(DeskWords::WordCount(3));
    }
    if count == 3 {
        return Err(DeskWords::WordCount(4));
    }
    if count > 4 {
        return Err(DeskWords::WordCount(5));
    }
    if count == 2 {
        return Ok(CLERKS);
    }
    match number(words[3].as_bytes(), 1, u64::from(MOST_CLERKS)) {
        Ok(clerks) => Ok(clerks as u32),
        Err(_) => Err(DeskWords::BadNumber(4)),
    }
}
