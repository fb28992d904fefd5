// The first row that repeats what an earlier row says.
ghost use Rattle.std.specs.Prelude.{◌≡◌, ◌≤◌, ◌<◌, ◌+◌, length, IfOk};
ghost use Rattle.record_files.specs.FirstFaults.{duplicate_at};
ghost use Rattle.record_files.specs.Rows.{data_rows};
ghost use Rattle.rank_lists.specs.Duplicates.{IsFirstDuplicate, duplicate_of, earlier_duplicate};
ghost use Rattle.rank_lists.specs.Rows.{row_at};

use crate::repeats::{Repeat, Repeats};
use place_base::limits::LARGEST_FILE;
use place_base::{FileFault, FileKind};
use record_files::{Records, duplicate_at};
use std::alloc::{AllocError, Global};

/// What a row repeats.
#[derive(Clone, Copy)]
pub(crate) enum Duplicate {
    /// The candidate in the type.
    Candidate(Repeat),
    /// The rank in the type.
    Rank(Repeat),
}

/// The first row that repeats an earlier one; in one row the candidate comes first.
pub(crate) fn first_duplicate(
    alloc: Global,
    candidates: Repeats,
    ranks: Repeats,
) -> Result<Option<Duplicate>, AllocError>
    requires { length candidates ≡ length ranks }
    ensures { IfOk result (IsFirstDuplicate candidates ranks) }
{
    let candidate = candidates.first_repeat(alloc)?;
    let rank = ranks.first_repeat(alloc)?;
    Ok(earlier_of(candidate, rank))
}

// The one in the earlier row; in one row the candidate comes first.
fn earlier_of(candidate: Option<Repeat>, rank: Option<Repeat>) -> Option<Duplicate>
    ensures { result ≡ earlier_duplicate candidate rank }
{
    match (candidate, rank) {
        (None, None) => None,
        (None, Some(rank)) => Some(Duplicate::Rank(rank)),
        (Some(candidate), None) => Some(Duplicate::Candidate(candidate)),
        (Some(candidate), Some(rank)) => {
            if rank.later < candidate.later {
                Some(Duplicate::Rank(rank))
            } else {
                Some(Duplicate::Candidate(candidate))
            }
        }
    }
}

impl Duplicate {
    /// The fault of the row.
    pub(crate) fn fault(self, bytes: &[u8]) -> FileFault
        requires size { length bytes.now ≤ LARGEST_FILE }
        requires earlier { (duplicate_of self).0.earlier < length (data_rows bytes.now) }
        requires later { (duplicate_of self).0.later < length (data_rows bytes.now) }
        ensures { let rows = data_rows bytes.now in let found = duplicate_of self in
            result ≡ duplicate_at FileKind.Ranks (row_at rows found.0.later).0 found.1
            (row_at rows found.0.earlier).0 }
    {
        let (repeat, field) = match self {
            Duplicate::Candidate(repeat) => (repeat, 2),
            Duplicate::Rank(repeat) => (repeat, 3),
        };
        let line = line_at(bytes, repeat.later);
        let earlier = line_at(bytes, repeat.earlier);
        duplicate_at(FileKind::Ranks, line, field, earlier)
    }
}

// The line of the data row at an index.
fn line_at(bytes: &[u8], index: u32) -> u32
    requires size { length bytes.now ≤ LARGEST_FILE }
    requires within { index < length (data_rows bytes.now) }
    ensures { result ≡ (row_at (data_rows bytes.now) index).0 }
{
    let mut records = Records::of_bytes(bytes);
    let _header = records.next();
    for _ in 0..index {
        let _row = records.next();
    }
    match records.next() {
        Some(row) => row.line(),
        None => unreachable!(),
    }
}
