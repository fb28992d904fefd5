// What the rows of a ranks file say, gathered row by row.
//
// Rows are gathered by themselves: which of them repeats an earlier one is found afterwards, by
// sorting what they say.

ghost use Rattle.std.specs.Prelude.{◌≡◌, ◌+◌, ◌*◌, ◌≤◌, ◌<◌, ℕ, List, [], ◌∷◌, ◌++◌, length, IfOk, OnOk};
ghost use Rattle.record_files.specs.Rows.{Row};
ghost use Rattle.rank_lists.specs.Growth.{HasRows, IsFieldsOf};
ghost use Rattle.rank_lists.specs.Rows.{ranks_form as the_form};

use crate::fields::read_fields;
use crate::keys::{GROUPS, NUMBERS, PLACES, RANKS};
use crate::name_numbers::name_number;
use crate::repeats::Repeats;
use crate::row::Fields;
use crate::turns::{GivenRanks, give, no_ranks};
use place_base::limits::MOST_RANKS;
use place_base::{FileFault, FileKind, TypeFinder};
use record_files::{FileForm, Header, RecordRow, RowTable};
use std::alloc::{AllocError, Global};

/// What rows of a ranks file say.
#[derive(Drop)]
pub struct RankRows {
    // For each row its candidate and its type, as one number.
    pub(crate) candidates: Repeats,
    // For each row its rank and its type, as one number.
    pub(crate) ranks: Repeats,
    // For each known type its ranks, each with the number of the candidate.
    pub(crate) given: Vec<GivenRanks>,
}

impl RankRows {
    /// No rows, beside so many types.
    pub(crate) fn new(alloc: Global, types: u32) -> Result<RankRows, AllocError>
        ensures { IfOk result (λ rows. (names : List (List ℕ))
            → length names ≡ types → HasRows names [] rows) }
    {
        Ok(RankRows {
            candidates: Repeats::new(alloc),
            ranks: Repeats::new(alloc),
            given: no_ranks(alloc, types)?,
        })
    }

    // Adds a row.
    fn add<T: TypeFinder>(&mut self, fields: &Fields, types: &T) -> Result<(), AllocError>
        requires few_candidates { length self.old.candidates < PLACES }
        requires few_ranks { length self.old.ranks < PLACES }
        ensures { OnOk result ((earlier : List Row) (row : Row)
            → HasRows (T.names types.now) earlier self.old
            → IsFieldsOf row fields.now
            → HasRows (T.names types.now) (earlier ++ row ∷ []) self.new) }
    {
        let name = name_number(fields.name.bytes());
        let candidate = fields.candidate.get();
        self.candidates.push(candidate_in_type(name, candidate))?;
        self.ranks.push(rank_in_type(name, fields.rank))?;
        let key = u64::from(fields.rank) * NUMBERS + candidate;
        give(&mut self.given, types.find_type(fields.name), key)?;
        Ok(())
    }
}

impl<T: TypeFinder> RowTable<T> for RankRows {
    ghost use Rattle.rank_lists.specs.Growth.{HasRows, IsFieldsOf};
    ghost use Rattle.rank_lists.specs.Rows.{own_rules};

    type Fields = Fields;

    ghost rules = { λ _. own_rules };

    ghost says = { λ version. IsFieldsOf };

    ghost has_rows = { λ types version rows table. HasRows (T.names types) rows table };

    fn form(_types: &T) -> FileForm {
        ranks_form()
    }

    fn read_fields(_types: &T, _header: Header, row: &RecordRow<'_>) -> Result<Fields, FileFault> {
        read_fields(row)
    }

    fn take(
        &mut self,
        _alloc: Global,
        types: &T,
        fields: Fields,
    ) -> Result<Option<FileFault>, AllocError> {
        self.add(&fields, types)?;
        Ok(None)
    }
}

/// The form of a ranks file.
pub(crate) fn ranks_form() -> FileForm
    ensures { result ≡ the_form }
{
    FileForm::new(FileKind::Ranks, &[b"candidate,type,rank"], MOST_RANKS)
}

// A candidate and a type as one number.
fn candidate_in_type(name: u64, candidate: u64) -> u128
    ensures value { result ≡ name * NUMBERS + candidate }
    ensures small { result < GROUPS }
{
    u128::from(name) * u128::from(NUMBERS) + u128::from(candidate)
}

// A rank and a type as one number.
fn rank_in_type(name: u64, rank: u32) -> u128
    ensures value { result ≡ name * RANKS + rank }
    ensures small { result < GROUPS }
{
    u128::from(name) * u128::from(RANKS) + u128::from(rank)
}
