// The ranks of known candidates in known types, gathered from the rows of a part of the file.
ghost use Rattle.std.specs.Prelude.{◌≡◌, nat_eq, position};

use crate::fields::read_fields;
use crate::keys::INDEXES;
use crate::known::Known;
use crate::row::Fields;
use crate::rows::ranks_form;
use crate::turns::{GivenRanks, give, no_ranks};
use piece_reader::PartTable;
use place_base::limits::MOST_RANKS;
use place_base::{CandidateNo, FileFault, Finder, TypeFinder};
use record_files::{FileForm, Header, RecordRow, RowTable};
use std::alloc::{AllocError, Global};

/// The ranks that rows give to known candidates in known types.
#[derive(Drop)]
pub(crate) struct PartRanks {
    // For each type its ranks.
    pub(crate) given: Vec<GivenRanks>,
    // Whether a row was of an unknown type or an unknown candidate.
    pub(crate) unknown: bool,
    // The candidate that was looked for last: mostly the next row is of the same.
    number: u64,
    index: Option<u32>,
}

impl PartRanks {
    // The index of a candidate, where it is known.
    fn index_of<C: Finder>(&mut self, candidate: CandidateNo, candidates: &C) -> Option<u32>
        requires { self.old.index ≡ position (nat_eq self.old.number) (C.numbers candidates.now) }
        ensures result { result ≡ position (nat_eq candidate) (C.numbers candidates.now) }
        ensures last { self.new.index
            ≡ position (nat_eq self.new.number) (C.numbers candidates.now) }
        ensures given { self.new.given ≡ self.old.given }
        ensures unknown { self.new.unknown ≡ self.old.unknown }
    {
        if candidate.get() != self.number {
            self.number = candidate.get();
            self.index = candidates.find(self.number);
        }
        self.index
    }
}

impl<'a, T: TypeFinder, C: Finder> RowTable<Known<'a, T, C>> for PartRanks {
    ghost use Rattle.rank_lists.specs.Clean.{HasStandings};
    ghost use Rattle.rank_lists.specs.Growth.{IsFieldsOf};
    ghost use Rattle.rank_lists.specs.Rows.{own_rules};

    type Fields = Fields;

    ghost rules = { λ _. own_rules };

    ghost says = { λ version. IsFieldsOf };

    ghost has_rows = { λ known version rows table.
        HasStandings (T.names known.types.now) (C.numbers known.candidates.now) rows table };

    fn form(_known: &Known<'a, T, C>) -> FileForm {
        ranks_form()
    }

    fn read_fields(
        _known: &Known<'a, T, C>,
        _header: Header,
        row: &RecordRow<'_>,
    ) -> Result<Fields, FileFault> {
        read_fields(row)
    }

    fn take(
        &mut self,
        _alloc: Global,
        known: &Known<'a, T, C>,
        fields: Fields,
    ) -> Result<Option<FileFault>, AllocError> {
        let Some(kind) = known.kind_of(fields.name) else {
            self.unknown = true;
            return Ok(None);
        };
        let Some(index) = self.index_of(fields.candidate, known.candidates) else {
            self.unknown = true;
            return Ok(None);
        };
        let key = u64::from(fields.rank) * INDEXES + u64::from(index);
        give(&mut self.given, Some(kind), key)?;
        Ok(None)
    }
}

impl<'a, T: TypeFinder, C: Finder> PartTable<Known<'a, T, C>> for PartRanks {
    fn empty(alloc: Global, known: &Known<'a, T, C>) -> Result<PartRanks, AllocError> {
        Ok(PartRanks {
            given: no_ranks(alloc, known.types.type_count())?,
            unknown: false,
            number: 0,
            index: known.candidates.find(0),
        })
    }

    fn most_rows(_known: &Known<'a, T, C>) -> u32 {
        MOST_RANKS
    }
}
