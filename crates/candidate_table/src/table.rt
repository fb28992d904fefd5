// The table, its reading and its look-ups.
ghost use Rattle.std.specs.Prelude.{◌≡◌, ◌≤◌, ◌<◌, [], All, length, slice_get, Some, None, IfOk, OnOk, MatchResult};
ghost use Rattle.record_files.specs.Keys.{line_of};
ghost use Rattle.record_files.specs.ReadTo.{IsTableRead};
ghost use Rattle.candidate_table.specs.Rows.{candidates_fault};
ghost use Rattle.candidate_table.specs.Growth.{with_candidate};
ghost use Rattle.candidate_table.specs.Table.{IsPreferenceList, candidates_table, table_of};

use crate::fields::read_fields;
use crate::lists::find_list;
use crate::numbers::CandidateNumbers;
use crate::row::{Candidate, Fields};
use market::List;
use piece_reader::{TakesAhead, read_table};
use place_base::limits::{LARGEST_FILE, MOST_CANDIDATES, MOST_PIECES};
use place_base::{CandidateNo, FileFault, FileKind, Finder};
use record_files::{FileForm, Header, RecordRow, RowTable, TableStop, duplicate_at};
use std::alloc::{AllocError, Global};
use std::marker::Model;
use std::thread::Threads;

/// The candidates of a file in file order, with their preference lists as indexes of programmes.
pub struct CandidateTable {
    numbers: CandidateNumbers,
    lists: Vec<List>,
}

// By hand, so that letting one go is one call in the proof of whoever holds it.
impl Drop for CandidateTable {
    fn drop(self) {
        let Self {
            numbers: _numbers,
            lists: _lists,
        } = self;
    }
}

impl Model for CandidateTable {
    ghost use Rattle.candidate_table.specs.Table.{Candidates, IsTable};

    ghost Value = { Candidates };

    ghost view = { λ t. record { numbers = t.numbers; lists = t.lists.items } };

    ghost invariant = { λ t. IsTable (record { numbers = t.numbers; lists = t.lists.items }) };
}

impl CandidateTable {
    /// The table of a file of at most 2^30 bytes beside the programmes' codes; `Fault` exactly
    /// where the file has a first fault, and then it carries it.
    ///
    /// `pieces` is the number of parts, 1 to 64, in which the file is read side by side. The result
    /// does not depend on it. After a refusal there is no table.
    pub fn read<R: Threads + Sync, P: Finder + Sync>(
        rt: &R,
        alloc: Global,
        bytes: &[u8],
        pieces: u32,
        programmes: &P,
    ) -> Result<CandidateTable, TableStop>
        requires size { length bytes.now ≤ LARGEST_FILE }
        requires pieces { (1 ≤ pieces) × (pieces ≤ MOST_PIECES) }
        ensures read { IsTableRead (candidates_fault (P.numbers programmes.now) bytes.now)
            (candidates_table (P.numbers programmes.now) bytes.now) result }

        // The lists meet what a market asks of them.
        ensures lists { IfOk result (λ table.
            All (IsPreferenceList (length (P.numbers programmes.now))) table.lists) }
    {
        let empty = CandidateTable::new(alloc);
        read_table::<R, P, Candidate, CandidateTable>(rt, alloc, bytes, pieces, programmes, empty)
    }

    /// The preference list of the candidate at an index, as indexes of programmes, best first.
    pub fn list(&self, index: u32) -> &[u32]
        requires { index < length self.now.lists }
        ensures { slice_get self.now.lists index ≡ Some result.now }
    {
        self.lists[index as usize].items()
    }

    /// The numbers of the candidates and their lists, which are not copied.
    pub fn into_parts(self) -> (CandidateNumbers, Vec<List>)
        ensures numbers { result.0 ≡ self.numbers }
        ensures lists { result.1.items ≡ self.lists }
        ensures paired { length self.lists ≡ length self.numbers }
        ensures few { length self.lists ≤ MOST_CANDIDATES }
    {
        let Self { numbers, lists } = self;
        (numbers, lists)
    }

    // A table of no candidates.
    fn new(alloc: Global) -> CandidateTable
        ensures { result ≡ table_of [] [] }
    {
        CandidateTable {
            numbers: CandidateNumbers::new(alloc),
            lists: Vec::new(alloc),
        }
    }

    // Adds a candidate with a new number, who has this list.
    fn add(&mut self, number: CandidateNo, line: u32, list: List) -> Result<(), AllocError>
        requires few { length self.old.lists < MOST_CANDIDATES }
        requires new { line_of self.old.numbers number ≡ None }
        ensures { OnOk result (self.new ≡ with_candidate self.old number line list) }
    {
        self.lists.reserve(1)?;
        self.numbers.add(number, line)?;
        self.lists.push(list).unwrap();
        Ok(())
    }
}

impl<P: Finder> RowTable<P> for CandidateTable {
    ghost use Rattle.candidate_table.specs.Growth.{HasRows, IsFieldsOf};
    ghost use Rattle.candidate_table.specs.Rows.{candidates_rules};

    type Fields = Fields;

    ghost rules = { λ programmes. candidates_rules (P.numbers programmes) };

    ghost says = { λ version. IsFieldsOf };

    ghost has_rows = { λ programmes version rows table.
        HasRows (P.numbers programmes) rows table };

    fn form(_programmes: &P) -> FileForm {
        FileForm::new(FileKind::Candidates, &[b"candidate,list"], MOST_CANDIDATES)
    }

    fn read_fields(
        _programmes: &P,
        _header: Header,
        row: &RecordRow<'_>,
    ) -> Result<Fields, FileFault> {
        read_fields(row)
    }

    fn take(
        &mut self,
        alloc: Global,
        programmes: &P,
        fields: Fields,
    ) -> Result<Option<FileFault>, AllocError> {
        let candidate = CandidateTable::keep(alloc, programmes, fields)?;
        self.take_ahead(alloc, programmes, candidate)
    }
}

impl<P: Finder> TakesAhead<P, Candidate> for CandidateTable {
    ghost use Rattle.candidate_table.specs.Growth.{IsCandidateOf};

    ghost keeps = { λ programmes version row candidate.
        IsCandidateOf (P.numbers programmes) row candidate };

    fn most_rows(_programmes: &P) -> u32 {
        MOST_CANDIDATES
    }

    fn keep(alloc: Global, programmes: &P, fields: Fields) -> Result<Candidate, AllocError> {
        Ok(Candidate {
            line: fields.line,
            number: fields.number,
            list: find_list(alloc, fields.line, programmes, fields.codes.as_slice())?,
        })
    }

    fn take_ahead(
        &mut self,
        _alloc: Global,
        _programmes: &P,
        row: Candidate,
    ) -> Result<Option<FileFault>, AllocError> {
        let Candidate { line, number, list } = row;
        if let Some(earlier) = self.numbers.line_of(number) {
            let fault = duplicate_at(FileKind::Candidates, line, 1, earlier);
            return Ok(Some(fault));
        }
        match list {
            Ok(list) => {
                self.add(number, line, list)?;
                Ok(None)
            }
            Err(fault) => Ok(Some(fault)),
        }
    }
}

impl Finder for CandidateTable {
    ghost use Rattle.candidate_table.specs.Table.{numbers_of};

    ghost numbers = { λ table. numbers_of table.numbers };

    fn count(&self) -> u32 {
        self.numbers.count()
    }

    fn number_at(&self, index: u32) -> u64 {
        self.numbers.number_at(index)
    }

    fn find(&self, number: u64) -> Option<u32> {
        self.numbers.find(number)
    }
}
