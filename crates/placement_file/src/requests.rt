// The requests of a registrations file.

ghost use Rattle.std.specs.Prelude.{◌≡◌, ◌≤◌, length, None, Some, IfOk, MatchResult};
ghost use Rattle.record_files.specs.ReadTo.{IsFileRead};
ghost use Rattle.record_files.specs.Rows.{fields_of};
ghost use Rattle.placement_file.specs.Requests.{candidate_in, requests_fault, requests_form, requests_in, requests_reading};

use place_base::limits::{LARGEST_FILE, LARGEST_NUMBER, MOST_REQUESTS};
use place_base::{CandidateNo, FileFault, FileKind};
use record_files::{
    FileForm, Header, RecordRow, RowTable, TableStop, in_field, number, read_table,
};
use std::alloc::{AllocError, Global};

/// The candidates that the rows of a registrations file of at most 2^30 bytes name, row by row: a
/// candidate may stand there more than once, and need not be known. `Fault` exactly where the file
/// has a first fault, and then it carries it.
pub fn read_requests(alloc: Global, bytes: &[u8]) -> Result<Vec<CandidateNo>, TableStop>
    requires { length bytes.now ≤ LARGEST_FILE }
    ensures read { IsFileRead (requests_fault bytes.now)
        (λ requests. requests.items ≡ requests_in bytes.now) result }
    ensures few { IfOk result (λ requests. length requests.items ≤ MOST_REQUESTS) }
{
    let none_yet = Requests {
        candidates: Vec::new(alloc),
    };
    let read = read_table(alloc, bytes, &(), none_yet)?;
    Ok(read.candidates)
}

/// The form of a registrations file: its header, and how many data rows it may have.
pub fn requests_form() -> FileForm
    ensures { result ≡ requests_form }
{
    FileForm::new(FileKind::Registrations, &[b"candidate"], MOST_REQUESTS)
}

/// The candidate that a row of a registrations file names, or what is wrong with the row's field by
/// itself.
pub fn read_candidate(row: &RecordRow<'_>) -> Result<CandidateNo, FileFault>
    requires { 1 ≤ length (fields_of row.now) }
    ensures { MatchResult result
        (λ candidate. (requests_reading row.now ≡ None) × (candidate ≡ candidate_in row.now))
        (λ fault. requests_reading row.now ≡ Some fault) }
{
    let file = FileKind::Registrations;
    let number = in_field(file, row, 1, number(row.field(0), 1, LARGEST_NUMBER))?;
    Ok(CandidateNo::new(number).unwrap())
}

// The candidates named so far.
#[derive(Drop)]
struct Requests {
    candidates: Vec<CandidateNo>,
}

impl RowTable<()> for Requests {
    ghost use Rattle.std.specs.Prelude.{◌≡◌};
    ghost use Rattle.placement_file.specs.Requests.{HasRequests, candidate_in, requests_rules};

    type Fields = CandidateNo;

    ghost rules = { λ _. requests_rules };

    ghost says = { λ version row candidate. candidate ≡ candidate_in row };

    ghost has_rows = { λ _ version rows table. HasRequests rows table.candidates.items };

    fn form(_beside: &()) -> FileForm {
        requests_form()
    }

    fn read_fields(
        _beside: &(),
        _header: Header,
        row: &RecordRow<'_>,
    ) -> Result<CandidateNo, FileFault> {
        read_candidate(row)
    }

    fn take(
        &mut self,
        _alloc: Global,
        _beside: &(),
        candidate: CandidateNo,
    ) -> Result<Option<FileFault>, AllocError> {
        self.candidates.push(candidate)?;
        Ok(None)
    }
}
