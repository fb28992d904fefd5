// A registrations file beside the candidates.

ghost use Rattle.std.specs.Prelude.{◌≡◌, ◌≤◌, length, map, is_some, replicate, None, IfOk};
ghost use Rattle.record_files.specs.ReadTo.{IsFileRead};
ghost use Rattle.second_placement.specs.Registrations.{registered_in, registrations_fault};

use place_base::limits::LARGEST_FILE;
use place_base::{CandidateNo, FaultKind, FileFault, FileKind, Finder};
use placement_file::{read_candidate, requests_form};
use record_files::{
    FileForm, Header, RecordRow, RowTable, TableStop, duplicate_at, fault_at, read_table,
};
use std::alloc::{AllocError, Global};

/// For each candidate whether a row of a registrations file of at most 2^30 bytes names it. `Fault`
/// exactly where the file has a first fault, and then it carries it: what a list of requests may
/// have, a candidate without a row in the candidates file, or one whom an earlier row names.
pub fn read_registrations<C: Finder>(
    alloc: Global,
    bytes: &[u8],
    candidates: &C,
) -> Result<Vec<bool>, TableStop>
    requires { length bytes.now ≤ LARGEST_FILE }
    ensures read { IsFileRead (registrations_fault (C.numbers candidates.now) bytes.now)
        (λ registered. registered.items ≡ registered_in (C.numbers candidates.now) bytes.now)
        result }

    // It has an entry for each candidate.
    ensures candidates { IfOk result (λ registered.
        length registered.items ≡ length (C.numbers candidates.now)) }
{
    let lines = no_lines(alloc, candidates.count())?;
    let read = read_table(alloc, bytes, candidates, Registrations { lines })?;
    Ok(have_rows(alloc, &read.lines)?)
}

// The line of a row, and the candidate that it names.
#[derive(Clone, Copy)]
struct Fields {
    line: u32,
    candidate: CandidateNo,
}

// For each candidate the line of the row that names it, or none so far.
#[derive(Drop)]
struct Registrations {
    lines: Vec<Option<u32>>,
}

impl<C: Finder> RowTable<C> for Registrations {
    ghost use Rattle.second_placement.specs.Growth.{HasLines, IsFieldsOf};
    ghost use Rattle.second_placement.specs.Registrations.{registrations_rules};

    type Fields = Fields;

    ghost rules = { λ candidates. registrations_rules (C.numbers candidates) };

    ghost says = { λ version. IsFieldsOf };

    ghost has_rows = { λ candidates version rows table.
        HasLines (C.numbers candidates) rows table.lines.items };

    fn form(_candidates: &C) -> FileForm {
        requests_form()
    }

    fn read_fields(
        _candidates: &C,
        _header: Header,
        row: &RecordRow<'_>,
    ) -> Result<Fields, FileFault> {
        let candidate = read_candidate(row)?;
        Ok(Fields {
            line: row.line(),
            candidate,
        })
    }

    fn take(
        &mut self,
        _alloc: Global,
        candidates: &C,
        fields: Fields,
    ) -> Result<Option<FileFault>, AllocError> {
        let (file, line) = (FileKind::Registrations, fields.line);
        let Some(index) = candidates.find(fields.candidate.get()) else {
            return Ok(Some(fault_at(file, line, 1, FaultKind::UnknownCandidate)));
        };
        if let Some(earlier) = self.lines[index as usize] {
            return Ok(Some(duplicate_at(file, line, 1, earlier)));
        }
        self.lines[index as usize] = Some(line);
        Ok(None)
    }
}

// So many candidates, whom no row names.
fn no_lines(alloc: Global, count: u32) -> Result<Vec<Option<u32>>, AllocError>
    ensures { IfOk result (λ lines. lines.items ≡ replicate count None) }
{
    vec![in alloc; None; count as usize]
}

// Which of them have a row.
fn have_rows(alloc: Global, lines: &[Option<u32>]) -> Result<Vec<bool>, AllocError>
    ensures { IfOk result (λ registered. registered.items ≡ map is_some lines.now) }
{
    lines.iter().map(|line| line.is_some()).collect(alloc)
}
