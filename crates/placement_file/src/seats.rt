// A placement file that is read without other files.

ghost use Rattle.std.specs.Prelude.{◌≡◌, ◌≤◌, ◌<◌, length, None, Some, MatchResult};
ghost use Rattle.record_files.specs.ReadTo.{IsTableRead};
ghost use Rattle.record_files.specs.Rows.{fields_of};
ghost use Rattle.placement_file.specs.Growth.{IsFieldsOf};
ghost use Rattle.placement_file.specs.SeatLists.{code_held, fits_programme, reading_alone, seats_fault, seats_in};

use crate::fields::read_fields;
use crate::row::Fields;
use indexmap::IndexMap;
use place_base::limits::{LARGEST_FILE, MOST_CANDIDATES};
use place_base::{FaultKind, FileFault, FileKind, Finder, ProgrammeCode};
use record_files::{
    FileForm, Header, RecordRow, RowTable, TableStop, duplicate_at, fault_at, read_table,
};
use std::alloc::{AllocError, Global};
use std::marker::Model;

/// The candidates of a placement file in file order, each with the code of the programme held, or
/// none.
#[derive(Drop)]
pub struct SeatList {
    held: IndexMap<u64, Option<ProgrammeCode>>,
}

impl Model for SeatList {
    ghost use Rattle.std.specs.Prelude.{length, ◌≤◌};
    ghost use Rattle.place_base.specs.declared.limits.TheConstants.{MOST_CANDIDATES};
    ghost use Rattle.placement_file.specs.SeatLists.{SeatRows};

    ghost Value = { SeatRows };

    ghost view = { λ seats. seats.held.entries };

    ghost invariant = { λ seats. length seats.held.entries ≤ MOST_CANDIDATES };
}

impl SeatList {
    /// The code of the programme that the candidate at an index holds, or `None` where it holds
    /// none.
    pub fn code_at(&self, index: u32) -> Option<ProgrammeCode>
        requires { index < length self.now }
        ensures { result ≡ code_held self.now index }
    {
        let (_, code) = self.held.get_index(index as usize).unwrap();
        *code
    }
}

impl Finder for SeatList {
    ghost use Rattle.placement_file.specs.SeatLists.{candidates_of};

    ghost numbers = { candidates_of };

    fn count(&self) -> u32 {
        self.held.len() as u32
    }

    fn number_at(&self, index: u32) -> u64 {
        let (number, _) = self.held.get_index(index as usize).unwrap();
        *number
    }

    fn find(&self, number: u64) -> Option<u32> {
        let index = self.held.get_index_of(&number)?;
        Some(index as u32)
    }
}

/// The candidates of a placement file of at most 2^30 bytes, with or without the seats' kinds, read
/// beside no other file; `Fault` exactly where the file has a first fault, and then it carries it.
/// No candidate and no code is unknown here.
pub fn read_alone(alloc: Global, bytes: &[u8]) -> Result<SeatList, TableStop>
    requires { length bytes.now ≤ LARGEST_FILE }
    ensures { IsTableRead (seats_fault bytes.now) (seats_in bytes.now) result }
{
    let none_yet = ReadSeats {
        held: IndexMap::new(alloc),
        lines: Vec::new(alloc),
    };
    let read = read_table(alloc, bytes, &(), none_yet)?;
    Ok(SeatList { held: read.held })
}

// What was read so far, and the line of each candidate.
#[derive(Drop)]
struct ReadSeats {
    held: IndexMap<u64, Option<ProgrammeCode>>,
    lines: Vec<u32>,
}

impl RowTable<()> for ReadSeats {
    ghost use Rattle.placement_file.specs.Growth.{IsFieldsOf};
    ghost use Rattle.placement_file.specs.SeatLists.{HasSeats, seats_rules};

    type Fields = Fields;

    ghost rules = { λ _. seats_rules };

    ghost says = { λ version. IsFieldsOf };

    ghost has_rows = { λ _ version rows table. HasSeats rows table.held.entries table.lines.items };

    fn form(_beside: &()) -> FileForm {
        FileForm::new(
            FileKind::Placement,
            &[b"candidate,programme", b"candidate,programme,seat"],
            MOST_CANDIDATES,
        )
    }

    fn read_fields(_beside: &(), header: Header, row: &RecordRow<'_>) -> Result<Fields, FileFault> {
        if header.version == 0 {
            read_fields(row)
        } else {
            read_seated(row)
        }
    }

    fn take(
        &mut self,
        _alloc: Global,
        _beside: &(),
        fields: Fields,
    ) -> Result<Option<FileFault>, AllocError> {
        let number = fields.number.get();
        if let Some(index) = self.held.get_index_of(&number) {
            let earlier = self.lines[index];
            let fault = duplicate_at(FileKind::Placement, fields.line, 1, earlier);
            return Ok(Some(fault));
        }
        self.lines.push(fields.line)?;
        self.held.insert(number, fields.code)?;
        Ok(None)
    }
}

// The fields of a row with a seat, or the first that is wrong by itself.
fn read_seated(row: &RecordRow<'_>) -> Result<Fields, FileFault>
    requires { length (fields_of row.now) ≡ 3 }
    ensures { MatchResult result
        (λ fields. (reading_alone 1 row.now ≡ None) × IsFieldsOf row.now fields)
        (λ fault. reading_alone 1 row.now ≡ Some fault) }
{
    let fields = read_fields(row)?;
    if !fits(row.field(2), row.field(1)) {
        let fault = fault_at(FileKind::Placement, row.line(), 3, FaultKind::BadSeat);
        return Err(fault);
    }
    Ok(fields)
}

// Whether a seat fits the programme beside it.
fn fits(seat: &[u8], programme: &[u8]) -> bool
    ensures { result ≡ fits_programme seat.now programme.now }
{
    if programme == b"-".as_slice() {
        return seat == b"-".as_slice();
    }
    seat == b"G".as_slice() || seat == b"R".as_slice()
}
