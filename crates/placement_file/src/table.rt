// The rows of a placement file, candidate by candidate.

ghost use Rattle.std.specs.Prelude.{◌≡◌, ◌≤◌, ◌<◌, ℕ, Option, length, map, replicate, None, Some, IfOk, MatchResult};
ghost use Rattle.market.specs.Stability.{held_by};
ghost use Rattle.record_files.specs.ReadTo.{IsFileRead};
ghost use Rattle.placement_file.specs.Growth.{programme_held};
ghost use Rattle.placement_file.specs.Rows.{placement_fault, unknown_fault};
ghost use Rattle.placement_file.specs.Table.{placement_in, programme_of};

use crate::fields::read_fields;
use crate::row::{Fields, Held};
use place_base::limits::{LARGEST_FILE, MOST_CANDIDATES};
use place_base::{FaultKind, FileFault, FileKind, Finder, ProgrammeCode};
use record_files::{
    FileForm, Header, RecordRow, RowTable, TableStop, duplicate_at, fault_at, read_table,
};
use std::alloc::{AllocError, Global};

/// What a placement file is read beside.
#[derive(Drop)]
pub struct Tables<'a, P, C> {
    pub programmes: &'a P,
    pub candidates: &'a C,
}

/// What each candidate was given so far.
#[derive(Drop)]
pub struct Entries {
    items: Vec<Option<Held>>,
}

/// The placement of a file of at most 2^30 bytes beside the programmes' codes and the candidates'
/// numbers: for each candidate the index of the programme held, none without a row or beside `-`;
/// `Fault` exactly where the file has a first fault, and then it carries it.
pub fn read_placement<P: Finder, C: Finder>(
    alloc: Global,
    bytes: &[u8],
    programmes: &P,
    candidates: &C,
) -> Result<Vec<Option<u32>>, TableStop>
    requires { length bytes.now ≤ LARGEST_FILE }
    ensures read { IsFileRead
        (placement_fault (P.numbers programmes.now) (C.numbers candidates.now) bytes.now)
        (λ held. held.items
        ≡ placement_in (P.numbers programmes.now) (C.numbers candidates.now) bytes.now) result }

    // It has an entry for each candidate, and the programmes held are in the list.
    ensures candidates { IfOk result (λ held.
        length held.items ≡ length (C.numbers candidates.now)) }
    ensures programmes { IfOk result (λ held. (i p : ℕ) → held_by held.items i ≡ Option.Some p
        → p < length (P.numbers programmes.now)) }
{
    let items = no_entries(alloc, candidates.count())?;
    let tables = Tables {
        programmes,
        candidates,
    };
    let read = read_table(alloc, bytes, &tables, Entries { items })?;
    let held = programmes_held(alloc, &read.items)?;
    Ok(held)
}

impl<'a, P: Finder, C: Finder> RowTable<Tables<'a, P, C>> for Entries {
    ghost use Rattle.placement_file.specs.Growth.{HasRows, IsFieldsOf};
    ghost use Rattle.placement_file.specs.Rows.{placement_rules};

    type Fields = Fields;

    ghost rules = { λ tables.
        placement_rules (P.numbers tables.programmes.now) (C.numbers tables.candidates.now) };

    ghost says = { λ version. IsFieldsOf };

    ghost has_rows = { λ tables version rows table.
        HasRows (P.numbers tables.programmes.now) (C.numbers tables.candidates.now) rows
        table.items.items };

    fn form(_tables: &Tables<'a, P, C>) -> FileForm {
        FileForm::new(
            FileKind::Placement,
            &[b"candidate,programme"],
            MOST_CANDIDATES,
        )
    }

    fn read_fields(
        _tables: &Tables<'a, P, C>,
        _header: Header,
        row: &RecordRow<'_>,
    ) -> Result<Fields, FileFault> {
        read_fields(row)
    }

    fn take(
        &mut self,
        _alloc: Global,
        tables: &Tables<'a, P, C>,
        fields: Fields,
    ) -> Result<Option<FileFault>, AllocError> {
        let (file, line) = (FileKind::Placement, fields.line);
        let Some(index) = tables.candidates.find(fields.number.get()) else {
            return Ok(Some(fault_at(file, line, 1, FaultKind::UnknownCandidate)));
        };
        if let Some(held) = self.items[index as usize] {
            return Ok(Some(duplicate_at(file, line, 1, held.line)));
        }
        let programme = match find_programme(line, tables.programmes, fields.code) {
            Ok(programme) => programme,
            Err(fault) => return Ok(Some(fault)),
        };
        self.items[index as usize] = Some(Held { line, programme });
        Ok(None)
    }
}

// The programme of a code in a row of this line, none for none, or what is wrong with the code.
fn find_programme<P: Finder>(
    line: u32,
    programmes: &P,
    code: Option<ProgrammeCode>,
) -> Result<Option<u32>, FileFault>
    ensures { MatchResult result
        (λ held. (unknown_fault (P.numbers programmes.now) line code ≡ None)
        × (held ≡ programme_of (P.numbers programmes.now) code))
        (λ fault. unknown_fault (P.numbers programmes.now) line code ≡ Some fault) }
{
    let Some(code) = code else {
        return Ok(None);
    };
    match programmes.find(u64::from(code.get())) {
        Some(programme) => Ok(Some(programme)),
        None => Err(fault_at(FileKind::Placement, line, 2, FaultKind::UnknownProgramme)),
    }
}

// So many entries, to which no row gave anything.
fn no_entries(alloc: Global, count: u32) -> Result<Vec<Option<Held>>, AllocError>
    ensures { IfOk result (λ entries. entries.items ≡ replicate count None) }
{
    vec![in alloc; None; count as usize]
}

// The programmes of entries.
fn programmes_held(alloc: Global, entries: &[Option<Held>]) -> Result<Vec<Option<u32>>, AllocError>
    ensures { IfOk result (λ held. held.items ≡ map programme_held entries.now) }
{
    entries
        .iter()
        .map(|entry| programme_held(*entry))
        .collect(alloc)
}

// The programme of an entry, none for none.
fn programme_held(entry: Option<Held>) -> Option<u32>
    ensures { result ≡ programme_held entry }
{
    match entry {
        Some(held) => held.programme,
        None => None,
    }
}
