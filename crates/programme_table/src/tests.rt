// Files at the edge of each rule.
ghost use Rattle.std.specs.Prelude.{◌≤◌, length};

use super::ProgrammeTable;
use place_base::FaultKind::{
    self, BadTypeName, Duplicate, FieldCount, Header, NotNumber, OutOfRange,
};
use place_base::{FileKind, Finder, TypeFinder, TypeName};
use record_files::{TableStop, duplicate_at};
use std::alloc::Global;
use std::test::Fail;
use std::thread::Threads;

// A table read, of which no more is known than its type says: a file written out would be computed
// in each goal.
fn read<R: Threads + Sync>(
    rt: &R,
    alloc: Global,
    bytes: &[u8],
    pieces: u32,
) -> Result<ProgrammeTable, TableStop>
    requires size { length bytes.now ≤ 1024 }
    requires pieces { (1 ≤ pieces) × (pieces ≤ 64) }
{
    ProgrammeTable::read(rt, alloc, bytes, pieces)
}

// Whether the table has this programme at an index, and finds its code there.
fn has_programme(
    table: &ProgrammeTable,
    index: u32,
    (code, kind, quota): (u32, u32, u32),
    bar: Option<u32>,
) -> bool {
    if index >= table.count() {
        return false;
    }
    let row = table.row(index);
    (row.code.get(), row.kind, row.quota) == (code, kind, quota)
        && row.bar == bar
        && table.number_at(index) == u64::from(code)
        && table.find(u64::from(code)) == Some(index)
}

// Whether the table has this type at an index, and finds its name there.
fn has_type(table: &ProgrammeTable, kind: u32, name: &[u8]) -> bool {
    match TypeName::new(name) {
        Some(name) => {
            kind < table.type_count()
                && table.type_name(kind) == name
                && table.find_type(name) == Some(kind)
        }
        None => false,
    }
}

#[test]
fn codes_and_types_stand_in_file_order(rt: HostRuntime) -> Result<(), Fail> {
    let bytes = b"programme,type,quota\n0202,EA,0\r\n\n101,SAY,2\n999999999,EA,100000";
    let table = read(&rt, rt.alloc(), bytes, 4)?;
    holds_all(&table, None, None)
}

#[test]
fn bars_are_read_in_each_number_of_pieces(rt: HostRuntime) -> Result<(), Fail> {
    let bytes = b"\xEF\xBB\xBF\r\nprogramme,type,quota,bar\r\n\n0202,EA,0,-\r\n\r\n\
        101,SAY,2,0050\n999999999,EA,100000,99999999";
    for pieces in [1, 2, 7, 64] {
        let table = read(&rt, rt.alloc(), bytes, pieces)?;
        holds_all(&table, Some(50), Some(99_999_999))?;
    }
    Ok(())
}

// Fails where the table is another than that of the tests' files, of which two programmes may have
// a bar.
fn holds_all(table: &ProgrammeTable, second: Option<u32>, third: Option<u32>) -> Result<(), Fail> {
    let programmes = has_programme(table, 0, (202, 0, 0), None)
        && has_programme(table, 1, (101, 1, 2), second)
        && has_programme(table, 2, (999_999_999, 0, 100_000), third);
    let types = has_type(table, 0, b"EA") && has_type(table, 1, b"SAY");
    let unknown = table.find(303).is_none() && table.find(1 << 32).is_none();
    if !programmes || !types || !unknown || table.count() != 3 || table.type_count() != 2 {
        return Err(Fail::new("another table"));
    }
    Ok(())
}

// Sixteen types in seventeen rows, and a seventeenth.
const MANY_TYPES: &str =
    "programme,type,quota\n1,A,1\n2,B,1\n3,C,1\n4,D,1\n5,E,1\n6,F,1\n7,G,1\n8,H,1\n9,I,1\n\
    10,J,1\n11,K,1\n12,L,1\n13,M,1\n14,N,1\n15,O,1\n16,P,1\n17,A,1\n18,Q,1\n";

// A file, and its fault's line, field, kind and earlier line.
const FILES: [(&str, u32, u8, FaultKind, u32); 24] = [
    ("", 1, 0, Header, 0),
    ("\nprogramme,type\n", 2, 0, Header, 0),
    (
        "programme,type,quota\n101,SAY,2\n202,EA,1\n101,EA,3\n",
        4,
        1,
        Duplicate,
        2,
    ),
    (
        "programme,type,quota\n7,SAY,2\n\n007,EA,1\n7,EA,x\n",
        4,
        1,
        Duplicate,
        2,
    ),
    (
        "programme,type,quota\n101,SAY,2\n101,say,2\n",
        3,
        2,
        BadTypeName,
        0,
    ),
    ("programme,type,quota\n0,say,x\n", 2, 1, OutOfRange, 0),
    (
        "programme,type,quota\n1000000000,SAY,2\n",
        2,
        1,
        OutOfRange,
        0,
    ),
    ("programme,type,quota\n1x,SAY,2\n", 2, 1, NotNumber, 0),
    (
        "programme,type,quota\n1,SAY,100000\n2,SAY,100001\n",
        3,
        3,
        OutOfRange,
        0,
    ),
    ("programme,type,quota\n1,SAY,\n", 2, 3, NotNumber, 0),
    ("programme,type,quota\n1,SAY,2,\n", 2, 0, FieldCount, 0),
    (MANY_TYPES, 19, 2, OutOfRange, 0),
    ("programme,type,quota,bar\n1,SAY,2,\n", 2, 4, NotNumber, 0),
    ("programme,type,quota,bar\n1,SAY,2,5x\n", 2, 4, NotNumber, 0),
    ("programme,type,quota,bar\n1,SAY,2,--\n", 2, 4, NotNumber, 0),
    ("programme,type,quota,bar\n1,SAY,2,0\n", 2, 4, OutOfRange, 0),
    (
        "programme,type,quota,bar\n1,SAY,2,99999999\n2,SAY,2,100000000\n",
        3,
        4,
        OutOfRange,
        0,
    ),
    ("programme,type,quota,bar\n1,SAY,x,0\n", 2, 3, NotNumber, 0),
    (
        "programme,type,quota,bar\n1,SAY,2,7\n1,EA,2,0\n",
        3,
        4,
        OutOfRange,
        0,
    ),
    ("programme,type,quota,bar\n1,SAY,2\n", 2, 0, FieldCount, 0),
    ("programme,type,quota\n1,SAY,2,-\n", 2, 0, FieldCount, 0),
    ("programme,type,quota,Bar\n1,SAY,2,-\n", 1, 0, Header, 0),
    ("programme,type,bar,quota\n1,SAY,2,-\n", 1, 0, Header, 0),
    ("programme,type,quota,bar,\n1,SAY,2,-\n", 1, 0, Header, 0),
];

#[test]
fn the_first_fault_is_told(rt: HostRuntime) -> Result<(), Fail> {
    for pieces in &[1, 2, 7, 64] {
        tell_faults(&rt, rt.alloc(), *pieces, &FILES)?;
    }
    Ok(())
}

// Reads each file in so many pieces, and fails where another fault is told.
fn tell_faults<R: Threads + Sync>(
    rt: &R,
    alloc: Global,
    pieces: u32,
    files: &[(&str, u32, u8, FaultKind, u32)],
) -> Result<(), Fail> {
    if pieces == 0 || pieces > 64 {
        return Err(Fail::new("a number of pieces"));
    }
    for (text, line, field, kind, earlier) in files {
        let mut wanted = duplicate_at(FileKind::Programmes, *line, *field, *earlier);
        wanted.kind = *kind;
        if text.len() > 1024 {
            return Err(Fail::new("a long text"));
        }
        let read = ProgrammeTable::read(rt, alloc, text.as_bytes(), pieces);
        if read.err() != Some(TableStop::Fault(wanted)) {
            return Err(Fail::new("another fault"));
        }
    }
    Ok(())
}
