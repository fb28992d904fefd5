// Files that are read in each number of parts.
use super::worked_markets::{MARKETS, Worked};
use super::{ends, files_of};
use gate_workers::OpenGate;
use std::alloc::Global;
use std::process::Abort;
use std::test::Fail;
use std::thread::Threads;

// Five empty lines before the header.
const LATE_HEADER: &[u8] = b"\n\n\n\n\nprogramme,type,quota\n101,SAY,1\n201,EA,1\n";

// The same with a fault in the last line.
const LATE_FAULT: &[u8] = b"\n\n\n\n\nprogramme,type,quota\n101,SAY,1\n201,ea,1\n";

// With this programmes file, by so many workers and in as many parts, `place` ends so.
fn ends_by(
    rt: &(impl Threads + Sync + Abort),
    alloc: Global,
    (market, programmes): (&Worked, &[u8]),
    workers: u32,
    wanted: (u8, &[u8], &[u8], u64, u64),
) -> Result<(), Fail> {
    let mut files = files_of(alloc, market)?;
    files.add(String::from_str(alloc, "p")?, programmes.to_vec(alloc)?)?;
    let number = format!(in alloc; "{workers}")?;
    let texts = ["place", "p", "c", "r", "--workers", number.as_str()];
    ends(rt, alloc, &texts, files, &OpenGate, wanted)?;
    Ok(())
}

#[test]
fn a_header_behind_empty_lines_is_found_in_each_number_of_parts(
    rt: HostRuntime,
) -> Result<(), Fail> {
    let market = &MARKETS[0];
    let placed = (0, market.placed, b"".as_slice(), 0, 9);
    let note = b"fault programmes line 8 field 2 F05 BadTypeName earlier 0\n";
    let faulty = (3, b"".as_slice(), note.as_slice(), 0, 3);
    for workers in 1..=64 {
        ends_by(&rt, rt.alloc(), (market, LATE_HEADER), workers, placed)?;
        ends_by(&rt, rt.alloc(), (market, LATE_FAULT), workers, faulty)?;
    }
    Ok(())
}
