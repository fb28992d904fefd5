// The programmes of a preference list.
ghost use Rattle.std.specs.Prelude.{◌≡◌, ◌≤◌, length, None, Some, IfOk, MatchResult};
ghost use Rattle.candidate_table.specs.Growth.{IsListFound};
ghost use Rattle.candidate_table.specs.Rows.{list_fault};
ghost use Rattle.candidate_table.specs.Table.{indexes_of};

use crate::entries::Entries;
use market::List;
use place_base::limits::MOST_ENTRIES;
use place_base::{FaultKind, FileFault, FileKind, Finder};
use record_files::{duplicate_at, fault_at};
use std::alloc::{AllocError, Global};

/// The codes of a list of this line as indexes of programmes, without room to spare, or what is
/// wrong with the first that is none or stands earlier in the list.
pub(crate) fn find_list<P: Finder>(
    alloc: Global,
    line: u32,
    programmes: &P,
    codes: &[u32],
) -> Result<Result<List, FileFault>, AllocError>
    requires { length codes.now ≤ MOST_ENTRIES }
    ensures { IfOk result (IsListFound (P.numbers programmes.now) line codes.now) }
{
    match find_all(line, programmes, codes) {
        Ok(list) => Ok(Ok(List::from_vec(Vec::from_slice(alloc, list.as_slice())?))),
        Err(fault) => Ok(Err(fault)),
    }
}

// The codes of a list of this line as indexes of programmes, or what is wrong with the first that
// is none or stands earlier in the list.
fn find_all<P: Finder>(line: u32, programmes: &P, codes: &[u32]) -> Result<Entries, FileFault>
    requires { length codes.now ≤ MOST_ENTRIES }
    ensures { MatchResult result
        (λ list. (list_fault (P.numbers programmes.now) line codes.now ≡ None)
        × (list ≡ indexes_of (P.numbers programmes.now) codes.now))
        (λ fault. list_fault (P.numbers programmes.now) line codes.now ≡ Some fault) }
{
    let file = FileKind::Candidates;
    let mut list = Entries::new();
    for (index, code) in codes.iter().enumerate() {
        let Some(programme) = programmes.find(u64::from(*code)) else {
            return Err(fault_at(file, line, 2, FaultKind::UnknownProgramme));
        };
        if codes[..index].contains(code) {
            return Err(duplicate_at(file, line, 2, line));
        }
        list.push(programme);
    }
    Ok(list)
}
