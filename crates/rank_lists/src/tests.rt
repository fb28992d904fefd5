// Files at the edge of each rule, beside the type SAY and the candidates 1, 2 and 3.

ghost use Rattle.std.specs.Prelude.{◌≡◌, ◌≤◌, [], ◌∷◌, length, IfOk};

use crate::RankLists;
use place_base::FaultKind::{self, BadTypeName, Duplicate, FieldCount, NotNumber, OutOfRange};
use place_base::{FileKind, Finder, TypeFinder, TypeName};
use record_files::{TableStop, duplicate_at};
use std::alloc::Global;
use std::sync::atomic::AtomicBool;
use std::sync::atomic::Ordering::SeqCst;
use std::test::Fail;
use std::thread::Threads;

#[derive(Drop)]
struct Candidates;

impl Finder for Candidates {
    ghost numbers = { λ _. 1 ∷ 2 ∷ 3 ∷ [] };

    fn count(&self) -> u32 {
        3
    }

    fn number_at(&self, index: u32) -> u64 {
        u64::from(index) + 1
    }

    fn find(&self, number: u64) -> Option<u32> {
        match number {
            1 => Some(0),
            2 => Some(1),
            3 => Some(2),
            _ => None,
        }
    }
}

#[derive(Clone, Copy)]
struct OneType(TypeName);

impl TypeFinder for OneType {
    ghost names = { λ one. one.0 ∷ [] };

    fn type_count(&self) -> u32 {
        1
    }

    fn type_name(&self, _kind: u32) -> TypeName {
        self.0
    }

    fn find_type(&self, name: TypeName) -> Option<u32> {
        if name == self.0 { Some(0) } else { None }
    }
}

// Lists read, of which no more is known than how many types and candidates there are: a file
// written out would be computed in each goal.
fn read<R: Threads + Sync>(
    rt: &R,
    alloc: Global,
    bytes: &[u8],
    say: &OneType,
) -> Result<RankLists, TableStop>
    requires { length bytes.now ≤ 1024 }
    ensures types { IfOk result (λ lists. length lists.orders ≡ 1) }
    ensures candidates { IfOk result (λ lists. lists.candidates ≡ 3) }
{
    RankLists::read(rt, alloc, bytes, 64, say, &Candidates)
}

#[test]
fn turn_orders_rise_by_rank(rt: HostRuntime) -> Result<(), Fail> {
    let say = OneType(TypeName::new(b"SAY").ok_or("a name")?);
    let bytes = b"candidate,type,rank\r\n2,SAY,9\n3,SAY,0004\n9,SAY,1\n1,TYT,4\n3,EA,9\n\n99,TYT,9";
    let lists = read(&rt, rt.alloc(), bytes, &say)?;
    holds_all(lists)
}

// Fails where the lists are other than those of the test's file.
fn holds_all(lists: RankLists) -> Result<(), Fail>
    requires types { length lists.orders ≡ 1 }
    requires candidates { lists.candidates ≡ 3 }
{
    let ranks = lists.rank_of(0, 0).is_none()
        && lists.rank_of(0, 1) == Some(9)
        && lists.rank_of(0, 2) == Some(4);
    if !ranks || lists.turn_order(0) != [2, 1].as_slice() {
        return Err(Fail::new("another turn order"));
    }
    let parts = lists.into_parts();
    if parts.orders.len() != 1 || parts.ranks.len() != 1 {
        return Err(Fail::new("other parts"));
    }
    Ok(())
}

#[test]
fn rows_of_known_candidates_alone_are_ranked(rt: HostRuntime) -> Result<(), Fail> {
    let say = OneType(TypeName::new(b"SAY").ok_or("a name")?);
    let bytes = b"\n\ncandidate,type,rank\n2,SAY,9\n\n3,SAY,4\r\n1,SAY,7";
    let lists = read(&rt, rt.alloc(), bytes, &say)?;
    ranks_all(lists)
}

// Fails where the three candidates are ranked otherwise.
fn ranks_all(lists: RankLists) -> Result<(), Fail>
    requires types { length lists.orders ≡ 1 }
    requires candidates { lists.candidates ≡ 3 }
{
    if lists.turn_order(0) != [2, 0, 1].as_slice() || lists.rank_of(0, 1) != Some(9) {
        return Err(Fail::new("another turn order"));
    }
    Ok(())
}

// The rows of a file, and its fault's line, field, kind and earlier line.
const FILES: [(&str, u32, u8, FaultKind, u32); 14] = [
    ("1,SAY", 2, 0, FieldCount, 0),
    ("0,SAY,+5", 2, 1, OutOfRange, 0),
    ("1,say,+5", 2, 2, BadTypeName, 0),
    ("1,SAY,+5", 2, 3, NotNumber, 0),
    ("1,SAY,100000000", 2, 3, OutOfRange, 0),
    ("1,SAY,1\n2,SAY,2\n7,SAY,3\n3,SAY,1", 5, 3, Duplicate, 2),
    ("1,SAY,1\n2,SAY,2\n3,SAY,3\n02,SAY,30", 5, 2, Duplicate, 3),
    ("1,SAY,1\n2,SAY,2\n2,SAY,1", 4, 2, Duplicate, 3),
    ("9,TYT,1\n9,EA,1\n9,TYT,2", 4, 2, Duplicate, 2),
    ("9,TYT,1\n8,TYT,2\n7,TYT,01", 4, 3, Duplicate, 2),
    ("1,SAY,1\n2,SAY,1\n1,SAY,2", 3, 3, Duplicate, 2),
    ("1,SAY,1\n1,SAY,2\n2,SAY,1", 3, 2, Duplicate, 2),
    ("1,SAY,1\n\n1,SAY,2\nx", 4, 2, Duplicate, 2),
    ("1,SAY,1\nx\n1,SAY,2", 3, 0, FieldCount, 0),
];

#[test]
fn the_first_fault_is_refused(rt: HostRuntime) -> Result<(), Fail> {
    let say = OneType(TypeName::new(b"SAY").ok_or("a name")?);
    for pieces in &[1, 2, 7, 64] {
        tell_faults(&rt, rt.alloc(), *pieces, say, &FILES)?;
    }
    Ok(())
}

// Reads each file's rows behind the header in so many pieces, and fails where another fault is
// told.
fn tell_faults<R: Threads + Sync>(
    rt: &R,
    alloc: Global,
    pieces: u32,
    say: OneType,
    files: &[(&str, u32, u8, FaultKind, u32)],
) -> Result<(), Fail> {
    if pieces == 0 || pieces > 64 {
        return Err(Fail::new("a number of pieces"));
    }
    for (rows, line, field, kind, earlier) in files {
        let mut wanted = duplicate_at(FileKind::Ranks, *line, *field, *earlier);
        wanted.kind = *kind;
        let mut bytes = Vec::from_slice(alloc, b"candidate,type,rank\n")?;
        bytes.extend_from_slice(rows.as_bytes())?;
        if bytes.len() > 1024 {
            return Err(Fail::new("a long text"));
        }
        let read = RankLists::read(rt, alloc, &bytes, pieces, &say, &Candidates);
        if read.err() != Some(TableStop::Fault(wanted)) {
            return Err(Fail::new("another fault"));
        }
    }
    Ok(())
}

// The candidates 1, 2 and 3. Who looks for 1 or 2 is held until the other is looked for too.
#[derive(Drop)]
struct Meeting {
    first: AtomicBool,
    second: AtomicBool,
    // Whether one was held until the end.
    given_up: AtomicBool,
}

impl Meeting {
    // Raises the one flag, and holds until the other is raised.
    fn meets(&self, here: &AtomicBool, other: &AtomicBool) {
        here.store(true, SeqCst);
        if !is_raised(other) {
            self.given_up.store(true, SeqCst);
        }
    }

    // Whether both were looked for, and neither was held until the end.
    fn has_met(&self) -> bool {
        self.first.load(SeqCst) && self.second.load(SeqCst) && !self.given_up.load(SeqCst)
    }
}

// Looks so often, at most, whether the flag is raised; false where it never was.
fn is_raised(flag: &AtomicBool) -> bool {
    for _ in 0..200_000_000u32 {
        if flag.load(SeqCst) {
            return true;
        }
    }
    false
}

impl Finder for Meeting {
    ghost numbers = { λ _. 1 ∷ 2 ∷ 3 ∷ [] };

    fn count(&self) -> u32 {
        Candidates.count()
    }

    fn number_at(&self, index: u32) -> u64 {
        Candidates.number_at(index)
    }

    fn find(&self, number: u64) -> Option<u32> {
        match number {
            1 => self.meets(&self.first, &self.second),
            2 => self.meets(&self.second, &self.first),
            _ => {}
        }
        Candidates.find(number)
    }
}

#[test]
fn parts_are_read_side_by_side(rt: HostRuntime) -> Result<(), Fail> {
    let say = OneType(TypeName::new(b"SAY").ok_or("a name")?);
    let meeting = Meeting {
        first: AtomicBool::new(false),
        second: AtomicBool::new(false),
        given_up: AtomicBool::new(false),
    };
    let bytes = b"candidate,type,rank\n1,SAY,8\n2,SAY,9\n";
    let lists = RankLists::read(&rt, rt.alloc(), bytes, 3, &say, &meeting)?;
    if lists.into_parts().orders.len() != 1 || !meeting.has_met() {
        return Err(Fail::new("the parts did not meet"));
    }
    Ok(())
}
