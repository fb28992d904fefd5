// A file that has no fault and ranks known candidates in known types alone, read in parts.
//
// Each part gathers the ranks that it gives in each type. Then the ranks of a type are sorted, the
// types side by side: a row that repeats an earlier one shows in its type.

ghost use Rattle.std.specs.Prelude.{◌≡◌, ◌≤◌, ◌%◌, ℕ, All, List, IfOk, IfSome, IsTrue, false, length, map};
ghost use Rattle.market.specs.Problems.{HasNoRepeats};
ghost use Rattle.rank_lists.specs.Clean.{AreAllCleanTurns, AreEachRead, AreTurnsRead, IsCleanFile, keys_in};
ghost use Rattle.rank_lists.specs.Repeats.{HasUnequalNeighbours};

use crate::keys::INDEXES;
use crate::known::Known;
use crate::part_ranks::PartRanks;
use crate::table::RankParts;
use crate::turns::{Turns, turns_of};
use piece_reader::read_parts;
use place_base::limits::{LARGEST_FILE, MOST_PIECES};
use place_base::{Finder, TypeFinder};
use std::alloc::{AllocError, Global};
use std::thread::{self, Threads};

/// The turn orders and ranks of a file without a fault whose rows are all of known types and
/// candidates; where `None` is answered, the file may be of this kind or not.
pub(crate) fn read_clean<R: Threads + Sync, T: TypeFinder + Sync, C: Finder + Sync>(
    rt: &R,
    alloc: Global,
    bytes: &[u8],
    pieces: u32,
    types: &T,
    candidates: &C,
) -> Result<Option<RankParts>, AllocError>
    requires size { length bytes.now ≤ LARGEST_FILE }
    requires pieces { (1 ≤ pieces) × (pieces ≤ MOST_PIECES) }
    ensures { IfOk result (λ read. IfSome read (λ parts. IsCleanFile (T.names types.now)
        (C.numbers candidates.now) bytes.now parts.orders.items parts.ranks.items)) }
{
    let known = Known::new(alloc, types, candidates)?;
    let Some(parts) = read_parts(rt, alloc, bytes, pieces, &known)? else {
        return Ok(None);
    };
    if !are_known(&parts) {
        return Ok(None);
    }
    let turns = turns_by_type(
        rt,
        alloc,
        pieces,
        &parts,
        types.type_count(),
        candidates.count(),
    )?;
    collected(alloc, turns)
}

// Whether all rows are of known types and candidates.
fn are_known(parts: &[PartRanks]) -> bool
    ensures { IsTrue result → All (λ part. part.unknown ≡ false) parts.now }
{
    for part in parts {
        if part.unknown {
            return false;
        }
    }
    true
}

// The turn order of each of so many types of so many candidates: one worker sorts type by type,
// more of them the types side by side.
fn turns_by_type<R: Threads + Sync>(
    rt: &R,
    alloc: Global,
    workers: u32,
    parts: &[PartRanks],
    types: u32,
    candidates: u32,
) -> Result<Vec<Result<Option<Turns>, AllocError>>, AllocError>
    ensures { IfOk result (λ turns. AreEachRead types parts.now turns.items) }
{
    if workers == 1 {
        return turns_in_order(alloc, parts, types, candidates);
    }
    turns_side_by_side(rt, alloc, parts, types, candidates)
}

// The turn orders, one type after the other.
fn turns_in_order(
    alloc: Global,
    parts: &[PartRanks],
    types: u32,
    candidates: u32,
) -> Result<Vec<Result<Option<Turns>, AllocError>>, AllocError>
    ensures { IfOk result (λ turns. AreEachRead types parts.now turns.items) }
{
    let mut turns = Vec::with_capacity(alloc, types as usize)?;
    for kind in 0..types {
        turns.push(turns_in(alloc, parts, kind as usize, candidates))?;
    }
    Ok(turns)
}

// The turn orders, the types side by side.
fn turns_side_by_side<R: Threads + Sync>(
    rt: &R,
    alloc: Global,
    parts: &[PartRanks],
    types: u32,
    candidates: u32,
) -> Result<Vec<Result<Option<Turns>, AllocError>>, AllocError>
    ensures { IfOk result (λ turns. AreEachRead types parts.now turns.items) }
{
    let turns = thread::map_indices(
        rt,
        alloc,
        types as usize,
        &|kind| { turns_in(alloc, parts, kind, candidates) },
    )?;
    Ok(turns)
}

// The turn order of a type, where no candidate has two ranks in it and no rank stands twice.
fn turns_in(
    alloc: Global,
    parts: &[PartRanks],
    kind: usize,
    candidates: u32,
) -> Result<Option<Turns>, AllocError>
    ensures { AreTurnsRead (keys_in kind parts.now) result }
{
    let mut keys = keys_of(alloc, parts, kind)?;
    if !are_distinct(alloc, &keys, candidates)? {
        return Ok(None);
    }
    keys.sort_unstable();
    let turns = turns_of(alloc, &keys)?;
    if !neighbours_differ(turns.ranks.items()) {
        return Ok(None);
    }
    Ok(Some(turns))
}

// The ranks that all parts give in a type, each with its candidate behind it.
fn keys_of(alloc: Global, parts: &[PartRanks], kind: usize) -> Result<Vec<u64>, AllocError>
    ensures { IfOk result (λ keys. keys.items ≡ keys_in kind parts.now) }
{
    let mut keys = Vec::new(alloc);
    for part in parts {
        if let Some(given) = part.given.get(kind) {
            keys.extend_from_slice(given.keys())?;
        }
    }
    Ok(keys)
}

// Whether no candidate stands behind two ranks; false too where one is not below so many.
fn are_distinct(alloc: Global, keys: &[u64], candidates: u32) -> Result<bool, AllocError>
    ensures { IfOk result (λ distinct. IsTrue distinct
        → HasNoRepeats (map (λ key. key % INDEXES) keys.now)) }
{
    let mut seen = vec![in alloc; false; candidates as usize]?;
    for key in keys {
        let index = (*key % INDEXES) as usize;
        if index >= seen.len() || seen[index] {
            return Ok(false);
        }
        seen[index] = true;
    }
    Ok(true)
}

// Whether no two neighbours are equal.
fn neighbours_differ(ranks: &[u32]) -> bool
    ensures { IsTrue result → HasUnequalNeighbours ranks.now (length ranks.now) }
{
    for turn in 1..ranks.len() {
        if ranks[turn - 1] == ranks[turn] {
            return false;
        }
    }
    true
}

// The turn orders of all types and their ranks, where each type has them.
fn collected(
    alloc: Global,
    turns: Vec<Result<Option<Turns>, AllocError>>,
) -> Result<Option<RankParts>, AllocError>
    ensures { IfOk result (λ read. IfSome read (λ found. (types : ℕ) (parts : List PartRanks)
        → AreEachRead types parts turns.items
        → AreAllCleanTurns types parts found.orders.items found.ranks.items)) }
{
    let mut orders = Vec::with_capacity(alloc, turns.len())?;
    let mut ranks = Vec::with_capacity(alloc, turns.len())?;
    let mut left = turns.into_iter();
    'types: while let Some(of_type) = left.next() {
        let Some(of_type) = of_type? else {
            return Ok(None);
        };
        orders.push(of_type.order)?;
        ranks.push(of_type.ranks)?;
    }
    Ok(Some(RankParts { orders, ranks }))
}
