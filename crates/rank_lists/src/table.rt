// The turn orders and ranks of a file, and their look-ups.
ghost use Rattle.std.specs.Prelude.{◌≡◌, ◌<◌, ◌≤◌, length};
ghost use Rattle.record_files.specs.ReadTo.{IsTableRead};
ghost use Rattle.rank_lists.specs.Rows.{ranks_fault};
ghost use Rattle.rank_lists.specs.Table.{IsSound, ranks_table, table_with, order_at, rank_at};

use crate::clean::read_clean;
use crate::duplicates::first_duplicate;
use crate::rows::RankRows;
use crate::turns::all_turns;
use market::List;
use place_base::limits::{LARGEST_FILE, MOST_PIECES};
use place_base::{Finder, TypeFinder};
use record_files::{TableStop, read_rows};
use std::alloc::Global;
use std::marker::Model;
use std::thread::Threads;

/// The turn order of each score type and the ranks in it.
///
/// Contracts see it as the orders and the ranks of all types, which always hold distinct candidates
/// and strictly rising ranks.
pub struct RankLists {
    candidates: u32,
    orders: Vec<List>,
    ranks: Vec<List>,
}

// By hand, so that letting one go is one call in the proof of whoever holds it.
impl Drop for RankLists {
    fn drop(self) {
        let Self {
            candidates: _,
            orders: _orders,
            ranks: _ranks,
        } = self;
    }
}

impl Model for RankLists {
    ghost use Rattle.rank_lists.specs.Table.{IsSound, RankTable, table_with};

    ghost Value = { RankTable };

    ghost view = { λ l. table_with l.candidates l.orders.items l.ranks.items };

    ghost invariant = { λ l. IsSound (table_with l.candidates l.orders.items l.ranks.items) };
}

/// The turn order of each type and the ranks in it, as a market takes them.
#[derive(Drop)]
pub struct RankParts {
    /// For each type its candidates by rising rank.
    pub orders: Vec<List>,
    /// For each type their ranks.
    pub ranks: Vec<List>,
}

impl RankLists {
    /// The turn orders and ranks of a file beside the names of the types and the numbers of the
    /// candidates, or the file's first fault.
    ///
    /// `pieces` is the number of parts, 1 to 64, in which the file is read side by side. The result
    /// does not depend on it. Rows of unknown types and candidates only take part in the checks for
    /// duplicates.
    pub fn read<R: Threads + Sync, T: TypeFinder + Sync, C: Finder + Sync>(
        rt: &R,
        alloc: Global,
        bytes: &[u8],
        pieces: u32,
        types: &T,
        candidates: &C,
    ) -> Result<RankLists, TableStop>
        requires size { length bytes.now ≤ LARGEST_FILE }
        requires pieces { (1 ≤ pieces) × (pieces ≤ MOST_PIECES) }
        ensures { IsTableRead (ranks_fault bytes.now)
            (ranks_table (T.names types.now) (C.numbers candidates.now) bytes.now) result }
    {
        if let Some(turns) = read_clean(rt, alloc, bytes, pieces, types, candidates)? {
            return Ok(RankLists::of_turns(candidates.count(), turns));
        }
        RankLists::read_in_order(alloc, bytes, types, candidates)
    }

    // As `read`, row by row: it tells the first fault of a file.
    fn read_in_order<T: TypeFinder, C: Finder>(
        alloc: Global,
        bytes: &[u8],
        types: &T,
        candidates: &C,
    ) -> Result<RankLists, TableStop>
        requires { length bytes.now ≤ LARGEST_FILE }
        ensures { IsTableRead (ranks_fault bytes.now)
            (ranks_table (T.names types.now) (C.numbers candidates.now) bytes.now) result }
    {
        let empty = RankRows::new(alloc, types.type_count())?;
        let read = read_rows(alloc, bytes, types, empty)?;
        let RankRows {
            candidates: by_candidate,
            ranks: by_rank,
            given,
        } = read.table;
        if let Some(duplicate) = first_duplicate(alloc, by_candidate, by_rank)? {
            return Err(TableStop::Fault(duplicate.fault(bytes)));
        }
        if let Some(fault) = read.fault {
            return Err(TableStop::Fault(fault));
        }
        let turns = all_turns(alloc, given, candidates)?;
        Ok(RankLists::of_turns(candidates.count(), turns))
    }

    // The lists of turn orders of so many candidates.
    fn of_turns(candidates: u32, turns: RankParts) -> RankLists
        requires { IsSound (table_with candidates turns.orders.items turns.ranks.items) }
        ensures { result ≡ table_with candidates turns.orders.items turns.ranks.items }
    {
        RankLists {
            candidates,
            orders: turns.orders,
            ranks: turns.ranks,
        }
    }

    /// The candidates with a rank in a type, by rising rank.
    pub fn turn_order(&self, kind: u32) -> &[u32]
        requires { kind < length self.now.orders }
        ensures { result.now ≡ order_at self.now kind }
    {
        self.orders[kind as usize].items()
    }

    /// The rank of a candidate in a type, or `None` where the candidate has none. It walks the turn
    /// order; a market finds a rank at once.
    pub fn rank_of(&self, kind: u32, candidate: u32) -> Option<u32>
        requires kind { kind < length self.now.orders }
        requires candidate { candidate < self.now.candidates }
        ensures { result ≡ rank_at self.now kind candidate }
    {
        let order = self.orders[kind as usize].items();
        for (turn, other) in order.iter().enumerate() {
            if *other == candidate {
                return Some(self.ranks[kind as usize].items()[turn]);
            }
        }
        None
    }

    /// Gives the turn orders and ranks to a market, without a copy.
    pub fn into_parts(self) -> RankParts
        ensures orders { result.orders.items ≡ self.orders }
        ensures ranks { result.ranks.items ≡ self.ranks }

        // They meet what a market asks of them.
        ensures sound { IsSound self }
    {
        let Self {
            candidates: _,
            orders,
            ranks,
        } = self;
        RankParts { orders, ranks }
    }
}
