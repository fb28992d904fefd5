// The market of three tables.
ghost use Rattle.std.specs.Prelude.{◌≡◌, ◌≤◌, All, IfOk, length};
ghost use Rattle.market.specs.Problems.{IsValid};
ghost use Rattle.place_base.specs.declared.limits.TheConstants.{MOST_CANDIDATES};
ghost use Rattle.programme_table.specs.Table.{codes_of};
ghost use Rattle.candidate_table.specs.Table.{IsPreferenceList};
ghost use Rattle.place_run.specs.Problems.{IsProblemOf};
ghost use Rattle.market.specs.Stability.{IsPlacement};
ghost use Rattle.place_run.specs.Seconds.{HasSeatsLeft};
ghost use Rattle.place_run.specs.Tables.{problem_with};

use crate::inputs::Inputs;
use candidate_table::CandidateNumbers;
use market::{List, Market, Placement};
use place_base::TypeFinder;
use programme_table::ProgrammeTable;
use rank_lists::{RankLists, RankParts};
use second_placement::second_market;
use std::alloc::{AllocError, Global};
use std::thread::Threads;

// A market, with the codes of its programmes and the numbers of its candidates.
pub(crate) struct Problem {
    pub(crate) market: Market,
    pub(crate) programmes: ProgrammeTable,
    pub(crate) numbers: CandidateNumbers,
}

// By hand, so that letting one go is one call in the proof of whoever holds it.
impl Drop for Problem {
    fn drop(self) {
        let Self {
            market: _market,
            programmes: _programmes,
            numbers: _numbers,
        } = self;
    }
}

impl Problem {
    // The market of three tables, made by so many threads.
    pub(crate) fn build<R: Threads + Sync>(
        rt: &R,
        alloc: Global,
        inputs: Inputs,
        threads: u32,
    ) -> Result<Problem, AllocError>
        requires { 1 ≤ threads }
        ensures { IfOk result (IsProblemOf inputs) }
    {
        let (programmes, candidates, ranks) = inputs.into_parts();
        let (numbers, lists) = candidates.into_parts();
        let market = build_market(rt, alloc, threads, &programmes, lists, ranks)?;
        Ok(Problem {
            market,
            programmes,
            numbers,
        })
    }

    // The same with the market of the seats that the registered candidates leave, where this was
    // their placement. The market is spent.
    pub(crate) fn seats_left(
        self,
        alloc: Global,
        placement: &Placement,
        registered: &[bool],
    ) -> Result<Problem, AllocError>
        requires placement { IsPlacement self.market placement.now }
        requires registered { length registered.now ≡ length self.market.lists }
        ensures { IfOk result (HasSeatsLeft self placement.now registered.now) }
    {
        let Self {
            market,
            programmes,
            numbers,
        } = self;
        let market = second_market(alloc, market, placement, registered)?;
        Ok(Problem {
            market,
            programmes,
            numbers,
        })
    }
}

// The market of the programmes, the candidates' lists, and their turn orders and ranks.
fn build_market<R: Threads + Sync>(
    rt: &R,
    alloc: Global,
    threads: u32,
    programmes: &ProgrammeTable,
    lists: Vec<List>,
    ranks: RankLists,
) -> Result<Market, AllocError>
    requires threads { 1 ≤ threads }
    requires lists { All (IsPreferenceList (length (codes_of programmes.now.rows))) lists.items }
    requires few { length lists.items ≤ MOST_CANDIDATES }
    requires types { length ranks.orders ≡ length programmes.now.names }
    requires candidates { ranks.candidates ≡ length lists.items }
    ensures market { IfOk result (λ market.
        market ≡ problem_with programmes.now lists.items ranks) }
    ensures valid { IfOk result IsValid }
{
    let kinds = programmes.type_count();
    let programmes = programmes.programmes(alloc)?;
    let RankParts { orders, ranks } = ranks.into_parts();
    Market::build_by(rt, alloc, threads, kinds, programmes, lists, orders, ranks)
}
