// For each programme its base rank and its number of holders.

ghost use Rattle.std.specs.Prelude.{◌≡◌, ◌+◌, ◌<◌, ◌^◌, length, slice_set, IfOk};
ghost use Rattle.market.specs.BaseRanks.{worse_of};
ghost use Rattle.reports.specs.BaseTables.{HoldsProgrammes, IsBaseTable, base_of, holder_count};

use market::{Market, Placement};
use std::alloc::{AllocError, Global};
use std::marker::Model;

/// For each programme of a market its base rank, the worst rank among its holders, and how many
/// hold it.
#[derive(Drop)]
pub struct BaseRanks {
    bases: Vec<Option<u32>>,
    held: Vec<u32>,
}

impl Model for BaseRanks {
    ghost use Rattle.reports.specs.BaseTables.{BaseTable};

    ghost Value = { BaseTable };

    ghost view = { λ b. record { bases = b.bases.items; held = b.held.items } };
}

/// The base ranks of a placement whose programmes are those of the market; nothing but memory is
/// refused. A holder without a rank in the programme's score type is counted, and sets no base
/// rank.
pub fn base_ranks(
    alloc: Global,
    market: &Market,
    placement: &Placement,
) -> Result<BaseRanks, AllocError>
    requires candidates { length placement.now ≡ length market.now.lists }
    requires programmes { HoldsProgrammes market.now placement.now }
    ensures { IfOk result (IsBaseTable market.now placement.now) }
{
    let programmes = market.programme_count() as usize;
    let bases = vec![in alloc; None; programmes]?;
    let held = vec![in alloc; 0; programmes]?;
    let mut found = BaseRanks { bases, held };
    // Its clause says that the market is valid.
    let _ = market.candidate_count();
    for (candidate, holds) in placement.held().iter().enumerate() {
        if let Some(programme) = *holds {
            let kind = market.programme(programme).kind;
            let rank = market.rank(kind, candidate as u32);
            found.add_holder(programme, rank);
        }
    }
    Ok(found)
}

impl BaseRanks {
    /// The worst rank among the holders of a programme, None where no holder has a rank in its
    /// score type; where each holder has one, None exactly where nobody holds it.
    pub fn base(&self, programme: u32) -> Option<u32>
        requires { programme < length self.now.bases }
        ensures { result ≡ base_of self.now programme }
    {
        self.bases[programme as usize]
    }

    /// How many candidates hold a programme.
    pub fn held(&self, programme: u32) -> u32
        requires { programme < length self.now.held }
        ensures { result ≡ holder_count self.now programme }
    {
        self.held[programme as usize]
    }

    // One holder more, with this rank or none.
    fn add_holder(&mut self, programme: u32, rank: Option<u32>)
        requires base { programme < length self.old.bases }
        requires held { programme < length self.old.held }
        requires few { holder_count self.old programme + 1 < 2 ^ 32 }
        ensures bases { self.new.bases ≡ slice_set self.old.bases programme
            (worse_of (base_of self.old programme) rank) }
        ensures held { self.new.held
            ≡ slice_set self.old.held programme (holder_count self.old programme + 1) }
    {
        let programme = programme as usize;
        self.bases[programme] = worse(self.bases[programme], rank);
        self.held[programme] += 1;
    }
}

// The worse of two ranks; a rank is worse than none.
fn worse(first: Option<u32>, second: Option<u32>) -> Option<u32>
    ensures { result ≡ worse_of first second }
{
    match (first, second) {
        (Some(one), Some(other)) if one < other => Some(other),
        (None, rank) => rank,
        (rank, _) => rank,
    }
}
