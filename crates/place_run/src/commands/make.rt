// The summary of a market that is made from numbers.

ghost use Rattle.std.specs.Prelude.{◌≤◌};
ghost use Rattle.command_words.specs.declared.words.TheConstants.{MAX_WORKERS};
ghost use Rattle.market.specs.declared.limits.TheConstants.{MAX_CANDIDATES, MAX_PROGRAMMES, MAX_TYPES};
ghost use Rattle.place_run.specs.Makings.{IsSummarised};

use crate::answer::Answer;
use crate::placing::outcome_by;
use crate::status::Stop;
use case_maker::make_market;
use gate_workers::Gate;
use market_summary::summary_text;
use stable_laws::worst_stable;
use std::alloc::Global;
use std::thread::Threads;

// The answer to `make`: the summary of the market of a seed with so many candidates, programmes and
// types, or that memory was refused. No file is read.
pub(crate) fn make<R: Threads + Sync, G: Gate>(
    rt: &R,
    alloc: Global,
    seed: u64,
    candidates: u32,
    programmes: u32,
    types: u32,
    workers: u32,
    gate: &G,
) -> Result<Answer, Stop>
    requires candidates { candidates ≤ MAX_CANDIDATES }
    requires programmes { programmes ≤ MAX_PROGRAMMES }
    requires types { (1 ≤ types) × (types ≤ MAX_TYPES) }
    requires workers { (1 ≤ workers) × (workers ≤ MAX_WORKERS) }
    ensures { IsSummarised seed candidates programmes types result }
{
    let market = make_market(alloc, seed, candidates, programmes, types)?;
    worst_stable(&market);
    let outcome = outcome_by(rt, alloc, &market, workers, gate)?;
    let text = summary_text(alloc, &market, &outcome)?;
    Ok(Answer::done(text))
}
