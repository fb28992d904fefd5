// What the mechanism gives in a market, by rounds over teams of workers.

ghost use Rattle.std.specs.Prelude.{◌≡◌, ◌<◌, ◌≤◌, IfOk};
ghost use Rattle.command_words.specs.declared.words.TheConstants.{MAX_WORKERS};
ghost use Rattle.place_run.specs.Placings.{IsOutcomeOf, IsPlacedOf};

use crate::inputs::Inputs;
use crate::problem::Problem;
use gate_workers::Gate;
use market::{Market, Outcome, Placement, Steps};
use round_rerun::Rounds;
use stable_laws::worst_stable;
use std::alloc::{AllocError, Global};
use std::marker::Brand;
use std::sync::ledger::{Blank, Ledger};
use std::thread::Threads;

// A market with its names, and the mechanism's placement in it.
pub(crate) struct Placed {
    pub(crate) problem: Problem,
    pub(crate) placement: Placement,
}

// By hand, so that letting one go is one call in the proof of whoever holds it.
impl Drop for Placed {
    fn drop(self) {
        let Self {
            problem: _problem,
            placement: _placement,
        } = self;
    }
}

impl Placed {
    // The placement in the market of three tables, by teams of so many workers who pass this gate.
    pub(crate) fn by<R: Threads + Sync, G: Gate>(
        rt: &R,
        alloc: Global,
        inputs: Inputs,
        workers: u32,
        gate: &G,
    ) -> Result<Placed, AllocError>
        requires { (1 ≤ workers) × (workers ≤ MAX_WORKERS) }
        ensures { IfOk result (IsPlacedOf inputs) }
    {
        let problem = Problem::build(rt, alloc, inputs, workers)?;
        worst_stable(&problem.market);
        let outcome = outcome_by(rt, alloc, &problem.market, workers, gate)?;
        Ok(Placed {
            problem,
            placement: outcome.placement,
        })
    }
}

// What the mechanism gives in a market, by teams of so many workers who pass this gate.
pub(crate) fn outcome_by<R: Threads + Sync, G: Gate>(
    rt: &R,
    alloc: Global,
    market: &Market,
    workers: u32,
    gate: &G,
) -> Result<Outcome, AllocError>
    requires { (1 ≤ workers) × (workers ≤ MAX_WORKERS) }
    ensures { IfOk result (IsOutcomeOf market.now) }
{
    uncounted::<R, G, Brand>(rt, alloc, market, workers, gate, Blank::new(1))
}

// The same with a counter of turns that nobody reads.
fn uncounted<R: Threads + Sync, G: Gate, L: Ledger>(
    rt: &R,
    alloc: Global,
    market: &Market,
    workers: u32,
    gate: &G,
    blank: Blank,
) -> Result<Outcome, AllocError>
    requires workers { (1 ≤ workers) × (workers ≤ MAX_WORKERS) }
    requires ledger { (blank.name ≡ L.name) × (blank.parts ≡ L.parts) × (0 < blank.parts) }
    ensures { IfOk result (IsOutcomeOf market.now) }
{
    let mut turns = Steps::<L>::new(blank);
    let outcome = Rounds::new(workers, gate).run(rt, alloc, market, &mut turns)?;
    Ok(outcome)
}
