// What the machine has at its opening.

ghost use Rattle.std.specs.Prelude.{IfOk};
ghost use Rattle.interleaving_core.specs.Machines.{IsTeam};

use crate::team::Worker;
use std::alloc::{AllocError, Global};

// Workers at the opening, each with room for all turns.
pub(crate) fn fresh_workers(
    alloc: Global,
    count: u32,
    turns: u32,
) -> Result<Vec<Worker>, AllocError>
    ensures { IfOk result (λ workers. IsTeam count turns workers.items) }
{
    let mut workers = Vec::new(alloc);
    for _ in 0..count {
        workers.push(Worker::new(alloc, turns)?)?;
    }
    Ok(workers)
}
