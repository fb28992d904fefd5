// Gates that count the turns which a run draws, and one that slows a worker down.
use super::worked_markets::{FIVE_TYPES, MARKETS};
use super::{PLACE_BY, ends, files_of};
use gate_workers::{Gate, GatePoint};
use std::sync::atomic::Ordering::SeqCst;
use std::sync::atomic::{AtomicBool, AtomicU64};
use std::test::Fail;

// Counts the turns that were drawn, and holds nobody.
#[derive(Drop)]
pub(super) struct Draws {
    several: AtomicU64,
}

impl Draws {
    pub(super) fn none() -> Draws {
        Draws {
            several: AtomicU64::new(0),
        }
    }

    pub(super) fn several(&self) -> u64 {
        self.several.load(SeqCst)
    }

    // Counts one, and says how many there are.
    fn count(&self) -> u64 {
        let before = self.several.fetch_add(1, SeqCst);
        before.wrapping_add(1)
    }
}

impl Gate for Draws {
    fn at(&self, _worker: u32, point: GatePoint) {
        if let GatePoint::Claimed(_) = point {
            let _ = self.count();
        }
    }
}

// Counts the same. It holds who draws a team's first turn until second turns were drawn as often,
// and who draws a second one until first turns were: one worker alone cannot pass.
#[derive(Drop)]
pub(super) struct DrawsInPairs {
    all: Draws,
    first: Draws,
    second: Draws,
    given_up: AtomicBool,
}

impl DrawsInPairs {
    pub(super) fn none() -> DrawsInPairs {
        DrawsInPairs {
            all: Draws::none(),
            first: Draws::none(),
            second: Draws::none(),
            given_up: AtomicBool::new(false),
        }
    }

    pub(super) fn several(&self) -> u64 {
        self.all.several()
    }

    // Whether a worker was held until the last look.
    pub(super) fn has_given_up(&self) -> bool {
        self.given_up.load(SeqCst)
    }

    // Holds who drew the one until the others are as many.
    fn holds(&self, drawn: &Draws, others: &Draws) {
        if !waits_for(others, drawn.count()) {
            self.given_up.store(true, SeqCst);
        }
    }
}

impl Gate for DrawsInPairs {
    fn at(&self, worker: u32, point: GatePoint) {
        self.all.at(worker, point);
        match point {
            GatePoint::Claimed(0) => self.holds(&self.first, &self.second),
            GatePoint::Claimed(1) => self.holds(&self.second, &self.first),
            _ => {}
        }
    }
}

// Looks so often, at most, whether there are so many draws; false where there never were.
fn waits_for(draws: &Draws, several: u64) -> bool {
    for _ in 0..200_000_000u32 {
        if draws.several() >= several {
            return true;
        }
    }
    false
}

// Lets one worker look a thousand times, at each point, at a flag that nobody raises.
#[derive(Drop)]
struct Slow {
    worker: u32,
    flag: AtomicBool,
}

impl Gate for Slow {
    fn at(&self, worker: u32, _point: GatePoint) {
        if worker == self.worker {
            let _ = is_raised(&self.flag);
        }
    }
}

// Looks a thousand times, at most, whether the flag is raised.
fn is_raised(flag: &AtomicBool) -> bool {
    for _ in 0..1_000u32 {
        if flag.load(SeqCst) {
            return true;
        }
    }
    false
}

#[test]
fn whichever_of_seven_workers_is_slow_the_placement_is_the_same(
    rt: HostRuntime,
) -> Result<(), Fail> {
    let alloc = rt.alloc();
    let market = &MARKETS[FIVE_TYPES];
    for worker in 0..7 {
        let gate = Slow {
            worker,
            flag: AtomicBool::new(false),
        };
        let files = files_of(alloc, market)?;
        let placed = (0, market.placed, b"".as_slice(), 0, 9);
        ends(&rt, alloc, PLACE_BY[3], files, &gate, placed)?;
    }
    Ok(())
}
