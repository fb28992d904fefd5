// The points of a worker's way, at which a gate may hold it.

use std::hint::spin_loop;
use std::thread;
use std::time::{Clock, Duration};

// How often a worker spins after its first miss, and how many times this doubles.
const SPINS: u32 = 64;

const SPIN_DOUBLINGS: u32 = 8;

// How many microseconds a worker sleeps after its first miss, and how many times this doubles: to
// 0.8 milliseconds. A nap is about as long as those before it together, so that the end of a small
// round stays near.
const NAP: u64 = 50;

const NAP_DOUBLINGS: u32 = 4;

/// A point of a worker's way through its turns. `BeforeRead` stands before the reading of an
/// entry; every other point stands after its step. A worker comes to a point only where its seat
/// has made the steps before it; that it comes to each of them is how it is written.
#[derive(Clone, Copy, PartialEq, Eq, Debug)]
pub enum GatePoint {
    /// This turn was drawn.
    Claimed(u32),
    /// Of this turn's list, the entry at this place is read next.
    BeforeRead(u32, u32),
    /// This turn was posted.
    Posted(u32),
    /// The mark was taken, with so many turns committed.
    Took(u32),
    /// The mark was found held.
    Missed,
    /// This turn was committed.
    Sealed(u32),
    /// The mark was given back, with so many turns committed.
    Released(u32),
}

/// What a worker is written to call at each point of its way. It returns, and no answer of a run
/// depends on it.
pub trait Gate: Sync {
    /// The worker with this number has come to this point.
    fn at(&self, worker: u32, point: GatePoint);

    /// A worker stands back that has missed the mark, after so many misses before. It has posted its
    /// turn and holds nothing. Where a gate leaves this out it spins for a while.
    fn stand_back(&self, misses: u32) {
        for _ in 0..SPINS << misses.min(SPIN_DOUBLINGS) {
            spin_loop();
        }
    }
}

/// A gate that holds nobody.
#[derive(Drop)]
pub struct OpenGate;

impl Gate for OpenGate {
    fn at(&self, _worker: u32, _point: GatePoint) {}
}

/// A gate that holds nobody, and lets who has missed the mark sleep by a clock: who holds the mark
/// is quickest alone, and the processors are free for others meanwhile.
#[derive(Drop)]
pub struct RestingGate<'c, C: Clock + Sync> {
    clock: &'c C,
}

impl<'c, C: Clock + Sync> RestingGate<'c, C> {
    /// A gate with this clock.
    pub fn new(clock: &'c C) -> RestingGate<'c, C> {
        RestingGate { clock }
    }
}

impl<'c, C: Clock + Sync> Gate for RestingGate<'c, C> {
    fn at(&self, _worker: u32, _point: GatePoint) {}

    fn stand_back(&self, misses: u32) {
        thread::sleep(
            self.clock,
            Duration::from_micros(NAP << misses.min(NAP_DOUBLINGS)),
        );
    }
}
