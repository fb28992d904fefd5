// Gates that hold clerks and count their calls.
use crate::{DeskGate, DeskPoint};
use std::sync::atomic::AtomicU32;
use std::sync::atomic::Ordering::SeqCst;

// Holds the first point of each of two clerks until the other has come to its own.
#[derive(Drop)]
pub(super) struct Meeting {
    before: [AtomicU32; 2],
    after: [AtomicU32; 2],
    others: AtomicU32,
    given_up: AtomicU32,
}

impl Meeting {
    pub(super) fn new() -> Meeting {
        Meeting {
            before: [AtomicU32::new(0), AtomicU32::new(0)],
            after: [AtomicU32::new(0), AtomicU32::new(0)],
            others: AtomicU32::new(0),
            given_up: AtomicU32::new(0),
        }
    }

    // Whether a clerk was held until the last look.
    pub(super) fn has_given_up(&self) -> bool {
        self.given_up.load(SeqCst) != 0
    }

    // How often each clerk came to each point of its first call, and how many other calls there
    // were: before and after of the first clerk, then of the second.
    pub(super) fn counts(&self) -> ([u32; 4], u32) {
        let [before_first, before_second] = &self.before;
        let [after_first, after_second] = &self.after;
        let counts = [
            before_first.load(SeqCst),
            after_first.load(SeqCst),
            before_second.load(SeqCst),
            after_second.load(SeqCst),
        ];
        (counts, self.others.load(SeqCst))
    }

    // Looks so often, at most, whether the other has come.
    fn wait_for(&self, other: &AtomicU32) {
        for _ in 0..200_000_000u32 {
            if other.load(SeqCst) != 0 {
                return;
            }
        }
        self.given_up.store(1, SeqCst);
    }
}

impl DeskGate for Meeting {
    fn at(&self, clerk: u32, call: u32, point: DeskPoint) {
        if clerk > 1 || call != 0 {
            self.others.fetch_add(1, SeqCst);
            return;
        }
        let me = clerk as usize;
        match point {
            DeskPoint::Before => {
                self.before[me].fetch_add(1, SeqCst);
                self.wait_for(&self.before[1 - me]);
            }
            DeskPoint::After => {
                self.after[me].fetch_add(1, SeqCst);
            }
        }
    }
}

// A clerk, a call of it, and a point of this call.
pub(super) type Come = (u32, u32, DeskPoint);

// Compares each point that one clerk comes to with the next of those expected.
#[derive(Drop)]
pub(super) struct OneWay {
    expected: [Come; 10],
    points: AtomicU32,
    matched: AtomicU32,
}

impl OneWay {
    pub(super) fn new(expected: [Come; 10]) -> OneWay {
        OneWay {
            expected,
            points: AtomicU32::new(0),
            matched: AtomicU32::new(0),
        }
    }

    // How many points there were, and how many of them were the next of those expected.
    pub(super) fn counts(&self) -> (u32, u32) {
        (self.points.load(SeqCst), self.matched.load(SeqCst))
    }
}

impl DeskGate for OneWay {
    fn at(&self, clerk: u32, call: u32, point: DeskPoint) {
        let matched = self.matched.load(SeqCst);
        if self.expected.get(matched as usize) == Some(&(clerk, call, point)) {
            self.matched.fetch_add(1, SeqCst);
        }
        self.points.fetch_add(1, SeqCst);
    }
}
