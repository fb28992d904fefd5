// Which calls are told to fail.

ghost use Rattle.std.specs.Prelude.{◌≡◌, ◌≤◌, ◌↔◌, ◌∷◌, ◌++◌, [], Contains, IsTrue, OnOk, OnErr};
ghost use Rattle.place_edges.specs.Causes.{counted};

use crate::Failed;
use std::alloc::{AllocError, Global};
use std::marker::Model;

// The numbers of the calls that are to fail, and how many calls and faults there were.
#[derive(Drop)]
pub(crate) struct Failures {
    failing: Vec<u64>,
    calls: u64,
    faults: u64,
}

impl Model for Failures {
    ghost use Rattle.place_edges.specs.Failures.{Told};

    ghost Value = { Told };

    ghost view = { λ f. record { failing = f.failing.items; calls = f.calls; faults = f.faults } };
}

impl Failures {
    pub(crate) fn new(alloc: Global) -> Failures
        ensures { result ≡ record { failing = []; calls = 0; faults = 0 } }
    {
        Failures {
            failing: Vec::new(alloc),
            calls: 0,
            faults: 0,
        }
    }

    // Lets the call of this number fail.
    pub(crate) fn fail_at(&mut self, call: u64) -> Result<(), AllocError>
        ensures told { OnOk result (self.new ≡ record self.old {
          failing = self.old.failing ++ call ∷ [];
        }) }
        ensures same { OnErr result (self.new ≡ self.old) }
    {
        self.failing.push(call)?;
        Ok(())
    }

    // Counts a call, and says whether it is told to fail.
    pub(crate) fn next_fails(&mut self) -> bool
        ensures counts { self.new ≡ record self.old { calls = counted self.old.calls } }
        ensures fails { IsTrue result ↔ Contains self.old.failing self.new.calls }
    {
        self.calls = self.calls.saturating_add(1);
        self.failing.contains(&self.calls)
    }

    // Counts a fault, and gives the answer for it.
    pub(crate) fn fault(&mut self) -> Failed
        ensures later { self.old.faults ≤ self.new.faults }
        ensures counts { self.new ≡ record self.old { faults = counted self.old.faults } }
    {
        self.faults = self.faults.saturating_add(1);
        Failed
    }

    // How many calls there were.
    pub(crate) fn calls(&self) -> u64
        ensures { result ≡ self.now.calls }
    {
        self.calls
    }

    // How many calls failed.
    pub(crate) fn faults(&self) -> u64
        ensures { result ≡ self.now.faults }
    {
        self.faults
    }
}
