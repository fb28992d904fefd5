// The machine: a core state that makes one event at a time.

ghost use Rattle.std.specs.Prelude.{◌≡◌, ◌<◌, ◌≤◌, length, IfOk, OnErr, count_by};
ghost use Rattle.market.specs.Dictatorships.{IsPrefixOf, choices};
ghost use Rattle.interleaving_core.specs.Core.{opening, seats_of, cell_at, is_committed, committed_choices};
ghost use Rattle.interleaving_core.specs.Runs.{IsStep, IsNotNow};
ghost use Rattle.interleaving_core.specs.Sound.{IsSound};

// What a claimant does.
mod claimant;
// What the holder of the mark does, and who tries to take it.
mod holder;

use crate::events::{CoreEvent, NotNow, Told};
use crate::flag_words::first_flags;
use crate::limits::MAX_WORKERS;
use crate::opening::fresh_workers;
use crate::parts::Cell;
use crate::team::Worker;
use market::Dict;
use std::alloc::{AllocError, Global};
use std::marker::Model;

/// A core state with the dictatorship that it runs. It makes one event at a time, takes no memory
/// once it is open, and is sound whatever it is asked to do.
pub struct CoreState {
    dict: Dict,
    claim_number: u32,
    mark_held: bool,
    mark_number: u32,
    seats: Vec<u32>,
    cells: Vec<Cell>,
    flags: Vec<u64>,
    workers: Vec<Worker>,
}

// By hand, so that letting one go is one call in the proof of whoever holds it.
impl Drop for CoreState {
    fn drop(self) {
        let Self {
            dict: _dict,
            claim_number: _,
            mark_held: _,
            mark_number: _,
            seats: _seats,
            cells: _cells,
            flags: _flags,
            workers: _workers,
        } = self;
    }
}

impl Model for CoreState {
    ghost use Rattle.interleaving_core.specs.Core.{Machine};

    ghost Value = { Machine };

    ghost use Rattle.interleaving_core.specs.Machines.{machine_of, IsKept};

    ghost view = { machine_of };

    ghost invariant = { IsKept };
}

impl CoreState {
    /// The opening state of this dictatorship, for 1 to `MAX_WORKERS` workers. All memory that the
    /// machine ever needs is taken here: for each worker as much as it needs to draw every turn.
    pub fn open(alloc: Global, dict: Dict, workers: u32) -> Result<CoreState, AllocError>
        requires some { 1 ≤ workers }
        requires few { workers ≤ MAX_WORKERS }
        ensures { IfOk result (λ s. (s.dict ≡ dict) × (s.core ≡ opening dict workers)) }
    {
        let turns = dict.turns();
        let seats = dict.fills(alloc)?;
        let cells = vec![in alloc; Cell::Empty; turns as usize]?;
        let flags = first_flags(alloc, &dict)?;
        let workers = fresh_workers(alloc, workers, turns)?;
        Ok(CoreState {
            dict,
            claim_number: 0,
            mark_held: false,
            mark_number: 0,
            seats,
            cells,
            flags,
            workers,
        })
    }

    /// Makes one event of a worker, and says what it tells. It takes no memory. `NotNow` comes
    /// exactly where the event's condition does not hold, and then the state is as it was.
    pub fn step(&mut self, worker: u32, event: CoreEvent) -> Result<Told, NotNow>
        requires { worker < length self.old.core.views }
        ensures told { IfOk result (λ told.
            IsStep self.old.dict self.old.core worker event told self.new.core) }
        ensures not_now { OnErr result (IsNotNow self.old.dict self.old.core worker event) }
        ensures unchanged { OnErr result (self.new ≡ self.old) }

        // Whatever comes, the dictatorship and the number of workers stay.
        ensures dict { self.new.dict ≡ self.old.dict }
        ensures workers { length self.new.core.views ≡ length self.old.core.views }
    {
        match event {
            CoreEvent::Claim => self.claim(worker),
            CoreEvent::Flags => self.read_flags(worker),
            CoreEvent::Read => self.read(worker),
            CoreEvent::Post => self.post(worker),
            CoreEvent::Take => self.take(worker),
            CoreEvent::Look => self.look(worker),
            CoreEvent::Weigh => self.weigh(worker),
            CoreEvent::Seat => self.seat(worker),
            CoreEvent::Raise => self.raise(worker),
            CoreEvent::Seal => self.seal(worker),
            CoreEvent::Release => self.release(worker),
        }
    }

    /// How many turns are committed. The state is sound at every moment, so they are the first
    /// turns, each with the choice that the dictatorship makes for it.
    pub fn committed(&self) -> u32
        ensures count { result ≡ count_by is_committed self.now.core.cells }
        ensures prefix { IsPrefixOf (committed_choices self.now.core) (choices self.now.dict) }
        ensures sound { IsSound self.now.dict self.now.core }
    {
        self.cells
            .iter()
            .filter(|cell| matches!(**cell, Cell::Committed(_)))
            .count() as u32
    }

    /// The cell of a turn.
    pub fn cell(&self, turn: u32) -> Cell
        requires { turn < length self.now.dict.lists }
        ensures { result ≡ cell_at self.now.core turn }
    {
        self.cells[turn as usize]
    }

    /// The seat count of a programme.
    pub fn seats(&self, programme: u32) -> u32
        requires { programme < length self.now.dict.quota }
        ensures { result ≡ seats_of self.now.core programme }
    {
        self.seats[programme as usize]
    }
}
