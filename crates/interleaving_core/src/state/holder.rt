// The events of the mark's holder, and the try to take the mark.

ghost use Rattle.std.specs.Prelude.{◌<◌, length};
ghost use Rattle.interleaving_core.specs.declared.events.CoreEvent.{CoreEvent};
ghost use Rattle.interleaving_core.specs.Runs.{Answers};

use crate::entries::{entry_at, has_seat};
use crate::events::{NotNow, Told};
use crate::flag_words::{flag_group, flag_mask};
use crate::parts::{Cell, Holding, Phase};
use crate::state::CoreState;

impl CoreState {
    // Tries to take the mark.
    pub(super) fn take(&mut self, worker: u32) -> Result<Told, NotNow>
        requires { worker < length self.old.core.views }
        ensures { Answers self.old worker CoreEvent.Take self.new result }
    {
        self.workers[worker as usize].may_take()?;
        let held = self.mark_held;
        let committed = self.mark_number;
        self.mark_held = true;
        let me = &mut self.workers[worker as usize];
        me.owes = false;
        if held {
            return Ok(Told::Missed);
        }
        me.hold = Some(Holding {
            committed,
            phase: Phase::Idle,
        });
        Ok(Told::Took(committed))
    }

    // Looks at the cell of the first turn that is not committed.
    pub(super) fn look(&mut self, worker: u32) -> Result<Told, NotNow>
        requires { worker < length self.old.core.views }
        ensures { Answers self.old worker CoreEvent.Look self.new result }
    {
        let committed = self.workers[worker as usize].may_look(&self.dict)?;
        let cell = self.cells[committed as usize];
        let me = &mut self.workers[worker as usize];
        if let Cell::Posted(place) = cell {
            me.hold = Some(Holding {
                committed,
                phase: Phase::Scan(place),
            });
            return Ok(Told::Found(place));
        }
        me.hold = Some(Holding {
            committed,
            phase: Phase::Halted,
        });
        Ok(Told::Nothing)
    }

    // Reads whether the entry at the place weighed is full.
    #[tactic(auto, using(crate::proofs::Machines::within, crate::proofs::Machines::refused))]
    pub(super) fn weigh(&mut self, worker: u32) -> Result<Told, NotNow>
        requires { worker < length self.old.core.views }
        ensures { Answers self.old worker CoreEvent.Weigh self.new result }
    {
        let (committed, place) = self.workers[worker as usize].may_weigh(&self.dict)?;
        let open = has_seat(&self.dict, &self.seats, committed, place);
        let me = &mut self.workers[worker as usize];
        if open {
            me.hold = Some(Holding {
                committed,
                phase: Phase::Ready(place),
            });
            return Ok(Told::Room);
        }
        me.hold = Some(Holding {
            committed,
            phase: Phase::Scan(place + 1),
        });
        Ok(Told::Full)
    }

    // Takes a seat at the place weighed.
    pub(super) fn seat(&mut self, worker: u32) -> Result<Told, NotNow>
        requires { worker < length self.old.core.views }
        ensures { Answers self.old worker CoreEvent.Seat self.new result }
    {
        let (committed, place) = self.workers[worker as usize].may_seat()?;
        let programme = entry_at(&self.dict, committed, place);
        let taken = self.seats[programme as usize] + 1;
        let filled = self.dict.quota(programme) <= taken;
        self.seats[programme as usize] = taken;
        self.workers[worker as usize].hold = Some(Holding {
            committed,
            phase: Phase::Seated(place, filled),
        });
        Ok(Told::Seated(filled))
    }

    // Raises the flag of the programme that was just filled.
    pub(super) fn raise(&mut self, worker: u32) -> Result<Told, NotNow>
        requires { worker < length self.old.core.views }
        ensures { Answers self.old worker CoreEvent.Raise self.new result }
    {
        let (committed, place) = self.workers[worker as usize].may_raise()?;
        let programme = entry_at(&self.dict, committed, place);
        let group = flag_group(programme) as usize;
        let raised = self.flags[group] | flag_mask(programme);
        self.flags[group] = raised;
        self.workers[worker as usize].hold = Some(Holding {
            committed,
            phase: Phase::Raised(place),
        });
        Ok(Told::Raised(programme))
    }

    // Commits the turn.
    #[tactic(auto, using(crate::proofs::Machines::within, crate::proofs::Machines::refused))]
    pub(super) fn seal(&mut self, worker: u32) -> Result<Told, NotNow>
        requires { worker < length self.old.core.views }
        ensures { Answers self.old worker CoreEvent.Seal self.new result }
    {
        let (turn, place) = self.workers[worker as usize].may_seal(&self.dict)?;
        self.cells[turn as usize] = Cell::Committed(place);
        self.workers[worker as usize].hold = Some(Holding {
            committed: turn + 1,
            phase: Phase::Idle,
        });
        Ok(Told::Sealed(turn))
    }

    // Gives the mark back.
    pub(super) fn release(&mut self, worker: u32) -> Result<Told, NotNow>
        requires { worker < length self.old.core.views }
        ensures { Answers self.old worker CoreEvent.Release self.new result }
    {
        let committed = self.workers[worker as usize].may_release(&self.dict)?;
        self.mark_held = false;
        self.mark_number = committed;
        self.workers[worker as usize].hold = None;
        Ok(Told::Released(committed))
    }
}
