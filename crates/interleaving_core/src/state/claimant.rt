// The events of a claimant.

ghost use Rattle.std.specs.Prelude.{◌<◌, length};
ghost use Rattle.interleaving_core.specs.declared.events.CoreEvent.{CoreEvent};
ghost use Rattle.interleaving_core.specs.Runs.{Answers};

use crate::entries::{entry_at, has_seat};
use crate::events::{NotNow, Told};
use crate::flag_words::{flag_group, past_flags};
use crate::parts::{Cell, Claiming, OwnTurn};
use crate::state::CoreState;

impl CoreState {
    // Draws the next turn.
    pub(super) fn claim(&mut self, worker: u32) -> Result<Told, NotNow>
        requires { worker < length self.old.core.views }
        ensures { Answers self.old worker CoreEvent.Claim self.new result }
    {
        self.workers[worker as usize].may_claim()?;
        let turn = self.claim_number;
        self.claim_number += 1;
        let turns = self.dict.turns();
        let me = &mut self.workers[worker as usize];
        if turn >= turns {
            me.done = true;
            return Ok(Told::NoTurn);
        }
        me.claim = Some(Claiming {
            turn,
            passed: 0,
            looked: false,
            met: false,
        });
        me.own.push_reserved(OwnTurn { turn, place: None });
        Ok(Told::Claimed(turn))
    }

    // Looks at the flags that stand with that of the next entry of the claimed turn's list.
    #[tactic(auto, using(crate::proofs::Machines::within, crate::proofs::Machines::refused))]
    pub(super) fn read_flags(&mut self, worker: u32) -> Result<Told, NotNow>
        requires { worker < length self.old.core.views }
        ensures { Answers self.old worker CoreEvent.Flags self.new result }
    {
        let claim = self.workers[worker as usize].may_read_flags(&self.dict)?;
        let programme = entry_at(&self.dict, claim.turn, claim.passed);
        let word = self.flags[flag_group(programme) as usize];
        let next = past_flags(&self.dict, claim, word);
        self.workers[worker as usize].claim = Some(next);
        Ok(Told::Flags(word))
    }

    // Reads the next entry of the claimed turn's list.
    #[tactic(auto, using(crate::proofs::Machines::within, crate::proofs::Machines::refused))]
    pub(super) fn read(&mut self, worker: u32) -> Result<Told, NotNow>
        requires { worker < length self.old.core.views }
        ensures { Answers self.old worker CoreEvent.Read self.new result }
    {
        let claim = self.workers[worker as usize].may_read(&self.dict)?;
        let open = has_seat(&self.dict, &self.seats, claim.turn, claim.passed);
        let me = &mut self.workers[worker as usize];
        if open {
            me.claim = Some(Claiming {
                turn: claim.turn,
                passed: claim.passed,
                looked: true,
                met: true,
            });
            return Ok(Told::Met);
        }
        me.claim = Some(Claiming {
            turn: claim.turn,
            passed: claim.passed + 1,
            looked: false,
            met: false,
        });
        Ok(Told::Passed)
    }

    // Posts the claimed turn at the place found.
    #[tactic(auto, using(crate::proofs::Machines::within, crate::proofs::Machines::refused))]
    pub(super) fn post(&mut self, worker: u32) -> Result<Told, NotNow>
        requires { worker < length self.old.core.views }
        ensures { Answers self.old worker CoreEvent.Post self.new result }
    {
        let claim = self.workers[worker as usize].may_post(&self.dict)?;
        self.cells[claim.turn as usize] = Cell::Posted(claim.passed);
        self.workers[worker as usize].post(claim.passed);
        Ok(Told::Posted(claim.passed))
    }
}
