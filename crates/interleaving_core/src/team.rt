// The workers of the machine: what each knows, and which events that allows.

ghost use Rattle.std.specs.Prelude.{◌≡◌, ◌<◌, ◌≤◌, MatchResult, IfOk, vec_len, vec_capacity};
ghost use Rattle.market.specs.Dictatorships.{Dictatorship};
ghost use Rattle.interleaving_core.specs.declared.events.CoreEvent.{CoreEvent};
ghost use Rattle.interleaving_core.specs.declared.parts.Phase.{Phase};
ghost use Rattle.interleaving_core.specs.Core.{fresh_view};
ghost use Rattle.interleaving_core.specs.Events.{Claims, ReadsFlags, Reads, Posts, Takes, Looks, Weighs, Seats, Raises, Seals, Releases, IsAllowed, Refuses, after_post};

use crate::entries::list_length;
use crate::events::NotNow;
use crate::parts::{Claiming, Holding, OwnTurn, Phase};
use market::Dict;
use std::alloc::{AllocError, Global};

// What one worker knows.
#[derive(Drop)]
pub(crate) struct Worker {
    pub(crate) claim: Option<Claiming>,
    pub(crate) own: Vec<OwnTurn>,
    pub(crate) done: bool,
    pub(crate) owes: bool,
    pub(crate) hold: Option<Holding>,
}

impl Worker {
    ghost use Rattle.interleaving_core.specs.Machines.{view_of, IsWithin};

    // A worker at the opening, with room for each turn.
    pub(crate) fn new(alloc: Global, turns: u32) -> Result<Worker, AllocError>
        ensures fresh { IfOk result (λ w. view_of w ≡ fresh_view) }
        ensures room { IfOk result (λ w. turns ≤ vec_capacity w.own) }
    {
        Ok(Worker {
            claim: None,
            own: Vec::with_capacity(alloc, turns as usize)?,
            done: false,
            owes: false,
            hold: None,
        })
    }

    // Whether it may draw a turn.
    pub(crate) fn may_claim(&self) -> Result<(), NotNow>
        ensures { (d : Dictatorship) → MatchResult result
            (λ _. IsAllowed d (view_of self.now) Claims)
            (λ _. Refuses d (view_of self.now) CoreEvent.Claim) }
    {
        if self.claim.is_none() && self.hold.is_none() && !self.done && !self.owes {
            Ok(())
        } else {
            Err(NotNow)
        }
    }

    // The claim for whose next entry it may look at flags.
    pub(crate) fn may_read_flags(&self, dict: &Dict) -> Result<Claiming, NotNow>
        requires { IsWithin dict.now (view_of self.now) }
        ensures { MatchResult result
            (λ x. IsAllowed dict.now (view_of self.now) (ReadsFlags x.turn x.passed))
            (λ _. Refuses dict.now (view_of self.now) CoreEvent.Flags) }
    {
        let Some(claim) = self.claim else {
            return Err(NotNow);
        };
        if claim.looked || claim.met || claim.passed >= list_length(dict, claim.turn) {
            return Err(NotNow);
        }
        Ok(claim)
    }

    // The claim of which it may read the next entry.
    pub(crate) fn may_read(&self, dict: &Dict) -> Result<Claiming, NotNow>
        requires { IsWithin dict.now (view_of self.now) }
        ensures { MatchResult result
            (λ x. IsAllowed dict.now (view_of self.now) (Reads x.turn x.passed))
            (λ _. Refuses dict.now (view_of self.now) CoreEvent.Read) }
    {
        let Some(claim) = self.claim else {
            return Err(NotNow);
        };
        if !claim.looked || claim.met || claim.passed >= list_length(dict, claim.turn) {
            return Err(NotNow);
        }
        Ok(claim)
    }

    // The claim that it may post.
    pub(crate) fn may_post(&self, dict: &Dict) -> Result<Claiming, NotNow>
        requires { IsWithin dict.now (view_of self.now) }
        ensures { MatchResult result
            (λ x. IsAllowed dict.now (view_of self.now) (Posts x.turn x.passed x.looked x.met))
            (λ _. Refuses dict.now (view_of self.now) CoreEvent.Post) }
    {
        let Some(claim) = self.claim else {
            return Err(NotNow);
        };
        if !claim.met && claim.passed != list_length(dict, claim.turn) {
            return Err(NotNow);
        }
        Ok(claim)
    }

    // Whether it may try to take the mark.
    pub(crate) fn may_take(&self) -> Result<(), NotNow>
        ensures { (d : Dictatorship) → MatchResult result
            (λ _. IsAllowed d (view_of self.now) Takes)
            (λ _. Refuses d (view_of self.now) CoreEvent.Take) }
    {
        if self.claim.is_none() && self.hold.is_none() {
            Ok(())
        } else {
            Err(NotNow)
        }
    }

    // The turn whose cell it may look at.
    pub(crate) fn may_look(&self, dict: &Dict) -> Result<u32, NotNow>
        ensures { MatchResult result (λ c. IsAllowed dict.now (view_of self.now) (Looks c))
            (λ _. Refuses dict.now (view_of self.now) CoreEvent.Look) }
    {
        let Some(holding) = self.hold else {
            return Err(NotNow);
        };
        match holding.phase {
            Phase::Idle if holding.committed < dict.turns() => Ok(holding.committed),
            _ => Err(NotNow),
        }
    }

    // The turn and the place that it may weigh.
    pub(crate) fn may_weigh(&self, dict: &Dict) -> Result<(u32, u32), NotNow>
        requires { IsWithin dict.now (view_of self.now) }
        ensures { MatchResult result (λ x. IsAllowed dict.now (view_of self.now) (Weighs x.0 x.1))
            (λ _. Refuses dict.now (view_of self.now) CoreEvent.Weigh) }
    {
        let Some(holding) = self.hold else {
            return Err(NotNow);
        };
        let Phase::Scan(place) = holding.phase else {
            return Err(NotNow);
        };
        if place >= list_length(dict, holding.committed) {
            return Err(NotNow);
        }
        Ok((holding.committed, place))
    }

    // The turn and the place for which it may take a seat.
    pub(crate) fn may_seat(&self) -> Result<(u32, u32), NotNow>
        ensures { (d : Dictatorship) → MatchResult result
            (λ x. IsAllowed d (view_of self.now) (Seats x.0 x.1))
            (λ _. Refuses d (view_of self.now) CoreEvent.Seat) }
    {
        let Some(holding) = self.hold else {
            return Err(NotNow);
        };
        match holding.phase {
            Phase::Ready(place) => Ok((holding.committed, place)),
            _ => Err(NotNow),
        }
    }

    // The turn and the place whose programme's flag it may raise.
    pub(crate) fn may_raise(&self) -> Result<(u32, u32), NotNow>
        ensures { (d : Dictatorship) → MatchResult result
            (λ x. IsAllowed d (view_of self.now) (Raises x.0 x.1))
            (λ _. Refuses d (view_of self.now) CoreEvent.Raise) }
    {
        let Some(holding) = self.hold else {
            return Err(NotNow);
        };
        match holding.phase {
            Phase::Seated(place, true) => Ok((holding.committed, place)),
            _ => Err(NotNow),
        }
    }

    // The turn that it may commit, and the place.
    pub(crate) fn may_seal(&self, dict: &Dict) -> Result<(u32, u32), NotNow>
        requires { IsWithin dict.now (view_of self.now) }
        ensures { MatchResult result
            (λ x. (phase : Phase) × IsAllowed dict.now (view_of self.now) (Seals x.0 x.1 phase))
            (λ _. Refuses dict.now (view_of self.now) CoreEvent.Seal) }
    {
        let Some(holding) = self.hold else {
            return Err(NotNow);
        };
        let turn = holding.committed;
        match holding.phase {
            Phase::Seated(place, filled) if !filled => Ok((turn, place)),
            Phase::Raised(place) => Ok((turn, place)),
            Phase::Scan(place) if place == list_length(dict, turn) => Ok((turn, place)),
            _ => Err(NotNow),
        }
    }

    // The number of committed turns with which it may give the mark back.
    pub(crate) fn may_release(&self, dict: &Dict) -> Result<u32, NotNow>
        ensures { MatchResult result
            (λ c. (phase : Phase) × IsAllowed dict.now (view_of self.now) (Releases c phase))
            (λ _. Refuses dict.now (view_of self.now) CoreEvent.Release) }
    {
        let Some(holding) = self.hold else {
            return Err(NotNow);
        };
        match holding.phase {
            Phase::Halted => Ok(holding.committed),
            Phase::Idle if holding.committed == dict.turns() => Ok(holding.committed),
            _ => Err(NotNow),
        }
    }

    // Posts its claim at this place.
    pub(crate) fn post(&mut self, place: u32)
        requires { 0 < vec_len self.old.own }
        ensures view { view_of self.new ≡ after_post (view_of self.old) place }
        ensures room { vec_capacity self.new.own ≡ vec_capacity self.old.own }
    {
        let last = self.own.len() - 1;
        self.own[last].place = Some(place);
        self.claim = None;
        self.owes = true;
    }
}
