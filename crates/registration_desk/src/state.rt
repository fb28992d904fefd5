// The desk of one thread.

ghost use Rattle.std.specs.Prelude.{◌≡◌, ◌<◌, ◌≤◌, [], length, IfOk, slice_get, slice_index, Some};
ghost use Rattle.registration_desk.specs.Replies.{IsHistory, IsReply, IsReplyAt, registrations};
ghost use Rattle.registration_desk.specs.Reports.{named_at, desk_numbers, replies_of};
ghost use Rattle.registration_desk.specs.States.{IsFresh, Numbered, replied};

use crate::reply::Reply;
use place_base::limits::MOST_REQUESTS;
use place_base::{CandidateNo, Finder};
use placement_file::SeatList;
use std::alloc::{AllocError, Global};
use std::marker::Model;

/// The placement, a list of requests, and the replies to the first of them, in order.
pub struct DeskState {
    seats: SeatList,
    requests: Vec<CandidateNo>,
    history: Vec<Reply>,
    // The registration number of each candidate of the placement, 0 where it has none.
    numbers: Vec<u32>,
    total: u32,
}

// By hand, so that letting one go is one call in the proof of whoever holds it.
impl Drop for DeskState {
    fn drop(self) {
        let Self {
            seats: _seats,
            requests: _requests,
            history: _history,
            numbers: _numbers,
            total: _,
        } = self;
    }
}

impl Model for DeskState {
    ghost use Rattle.std.specs.Prelude.{◌≡◌, ◌≤◌, length, vec_len, vec_capacity};
    ghost use Rattle.registration_desk.specs.States.{DeskValue, IsDesk};

    ghost Value = { DeskValue };

    ghost view = { λ d. record {
      seats = d.seats;
      requests = d.requests.items;
      history = d.history.items;
    } };

    ghost invariant = { λ d. (vec_len d.requests ≤ vec_capacity d.history)
        × IsDesk (record {
          seats = d.seats;
          requests = d.requests.items;
          history = d.history.items;
        }) d.numbers.items d.total };
}

impl DeskState {
    // The desk before its first reply. All its memory is taken here.
    pub(crate) fn new(
        alloc: Global,
        seats: SeatList,
        requests: Vec<CandidateNo>,
    ) -> Result<DeskState, AllocError>
        requires { length requests.items ≤ MOST_REQUESTS }
        ensures { IfOk result (IsFresh seats requests.items) }
    {
        let history = Vec::with_capacity(alloc, requests.len())?;
        let numbers = vec![in alloc; 0; seats.count() as usize]?;
        Ok(DeskState {
            seats,
            requests,
            history,
            numbers,
            total: 0,
        })
    }

    /// The number of requests.
    pub fn requests(&self) -> u32
        ensures count { result ≡ length self.now.requests }
        ensures few { length self.now.requests ≤ MOST_REQUESTS }
    {
        self.requests.len() as u32
    }

    /// The number of replies so far, at most that of the requests.
    pub fn calls(&self) -> u32
        ensures count { result ≡ length self.now.history }
        ensures within { length self.now.history ≤ length self.now.requests }
    {
        self.history.len() as u32
    }

    /// One of the replies so far, by its index.
    pub fn reply(&self, index: u32) -> Reply
        requires { index < length self.now.history }
        ensures entry { slice_get self.now.history index ≡ Some result }
        ensures fits { IsReplyAt self.now.seats self.now.requests self.now.history index result }
    {
        self.history[index as usize]
    }

    /// The number of registrations.
    pub fn total(&self) -> u32
        ensures { result ≡ registrations self.now.history }
    {
        self.total
    }

    // How many candidates the placement has.
    pub(crate) fn candidates(&self) -> u32
        ensures { result ≡ length self.now.seats }
    {
        self.seats.count()
    }

    // Once every request is answered: the number of the candidate at an index, where it is
    // registered.
    pub(crate) fn registered_at(&self, index: u32) -> Option<u64>
        requires all { length self.now.history ≡ length self.now.requests }
        requires index { index < length self.now.seats }
        ensures { result ≡ named_at self.now.seats self.now.requests index }
    {
        let _count = self.seats.count();
        if self.numbers[index as usize] == 0 {
            return None;
        }
        Some(self.seats.number_at(index))
    }

    // Once every request is answered: how many replies are of each kind.
    pub(crate) fn tells_kinds(&self)
        requires { length self.now.history ≡ length self.now.requests }
        ensures { replies_of self.now.history ≡ desk_numbers self.now.seats self.now.requests }
    {
        let _count = self.seats.count();
    }

    // What every history meets.
    pub(crate) fn checked(&self)
        ensures { IsHistory self.now.seats self.now.requests self.now.history }
    {
        let _ = &self.history;
    }

    /// Answers the first request that has no reply. It takes no memory.
    pub fn serve(&mut self) -> Reply
        requires { length self.old.history < length self.old.requests }
        ensures reply { IsReply self.old.seats self.old.requests self.old.history
            (slice_index self.old.requests (length self.old.history)) result }
        ensures desk { self.new ≡ replied self.old result }
        ensures history { IsHistory self.new.seats self.new.requests self.new.history }
    {
        let candidate = self.requests[self.history.len()];
        let reply = match self.seats.find(candidate.get()) {
            None => Reply::Unknown,
            Some(index) => match self.seats.code_at(index) {
                None => Reply::NotPlaced,
                Some(_) => reply_number(&mut self.numbers[index as usize], &mut self.total),
            },
        };
        self.history.push_reserved(reply);
        reply
    }
}

// The number kept for a placed candidate, or the next one where there is none.
fn reply_number(number: &mut u32, total: &mut u32) -> Reply
    requires { total.old < MOST_REQUESTS }
    ensures { Numbered number.old total.old result number.new total.new }
{
    if *number > 0 {
        return Reply::Already(*number);
    }
    *total += 1;
    *number = *total;
    Reply::Registered(*total)
}
