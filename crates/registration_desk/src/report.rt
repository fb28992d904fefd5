// What a desk prints once every request is answered.

ghost use Rattle.std.specs.Prelude.{◌≡◌, ◌<◌, ◌≤◌, IfOk, length};
ghost use Rattle.registration_desk.specs.Replies.{registrations};
ghost use Rattle.registration_desk.specs.Reports.{no_numbers, registered_text, replies_of, report_on, with_reply};

use crate::crew::serve_all;
use crate::desk::MOST_CLERKS;
use crate::gate::DeskGate;
use crate::reply::Reply;
use crate::state::DeskState;
use place_base::CandidateNo;
use place_base::limits::MOST_REQUESTS;
use placement_file::SeatList;
use record_files::{Field, put_row_1};
use std::alloc::{AllocError, Global};
use std::marker::Model;
use std::sync::Wait;
use std::thread::Threads;

/// The numbers of a desk's line of notes.
#[derive(Clone, Copy, PartialEq, Eq, Debug)]
pub struct DeskNumbers {
    /// Placed candidates whom a request names: the replies that register one.
    pub registered: u32,
    /// Requests of placed candidates beyond the first of each.
    pub again: u32,
    /// Requests of listed candidates who hold none.
    pub not_placed: u32,
    /// The other requests.
    pub unknown: u32,
}

/// What a desk has ready before its first byte is written: its text, and the numbers of its line.
#[derive(Drop)]
pub struct Report {
    text: Vec<u8>,
    numbers: DeskNumbers,
}

impl Model for Report {
    ghost use Rattle.registration_desk.specs.Reports.{DeskReport};

    ghost Value = { DeskReport };

    ghost view = { λ r. record { text = r.text.items; numbers = r.numbers } };
}

impl Report {
    /// The text.
    pub fn text(&self) -> &[u8]
        ensures { result.now ≡ self.now.text }
    {
        &self.text
    }

    /// The numbers of the line.
    pub fn numbers(&self) -> DeskNumbers
        ensures { result ≡ self.now.numbers }
    {
        self.numbers
    }
}

/// The report of 1 to 64 clerks who answer every request: a function of the placement and the
/// requests, whichever clerk served which, and in whatever order they came.
pub fn report_all<R: Threads + Wait + Sync, G: DeskGate>(
    rt: &R,
    alloc: Global,
    seats: SeatList,
    requests: Vec<CandidateNo>,
    clerks: u32,
    gate: &G,
) -> Result<Report, AllocError>
    requires few { length requests.items ≤ MOST_REQUESTS }
    requires clerks { (1 ≤ clerks) × (clerks ≤ MOST_CLERKS) }
    ensures { IfOk result (λ report. report ≡ report_on seats requests.items) }
{
    let desk = serve_all(rt, alloc, seats, requests, clerks, gate)?;
    report_of(alloc, &desk)
}

/// The report of a desk at which every request is answered: a function of the placement and the
/// requests alone.
pub fn report_of(alloc: Global, desk: &DeskState) -> Result<Report, AllocError>
    requires { length desk.now.history ≡ length desk.now.requests }
    ensures report { IfOk result (λ report.
        report ≡ report_on desk.now.seats desk.now.requests) }

    // The numbers are also those of the replies, and the first of them is the desk's total.
    ensures replies { IfOk result (λ report. report.numbers ≡ replies_of desk.now.history) }
    ensures total { IfOk result (λ report.
        report.numbers.registered ≡ registrations desk.now.history) }
{
    let text = registered_of(alloc, desk)?;
    desk.tells_kinds();
    let numbers = count_replies(desk);
    Ok(Report { text, numbers })
}

// The text.
fn registered_of(alloc: Global, desk: &DeskState) -> Result<Vec<u8>, AllocError>
    requires { length desk.now.history ≡ length desk.now.requests }
    ensures { IfOk result (λ text.
        text.items ≡ registered_text desk.now.seats desk.now.requests) }
{
    let mut text = Vec::new(alloc);
    put_row_1(&mut text, Field::Text(b"candidate"))?;
    for index in 0..desk.candidates() {
        if let Some(number) = desk.registered_at(index) {
            put_row_1(&mut text, Field::Number(number))?;
        }
    }
    Ok(text)
}

// How many replies are of each kind.
fn count_replies(desk: &DeskState) -> DeskNumbers
    requires { length desk.now.history ≡ length desk.now.requests }
    ensures { result ≡ replies_of desk.now.history }
{
    let mut numbers = DeskNumbers::none();
    for index in 0..desk.requests() {
        numbers.count(desk.reply(index));
    }
    numbers
}

impl DeskNumbers {
    // No numbers.
    pub(crate) fn none() -> DeskNumbers
        ensures { result ≡ no_numbers }
    {
        DeskNumbers {
            registered: 0,
            again: 0,
            not_placed: 0,
            unknown: 0,
        }
    }

    // Counts one more reply.
    fn count(&mut self, reply: Reply)
        requires registered { self.old.registered < MOST_REQUESTS }
        requires again { self.old.again < MOST_REQUESTS }
        requires not_placed { self.old.not_placed < MOST_REQUESTS }
        requires unknown { self.old.unknown < MOST_REQUESTS }
        ensures { self.new ≡ with_reply self.old reply }
    {
        match reply {
            Reply::Registered(_) => self.registered += 1,
            Reply::Already(_) => self.again += 1,
            Reply::NotPlaced => self.not_placed += 1,
            Reply::Unknown => self.unknown += 1,
        }
    }
}
