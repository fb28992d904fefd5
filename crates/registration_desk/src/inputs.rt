// The placement and the requests, read from their files.

ghost use Rattle.std.specs.Prelude.{◌≡◌, ◌≤◌, ◌<◌, IsTrue, Some, length};
ghost use Rattle.place_base.specs.declared.fault.FileKind.TheVariants as file;
ghost use Rattle.placement_file.specs.Requests.{requests_fault, requests_in};
ghost use Rattle.record_files.specs.ReadTo.{IsTableRead};
ghost use Rattle.run_frame.specs.Files.{IsJudged, moment};
ghost use Rattle.run_frame.specs.Plans.{AreRead, MayOpen};
ghost use Rattle.registration_desk.specs.Says.{both_plan, named, placement_said, requests_said};
ghost use Rattle.registration_desk.specs.Words.{texts, word_at};

use crate::status::Stop;
use place_base::limits::{LARGEST_FILE, MOST_REQUESTS};
use place_base::{CandidateNo, FileKind};
use place_edges::Shelf;
use placement_file::{SeatList, read_alone, read_requests};
use record_files::TableStop;
use run_frame::{FileStop, read_file, table_or_stop};
use std::alloc::Global;
use std::marker::Model;

// The requests of a file, in order.
#[derive(Drop)]
pub(crate) struct RequestList {
    candidates: Vec<CandidateNo>,
}

impl Model for RequestList {
    ghost use Rattle.std.specs.Prelude.{ℕ, List, length, ◌≤◌};
    ghost use Rattle.place_base.specs.declared.limits.TheConstants.{MOST_REQUESTS};

    ghost Value = { List ℕ };

    ghost view = { λ r. r.candidates.items };

    ghost invariant = { λ r. length r.candidates.items ≤ MOST_REQUESTS };
}

// The placement and the requests.
#[derive(Drop)]
pub(crate) struct Inputs {
    placement: SeatList,
    requests: RequestList,
}

impl Model for Inputs {
    ghost use Rattle.registration_desk.specs.Says.{DeskFiles};

    ghost Value = { DeskFiles };

    ghost view = { λ i. record { placement = i.placement; requests = i.requests } };
}

impl Inputs {
    // Reads the files that the first two words name: the placement is read and judged before the
    // registrations are opened.
    pub(crate) fn read<H: Shelf>(
        alloc: Global,
        words: &[String],
        shelf: &mut H,
    ) -> Result<Inputs, Stop>
        requires words { 2 ≤ length words.now }
        requires granted { MayOpen (H.files shelf.old) (H.grants shelf.old)
            (named (texts words.now)) both_plan }
        ensures reading { AreRead (H.files shelf.old) (named (texts words.now)) both_plan result
            (moment H.faults H.tally shelf.old) (moment H.faults H.tally shelf.new) }
        ensures files { H.files shelf.new ≡ H.files shelf.old }
        ensures grants { H.grants shelf.new ≡ H.grants shelf.old }
    {
        let placement = read_placement(alloc, shelf, word(words, 0))?;
        let requests = read_request_list(alloc, shelf, word(words, 1))?;
        Ok(Inputs {
            placement,
            requests,
        })
    }

    // The placement and the requests, which are not copied.
    pub(crate) fn into_parts(self) -> (SeatList, Vec<CandidateNo>)
        ensures placement { result.0 ≡ self.placement }
        ensures requests { result.1.items ≡ self.requests }
        ensures few { length self.requests ≤ MOST_REQUESTS }
    {
        (self.placement, self.requests.into_vec())
    }
}

impl RequestList {
    // The requests themselves.
    fn into_vec(self) -> Vec<CandidateNo>
        ensures requests { result.items ≡ self }
        ensures few { length self ≤ MOST_REQUESTS }
    {
        self.candidates
    }
}

// The word at an index.
fn word(words: &[String], place: usize) -> &str
    requires { place < length words.now }
    ensures { result.now ≡ word_at (texts words.now) place }
{
    words[place].as_str()
}

// Reads the placement file.
fn read_placement<H: Shelf>(alloc: Global, shelf: &mut H, name: &str) -> Result<SeatList, FileStop>
    requires { IsTrue (H.grants shelf.old name.now) }
    ensures judged { IsJudged (H.files shelf.old) name.now placement_said result
        (moment H.faults H.tally shelf.old) (moment H.faults H.tally shelf.new) }
    ensures files { H.files shelf.new ≡ H.files shelf.old }
    ensures grants { H.grants shelf.new ≡ H.grants shelf.old }
{
    let bytes = read_file(alloc, shelf, name, FileKind::Placement)?;
    table_or_stop(read_alone(alloc, &bytes))
}

// Reads the registrations file.
fn read_request_list<H: Shelf>(
    alloc: Global,
    shelf: &mut H,
    name: &str,
) -> Result<RequestList, FileStop>
    requires { IsTrue (H.grants shelf.old name.now) }
    ensures judged { IsJudged (H.files shelf.old) name.now requests_said result
        (moment H.faults H.tally shelf.old) (moment H.faults H.tally shelf.new) }
    ensures files { H.files shelf.new ≡ H.files shelf.old }
    ensures grants { H.grants shelf.new ≡ H.grants shelf.old }
{
    let bytes = read_file(alloc, shelf, name, FileKind::Registrations)?;
    table_or_stop(request_list(alloc, &bytes))
}

// The requests of a file.
fn request_list(alloc: Global, bytes: &[u8]) -> Result<RequestList, TableStop>
    requires { length bytes.now ≤ LARGEST_FILE }
    ensures { IsTableRead (requests_fault bytes.now) (requests_in bytes.now) result }
{
    let candidates = read_requests(alloc, bytes)?;
    Ok(RequestList { candidates })
}
