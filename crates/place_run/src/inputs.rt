// The three tables of a market, read from their files, and a placement file beside them.
ghost use Rattle.std.specs.Prelude.{◌≡◌, ◌≤◌, ◌<◌, ℕ, All, IfOk, IsTrue, Some, length};
ghost use Rattle.command_words.specs.Words.{texts};
ghost use Rattle.place_base.specs.declared.limits.TheConstants.{MOST_PIECES};
ghost use Rattle.programme_table.specs.Table.{codes_of};
ghost use Rattle.candidate_table.specs.Table.{IsPreferenceList, numbers_of};
ghost use Rattle.market.specs.Stability.{held_by};
ghost use Rattle.place_edges.specs.Shelf.{file_limit};
ghost use Rattle.placement_file.specs.Rows.{placement_fault};
ghost use Rattle.placement_file.specs.Table.{placement_in};
ghost use Rattle.record_files.specs.ReadTo.{IsTableRead};
ghost use Rattle.run_frame.specs.Files.{IsJudged, moment};
ghost use Rattle.run_frame.specs.Plans.{AreRead, MayOpen};
ghost use Rattle.place_run.specs.Says.{named, tables_plan, word_at};
ghost use Rattle.place_run.specs.Tables.{programmes_said, candidates_said, placement_said, ranks_said, registrations_said};
ghost use Rattle.place_run.specs.commands.Sweep.{programme_with};

use crate::registrations::Registrations;
use crate::status::Stop;
use candidate_table::CandidateTable;
use market::Placement;
use place_base::{FileKind, Finder};
use place_edges::Shelf;
use placement_file::read_placement;
use programme_table::ProgrammeTable;
use rank_lists::RankLists;
use record_files::TableStop;
use run_frame::{FileStop, read_file, table_or_stop};
use std::alloc::Global;
use std::marker::Model;
use std::thread::Threads;

// The three tables of a market. Each speaks only of what those before it hold.
pub(crate) struct Inputs {
    programmes: ProgrammeTable,
    candidates: CandidateTable,
    ranks: RankLists,
}

// By hand, so that letting one go is one call in the proof of whoever holds it.
impl Drop for Inputs {
    fn drop(self) {
        let Self {
            programmes: _programmes,
            candidates: _candidates,
            ranks: _ranks,
        } = self;
    }
}

impl Model for Inputs {
    ghost use Rattle.place_run.specs.Tables.{DoFit, Tables};

    ghost Value = { Tables };

    ghost view = { λ i. record {
      programmes = i.programmes;
      candidates = i.candidates;
      ranks = i.ranks;
    } };

    ghost invariant = { λ i. DoFit (record {
      programmes = i.programmes;
      candidates = i.candidates;
      ranks = i.ranks;
    }) };
}

impl Inputs {
    // Reads the files that the words 2 to 4 name: each is read and judged before the next is
    // opened.
    pub(crate) fn read<R: Threads + Sync, H: Shelf>(
        rt: &R,
        alloc: Global,
        words: &[String],
        shelf: &mut H,
        pieces: u32,
    ) -> Result<Inputs, Stop>
        requires words { 4 ≤ length words.now }
        requires granted { MayOpen (H.files shelf.old) (H.grants shelf.old)
            (named (texts words.now)) tables_plan }
        requires pieces { (1 ≤ pieces) × (pieces ≤ MOST_PIECES) }
        ensures reading { AreRead (H.files shelf.old) (named (texts words.now)) tables_plan result
            (moment H.faults H.tally shelf.old) (moment H.faults H.tally shelf.new) }
        ensures files { H.files shelf.new ≡ H.files shelf.old }
        ensures grants { H.grants shelf.new ≡ H.grants shelf.old }
    {
        let programmes = read_programmes(rt, alloc, shelf, word(words, 1), pieces)?;
        let candidates = read_candidates(rt, alloc, shelf, word(words, 2), pieces, &programmes)?;
        let name = word(words, 3);
        let ranks = read_ranks(rt, alloc, shelf, name, pieces, &programmes, &candidates)?;
        Ok(Inputs {
            programmes,
            candidates,
            ranks,
        })
    }

    // Reads the named placement file, beside the tables.
    pub(crate) fn read_placement<H: Shelf>(
        &self,
        alloc: Global,
        shelf: &mut H,
        name: &str,
    ) -> Result<Placement, FileStop>
        requires { IsTrue (H.grants shelf.old name.now) }
        ensures judged { IsJudged (H.files shelf.old) name.now
            (placement_said (codes_of self.now.programmes.rows)
            (numbers_of self.now.candidates.numbers)) result
            (moment H.faults H.tally shelf.old) (moment H.faults H.tally shelf.new) }
        ensures candidates { IfOk result (λ held.
            length held ≡ length self.now.candidates.numbers) }
        ensures programmes { IfOk result (λ held. (i p : ℕ) → held_by held i ≡ Some p
            → p < length (codes_of self.now.programmes.rows)) }
        ensures files { H.files shelf.new ≡ H.files shelf.old }
        ensures grants { H.grants shelf.new ≡ H.grants shelf.old }
    {
        let bytes = read_file(alloc, shelf, name, FileKind::Placement)?;
        table_or_stop(read_held(alloc, &bytes, &self.programmes, &self.candidates))
    }

    // Reads the named registrations file, beside the tables.
    pub(crate) fn read_registrations<H: Shelf>(
        &self,
        alloc: Global,
        shelf: &mut H,
        name: &str,
    ) -> Result<Registrations, FileStop>
        requires { IsTrue (H.grants shelf.old name.now) }
        ensures judged { IsJudged (H.files shelf.old) name.now
            (registrations_said (numbers_of self.now.candidates.numbers)) result
            (moment H.faults H.tally shelf.old) (moment H.faults H.tally shelf.new) }
        ensures candidates { IfOk result (λ registered.
            length registered ≡ length self.now.candidates.numbers) }
        ensures files { H.files shelf.new ≡ H.files shelf.old }
        ensures grants { H.grants shelf.new ≡ H.grants shelf.old }
    {
        let bytes = read_file(alloc, shelf, name, FileKind::Registrations)?;
        table_or_stop(Registrations::read(alloc, &bytes, &self.candidates))
    }

    // The index of the programme with this code, or `None` where no programme has it.
    pub(crate) fn find_programme(&self, code: u32) -> Option<u32>
        ensures { result ≡ programme_with code (codes_of self.now.programmes.rows) }
    {
        self.programmes.find(u64::from(code))
    }

    // The tables, which are not copied.
    pub(crate) fn into_parts(self) -> (ProgrammeTable, CandidateTable, RankLists)
        ensures programmes { result.0 ≡ self.programmes }
        ensures candidates { result.1 ≡ self.candidates }
        ensures ranks { result.2 ≡ self.ranks }
        ensures lists { All (IsPreferenceList (length (codes_of self.programmes.rows)))
            self.candidates.lists }
        ensures types { length self.ranks.orders ≡ length self.programmes.names }
        ensures numbers { self.ranks.candidates ≡ length self.candidates.numbers }
    {
        let Self {
            programmes,
            candidates,
            ranks,
        } = self;
        (programmes, candidates, ranks)
    }
}

// The placement of a file of at most 2^30 bytes, or its first fault.
fn read_held(
    alloc: Global,
    bytes: &[u8],
    programmes: &ProgrammeTable,
    candidates: &CandidateTable,
) -> Result<Placement, TableStop>
    requires { length bytes.now ≤ file_limit }
    ensures read { IsTableRead
        (placement_fault (codes_of programmes.now.rows) (numbers_of candidates.now.numbers)
        bytes.now)
        (placement_in (codes_of programmes.now.rows) (numbers_of candidates.now.numbers) bytes.now)
        result }
    ensures candidates { IfOk result (λ held. length held ≡ length candidates.now.numbers) }
    ensures programmes { IfOk result (λ held. (i p : ℕ) → held_by held i ≡ Some p
        → p < length (codes_of programmes.now.rows)) }
{
    let held = read_placement(alloc, bytes, programmes, candidates)?;
    Ok(Placement::from_vec(held))
}

// The word at a place, counted from 0.
pub(crate) fn word(words: &[String], place: usize) -> &str
    requires { place < length words.now }
    ensures { result.now ≡ word_at (texts words.now) place }
{
    words[place].as_str()
}

// Reads the programmes file.
fn read_programmes<R: Threads + Sync, H: Shelf>(
    rt: &R,
    alloc: Global,
    shelf: &mut H,
    name: &str,
    pieces: u32,
) -> Result<ProgrammeTable, FileStop>
    requires granted { IsTrue (H.grants shelf.old name.now) }
    requires pieces { (1 ≤ pieces) × (pieces ≤ MOST_PIECES) }
    ensures judged { IsJudged (H.files shelf.old) name.now programmes_said result
        (moment H.faults H.tally shelf.old) (moment H.faults H.tally shelf.new) }
    ensures files { H.files shelf.new ≡ H.files shelf.old }
    ensures grants { H.grants shelf.new ≡ H.grants shelf.old }
{
    let bytes = read_file(alloc, shelf, name, FileKind::Programmes)?;
    table_or_stop(ProgrammeTable::read(rt, alloc, &bytes, pieces))
}

// Reads the candidates file, beside the programmes.
fn read_candidates<R: Threads + Sync, H: Shelf>(
    rt: &R,
    alloc: Global,
    shelf: &mut H,
    name: &str,
    pieces: u32,
    programmes: &ProgrammeTable,
) -> Result<CandidateTable, FileStop>
    requires granted { IsTrue (H.grants shelf.old name.now) }
    requires pieces { (1 ≤ pieces) × (pieces ≤ MOST_PIECES) }
    ensures judged { IsJudged (H.files shelf.old) name.now
        (candidates_said (codes_of programmes.now.rows)) result
        (moment H.faults H.tally shelf.old) (moment H.faults H.tally shelf.new) }
    ensures lists { IfOk result (λ table.
        All (IsPreferenceList (length (codes_of programmes.now.rows))) table.lists) }
    ensures files { H.files shelf.new ≡ H.files shelf.old }
    ensures grants { H.grants shelf.new ≡ H.grants shelf.old }
{
    let bytes = read_file(alloc, shelf, name, FileKind::Candidates)?;
    table_or_stop(CandidateTable::read(rt, alloc, &bytes, pieces, programmes))
}

// Reads the ranks file, beside the types of the programmes and the candidates.
fn read_ranks<R: Threads + Sync, H: Shelf>(
    rt: &R,
    alloc: Global,
    shelf: &mut H,
    name: &str,
    pieces: u32,
    programmes: &ProgrammeTable,
    candidates: &CandidateTable,
) -> Result<RankLists, FileStop>
    requires granted { IsTrue (H.grants shelf.old name.now) }
    requires pieces { (1 ≤ pieces) × (pieces ≤ MOST_PIECES) }
    ensures judged { IsJudged (H.files shelf.old) name.now
        (ranks_said programmes.now.names (numbers_of candidates.now.numbers)) result
        (moment H.faults H.tally shelf.old) (moment H.faults H.tally shelf.new) }
    ensures types { IfOk result (λ lists. length lists.orders ≡ length programmes.now.names) }
    ensures candidates { IfOk result (λ lists. lists.candidates ≡ length candidates.now.numbers) }
    ensures files { H.files shelf.new ≡ H.files shelf.old }
    ensures grants { H.grants shelf.new ≡ H.grants shelf.old }
{
    let bytes = read_file(alloc, shelf, name, FileKind::Ranks)?;
    table_or_stop(RankLists::read(rt, alloc, &bytes, pieces, programmes, candidates))
}
