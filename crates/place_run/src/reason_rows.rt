// The reasons of a placement, as a text that is made a row at a time while it is written.

ghost use Rattle.std.specs.Prelude.{◌≡◌, ◌+◌, ◌++◌, ◌<◌, ◌≤◌, [], IfOk, length};
ghost use Rattle.std.specs.List.{flat_map, range_with_len};
ghost use Rattle.market.specs.Problems.{list_of};
ghost use Rattle.place_edges.specs.Sink.{IsWritten};
ghost use Rattle.candidate_table.specs.Table.{numbers_of};
ghost use Rattle.programme_table.specs.Table.{codes_of};
ghost use Rattle.record_files.specs.Texts.{IsShort, text_of};
ghost use Rattle.reports.specs.BaseTables.{IsBaseTable};
ghost use Rattle.place_run.specs.Placings.{IsNamedPlacement};
ghost use Rattle.place_run.specs.Texts.{IsQueued};
ghost use Rattle.place_run.specs.commands.Reasons.{candidate_rows, entry_row, reason_base as base_of, reason_word as word_of, reasons_text};

use crate::placing::Placed;
use crate::rank_fields::rank_field;
use place_base::Finder;
use place_edges::{Failed, Sink, write_whole};
use record_files::{Field, RowBuffer};
use reports::{BaseRanks, Reason, reason};
use std::marker::Model;

// A placement with its base ranks. Contracts see the text of its reasons.
pub(crate) struct ReasonRows {
    placed: Placed,
    bases: BaseRanks,
}

// By hand, so that letting one go is one call in the proof of whoever holds it.
impl Drop for ReasonRows {
    fn drop(self) {
        let Self {
            placed: _placed,
            bases: _bases,
        } = self;
    }
}

impl Model for ReasonRows {
    ghost use Rattle.std.specs.Prelude.{ℕ, List};
    ghost use Rattle.candidate_table.specs.Table.{numbers_of};
    ghost use Rattle.programme_table.specs.Table.{codes_of};
    ghost use Rattle.place_run.specs.commands.Reasons.{reasons_text};
    ghost use Rattle.place_run.specs.Placings.{AreReasonRows};

    ghost Value = { List ℕ };

    ghost view = { λ r. reasons_text (codes_of r.placed.problem.programmes.rows)
        (numbers_of r.placed.problem.numbers) r.placed.problem.market r.placed.placement };

    ghost invariant = { λ r. AreReasonRows r.placed r.bases };
}

impl ReasonRows {
    // The reasons of this placement, which has these base ranks. It takes no memory.
    pub(crate) fn new(placed: Placed, bases: BaseRanks) -> ReasonRows
        requires named { IsNamedPlacement placed.problem placed.placement }
        requires bases { IsBaseTable placed.problem.market placed.placement bases }
        ensures { result ≡ reasons_text (codes_of placed.problem.programmes.rows)
            (numbers_of placed.problem.numbers) placed.problem.market placed.placement }
    {
        ReasonRows { placed, bases }
    }

    // Writes the text, and takes no memory for it.
    pub(crate) fn write<K: Sink>(&self, out: &mut K) -> Result<(), Failed>
        ensures { IsWritten self.now result (K.written out.old) (K.written out.new)
            (K.faults out.old) (K.faults out.new) }
    {
        write_reasons(&self.placed, &self.bases, out)
    }
}

// Writes the reasons of a placement with these base ranks: a header, and then the rows. They pass
// through a buffer, so that the sink gets many rows at once.
fn write_reasons<K: Sink>(placed: &Placed, bases: &BaseRanks, out: &mut K) -> Result<(), Failed>
    requires named { IsNamedPlacement placed.now.problem placed.now.placement }
    requires bases { IsBaseTable placed.now.problem.market placed.now.placement bases.now }
    ensures { IsWritten (reasons_text (codes_of placed.now.problem.programmes.rows)
        (numbers_of placed.now.problem.numbers) placed.now.problem.market placed.now.placement)
        result (K.written out.old) (K.written out.new) (K.faults out.old) (K.faults out.new) }
{
    let mut rows = RowBuffer::new();
    rows.put_row_4(
        Field::Text(b"candidate"),
        Field::Text(b"programme"),
        Field::Text(b"reason"),
        Field::Text(b"base"),
    );
    queue_rows(placed, bases, &mut rows, out)?;
    write_whole(out, rows.bytes())
}

// Queues the rows of a candidate after the other.
fn queue_rows<K: Sink>(
    placed: &Placed,
    bases: &BaseRanks,
    rows: &mut RowBuffer,
    out: &mut K,
) -> Result<(), Failed>
    requires named { IsNamedPlacement placed.now.problem placed.now.placement }
    requires bases { IsBaseTable placed.now.problem.market placed.now.placement bases.now }
    ensures { IsQueued (flat_map (candidate_rows (codes_of placed.now.problem.programmes.rows)
        (numbers_of placed.now.problem.numbers) placed.now.problem.market placed.now.placement)
        (range_with_len 0 (length placed.now.problem.market.lists)))
        result rows.old rows.new (K.written out.old) (K.written out.new)
        (K.faults out.old) (K.faults out.new) }
{
    for candidate in 0..placed.problem.market.candidate_count() {
        queue_candidate(placed, bases, candidate, rows, out)?;
    }
    Ok(())
}

// Queues the rows of a candidate.
fn queue_candidate<K: Sink>(
    placed: &Placed,
    bases: &BaseRanks,
    candidate: u32,
    rows: &mut RowBuffer,
    out: &mut K,
) -> Result<(), Failed>
    requires named { IsNamedPlacement placed.now.problem placed.now.placement }
    requires bases { IsBaseTable placed.now.problem.market placed.now.placement bases.now }
    requires candidate { candidate < length placed.now.problem.market.lists }
    ensures { IsQueued (candidate_rows (codes_of placed.now.problem.programmes.rows)
        (numbers_of placed.now.problem.numbers) placed.now.problem.market placed.now.placement
        candidate) result rows.old rows.new (K.written out.old) (K.written out.new)
        (K.faults out.old) (K.faults out.new) }
{
    let places = placed.problem.market.list(candidate).len() as u32;
    for place in 0..places {
        make_room(rows, out)?;
        put_entry(rows, placed, bases, candidate, place);
    }
    Ok(())
}

// How many bytes are free where a row is put.
const ROW: u32 = 96;

// Writes what is queued where the buffer has no room for a row.
fn make_room<K: Sink>(rows: &mut RowBuffer, out: &mut K) -> Result<(), Failed>
    ensures queued { IsQueued [] result rows.old rows.new (K.written out.old) (K.written out.new)
        (K.faults out.old) (K.faults out.new) }
    ensures room { IfOk result (λ _. length rows.new + 96 ≤ 4096) }
    ensures kept { length rows.old + 96 ≤ 4096 → (rows.new ≡ rows.old) × (out.new ≡ out.old) }
{
    if rows.room() < ROW {
        write_whole(out, rows.bytes())?;
        rows.clear();
    }
    Ok(())
}

// Appends the row of the entry at a place of a candidate's list.
fn put_entry(rows: &mut RowBuffer, placed: &Placed, bases: &BaseRanks, candidate: u32, place: u32)
    requires room { length rows.old + 96 ≤ 4096 }
    requires named { IsNamedPlacement placed.now.problem placed.now.placement }
    requires bases { IsBaseTable placed.now.problem.market placed.now.placement bases.now }
    requires candidate { candidate < length placed.now.problem.market.lists }
    requires place { place < length (list_of placed.now.problem.market candidate) }
    ensures { rows.new ≡ rows.old ++ entry_row (codes_of placed.now.problem.programmes.rows)
        (numbers_of placed.now.problem.numbers) placed.now.problem.market placed.now.placement
        candidate place }
{
    let problem = &placed.problem;
    let programme = problem.market.list(candidate)[place as usize];
    let reason = reason(&problem.market, &placed.placement, bases, candidate, place);
    rows.put_row_4(
        Field::Number(problem.numbers.number_at(candidate)),
        Field::Number(problem.programmes.number_at(programme)),
        Field::Text(reason_word(reason).as_bytes()),
        reason_base(reason),
    );
}

// The word of a reason.
fn reason_word(reason: Reason) -> &'static str
    ensures word { result.now ≡ word_of reason }
    ensures short { length result.now ≤ 16 }
{
    match reason {
        Reason::Placed => "PLACED",
        Reason::Below => "BELOW",
        Reason::NoRank => "NORANK",
        Reason::Bar(_) => "BAR",
        Reason::Full(_) => "FULL",
    }
}

// The bar or the base rank that stands beside a reason, a dash for none.
fn reason_base(reason: Reason) -> Field<'static>
    ensures text { text_of result ≡ base_of reason }
    ensures short { IsShort result }
    ensures len { length (text_of result) ≤ 20 }
{
    match reason {
        Reason::Bar(bar) => rank_field(Some(bar)),
        Reason::Full(base) => rank_field(base),
        Reason::Placed | Reason::Below | Reason::NoRank => Field::Text(b"-"),
    }
}
