// Rows and their fields.
ghost use Rattle.std.specs.Prelude.{◌≡◌, ℕ, ◌^◌, ◌≤◌, ◌<◌, ◌∷◌, ◌+◌, [], length, take, drop, slice_get, slice_index, Some, MatchOption};
ghost use Rattle.record_files.specs.Cuts.{IsCutAt};
ghost use Rattle.std.specs.Str.Lines.{strip_carriage_return};
ghost use Rattle.record_files.specs.Rows.{rows, part_rows, split, without_mark, fields_of, field_at};

use memchr::memchr;
use place_base::limits::{BYTE_ORDER_MARK, COMMA, CR, LARGEST_FILE, LF};
use std::marker::Model;

/// A stretch of a file, from a byte up to another.
#[derive(Clone, Copy, Debug, PartialEq, Eq)]
pub struct RowPart {
    /// The byte at which it starts.
    pub start: u32,
    /// The byte up to which it goes.
    pub end: u32,
    /// The number of its first line, from 1.
    pub line: u32,
}

/// A line of a file that is not empty, cut into fields at its commas. Contracts see it as the
/// number of its line and its text.
#[derive(Drop)]
pub struct RecordRow<'a> {
    line: u32,
    bytes: &'a [u8],
    cuts: Cuts,
}

impl<'a> Model for RecordRow<'a> {
    ghost use Rattle.std.specs.Prelude.{ℕ, List, ◌≤◌, length};
    ghost use Rattle.place_base.specs.declared.limits.TheConstants.{LARGEST_FILE};
    ghost use Rattle.record_files.specs.Cuts.{IsCutAt};

    ghost Value = { ℕ × List ℕ };

    ghost view = { λ row. (row.line, row.bytes.now) };

    ghost invariant = { λ row. (length row.bytes.now ≤ LARGEST_FILE)
        × IsCutAt row.bytes.now row.cuts.ends row.cuts.count };
}

impl<'a> RecordRow<'a> {
    // A row of this text.
    fn new(line: u32, bytes: &'a [u8]) -> RecordRow<'a>
        requires { length bytes.now ≤ LARGEST_FILE }
        ensures { result ≡ (line, bytes.entry.now) }
    {
        RecordRow {
            line,
            bytes,
            cuts: cut(bytes),
        }
    }

    /// The number of the line, from 1.
    pub fn line(&self) -> u32
        ensures { result ≡ self.now.0 }
    {
        self.line
    }

    /// The bytes of the line, without its end.
    pub fn bytes(&self) -> &'a [u8]
        ensures { result.now ≡ self.now.1 }
    {
        self.bytes
    }

    /// How many fields there are, one more than the commas.
    pub fn field_count(&self) -> u32
        ensures { result ≡ length (fields_of self.now) }
    {
        self.cuts.count
    }

    /// The bytes of the field at an index, from 0.
    pub fn field(&self, index: u32) -> &'a [u8]
        requires { index < length (fields_of self.now) }
        ensures { result.now ≡ field_at self.now index }
    {
        match index {
            0 => &self.bytes[..self.cuts.ends[0] as usize],
            1..=3 => {
                let start = self.cuts.ends[index as usize - 1] as usize + 1;
                &self.bytes[start..self.cuts.ends[index as usize] as usize]
            }
            _ => later_field(self.bytes, index),
        }
    }
}

// Where the first four fields of a text end, and how many fields it has.
#[derive(Clone, Copy)]
struct Cuts {
    ends: [u32; 4],
    count: u32,
}

impl Cuts {
    // Adds a field that ends here.
    fn add(&mut self, end: u32)
        requires { self.old.count < 2 ^ 31 }
        ensures count { self.new.count ≡ self.old.count + 1 }
        ensures here { self.old.count < 4 → slice_index self.new.ends self.old.count ≡ end }
        ensures before { (k : ℕ) → k < self.old.count
            → slice_index self.new.ends k ≡ slice_index self.old.ends k }
    {
        if self.count < 4 {
            self.ends[self.count as usize] = end;
        }
        self.count += 1;
    }
}

// The cuts of a text at its commas.
fn cut(text: &[u8]) -> Cuts
    requires { length text.now ≤ LARGEST_FILE }
    ensures { IsCutAt text.now result.ends result.count }
{
    let mut cuts = Cuts {
        ends: [0; 4],
        count: 0,
    };
    let mut start = 0;
    'fields: loop {
        let end = start + find_byte(COMMA, &text[start..]);
        cuts.add(end as u32);
        if end == text.len() {
            return cuts;
        }
        start = end + 1;
    }
}

// The field at an index, found from the start of the text.
fn later_field(text: &[u8], index: u32) -> &[u8]
    requires short { length text.now ≤ LARGEST_FILE }
    requires there { index < length (split COMMA text.now) }
    ensures { slice_get (split COMMA text.entry.now) index ≡ Some result.now }
{
    let mut rest = text;
    for _ in 0..index {
        let at = find_byte(COMMA, rest);
        rest = &rest[at + 1..];
    }
    &rest[..find_byte(COMMA, rest)]
}

/// The rows of a file, one after the other. Contracts see it as the list of the rows left.
#[derive(Drop)]
pub struct Records<'a> {
    rest: &'a [u8],
    line: u32,
    done: bool,
}

impl<'a> Model for Records<'a> {
    ghost use Rattle.std.specs.Prelude.{ℕ, List, ◌+◌, ◌^◌, ◌≤◌, length};
    ghost use Rattle.place_base.specs.declared.limits.TheConstants.{LARGEST_FILE};
    ghost use Rattle.record_files.specs.Rows.{rows_left};

    ghost Value = { List (ℕ × List ℕ) };

    ghost view = { λ r. rows_left r.done r.line r.rest.now };

    ghost invariant = { λ r. (r.line + length r.rest.now ≤ 2 ^ 31 + 1)
        × (length r.rest.now ≤ LARGEST_FILE) };
}

impl<'a> Records<'a> {
    /// The rows of a whole file.
    pub fn of_bytes(bytes: &'a [u8]) -> Records<'a>
        requires { length bytes.now ≤ LARGEST_FILE }
        ensures { result ≡ rows bytes.now }
    {
        Records {
            rest: past_mark(bytes),
            line: 1,
            done: false,
        }
    }

    /// The rows of the stretch by itself, counted from the part's line. They are rows of the file
    /// where the stretch starts at 0 or behind an LF, at the line of that number, and ends behind
    /// an LF or with the file; else its first or its last row may be a cut one.
    pub fn of_part(bytes: &'a [u8], part: RowPart) -> Records<'a>
        requires size { length bytes.now ≤ LARGEST_FILE }
        requires stretch { (part.start ≤ part.end) × (part.end ≤ length bytes.now) }
        requires line { part.line ≤ LARGEST_FILE + 1 }
        ensures { result ≡ part_rows bytes.entry.now part }
    {
        let stretch = &bytes[part.start as usize..part.end as usize];
        let rest = if part.start == 0 {
            past_mark(stretch)
        } else {
            stretch
        };
        Records {
            rest,
            line: part.line,
            done: false,
        }
    }

    /// The next row, or `None` where all were given.
    pub fn next(&mut self) -> Option<RecordRow<'a>>
        ensures { MatchOption result ((self.old ≡ []) × (self.new ≡ []))
            (λ row. self.old ≡ row ∷ self.new) }
    {
        'lines: while !self.done {
            let line = self.line;
            let end = find_byte(LF, self.rest);
            let text = past_cr(&self.rest[..end]);
            if end < self.rest.len() {
                self.rest = &self.rest[end + 1..];
                self.line += 1;
            } else {
                self.rest = &self.rest[end..];
                self.done = true;
            }
            if !text.is_empty() {
                return Some(RecordRow::new(line, text));
            }
        }
        None
    }
}

/// Where the byte stands first, or the length where it does not: the first piece of the bytes cut
/// at that byte ends there.
pub fn find_byte(sought: u8, bytes: &[u8]) -> usize
    ensures bound { result ≤ length bytes.now }
    ensures cut { result < length bytes.now
        → split sought bytes.now
        ≡ take result bytes.now ∷ split sought (drop (result + 1) bytes.now) }
    ensures whole { result ≡ length bytes.now → split sought bytes.now ≡ bytes.now ∷ [] }
{
    match memchr(sought, bytes) {
        Some(at) => at,
        None => bytes.len(),
    }
}

// Without one CR at the end.
fn past_cr(text: &[u8]) -> &[u8]
    ensures { result.now ≡ strip_carriage_return text.now }
{
    match text {
        [front @ .., CR] => front,
        _ => text,
    }
}

// Without a byte order mark.
fn past_mark(bytes: &[u8]) -> &[u8]
    ensures value { result.now ≡ without_mark bytes.now }
    ensures shorter { length result.now ≤ length bytes.now }
{
    if bytes.starts_with(&BYTE_ORDER_MARK) {
        &bytes[BYTE_ORDER_MARK.len()..]
    } else {
        bytes
    }
}
