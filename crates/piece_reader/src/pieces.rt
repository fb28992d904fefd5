// Where the cuts stand, and the parts between them.
ghost use Rattle.std.specs.Prelude.{◌≡◌, ◌≤◌, ◌<◌, ◌+◌, ℕ, All, IfOk, flat_map, length, map, slice_range, vec_len};
ghost use Rattle.std.specs.List.{range_with_len};
ghost use Rattle.record_files.specs.Rows.{part_rows, rows};
ghost use Rattle.piece_reader.specs.Parts.{AreParts, IsPartOf, cut_of, first_line, line_ends, line_start as start_of_line, parts_of};
ghost use Rattle.piece_reader.specs.Stretches.{stretch_of};

use memchr::memchr;
use place_base::limits::{LARGEST_FILE, LF, MOST_PIECES};
use record_files::RowPart;
use std::alloc::{AllocError, Global};
use std::thread::{self, Threads};

/// Cuts a file of at most 2^30 bytes into at most so many parts, 1 to 64, and counts their lines
/// side by side.
///
/// Cut k stands at the least place that follows an LF and is at least k times the length divided by
/// `pieces`, rounded down, or at the end where there is none. Empty parts are dropped.
pub fn read_pieces<R: Threads + Sync>(
    rt: &R,
    alloc: Global,
    bytes: &[u8],
    pieces: u32,
) -> Result<Vec<RowPart>, AllocError>
    requires size { length bytes.now ≤ LARGEST_FILE }
    requires pieces { (1 ≤ pieces) × (pieces ≤ MOST_PIECES) }
    ensures parts { IfOk result (λ parts. AreParts bytes.now pieces parts.items) }
    ensures each { IfOk result (λ parts. All (IsPartOf bytes.now) parts.items) }

    // Their rows, one part after the other, are the rows of the file.
    ensures rows { IfOk result (λ parts.
        flat_map (part_rows bytes.now) parts.items ≡ rows bytes.now) }
{
    let stretches = thread::map_indices(
        rt,
        alloc,
        pieces as usize,
        &|index| { piece_at(bytes, pieces, index) },
    )?;
    parts_between(alloc, bytes, pieces, &stretches)
}

/// What lies between two cuts, and how many lines end in it.
#[derive(Clone, Copy)]
pub struct Stretch {
    /// The first cut.
    pub start: u32,
    /// The next cut.
    pub end: u32,
    /// How many LFs stand between them.
    pub lines: u32,
}

// The stretch between the cut of a number and the next.
fn piece_at(bytes: &[u8], pieces: u32, index: usize) -> Stretch
    requires size { length bytes.now ≤ LARGEST_FILE }
    requires pieces { (1 ≤ pieces) × (pieces ≤ MOST_PIECES) }
    requires index { index < pieces }
    ensures { result ≡ stretch_of bytes.now pieces index }
{
    let start = cut(bytes, pieces, index);
    let end = cut(bytes, pieces, index + 1);
    Stretch {
        start: start as u32,
        end: end as u32,
        lines: lines_between(bytes, start, end) as u32,
    }
}

// Where the cut of a number stands.
fn cut(bytes: &[u8], pieces: u32, index: usize) -> usize
    requires size { length bytes.now ≤ LARGEST_FILE }
    requires pieces { (1 ≤ pieces) × (pieces ≤ MOST_PIECES) }
    requires index { index ≤ pieces }
    ensures value { result ≡ cut_of bytes.now pieces index }
    ensures inside { result ≤ length bytes.now }
{
    let pieces = pieces as usize;
    if index == 0 {
        return 0;
    }
    if index == pieces {
        return bytes.len();
    }
    line_start(bytes, index * bytes.len() / pieces)
}

// The least place from one on that follows an LF, or the end where there is none.
fn line_start(bytes: &[u8], from: usize) -> usize
    requires { from ≤ length bytes.now }
    ensures value { result ≡ start_of_line bytes.now from }
    ensures inside { result ≤ length bytes.now }
{
    let before = from.saturating_sub(1);
    match memchr(LF, &bytes[before..]) {
        Some(at) => before + at + 1,
        None => bytes.len(),
    }
}

// How many lines end between two places.
fn lines_between(bytes: &[u8], start: usize, end: usize) -> usize
    requires { (start ≤ end) × (end ≤ length bytes.now) }
    ensures { result ≡ line_ends (slice_range bytes.now start end) }
{
    bytes[start..end].iter().filter(|byte| **byte == LF).count()
}

// The parts of stretches.
fn parts_between(
    alloc: Global,
    bytes: &[u8],
    pieces: u32,
    stretches: &[Stretch],
) -> Result<Vec<RowPart>, AllocError>
    requires size { length bytes.now ≤ LARGEST_FILE }
    requires pieces { (1 ≤ pieces) × (pieces ≤ MOST_PIECES) }
    requires stretches { stretches.now
        ≡ map (stretch_of bytes.now pieces) (range_with_len 0 pieces) }
    ensures { IfOk result (λ parts.
        parts.items ≡ parts_of bytes.now pieces (cut_of bytes.now pieces)) }
{
    let mut parts = Vec::with_capacity(alloc, stretches.len())?;
    let mut line = 1;
    for stretch in stretches {
        if stretch.start < stretch.end {
            parts.push(RowPart {
                start: stretch.start,
                end: stretch.end,
                line,
            })?;
        }
        line += stretch.lines;
    }
    Ok(parts)
}
