// The part that has the header.
ghost use Rattle.std.specs.Prelude.{◌≡◌, ◌≤◌, ℕ, All, drop, flat_map, length};
ghost use Rattle.record_files.specs.Rows.{part_rows};
ghost use Rattle.piece_reader.specs.Header.{BeginsWithRow};
ghost use Rattle.piece_reader.specs.Parts.{IsPartOf};

use place_base::limits::LARGEST_FILE;
use record_files::{Records, RowPart};

/// The parts from the first that has a row, which is the header's; no part where none has a row.
pub fn from_header<'p>(bytes: &[u8], parts: &'p [RowPart]) -> &'p [RowPart]
    requires size { length bytes.now ≤ LARGEST_FILE }
    requires parts { All (IsPartOf bytes.now) parts.now }
    ensures rows { flat_map (part_rows bytes.now) result.now
        ≡ flat_map (part_rows bytes.now) parts.entry.now }
    ensures first { BeginsWithRow bytes.now result.now }
    ensures tail { (n : ℕ) × (result.now ≡ drop n parts.entry.now) }
    ensures each { All (IsPartOf bytes.now) result.now }
{
    let mut rest = parts;
    'parts: while let [first, later @ ..] = rest {
        if Records::of_part(bytes, *first).next().is_some() {
            return rest;
        }
        rest = later;
    }
    rest
}
