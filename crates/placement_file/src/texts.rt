// The text of a placement.

ghost use Rattle.std.specs.Prelude.{◌≡◌, ◌<◌, ◌++◌, ℕ, IfOk, OnOk, Option, length};
ghost use Rattle.market.specs.Stability.{held_by};
ghost use Rattle.placement_file.specs.Texts.{candidate_row, placement_text as text_of_placement};

use place_base::Finder;
use record_files::{Field, put_row_2};
use std::alloc::{AllocError, Global};

/// The text of a placement beside the programmes' codes and the candidates' numbers: a header, and
/// a row for each candidate in order, with the code of the programme held or `-`.
///
/// `held` has for each candidate the index of the programme held, or none.
pub fn placement_text<P: Finder, C: Finder>(
    alloc: Global,
    held: &[Option<u32>],
    programmes: &P,
    candidates: &C,
) -> Result<Vec<u8>, AllocError>
    requires candidates { length held.now ≡ length (C.numbers candidates.now) }
    requires programmes { (i p : ℕ) → held_by held.now i ≡ Option.Some p
        → p < length (P.numbers programmes.now) }
    ensures { IfOk result (λ text. text.items
        ≡ text_of_placement (P.numbers programmes.now) (C.numbers candidates.now) held.now) }
{
    let mut bytes = Vec::new(alloc);
    put_row_2(
        &mut bytes,
        Field::Text(b"candidate"),
        Field::Text(b"programme"),
    )?;
    // its clause says that the candidates' indexes fit 32 bits
    let _count = candidates.count();
    for (index, programme) in held.iter().enumerate() {
        let number = candidates.number_at(index as u32);
        put_candidate(&mut bytes, number, *programme, programmes)?;
    }
    Ok(bytes)
}

// Appends the row of a candidate.
fn put_candidate<P: Finder>(
    out: &mut Vec<u8>,
    number: u64,
    held: Option<u32>,
    programmes: &P,
) -> Result<(), AllocError>
    requires { (p : ℕ) → held ≡ Option.Some p → p < length (P.numbers programmes.now) }
    ensures { OnOk result
        (out.new.items ≡ out.old.items ++ candidate_row (P.numbers programmes.now) (number, held)) }
{
    match held {
        Some(programme) => {
            let code = programmes.number_at(programme);
            put_row_2(out, Field::Number(number), Field::Number(code))
        }
        None => put_row_2(out, Field::Number(number), Field::Text(b"-")),
    }
}
