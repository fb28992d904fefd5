// The candidates who hold nothing, and the holders of each programme.

ghost use Rattle.std.specs.Prelude.{◌≡◌, ℕ, Some, ◌<◌, ◌^◌, length, map, IfOk};
ghost use Rattle.std.specs.List.{range_with_len};
ghost use Rattle.market.specs.Counting.{count_of};
ghost use Rattle.market.specs.Stability.{held_by};
ghost use Rattle.fixed_seats.specs.Reports.{unplaced_in};

use std::alloc::{AllocError, Global};

/// The candidates who hold nothing, rising.
pub fn unplaced(alloc: Global, held: &[Option<u32>]) -> Result<Vec<u32>, AllocError>
    requires { length held.now < 2 ^ 32 }
    ensures { IfOk result (λ found. found.items ≡ unplaced_in held.now) }
{
    let mut found = Vec::new(alloc);
    for (candidate, holds) in held.iter().enumerate() {
        if holds.is_none() {
            found.push(candidate as u32)?;
        }
    }
    Ok(found)
}

/// How many candidates hold each of so many programmes.
pub fn holders(
    alloc: Global,
    programmes: usize,
    held: &[Option<u32>],
) -> Result<Vec<u32>, AllocError>
    requires few { length held.now < 2 ^ 32 }
    requires programmes { (i p : ℕ) → held_by held.now i ≡ Some p → p < programmes }
    ensures { IfOk result (λ counts. counts.items
        ≡ map (λ p. count_of p held.now) (range_with_len 0 programmes)) }
{
    let mut counts = vec![in alloc; 0u32; programmes]?;
    for holds in held {
        if let Some(programme) = *holds {
            counts[programme as usize] += 1;
        }
    }
    Ok(counts)
}
