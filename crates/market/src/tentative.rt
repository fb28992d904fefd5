// What each candidate has chosen in each type so far.

ghost use Rattle.std.specs.Prelude.{◌≡◌, ◌<◌, [], length, slice_index_or, slice_set, replicate, IfOk};
ghost use Rattle.market.specs.Problems.{IsValid};
ghost use Rattle.market.specs.Choices.{held_in_table, empty_table, decode, FitsNumber};

use crate::{List, Market};
use std::alloc::{AllocError, Global};
use std::marker::Model;

/// A programme or none for each type and candidate. Contracts see it as a table with a row for each
/// type. It keeps a choice in one number: 0 for none, and else the programme and one more.
#[derive(Drop)]
pub struct Tentative {
    rows: Vec<List>,
}

impl Model for Tentative {
    ghost use Rattle.std.specs.Prelude.{ℕ, Option, map};
    ghost use Rattle.std.specs.Prelude as words;
    ghost use Rattle.market.specs.Choices.{decode};

    ghost Value = { words.List (words.List (Option ℕ)) };

    ghost view = { λ t. map (map decode) t.rows.items };
}

impl Tentative {
    /// No choice anywhere, for the types and candidates of a market.
    pub fn none(alloc: Global, market: &Market) -> Result<Tentative, AllocError>
        ensures none { IfOk result (λ t. t ≡ empty_table market.now) }
        ensures valid { IsValid market.now }
    {
        let rows = zero_rows(alloc, market.type_count(), market.candidate_count())?;
        Ok(Tentative { rows })
    }

    /// The choice of a candidate in a type.
    pub fn choice(&self, kind: u32, candidate: u32) -> Option<u32>
        requires kind { kind < length self.now }
        requires candidate { candidate < length (slice_index_or self.now kind []) }
        ensures { result ≡ held_in_table self.now kind candidate }
    {
        let row = &self.rows[kind as usize];
        decoded(row.items()[candidate as usize])
    }

    /// Writes the choice of a candidate in a type. A programme of a market always fits.
    pub fn set(&mut self, kind: u32, candidate: u32, choice: Option<u32>)
        requires kind { kind < length self.old }
        requires candidate { candidate < length (slice_index_or self.old kind []) }
        requires fits { FitsNumber choice }
        ensures { self.new
            ≡ slice_set self.old kind
            (slice_set (slice_index_or self.old kind []) candidate choice) }
    {
        let row = &mut self.rows[kind as usize];
        row.write(candidate, encoded(choice));
    }
}

// The choice that a number stands for.
fn decoded(number: u32) -> Option<u32>
    ensures { result ≡ decode number }
{
    if number == 0 {
        return None;
    }
    Some(number - 1)
}

// The number that stands for a choice.
fn encoded(choice: Option<u32>) -> u32
    requires { FitsNumber choice }
    ensures { decode result ≡ choice }
{
    match choice {
        Some(programme) => programme + 1,
        None => 0,
    }
}

// So many rows of so many zeros.
fn zero_rows(alloc: Global, types: u32, count: u32) -> Result<Vec<List>, AllocError>
    ensures { IfOk result (λ rows. rows.items ≡ replicate types (replicate count 0)) }
{
    let mut rows = Vec::new(alloc);
    for _ in 0..types {
        let row = vec![in alloc; 0u32; count as usize]?;
        rows.push(List::from_vec(row))?;
    }
    Ok(rows)
}
