// The numbers of candidates.
ghost use Rattle.std.specs.Prelude.{◌≡◌, ◌<◌, ◌++◌, ◌∷◌, [], length, None, OnOk, OnErr};
ghost use Rattle.record_files.specs.Keys.{line_of};

use indexmap::IndexMap;
use place_base::limits::MOST_CANDIDATES;
use place_base::{CandidateNo, Finder};
use std::alloc::{AllocError, Global};
use std::marker::Model;

/// The numbers of the candidates of a file in file order, each with its line.
#[derive(Drop)]
pub struct CandidateNumbers {
    numbers: IndexMap<u64, u32>,
}

impl Model for CandidateNumbers {
    ghost use Rattle.std.specs.Prelude.{ℕ, List, length, ◌≤◌};
    ghost use Rattle.place_base.specs.declared.limits.TheConstants.{MOST_CANDIDATES};

    ghost Value = { List (ℕ × ℕ) };

    ghost view = { λ n. n.numbers.entries };

    ghost invariant = { λ n. length n.numbers.entries ≤ MOST_CANDIDATES };
}

impl CandidateNumbers {
    // No candidates.
    pub(crate) fn new(alloc: Global) -> CandidateNumbers
        ensures { result ≡ [] }
    {
        CandidateNumbers {
            numbers: IndexMap::new(alloc),
        }
    }

    // The line of a candidate.
    pub(crate) fn line_of(&self, number: CandidateNo) -> Option<u32>
        ensures { result ≡ line_of self.now number }
    {
        self.numbers.get(&number.get()).copied()
    }

    // Adds a candidate with a new number.
    pub(crate) fn add(&mut self, number: CandidateNo, line: u32) -> Result<(), AllocError>
        requires few { length self.old < MOST_CANDIDATES }
        requires new { line_of self.old number ≡ None }
        ensures ok { OnOk result (self.new ≡ self.old ++ (number, line) ∷ []) }
        ensures err { OnErr result (self.new ≡ self.old) }
    {
        self.numbers.insert(number.get(), line)?;
        Ok(())
    }
}

impl Finder for CandidateNumbers {
    ghost use Rattle.candidate_table.specs.Table.{numbers_of};

    ghost numbers = { numbers_of };

    fn count(&self) -> u32 {
        self.numbers.len() as u32
    }

    fn number_at(&self, index: u32) -> u64 {
        let (number, _) = self.numbers.get_index(index as usize).unwrap();
        *number
    }

    fn find(&self, number: u64) -> Option<u32> {
        let index = self.numbers.get_index_of(&number)?;
        Some(index as u32)
    }
}
