// Candidate numbers and programme codes.

ghost use Rattle.std.specs.Prelude.{◌≡◌, ◌≤◌, ◌↔◌, IsSome, IfSome};

use crate::limits::{LARGEST_CODE, LARGEST_NUMBER};
use std::marker::Model;

/// The number of a candidate, 1 to 99,999,999,999.
#[derive(Clone, Copy, Debug, PartialEq, Eq, PartialOrd, Ord, Hash)]
pub struct CandidateNo {
    number: u64,
}

impl Model for CandidateNo {
    ghost use Rattle.std.specs.Prelude.{ℕ, ◌≤◌};
    ghost use Rattle.place_base.specs.declared.limits.TheConstants.{LARGEST_NUMBER};

    ghost Value = { ℕ };

    ghost view = { λ candidate. candidate.number };

    ghost invariant = { λ candidate. (1 ≤ candidate.number) × (candidate.number ≤ LARGEST_NUMBER) };

    ghost inverse = { λ number. record { number = number } };
}

impl CandidateNo {
    /// The candidate with this number, or `None` where the number is out of its limits.
    pub fn new(number: u64) -> Option<CandidateNo>
        ensures limits { IsSome result ↔ ((1 ≤ number) × (number ≤ LARGEST_NUMBER)) }
        ensures value { IfSome result (λ candidate. candidate ≡ number) }
    {
        if number < 1 || number > LARGEST_NUMBER {
            return None;
        }
        Some(CandidateNo { number })
    }

    /// The number itself.
    pub fn get(&self) -> u64
        ensures value { result ≡ self.now }
        ensures limits { (1 ≤ self.now) × (self.now ≤ LARGEST_NUMBER) }
    {
        self.number
    }
}

/// The code of a programme, 1 to 999,999,999.
#[derive(Clone, Copy, Debug, PartialEq, Eq, PartialOrd, Ord, Hash)]
pub struct ProgrammeCode {
    code: u32,
}

impl Model for ProgrammeCode {
    ghost use Rattle.std.specs.Prelude.{ℕ, ◌≤◌};
    ghost use Rattle.place_base.specs.declared.limits.TheConstants.{LARGEST_CODE};

    ghost Value = { ℕ };

    ghost view = { λ programme. programme.code };

    ghost invariant = { λ programme. (1 ≤ programme.code) × (programme.code ≤ LARGEST_CODE) };

    ghost inverse = { λ code. record { code = code } };
}

impl ProgrammeCode {
    /// The programme with this code, or `None` where the code is out of its limits.
    pub fn new(code: u32) -> Option<ProgrammeCode>
        ensures limits { IsSome result ↔ ((1 ≤ code) × (code ≤ LARGEST_CODE)) }
        ensures value { IfSome result (λ programme. programme ≡ code) }
    {
        if code < 1 || u64::from(code) > LARGEST_CODE {
            return None;
        }
        Some(ProgrammeCode { code })
    }

    /// The code itself.
    pub fn get(&self) -> u32
        ensures value { result ≡ self.now }
        ensures limits { (1 ≤ self.now) × (self.now ≤ LARGEST_CODE) }
    {
        self.code
    }
}
