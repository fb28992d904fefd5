// Who has registered, read from a file.
ghost use Rattle.std.specs.Prelude.{◌≡◌, ◌≤◌, IfOk, length};
ghost use Rattle.candidate_table.specs.Table.{numbers_of};
ghost use Rattle.place_edges.specs.Shelf.{file_limit};
ghost use Rattle.record_files.specs.ReadTo.{IsTableRead};
ghost use Rattle.second_placement.specs.Registrations.{registered_in, registrations_fault};

use candidate_table::CandidateTable;
use record_files::TableStop;
use second_placement::read_registrations;
use std::alloc::Global;
use std::marker::Model;

// For each candidate whether it has registered.
#[derive(Drop)]
pub(crate) struct Registrations {
    registered: Vec<bool>,
}

impl Model for Registrations {
    ghost use Rattle.std.specs.Prelude.{Bool};
    ghost use Rattle.std.specs.Prelude as words;

    ghost Value = { words.List Bool };

    ghost view = { λ r. r.registered.items };
}

impl Registrations {
    // Those of a file of at most 2^30 bytes beside the candidates, or its first fault.
    pub(crate) fn read(
        alloc: Global,
        bytes: &[u8],
        candidates: &CandidateTable,
    ) -> Result<Registrations, TableStop>
        requires { length bytes.now ≤ file_limit }
        ensures read { IsTableRead
            (registrations_fault (numbers_of candidates.now.numbers) bytes.now)
            (registered_in (numbers_of candidates.now.numbers) bytes.now) result }
        ensures candidates { IfOk result (λ registered.
            length registered ≡ length candidates.now.numbers) }
    {
        let registered = read_registrations(alloc, bytes, candidates)?;
        Ok(Registrations { registered })
    }

    // The same as a slice.
    pub(crate) fn registered(&self) -> &[bool]
        ensures { result.now ≡ self.now }
    {
        &self.registered
    }
}
