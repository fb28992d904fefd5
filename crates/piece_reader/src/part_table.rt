// What the rows of a part are read into.
ghost use Rattle.std.specs.Prelude.{◌≡◌, [], ℕ, IfOk};

use record_files::RowTable;
use std::alloc::{AllocError, Global};

/// A table into which the rows of one part of a file are read, by themselves.
pub trait PartTable<B>: RowTable<B> {
    /// The table of no rows, whichever header the file has.
    fn empty(alloc: Global, beside: &B) -> Result<Self, AllocError>
        ensures { IfOk result (λ table. (version : ℕ)
            → Self.has_rows beside.now version [] table) };

    /// The most data rows that the whole file may have.
    fn most_rows(beside: &B) -> u32
        ensures { result ≡ (Self.rules beside.now).form.most_rows };
}
