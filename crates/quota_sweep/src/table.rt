// The rows of all quotas.

ghost use Rattle.std.specs.Prelude.{◌≡◌, ◌<◌, ◌≤◌, length, slice_get};
ghost use Rattle.quota_sweep.specs.declared.row.TheConstants.{MAX_ROWS};

use crate::SweepRow;
use std::marker::Model;

/// The rows of a sweep, one for each quota. Contracts see it as that list.
#[derive(Drop)]
pub struct SweepTable {
    rows: Vec<SweepRow>,
}

impl Model for SweepTable {
    ghost use Rattle.std.specs.Prelude.{◌≤◌, length};
    ghost use Rattle.std.specs.Prelude as words;
    ghost use Rattle.quota_sweep.specs.declared.row.SweepRow.{SweepRow};
    ghost use Rattle.quota_sweep.specs.declared.row.TheConstants.{MAX_ROWS};

    ghost Value = { words.List SweepRow };

    ghost view = { λ t. t.rows.items };

    ghost invariant = { λ t. length t.rows.items ≤ MAX_ROWS };
}

impl SweepTable {
    // The table of these rows. It takes no memory.
    pub(crate) fn from_rows(rows: Vec<SweepRow>) -> SweepTable
        requires { length rows.items ≤ MAX_ROWS }
        ensures { result ≡ rows.items }
    {
        SweepTable { rows }
    }

    /// How many rows there are.
    pub fn rows(&self) -> u32
        ensures { result ≡ length self.now }
    {
        self.rows.len() as u32
    }

    /// The row at an index.
    pub fn row(&self, index: u32) -> SweepRow
        requires { index < length self.now }
        ensures { slice_get self.now index ≡ Some result }
    {
        self.rows[index as usize]
    }
}
