// What is read by rows.
ghost use Rattle.std.specs.Prelude.{◌≡◌, ◌<◌, ◌++◌, ◌∷◌, [], ℕ, List, length, Some, IfOk, MatchResult};
ghost use Rattle.record_files.specs.FirstFaults.{FileRules};
ghost use Rattle.record_files.specs.Form.{IsHeaderOf};
ghost use Rattle.record_files.specs.ReadTo.{IsRowTaken};
ghost use Rattle.record_files.specs.Rows.{Row, fields_of};

use crate::form::{FileForm, Header};
use crate::rows::RecordRow;
use place_base::FileFault;
use std::alloc::{AllocError, Global};

/// A table that is read by rows, beside a value of `B`: other tables, or nothing.
///
/// What a row shows by itself is read apart from what it means beside the earlier rows. Both may
/// hang on the header that the file has, one of those of its form, counted from 0.
pub trait RowTable<B> {
    ghost use Rattle.std.specs.Prelude.{List, ℕ};
    ghost use Rattle.record_files.specs.FirstFaults.{FileRules};
    ghost use Rattle.record_files.specs.Rows.{Row};

    /// What a row shows by itself.
    type Fields;

    /// What may be wrong with the file.
    ghost rules: { B → FileRules };

    /// These are the fields of the row under that header.
    ghost says: { ℕ → Row → Self.Fields → Type 0 };

    /// The table is that of these rows under that header.
    ghost has_rows: { B → ℕ → List Row → Self → Type 0 };

    /// The form of the file.
    fn form(beside: &B) -> FileForm
        ensures { result ≡ (rules beside.now).form };

    /// The fields of a row with as many as the header, or the first that is wrong by itself.
    fn read_fields(
        beside: &B,
        header: Header,
        row: &RecordRow<'_>,
    ) -> Result<Self::Fields, FileFault>
        requires header { IsHeaderOf (rules beside.now).form header }
        requires fields { length (fields_of row.now) ≡ header.fields }
        ensures { MatchResult result
            (λ fields. ((rules beside.now).reading header.version row.now ≡ None)
            × says header.version row.now fields)
            (λ fault. (rules beside.now).reading header.version row.now ≡ Some fault) };

    /// Adds a row with these fields to the table, or answers what is wrong with it beside the
    /// table. After a refusal of memory the table is spent: no clause says what it holds.
    fn take(
        &mut self,
        alloc: Global,
        beside: &B,
        fields: Self::Fields,
    ) -> Result<Option<FileFault>, AllocError>
        requires { (version : ℕ) × (earlier : List Row)
            × has_rows beside.now version earlier self.old
            × (length earlier < (rules beside.now).form.most_rows) }
        ensures { IfOk result (λ found. (version : ℕ) (earlier : List Row) (row : Row)
            → has_rows beside.now version earlier self.old
            → says version row fields
            → IsRowTaken ((rules beside.now).meaning version earlier row)
            (has_rows beside.now version earlier self.new)
            (has_rows beside.now version (earlier ++ row ∷ []) self.new) found) };
}
