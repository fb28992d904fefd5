// Rows that are kept until the rows before them are in the table.
ghost use Rattle.std.specs.Prelude.{◌≡◌, ◌<◌, ◌++◌, ◌∷◌, [], ℕ, List, length, IfOk};
ghost use Rattle.record_files.specs.ReadTo.{IsRowTaken};
ghost use Rattle.record_files.specs.Rows.{Row};

use crate::part_table::PartTable;
use place_base::FileFault;
use record_files::{FileForm, Header, RecordRow, RowTable};
use std::alloc::{AllocError, Global};
use std::marker::PhantomData;

/// A table whose rows can be read ahead of the rows before them: an `A` is kept of each.
pub trait TakesAhead<B, A>: RowTable<B> {
    ghost use Rattle.std.specs.Prelude.{ℕ};
    ghost use Rattle.record_files.specs.Rows.{Row};

    /// This is kept of the row under that header.
    ghost keeps: { B → ℕ → Row → A → Type 0 };

    /// The most data rows that the whole file may have.
    fn most_rows(beside: &B) -> u32
        ensures { result ≡ (Self.rules beside.now).form.most_rows };

    /// What is kept of a row with these fields.
    fn keep(alloc: Global, beside: &B, fields: Self::Fields) -> Result<A, AllocError>
        ensures { IfOk result (λ kept. (version : ℕ) (row : Row)
            → Self.says version row fields
            → keeps beside.now version row kept) };

    /// Adds a row of which this was kept, or answers what is wrong with it beside the table. After
    /// a refusal of memory the table is spent: no clause says what it holds.
    fn take_ahead(
        &mut self,
        alloc: Global,
        beside: &B,
        row: A,
    ) -> Result<Option<FileFault>, AllocError>
        requires { (version : ℕ) × (earlier : List Row)
            × Self.has_rows beside.now version earlier self.old
            × (length earlier < (Self.rules beside.now).form.most_rows) }
        ensures { IfOk result (λ found. (version : ℕ) (earlier : List Row) (one : Row)
            → Self.has_rows beside.now version earlier self.old
            → keeps beside.now version one row
            → IsRowTaken ((Self.rules beside.now).meaning version earlier one)
            (Self.has_rows beside.now version earlier self.new)
            (Self.has_rows beside.now version (earlier ++ one ∷ []) self.new) found) };
}

/// What is kept of the rows of a part for a table `T`, in order.
#[derive(Drop)]
pub struct AheadRows<A, T> {
    /// One for each row.
    pub rows: Vec<A>,
    table: PhantomData<T>,
}

impl<B, A: Drop, T: TakesAhead<B, A>> RowTable<B> for AheadRows<A, T> {
    ghost use Rattle.std.specs.List.{AllZip};
    ghost use Rattle.piece_reader.specs.Joined.{by_themselves};

    type Fields = T::Fields;

    ghost rules = { λ beside. by_themselves (T.rules beside) };

    ghost says = { T.says };

    ghost has_rows = { λ beside version rows table.
        AllZip (T.keeps beside version) rows table.rows.items };

    fn form(beside: &B) -> FileForm {
        T::form(beside)
    }

    fn read_fields(
        beside: &B,
        header: Header,
        row: &RecordRow<'_>,
    ) -> Result<T::Fields, FileFault> {
        T::read_fields(beside, header, row)
    }

    fn take(
        &mut self,
        alloc: Global,
        beside: &B,
        fields: T::Fields,
    ) -> Result<Option<FileFault>, AllocError> {
        self.rows.push(T::keep(alloc, beside, fields)?)?;
        Ok(None)
    }
}

impl<B, A: Drop, T: TakesAhead<B, A>> PartTable<B> for AheadRows<A, T> {
    fn empty(alloc: Global, _beside: &B) -> Result<AheadRows<A, T>, AllocError> {
        Ok(AheadRows {
            rows: Vec::new(alloc),
            table: PhantomData,
        })
    }

    fn most_rows(beside: &B) -> u32 {
        T::most_rows(beside)
    }
}
