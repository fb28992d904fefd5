// The table, its reading and its look-ups.
ghost use Rattle.std.specs.Prelude.{◌≡◌, ◌≤◌, ◌<◌, ℕ, [], All, length, map, slice_get, Some, None, IfOk, OnOk};
ghost use Rattle.market.specs.Problems.{IsBar};
ghost use Rattle.record_files.specs.ReadTo.{IsTableRead};
ghost use Rattle.programme_table.specs.Growth.{clash, with_programme};
ghost use Rattle.programme_table.specs.Rows.{programmes_fault};
ghost use Rattle.programme_table.specs.Table.{prog_of, programmes_table, table_of};

use crate::fields::read_fields;
use crate::row::{Fields, ProgrammeRow};
use indexmap::{IndexMap, IndexSet};
use market::Prog;
use piece_reader::{TakesAhead, read_table};
use place_base::limits::{LARGEST_FILE, LARGEST_QUOTA, MOST_PIECES, MOST_PROGRAMMES, MOST_TYPES};
use place_base::{FaultKind, FileFault, FileKind, Finder, TypeFinder, TypeName};
use record_files::{FileForm, Header, RecordRow, RowTable, TableStop, duplicate_at, fault_at};
use std::alloc::{AllocError, Global};
use std::marker::Model;
use std::thread::Threads;

/// The programmes of a file in file order, and the names of their score types in order of first
/// appearance.
pub struct ProgrammeTable {
    rows: Vec<ProgrammeRow>,
    // The code of each with its line.
    codes: IndexMap<u64, u32>,
    names: IndexSet<TypeName>,
}

// By hand, so that letting one go is one call in the proof of whoever holds it.
impl Drop for ProgrammeTable {
    fn drop(self) {
        let Self {
            rows: _rows,
            codes: _codes,
            names: _names,
        } = self;
    }
}

impl Model for ProgrammeTable {
    ghost use Rattle.programme_table.specs.Table.{Programmes, IsTable};

    ghost Value = { Programmes };

    ghost view = { λ t. record {
      rows = t.rows.items;
      codes = t.codes.entries;
      names = t.names.keys;
    } };

    ghost invariant = { λ t.
        IsTable (record { rows = t.rows.items; codes = t.codes.entries; names = t.names.keys }) };
}

impl ProgrammeTable {
    /// The table of a file of at most 2^30 bytes; `Fault` exactly where the file has a first fault,
    /// and then it carries it.
    ///
    /// `pieces` is the number of parts, 1 to 64, in which the file is read side by side. The result
    /// does not depend on it. After a refusal there is no table.
    pub fn read<R: Threads + Sync>(
        rt: &R,
        alloc: Global,
        bytes: &[u8],
        pieces: u32,
    ) -> Result<ProgrammeTable, TableStop>
        requires size { length bytes.now ≤ LARGEST_FILE }
        requires pieces { (1 ≤ pieces) × (pieces ≤ MOST_PIECES) }
        ensures { IsTableRead (programmes_fault bytes.now) (programmes_table bytes.now) result }
    {
        let empty = ProgrammeTable::new(alloc);
        read_table::<R, (), Fields, ProgrammeTable>(rt, alloc, bytes, pieces, &(), empty)
    }

    /// The programme at an index, counted from 0 in file order.
    pub fn row(&self, index: u32) -> ProgrammeRow
        requires { index < length self.now.rows }
        ensures { slice_get self.now.rows index ≡ Some result }
    {
        self.rows[index as usize]
    }

    /// The types, quotas and bars of the programmes, as a market takes them.
    pub fn programmes(&self, alloc: Global) -> Result<Vec<Prog>, AllocError>
        ensures programmes { IfOk result (λ programmes.
            programmes.items ≡ map prog_of self.now.rows) }

        // They meet what a market asks of its programmes.
        ensures kinds { IfOk result (λ programmes.
            All (λ one. one.kind < length self.now.names) programmes.items) }
        ensures quotas { IfOk result (λ programmes.
            All (λ one. one.quota ≤ LARGEST_QUOTA) programmes.items) }
        ensures bars { IfOk result (λ programmes.
            All (λ one. IsBar one.bar) programmes.items) }
        ensures few_programmes { length self.now.rows ≤ MOST_PROGRAMMES }
        ensures few_types { length self.now.names ≤ MOST_TYPES }
    {
        self.rows
            .iter()
            .map(|row| Prog {
                kind: row.kind,
                quota: row.quota,
                bar: row.bar,
            })
            .collect(alloc)
    }

    // A table of no programmes.
    fn new(alloc: Global) -> ProgrammeTable
        ensures { (version : ℕ) → result ≡ table_of version [] }
    {
        ProgrammeTable {
            rows: Vec::new(alloc),
            codes: IndexMap::new(alloc),
            names: IndexSet::new(alloc),
        }
    }

    // What is wrong with a row beside the table.
    fn clash(&self, fields: &Fields) -> Option<FileFault>
        ensures { result ≡ clash self.now fields.now }
    {
        let (file, line) = (FileKind::Programmes, fields.line);
        if let Some(earlier) = self.codes.get(&u64::from(fields.code.get())) {
            return Some(duplicate_at(file, line, 1, *earlier));
        }
        if self.names.len() >= MOST_TYPES && !self.names.contains(&fields.name) {
            return Some(fault_at(file, line, 2, FaultKind::OutOfRange));
        }
        None
    }

    // Adds a programme with a new code, whose type fits.
    fn add(&mut self, fields: &Fields) -> Result<(), AllocError>
        requires rows { length self.old.rows < MOST_PROGRAMMES }
        requires fits { clash self.old fields.now ≡ None }
        ensures { OnOk result (self.new ≡ with_programme self.old fields.now) }
    {
        self.names.reserve(1)?;
        self.codes.reserve(1)?;
        self.rows.reserve(1)?;
        let (kind, _) = self.names.insert_full(fields.name).unwrap();
        self.codes
            .insert(u64::from(fields.code.get()), fields.line)
            .unwrap();
        self.rows
            .push(ProgrammeRow {
                code: fields.code,
                kind: kind as u32,
                quota: fields.quota,
                bar: fields.bar,
            })
            .unwrap();
        Ok(())
    }
}

impl RowTable<()> for ProgrammeTable {
    ghost use Rattle.std.specs.Prelude.{◌≡◌};
    ghost use Rattle.programme_table.specs.Growth.{IsFieldsOf};
    ghost use Rattle.programme_table.specs.Rows.{programmes_rules};
    ghost use Rattle.programme_table.specs.Table.{table_of};

    type Fields = Fields;

    ghost rules = { λ _. programmes_rules };

    ghost says = { IsFieldsOf };

    ghost has_rows = { λ _ version rows table. table ≡ table_of version rows };

    fn form(_beside: &()) -> FileForm {
        FileForm::new(
            FileKind::Programmes,
            &[b"programme,type,quota", b"programme,type,quota,bar"],
            MOST_PROGRAMMES,
        )
    }

    fn read_fields(_beside: &(), header: Header, row: &RecordRow<'_>) -> Result<Fields, FileFault> {
        read_fields(header, row)
    }

    fn take(
        &mut self,
        alloc: Global,
        beside: &(),
        fields: Fields,
    ) -> Result<Option<FileFault>, AllocError> {
        self.take_ahead(alloc, beside, fields)
    }
}

impl TakesAhead<(), Fields> for ProgrammeTable {
    ghost use Rattle.programme_table.specs.Growth.{IsFieldsOf};

    ghost keeps = { λ _. IsFieldsOf };

    fn most_rows(_beside: &()) -> u32 {
        MOST_PROGRAMMES
    }

    fn keep(_alloc: Global, _beside: &(), fields: Fields) -> Result<Fields, AllocError> {
        Ok(fields)
    }

    fn take_ahead(
        &mut self,
        _alloc: Global,
        _beside: &(),
        row: Fields,
    ) -> Result<Option<FileFault>, AllocError> {
        match self.clash(&row) {
            Some(fault) => Ok(Some(fault)),
            None => {
                self.add(&row)?;
                Ok(None)
            }
        }
    }
}

impl Finder for ProgrammeTable {
    ghost use Rattle.programme_table.specs.Table.{codes_of};

    ghost numbers = { λ table. codes_of table.rows };

    fn count(&self) -> u32 {
        self.codes.len() as u32
    }

    fn number_at(&self, index: u32) -> u64 {
        u64::from(self.rows[index as usize].code.get())
    }

    fn find(&self, number: u64) -> Option<u32> {
        let index = self.codes.get_index_of(&number)?;
        Some(index as u32)
    }
}

impl TypeFinder for ProgrammeTable {
    ghost names = { λ table. table.names };

    fn type_count(&self) -> u32 {
        self.names.len() as u32
    }

    fn type_name(&self, kind: u32) -> TypeName {
        *self.names.get_index(kind as usize).unwrap()
    }

    fn find_type(&self, name: TypeName) -> Option<u32> {
        let kind = self.names.get_index_of(&name)?;
        Some(kind as u32)
    }
}
