// The form of a file, its headers and the shape of its rows.
ghost use Rattle.std.specs.Prelude.{◌≡◌, None, Some, bytes_eq, drop, map, position, MatchResult};
ghost use Rattle.record_files.specs.FirstFaults.{first_row_fault, long_fault, shape_fault, fault_at};
ghost use Rattle.record_files.specs.Form.{IsHeaderOf, header_in};

use crate::faults::fault_at;
use crate::rows::{RecordRow, Records};
use place_base::limits::LONGEST_LINE;
use place_base::{FaultKind, FileFault, FileKind};
use std::marker::Model;

/// A header that was read.
#[derive(Clone, Copy, Debug, PartialEq, Eq)]
pub struct Header {
    /// Which one of the file's form it is, from 0.
    pub version: usize,
    /// How many fields it has.
    pub fields: u32,
}

/// The form of a file: the headers that it may have, and how many data rows. A data row has as many
/// fields as the file's header.
#[derive(Drop)]
pub struct FileForm {
    file: FileKind,
    headers: &'static [&'static [u8]],
    most_rows: u32,
}

impl Model for FileForm {
    ghost use Rattle.std.specs.Prelude.{◌<◌, ◌^◌, map};
    ghost use Rattle.record_files.specs.Form.{Form};

    ghost Value = { Form };

    ghost view = { λ form. record {
      file = form.file;
      headers = map (λ header. header.now) form.headers.now;
      most_rows = form.most_rows;
    } };

    ghost invariant = { λ form. form.most_rows < 2 ^ 32 };
}

impl FileForm {
    /// The form of a file with these headers.
    pub fn new(file: FileKind, headers: &'static [&'static [u8]], most_rows: u32) -> FileForm
        ensures { result ≡ record {
          file = file;
          headers = map (λ header. header.now) headers.entry.now;
          most_rows = most_rows;
        } }
    {
        FileForm {
            file,
            headers,
            most_rows,
        }
    }

    /// Passes the header and answers which one it is, or refuses the fault of the first row.
    pub fn read_header(&self, records: &mut Records<'_>) -> Result<Header, FileFault>
        ensures result { MatchResult result
            (λ header. (first_row_fault self.now records.old ≡ None)
            × (header ≡ header_in self.now records.old) × IsHeaderOf self.now header)
            (λ fault. first_row_fault self.now records.old ≡ Some fault) }
        ensures passed { records.new ≡ drop 1 records.old }
    {
        let Some(row) = records.next() else {
            return Err(self.fault(1, FaultKind::Header));
        };
        if let Some(fault) = self.long_fault(&row) {
            return Err(fault);
        }
        let Some(version) = version_of(self.headers, row.bytes()) else {
            return Err(self.fault(row.line(), FaultKind::Header));
        };
        Ok(Header {
            version,
            fields: row.field_count(),
        })
    }

    /// The fault of a data row before its fields are read, under a header of so many fields. The
    /// index counts the data rows before it.
    pub fn shape_fault(&self, fields: u32, index: u32, row: &RecordRow<'_>) -> Option<FileFault>
        ensures { result ≡ shape_fault self.now fields index row.now }
    {
        if let Some(fault) = self.long_fault(row) {
            return Some(fault);
        }
        if index >= self.most_rows {
            return Some(self.fault(row.line(), FaultKind::TooManyRows));
        }
        if row.field_count() != fields {
            return Some(self.fault(row.line(), FaultKind::FieldCount));
        }
        None
    }

    // The fault of a line that is too long.
    fn long_fault(&self, row: &RecordRow<'_>) -> Option<FileFault>
        ensures { result ≡ long_fault self.now row.now }
    {
        if row.bytes().len() > LONGEST_LINE {
            return Some(self.fault(row.line(), FaultKind::LineTooLong));
        }
        None
    }

    // A fault of a whole row.
    fn fault(&self, line: u32, kind: FaultKind) -> FileFault
        ensures { result ≡ fault_at self.now.file line 0 kind }
    {
        fault_at(self.file, line, 0, kind)
    }
}

// Which of the headers the text is, from 0.
fn version_of(headers: &[&[u8]], text: &[u8]) -> Option<usize>
    ensures { result ≡ position (bytes_eq text.now) (map (λ header. header.now) headers.now) }
{
    for (version, header) in headers.iter().enumerate() {
        if text == *header {
            return Some(version);
        }
    }
    None
}
