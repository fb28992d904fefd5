//! Files of rows: their rows and fields lent without a copy, the numbers and type names in fields,
//! what a file's first fault is, and the texts of rows.
#![tactic(auto)]

// The faults of rows and fields.
mod faults;
// The form of a file, its headers and the shape of its rows.
mod form;
// Numbers and type names in fields.
mod fields;
// Rows of a text, in an array.
mod row_buffer;
// What is read by rows.
mod row_table;
// The reading of all rows of a file.
mod reading;
// The texts of rows.
mod row_texts;
// Rows and their fields.
mod rows;
// Why a table could not be read.
mod table_stop;

pub use faults::{duplicate_at, fault_at, in_field};
pub use fields::{number, optional_number, type_name};
pub use form::{FileForm, Header};
pub use reading::{RowsRead, read_rows, read_table, take_rows};
pub use row_buffer::RowBuffer;
pub use row_table::RowTable;
pub use row_texts::{Field, put_row_1, put_row_2, put_row_3, put_row_4};
pub use rows::{RecordRow, Records, RowPart, find_byte};
pub use table_stop::TableStop;

#[cfg(test)]
mod tests;
