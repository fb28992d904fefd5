// Rows of a text, in an array.
ghost use Rattle.std.specs.Prelude.{◌≡◌, ◌+◌, ◌≤◌, ◌++◌, ◌∷◌, [], length};
ghost use Rattle.record_files.specs.Texts.{IsShort, row_text, text_of};

use crate::row_texts::{Field, field_text};
use itoa::Buffer;
use place_base::limits::{COMMA, LF};
use std::marker::Model;

// How many bytes a row buffer holds.
const SIZE: usize = 4096;

/// A text of at most 4,096 bytes, which takes no memory.
#[derive(Drop)]
pub struct RowBuffer {
    bytes: [u8; SIZE],
    len: usize,
}

impl Model for RowBuffer {
    ghost use Rattle.std.specs.Prelude.{ℕ, List, ◌≤◌, take};
    ghost use Rattle.record_files.specs.declared.row_buffer.TheConstants.{SIZE};

    ghost Value = { List ℕ };

    ghost view = { λ b. take b.len b.bytes };

    ghost invariant = { λ b. b.len ≤ SIZE };
}

impl RowBuffer {
    /// An empty text.
    pub fn new() -> RowBuffer
        ensures { result ≡ [] }
    {
        RowBuffer {
            bytes: [0; SIZE],
            len: 0,
        }
    }

    /// Makes the text empty.
    pub fn clear(&mut self)
        ensures { self.new ≡ [] }
    {
        self.len = 0;
    }

    /// How many bytes are free.
    pub fn room(&self) -> u32
        ensures { result + length self.now ≡ 4096 }
    {
        (SIZE - self.len) as u32
    }

    /// The bytes of the text.
    pub fn bytes(&self) -> &[u8]
        ensures text { result.now ≡ self.now }
        ensures few { length self.now ≤ 4096 }
    {
        &self.bytes[..self.len]
    }

    /// Appends a row of four fields, each a number or a text of at most 16 bytes, where at least 96
    /// bytes are free.
    pub fn put_row_4(&mut self, a: Field<'_>, b: Field<'_>, c: Field<'_>, d: Field<'_>)
        requires room { length self.old + 96 ≤ 4096 }
        requires short { IsShort a × IsShort b × IsShort c × IsShort d }
        ensures { self.new ≡ self.old
            ++ row_text
            (text_of a.entry ∷ text_of b.entry ∷ text_of c.entry ∷ text_of d.entry ∷ []) }
    {
        self.put_field(a, COMMA);
        self.put_field(b, COMMA);
        self.put_field(c, COMMA);
        self.put_field(d, LF);
    }

    // Appends a field and a byte behind it.
    fn put_field(&mut self, field: Field<'_>, end: u8)
        requires room { length self.old + 24 ≤ 4096 }
        requires short { IsShort field }
        ensures text { self.new ≡ self.old ++ text_of field.entry ++ end ∷ [] }
        ensures len { length self.new ≤ length self.old + 21 }
    {
        let mut buffer = Buffer::new();
        let text = field_text(field, &mut buffer);
        self.put(text);
        self.put(&[end]);
    }

    // Appends a text.
    fn put(&mut self, text: &[u8])
        requires { length self.old + length text.now ≤ 4096 }
        ensures { self.new ≡ self.old ++ text.now }
    {
        let end = self.len + text.len();
        self.bytes[self.len..end].copy_from_slice(text);
        self.len = end;
    }
}
