// The texts of rows.
ghost use Rattle.std.specs.Prelude.{◌≡◌, ◌+◌, ◌≤◌, ◌++◌, ◌∷◌, [], OnOk, OnErr, length, vec_len, vec_capacity};
ghost use Rattle.record_files.specs.Texts.{IsShort, text_of, row_text};

use itoa::Buffer;
use place_base::limits::{COMMA, LF};
use std::alloc::AllocError;

/// A field of a row that is written.
#[derive(Clone, Copy)]
pub enum Field<'a> {
    /// A number, in decimal digits.
    Number(u64),
    /// A text as it stands.
    Text(&'a [u8]),
}

/// Appends a row of one field. Where memory is refused the vector stays as it was.
pub fn put_row_1(out: &mut Vec<u8>, a: Field<'_>) -> Result<(), AllocError>
    ensures row { OnOk result (out.new.items ≡ out.old.items ++ row_text (text_of a.entry ∷ [])) }
    ensures same { OnErr result (out.new.items ≡ out.old.items) }
{
    let mut buffer = Buffer::new();
    let a = field_text(a, &mut buffer);
    out.reserve(a.len().saturating_add(1))?;
    put_text(out, a, LF);
    Ok(())
}

/// Appends a row of two fields. Where memory is refused the vector stays as it was.
pub fn put_row_2(out: &mut Vec<u8>, a: Field<'_>, b: Field<'_>) -> Result<(), AllocError>
    ensures row { OnOk result (out.new.items
        ≡ out.old.items ++ row_text (text_of a.entry ∷ text_of b.entry ∷ [])) }
    ensures same { OnErr result (out.new.items ≡ out.old.items) }
{
    let (mut buffer_a, mut buffer_b) = (Buffer::new(), Buffer::new());
    let a = field_text(a, &mut buffer_a);
    let b = field_text(b, &mut buffer_b);
    out.reserve(a.len().saturating_add(b.len()).saturating_add(2))?;
    put_text(out, a, COMMA);
    put_text(out, b, LF);
    Ok(())
}

/// Appends a row of three fields. Where memory is refused the vector stays as it was.
pub fn put_row_3(
    out: &mut Vec<u8>,
    a: Field<'_>,
    b: Field<'_>,
    c: Field<'_>,
) -> Result<(), AllocError>
    ensures row { OnOk result (out.new.items ≡ out.old.items
        ++ row_text (text_of a.entry ∷ text_of b.entry ∷ text_of c.entry ∷ [])) }
    ensures same { OnErr result (out.new.items ≡ out.old.items) }
{
    let (mut buffer_a, mut buffer_b, mut buffer_c) = (Buffer::new(), Buffer::new(), Buffer::new());
    let a = field_text(a, &mut buffer_a);
    let b = field_text(b, &mut buffer_b);
    let c = field_text(c, &mut buffer_c);
    let texts = a.len().saturating_add(b.len()).saturating_add(c.len());
    out.reserve(texts.saturating_add(3))?;
    put_text(out, a, COMMA);
    put_text(out, b, COMMA);
    put_text(out, c, LF);
    Ok(())
}

/// Appends a row of four fields. Where memory is refused the vector stays as it was.
pub fn put_row_4(
    out: &mut Vec<u8>,
    a: Field<'_>,
    b: Field<'_>,
    c: Field<'_>,
    d: Field<'_>,
) -> Result<(), AllocError>
    ensures row { OnOk result (out.new.items ≡ out.old.items
        ++ row_text (text_of a.entry ∷ text_of b.entry ∷ text_of c.entry ∷ text_of d.entry ∷ [])) }
    ensures same { OnErr result (out.new.items ≡ out.old.items) }
{
    let (mut buffer_a, mut buffer_b) = (Buffer::new(), Buffer::new());
    let (mut buffer_c, mut buffer_d) = (Buffer::new(), Buffer::new());
    let a = field_text(a, &mut buffer_a);
    let b = field_text(b, &mut buffer_b);
    let c = field_text(c, &mut buffer_c);
    let d = field_text(d, &mut buffer_d);
    let front = a.len().saturating_add(b.len());
    let back = c.len().saturating_add(d.len());
    out.reserve(front.saturating_add(back).saturating_add(4))?;
    put_text(out, a, COMMA);
    put_text(out, b, COMMA);
    put_text(out, c, COMMA);
    put_text(out, d, LF);
    Ok(())
}

// The text of a field.
pub(crate) fn field_text<'a>(field: Field<'a>, buffer: &'a mut Buffer) -> &'a [u8]
    ensures text { result.now ≡ text_of field.entry }
    ensures short { IsShort field.entry → length result.now ≤ 20 }
{
    match field {
        Field::Number(number) => buffer.format(number).as_bytes(),
        Field::Text(bytes) => bytes,
    }
}

// Appends a text and a byte behind it, for which there is room.
fn put_text(out: &mut Vec<u8>, text: &[u8], end: u8)
    requires { vec_len out.old + length text.now + 1 ≤ vec_capacity out.old }
    ensures items { out.new.items ≡ out.old.items ++ text.now ++ end ∷ [] }
    ensures len { vec_len out.new ≡ vec_len out.old + length text.now + 1 }
    ensures room { vec_capacity out.old ≤ vec_capacity out.new }
{
    match out.extend_from_slice(text) {
        Ok(()) => {}
        Err(_) => unreachable!(),
    }
    match out.push(end) {
        Ok(()) => {}
        Err(_) => unreachable!(),
    }
}
