// The bytes that a line stands for.
use std::alloc::AllocError;

/// Appends the bytes of a line and its end. `\r` stands for CR, `\\` for a backslash, `\x` and two
/// digits for the byte of this number, and a backslash at the end of the line for a line without
/// its end.
pub(crate) fn push_line(bytes: &mut Vec<u8>, line: &str) -> Result<(), AllocError> {
    let mut rest = line;
    for _ in 0..line.len() {
        let Some((plain, escaped)) = rest.split_once('\\') else {
            break;
        };
        bytes.extend_from_slice(plain.as_bytes())?;
        if escaped.is_empty() {
            return Ok(());
        }
        rest = push_escaped(bytes, escaped)?;
    }
    bytes.extend_from_slice(rest.as_bytes())?;
    bytes.push(b'\n')?;
    Ok(())
}

// Appends the byte that is escaped at the front, and gives what follows.
fn push_escaped<'a>(bytes: &mut Vec<u8>, escaped: &'a str) -> Result<&'a str, AllocError> {
    if let Some(rest) = escaped.strip_prefix('r') {
        bytes.push(b'\r')?;
        return Ok(rest);
    }
    if let Some((byte, rest)) = numbered(escaped) {
        bytes.push(byte)?;
        return Ok(rest);
    }
    bytes.push(b'\\')?;
    Ok(escaped.strip_prefix('\\').unwrap_or(escaped))
}

// The byte of an `x` and two digits, and what follows.
fn numbered(escaped: &str) -> Option<(u8, &str)> {
    let digits = escaped.strip_prefix('x')?;
    let (number, rest) = digits.split_at_checked(2)?;
    Some((u8::from_str_radix(number, 16).ok()?, rest))
}
