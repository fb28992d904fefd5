// Numbers and type names in fields.
ghost use Rattle.std.specs.Prelude.{◌≡◌, ◌≤◌, length, min, IfOk, MatchOption, true, false};
ghost use Rattle.std.specs.Option.{ForSome};
ghost use Rattle.record_files.specs.Numbers.{number_of, optional_number_of, optional_value, all_digits, type_name_of, value};

use place_base::{FaultKind, TypeName};

// The longest word of digits whose value is sure to fit a `u64`.
const SHORT: usize = 19;

// A value that no `u64` has.
const PAST: u128 = 1 << 64;

/// The value of a number field: digits alone, leading zeros allowed, between two limits.
///
/// `NotNumber` where the field is empty or has a byte outside `0` to `9`, else `OutOfRange` where
/// the value is below `low` or above `high`.
pub fn number(field: &[u8], low: u64, high: u64) -> Result<u64, FaultKind>
    ensures { result ≡ number_of field.now low high }
{
    if field.is_empty() {
        return Err(FaultKind::NotNumber);
    }
    let Some(value) = capped_value(field) else {
        return Err(FaultKind::NotNumber);
    };
    if value < u128::from(low) || value > u128::from(high) {
        return Err(FaultKind::OutOfRange);
    }
    Ok(value as u64)
}

/// The value of a field that is `-` for none, or else a number field between two limits, with the
/// faults of [`number`].
pub fn optional_number(field: &[u8], low: u64, high: u64) -> Result<Option<u64>, FaultKind>
    ensures result { result ≡ optional_number_of field.now low high }
    ensures value { IfOk result (λ read. read ≡ optional_value field.now) }
    ensures within { IfOk result (λ read. ForSome read (λ n. (low ≤ n) × (n ≤ high))) }
{
    if field == b"-".as_slice() {
        return Ok(None);
    }
    let value = number(field, low, high)?;
    Ok(Some(value))
}

// The value of digits, or 2^64 where it is larger; `None` where a byte is no digit.
fn capped_value(field: &[u8]) -> Option<u128>
    ensures { MatchOption result (all_digits field.now ≡ false)
        (λ v. (all_digits field.now ≡ true) × (v ≡ min (value field.now) PAST)) }
{
    if field.len() > SHORT {
        return long_value(field);
    }
    match short_value(field) {
        Some(value) => Some(u128::from(value)),
        None => None,
    }
}

// The value of a few digits; `None` where a byte is no digit.
fn short_value(field: &[u8]) -> Option<u64>
    requires { length field.now ≤ SHORT }
    ensures { MatchOption result (all_digits field.now ≡ false)
        (λ v. (all_digits field.now ≡ true) × (v ≡ value field.now)) }
{
    let mut sum = 0u64;
    for byte in field {
        let byte = *byte;
        if !byte.is_ascii_digit() {
            return None;
        }
        sum = 10 * sum + u64::from(byte - b'0');
    }
    Some(sum)
}

// As `capped_value`, for words of any length.
fn long_value(field: &[u8]) -> Option<u128>
    ensures { MatchOption result (all_digits field.now ≡ false)
        (λ v. (all_digits field.now ≡ true) × (v ≡ min (value field.now) PAST)) }
{
    let mut sum = 0u128;
    for byte in field {
        let byte = *byte;
        if !byte.is_ascii_digit() {
            return None;
        }
        sum = (10 * sum + u128::from(byte - b'0')).min(PAST);
    }
    Some(sum)
}

/// The name of a score type in a field; `BadTypeName` where the field is no such name.
pub fn type_name(field: &[u8]) -> Result<TypeName, FaultKind>
    ensures { result ≡ type_name_of field.now }
{
    match TypeName::new(field) {
        Some(name) => Ok(name),
        None => Err(FaultKind::BadTypeName),
    }
}
