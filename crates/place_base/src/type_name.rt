// Names of score types.

ghost use Rattle.std.specs.Prelude.{◌≡◌, ◌≤◌, ◌++◌, ◌-◌, length, replicate, IsTrue, Some, None, if◌then◌else◌, bytes_eq};
ghost use Rattle.std.specs.Cmp;
ghost use Rattle.std.specs.Cmp.Lexicographic.{slice_cmp, nat_list_eq_equiv, nat_list_cmp_total, texts_ties, texts_po};
ghost use Rattle.std.specs.Cmp.Rules.{hashing};
ghost use Rattle.std.specs.Hash as fed;
ghost use Rattle.std.specs.Ordering.{nat_cmp};
ghost use Rattle.std.proofs.Common.{refl, rules};
ghost use Rattle.place_base.specs.TypeName.{is_type_name, is_type_byte};

use crate::limits::LONGEST_NAME;
use std::cmp::Ordering;
use std::hash::{Hash, Hasher};
use std::marker::Model;

/// The name of a score type: 1 to 8 bytes of `A` to `Z` and `0` to `9`.
///
/// Names are equal and in order as their bytes are.
#[derive(Clone, Copy, Debug)]
pub struct TypeName {
    // The name, and zeros behind it.
    bytes: [u8; LONGEST_NAME],
    size: u8,
}

impl Model for TypeName {
    ghost use Rattle.std.specs.Prelude.{ℕ, List, ◌≡◌, ◌++◌, ◌-◌, IsTrue, take, length, replicate};
    ghost use Rattle.std.proofs.Common.{ap, sym};
    ghost use Rattle.place_base.specs.TypeName.{is_type_name};
    ghost use Rattle.place_base.specs.declared.limits.TheConstants.{LONGEST_NAME};

    ghost Value = { List ℕ };

    ghost view = { λ name. take name.size name.bytes };

    ghost invariant = { λ name. IsTrue (is_type_name (take name.size name.bytes))
        × (length (take name.size name.bytes) ≡ name.size)
        × (name.bytes ≡ take name.size name.bytes ++ replicate (LONGEST_NAME - name.size) 0) };

    ghost inverse = { λ text. record {
      bytes = text ++ replicate (LONGEST_NAME - length text) 0;
      size = length text;
    } };

    ghost inverse_ok = { λ a h.
        let with_bytes : List ℕ → Inside = λ bytes. record { bytes = bytes; size = a.size } in
        Prim.rw h.1 (ap with_bytes (sym h.2)) };
}

impl TypeName {
    /// The score type with this name, or `None` where the bytes are no name of a type.
    pub fn new(bytes: &[u8]) -> Option<TypeName>
        ensures { result ≡ (if is_type_name bytes.now then Some bytes.now else None) }
    {
        if !is_name(bytes) {
            return None;
        }
        Some(TypeName {
            bytes: padded(bytes),
            size: bytes.len() as u8,
        })
    }

    /// The bytes of the name.
    pub fn bytes(&self) -> &[u8]
        ensures value { result.now ≡ self.now }
        ensures name { IsTrue (is_type_name self.now) }
    {
        &self.bytes[..self.size as usize]
    }
}

fn is_name(bytes: &[u8]) -> bool
    ensures { result ≡ is_type_name bytes.now }
{
    if bytes.is_empty() || bytes.len() > LONGEST_NAME {
        return false;
    }
    for byte in bytes {
        if !byte.is_ascii_uppercase() && !byte.is_ascii_digit() {
            return false;
        }
    }
    true
}

// The bytes, and zeros behind them.
fn padded(bytes: &[u8]) -> [u8; LONGEST_NAME]
    requires { length bytes.now ≤ LONGEST_NAME }
    ensures { result ≡ bytes.now ++ replicate (LONGEST_NAME - length bytes.now) 0 }
{
    let mut padded = [0; LONGEST_NAME];
    padded[..bytes.len()].copy_from_slice(bytes);
    padded
}

impl PartialEq for TypeName {
    ghost eq = { bytes_eq };

    ghost laws = { Cmp.partial_equiv_from_equiv nat_list_eq_equiv };

    fn eq(&self, other: &TypeName) -> bool {
        self.bytes() == other.bytes()
    }
}

impl Eq for TypeName {
    ghost laws = { nat_list_eq_equiv };
}

impl PartialOrd for TypeName {
    ghost partial_cmp = { λ x y. Some (slice_cmp nat_cmp x y) };

    ghost laws = { texts_po };

    fn partial_cmp(&self, other: &TypeName) -> Option<Ordering> {
        Some(self.cmp(other))
    }
}

impl Ord for TypeName {
    ghost cmp = { slice_cmp nat_cmp };

    ghost total = { nat_list_cmp_total };

    ghost matches_partial_cmp = { λ x y. refl };

    ghost matches_eq = { texts_ties };

    fn cmp(&self, other: &TypeName) -> Ordering {
        self.bytes().cmp(&other.bytes())
    }
}

impl Hash for TypeName {
    ghost hash_input = { fed.slice fed.u8 };

    ghost respects_eq = { Prim.search (hashing, rules) };

    fn hash<H: Hasher>(&self, state: &mut H) {
        self.bytes().hash(state);
    }
}
