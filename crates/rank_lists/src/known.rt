// The types and candidates beside which ranks are read.
ghost use Rattle.std.specs.Prelude.{◌≡◌, ◌<◌, ◌^◌, All, IfOk, IsTrue, bytes_eq, length, map, position};
ghost use Rattle.place_base.specs.TypeName.{is_type_name};
ghost use Rattle.rank_lists.specs.Groups.{name_number as number_of_name};

use crate::name_numbers::name_number;
use place_base::{Finder, TypeFinder, TypeName};
use std::alloc::{AllocError, Global};

/// The types and candidates beside which ranks are read.
#[derive(Drop)]
pub(crate) struct Known<'a, T: TypeFinder, C: Finder> {
    // The types.
    pub(crate) types: &'a T,
    // The candidates.
    pub(crate) candidates: &'a C,
    // The names of the types, each as one number: these are compared sooner.
    names: Vec<u64>,
    ghost names_are: { names.items ≡ map number_of_name (T.names types.now) },
    ghost are_names: { All (λ name. IsTrue (is_type_name name)) (T.names types.now) },
    ghost few: { length names.items < 2 ^ 32 },
}

impl<'a, T: TypeFinder, C: Finder> Known<'a, T, C> {
    /// These types and candidates.
    pub(crate) fn new(
        alloc: Global,
        types: &'a T,
        candidates: &'a C,
    ) -> Result<Known<'a, T, C>, AllocError>
        ensures types { IfOk result (λ known. known.types.now ≡ types.entry.now) }
        ensures candidates { IfOk result (λ known. known.candidates.now ≡ candidates.entry.now) }
    {
        let count = types.type_count();
        let mut names = Vec::with_capacity(alloc, count as usize)?;
        for kind in 0..count {
            names.push(name_number(types.type_name(kind).bytes()))?;
        }
        Ok(Known {
            types,
            candidates,
            names,
        })
    }

    /// The type of a name, where it is known.
    pub(crate) fn kind_of(&self, name: TypeName) -> Option<u32>
        ensures { result ≡ position (bytes_eq name) (T.names self.now.types.now) }
    {
        let number = name_number(name.bytes());
        for (kind, other) in self.names.iter().enumerate() {
            if *other == number {
                return Some(kind as u32);
            }
        }
        None
    }
}
