// Tables that find a number or a type name.

ghost use Rattle.std.specs.Prelude.{◌≡◌, ◌<◌, ℕ, List, Some, nat_eq, bytes_eq, length, position, slice_get};
ghost use Rattle.std.specs.List.{IsDistinct};

use crate::type_name::TypeName;

/// A table of distinct numbers in order.
pub trait Finder {
    /// The numbers of the table.
    ghost numbers: { Self → List ℕ };

    /// How many numbers there are.
    fn count(&self) -> u32
        ensures length { result ≡ length (numbers self.now) }
        ensures distinct { IsDistinct nat_eq (numbers self.now) };

    /// The number at an index.
    fn number_at(&self, index: u32) -> u64
        requires { index < length (numbers self.now) }
        ensures { slice_get (numbers self.now) index ≡ Some result };

    /// The index of a number, or `None` where the table does not have it.
    fn find(&self, number: u64) -> Option<u32>
        ensures { result ≡ position (nat_eq number) (numbers self.now) };
}

/// A table of distinct names of score types in order.
pub trait TypeFinder {
    /// The names of the table.
    ghost names: { Self → List (List ℕ) };

    /// How many names there are.
    fn type_count(&self) -> u32
        ensures length { result ≡ length (names self.now) }
        ensures distinct { IsDistinct bytes_eq (names self.now) };

    /// The name at an index.
    fn type_name(&self, kind: u32) -> TypeName
        requires { kind < length (names self.now) }
        ensures { slice_get (names self.now) kind ≡ Some result };

    /// The index of a name, or `None` where the table does not have it.
    fn find_type(&self, name: TypeName) -> Option<u32>
        ensures { result ≡ position (bytes_eq name) (names self.now) };
}
