// What a shelf is.

ghost use Rattle.std.specs.Prelude.{◌≡◌, ℕ, List, Option, Bool, IsTrue};
ghost use Rattle.std.specs.Io.{ReadsAtMost};
ghost use Rattle.place_edges.specs.Causes.{HasCause};
ghost use Rattle.place_edges.specs.Shelf.{Files, Opens, Takes, tally_after};

/// A read or a write failed.
#[derive(Clone, Copy, Debug, PartialEq, Eq)]
pub struct Failed;

/// Named files that are read one after the other.
///
/// A shelf may keep to itself which bytes it holds. It always says which names it grants, how often
/// its calls have failed and how many bytes it gave; no call changes what is held or granted.
pub trait Shelf {
    /// The bytes held under each name, where the shelf tells them.
    ghost files: { Self → Option Files };

    /// The rest of the current file, where that is told. It is empty before the first open.
    ghost rest: { Self → Option (List ℕ) };

    /// Whether a name is granted.
    ghost grants: { Self → List ℕ → Bool };

    /// How often a call has failed, up to the count's last value, 2^64 - 1.
    ghost faults: { Self → ℕ };

    /// How many bytes were given, up to 2^64 - 1.
    ghost tally: { Self → ℕ };

    /// Makes the named file current from its start. It fails only where the count of faults rises,
    /// and a shelf that tells its files fails for a name that it does not hold; nothing is left to
    /// be read then.
    fn open(&mut self, name: &str) -> Result<(), Failed>
        requires { IsTrue (grants self.old name.now) }
        ensures opened { Opens (files self.old) name.now result (rest self.new) }
        ensures files { files self.new ≡ files self.old }
        ensures grants { grants self.new ≡ grants self.old }
        ensures tally { tally self.new ≡ tally self.old }
        ensures cause { HasCause (faults self.old) (faults self.new) result };

    /// Puts the next bytes of the current file at the front of `into` and says how many they are:
    /// none only at the end, or where `into` is empty. It fails only where the count of faults
    /// rises; what is left is then not told until the next open.
    fn take(&mut self, into: &mut [u8]) -> Result<usize, Failed>
        ensures bound { ReadsAtMost result into.new }
        ensures bytes { Takes (rest self.old) (rest self.new) result into.new }
        ensures files { files self.new ≡ files self.old }
        ensures grants { grants self.new ≡ grants self.old }
        ensures tally { tally self.new ≡ tally_after (tally self.old) result }
        ensures cause { HasCause (faults self.old) (faults self.new) result };
}
