// What a sink is.

ghost use Rattle.std.specs.Prelude.{ℕ, List, Option};
ghost use Rattle.std.specs.Io.{WritesAtMost};
ghost use Rattle.place_edges.specs.Causes.{HasCause};
ghost use Rattle.place_edges.specs.Sink.{Puts};

use crate::Failed;

/// Where bytes are written.
///
/// A sink may keep to itself what it got. It always says how often its calls have failed.
pub trait Sink {
    /// The bytes written, where the sink tells them.
    ghost written: { Self → Option (List ℕ) };

    /// How often a call has failed, up to the count's last value, 2^64 - 1.
    ghost faults: { Self → ℕ };

    /// Appends the first bytes and says how many they are, at least one where there is one. It
    /// fails only where the count of faults rises; where the sink tells its bytes, nothing was
    /// appended then.
    fn put(&mut self, bytes: &[u8]) -> Result<usize, Failed>
        ensures bound { WritesAtMost result bytes.now }
        ensures bytes { Puts (written self.old) (written self.new) result bytes.now }
        ensures cause { HasCause (faults self.old) (faults self.new) result };
}
