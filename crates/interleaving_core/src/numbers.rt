// The limits in numbers.

ghost use Rattle.interleaving_core.specs.Limits.{HasLimits};

/// There may be 64 workers, and a word has 64 flags. Every other clause speaks of these two limits
/// by name.
///
/// A law: it changes and answers nothing.
pub fn limits_in_numbers()
    ensures { HasLimits }
{}
