// The law of the protocol: whatever the workers do, and in whatever order, a sound state stays
// sound.

ghost use Rattle.std.specs.Prelude.{ℕ, List};
ghost use Rattle.market.specs.Dictatorships.{Dictatorship, IsValidDictatorship, IsPrefixOf, choices};
ghost use Rattle.interleaving_core.specs.declared.events.CoreEvent.{CoreEvent};
ghost use Rattle.interleaving_core.specs.declared.events.Told.{Told};
ghost use Rattle.interleaving_core.specs.Core.{Core, opening, committed_choices};
ghost use Rattle.interleaving_core.specs.Runs.{IsStep, IsRun};
ghost use Rattle.interleaving_core.specs.Sound.{IsSound};

/// An event that is allowed in a sound state leads to a sound state. Hence every run from the
/// opening leads to one, however many workers there are and in whatever order they act, and what is
/// committed then begins the choices that the dictatorship makes turn by turn.
pub fn any_run()
    ensures step { (d : Dictatorship) (c e : Core) (i : ℕ) (event : CoreEvent) (told : Told)
        → IsValidDictatorship d → IsSound d c → IsStep d c i event told e → IsSound d e }
    ensures run { (d : Dictatorship) (workers : ℕ) (events : List (ℕ × CoreEvent)) (e : Core)
        → IsValidDictatorship d → IsRun d (opening d workers) events e → IsSound d e }
    ensures prefix { (d : Dictatorship) (workers : ℕ) (events : List (ℕ × CoreEvent)) (e : Core)
        → IsValidDictatorship d → IsRun d (opening d workers) events e
        → IsPrefixOf (committed_choices e) (choices d) }
{}
