// The limits in numbers.

ghost use Rattle.place_run.specs.Limits.{HasFileBytes, HasFileLimits, HasMarketLimits, HasSweepLimits, HasWorkerLimits};

/// The limits of the files, the bytes that cut them, the numbers of workers, the limits of a market
/// and those of a sweep are the numbers that users are told. The other clauses speak of them by name, but that
/// the definition of a made market has its own numbers, and that the line ends of printed texts
/// stand as a number.
///
/// A law: it changes and answers nothing.
pub fn limits_in_numbers()
    ensures files { HasFileLimits }
    ensures bytes { HasFileBytes }
    ensures workers { HasWorkerLimits }
    ensures market { HasMarketLimits }
    ensures sweep { HasSweepLimits }
{}
