// The limits of a desk in numbers.

ghost use Rattle.registration_desk.specs.Limits.{HasClerks, HasFileBytes, HasFileLimits};

/// The most clerks, how many there are where the words do not say, the limits of the two files and
/// the bytes that cut them are the numbers that users are told. Every other clause speaks of the
/// most clerks, of these limits and of these bytes by name.
///
/// A law: it changes and answers nothing.
pub fn limits_in_numbers()
    ensures clerks { HasClerks }
    ensures files { HasFileLimits }
    ensures bytes { HasFileBytes }
{}
