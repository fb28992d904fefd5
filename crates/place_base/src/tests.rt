// Values at their limits.

use crate::{CandidateNo, FaultKind, FileKind, ProgrammeCode, TypeName};
use std::test::Fail;

#[test]
fn values_at_their_limits(rt: HostRuntime) {
    for (number, fits) in [
        (0, false),
        (1, true),
        (99_999_999_999, true),
        (100_000_000_000, false),
    ] {
        assert_eq!(rt; CandidateNo::new(number).is_some(), fits);
    }
    for (code, fits) in [
        (0, false),
        (1, true),
        (999_999_999, true),
        (1_000_000_000, false),
    ] {
        assert_eq!(rt; ProgrammeCode::new(code).is_some(), fits);
    }
}

#[test]
fn names_of_score_types(rt: HostRuntime) -> Result<(), Fail> {
    for (text, fits) in [
        ("", false),
        ("S", true),
        ("SAY", true),
        ("TYT09AZ1", true),
        ("TYT09AZ12", false),
        ("say", false),
        ("S Y", false),
        ("S/", false),
        ("S:", false),
        ("@", false),
        ("[", false),
    ] {
        assert_eq!(rt; TypeName::new(text.as_bytes()).is_some(), fits);
    }
    let short = TypeName::new(b"EA").ok_or("a name")?;
    let long = TypeName::new(b"EA1").ok_or("a name")?;
    assert!(rt; short < long);
    assert!(rt; short == TypeName::new(b"EA").ok_or("a name")?);
    assert_eq!(rt; long.bytes(), b"EA1".as_slice());
    Ok(())
}

#[test]
fn words_of_faults(rt: HostRuntime) {
    assert_eq!(rt; FaultKind::UnknownCandidate.number(), 12);
    assert_eq!(rt; FaultKind::BadSeat.number(), 13);
    assert_eq!(rt; FaultKind::NotNumber.name(), "NotNumber");
    assert_eq!(rt; FileKind::Ranks.name(), "ranks");
}
