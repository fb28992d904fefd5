// Words on both sides of each rule.

use super::{Command, WordsFault, read_words};
use std::alloc::{AllocError, Global};
use std::process::Abort;
use std::test::Fail;

fn words(alloc: Global, texts: &[&str]) -> Result<Vec<String>, AllocError> {
    let mut words = Vec::new(alloc);
    for text in texts {
        words.push(String::from_str(alloc, text)?)?;
    }
    Ok(words)
}

const ROWS: [(&[&str], Result<Command, WordsFault>); 38] = [
    (&["place", "P", "C", "R"], Ok(Command::Place(4))),
    // Any word is a name where a name stands.
    (&["place", "-P", "", "--workers"], Ok(Command::Place(4))),
    (&[], Err(WordsFault::NoCommand)),
    (&["plan"], Err(WordsFault::UnknownCommand(1))),
    (&[""], Err(WordsFault::UnknownCommand(1))),
    (
        &["Place", "P", "C", "R"],
        Err(WordsFault::UnknownCommand(1)),
    ),
    (&["places", "P"], Err(WordsFault::UnknownCommand(1))),
    (&["place"], Err(WordsFault::WordCount(2))),
    (&["place", "P", "C"], Err(WordsFault::WordCount(4))),
    (
        &["place", "P", "C", "R", "S"],
        Err(WordsFault::WordCount(5)),
    ),
    (
        &["place", "P", "C", "R", "S", "T"],
        Err(WordsFault::WordCount(5)),
    ),
    (
        &["place", "P", "C", "R", "--workers=2"],
        Err(WordsFault::WordCount(5)),
    ),
    (
        &["place", "P", "C", "R", "--workers"],
        Err(WordsFault::WordCount(6)),
    ),
    (
        &["place", "P", "C", "R", "--workers", "2", "x"],
        Err(WordsFault::WordCount(7)),
    ),
    (
        &["place", "P", "C", "R", "--workers", "1"],
        Ok(Command::Place(1)),
    ),
    (
        &["place", "P", "C", "R", "--workers", "064"],
        Ok(Command::Place(64)),
    ),
    (
        &["place", "P", "C", "R", "--workers", "0"],
        Err(WordsFault::BadNumber(6)),
    ),
    (
        &["place", "P", "C", "R", "--workers", "65"],
        Err(WordsFault::BadNumber(6)),
    ),
    (
        &["place", "P", "C", "R", "--workers", ""],
        Err(WordsFault::BadNumber(6)),
    ),
    (
        &["place", "P", "C", "R", "--workers", "+2"],
        Err(WordsFault::BadNumber(6)),
    ),
    (
        &["place", "P", "C", "R", "--workers", "18446744073709551618"],
        Err(WordsFault::BadNumber(6)),
    ),
    (
        &["place", "--workers", "2", "P", "C", "R"],
        Err(WordsFault::WordCount(5)),
    ),
    (
        &["place", "P", "C", "--workers", "2"],
        Err(WordsFault::WordCount(5)),
    ),
    (&["base", "P", "C", "R"], Ok(Command::Base(4))),
    (
        &["reasons", "P", "C", "R", "--workers", "7"],
        Ok(Command::Reasons(7)),
    ),
    (
        &["reason", "P", "C", "R"],
        Err(WordsFault::UnknownCommand(1)),
    ),
    (&["fixed", "P", "C", "R"], Ok(Command::Fixed(4))),
    (
        &["fixed", "P", "C", "R", "S"],
        Err(WordsFault::WordCount(5)),
    ),
    // The second placement takes two words more.
    (
        &["second", "P", "C", "R", "S", "T", "--workers", "64"],
        Ok(Command::Second(64)),
    ),
    (
        &["second", "P", "C", "R", "S"],
        Err(WordsFault::WordCount(6)),
    ),
    (
        &["second", "P", "C", "R", "S", "T", "U"],
        Err(WordsFault::WordCount(7)),
    ),
    (
        &["second", "P", "C", "R", "S", "T", "--workers", "0"],
        Err(WordsFault::BadNumber(8)),
    ),
    // The audit takes a word more.
    (&["audit", "P", "C", "R", "S"], Ok(Command::Audit(4))),
    (&["audit", "P", "C", "R"], Err(WordsFault::WordCount(5))),
    (
        &["audit", "P", "C", "R", "S", "T"],
        Err(WordsFault::WordCount(6)),
    ),
    (
        &["audit", "P", "C", "R", "S", "--workers"],
        Err(WordsFault::WordCount(7)),
    ),
    (
        &["audit", "P", "C", "R", "S", "--workers", "1", "x"],
        Err(WordsFault::WordCount(8)),
    ),
    (
        &["audit", "P", "C", "R", "S", "--workers", "0"],
        Err(WordsFault::BadNumber(7)),
    ),
];

// Numbers in their ranges: seed, candidates, programmes, types, workers. Any number of leading zeros
// is allowed.
const MADE: [(&[&str], (u64, u32, u32, u32, u32)); 6] = [
    (&["make", "1", "0", "0", "1"], (1, 0, 0, 1, 4)),
    (
        &["make", "007", "0300", "40", "05", "--workers", "64"],
        (7, 300, 40, 5, 64),
    ),
    (
        &["make", "18446744073709551615", "1250000", "60000", "16"],
        (u64::MAX, 1_250_000, 60_000, 16, 4),
    ),
    (
        &["make", "000000000000000000000000000001", "0", "0", "1"],
        (1, 0, 0, 1, 4),
    ),
    (&["make", "1", "3500000", "0", "5"], (1, 3_500_000, 0, 5, 4)),
    (&["make", "1", "3333333", "4", "6"], (1, 3_333_333, 4, 6, 4)),
];

const REFUSED: [(&[&str], Result<Command, WordsFault>); 27] = [
    // Behind the end of each range, and numbers that no word of the machine has.
    (
        &["make", "18446744073709551616", "0", "0", "1"],
        Err(WordsFault::BadNumber(2)),
    ),
    (
        &["make", "36893488147419103233", "0", "0", "1"],
        Err(WordsFault::BadNumber(2)),
    ),
    (
        &["make", "1", "3500001", "0", "5"],
        Err(WordsFault::BadNumber(3)),
    ),
    (
        &["make", "1", "4294967296", "0", "1"],
        Err(WordsFault::BadNumber(3)),
    ),
    (
        &["make", "1", "0", "60001", "1"],
        Err(WordsFault::BadNumber(4)),
    ),
    (&["make", "1", "0", "0", "0"], Err(WordsFault::BadNumber(5))),
    (
        &["make", "1", "0", "0", "17"],
        Err(WordsFault::BadNumber(5)),
    ),
    // Candidates times types are at most 20,000,000, and else the types are bad.
    (
        &["make", "1", "3500000", "4", "6"],
        Err(WordsFault::BadNumber(5)),
    ),
    (
        &["make", "1", "1250001", "4", "16"],
        Err(WordsFault::BadNumber(5)),
    ),
    (
        &["make", "1", "3333334", "4", "6"],
        Err(WordsFault::BadNumber(5)),
    ),
    // The first bad number is told, and that of the workers is the last.
    (&["make", "1", "x", "4", "2"], Err(WordsFault::BadNumber(3))),
    (&["make", "", "x", "4", "2"], Err(WordsFault::BadNumber(2))),
    (
        &["make", "-1", "3", "4", "2"],
        Err(WordsFault::BadNumber(2)),
    ),
    (
        &["make", "1", "3", "4 ", "99"],
        Err(WordsFault::BadNumber(4)),
    ),
    (
        &["make", "1", "3500000", "x", "6"],
        Err(WordsFault::BadNumber(4)),
    ),
    (
        &["make", "1", "3500000", "4", "6", "--workers", "0"],
        Err(WordsFault::BadNumber(5)),
    ),
    (
        &["make", "1", "3", "4", "2", "--workers", "0"],
        Err(WordsFault::BadNumber(7)),
    ),
    (
        &["make", "1", "3", "4", "2", "--workers", "65"],
        Err(WordsFault::BadNumber(7)),
    ),
    (
        &["make", "1", "3", "4", "2", "--workers", "two"],
        Err(WordsFault::BadNumber(7)),
    ),
    // A word that is missing or too many comes before any number.
    (&["make"], Err(WordsFault::WordCount(2))),
    (&["make", "x", "x", "x"], Err(WordsFault::WordCount(5))),
    (
        &["make", "x", "3", "4", "2", "5"],
        Err(WordsFault::WordCount(6)),
    ),
    (
        &["make", "1", "3", "4", "2", "--clerks", "0"],
        Err(WordsFault::WordCount(6)),
    ),
    (
        &["make", "x", "3", "4", "2", "--workers"],
        Err(WordsFault::WordCount(7)),
    ),
    (
        &["make", "1", "3", "4", "2", "--workers", "0", "x"],
        Err(WordsFault::WordCount(8)),
    ),
    // The option's word is no number where a number stands.
    (
        &["make", "1", "3", "4", "--workers"],
        Err(WordsFault::BadNumber(5)),
    ),
    (
        &["Make", "1", "3", "4", "2"],
        Err(WordsFault::UnknownCommand(1)),
    ),
];

// The words of a sweep: code, least and largest quota, workers.
const SWEPT: [(&[&str], (u32, u32, u32, u32)); 6] = [
    (&["sweep", "P", "C", "R", "101", "0", "2"], (101, 0, 2, 4)),
    (
        &["sweep", "P", "C", "R", "1", "0", "0", "--workers", "64"],
        (1, 0, 0, 64),
    ),
    (
        &["sweep", "P", "C", "R", "999999999", "0", "999"],
        (999_999_999, 0, 999, 4),
    ),
    (
        &["sweep", "P", "C", "R", "7", "99001", "100000"],
        (7, 99_001, 100_000, 4),
    ),
    (
        &["sweep", "P", "C", "R", "7", "100000", "100000"],
        (7, 100_000, 100_000, 4),
    ),
    (
        &[
            "sweep",
            "",
            "--workers",
            "-",
            "0000000000101",
            "000",
            "0002",
        ],
        (101, 0, 2, 4),
    ),
];

const UNSWEPT: [(&[&str], Result<Command, WordsFault>); 21] = [
    // Behind the end of each range.
    (
        &["sweep", "P", "C", "R", "0", "0", "2"],
        Err(WordsFault::BadNumber(5)),
    ),
    (
        &["sweep", "P", "C", "R", "1000000000", "0", "2"],
        Err(WordsFault::BadNumber(5)),
    ),
    (
        &["sweep", "P", "C", "R", "4294967397", "0", "2"],
        Err(WordsFault::BadNumber(5)),
    ),
    (
        &["sweep", "P", "C", "R", "101", "100001", "100001"],
        Err(WordsFault::BadNumber(6)),
    ),
    (
        &["sweep", "P", "C", "R", "101", "99001", "100001"],
        Err(WordsFault::BadNumber(7)),
    ),
    // Before the least quota, and more than 999 behind it.
    (
        &["sweep", "P", "C", "R", "101", "2", "1"],
        Err(WordsFault::BadNumber(7)),
    ),
    (
        &["sweep", "P", "C", "R", "101", "0", "1000"],
        Err(WordsFault::BadNumber(7)),
    ),
    (
        &["sweep", "P", "C", "R", "101", "5", "1005"],
        Err(WordsFault::BadNumber(7)),
    ),
    // The first bad number is told, and that of the workers is the last.
    (
        &["sweep", "P", "C", "R", "x", "y", "z"],
        Err(WordsFault::BadNumber(5)),
    ),
    (
        &["sweep", "P", "C", "R", "101", "100001", "0"],
        Err(WordsFault::BadNumber(6)),
    ),
    (
        &["sweep", "P", "C", "R", "101", "", "1"],
        Err(WordsFault::BadNumber(6)),
    ),
    (
        &["sweep", "P", "C", "R", "101", "0", "+1"],
        Err(WordsFault::BadNumber(7)),
    ),
    (
        &["sweep", "P", "C", "R", "101", "0", "x", "--workers", "0"],
        Err(WordsFault::BadNumber(7)),
    ),
    (
        &["sweep", "P", "C", "R", "101", "0", "1", "--workers", "0"],
        Err(WordsFault::BadNumber(9)),
    ),
    // A word that is missing or too many comes before any number.
    (&["sweep"], Err(WordsFault::WordCount(2))),
    (
        &["sweep", "P", "C", "R", "x"],
        Err(WordsFault::WordCount(6)),
    ),
    (
        &["sweep", "P", "C", "R", "101", "0"],
        Err(WordsFault::WordCount(7)),
    ),
    (
        &["sweep", "P", "C", "R", "0", "0", "1", "2"],
        Err(WordsFault::WordCount(8)),
    ),
    (
        &["sweep", "P", "C", "R", "0", "0", "1", "--workers"],
        Err(WordsFault::WordCount(9)),
    ),
    // The option's word is no number where a number stands.
    (
        &["sweep", "P", "C", "R", "101", "--workers", "2"],
        Err(WordsFault::BadNumber(6)),
    ),
    (
        &["sweeps", "P", "C", "R", "101", "0", "1"],
        Err(WordsFault::UnknownCommand(1)),
    ),
];

// Compares what each list of words means.
fn each_means(
    rt: &impl Abort,
    alloc: Global,
    rows: &[(&[&str], Result<Command, WordsFault>)],
) -> Result<(), Fail> {
    for (texts, meaning) in rows {
        let read = read_words(&words(alloc, texts)?);
        assert_eq!(rt; read, *meaning, "{texts:?}");
    }
    Ok(())
}

#[test]
fn a_command_is_its_word_and_as_many_words_as_it_wants(rt: HostRuntime) -> Result<(), Fail> {
    each_means(&rt, rt.alloc(), &ROWS)
}

#[test]
fn a_market_is_made_from_numbers_in_their_ranges(rt: HostRuntime) -> Result<(), Fail> {
    for (texts, (seed, candidates, programmes, types, workers)) in MADE {
        let read = read_words(&words(rt.alloc(), texts)?);
        let made = Command::Make {
            seed,
            candidates,
            programmes,
            types,
            workers,
        };
        assert_eq!(rt; read, Ok(made), "{texts:?}");
    }
    Ok(())
}

#[test]
fn a_bad_number_is_told_where_the_words_are_as_many_as_wanted(rt: HostRuntime) -> Result<(), Fail> {
    each_means(&rt, rt.alloc(), &REFUSED)
}

#[test]
fn a_sweep_is_asked_for_by_a_code_and_two_quotas(rt: HostRuntime) -> Result<(), Fail> {
    for (texts, (code, low, high, workers)) in SWEPT {
        let read = read_words(&words(rt.alloc(), texts)?);
        let sweep = Command::Sweep {
            code,
            low,
            high,
            workers,
        };
        assert_eq!(rt; read, Ok(sweep), "{texts:?}");
    }
    each_means(&rt, rt.alloc(), &UNSWEPT)
}
