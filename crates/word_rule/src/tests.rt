// Rounds are opened for several numbers of workers.

ghost use Rattle.std.specs.Prelude.{◌≤◌};

use crate::{SharedRound, WorkSeat, open_round};
use market::{Dict, List};
use std::alloc::{AllocError, Global};
use std::test::Fail;

// What several threads may share, and one may hand to another.
fn crosses_threads<T: Send + Sync>(_value: &T) {}

// A round is shared by its workers, and a seat moves to one of them.
fn moves_to_workers(round: &SharedRound, seat: &WorkSeat) {
    crosses_threads(round);
    crosses_threads(seat);
}

// Three programmes of which some seats are taken, and two turns.
fn some_seats_taken(alloc: Global) -> Result<Dict, AllocError> {
    let quota = vec![in alloc; 2, 1, 3]?;
    let fill = vec![in alloc; 1, 0, 3]?;
    let first = List::from_vec(vec![in alloc; 0, 1]?);
    let second = List::from_vec(vec![in alloc; 2]?);
    let lists = vec![in alloc; first, second]?;
    Ok(Dict::from_parts(quota, fill, lists))
}

// The words of a round, one by one.
fn words_of(alloc: Global, round: &SharedRound) -> Result<Vec<u64>, AllocError> {
    let count = round.table.word_count();
    let mut words = Vec::with_capacity(alloc, count)?;
    for word in 0..count {
        words.push(round.table.shared.peek(word))?;
    }
    Ok(words)
}

#[test]
fn a_round_opens_for_each_number_of_workers(rt: HostRuntime) -> Result<(), Fail> {
    let alloc = rt.alloc();
    let dict = some_seats_taken(alloc)?;
    for workers in [1, 2, 64] {
        let (round, seats) = open_round(alloc, &dict, workers)?;
        assert_eq!(rt; seats.len(), workers as usize);
        for (number, seat) in (0..workers).zip(seats.iter()) {
            assert_eq!(rt; seat.worker(), number);
            moves_to_workers(&round, seat);
        }
        // nothing is drawn, the mark is free, the seats taken are counted, both cells are empty,
        // and the flag of the last programme is raised
        assert_eq!(rt;
            words_of(alloc, &round)?.as_slice(),
            &[0, 0, 1, 0, 3, 0, 0, 4][..]
        );
    }
    Ok(())
}

// So many programmes of one seat each, and no turn.
fn only_programmes(alloc: Global, count: usize) -> Result<Dict, AllocError>
    requires { count ≤ 200 }
{
    let quota = vec![in alloc; 1u32; count]?;
    let fill = vec![in alloc; 0u32; count]?;
    Ok(Dict::from_parts(quota, fill, Vec::new(alloc)))
}

#[test]
fn there_is_a_word_of_flags_for_each_64_programmes(rt: HostRuntime) -> Result<(), Fail> {
    let alloc = rt.alloc();
    for (programmes, flag_words) in [(0, 0), (1, 1), (64, 1), (65, 2)] {
        let dict = only_programmes(alloc, programmes)?;
        let (round, _seats) = open_round(alloc, &dict, 1)?;
        assert_eq!(rt; round.table.word_count(), 2 + programmes + flag_words);
    }
    Ok(())
}
