// Files at their limits, and many candidates.
ghost use Rattle.std.specs.Prelude.{◌<◌};

use super::refused_in_turn::run_failing;
use super::{FREED_SEAT, PLACE, PLACED, counts_of, ends, run, shelf, words};
use crate::run_words;
use gate_workers::OpenGate;
use place_edges::{MemShelf, MemSink, RepeatShelf};
use record_files::{Field, put_row_2, put_row_3, put_row_4};
use std::alloc::{AllocError, Global};
use std::test::Fail;

// A file of a header and a row, whose line has so many bytes by zeros in front.
fn long_line(alloc: Global, header: &str, size: usize, row: &str) -> Result<Vec<u8>, AllocError> {
    let mut bytes = header.as_bytes().to_vec(alloc)?;
    for _ in row.len()..size {
        bytes.push(b'0')?;
    }
    bytes.extend_from_slice(row.as_bytes())?;
    bytes.extend_from_slice(b"\r\n")?;
    Ok(bytes)
}

// Three files whose data rows stand in lines of these sizes.
fn long_lines(alloc: Global, sizes: [usize; 3]) -> Result<MemShelf, AllocError> {
    let [programmes, candidates, ranks] = sizes;
    let programmes = long_line(alloc, "programme,type,quota\n", programmes, "101,SAY,1")?;
    let candidates = long_line(alloc, "candidate,list\n", candidates, "1,101")?;
    let ranks = long_line(alloc, "candidate,type,rank\n", ranks, "1,SAY,1")?;
    shelf(
        alloc,
        &[("p", &programmes), ("c", &candidates), ("r", &ranks)],
    )
}

#[test]
fn a_line_may_have_1024_bytes_in_each_file(rt: HostRuntime) -> Result<(), Fail> {
    let alloc = rt.alloc();
    for (sizes, note) in [
        ([1024, 1024, 1024], ""),
        (
            [1025, 1025, 1025],
            "fault programmes line 2 field 0 F10 LineTooLong earlier 0\n",
        ),
        (
            [1024, 1025, 1025],
            "fault candidates line 2 field 0 F10 LineTooLong earlier 0\n",
        ),
        (
            [1024, 1024, 1025],
            "fault ranks line 2 field 0 F10 LineTooLong earlier 0\n",
        ),
    ] {
        let ran = run(&rt, alloc, &PLACE, long_lines(alloc, sizes)?, &OpenGate)?;
        assert_eq!(rt; ran.notes.bytes(), note.as_bytes());
    }
    Ok(())
}

// The candidates of the freed seat, the first with one code behind so many zeros.
fn zeros_before_a_code(alloc: Global, zeros: usize) -> Result<Vec<u8>, AllocError> {
    let mut bytes = b"candidate,list\n1,".to_vec(alloc)?;
    for _ in 0..zeros {
        bytes.push(b'0')?;
    }
    bytes.extend_from_slice(b"101\n2,201\n")?;
    Ok(bytes)
}

// The files of the freed seat with these candidates.
fn with_zeros(alloc: Global, zeros: usize) -> Result<MemShelf, AllocError> {
    let mut files = shelf(alloc, &FREED_SEAT)?;
    let candidates = zeros_before_a_code(alloc, zeros)?;
    files.add(String::from_str(alloc, "c")?, candidates)?;
    Ok(files)
}

#[test]
fn a_code_may_have_as_many_zeros_as_fit_in_its_line(rt: HostRuntime) -> Result<(), Fail> {
    let alloc = rt.alloc();
    let placed = (0, PLACED, b"".as_slice(), 0, 9);
    let files = with_zeros(alloc, 1_019)?;
    ends(&rt, alloc, &PLACE, files, &OpenGate, placed)?;
    let counted = counts_of(&rt, alloc, with_zeros(alloc, 1_019)?);
    assert_eq!(rt; counted.ok(), Some((1, 0, 4)));
    let note = b"fault candidates line 2 field 0 F10 LineTooLong earlier 0\n";
    let faulty = (3, b"".as_slice(), note.as_slice(), 0, 6);
    let files = with_zeros(alloc, 1_020)?;
    ends(&rt, alloc, &PLACE, files, &OpenGate, faulty)?;
    Ok(())
}

#[test]
fn a_file_of_more_than_2_to_the_30_bytes_is_too_long(rt: HostRuntime) -> Result<(), Fail> {
    let alloc = rt.alloc();
    let words = words(alloc, &PLACE)?;
    let mut shelf = RepeatShelf::new(b'x', (1 << 30) + 1);
    let mut out = MemSink::new(alloc, 16, 65_536)?;
    let mut notes = MemSink::new(alloc, 16, 65_536)?;
    let status = run_words(
        &rt, alloc, &words, &mut shelf, &mut out, &mut notes, &OpenGate,
    );
    let note = b"fault programmes line 0 field 0 F11 FileTooLong earlier 0\n";
    let ended = (status.code(), out.bytes(), notes.bytes());
    assert_eq!(rt; ended, (3, b"".as_slice(), note.as_slice()));
    Ok(())
}

// A programmes file with so many rows.
fn many_programmes(alloc: Global, rows: u64) -> Result<Vec<u8>, AllocError> {
    let mut programmes = b"programme,type,quota\n".to_vec(alloc)?;
    for code in 1..=rows {
        put_row_3(
            &mut programmes,
            Field::Number(code),
            Field::Text(b"SAY"),
            Field::Number(1),
        )?;
    }
    Ok(programmes)
}

// The files of the freed seat with such a programmes file.
fn with_programmes(alloc: Global, rows: u64) -> Result<MemShelf, AllocError> {
    let mut files = shelf(alloc, &FREED_SEAT)?;
    let programmes = many_programmes(alloc, rows)?;
    files.add(String::from_str(alloc, "p")?, programmes)?;
    Ok(files)
}

#[test]
fn a_programmes_file_may_have_60_000_rows(rt: HostRuntime) -> Result<(), Fail> {
    let alloc = rt.alloc();
    for (rows, note) in [
        (60_000, ""),
        (
            60_001,
            "fault programmes line 60002 field 0 F09 TooManyRows earlier 0\n",
        ),
    ] {
        let files = with_programmes(alloc, rows)?;
        let ran = run(&rt, alloc, &PLACE, files, &OpenGate)?;
        assert_eq!(rt; ran.notes.bytes(), note.as_bytes());
    }
    Ok(())
}

// The score type of each of four groups.
fn type_of(group: u64) -> &'static [u8] {
    match group {
        0 => b"A",
        1 => b"B",
        2 => b"C",
        _ => b"D",
    }
}

// The list of each group: its own programme first.
fn list_of(group: u64) -> &'static [u8] {
    match group {
        0 => b"1;2;3;4",
        1 => b"2;3;4;1",
        2 => b"3;4;1;2",
        _ => b"4;1;2;3",
    }
}

// Four programmes with a quarter of the seats each.
fn four_programmes(alloc: Global) -> Result<Vec<u8>, AllocError> {
    let mut bytes = b"programme,type,quota\n".to_vec(alloc)?;
    for group in 0..4 {
        let code = Field::Number(group + 1);
        put_row_3(
            &mut bytes,
            code,
            Field::Text(type_of(group)),
            Field::Number(1_250),
        )?;
    }
    Ok(bytes)
}

// 5,000 candidates in four groups.
fn many_candidates(alloc: Global) -> Result<Vec<u8>, AllocError> {
    let mut bytes = b"candidate,list\n".to_vec(alloc)?;
    for index in 0..5_000 {
        let list = list_of(index / 1_250);
        put_row_2(&mut bytes, Field::Number(index + 1), Field::Text(list))?;
    }
    Ok(bytes)
}

// The ranks of all candidates in all four types: in the type of a group its candidates come first.
fn many_ranks(alloc: Global) -> Result<Vec<u8>, AllocError> {
    let mut bytes = b"candidate,type,rank\n".to_vec(alloc)?;
    for group in 0..4 {
        for index in 0..5_000 {
            let rank = (index + 5_000 - 1_250 * group) % 5_000 + 1;
            let name = Field::Text(type_of(group));
            put_row_3(
                &mut bytes,
                Field::Number(index + 1),
                name,
                Field::Number(rank),
            )?;
        }
    }
    Ok(bytes)
}

// The three files.
fn many_files(alloc: Global) -> Result<MemShelf, AllocError> {
    let mut files = MemShelf::new(alloc);
    files.add(String::from_str(alloc, "p")?, four_programmes(alloc)?)?;
    files.add(String::from_str(alloc, "c")?, many_candidates(alloc)?)?;
    files.add(String::from_str(alloc, "r")?, many_ranks(alloc)?)?;
    Ok(files)
}

// Each group in its own programme.
fn many_placed(alloc: Global) -> Result<Vec<u8>, AllocError> {
    let mut placed = b"candidate,programme\n".to_vec(alloc)?;
    for index in 0..5_000 {
        let code = Field::Number(index / 1_250 + 1);
        put_row_2(&mut placed, Field::Number(index + 1), code)?;
    }
    Ok(placed)
}

#[test]
fn five_thousand_candidates_are_placed_by_twenty_thousand_ranks(
    rt: HostRuntime,
) -> Result<(), Fail> {
    let alloc = rt.alloc();
    let text = many_placed(alloc)?;
    // the ranks are taken in more than one piece
    let placed = (0, text.as_slice(), b"".as_slice(), 0, 12);
    ends(&rt, alloc, &PLACE, many_files(alloc)?, &OpenGate, placed)?;
    Ok(())
}

// The rows of the reasons of a candidate of a group, who holds the first programme of its list.
fn put_reasons(text: &mut Vec<u8>, candidate: u64, group: u64) -> Result<(), AllocError>
    requires { group < 4 }
{
    let candidate = Field::Number(candidate);
    for place in 0..4 {
        let code = Field::Number((group + place) % 4 + 1);
        let reason: &[u8] = if place == 0 { b"PLACED" } else { b"BELOW" };
        put_row_4(
            text,
            candidate,
            code,
            Field::Text(reason),
            Field::Text(b"-"),
        )?;
    }
    Ok(())
}

// The reasons of all candidates: many times what is written at once.
fn many_reasons(alloc: Global) -> Result<Vec<u8>, AllocError> {
    let mut text = b"candidate,programme,reason,base\n".to_vec(alloc)?;
    for index in 0..5_000 {
        put_reasons(&mut text, index + 1, index / 1_250)?;
    }
    Ok(text)
}

#[test]
fn many_reasons_are_written_whole_or_up_to_the_put_that_fails(rt: HostRuntime) -> Result<(), Fail> {
    let alloc = rt.alloc();
    let text = many_reasons(alloc)?;
    for (put, code, pieces) in [(0, 0, text.len() / 4_000), (2, 5, 1), (3, 5, 2)] {
        let mut shelf = many_files(alloc)?;
        let words = ["reasons", "p", "c", "r"];
        let ran = run_failing(&rt, alloc, &words, &mut shelf, 4_096, put, 0)?;
        let written = ran.out.bytes();
        let ended = (ran.status.code(), written.len() / 4_000);
        assert_eq!(rt; (ended, text.starts_with(written)), ((code, pieces), true));
    }
    Ok(())
}
