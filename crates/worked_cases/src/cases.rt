// What was run so far.
use crate::case::{Case, Held};
use crate::line::Line;
use crate::run::{Program, Ran};
use crate::text::push_line;
use std::alloc::{AllocError, Global};
use std::io;
use std::sync::Wait;
use std::thread::Threads;

// With how many workers a case is run, beside as many as when the words say nothing.
const WORKERS: [&str; 4] = ["1", "2", "7", "64"];

/// The files that stand, the case that is being read, and how many runs there were and how many of
/// them came to something else.
#[derive(Drop)]
pub(crate) struct Cases {
    alloc: Global,
    files: Vec<Held>,
    case: Option<Case>,
    runs: u32,
    differing: u32,
}

impl Cases {
    /// Nothing was run.
    pub(crate) fn new(alloc: Global) -> Cases {
        Cases {
            alloc,
            files: Vec::new(alloc),
            case: None,
            runs: 0,
            differing: 0,
        }
    }

    /// How many runs there were, and how many of them came to something else. A line that says
    /// nothing counts as a run that differs.
    pub(crate) fn counts(&self) -> (u32, u32) {
        (self.runs, self.differing)
    }

    /// Takes the line of this number.
    pub(crate) fn take(
        &mut self,
        rt: &(impl Threads + Wait + Sync + Print),
        number: u32,
        line: &str,
    ) -> io::Result<()> {
        let understood = match Line::of(line) {
            Line::Nothing => true,
            Line::Shelf => {
                self.files.clear();
                true
            }
            Line::File(name) => self.begin_file(name)?,
            Line::Without(name) => self.remove_file(name),
            Line::Held(text) => self.hold(text)?,
            Line::Once(words) => self.begin_case(words, false)?,
            Line::Each(words) => self.begin_case(words, true)?,
            Line::Written(text) => self.expect_written(text)?,
            Line::Noted(text) => self.expect_noted(text)?,
            Line::Ends(counts) => self.end_case(rt, number, counts)?,
            Line::Unknown => false,
        };
        if !understood {
            self.differing = self.differing.saturating_add(1);
            println!(rt; "line {number} is not understood: {line}")?;
        }
        Ok(())
    }

    fn begin_file(&mut self, name: &str) -> Result<bool, AllocError> {
        self.remove_file(name);
        self.files.push(Held {
            name: String::from_str(self.alloc, name)?,
            bytes: Vec::new(self.alloc),
        })?;
        Ok(true)
    }

    // Whether there was one of this name.
    fn remove_file(&mut self, name: &str) -> bool {
        let before = self.files.len();
        self.files.retain(|file| file.name.as_str() != name);
        self.files.len() < before
    }

    fn hold(&mut self, text: &str) -> Result<bool, AllocError> {
        let Some(file) = self.files.last_mut() else {
            return Ok(false);
        };
        push_line(&mut file.bytes, text)?;
        Ok(true)
    }

    // Whether the case before was run.
    fn begin_case(&mut self, words: &str, by_each_number: bool) -> Result<bool, AllocError> {
        let ended = self.case.is_none();
        self.case = Some(Case::new(self.alloc, words, by_each_number)?);
        Ok(ended)
    }

    fn expect_written(&mut self, text: &str) -> Result<bool, AllocError> {
        let Some(case) = &mut self.case else {
            return Ok(false);
        };
        case.write(text)?;
        Ok(true)
    }

    fn expect_noted(&mut self, text: &str) -> Result<bool, AllocError> {
        let Some(case) = &mut self.case else {
            return Ok(false);
        };
        case.note(text)?;
        Ok(true)
    }

    fn end_case(
        &mut self,
        rt: &(impl Threads + Wait + Sync + Print),
        number: u32,
        counts: &str,
    ) -> io::Result<bool> {
        let (Some(case), Some(counts)) = (self.case.take(), Counts::read(counts)) else {
            return Ok(false);
        };
        let Some(program) = case
            .words
            .as_str()
            .split(' ')
            .next()
            .and_then(Program::named)
        else {
            return Ok(false);
        };
        self.run(rt, number, (program, None), &case, &counts)?;
        if case.by_each_number {
            for workers in WORKERS {
                self.run(rt, number, (program, Some(workers)), &case, &counts)?;
            }
        }
        Ok(true)
    }

    fn run(
        &mut self,
        rt: &(impl Threads + Wait + Sync + Print),
        number: u32,
        (program, workers): (Program, Option<&str>),
        case: &Case,
        counts: &Counts,
    ) -> io::Result<()> {
        let words = words_of(self.alloc, case.words.as_str(), program, workers)?;
        let ran = program.run(rt, self.alloc, &words, &self.files)?;
        self.runs = self.runs.saturating_add(1);
        if !is_as_expected(&ran, case, counts) {
            self.differing = self.differing.saturating_add(1);
            tell(rt, number, &words, &ran)?;
        }
        Ok(())
    }
}

// The number of the status, how often the shelf was called, and how often it failed.
#[derive(Drop)]
struct Counts {
    status: u8,
    calls: u64,
    faults: u64,
}

impl Counts {
    fn read(text: &str) -> Option<Counts> {
        let mut numbers = text.split(' ');
        let counts = Counts {
            status: numbers.next()?.parse().ok()?,
            calls: numbers.next()?.parse().ok()?,
            faults: numbers.next()?.parse().ok()?,
        };
        numbers.next().is_none().then_some(counts)
    }
}

// The words behind the program's name, with this number of workers behind them. `''` is the empty
// word.
fn words_of(
    alloc: Global,
    words: &str,
    program: Program,
    workers: Option<&str>,
) -> Result<Vec<String>, AllocError> {
    let mut found = Vec::new(alloc);
    for word in words.split(' ').skip(1) {
        let word = if word == "''" { "" } else { word };
        found.push(String::from_str(alloc, word)?)?;
    }
    if let Some(workers) = workers {
        found.push(String::from_str(alloc, program.word_of_workers())?)?;
        found.push(String::from_str(alloc, workers)?)?;
    }
    Ok(found)
}

fn is_as_expected(ran: &Ran, case: &Case, counts: &Counts) -> bool {
    ran.status == counts.status
        && ran.calls == counts.calls
        && ran.faults == counts.faults
        && ran.out.bytes() == case.written.as_slice()
        && ran.notes.bytes() == case.noted.as_slice()
}

// Says what a run came to that differs.
fn tell(rt: &impl Print, number: u32, words: &[String], ran: &Ran) -> io::Result<()> {
    print!(rt; "line {number} differs:")?;
    for word in words {
        print!(rt; " {word}")?;
    }
    println!(rt; ": {} {} {}", ran.status, ran.calls, ran.faults)?;
    for byte in ran.out.bytes().iter().chain(ran.notes.bytes()) {
        print!(rt; "{}", char::from(*byte))?;
    }
    Ok(())
}
