//! Runs the worked cases of its standard input, each a few files, words and what they must come to,
//! through the two top calls over files in memory, and says which differ.
#![tactic(auto)]

// A line of the cases.
mod line;
// The bytes that a line stands for.
mod text;
// The files of a case, its words, and what they must come to.
mod case;
// The top calls over the files of a case.
mod run;
// What was run so far.
mod cases;

use cases::Cases;
use std::io;

fn main(rt: HostRuntime) -> io::Result<()> {
    let text = io::read_to_string(rt.alloc(), rt.reader())?;
    let mut cases = Cases::new(rt.alloc());
    let mut number = 0u32;
    for line in text.lines() {
        number = number.saturating_add(1);
        cases.take(&rt, number, line)?;
    }
    let (runs, differing) = cases.counts();
    println!(rt; "{runs} runs, {differing} of them differ")
}
