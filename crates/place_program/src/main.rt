//! Does what its words say over the system's files and streams.
#![tactic(auto)]

use gate_workers::RestingGate;
use place_edges::{RealShelf, RealSink};
use place_run::run_words;
use std::env;
use std::process::ExitCode;

// How the process ends where the system does not give its words.
const NO_WORDS: u8 = 1;

fn main(rt: HostRuntime) -> ExitCode {
    let alloc = rt.alloc();
    let Ok(args) = env::args(&rt) else {
        return ExitCode::from(NO_WORDS);
    };
    let Ok(words) = args.skip(1).collect::<Vec<String>>(alloc) else {
        return ExitCode::from(NO_WORDS);
    };
    let mut shelf = RealShelf::new(rt);
    let mut out = RealSink::new(rt.stdout());
    let mut notes = RealSink::new(rt.stderr());
    let gate = RestingGate::new(&rt);
    let status = run_words(&rt, alloc, &words, &mut shelf, &mut out, &mut notes, &gate);
    ExitCode::from(status.code())
}
