//! Runs the registration desk over the files that its words name.
#![tactic(auto)]

use place_edges::{RealShelf, RealSink};
use registration_desk::{OpenDesk, run_desk};
use std::env;
use std::process::ExitCode;

// How the process ends where the system does not give its words.
const NO_WORDS: u8 = 1;

fn main(rt: HostRuntime) -> ExitCode {
    let alloc = rt.alloc();
    let Ok(args) = env::args(&rt) else {
        return ExitCode::from(NO_WORDS);
    };
    let Ok(words) = args.skip(1).collect::<Vec<String>>(alloc) else {
        return ExitCode::from(NO_WORDS);
    };
    let mut shelf = RealShelf::new(rt);
    let mut out = RealSink::new(rt.stdout());
    let mut notes = RealSink::new(rt.stderr());
    let status = run_desk(
        &rt, alloc, &words, &mut shelf, &mut out, &mut notes, &OpenDesk,
    );
    ExitCode::from(status.code())
}
