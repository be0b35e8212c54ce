//! The program: `minimise` over standard input and standard output.
#![tactic(auto)]

use spin_base::{StdSink, StdSource};
use std::process::ExitCode;
use std::{env, io, mem};
use tables_top::minimise;

/// The status where the system refuses the words for want of memory.
const OUT_OF_MEMORY: u8 = 9;

/// The status where the system refuses the words otherwise, as where one is not UTF-8.
const WORDS_REFUSED: u8 = 11;

fn main(rt: HostRuntime) -> ExitCode {
    let words = match env::args(&rt) {
        Ok(all) => all.skip(1).collect::<Vec<String>>(rt.alloc()),
        Err(error) if error.kind() == io::ErrorKind::OutOfMemory => return ExitCode::from(
            OUT_OF_MEMORY,
        ),
        Err(_) => return ExitCode::from(WORDS_REFUSED),
    };
    let Ok(words) = words else {
        return ExitCode::from(OUT_OF_MEMORY);
    };
    let mut source = StdSource::new(rt.stdin());
    let mut sink = StdSink::new(rt.stdout());
    let outcome = minimise(rt.alloc(), words.as_slice(), &mut source, &mut sink);
    let status = outcome.status;
    // The process ends here, and with it goes all its memory: taking tables apart would only cost time.
    mem::forget(outcome);
    ExitCode::from(status)
}
