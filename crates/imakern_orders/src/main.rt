//! The program: [`order_top::serve`] on the process's own words and streams.
#![tactic(auto)]

use ima_io::{StdSink, StdSource};
use order_top::serve;
use std::io::ErrorKind;
use std::process::ExitCode;
use std::{env, io};

fn main(rt: HostRuntime) -> ExitCode {
    let mut script = StdSource::new(rt.stdin());
    let mut out = StdSink::new(rt.stdout());
    let mut note = StdSink::new(rt.stderr());
    let words = match words(&rt) {
        Ok(words) => words,
        Err(error) if error.kind() == ErrorKind::OutOfMemory => {
            let _ = rt.eprintln("out of memory");
            return ExitCode::from(7);
        }
        // A word that isn't UTF-8 makes the words no command, just as if there were none.
        Err(_) => Vec::new(rt.alloc()),
    };
    let status = serve(rt.alloc(), &words, &mut script, &mut out, &mut note);
    ExitCode::from(status)
}

// The words of the command line, without the program's name.
fn words(rt: &HostRuntime) -> io::Result<Vec<String>> {
    Ok(env::args(rt)?.skip(1).collect(rt.alloc())?)
}
