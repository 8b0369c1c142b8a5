//! The program `cube`: the words of its command line, the standard streams, and the status with which it ends.
#![tactic(auto)]

use cube_base::{StdSink, StdSource};
use cube_cli::words_of;
use cube_program::{Counted, run_program, tell};
use std::io;
use std::process::ExitCode;

fn main(rt: HostRuntime) -> ExitCode {
    let mut errors = rt.stderr();
    let status = match words_of(&rt) {
        Ok(words) => {
            let mut source = Counted::new(StdSource::new(rt.reader()));
            let mut sink = StdSink::new(io::writer(&rt));
            run_program(&rt, &words, &mut source, &mut sink, &mut errors)
        }
        Err(end) => tell(end, &mut errors),
    };
    ExitCode::from(status)
}
