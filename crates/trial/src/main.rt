//! The program without stores, which compiles in less time than `cube`: `try` and `drill`, and the usage text for all other words.
#![tactic(auto)]

use cube_base::{StdSink, StdSource};
use cube_cli::{End, cube, words_of};
use fact_keeper::NoKeeper;
use std::io;
use std::io::Write;
use std::process::ExitCode;

fn main(rt: HostRuntime) -> ExitCode {
    let end = match words_of(&rt) {
        Ok(words) => run_without_store(&rt, &words),
        Err(end) => end,
    };
    let (status, line) = end.report();
    if let Some(line) = line {
        let _ = writeln!(rt.stderr(), "{line}");
    }
    ExitCode::from(status)
}

/// Does what `cube` does for `try` and `drill`, over the standard streams. For all other words it ends with `Usage`, those of stores too.
fn run_without_store(rt: &HostRuntime, words: &[String]) -> End {
    match words {
        [word, ..] if word.as_str() == "try" || word.as_str() == "drill" => {
            let mut source = StdSource::new(rt.reader());
            let mut sink = StdSink::new(io::writer(rt));
            cube(
                rt.alloc(),
                words,
                &mut source,
                &mut sink,
                &mut NoKeeper::new(),
            )
        }
        _ => End::Usage,
    }
}
