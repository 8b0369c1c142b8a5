//! The words of the command line.
ghost use Rattle.std.specs.Prelude.{IfErr};
ghost use Rattle.cube_cli.specs.RunEnd.{EndsWithoutWords};

use crate::End;
use std::env;
use std::io::ErrorKind;

/// The words of the command line without the program's name, or how a run ends that cannot have them. That is `Usage` where a word is not
/// UTF-8, since no command has such a word, and `Memory` where an allocation is refused, before any line is done.
///
/// The kit's `env::args` has no contract. So the clause tells the two ends alone: not which words there are, nor which end comes when.
pub fn words_of(rt: &HostRuntime) -> Result<Vec<String>, End>
    ensures { IfErr result EndsWithoutWords }
{
    let args = match env::args(rt) {
        Ok(args) => args,
        Err(error) if error.kind() == ErrorKind::OutOfMemory => {
            return Err(End::Memory { done: 0 });
        }
        Err(_) => return Err(End::Usage),
    };
    let words: Result<Vec<String>, _> = args.skip(1).collect(rt.alloc());
    match words {
        Ok(words) => Ok(words),
        Err(_) => Err(End::Memory { done: 0 }),
    }
}
