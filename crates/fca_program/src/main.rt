//! A workbench for formal concepts: commands over tables, and explorations by scripts.
#![tactic(auto)]

ghost use Rattle.std.specs.Prelude.{◌≡◌, ◌↔◌, ◌⊎◌};
ghost use Rattle.std.specs.IoError.{error_kind};
ghost use Rattle.std.specs.declared.io.ErrorKind.TheVariants.{InvalidData};

use command_io::{Stop, conclude};
use fca_run::run;
use real_ends::{FileShelf, StdFault, StdInput, StdOutput, TcpLink, words_of};
use std::env;
use std::io::{Error, ErrorKind};
use std::process::ExitCode;

fn main(rt: HostRuntime) -> ExitCode {
    let mut shelf = FileShelf::new(&rt);
    let mut input = StdInput::new(rt.stdin());
    let mut out = StdOutput::new(rt.stdout());
    let mut err = StdFault::new(rt.stderr());
    let mut link = TcpLink::new(&rt);
    let words = match env::args(&rt) {
        Ok(arguments) => words_of(rt.alloc(), arguments).map_err(Stop::from),
        Err(error) => Err(argument_stop(&error)),
    };
    let status = match words {
        Ok(words) => run(
            &rt,
            rt.alloc(),
            &words,
            &mut shelf,
            &mut input,
            &mut out,
            &mut err,
            &mut link,
        ),
        Err(stop) => conclude(&rt, Err(stop), b"", &mut out, &mut err),
    };
    ExitCode::from(status)
}

/// Why there are no words: one of them is no text, or memory ran out.
fn argument_stop(error: &Error) -> Stop
    ensures text { (result ≡ Stop.NoCommand) ↔ (error_kind error.now ≡ InvalidData) }
    ensures memory { (result ≡ Stop.NoCommand) ⊎ (result ≡ Stop.Memory) }
{
    match error.kind() {
        ErrorKind::InvalidData => Stop::NoCommand,
        _ => Stop::Memory,
    }
}
