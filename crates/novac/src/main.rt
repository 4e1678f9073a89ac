//! The compiler's program: `run` on the words of its command line, over the system's files and the standard output. The tests of `run` stand
//! here too, since a crate that holds tests is proved twice.
#![tactic(auto)]

#[cfg(test)]
mod tests;

use novac_commands::exit_code;
pub use novac_commands::{
    CompileError, Compiled, Weights, WeightsError, compile_text, print_counts, read_weights, run,
};
pub use novac_words::Status;
use nv_outside::{DiskFiles, StdSink};
use std::process::ExitCode;
use std::rt::Env;
use std::{env, io};

fn main(rt: HostRuntime) -> ExitCode {
    let mut files = DiskFiles::new(&rt);
    let mut out = StdSink::new(&rt);
    exit_code(rt.alloc(), command_line(&rt), &mut files, &mut out)
}

// The words of the command line, the program's name first.
fn command_line<R: Env + AllocGlobal>(rt: &R) -> io::Result<Vec<String>> {
    Ok(env::args(rt)?.collect(rt.alloc())?)
}
