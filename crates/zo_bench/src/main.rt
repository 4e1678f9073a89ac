//! Solves a 0-1 program and writes the report: `zo_bench PROGRAM REPORT`.
//!
//! Ends with 0 where the report was written, 2 where the words are no command, 3 where the program can't be read, 4 where the
//! report can't be written, 5 for memory exhaustion, 6 where the file isn't a program's text.
#![tactic(auto)]

use nv_outside::DiskFiles;
use std::env;
use std::process::ExitCode;
use zo_bench_files::{Failure, solve_file};

fn main(rt: HostRuntime) -> ExitCode {
    let words = match env::args(&rt) {
        Ok(words) => words.skip(1).collect(rt.alloc()),
        Err(_) => Ok(Vec::new(rt.alloc())),
    };
    let Ok(words) = words else {
        return ExitCode::from(Failure::Memory.code());
    };
    if words.len() != 2 {
        return ExitCode::from(Failure::Words.code());
    }
    let mut files = DiskFiles::new(&rt);
    match solve_file(rt.alloc(), &mut files, words[0].as_str(), words[1].as_str()) {
        Ok(()) => ExitCode::SUCCESS,
        Err(failure) => ExitCode::from(failure.code()),
    }
}
