//! The program for packet programmers: it compiles, runs, replays, lists, checks, tests and explains programs of Nova.
//!
//! Ends with 0 where it did what its words say, 1 where it was refused or failed, 2 where the words are no command.
#![tactic(auto)]

mod folders;
mod streams;

use folders::DiskFolders;
use nova_actions::{Ending, run};
use nova_lsp::{Ended, serve};
use nova_words::{Command, command_of};
use nv_base::NoMemory;
use nv_outside::{DiskFiles, StdSink};
use std::alloc::Global;
use std::env;
use std::io::{BufReader, ErrorKind, IsTerminal};
use std::process::ExitCode;
use std::rt::Env;
use streams::DiskStreams;

fn main(rt: HostRuntime) -> ExitCode {
    let ending = match command_line(&rt) {
        Ok(words) if asks_server(rt.alloc(), &words) => {
            let mut out = StdSink::new(&rt);
            match BufReader::new(rt.alloc(), rt.reader()) {
                Ok(mut input) => ending_of(serve(rt.alloc(), &mut input, &mut out)),
                Err(_) => Ending::Failed,
            }
        }
        Ok(words) => {
            let mut files = DiskFiles::new(&rt);
            let mut folders = DiskFolders::new(&rt);
            let mut streams = DiskStreams::new(&rt);
            let mut out = StdSink::new(&rt);
            let errors = rt.stderr();
            let mut err = StdSink::new(&errors);
            let is_coloured = errors.is_terminal() && !is_plain(&rt);
            run(
                rt.alloc(),
                &words,
                &mut files,
                &mut folders,
                &mut streams,
                &mut out,
                &mut err,
                is_coloured,
            )
        }
        Err(NoMemory) => Ending::Failed,
    };
    ExitCode::from(ending.code())
}

// Whether the words ask for the language server.
fn asks_server(alloc: Global, words: &[String]) -> bool {
    matches!(command_of(alloc, words), Ok(Command::Serve))
}

fn ending_of(ended: Ended) -> Ending {
    match ended {
        Ended::Exit(true) => Ending::Done,
        Ended::Exit(false) | Ended::InputEnded | Ended::Failed => Ending::Failed,
    }
}

// Whether the environment asks for no colour.
fn is_plain<R: Env + AllocGlobal>(rt: &R) -> bool {
    match env::var(rt, "NO_COLOR") {
        Ok(value) => !value.is_empty(),
        Err(_) => false,
    }
}

// The words of the command line without the program's name, or no words where they aren't all texts.
fn command_line<R: Env + AllocGlobal>(rt: &R) -> Result<Vec<String>, NoMemory> {
    match env::args(rt) {
        Ok(words) => Ok(words.skip(1).collect(rt.alloc())?),
        Err(e) if e.kind() == ErrorKind::OutOfMemory => Err(NoMemory),
        Err(_) => Ok(Vec::new(rt.alloc())),
    }
}
