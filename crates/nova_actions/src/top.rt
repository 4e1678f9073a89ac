//! The top call.
ghost use Rattle.std.specs.Prelude.{◌≡◌, []};
ghost use Rattle.nova_words.specs.Limits.{HasLimits, MaySave, Saves};

use crate::build::build;
use crate::check::check;
use crate::folders::Folders;
use crate::forms::print_forms;
use crate::listing::list;
use crate::page::make_page;
use crate::replaying::replay_capture;
use crate::simulation::simulate_program;
use crate::testing::test;
use diag_text::finding::Form;
use nova_replay::Streams;
use nova_show::{
    Answer, Ending, Saving, VERSION, print, push_help, push_page_on, push_word_fault, save_all,
};
use nova_texts::{assemble_file, format_sources, print_trace, sarif_log, show_memory};
use nova_words::{Command, command_of};
use nv_base::NoMemory;
use nv_lines::Message;
use nv_outside::{Files, Sink};
use std::alloc::Global;

/// Does what the words of a command line say, which are those after the program's name. Prints on `out` what the command is
/// asked for, and on `err` faults and remarks, which may be coloured.
pub fn run<F: Files, D: Folders, S: Streams, K: Sink, E: Sink>(
    alloc: Global,
    words: &Vec<String>,
    files: &mut F,
    folders: &mut D,
    streams: &mut S,
    out: &mut K,
    err: &mut E,
    is_coloured: bool,
) -> Ending
    // Only `build`, `run`, `test`, `page`, `fmt` and `asm` change files; `replay` writes to a stream.
    ensures { (MaySave words.now.items → ⊥) → F.held files.new ≡ F.held files.old }
{
    let mut answer = Answer::in_form(alloc, form_of(words, is_coloured));
    let savings = savings_of(alloc, words, files, folders, streams, &mut answer);
    finish(alloc, answer, asks_log(words), &savings, files, out, err)
}

// How faults are printed: as objects where an option asks for that.
fn form_of(words: &[String], is_coloured: bool) -> Form {
    if has_option(words, "--json") || asks_log(words) {
        Form::Json
    } else if is_coloured {
        Form::Coloured
    } else {
        Form::Text
    }
}

// Whether faults are printed as a log, which is made of the objects.
fn asks_log(words: &[String]) -> bool {
    match words.first() {
        Some(first) if first.as_str() == "build" || first.as_str() == "check" => {
            has_option(words, "--sarif")
        }
        _ => false,
    }
}

fn has_option(words: &[String], name: &str) -> bool {
    for word in words {
        if word.as_str() == "--" {
            break;
        }
        if word.as_str() == name {
            return true;
        }
    }
    false
}

// Does what the words say, but for saving and printing.
fn savings_of<F: Files, D: Folders, S: Streams>(
    alloc: Global,
    words: &[String],
    files: &mut F,
    folders: &mut D,
    streams: &mut S,
    answer: &mut Answer,
) -> Vec<Saving>
    ensures held { F.held files.new ≡ F.held files.old }
    ensures none { (MaySave words.now → ⊥) → result.items ≡ [] }
{
    match command_of(alloc, words) {
        Ok(command) => perform(alloc, files, folders, streams, command, answer),
        Err(fault) => {
            push_word_fault(alloc, fault, answer);
            Vec::new(alloc)
        }
    }
}

fn perform<F: Files, D: Folders, S: Streams>(
    alloc: Global,
    files: &mut F,
    folders: &mut D,
    streams: &mut S,
    command: Command,
    answer: &mut Answer,
) -> Vec<Saving>
    requires limits { HasLimits command }
    ensures held { F.held files.new ≡ F.held files.old }
    ensures none { (Saves command.entry → ⊥) → result.items ≡ [] }
{
    match command {
        Command::Build(words) => return build(alloc, files, words, answer),
        Command::Run(words) => return simulate_program(alloc, files, words, answer),
        Command::Page(words) => {
            let savings = make_page(alloc, files, &words, answer);
            drop(words);
            return savings;
        }
        Command::Format(words) => return format_sources(alloc, files, words, answer),
        Command::Asm(words) => return assemble_file(alloc, files, words, answer),
        Command::Mem(name) => show_memory(alloc, files, name, answer),
        Command::Replay(words) => {
            replay_capture(alloc, files, streams, &words, answer);
            drop(words)
        }
        Command::List(words) => {
            list(alloc, files, &words, answer);
            drop(words)
        }
        Command::Forms(words) => print_forms(alloc, files, words, answer),
        Command::Check(words) => {
            check(alloc, files, folders, &words, answer);
            drop(words)
        }
        Command::Test(words) => {
            let savings = test(alloc, files, folders, &words, answer);
            drop(words);
            return savings;
        }
        Command::Trace(words) => print_trace(alloc, files, words, answer),
        Command::Explain(words) => push_page_on(alloc, words, answer),
        Command::Help(verb) => push_help(&mut answer.out, verb),
        Command::Version => answer.out.line(VERSION),
        // `main` serves an editor itself: it reads the standard input as it comes.
        Command::Serve => {}
    }
    Vec::new(alloc)
}

// Saves the files, and prints both texts.
fn finish<F: Files, K: Sink, E: Sink>(
    alloc: Global,
    answer: Answer,
    is_log: bool,
    savings: &[Saving],
    files: &mut F,
    out: &mut K,
    err: &mut E,
) -> Ending
    ensures { savings.now ≡ [] → F.held files.new ≡ F.held files.old }
{
    let (ending, output, remarks) = answer.into_parts();
    match texts_of(alloc, output, remarks, is_log) {
        Ok((output, remarks)) => {
            let is_done = save_all(savings, files, out, err) && print(out, &output);
            if print(err, &remarks) && is_done {
                ending
            } else {
                Ending::Failed
            }
        }
        Err(NoMemory) => {
            let _ = err.put(b"nova: error: out of memory\n");
            Ending::Failed
        }
    }
}

fn texts_of(
    alloc: Global,
    output: Message,
    remarks: Message,
    is_log: bool,
) -> Result<(Vec<u8>, Vec<u8>), NoMemory> {
    let output = output.into_bytes()?;
    let remarks = remarks.into_bytes()?;
    if is_log {
        let log = sarif_log(alloc, &remarks)?;
        return Ok((output, log));
    }
    Ok((output, remarks))
}
