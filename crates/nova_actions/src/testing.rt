//! The command `test`.
ghost use Rattle.std.specs.Prelude.{◌≡◌, ◌≤◌, length};
ghost use Rattle.novac_words.specs.Limits.{memory_limit, object_limit, source_limit};
ghost use Rattle.nova_words.specs.Limits.{IsBudget};

use crate::compare::push_plain;
use crate::compiled::{object_of_source, push_refused};
use crate::folders::Folders;
use crate::found::{Folder, case_of, folder_at, is_case, split_path};
use crate::verdict::{Outcomes, push_verdict};
use diag_text::finding::Source;
use nova_compile::{FrontError, typed};
use nova_show::{
    Answer, Ending, MemoryText, Saving, add_saving, load, load_memory, push_run_refusal,
};
use nova_texts::{Coverage, Report};
use nova_words::{Test, TestReport};
use novac_machine::{exec_job, job_of, run_bytes};
use novac_words::limits::{MEMORY_LIMIT, OBJECT_LIMIT, SOURCE_LIMIT};
use novac_words::{Refusal, Reply};
use nv_ast::Typed;
use nv_base::NoMemory;
use nv_lines::Message;
use nv_outside::Files;
use std::alloc::{AllocError, Global};

/// Runs sources on the memory texts beside them, by the interpreter and by their code, and compares what both print with each
/// other and with the outcome text beside them. Gives the outcome texts that are to be saved.
pub fn test<F: Files, D: Folders>(
    alloc: Global,
    files: &mut F,
    folders: &mut D,
    words: &Test,
    answer: &mut Answer,
) -> Vec<Saving>
    requires steps { words.now.steps ≤ 100000000 }
    requires budget { IsBudget words.now.budget }
    ensures held { F.held files.new ≡ F.held files.old }
{
    let mut results = Results {
        report: Report::new(alloc, words.report),
        savings: Vec::new(alloc),
        coverage: Coverage::new(alloc),
    };
    for path in words.paths.iter() {
        test_path(alloc, files, folders, *path, words, &mut results, answer);
    }
    let Results {
        report,
        savings,
        coverage,
    } = results;
    drop(coverage);
    push_report(&report, words, answer);
    drop(report);
    savings
}

// What came of the tests, the outcome texts that are to be saved, and which parts of a source were reached.
#[derive(Drop)]
struct Results {
    report: Report,
    savings: Vec<Saving>,
    coverage: Coverage,
}

// No memory text at all is a fault too, since a wrong path would pass else.
fn push_report(report: &Report, words: &Test, answer: &mut Answer) {
    if report.is_empty() {
        answer.fault(
            "nova",
            match words.case {
                None =>
                    "no memory text `NAME*.mem` or `NAME*.nmem` was found beside a source `NAME.nova`",
                Some(_) =>
                    "no memory text of this name was found beside a source `NAME.nova` that it belongs to",
            },
        );
    }
    if report.failed() > 0 {
        answer.ending = Ending::Failed;
    }
    report.push(&mut answer.out)
}

// A source, or each one of a folder.
fn test_path<F: Files, D: Folders>(
    alloc: Global,
    files: &mut F,
    folders: &mut D,
    path: &str,
    words: &Test,
    results: &mut Results,
    answer: &mut Answer,
)
    requires steps { words.now.steps ≤ 100000000 }
    requires budget { IsBudget words.now.budget }
    ensures held { F.held files.new ≡ F.held files.old }
{
    if path.ends_with(".nova") {
        let (at, name) = split_path(path);
        if let Some(folder) = folder_at(alloc, folders, at, answer) {
            test_source(alloc, files, &folder, name, words, results, answer);
            drop(folder)
        }
    } else if let Some(folder) = folder_at(alloc, folders, path, answer) {
        test_folder(alloc, files, &folder, words, results, answer);
        drop(folder)
    }
}

fn test_folder<F: Files>(
    alloc: Global,
    files: &mut F,
    folder: &Folder,
    words: &Test,
    results: &mut Results,
    answer: &mut Answer,
)
    requires steps { words.now.steps ≤ 100000000 }
    requires budget { IsBudget words.now.budget }
    ensures held { F.held files.new ≡ F.held files.old }
{
    for name in folder.names.iter() {
        if name.as_str().ends_with(".nova") {
            test_source(alloc, files, folder, name.as_str(), words, results, answer);
        }
    }
}

fn test_source<F: Files>(
    alloc: Global,
    files: &mut F,
    folder: &Folder,
    name: &str,
    words: &Test,
    results: &mut Results,
    answer: &mut Answer,
)
    requires steps { words.now.steps ≤ 100000000 }
    requires budget { IsBudget words.now.budget }
    ensures held { F.held files.new ≡ F.held files.old }
{
    let Some(path) = folder.path_of(alloc, name, answer) else {
        return;
    };
    let path = path.as_str();
    let Some(source) = load(alloc, files, path, SOURCE_LIMIT, answer) else {
        return results.report.refuse(path);
    };
    let Some(object) = object_for(alloc, path, &source, words, answer) else {
        return results.report.refuse(path);
    };
    let Some(typed) = typed_in(alloc, path, &source, answer) else {
        return results.report.refuse(path);
    };
    let program = Program {
        path,
        typed: &typed,
        object: &object,
        source: &source,
    };
    if object.len() as u64 <= OBJECT_LIMIT {
        test_covered(alloc, files, folder, program, name, words, results, answer)
    } else {
        results.report.refuse(path);
        answer.fault(path, "the object is too long")
    }
}

// The object of a source; no byte where the interpreter alone runs.
fn object_for(
    alloc: Global,
    path: &str,
    source: &[u8],
    words: &Test,
    answer: &mut Answer,
) -> Option<Vec<u8>>
    requires budget { IsBudget words.now.budget }
{
    if words.is_interpreted {
        return Some(Vec::new(alloc));
    }
    object_of_source(alloc, path, words.budget, source, answer)
}

// The typed program of a source.
fn typed_in(alloc: Global, path: &str, source: &[u8], answer: &mut Answer) -> Option<Typed>
    requires { length source.now ≤ source_limit }
{
    match typed(alloc, source) {
        Ok(program) => Some(program),
        Err(FrontError::NoMemory) => {
            answer.fail();
            None
        }
        Err(_) => {
            push_refused(alloc, path, source, answer);
            None
        }
    }
}

// The program of a source, and the object of its code.
#[derive(Clone, Copy)]
struct Program<'a> {
    path: &'a str,
    typed: &'a Typed,
    object: &'a [u8],
    source: &'a [u8],
}

// Tests a program, and tells which of its parts no memory text reaches if that is asked for.
fn test_covered<F: Files>(
    alloc: Global,
    files: &mut F,
    folder: &Folder,
    program: Program,
    name: &str,
    words: &Test,
    results: &mut Results,
    answer: &mut Answer,
)
    requires steps { words.now.steps ≤ 100000000 }
    requires object { length program.object.now ≤ object_limit }
    ensures held { F.held files.new ≡ F.held files.old }
{
    if words.has_coverage {
        results.coverage.begin(alloc, program.source.len());
    }
    test_program(alloc, files, folder, program, name, words, results, answer);
    if words.has_coverage {
        push_coverage(alloc, program, words, &results.coverage, answer);
    }
}

fn push_coverage(
    alloc: Global,
    program: Program,
    words: &Test,
    coverage: &Coverage,
    answer: &mut Answer,
) {
    let source = Source {
        name: program.path,
        bytes: program.source,
    };
    let has_line = words.report == TestReport::Lines;
    coverage.push(alloc, source, program.typed.program(), has_line, answer)
}

fn test_program<F: Files>(
    alloc: Global,
    files: &mut F,
    folder: &Folder,
    program: Program,
    name: &str,
    words: &Test,
    results: &mut Results,
    answer: &mut Answer,
)
    requires steps { words.now.steps ≤ 100000000 }
    requires object { length program.object.now ≤ object_limit }
    ensures held { F.held files.new ≡ F.held files.old }
{
    let stem = match name.strip_suffix(".nova") {
        Some(stem) => stem,
        None => name,
    };
    if words.case.is_none() {
        push_lonely(alloc, folder, stem, results, answer);
    }
    for memory in folder.names.iter() {
        if folder.is_memory_of(stem, memory.as_str()) && is_asked(words, memory.as_str()) {
            test_memory(
                alloc,
                files,
                folder,
                program,
                memory.as_str(),
                words,
                results,
                answer,
            );
        }
    }
}

// Whether the words ask for a memory text.
fn is_asked(words: &Test, name: &str) -> bool {
    match words.case {
        Some(case) => is_case(name, case),
        None => true,
    }
}

// Outcome texts without a memory text are faults.
fn push_lonely(
    alloc: Global,
    folder: &Folder,
    stem: &str,
    results: &mut Results,
    answer: &mut Answer,
) {
    for name in folder.names.iter() {
        if folder.is_lonely(stem, name.as_str()) {
            if let Some(path) = folder.path_of(alloc, name.as_str(), answer) {
                let mut reason = Message::new(alloc);
                reason.line(
                    "no memory text `.mem` or `.nmem` of this name is beside the outcome text",
                );
                results.report.fail(path.as_str(), reason);
                drop(path)
            }
        }
    }
}

// One run by the interpreter and one of the code, on the memory text of this name.
fn test_memory<F: Files>(
    alloc: Global,
    files: &mut F,
    folder: &Folder,
    program: Program,
    name: &str,
    words: &Test,
    results: &mut Results,
    answer: &mut Answer,
)
    requires steps { words.now.steps ≤ 100000000 }
    requires object { length program.object.now ≤ object_limit }
    ensures held { F.held files.new ≡ F.held files.old }
{
    let Some(path) = folder.path_of(alloc, name, answer) else {
        return;
    };
    let path = path.as_str();
    let Some(memory) = load_memory(alloc, files, path, answer) else {
        return results.report.refuse(path);
    };
    results
        .coverage
        .add(alloc, program.typed, &memory.text, u64::from(words.steps));
    let Some((meant, done)) = outcomes_on(alloc, program, words, path, &memory, answer) else {
        return results.report.refuse(path);
    };
    let expected = expected_of(alloc, files, folder, name, answer);
    let outcomes = Outcomes {
        expected: match &expected {
            Some(text) => Some(text.as_slice()),
            None => None,
        },
        meant: &meant,
        done: &done,
        steps: words.steps,
        is_updating: words.is_updating,
    };
    if push_verdict(alloc, path, outcomes, &mut results.report) {
        save_outcome(alloc, path, &meant, results, answer);
    }
}

// The outcome text beside a memory text is to hold this.
fn save_outcome(
    alloc: Global,
    path: &str,
    text: &[u8],
    results: &mut Results,
    answer: &mut Answer,
) {
    let stem = case_of(path).unwrap_or(path);
    let made = format!(in alloc; "{stem}.out");
    match (made, Vec::from_slice(alloc, text)) {
        (Ok(name), Ok(bytes)) => add_saving(
            alloc,
            &mut results.savings,
            name.as_str(),
            bytes,
            answer,
        ),
        _ => answer.fail(),
    }
}

// What the interpreter prints, and what the run of the code prints, but for the line that names an exception, which is only there.
fn outcomes_on(
    alloc: Global,
    program: Program,
    words: &Test,
    path: &str,
    memory: &MemoryText,
    answer: &mut Answer,
) -> Option<(Vec<u8>, Vec<u8>)>
    requires steps { words.now.steps ≤ 100000000 }
    requires object { length program.object.now ≤ object_limit }
    requires memory { length memory.now.text.items ≤ memory_limit }
{
    let steps = u64::from(words.steps);
    let meant = reply_of(alloc, program, steps, &memory.text);
    let meant = text_of(alloc, program, path, memory, meant, answer)?;
    if words.is_interpreted {
        return interpreted(alloc, meant, answer);
    }
    let done = run_bytes(alloc, program.object, &memory.text, steps);
    let done = text_of(alloc, program, path, memory, done, answer)?;
    let done = plain_of(alloc, done, answer)?;
    Some((meant, done))
}

// The interpreter's outcome in the place of both.
fn interpreted(alloc: Global, meant: Vec<u8>, answer: &mut Answer) -> Option<(Vec<u8>, Vec<u8>)> {
    match Vec::from_slice(alloc, &meant) {
        Ok(done) => Some((meant, done)),
        Err(_) => {
            answer.fail();
            None
        }
    }
}

// An outcome text without the line that names an exception.
fn plain_of(alloc: Global, text: Vec<u8>, answer: &mut Answer) -> Option<Vec<u8>> {
    let mut plain = Message::new(alloc);
    push_plain(&mut plain, &text);
    match plain.into_bytes() {
        Ok(text) => Some(text),
        Err(AllocError) => {
            answer.fail();
            None
        }
    }
}

// What the interpreter answers.
fn reply_of<'a>(
    alloc: Global,
    program: Program,
    steps: u64,
    text: &[u8],
) -> Result<Reply, Refusal<'a>>
    requires memory { length text.now ≤ memory_limit }
{
    let job = job_of(alloc, text, program.typed.params())?;
    Ok(exec_job(alloc, program.typed, job, steps)?)
}

fn text_of(
    alloc: Global,
    program: Program,
    path: &str,
    memory: &MemoryText,
    reply: Result<Reply, Refusal>,
    answer: &mut Answer,
) -> Option<Vec<u8>> {
    match reply {
        Ok(Reply { status: _, text }) => Some(text),
        Err(refusal) => {
            let params = Some(program.typed.params());
            push_run_refusal(alloc, program.path, params, path, memory, refusal, answer);
            None
        }
    }
}

// The outcome text beside a memory text, if there is one, without a line that names an exception.
fn expected_of<F: Files>(
    alloc: Global,
    files: &mut F,
    folder: &Folder,
    name: &str,
    answer: &mut Answer,
) -> Option<Vec<u8>>
    ensures held { F.held files.new ≡ F.held files.old }
{
    let stem = case_of(name)?;
    let Ok(name) = format!(in alloc; "{stem}.out") else {
        answer.fail();
        return None;
    };
    if !folder.has(name.as_str()) {
        return None;
    }
    let path = folder.path_of(alloc, name.as_str(), answer)?;
    let text = load(alloc, files, path.as_str(), MEMORY_LIMIT, answer)?;
    plain_of(alloc, text, answer)
}
