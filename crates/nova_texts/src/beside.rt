//! The listing of the code of a source, with the lines of the source between its instructions.
ghost use Rattle.std.specs.Prelude.{◌≤◌, length};
ghost use Rattle.novac_words.specs.Limits.{source_limit};

use crate::alongside::{Known, tie_run};
use crate::ends::{exceptions_of, functions_of, only_end};
use crate::points::points_of;
use crate::ties::Ties;
use diag_text::finding::Source;
use nova_compile::{FrontError, typed};
use nova_show::{Answer, MemoryText, Origins, list_object, push_run_refusal};
use novac_machine::job_of;
use novac_words::limits::{MEMORY_LIMIT, OBJECT_LIMIT};
use nv_ast::Typed;
use nv_base::NoMemory;
use std::alloc::Global;
use uc_isa::Code;
use uc_object::decode;

/// What is listed: a source with the object of its code, the text of its single-use form, and memory texts with their names, on which
/// the code is run to see where its instructions come from.
#[derive(Clone, Copy)]
pub struct Listed<'l> {
    pub source: Source<'l, 'l>,
    pub object: &'l [u8],
    pub form: &'l [u8],
    pub memories: &'l [MemoryText],
    pub names: &'l [&'l str],
}

/// Lists the code of a source.
pub fn list_beside(alloc: Global, it: Listed, answer: &mut Answer)
    requires source { length it.source.bytes.now ≤ source_limit }
{
    match typed(alloc, it.source.bytes) {
        Ok(program) => {
            list_program(alloc, it, &program, answer);
            drop(program)
        }
        Err(FrontError::NoMemory) => answer.fail(),
        Err(_) => list_object(
            alloc,
            it.source.name,
            it.object,
            it.form,
            Origins::none(),
            answer,
        ),
    }
}

fn list_program(alloc: Global, it: Listed, program: &Typed, answer: &mut Answer) {
    if it.object.len() as u64 > OBJECT_LIMIT {
        return answer.fault(it.source.name, "the object is too long");
    }
    if !are_good(alloc, it, program, answer) {
        return;
    }
    let Ok(object) = decode(alloc, it.object) else {
        return answer.fail();
    };
    let ties = ties_of(alloc, it, program, object.code(), answer);
    drop(object);
    match ties {
        Ok(ties) => {
            let origins = Origins {
                source: it.source,
                places: &ties.places,
                functions: &ties.functions,
            };
            list_object(alloc, it.source.name, it.object, it.form, origins, answer);
            drop(ties)
        }
        Err(NoMemory) => answer.fail(),
    }
}

// Whether all memory texts can be run on. Where one can't, the answer says why.
fn are_good(alloc: Global, it: Listed, program: &Typed, answer: &mut Answer) -> bool {
    for (n, memory) in it.memories.iter().enumerate() {
        if memory.text.len() as u64 > MEMORY_LIMIT {
            return false;
        }
        if let Err(refusal) = job_of(alloc, &memory.text, program.params()) {
            push_run_refusal(
                alloc,
                it.source.name,
                Some(program.params()),
                name_at(it, n),
                memory,
                refusal,
                answer,
            );
            return false;
        }
    }
    true
}

fn name_at<'l>(it: Listed<'l>, n: usize) -> &'l str {
    match it.names.get(n) {
        Some(name) => *name,
        None => "",
    }
}

fn ties_of<'a>(
    alloc: Global,
    it: Listed<'a>,
    program: &'a Typed,
    code: &Code,
    answer: &mut Answer,
) -> Result<Ties<'a>, NoMemory> {
    let points = points_of(alloc, program.program())?;
    let functions = functions_of(alloc, program.program())?;
    let exceptions = exceptions_of(alloc, program.program())?;
    let end = only_end(alloc, &functions)?;
    let mut names = Vec::new(alloc);
    for f in functions.iter() {
        names.push(f.name.bytes())?;
    }
    let mut ties = Ties::new(alloc, it.source.bytes, code.list().len())?;
    ties.tie_single(code.list(), &points, &exceptions, end);
    let known = Known {
        typed: program,
        points: &points,
        functions: &names,
        exceptions: &exceptions,
        end,
    };
    tie_runs(alloc, it, known, code, &mut ties, answer)?;
    ties.settle();
    Ok(ties)
}

fn tie_runs<'a>(
    alloc: Global,
    it: Listed<'a>,
    known: Known<'_, 'a>,
    code: &Code,
    ties: &mut Ties<'a>,
    answer: &mut Answer,
) -> Result<(), NoMemory> {
    for (n, memory) in it.memories.iter().enumerate() {
        if !tie_run(alloc, known, code, &memory.text, ties)? {
            answer.note(
                name_at(it, n),
                "the code makes other accesses on it than the source, so they are tied to no line",
            )
        }
    }
    Ok(())
}
