//! The command `asm`.
ghost use Rattle.std.specs.Prelude.{◌≡◌, ◌≤◌, length, IfSome};
ghost use Rattle.novac_machine.specs.Assembly.{IsAssembledTo};
ghost use Rattle.novac_words.specs.Limits.{assembly_limit};

use diag_machine::explain_assembly;
use diag_text::finding::Source;
use nova_show::{Answer, Ending, Saving, add_saving, load, output_name};
use nova_words::Asm;
use novac_words::limits::ASSEMBLY_LIMIT;
use nv_base::NoMemory;
use nv_outside::Files;
use std::alloc::Global;
use uc_asm::{AsmError, assemble};
use uc_object::encode_code;

/// Assembles a text, and gives its object as a file that is to be saved.
pub fn assemble_file<F: Files>(
    alloc: Global,
    files: &mut F,
    words: Asm,
    answer: &mut Answer,
) -> Vec<Saving>
    ensures { F.held files.new ≡ F.held files.old }
{
    let mut savings = Vec::new(alloc);
    if let Some(object) = output_name(alloc, words.source, words.object, ".asm", ".obj", answer) {
        assemble_as(alloc, files, words, object.as_str(), &mut savings, answer);
        drop(object);
    }
    savings
}

fn assemble_as<F: Files>(
    alloc: Global,
    files: &mut F,
    words: Asm,
    object: &str,
    savings: &mut Vec<Saving>,
    answer: &mut Answer,
)
    ensures { F.held files.new ≡ F.held files.old }
{
    if !check_names(words, object, answer) {
        return;
    }
    let Some(text) = load(alloc, files, words.source, ASSEMBLY_LIMIT, answer) else {
        return;
    };
    if let Some(assembled) = object_of_text(alloc, words.source, &text, answer) {
        let Assembled {
            object: bytes,
            instructions,
        } = assembled;
        if object != "-" {
            answer.out.put(object);
            answer.out.put(": ");
            answer.out.counted(instructions, "instruction");
            answer.out.line("")
        }
        add_saving(alloc, savings, object, bytes, answer)
    }
}

// Refuses to save over the input.
fn check_names(words: Asm, object: &str, answer: &mut Answer) -> bool {
    let is_input = object == words.source && object != "-";
    let is_unnamed = words.source == "-" && words.object.is_none();
    if is_input || is_unnamed || object.is_empty() {
        answer.fault(
            "nova",
            "the object would replace the text, or has no name: `-o OBJ` gives it one",
        );
        answer.ending = Ending::BadWords;
        return false;
    }
    true
}

// An object, and how many instructions it has.
#[derive(Drop)]
struct Assembled {
    object: Vec<u8>,
    instructions: u64,
}

// The object of an assembly text; where there is none, the answer says why.
fn object_of_text(alloc: Global, name: &str, text: &[u8], answer: &mut Answer) -> Option<Assembled>
    requires { length text.now ≤ assembly_limit }
    ensures { IfSome result (λ it. IsAssembledTo text.now it.object.items it.instructions) }
{
    match assemble(alloc, text) {
        Ok(code) => match encode_code(alloc, &code) {
            Ok(object) => Some(Assembled {
                object,
                instructions: code.list().len() as u64,
            }),
            Err(NoMemory) => {
                answer.fail();
                None
            }
        },
        Err(fault) => {
            push_fault(alloc, name, text, fault, answer);
            None
        }
    }
}

fn push_fault(alloc: Global, name: &str, text: &[u8], fault: AsmError, answer: &mut Answer) {
    if matches!(fault, AsmError::NoMemory) {
        return answer.fail();
    }
    let mut it = answer.finding();
    explain_assembly(alloc, &mut it, text, fault);
    answer.push_in(Source { name, bytes: text }, it)
}
