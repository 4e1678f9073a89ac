//! The command `forms`: from a source to the text of its forms.

ghost use Rattle.std.specs.Prelude.{◌≡◌};

use crate::check::MOST;
use crate::compiled::push_refused;
use cps_close::close;
use cps_inline::inline;
use cps_lower::lower;
use flat_ir::FlatProgram;
use flow_merge::merge_labels;
use nova_compile::{FrontError, front};
use nova_forms_print::{Page, print_cps, print_flat, print_flow, print_measures, print_single_use};
use nova_middle::{last_flow, middle};
use nova_show::{Answer, Ending, load, push_nearest};
use nova_words::{Forms, nearest_among};
use nv_base::NoMemory;
use nv_outside::Files;
use nv_text::MOST_BYTES;
use std::alloc::Global;

// Which forms are to be printed.
#[derive(Clone, Copy, PartialEq, Eq)]
enum PrintedForms {
    All,
    Flat,
    Lowered,
    Inlined,
    Closed,
    Contracted,
    Simplified,
    Single,
    Measures,
}

// The form of this name.
fn form_named(name: &str) -> Option<PrintedForms> {
    match name {
        "flat" => Some(PrintedForms::Flat),
        "lowered" => Some(PrintedForms::Lowered),
        "inlined" => Some(PrintedForms::Inlined),
        "closed" => Some(PrintedForms::Closed),
        "contracted" => Some(PrintedForms::Contracted),
        "simplified" => Some(PrintedForms::Simplified),
        "single" => Some(PrintedForms::Single),
        "measures" => Some(PrintedForms::Measures),
        _ => None,
    }
}

/// Prints the forms of a source that the words ask for.
pub fn print_forms<F: Files>(alloc: Global, files: &mut F, words: Forms, answer: &mut Answer)
    ensures { F.held files.new ≡ F.held files.old }
{
    let wanted = match words.form {
        None => Some(PrintedForms::All),
        Some(name) => form_named(name),
    };
    let Some(wanted) = wanted else {
        return push_no_form(alloc, words.form, answer);
    };
    if let Some(bytes) = load(alloc, files, words.source, MOST, answer) {
        push_forms(alloc, words.source, &bytes, wanted, answer);
    }
}

const FORM_NAMES: [&str; 8] = [
    "flat",
    "lowered",
    "inlined",
    "closed",
    "contracted",
    "simplified",
    "single",
    "measures",
];

fn push_no_form(alloc: Global, name: Option<&str>, answer: &mut Answer) {
    let mut it = answer.finding();
    it.title.put("there is no form ");
    if let Some(name) = name {
        it.title.quoted(name.as_bytes());
        let _ = push_nearest(&mut it.title, nearest_among(alloc, &FORM_NAMES, name));
    }
    it.help.line("`nova help forms` names them.");
    answer.push("nova", it);
    answer.ending = Ending::BadWords
}

fn push_forms(alloc: Global, name: &str, bytes: &[u8], wanted: PrintedForms, answer: &mut Answer) {
    if bytes.len() > MOST_BYTES {
        return push_refused(alloc, name, bytes, answer);
    }
    match front(alloc, bytes) {
        Ok((_typed, program)) => match forms_of(alloc, &program, wanted) {
            Ok(text) => answer.out.bytes(&text),
            Err(NoMemory) => answer.fail(),
        },
        Err(FrontError::NoMemory) => answer.fail(),
        Err(_) => push_refused(alloc, name, bytes, answer),
    }
}

fn is_wanted(form: PrintedForms, wanted: PrintedForms) -> bool {
    wanted == PrintedForms::All || wanted == form
}

// A heading with the number of the function that is main.
fn heading(page: &mut Page, form: &str, main: u32) {
    page.put("# ");
    page.put(form);
    page.put(", main is function ");
    page.number(main);
    page.put("\n");
}

fn forms_of(
    alloc: Global,
    program: &FlatProgram,
    wanted: PrintedForms,
) -> Result<Vec<u8>, NoMemory> {
    let mut page = Page::new(alloc);
    if is_wanted(PrintedForms::Flat, wanted) {
        heading(&mut page, "flat", program.main);
        print_flat(alloc, &mut page, program)?;
    }
    put_continuations(alloc, &mut page, program, wanted)?;
    if is_wanted(PrintedForms::Simplified, wanted) {
        page.put("# simplified\n");
        print_flow(alloc, &mut page, &last_flow(alloc, program)?)?;
    }
    if is_wanted(PrintedForms::Single, wanted) {
        page.put("# single use; behind each line its point, and what is held there\n");
        print_single_use(alloc, &mut page, &middle(alloc, program)?)?;
    }
    if is_wanted(PrintedForms::Measures, wanted) {
        print_measures(alloc, &mut page, &middle(alloc, program)?)?;
    }
    Ok(page.into_bytes()?)
}

// The forms with labels, up to the flow, as far as they are wanted.
fn put_continuations(
    alloc: Global,
    page: &mut Page,
    program: &FlatProgram,
    wanted: PrintedForms,
) -> Result<(), NoMemory> {
    if !has_continuations(wanted) {
        return Ok(());
    }
    let lowered = lower(alloc, program)?;
    if is_wanted(PrintedForms::Lowered, wanted) {
        heading(page, "lowered", lowered.main);
        print_cps(alloc, page, &lowered)?;
    }
    let inlined = inline(alloc, lowered)?;
    if is_wanted(PrintedForms::Inlined, wanted) {
        heading(page, "inlined", inlined.main);
        print_cps(alloc, page, &inlined)?;
    }
    let closed = close(alloc, inlined)?;
    if is_wanted(PrintedForms::Closed, wanted) {
        page.put("# closed\n");
        print_flow(alloc, page, &closed)?;
    }
    if is_wanted(PrintedForms::Contracted, wanted) {
        page.put("# contracted\n");
        print_flow(alloc, page, &merge_labels(alloc, &closed)?)?;
    }
    Ok(())
}

fn has_continuations(wanted: PrintedForms) -> bool {
    match wanted {
        PrintedForms::All => true,
        PrintedForms::Lowered => true,
        PrintedForms::Inlined => true,
        PrintedForms::Closed => true,
        PrintedForms::Contracted => true,
        _ => false,
    }
}
