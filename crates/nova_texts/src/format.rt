//! The command `fmt`.
ghost use Rattle.std.specs.Prelude.{◌≡◌, All, IfSome, [], true, Some};
ghost use Rattle.nv_outside.specs.Holding.{Holding};
ghost use Rattle.nova_show.specs.Paths.{system_path};
ghost use Rattle.nova_texts.specs.Formatted.{IsFormattedFile};
ghost use Rattle.nova_fmt.specs.Same.{IsFormatted};

use diag_source::Checked;
use nova_fmt::formatted;
use nova_show::{Answer, Ending, Saving, add_saving, load};
use nova_words::Format;
use nv_outside::Files;
use nv_text::{MOST_BYTES, TextError};
use std::alloc::Global;

// The most bytes of a source that are looked at: more than a source may have, so that it is told as a fault of the source.
const MOST: u64 = 16_777_216;

/// Sets the blanks of sources, and gives those that change as files that are to be saved; none where a source is refused.
/// Under `--check` it prints their names.
pub fn format_sources<F: Files>(
    alloc: Global,
    files: &mut F,
    words: Format,
    answer: &mut Answer,
) -> Vec<Saving>
    ensures held { F.held files.new ≡ F.held files.old }
    ensures none { words.entry.is_check ≡ true → result.items ≡ [] }
    ensures formatted { F.tells → All (IsFormattedFile (F.held files.old)) result.items }
{
    let mut savings = Vec::new(alloc);
    for name in words.sources.iter() {
        format_file(alloc, files, *name, words.is_check, &mut savings, answer);
    }
    drop(words);
    if answer.ending == Ending::Done {
        return savings;
    }
    Vec::new(alloc)
}

fn format_file<F: Files>(
    alloc: Global,
    files: &mut F,
    name: &str,
    is_check: bool,
    savings: &mut Vec<Saving>,
    answer: &mut Answer,
)
    ensures held { F.held files.new ≡ F.held files.old }
    ensures none { is_check ≡ true → savings.new.items ≡ savings.old.items }
    ensures formatted { F.tells → All (IsFormattedFile (F.held files.old)) savings.old.items → All (IsFormattedFile (F.held files.old)) savings.new.items }
{
    let Some(text) = load(alloc, files, name, MOST, answer) else {
        return;
    };
    match format_text(alloc, name, &text, answer) {
        Some(out) => {
            if is_check {
                tell(name, &text, &out, answer);
            } else {
                keep(alloc, name, &text, out, savings, answer);
            }
        }
        None => {
            if name == "-" && !is_check {
                answer.out.bytes(&text);
            }
        }
    }
}

// Adds a source that formatting changes to those that are to be saved; what is to be printed in any case.
fn keep(
    alloc: Global,
    name: &str,
    text: &[u8],
    out: Vec<u8>,
    savings: &mut Vec<Saving>,
    answer: &mut Answer,
)
    ensures { (held : Holding) → held (system_path name.now) ≡ Some text.now → IsFormatted text.now out.items → All (IsFormattedFile held) savings.old.items → All (IsFormattedFile held) savings.new.items }
{
    if out.as_slice() != text || name == "-" {
        add_saving(alloc, savings, name, out, answer);
    }
}

// Prints the name of a source that would change.
fn tell(name: &str, text: &[u8], out: &[u8], answer: &mut Answer) {
    if out != text {
        answer.ending = Ending::Failed;
        answer.out.line(name);
    }
}

// A source, formatted; where it can't be, the answer says why.
fn format_text(alloc: Global, name: &str, text: &[u8], answer: &mut Answer) -> Option<Vec<u8>>
    ensures { IfSome result (λ v. IsFormatted text.now v.items) }
{
    if text.len() > MOST_BYTES {
        push_refused(alloc, name, text, answer);
        return None;
    }
    match formatted(alloc, text) {
        Ok(out) => {
            if out.len() <= MOST_BYTES {
                return Some(out);
            }
            push_long(name, out.len() as u64, answer)
        }
        Err(TextError::NoMemory) => answer.fail(),
        Err(_) => push_refused(alloc, name, text, answer),
    }
    None
}

fn push_refused(alloc: Global, name: &str, text: &[u8], answer: &mut Answer) {
    let it = Checked::new(alloc, name, text);
    let _ = it.push_faults(alloc, &mut answer.err, answer.form);
    drop(it);
    answer.ending = Ending::Failed;
}

fn push_long(name: &str, length: u64, answer: &mut Answer) {
    let mut it = answer.finding();
    it.title.put("formatted it has ");
    it.title.number(length);
    it.title.put(" bytes, and a source has at most ");
    it.title.number(MOST_BYTES as u64);
    it.help
        .line("Fewer brackets that are open at once make it shorter.");
    answer.push(name, it)
}
