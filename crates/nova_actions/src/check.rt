//! The command `check`.
ghost use Rattle.std.specs.Prelude.{◌≡◌};

use crate::folders::Folders;
use crate::found::{Folder, folder_if};
use diag_lint::{WARNING_NAMES, push_warnings_as, unknown_warning};
use diag_source::Checked;
use nova_show::{Answer, Ending, load, push_nearest};
use nova_words::{Check, Warnings, nearest_among};
use nv_outside::Files;
use std::alloc::Global;

/// The most bytes of a source that are looked at: more than a source may have, so that it is told as a fault of the source.
pub const MOST: u64 = 16_777_216;

/// Says of sources, and of those in folders, where they are refused, or what may be wrong with them and how large they are.
pub fn check<F: Files, D: Folders>(
    alloc: Global,
    files: &mut F,
    folders: &mut D,
    words: &Check,
    answer: &mut Answer,
)
    ensures { F.held files.new ≡ F.held files.old }
{
    if !check_allowed(alloc, words.warnings, answer) {
        return;
    }
    for path in words.sources.iter() {
        check_path(alloc, files, folders, *path, words, answer);
    }
}

/// Refuses to leave out warnings of a name that none has.
pub fn check_allowed(alloc: Global, words: Warnings, answer: &mut Answer) -> bool {
    let Some(allowed) = words.allowed else {
        return true;
    };
    let Some(name) = unknown_warning(allowed) else {
        return true;
    };
    let mut it = answer.finding();
    it.title.put("no warning is called ");
    it.title.quoted(name.as_bytes());
    let _ = push_nearest(&mut it.title, nearest_among(alloc, &WARNING_NAMES, name));
    it.help.line("`nova explain warnings` names them.");
    answer.push("nova", it);
    answer.ending = Ending::BadWords;
    false
}

fn check_path<F: Files, D: Folders>(
    alloc: Global,
    files: &mut F,
    folders: &mut D,
    path: &str,
    words: &Check,
    answer: &mut Answer,
)
    ensures { F.held files.new ≡ F.held files.old }
{
    if path.ends_with(".nova") || path == "-" {
        return check_file(alloc, files, path, words, answer);
    }
    match folder_if(alloc, folders, path, answer) {
        Some(folder) => {
            check_folder(alloc, files, &folder, path, words, answer);
            drop(folder)
        }
        None => check_file(alloc, files, path, words, answer),
    }
}

// Each source of a folder.
fn check_folder<F: Files>(
    alloc: Global,
    files: &mut F,
    folder: &Folder,
    path: &str,
    words: &Check,
    answer: &mut Answer,
)
    ensures { F.held files.new ≡ F.held files.old }
{
    let mut has_source = false;
    for name in folder.names.iter() {
        if name.as_str().ends_with(".nova") {
            has_source = true;
            if let Some(path) = folder.path_of(alloc, name.as_str(), answer) {
                check_file(alloc, files, path.as_str(), words, answer);
                drop(path)
            }
        }
    }
    if !has_source {
        answer.fault(path, "the folder has no source `NAME.nova`")
    }
}

fn check_file<F: Files>(
    alloc: Global,
    files: &mut F,
    name: &str,
    words: &Check,
    answer: &mut Answer,
)
    ensures { F.held files.new ≡ F.held files.old }
{
    if let Some(bytes) = load(alloc, files, name, MOST, answer) {
        check_source(alloc, name, &bytes, words, answer);
    }
}

fn check_source(alloc: Global, name: &str, bytes: &[u8], words: &Check, answer: &mut Answer) {
    let it = Checked::new(alloc, name, bytes);
    push_checked(alloc, &it, words, answer);
    drop(it)
}

// What is told of a source that was checked.
fn push_checked(alloc: Global, it: &Checked, words: &Check, answer: &mut Answer) {
    if it.push_faults(alloc, &mut answer.err, answer.form) {
        answer.ending = Ending::Failed;
        return;
    }
    let _ = push_warnings(alloc, it, words.warnings, answer);
    if !answer.form.is_text() {
        return;
    }
    if words.is_verbose {
        it.push_sizes(alloc, &mut answer.out)
    } else {
        it.push_short_sizes(&mut answer.out)
    }
}

/// Warns of what may be wrong with a source, and gives whether that refuses it.
pub fn push_warnings(alloc: Global, it: &Checked, words: Warnings, answer: &mut Answer) -> bool {
    let allowed = words.allowed.unwrap_or("");
    let count = push_warnings_as(alloc, &mut answer.err, answer.form, it, allowed);
    let is_refused = words.are_denied && count > 0;
    if is_refused {
        answer.fault(
            it.source.name,
            "there are warnings, and `--deny-warnings` denies them",
        )
    }
    is_refused
}
