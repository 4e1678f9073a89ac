//! What is said of a source.

use crate::checked::{Checked, Verdict};
use crate::refusal::{explain_size, push_all};
use crate::sizes::{push_typed_short_sizes, push_typed_sizes};
use diag_syntax::explain_text;
use diag_text::finding::{Code, Finding, Form, Severity, Source};
use nv_ast::Program;
use nv_lines::Message;
use nv_text::TextError;
use std::alloc::Global;

impl<'n, 's> Checked<'n, 's> {
    /// Appends why the source is refused, where it is, and gives whether it is.
    pub fn push_faults(&self, alloc: Global, out: &mut Message, form: Form) -> bool {
        match &self.verdict {
            Verdict::Fine(_) => return false,
            Verdict::NoMemory => out.fail(),
            Verdict::TooLong => push_too_long(alloc, out, form, self.source.name),
            Verdict::Unread(fault) => push_text_fault(alloc, out, form, self.source, *fault),
            Verdict::Faulty(program, faults) => {
                push_all(alloc, out, form, self, program, faults)
            }
            Verdict::TooLarge(program, size) => {
                push_size_fault(alloc, out, form, self, program, *size)
            }
        }
        true
    }

    /// Appends the sizes of a source that isn't refused, and nothing of another one.
    pub fn push_sizes(&self, alloc: Global, out: &mut Message) {
        if let Some(typed) = self.typed() {
            push_typed_sizes(alloc, out, self.source.name, typed)
        }
    }

    /// Appends the sizes of a source that isn't refused in one line, and nothing of another one.
    pub fn push_short_sizes(&self, out: &mut Message) {
        if let Some(typed) = self.typed() {
            push_typed_short_sizes(out, self.source.name, typed)
        }
    }
}

// Appends why a text has no program.
fn push_text_fault(alloc: Global, out: &mut Message, form: Form, source: Source, fault: TextError) {
    let mut it = Finding::new(alloc, Severity::Error);
    explain_text(alloc, &mut it, source.bytes, fault);
    it.push(alloc, out, form, source)
}

// Appends that a program is too large.
fn push_size_fault(
    alloc: Global,
    out: &mut Message,
    form: Form,
    it: &Checked,
    program: &Program,
    size: u32,
) {
    let mut found = Finding::new(alloc, Severity::Error);
    explain_size(alloc, &mut found, it, program, size);
    found.push(alloc, out, form, it.source)
}

// Appends that a source has too many bytes.
fn push_too_long(alloc: Global, out: &mut Message, form: Form, name: &str) {
    let mut it = Finding::new(alloc, Severity::Error);
    it.code = Code::Named("too large 262144");
    it.title.put("the source has more than 262,144 bytes");
    it.help.line("Every name and blank counts. Take out what `main` doesn't need.");
    it.push(alloc, out, form, Source { name, bytes: &[] })
}
