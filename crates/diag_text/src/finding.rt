//! What is found in a source, a fault or a warning, as a text or as an object of JSON.

use crate::excerpt::{push_excerpt, push_excerpt_line};
use nv_ast::Span;
use nv_lines::{Message, column_of, line_of};
use std::alloc::Global;

/// How what is found is printed.
#[derive(Clone, Copy)]
pub enum Form {
    /// As a text: `SRC:LINE:COLUMN: error: ..`, the line with carets under the part, and what helps.
    Text,
    /// The same, with colours for a terminal.
    Coloured,
    /// As one line with an object of JSON.
    Json,
}

impl Form {
    /// Whether it is the text.
    pub fn is_text(self) -> bool {
        !matches!(self, Form::Json)
    }

    // What begins a part in a colour, and what ends it.
    fn begin(self, severity: Severity) -> &'static str {
        match (self, severity) {
            (Form::Coloured, Severity::Error) => "\x1b[1;31m",
            (Form::Coloured, Severity::Warning) => "\x1b[1;35m",
            (Form::Coloured, Severity::Note) => "\x1b[1;36m",
            _ => "",
        }
    }

    fn end(self) -> &'static str {
        match self {
            Form::Coloured => "\x1b[0m",
            _ => "",
        }
    }
}

/// Whether a source is refused for what is found, whether it may be a mistake, or neither.
#[derive(Clone, Copy)]
pub enum Severity {
    Error,
    Warning,
    Note,
}

impl Severity {
    fn name(self) -> &'static str {
        match self {
            Severity::Error => "error",
            Severity::Warning => "warning",
            Severity::Note => "note",
        }
    }
}

/// Which page of docs/FAULTS.md has it.
#[derive(Clone, Copy)]
pub enum Code {
    Nothing,
    Kind(u8),
    Named(&'static str),
}

impl Code {
    fn is_nothing(self) -> bool {
        matches!(self, Code::Nothing)
    }

    fn push(self, out: &mut Message) {
        match self {
            Code::Nothing => {}
            Code::Kind(kind) => {
                out.put("type ");
                out.number(u64::from(kind))
            }
            Code::Named(name) => out.put(name),
        }
    }
}

/// A source, with the name of its file.
#[derive(Clone, Copy)]
pub struct Source<'n, 's> {
    pub name: &'n str,
    pub bytes: &'s [u8],
}

/// A fault or a warning.
#[derive(Drop)]
pub struct Finding {
    pub severity: Severity,
    /// The part of the source that it is about, or nothing where it is about the whole.
    pub span: Option<Span>,
    /// A sentence on it, without the end of its line.
    pub title: Message,
    pub code: Code,
    /// Lines that follow the excerpt.
    pub help: Message,
}

impl Finding {
    /// Of which nothing is said yet.
    pub fn new(alloc: Global, severity: Severity) -> Finding {
        Finding {
            severity,
            span: None,
            title: Message::new(alloc),
            code: Code::Nothing,
            help: Message::new(alloc),
        }
    }

    /// Appends it in a form.
    pub fn push(&self, alloc: Global, out: &mut Message, form: Form, source: Source) {
        match form {
            Form::Text | Form::Coloured => self.push_text(out, form, source),
            Form::Json => self.push_object(alloc, out, source),
        }
    }

    fn push_text(&self, out: &mut Message, form: Form, source: Source) {
        out.put(source.name);
        if let Some(span) = self.span {
            let at = span.first as usize;
            out.put(":");
            out.number(line_of(source.bytes, at) as u64);
            out.put(":");
            out.number(column_of(source.bytes, at) as u64)
        }
        out.put(": ");
        out.put(form.begin(self.severity));
        out.put(self.severity.name());
        out.put(form.end());
        out.put(": ");
        out.message_text(&self.title);
        self.push_code(out);
        out.line("");
        if let Some(span) = self.span {
            let colour = (form.begin(self.severity), form.end());
            push_excerpt(out, source.bytes, span, colour);
        }
        out.message_text(&self.help)
    }

    fn push_code(&self, out: &mut Message) {
        if !self.code.is_nothing() {
            out.put(" (");
            self.code.push(out);
            out.put(")")
        }
    }

    fn push_object(&self, alloc: Global, out: &mut Message, source: Source) {
        out.put("{\"file\":");
        out.string(source.name.as_bytes());
        if let Some(span) = self.span {
            push_span(out, source.bytes, span);
        }
        out.put(",\"severity\":");
        out.string(self.severity.name().as_bytes());
        if !self.code.is_nothing() {
            out.put(",\"code\":\"");
            self.code.push(out);
            out.put("\"")
        }
        out.put(",\"message\":");
        out.string_of(&self.title);
        if let Some(span) = self.span {
            push_line(alloc, out, source.bytes, span);
        }
        out.put(",\"help\":");
        out.string_of(&self.help);
        out.line("}")
    }
}

// Appends the places of the first byte of a span and of the byte after it.
fn push_span(out: &mut Message, bytes: &[u8], span: Span) {
    push_line_column(
        out,
        ",\"line\":",
        ",\"column\":",
        bytes,
        span.first as usize,
    );
    push_line_column(
        out,
        ",\"end_line\":",
        ",\"end_column\":",
        bytes,
        span.after as usize,
    )
}

fn push_line_column(out: &mut Message, line: &str, column: &str, bytes: &[u8], at: usize) {
    out.put(line);
    out.number(line_of(bytes, at) as u64);
    out.put(column);
    out.number(column_of(bytes, at) as u64)
}

// Appends the line where a span begins.
fn push_line(alloc: Global, out: &mut Message, bytes: &[u8], span: Span) {
    let mut line = Message::new(alloc);
    push_excerpt_line(&mut line, bytes, span);
    out.put(",\"excerpt\":");
    out.string_of(&line)
}
