//! The faults and warnings of a source.

use nova_lsp_document::{Document, Encoding, push_comma, push_signed};
use nv_lines::Message;
use serde_json::Value;
use std::alloc::Global;

/// Appends the notice of what is found in a source, as `nova check --json` prints it.
pub fn push_diagnostics(
    alloc: Global,
    out: &mut Message,
    document: &Document,
    found: &[u8],
    encoding: Encoding,
) {
    out.put("{\"uri\":");
    out.string(document.uri.as_bytes());
    if let Some(version) = document.version {
        out.put(",\"version\":");
        push_signed(out, version)
    }
    out.put(",\"diagnostics\":[");
    push_all(alloc, out, document, found, encoding);
    out.put("]}")
}

/// Appends the notice that takes back what was found in a source that is closed.
pub fn push_no_diagnostics(out: &mut Message, uri: &str) {
    out.put("{\"uri\":");
    out.string(uri.as_bytes());
    out.put(",\"diagnostics\":[]}")
}

fn push_all(
    alloc: Global,
    out: &mut Message,
    document: &Document,
    found: &[u8],
    encoding: Encoding,
) {
    let mut is_first = true;
    for line in found.split(|byte| *byte == b'\n') {
        if !line.is_empty() {
            push_comma(out, &mut is_first);
            push_line(alloc, out, document, line, encoding)
        }
    }
}

fn push_line(
    alloc: Global,
    out: &mut Message,
    document: &Document,
    line: &[u8],
    encoding: Encoding,
) {
    match Value::from_slice(alloc, line) {
        Ok(finding) => {
            push_finding(alloc, out, document, &finding, encoding);
            drop(finding)
        }
        Err(_) => out.fail(),
    }
}

fn push_finding(
    alloc: Global,
    out: &mut Message,
    document: &Document,
    finding: &Value,
    encoding: Encoding,
) {
    let from = place(document, finding, "line", "column");
    let to = place(document, finding, "end_line", "end_column");
    out.put("{\"range\":");
    document.push_range(out, from, to, encoding);
    out.put(",\"severity\":");
    out.put(if text(finding, "severity") == "error" {
        "1"
    } else {
        "2"
    });
    out.put(",\"source\":\"nova\"");
    if let Some(code) = finding.get("code").and_then(Value::as_str) {
        out.put(",\"code\":");
        out.string(code.as_bytes())
    }
    out.put(",\"message\":");
    push_message(alloc, out, text(finding, "message"), text(finding, "help"));
    out.put("}")
}

// The byte of a line and a column, both counted from 1.
fn place(document: &Document, finding: &Value, line: &str, column: &str) -> usize {
    let line = number(finding, line).saturating_sub(1);
    let column = number(finding, column).saturating_sub(1);
    document.starts.start(line).saturating_add(column)
}

// Appends a sentence and what helps as one string.
fn push_message(alloc: Global, out: &mut Message, title: &str, help: &str) {
    let mut text = Message::new(alloc);
    text.put(title);
    if !help.is_empty() {
        text.put("\n");
        text.put(help)
    }
    out.string_of(&text)
}

fn number(finding: &Value, name: &str) -> usize {
    match finding.get(name).and_then(Value::as_u64) {
        Some(n) => n as usize,
        None => 0,
    }
}

fn text<'v>(finding: &'v Value, name: &str) -> &'v str {
    match finding.get(name).and_then(Value::as_str) {
        Some(text) => text,
        None => "",
    }
}
