//! The sources that are open in an editor, and what is answered about them.
ghost use Rattle.std.specs.Prelude.{◌≡◌, None, Some, ℤ};
ghost use Rattle.serde_json.specs.View.{view};
ghost use Rattle.nova_lsp.specs.Exchanges.{IsAnswered};
ghost use Rattle.nova_lsp.specs.Replies.{IsReply};

use crate::check::check;
use crate::diagnostics::{push_diagnostics, push_no_diagnostics};
use crate::method::Method;
use crate::requests::push_result;
use crate::stage::Stage;
use crate::{Fault, NO_DOCUMENT, NO_MEMORY, Reply, answered, notice, refused};
use nova_lsp_document::{Document, Encoding, Position, list_at, number_at, text_at};
use nv_lines::Message;
use serde_json::Value;
use std::alloc::{AllocError, Global};

/// The sources that are open, and how the editor counts columns.
#[derive(Drop)]
pub struct Documents {
    encoding: Encoding,
    list: Vec<Document>,
}

impl Documents {
    /// No source.
    pub fn new(alloc: Global) -> Documents {
        Documents {
            encoding: Encoding::Utf16,
            list: Vec::new(alloc),
        }
    }

    /// The answer to a request that comes in a stage.
    pub fn answer(
        &mut self,
        alloc: Global,
        id: &Value,
        stage: Stage,
        method: &str,
        params: &Value,
    ) -> Reply
        ensures { IsAnswered stage (view id.now) method.now result }
    {
        match stage.refusal(method) {
            Some(fault) => refused(alloc, id, fault),
            None => self.answer_heard(alloc, id, method, params),
        }
    }

    // The answer to a request that isn't refused at once.
    fn answer_heard(&mut self, alloc: Global, id: &Value, method: &str, params: &Value) -> Reply
        ensures { IsReply (Some (view id.now)) result }
    {
        let mut out = Message::new(alloc);
        if let Some(fault) = self.push_answer(alloc, &mut out, method, params) {
            drop(out);
            return refused(alloc, id, fault);
        }
        match out.into_bytes() {
            Ok(found) => answered(alloc, id, &found),
            Err(_) => refused(alloc, id, NO_MEMORY),
        }
    }

    // Appends the result of a request, or gives why there is none.
    fn push_answer(
        &mut self,
        alloc: Global,
        out: &mut Message,
        method: &str,
        params: &Value,
    ) -> Option<Fault> {
        let Some(found) = Method::named(method) else {
            self.push_first_or_last(out, method, params);
            return None;
        };
        match self.document(text_at(params, "/textDocument/uri")) {
            Some(document) => push_result(alloc, out, document, found, params, self.encoding),
            None => Some(NO_DOCUMENT),
        }
    }

    // Appends the result of `initialize` or `shutdown`.
    fn push_first_or_last(&mut self, out: &mut Message, method: &str, params: &Value) {
        if method != "initialize" {
            return out.put("null");
        }
        if offers_utf8(params) {
            self.encoding = Encoding::Utf8;
        }
        push_capabilities(out, self.encoding)
    }

    // The open document of a name.
    fn document(&self, uri: &str) -> Option<&Document> {
        for it in self.list.iter() {
            if it.uri.as_str() == uri {
                return Some(it);
            }
        }
        None
    }

    /// What is sent for a notice that comes in a stage.
    pub fn note(&mut self, alloc: Global, stage: Stage, method: &str, params: &Value) -> Reply
        ensures { IsReply None result }
    {
        if stage != Stage::Ready {
            return Reply::Nothing;
        }
        let uri = text_at(params, "/textDocument/uri");
        match method {
            "textDocument/didOpen" => self.open(alloc, uri, params),
            "textDocument/didChange" => self.change_text(alloc, uri, params, false),
            "textDocument/didClose" => self.close(alloc, uri),
            _ => Reply::Nothing,
        }
    }

    fn close(&mut self, alloc: Global, uri: &str) -> Reply
        ensures { IsReply None result }
    {
        self.forget(uri);
        let mut out = Message::new(alloc);
        push_no_diagnostics(&mut out, uri);
        published(alloc, out)
    }

    // Closes the document of a name.
    fn forget(&mut self, uri: &str) {
        for n in 0..self.list.len() {
            if self.is_named(n, uri) {
                drop(self.list.swap_remove(n));
                return;
            }
        }
    }

    fn is_named(&self, n: usize, uri: &str) -> bool {
        match self.list.get(n) {
            Some(it) => it.uri.as_str() == uri,
            None => false,
        }
    }

    fn open(&mut self, alloc: Global, uri: &str, params: &Value) -> Reply
        ensures { IsReply None result }
    {
        self.forget(uri);
        match self.add(alloc, uri) {
            Ok(()) => self.change_text(alloc, uri, params, true),
            Err(_) => no_memory(alloc),
        }
    }

    fn add(&mut self, alloc: Global, uri: &str) -> Result<(), AllocError> {
        let name = String::from_str(alloc, uri)?;
        self.list.push(Document::new(alloc, name))?;
        Ok(())
    }

    // Changes the text of a document and tells what is found in it. Where memory runs out the document is closed, since its text
    // would no longer be that of the editor.
    fn change_text(&mut self, alloc: Global, uri: &str, params: &Value, is_new: bool) -> Reply
        ensures { IsReply None result }
    {
        let mut out = Message::new(alloc);
        match self.push_changed(alloc, &mut out, uri, params, is_new) {
            Ok(true) => published(alloc, out),
            Ok(false) => Reply::Nothing,
            Err(_) => {
                self.forget(uri);
                no_memory(alloc)
            }
        }
    }

    // Changes the document of a name, where it is open, and appends what is found in it.
    fn push_changed(
        &mut self,
        alloc: Global,
        out: &mut Message,
        uri: &str,
        params: &Value,
        is_new: bool,
    ) -> Result<bool, AllocError> {
        let encoding = self.encoding;
        for it in self.list.iter_mut() {
            if it.uri.as_str() == uri {
                return push_changed_in(alloc, out, it, params, is_new, encoding);
            }
        }
        Ok(false)
    }
}

fn push_changed_in(
    alloc: Global,
    out: &mut Message,
    document: &mut Document,
    params: &Value,
    is_new: bool,
    encoding: Encoding,
) -> Result<bool, AllocError> {
    document.version = params
        .pointer("/textDocument/version")
        .and_then(Value::as_i64);
    if is_new {
        let text = text_at(params, "/textDocument/text");
        document.replace(alloc, 0, usize::MAX, text.as_bytes())?;
    }
    for change in list_at(params, "/contentChanges") {
        apply(alloc, document, change, encoding)?;
    }
    document.read(alloc)?;
    let found = check(alloc, document)?;
    push_diagnostics(alloc, out, document, &found, encoding);
    Ok(true)
}

// Applies a change: of a range, or of the whole text.
fn apply(
    alloc: Global,
    document: &mut Document,
    change: &Value,
    encoding: Encoding,
) -> Result<(), AllocError> {
    let text = text_at(change, "/text").as_bytes();
    if change.get("range").is_none() {
        return document.replace(alloc, 0, usize::MAX, text);
    }
    let from = document.byte(
        place(change, "/range/start/line", "/range/start/character"),
        encoding,
    );
    let to = document.byte(
        place(change, "/range/end/line", "/range/end/character"),
        encoding,
    );
    document.replace(alloc, from, to, text)
}

fn place(change: &Value, line: &str, character: &str) -> Position {
    Position {
        line: number_at(change, line),
        character: number_at(change, character),
    }
}

// Whether an editor counts in bytes where the server wants it.
fn offers_utf8(params: &Value) -> bool {
    for it in list_at(params, "/capabilities/general/positionEncodings") {
        if it.as_str() == Some("utf-8") {
            return true;
        }
    }
    false
}

// The notice of what is found.
fn published(alloc: Global, out: Message) -> Reply
    ensures { IsReply None result }
{
    match out.into_bytes() {
        Ok(params) => notice(alloc, "textDocument/publishDiagnostics", &params),
        Err(_) => no_memory(alloc),
    }
}

fn no_memory(alloc: Global) -> Reply
    ensures { IsReply None result }
{
    notice(
        alloc,
        "window/showMessage",
        b"{\"type\":1,\"message\":\"nova: out of memory\"}",
    )
}

fn push_capabilities(out: &mut Message, encoding: Encoding) {
    out.put("{\"capabilities\":{\"positionEncoding\":");
    out.put(if encoding == Encoding::Utf8 {
        "\"utf-8\""
    } else {
        "\"utf-16\""
    });
    for line in CAPABILITIES {
        out.put(line);
    }
}

const CAPABILITIES: [&str; 9] = [
    ",\"textDocumentSync\":{\"openClose\":true,\"change\":2},\"hoverProvider\":true,\"definitionProvider\":true",
    ",\"referencesProvider\":true,\"documentHighlightProvider\":true,\"documentSymbolProvider\":true",
    ",\"documentFormattingProvider\":true,\"foldingRangeProvider\":true",
    ",\"renameProvider\":{\"prepareProvider\":true}",
    ",\"completionProvider\":{\"triggerCharacters\":[\".\",\"[\"]}",
    ",\"signatureHelpProvider\":{\"triggerCharacters\":[\"[\",\",\"]}",
    ",\"codeActionProvider\":true",
    ",\"inlayHintProvider\":true}",
    ",\"serverInfo\":{\"name\":\"nova\",\"version\":\"1.0\"}}",
];
