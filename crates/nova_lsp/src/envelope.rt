//! The texts of answers and notices. What is sent was read again, as the editor will read it.
ghost use Rattle.std.specs.Prelude.{◌≡◌, codes, true, not, is_some, None, Some};
ghost use Rattle.serde_json.specs.Data.{null};
ghost use Rattle.serde_json.specs.Find.{get};
ghost use Rattle.serde_json.specs.View.{view};
ghost use Rattle.nova_lsp.specs.Replies.{IsAnswer, IsNotice, IsRefusal, IsRefused, IsReply, error_code};

use crate::kind::is_same;
use itoa::Buffer;
use serde_json::Value;
use std::alloc::{AllocError, Global};

/// What is sent for a message.
#[derive(Drop)]
pub enum Reply {
    Nothing,
    Content(Vec<u8>),
    /// Memory ran out for an answer.
    NoMemory,
}

/// Why a request isn't answered by a result: the number that the protocol has for it, and a sentence.
#[derive(Clone, Copy)]
pub struct Fault {
    pub code: i64,
    pub message: &'static str,
}

/// The content isn't JSON.
pub const NO_JSON: Fault = Fault {
    code: -32700,
    message: "the content isn't JSON",
};

/// The message isn't a request, a notice or an answer, or may not come now.
pub const INVALID: Fault = Fault {
    code: -32600,
    message: "no such message is expected",
};

/// The head of a message tells no length.
pub const NO_LENGTH: Fault = Fault {
    code: -32600,
    message: "the head of the message tells no length of its content",
};

/// The content of a message is too long.
pub const TOO_LONG: Fault = Fault {
    code: -32600,
    message: "the content of the message is longer than 16,777,216 bytes",
};

/// No such method.
pub const NO_METHOD: Fault = Fault {
    code: -32601,
    message: "there is no such method",
};

/// The parameters don't fit.
pub const NO_DOCUMENT: Fault = Fault {
    code: -32602,
    message: "the document isn't open",
};

/// Memory ran out.
pub const NO_MEMORY: Fault = Fault {
    code: -32603,
    message: "out of memory",
};

/// The text of the answer isn't one.
const INTERNAL: Fault = Fault {
    code: -32603,
    message: "the answer can't be written",
};

/// A request before `initialize`.
pub const NOT_INITIALIZED: Fault = Fault {
    code: -32002,
    message: "`initialize` comes first",
};

/// The answer to the request with an id: its result.
pub fn answered(alloc: Global, id: &Value, found: &[u8]) -> Reply
    ensures { IsReply (Some (view id.now)) result }
{
    match answer_text(alloc, id, b"result", found) {
        Ok(text) => {
            if is_answer(alloc, id, &text) {
                return Reply::Content(text);
            }
            drop(text);
            refused(alloc, id, INTERNAL)
        }
        Err(_) => refused(alloc, id, NO_MEMORY),
    }
}

// Whether a text is an answer with an id.
fn is_answer(alloc: Global, id: &Value, text: &[u8]) -> bool
    ensures { result ≡ true → IsAnswer (view id.now) text.now }
{
    match Value::from_slice(alloc, text) {
        Ok(answer) => {
            let is_answer = has_id(&answer, id) && has_one(&answer);
            drop(answer);
            is_answer
        }
        Err(_) => false,
    }
}

fn has_id(answer: &Value, id: &Value) -> bool
    ensures { result ≡ true → get (codes "id") (view answer.now) ≡ Some (view id.now) }
{
    match answer.get("id") {
        Some(found) => is_same(found, id),
        None => false,
    }
}

// Whether there is a result or an error, but not both.
fn has_one(answer: &Value) -> bool
    ensures { result ≡ true → is_some (get (codes "result") (view answer.now)) ≡ not (is_some (get (codes "error") (view answer.now))) }
{
    if answer.get("result").is_some() {
        answer.get("error").is_none()
    } else {
        answer.get("error").is_some()
    }
}

// Whether a text is a refusal with an id and a number.
fn is_refusal(alloc: Global, id: &Value, code: i64, text: &[u8]) -> bool
    ensures { result ≡ true → IsRefusal (view id.now) code text.now }
{
    match Value::from_slice(alloc, text) {
        Ok(answer) => {
            let is_refusal = has_id(&answer, id)
                && answer.get("result").is_none()
                && has_code(&answer, code);
            drop(answer);
            is_refusal
        }
        Err(_) => false,
    }
}

fn has_code(answer: &Value, code: i64) -> bool
    ensures { result ≡ true → error_code (view answer.now) ≡ Some code }
{
    match code_of(answer) {
        Some(found) => found == code,
        None => false,
    }
}

// The number of an error.
fn code_of(answer: &Value) -> Option<i64>
    ensures { result ≡ error_code (view answer.now) }
{
    answer.get("error")?.get("code")?.as_i64()
}

// Whether a text is a notice.
fn is_notice(alloc: Global, text: &[u8]) -> bool
    ensures { result ≡ true → IsNotice text.now }
{
    match Value::from_slice(alloc, text) {
        Ok(notice) => {
            let is_notice = notice.get("id").is_none();
            drop(notice);
            is_notice
        }
        Err(_) => false,
    }
}

#[tactic(auto, using(crate::proofs::Refusals::is_answer))]
/// The answer to the request with an id: why there is no result.
pub fn refused(alloc: Global, id: &Value, fault: Fault) -> Reply
    ensures reply { IsReply (Some (view id.now)) result }
    ensures refused { IsRefused (view id.now) fault.code result }
{
    match refusal_text(alloc, id, fault) {
        Ok(text) => {
            if is_refusal(alloc, id, fault.code, &text) {
                return Reply::Content(text);
            }
            drop(text);
            Reply::NoMemory
        }
        Err(_) => Reply::NoMemory,
    }
}

#[tactic(auto, using(crate::proofs::Ids::view_null))]
/// The answer to what is no request: its id is null.
pub fn refused_null(alloc: Global, fault: Fault) -> Reply
    ensures { IsRefused null fault.code result }
{
    refused(alloc, &Value::Null, fault)
}

fn refusal_text(alloc: Global, id: &Value, fault: Fault) -> Result<Vec<u8>, AllocError> {
    let mut code = Buffer::new();
    let mut error = Vec::new(alloc);
    error.extend_from_slice(b"{\"code\":")?;
    error.extend_from_slice(code.format(fault.code).as_bytes())?;
    error.extend_from_slice(b",\"message\":\"")?;
    error.extend_from_slice(fault.message.as_bytes())?;
    error.extend_from_slice(b"\"}")?;
    answer_text(alloc, id, b"error", &error)
}

fn answer_text(alloc: Global, id: &Value, kind: &[u8], body: &[u8]) -> Result<Vec<u8>, AllocError> {
    let id = id.to_vec(alloc)?;
    let mut text = Vec::new(alloc);
    text.extend_from_slice(b"{\"jsonrpc\":\"2.0\",\"id\":")?;
    text.extend_from_slice(&id)?;
    text.extend_from_slice(b",\"")?;
    text.extend_from_slice(kind)?;
    text.extend_from_slice(b"\":")?;
    text.extend_from_slice(body)?;
    text.extend_from_slice(b"}")?;
    Ok(text)
}

/// A notice of a method with parameters.
pub fn notice(alloc: Global, method: &str, params: &[u8]) -> Reply
    ensures { IsReply None result }
{
    match notice_text(alloc, method, params) {
        Ok(text) => {
            if is_notice(alloc, &text) {
                return Reply::Content(text);
            }
            drop(text);
            Reply::NoMemory
        }
        Err(_) => Reply::NoMemory,
    }
}

fn notice_text(alloc: Global, method: &str, params: &[u8]) -> Result<Vec<u8>, AllocError> {
    let mut text = Vec::new(alloc);
    text.extend_from_slice(b"{\"jsonrpc\":\"2.0\",\"method\":\"")?;
    text.extend_from_slice(method.as_bytes())?;
    text.extend_from_slice(b"\",\"params\":")?;
    text.extend_from_slice(params)?;
    text.extend_from_slice(b"}")?;
    Ok(text)
}
