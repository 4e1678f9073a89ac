//! Parts of JSON in messages.

use crate::positions::Position;
use nv_lines::Message;
use serde_json::Value;

/// Appends a comma before each item but the first.
pub fn push_comma(out: &mut Message, is_first: &mut bool) {
    if !*is_first {
        out.put(",");
    }
    *is_first = false;
}

/// Appends a signed number.
pub fn push_signed(out: &mut Message, z: i64) {
    if z < 0 {
        out.put("-");
    }
    out.number(z.unsigned_abs())
}

/// The text at a path, or the empty one.
pub fn text_at<'v>(params: &'v Value, path: &str) -> &'v str {
    match params.pointer(path).and_then(Value::as_str) {
        Some(text) => text,
        None => "",
    }
}

/// The number at a path, or 0.
pub fn number_at(params: &Value, path: &str) -> usize {
    match params.pointer(path).and_then(Value::as_u64) {
        Some(n) => n as usize,
        None => 0,
    }
}

/// The list at a path, or the empty one.
pub fn list_at<'v>(params: &'v Value, path: &str) -> &'v [Value] {
    match params.pointer(path).and_then(Value::as_array) {
        Some(list) => list.as_slice(),
        None => &[],
    }
}

/// The place that a request is about.
pub fn position_of(params: &Value) -> Position {
    Position {
        line: number_at(params, "/position/line"),
        character: number_at(params, "/position/character"),
    }
}
