//! What a message is.
ghost use Rattle.std.specs.Prelude.{◌≡◌, ◌||◌, codes, true, is_some, option_and_then};
ghost use Rattle.serde_json.specs.Find.{get, as_str};
ghost use Rattle.serde_json.specs.View.{view};
ghost use Rattle.nova_lsp.specs.Messages.{is_id, has_text, has_result, method_of, sort_of, sort_in};

use serde_json::Value;

/// What a message is.
#[derive(Clone, Copy)]
pub enum Kind<'v> {
    /// A method and an id.
    Request(&'v Value),
    /// A method alone.
    Notice,
    /// An id with a result or an error.
    Response,
    /// None of these.
    Invalid,
}

/// What a message is.
pub fn kind_of(message: &Value) -> Kind<'_>
    ensures { sort_in result ≡ sort_of (view message.now) }
{
    let has_method = has_method(message);
    let Some(id) = message.get("id") else {
        return if has_method {
            Kind::Notice
        } else {
            Kind::Invalid
        };
    };
    if !is_id(id) {
        return Kind::Invalid;
    }
    if has_method {
        return Kind::Request(id);
    }
    if has_result(message) {
        Kind::Response
    } else {
        Kind::Invalid
    }
}

/// The method of a message, or the empty text.
pub fn method_of(message: &Value) -> &str
    ensures { result.now ≡ method_of (view message.now) }
{
    match message.get("method").and_then(Value::as_str) {
        Some(method) => method,
        None => "",
    }
}

fn has_method(message: &Value) -> bool
    ensures { result ≡ has_text (codes "method") (view message.now) }
{
    message.get("method").and_then(Value::as_str).is_some()
}

fn has_result(message: &Value) -> bool
    ensures { result ≡ has_result (view message.now) }
{
    message.get("result").is_some() || message.get("error").is_some()
}

// Whether a value may be the id of a request.
fn is_id(id: &Value) -> bool
    ensures { result ≡ is_id (view id.now) }
{
    id.as_str().is_some() || id.as_u64().is_some() || id.as_i64().is_some()
}

#[tactic(auto, using(crate::proofs::Ids::same_null, crate::proofs::Ids::same_text, crate::proofs::Ids::same_unsigned))]
/// Whether two ids are the same.
pub fn is_same(one: &Value, other: &Value) -> bool
    ensures { result ≡ true → view one.now ≡ view other.now }
{
    if one.is_null() && other.is_null() {
        return true;
    }
    if let (Some(x), Some(y)) = (one.as_str(), other.as_str()) {
        return x == y;
    }
    if let (Some(x), Some(y)) = (one.as_u64(), other.as_u64()) {
        return x == y;
    }
    is_same_negative(one, other)
}

#[tactic(auto, using(crate::proofs::Ids::same_negative))]
fn is_same_negative(one: &Value, other: &Value) -> bool
    ensures { result ≡ true → view one.now ≡ view other.now }
{
    if one.as_u64().is_some() || other.as_u64().is_some() {
        return false;
    }
    match (one.as_i64(), other.as_i64()) {
        (Some(x), Some(y)) => x == y,
        _ => false,
    }
}
