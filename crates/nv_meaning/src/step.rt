// What an expression comes to.

use nv_ast::Name;
use nv_meaning_values::Value;

/// What an expression comes to that is not raised or stopped: a value, or a call in its place, which
/// is still to be made.
#[derive(Drop)]
pub enum Step<'a> {
    Done(Value<'a>),
    Again(&'a Name, Vec<Value<'a>>),
}
