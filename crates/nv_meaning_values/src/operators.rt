// The operators on words.

ghost use Rattle.std.specs.Prelude.{◌≡◌, ◌≤◌, ℕ};
ghost use Rattle.nv_meaning_values.specs.Values.{word_of};
ghost use Rattle.nv_meaning_values.specs.Operators.{combined as combination, shifted as shift};
ghost use Rattle.nv_meaning_values.specs.inner.View.{view};

use crate::value::{Value, word_in};
use nv_ast::{Op, ShiftOp};
use nv_base::word;

/// What an operator that evaluates both operands gives.
pub fn combined<'a>(op: Op, v: Value, w: Value) -> Value<'a>
    ensures { view result ≡ combination op (word_of (view v.entry)) (word_of (view w.entry)) }
{
    let x = word_in(v);
    let y = word_in(w);
    match op {
        Op::Add => Value::Word(word::add(x, y)),
        Op::Sub => Value::Word(word::sub(x, y)),
        Op::And => Value::Word(word::and(x, y)),
        Op::Or => Value::Word(word::or(x, y)),
        Op::Xor => Value::Word(word::xor(x, y)),
        Op::Eq => Value::Truth(x == y),
        Op::Ne => Value::Truth(x != y),
        Op::Lt => Value::Truth(x < y),
        Op::Le => Value::Truth(x <= y),
        Op::Gt => Value::Truth(x > y),
        Op::Ge => Value::Truth(x >= y),
        Op::Both | Op::Either => Value::Truth(false),
    }
}

/// A shift by `n` places. No typed program shifts by more than 31.
pub fn shifted(op: ShiftOp, n: u32, x: u32) -> u32
    ensures { result ≡ shift op n x }
{
    if n < 32 {
        shifted_within(op, n as u8, x)
    } else {
        shifted_out(op, x)
    }
}

fn shifted_within(op: ShiftOp, n: u8, x: u32) -> u32
    requires { n ≤ 31 }
    ensures { result ≡ shift op n x }
{
    match op {
        ShiftOp::Left => word::shl(x, n),
        ShiftOp::Right => word::shr(x, n),
        ShiftOp::Rotate => word::rol(x, n),
    }
}

// A shift by 32 or more.
fn shifted_out(op: ShiftOp, x: u32) -> u32
    ensures { (n : ℕ) → 32 ≤ n → result ≡ shift op n x }
{
    match op {
        ShiftOp::Left => 0,
        ShiftOp::Right => 0,
        ShiftOp::Rotate => x,
    }
}
