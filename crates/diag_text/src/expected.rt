//! What is wanted of an expression.

use crate::types::TypeClass;
use nv_ast::{Name, Op};
use nv_lines::Message;

/// What is wanted of an expression: nothing, or a value of a right type.
#[derive(Clone, Copy)]
pub enum ExpectedType<'a> {
    /// It may have no value, and any type is right.
    Anything,
    /// A value of any type.
    Value,
    /// A word or a tuple of words alone.
    Stored,
    /// This type, and why.
    Typed(usize, Why<'a>),
}

/// Why a type is wanted.
#[derive(Clone, Copy)]
pub enum Why<'a> {
    Operand,
    Compared,
    Condition,
    Address,
    Arm,
    Handled,
    Argument(&'a Name),
    Raised(&'a Name),
    Result(&'a Name),
    Packed(&'a Name),
    Unpacked(&'a Name),
}

impl<'a> ExpectedType<'a> {
    /// What is wanted of a part that is to have the type of an earlier one.
    pub fn same_as(earlier: Option<usize>, why: Why<'a>) -> ExpectedType<'a> {
        match earlier {
            Some(t) => ExpectedType::Typed(t, why),
            None => ExpectedType::Anything,
        }
    }
}

impl<'a> Why<'a> {
    /// Why the operands of an operator have a type.
    pub fn of_operator(op: Op) -> Why<'a> {
        match op {
            Op::Eq | Op::Ne | Op::Lt | Op::Le | Op::Gt | Op::Ge => Why::Compared,
            _ => Why::Operand,
        }
    }

    /// What helps where a type of one class is wanted and one of another class stands there.
    pub fn advice(self, expected: TypeClass, found: TypeClass) -> &'static str {
        match self {
            Why::Operand if expected.is_bool() => bool_operand_advice(found),
            Why::Operand => word_operand_advice(found),
            Why::Compared => compared_advice(found),
            Why::Condition => condition_advice(found),
            Why::Address => "An address is one word.",
            Why::Arm => "Both arms of an `if` give one type.",
            Why::Handled => "The handler gives the type of the body of its `try`.",
            Why::Argument(_) | Why::Raised(_) => given_advice(expected, found),
            Why::Result(_) =>
                "The body gives what the head of the function says. Change one of them.",
            Why::Packed(_) =>
                "A packed value is a word, or the tuple of its words in round brackets.",
            Why::Unpacked(_) =>
                "Write all fields in the layout's order, and of each overlay one alternative.",
        }
    }

    /// Appends why a type is wanted, and ends the line.
    pub fn push(self, out: &mut Message) {
        out.put(", ");
        match self {
            Why::Operand | Why::Compared => out.line("as an operand"),
            Why::Condition => out.line("as a condition"),
            Why::Address => out.line("as an address"),
            Why::Arm => out.line("as the first arm gives"),
            Why::Handled => out.line("as the body of the `try` gives"),
            Why::Argument(name) => push_named(out, "as an argument of", name),
            Why::Raised(name) => push_named(out, "as a value of the exception", name),
            Why::Result(name) => push_named(out, "as the result of", name),
            Why::Packed(name) => push_named(out, "as a packed value of the layout", name),
            Why::Unpacked(name) => push_named(
                out,
                "of each overlay one alternative, for the layout",
                name,
            ),
        }
    }
}

fn push_named(out: &mut Message, text: &str, name: &Name) {
    out.put(text);
    out.put(" ");
    out.quoted(name.bytes());
    out.line("")
}

// What helps where a bool is wanted of an operand.
fn bool_operand_advice(found: TypeClass) -> &'static str {
    match found {
        TypeClass::Word =>
            "`&&`, `||` and `!` take bools. Write `x != 0`, or `&`, `|` and `~` on words.",
        _ => "`&&`, `||` and `!` take bools: compare a part of the value, as in `a != 0`.",
    }
}

// What helps where a word is wanted of an operand that isn't compared.
fn word_operand_advice(found: TypeClass) -> &'static str {
    match found {
        TypeClass::Bool =>
            "Bools are joined by `&&`, `||` and `!`. A word of a bool is `if (b) 1 else 0`, in brackets as an operand.",
        TypeClass::Record => "An operator takes one word. A dot takes a field: `h.a`.",
        TypeClass::Nothing =>
            "`()` is nothing. A function that gives a word has `: word` in its head.",
        _ => "An operator takes one word. Name the parts of a tuple: `let (a, b) = t;`.",
    }
}

// What helps where a word is wanted to be compared.
fn compared_advice(found: TypeClass) -> &'static str {
    match found {
        TypeClass::Bool =>
            "Only words are compared. A bool is a condition: `b` or `!b`. For `a == b` write `a && b || !a && !b`.",
        TypeClass::Record => "Only words are compared. A dot takes a field: `h.a == 1`.",
        TypeClass::Nothing => "Only words are compared, and `()` is nothing.",
        _ =>
            "Only words are compared. Name the parts of a tuple: `let (a, b) = t;`, and write `a == 1 && b == 2`.",
    }
}

fn condition_advice(found: TypeClass) -> &'static str {
    match found {
        TypeClass::Record => "A condition is a bool. Compare a field: `h.a != 0`.",
        TypeClass::Tuple =>
            "A condition is a bool. Name the parts of a tuple: `let (a, b) = t;`, and write `a != 0`.",
        TypeClass::Nothing => "A condition is a bool, and `()` is nothing.",
        _ => "A condition is a bool: `x != 0`.",
    }
}

// What helps against a value that a function or an exception doesn't take.
fn given_advice(expected: TypeClass, found: TypeClass) -> &'static str {
    match (expected, found) {
        (TypeClass::Bool, TypeClass::Word) => "A bool of a word is a comparison: `x != 0`.",
        (TypeClass::Word, TypeClass::Bool) => "A word of a bool is `if (b) 1 else 0`.",
        (TypeClass::Word, TypeClass::Record) =>
            "Give what the declaration has, in its order. A dot takes a field: `h.a`.",
        (TypeClass::Word, TypeClass::Tuple) =>
            "Give what the declaration has, in its order. Name the parts of a tuple: `let (a, b) = t;`.",
        _ => "Give what the declaration has, in its order.",
    }
}
