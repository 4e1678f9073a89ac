// Variables and values as texts, for people: no contract speaks of it.

use crate::value::{Field, Value};
use nv_ast::{Fun, Name, Pat};
use nv_lines::Message;

// A word from here on is written in hexadecimal digits.
const LARGE: u32 = 1024;

const DIGITS: [&str; 16] = [
    "0", "1", "2", "3", "4", "5", "6", "7", "8", "9", "a", "b", "c", "d", "e", "f",
];

/// Appends the variables of a pattern with their values.
#[cycle(variables)]
pub fn push_variables(out: &mut Message, p: &Pat, v: &Value, is_first: &mut bool) {
    match p {
        Pat::Name(x) => push_variable(out, x, v, is_first),
        Pat::Any => {}
        Pat::Tuple(ps) => push_parts(out, ps, v, is_first),
    }
}

#[cycle(variables)]
fn push_parts(out: &mut Message, ps: &[Pat], v: &Value, is_first: &mut bool) {
    let Value::Tuple(vs) = v else {
        return;
    };
    for (n, p) in ps.iter().enumerate() {
        if let Some(v) = vs.get(n) {
            push_variables(out, p, v, is_first);
        }
    }
}

/// Appends the parameters of a function with their values.
pub fn push_parameters(out: &mut Message, f: &Fun, vs: &[Value]) {
    let mut is_first = true;
    for (n, param) in f.params.iter().enumerate() {
        if let Some(v) = vs.get(n) {
            push_variable(out, &param.0, v, &mut is_first);
        }
    }
}

fn push_variable(out: &mut Message, x: &Name, v: &Value, is_first: &mut bool) {
    push_comma(out, is_first);
    out.bytes(x.bytes());
    out.put(" = ");
    push_value(out, v)
}

fn push_comma(out: &mut Message, is_first: &mut bool) {
    if !*is_first {
        out.put(", ");
    }
    *is_first = false;
}

/// Appends values with commas between them.
#[cycle(values)]
pub fn push_values(out: &mut Message, vs: &[Value]) {
    let mut is_first = true;
    for v in vs {
        push_comma(out, &mut is_first);
        push_value(out, v);
    }
}

#[cycle(values)]
fn push_value(out: &mut Message, v: &Value) {
    match v {
        Value::Word(n) => push_word(out, *n),
        Value::Truth(b) => out.put(if *b { "true" } else { "false" }),
        Value::Tuple(vs) => {
            out.put("(");
            push_values(out, vs);
            out.put(")")
        }
        Value::Record(fields) => {
            out.put("{ ");
            push_fields(out, fields);
            out.put(" }")
        }
    }
}

#[cycle(values)]
fn push_fields(out: &mut Message, fields: &[Field]) {
    let mut is_first = true;
    for field in fields {
        push_comma(out, &mut is_first);
        out.bytes(field.0.bytes());
        out.put(" = ");
        push_value(out, &field.1);
    }
}

fn push_word(out: &mut Message, n: u32) {
    if n < LARGE {
        return out.number(u64::from(n));
    }
    out.put("0x");
    let mut is_begun = false;
    for place in 0..8u32 {
        let shift = 28 - 4 * place;
        let digit = (n >> shift) & 15;
        is_begun = is_begun || digit > 0;
        if is_begun {
            out.put(digit_of(digit));
        }
    }
}

fn digit_of(n: u32) -> &'static str {
    match DIGITS.get(n as usize) {
        Some(digit) => *digit,
        None => "",
    }
}
