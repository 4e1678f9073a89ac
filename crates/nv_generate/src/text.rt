//! The text of a made source.

ghost use Rattle.std.specs.Prelude.{◌≡◌, ◌≤◌, ◌<◌, ◌++◌, OnOk, IfOk};
ghost use Rattle.nv_generate.specs.Made.{name_of, sign_of, line_text, lines_text, lines_from, made};

use crate::draws::{Draws, Line};
use nv_base::NoMemory;
use nv_lines::push_decimal;
use std::alloc::{AllocError, Global};

/// The signs of the operators, by their numbers.
const SIGNS: &[u8] = b"+-&|^";

/// The text of the source of a seed: `main` of two words `a` and `b`, with so many lines, in each of which an operator
/// between two of the newest names gives a word to a name, the last of which is the result.
pub fn made_text(alloc: Global, seed: u32, size: u32) -> Result<Vec<u8>, NoMemory>
    requires some { 1 ≤ size }
    requires few { size ≤ 500 }
    ensures { IfOk result (λ text. text.items ≡ made seed size) }
{
    let mut out = Vec::new(alloc);
    out.extend_from_slice(b"fun main[a: word, b: word]: word {\n")?;
    push_lines(&mut out, seed, size)?;
    push_name(&mut out, size + 1)?;
    out.extend_from_slice(b" }\n")?;
    Ok(out)
}

/// Writes so many lines.
fn push_lines(out: &mut Vec<u8>, seed: u32, size: u32) -> Result<(), AllocError>
    requires { size ≤ 500 }
    ensures { OnOk result (out.new.items ≡ out.old.items ++ lines_text 0 (lines_from size 0 seed)) }
{
    let mut draws = Draws { state: seed };
    for i in 0..size {
        let line = draws.line(i);
        push_line(out, i, line)?;
    }
    Ok(())
}

/// Writes a line.
fn push_line(out: &mut Vec<u8>, i: u32, line: Line) -> Result<(), AllocError>
    requires short { i < 500 }
    requires operator { line.operator < 5 }
    ensures { OnOk result (out.new.items ≡ out.old.items ++ line_text i line) }
{
    out.extend_from_slice(b"let ")?;
    push_name(out, i + 2)?;
    out.extend_from_slice(b" = ")?;
    push_name(out, line.left)?;
    out.extend_from_slice(&[b' ', SIGNS[line.operator as usize], b' '])?;
    push_name(out, line.right)?;
    out.extend_from_slice(b";\n")?;
    Ok(())
}

/// Writes a name.
fn push_name(out: &mut Vec<u8>, name: u32) -> Result<(), AllocError>
    ensures { OnOk result (out.new.items ≡ out.old.items ++ name_of name) }
{
    match name {
        0 => out.extend_from_slice(b"a"),
        1 => out.extend_from_slice(b"b"),
        _ => {
            out.push(b'x')?;
            push_decimal(out, u64::from(name - 2))
        }
    }
}
