// Line ends and comments between two tokens, and the blanks before a token.
ghost use Rattle.std.specs.Prelude.{◌≡◌, ◌++◌, ◌∷◌, length, OnOk, IfOk, nat_lt};
ghost use Rattle.nova_fmt.specs.Gaps.{trimmed, lines, indent, behind, below, more_lines, comments, blanks};

use crate::kind::Kind;
use nv_lines::split_once;
use std::alloc::AllocError;

// The bytes without the blanks at both ends.
fn trimmed(bytes: &[u8]) -> &[u8]
    ensures { result.now ≡ trimmed bytes.now }
{
    bytes.trim_ascii()
}

#[tactic(auto, using(crate::proofs::Writing::space_written, crate::proofs::Writing::spaces_end))]
fn indent(out: &mut Vec<u8>, level: u32) -> Result<(), AllocError>
    ensures { OnOk result (out.new.items ≡ out.old.items ++ indent level) }
{
    let mut left = 2 * u64::from(level);
    while left > 0 {
        out.push(b' ')?;
        left -= 1;
    }
    Ok(())
}

fn behind(out: &mut Vec<u8>, last: Kind, comment: &[u8]) -> Result<(), AllocError>
    ensures { OnOk result (out.new.items ≡ out.old.items ++ behind last comment.now) }
{
    if comment.is_empty() {
        return Ok(());
    }
    if !last.is_start() {
        out.push(b' ')?;
    }
    out.extend_from_slice(comment)
}

fn below(out: &mut Vec<u8>, level: u32, comment: &[u8]) -> Result<(), AllocError>
    ensures { OnOk result (out.new.items ≡ out.old.items ++ below level comment.now) }
{
    if comment.is_empty() {
        return Ok(());
    }
    indent(out, level)?;
    out.extend_from_slice(comment)
}

fn line(out: &mut Vec<u8>, level: u32, bytes: &[u8]) -> Result<(), AllocError>
    ensures { OnOk result (out.new.items ≡ out.old.items ++ 10 ∷ below level (trimmed bytes.now)) }
{
    out.push(b'\n')?;
    below(out, level, trimmed(bytes))
}

#[tactic(auto, using(crate::proofs::Writing::line_written, crate::proofs::Writing::last_written))]
// Writes the lines after a first one.
fn more_lines(out: &mut Vec<u8>, level: u32, bytes: &[u8]) -> Result<(), AllocError>
    ensures { OnOk result (out.new.items ≡ out.old.items ++ more_lines level (lines bytes.now)) }
{
    let mut rest = bytes;
    while let Some((first, more)) = split_once(rest, b'\n') {
        line(out, level, first)?;
        rest = more;
    }
    line(out, level, rest)
}

#[tactic(auto, using(crate::proofs::Writing::comments_more, crate::proofs::Writing::comments_one, crate::proofs::Writing::ends_more, crate::proofs::Writing::ends_one))]
/// Writes the line ends and comments of a gap. Whether a line ends in it.
pub fn comments(out: &mut Vec<u8>, last: Kind, level: u32, gap: &[u8]) -> Result<bool, AllocError>
    ensures out { OnOk result (out.new.items ≡ out.old.items ++ comments last level (lines gap.now)) }
    ensures ends { IfOk result (λ ends. ends ≡ nat_lt 1 (length (lines gap.now))) }
{
    match split_once(gap, b'\n') {
        Some((first, more)) => {
            behind(out, last, trimmed(first))?;
            more_lines(out, level, more)?;
            Ok(true)
        }
        None => {
            behind(out, last, trimmed(gap))?;
            Ok(false)
        }
    }
}

/// Writes the blanks before a token.
pub fn blanks(
    out: &mut Vec<u8>,
    last: Kind,
    next: Kind,
    is_first: bool,
    level: u32,
) -> Result<(), AllocError>
    ensures { OnOk result (out.new.items ≡ out.old.items ++ blanks last next is_first level) }
{
    if is_first {
        return indent(out, level);
    }
    if last.joined(next) {
        return Ok(());
    }
    out.push(b' ')?;
    Ok(())
}
