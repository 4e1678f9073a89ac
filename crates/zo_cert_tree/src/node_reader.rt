//! The line of a node in a text, read.

ghost use Rattle.std.specs.Prelude.{◌≡◌, ◌++◌, codes, IfSome, IfNone, IfOk};
ghost use Rattle.zo_cert_tree.specs.Node.{IsNodeText, node_contents, node_line};
ghost use Rattle.zo_cert_tree.specs.inner.NodeLine.{IsNodeLine, IsClashLine};

use crate::cert::CertNode;
use crate::multipliers::multipliers_of;
use nv_lines::{Parts, read_decimal, strip};
use std::alloc::{AllocError, Global};

/// The columns that a node names are below this.
const NAMES: u64 = 1 << 26;

/// The greatest denominator.
const MOST: u64 = u32::MAX as u64;

/// The branch of which this is the column.
fn branch_of(rest: &[u8]) -> Option<CertNode>
    ensures some { IfSome result (λ node. IsNodeText (node_contents node) × (codes "b " ++ rest.now ≡ node_line (node_contents node))) }
    ensures none { IfNone result (¬ IsNodeLine (codes "b " ++ rest.now)) }
{
    let column = read_decimal(rest, NAMES - 1)?;
    Some(CertNode::Branch(column as u32))
}

/// The bound of which these are the numbers, or `None`; or memory exhaustion.
fn bound_of(alloc: Global, rest: &[u8]) -> Result<Option<CertNode>, AllocError>
    ensures some { IfOk result (λ found. IfSome found (λ node. IsNodeText (node_contents node) × (codes "d " ++ rest.now ≡ node_line (node_contents node)))) }
    ensures none { IfOk result (λ found. IfNone found (¬ IsNodeLine (codes "d " ++ rest.now))) }
{
    let mut parts = Parts::of(rest);
    let Some(denominator) = parts.next_decimal(MOST) else {
        return Ok(None);
    };
    if denominator == 0 {
        return Ok(None);
    }
    match multipliers_of(alloc, parts)? {
        Some(multipliers) => Ok(Some(CertNode::Bound(denominator as u32, multipliers))),
        None => Ok(None),
    }
}

/// The clash of a line, or `None`; or memory exhaustion.
fn clash_of(alloc: Global, line: &[u8]) -> Result<Option<CertNode>, AllocError>
    ensures some { IfOk result (λ found. IfSome found (λ node. IsNodeText (node_contents node) × (line.now ≡ node_line (node_contents node)))) }
    ensures none { IfOk result (λ found. IfNone found (¬ IsClashLine line.now)) }
{
    let mut parts = Parts::of(line);
    if !parts.next_is(b"k") {
        return Ok(None);
    }
    match multipliers_of(alloc, parts)? {
        Some(multipliers) => Ok(Some(CertNode::Clash(multipliers))),
        None => Ok(None),
    }
}

/// The node of a line, or `None`; or memory exhaustion.
pub fn node_of(alloc: Global, line: &[u8]) -> Result<Option<CertNode>, AllocError>
    ensures some { IfOk result (λ found. IfSome found (λ node. IsNodeText (node_contents node) × (line.now ≡ node_line (node_contents node)))) }
    ensures none { IfOk result (λ found. IfNone found (¬ IsNodeLine line.now)) }
{
    if let Some(rest) = strip(line, b"b ") {
        return Ok(branch_of(rest));
    }
    if let Some(rest) = strip(line, b"d ") {
        return bound_of(alloc, rest);
    }
    if line == b"o".as_slice() {
        return Ok(Some(CertNode::Left));
    }
    clash_of(alloc, line)
}
