//! The line of a node in a text, written.

ghost use Rattle.std.specs.Prelude.{◌≡◌, ◌++◌, ◌∷◌, [], codes, decimal, OnOk};
ghost use Rattle.std.specs.List.{flat_map};
ghost use Rattle.zo_cert_tree.specs.Node.{multiplier_text, node_contents, node_line};

use crate::cert::CertNode;
use crate::multipliers::push_multipliers;
use nv_lines::{push_counted, push_decimal};
use std::alloc::AllocError;

/// Writes the line of a bound.
fn push_bound(
    out: &mut Vec<u8>,
    denominator: u32,
    multipliers: &[(u32, u32)],
) -> Result<(), AllocError>
    ensures { OnOk result (out.new.items ≡ out.old.items ++ (codes "d " ++ (decimal denominator ++ (flat_map (λ m. 32 ∷ multiplier_text m) multipliers.now ++ 10 ∷ [])))) }
{
    out.extend_from_slice(b"d ")?;
    push_decimal(out, u64::from(denominator))?;
    push_multipliers(out, multipliers)?;
    Ok(())
}

/// Writes the line of a clash.
fn push_clash(out: &mut Vec<u8>, multipliers: &[(u32, u32)]) -> Result<(), AllocError>
    ensures { OnOk result (out.new.items ≡ out.old.items ++ (codes "k" ++ (flat_map (λ m. 32 ∷ multiplier_text m) multipliers.now ++ 10 ∷ []))) }
{
    out.extend_from_slice(b"k")?;
    push_multipliers(out, multipliers)?;
    Ok(())
}

/// Writes the line of a node.
pub fn push_node(out: &mut Vec<u8>, node: &CertNode) -> Result<(), AllocError>
    ensures { OnOk result (out.new.items ≡ out.old.items ++ (node_line (node_contents node.now) ++ 10 ∷ [])) }
{
    match node {
        CertNode::Branch(column) => push_counted(out, b"b ", u64::from(*column)),
        CertNode::Bound(denominator, multipliers) => push_bound(out, *denominator, multipliers),
        CertNode::Clash(multipliers) => push_clash(out, multipliers),
        CertNode::Left => out.extend_from_slice(b"o\n"),
    }
}
