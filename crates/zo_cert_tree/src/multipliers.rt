//! The multipliers of a node in a text, read and written.

ghost use Rattle.std.specs.Prelude.{◌≡◌, ◌++◌, ◌∷◌, [], ℕ, List, IfSome, IfNone, IfOk, OnOk};
ghost use Rattle.std.specs.List.{flat_map};
ghost use Rattle.zo_cert_tree.specs.Node.{multiplier_text};
ghost use Rattle.zo_cert_tree.specs.inner.NodeLine.{IsMultiplier, SpellMultipliers};

use nv_lines::{Parts, push_decimal, read_decimal, split_once};
use std::alloc::{AllocError, Global};

/// The rows that a node names are below this.
const NAMES: u64 = 1 << 26;

/// The greatest multiplier.
const MOST: u64 = u32::MAX as u64;

/// The multiplier of a part, where its row is `low` at least.
fn multiplier_of(part: &[u8], low: u64) -> Option<(u32, u32)>
    ensures some { IfSome result (IsMultiplier low part.now) }
    ensures none { IfNone result ((m : ℕ × ℕ) → ¬ IsMultiplier low part.now m) }
{
    let (row, multiplier) = split_once(part, b':')?;
    let row = read_decimal(row, NAMES - 1)?;
    let multiplier = read_decimal(multiplier, MOST)?;
    if row < low {
        return None;
    }
    if multiplier == 0 {
        return None;
    }
    Some((row as u32, multiplier as u32))
}

/// The multipliers of these parts, or `None`; or memory exhaustion.
pub fn multipliers_of(alloc: Global, parts: Parts) -> Result<Option<Vec<(u32, u32)>>, AllocError>
    ensures some { IfOk result (λ found. IfSome found (λ ms. SpellMultipliers parts.entry ms.items)) }
    ensures none { IfOk result (λ found. IfNone found ((ms : List (ℕ × ℕ)) → ¬ SpellMultipliers parts.entry ms)) }
{
    let mut parts = parts;
    let mut multipliers = Vec::new(alloc);
    let mut low = 0;
    while let Some(part) = parts.next_part() {
        let Some((row, multiplier)) = multiplier_of(part, low) else {
            return Ok(None);
        };
        low = u64::from(row) + 1;
        multipliers.push((row, multiplier))?;
    }
    Ok(Some(multipliers))
}

/// Writes a multiplier after a space.
fn push_multiplier(out: &mut Vec<u8>, multiplier: &(u32, u32)) -> Result<(), AllocError>
    ensures { OnOk result (out.new.items ≡ out.old.items ++ (32 ∷ multiplier_text multiplier.now)) }
{
    out.push(b' ')?;
    push_decimal(out, u64::from(multiplier.0))?;
    out.push(b':')?;
    push_decimal(out, u64::from(multiplier.1))?;
    Ok(())
}

/// Writes multipliers, each after a space, and the line's end.
pub fn push_multipliers(out: &mut Vec<u8>, multipliers: &[(u32, u32)]) -> Result<(), AllocError>
    ensures { OnOk result (out.new.items ≡ out.old.items ++ (flat_map (λ m. 32 ∷ multiplier_text m) multipliers.now ++ 10 ∷ [])) }
{
    for multiplier in multipliers {
        push_multiplier(out, multiplier)?;
    }
    out.push(b'\n')?;
    Ok(())
}
