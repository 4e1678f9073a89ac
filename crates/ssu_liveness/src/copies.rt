//! Which names are clones of which values.

ghost use Rattle.std.specs.Prelude.{◌≡◌, ℕ, nat_eq, Some, None, if◌then◌else◌, IfOk, OnOk};
ghost use Rattle.std.specs.HashMap.{get};
ghost use Rattle.nv_base.specs.Sets.{is_in};
ghost use Rattle.ssu_ir.specs.Slots.{node_of, bare_all};
ghost use Rattle.ssu_ir.specs.View.{placed_of};
ghost use Rattle.ssu_liveness.specs.inner.Live.{first_of, node_source, source_among, value_by};

use nv_base::NoMemory;
use ssu_ir::{Ssu, SsuNode, walk};
use std::alloc::Global;
use std::collections::HashMap;

/// Of each name that is a clone the value.
pub type Copies = HashMap<u32, u32>;

/// The value whose copy a name is.
pub fn value_of(copies: &Copies, x: u32) -> u32
    ensures { result ≡ value_by (get nat_eq copies.now) x }
{
    copies.get(&x).copied().unwrap_or(x)
}

/// A clone of a value, where the name isn't one already.
fn note(copies: &mut Copies, x: u32, y: u32) -> Result<(), NoMemory>
    ensures { OnOk result ((z : ℕ) → get nat_eq copies.new z ≡ first_of (get nat_eq copies.old z) (if nat_eq z x then Some y else None)) }
{
    if copies.get(&x).is_none() {
        copies.insert(x, y)?;
    }
    Ok(())
}

/// The clones of a value.
fn note_all(copies: &mut Copies, xs: &[u32], y: u32) -> Result<(), NoMemory>
    ensures { OnOk result ((z : ℕ) → get nat_eq copies.new z ≡ first_of (get nat_eq copies.old z) (if is_in z xs.now then Some y else None)) }
{
    for x in xs {
        note(copies, *x, y)?;
    }
    Ok(())
}

/// The clones that a node makes.
fn note_node(copies: &mut Copies, n: &SsuNode) -> Result<(), NoMemory>
    ensures { OnOk result ((z : ℕ) → get nat_eq copies.new z ≡ first_of (get nat_eq copies.old z) (node_source (node_of n.now) z)) }
{
    if let SsuNode::Clone(xs, y, _) = n {
        note_all(copies, xs, *y)?;
    }
    Ok(())
}

/// All clones.
pub fn copies_of(alloc: Global, s: &Ssu) -> Result<Copies, NoMemory>
    ensures { IfOk result (λ copies. (z : ℕ) → get nat_eq copies z ≡ source_among (bare_all (placed_of s.now)) z) }
{
    let mut copies = HashMap::new(alloc);
    let order = walk::preorder(alloc, s)?;
    for id in &order {
        note_node(&mut copies, s.node(*id))?;
    }
    Ok(copies)
}
