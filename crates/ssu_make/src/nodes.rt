// Nodes before a root.

ghost use Rattle.std.specs.Prelude.{◌≡◌, ◌+◌, ◌<◌, ◌^◌, false, nat_lt, IfOk};
ghost use Rattle.std.specs.List.{range_with_len};
ghost use Rattle.nv_base.specs.declared.term.Atom.TheVariants.{Lit};
ghost use Rattle.ssu_make.specs.inner.Making.{counted, IsRoot, Becomes};
ghost use Rattle.ssu_make.specs.Made as made;

use crate::counts::Counts;
use crate::naming::{is_literal, plus, taken};
use nv_base::{Atom, Bin, NoMemory};
use ssu_ir::{NodeId, SsuBuild, SsuNode};
use std::alloc::Global;

// A wide literal by its halves, under three names from n on.
fn wide_literal(build: &mut SsuBuild, n: u32, v: u32, root: NodeId) -> Result<NodeId, NoMemory>
    requires root { IsRoot build.old root.0 }
    requires names { n + 3 < 2 ^ 32 }
    ensures { IfOk result (λ id. Becomes build.old build.new root.0 id.0 (made.literal false n v)) }
{
    let whole = build.add(SsuNode::Bin(n + 2, Bin::Or, n, n + 1, root))?;
    let low = build.add(SsuNode::Lit(n + 1, v % 65536, whole))?;
    build.add(SsuNode::Lit(n, v / 65536 * 65536, low))
}

// A literal under its names.
fn literal(build: &mut SsuBuild, n: u32, v: u32, root: NodeId) -> Result<NodeId, NoMemory>
    requires root { IsRoot build.old root.0 }
    requires names { n + made.taken (Lit v) < 2 ^ 32 }
    ensures { IfOk result (λ id. Becomes build.old build.new root.0 id.0 (made.atom_literal n (Lit v))) }
{
    if is_literal(v) {
        build.add(SsuNode::Lit(n, v, root))
    } else {
        wide_literal(build, n, v, root)
    }
}

// The literal of an operand, if it is one.
fn atom_literal(build: &mut SsuBuild, n: u32, a: Atom, root: NodeId) -> Result<NodeId, NoMemory>
    requires root { IsRoot build.old root.0 }
    requires names { n + made.taken a < 2 ^ 32 }
    ensures { IfOk result (λ id. Becomes build.old build.new root.0 id.0 (made.atom_literal n a)) }
{
    match a {
        Atom::Var(_) => Ok(root),
        Atom::Lit(v) => literal(build, n, v, root),
    }
}

/// The literals among operands, under new names from `first` on.
pub fn literals(
    build: &mut SsuBuild,
    first: u32,
    list: &[Atom],
    root: NodeId,
) -> Result<NodeId, NoMemory>
    requires { IsRoot build.old root.0 }
    ensures { IfOk result (λ id. Becomes build.old build.new root.0 id.0 (made.literals first list.now)) }
{
    let mut id = root;
    let mut n = first;
    let mut i = list.len();
    while i > 0 {
        i -= 1;
        let next = plus(n, taken(list[i]))?;
        id = atom_literal(build, n, list[i], id)?;
        n = next;
    }
    Ok(id)
}

// So many numbers from `first` on.
fn stretch(alloc: Global, first: u32, n: u32) -> Result<Vec<u32>, NoMemory>
    requires { first + n < 2 ^ 32 }
    ensures { IfOk result (λ v. v.items ≡ range_with_len first n) }
{
    let mut v = Vec::new(alloc);
    for k in 0..n {
        v.push(first + k)?;
    }
    Ok(v)
}

// The clones of a value of n uses, whose names begin at `first`.
fn clone(
    alloc: Global,
    build: &mut SsuBuild,
    first: u32,
    n: u32,
    root: NodeId,
) -> Result<NodeId, NoMemory>
    requires { IsRoot build.old root.0 }
    ensures { IfOk result (λ id. Becomes build.old build.new root.0 id.0 (made.clone_step (nat_lt 1 n) first n)) }
{
    if n > 1 {
        let own = plus(first, n)?;
        let copies = stretch(alloc, first, n)?;
        build.add(SsuNode::Clone(copies, own, root))
    } else {
        Ok(root)
    }
}

/// The clones of values, where `counts` has their uses.
pub fn clones(
    alloc: Global,
    build: &mut SsuBuild,
    bases: &Counts,
    counts: &Counts,
    xs: &[u32],
    root: NodeId,
) -> Result<NodeId, NoMemory>
    requires { IsRoot build.old root.0 }
    ensures { IfOk result (λ id. Becomes build.old build.new root.0 id.0 (made.clones (counted bases.now) (counted counts.now) xs.now)) }
{
    let mut id = root;
    let mut i = xs.len();
    while i > 0 {
        i -= 1;
        id = clone(alloc, build, bases.at(xs[i]), counts.at(xs[i]), id)?;
    }
    Ok(id)
}
