// What is known of a tree: the variables that are live where it begins, and its greatest width. Each node's comes
// from that of what follows.

ghost use Rattle.std.specs.Prelude.{◌≡◌, ◌+◌, List, ◌∷◌, IfOk};
ghost use Rattle.nv_base.specs.declared.term.Cmp.{Cmp};
ghost use Rattle.nv_base.specs.declared.term.Mem.{Mem};
ghost use Rattle.nv_base.specs.Measures.{operands_wide};
ghost use Rattle.flow_ir.specs.Tree.{Tree as Plain, Let, Read, Write, If};
ghost use Rattle.nova_middle.specs.inner.Parts.{IsPart, IsEndPart};

use crate::rows::Row;
use nv_base::{Atom, NoMemory, Prim};
use std::alloc::Global;

/// The live variables where a tree begins, and the greatest width of its places.
#[derive(Drop)]
pub struct Part {
    pub live: Row,
    pub width: usize,
}

/// The sum, where it is below 2^64.
pub fn sum(a: usize, b: usize) -> Result<usize, NoMemory>
    ensures { IfOk result (λ n. n ≡ a + b) }
{
    match a.checked_add(b) {
        Some(n) => Ok(n),
        None => Err(NoMemory),
    }
}

// The width of a node's operands where these variables are live after it.
fn operands_width(held: &Row, atoms: &[Atom]) -> Result<usize, NoMemory>
    ensures { IfOk result (λ n. n ≡ operands_wide held.now.xs.items atoms.now) }
{
    if atoms.is_empty() {
        return Ok(held.count());
    }
    sum(held.beside(atoms), sum(atoms.len(), 1)?)
}

/// With a `Let` before it.
pub fn let_part(alloc: Global, x: u32, p: Prim, rest: Part) -> Result<Part, NoMemory>
    ensures { IfOk result (λ r. (t : Plain) → IsPart rest t → IsPart r (Let x p t)) }
{
    let mut live = rest.live.without(alloc, &[x])?;
    live.add_prim(p)?;
    let width = sum(live.count(), 3)?.max(rest.width);
    Ok(Part { live, width })
}

/// With a `Read` before it.
pub fn read_part(alloc: Global, xs: &[u32], a: Atom, rest: Part) -> Result<Part, NoMemory>
    ensures { IfOk result (λ r. (m : Mem) (t : Plain) → IsPart rest t → IsPart r (Read m xs.now a t)) }
{
    let mut live = rest.live.without(alloc, xs)?;
    let node = operands_width(&live, &[a])?;
    live.add_atom(a)?;
    let mut behind = rest.live;
    behind.add_each(xs)?;
    let width = node.max(behind.count()).max(rest.width);
    Ok(Part { live, width })
}

/// With a `Write` before it, whose operands are these.
pub fn write_part(list: &[Atom], rest: Part) -> Result<Part, NoMemory>
    ensures { IfOk result (λ r. (m : Mem) (a : Atom) (bs : List Atom) (t : Plain) → list.now ≡ a ∷ bs → IsPart rest t → IsPart r (Write m a bs t)) }
{
    let width = operands_width(&rest.live, list)?.max(rest.width);
    let mut live = rest.live;
    live.add_all(list)?;
    Ok(Part { live, width })
}

/// With an `If` before it and the first arm.
pub fn if_part(a: Atom, b: Atom, first: Part, rest: Part) -> Result<Part, NoMemory>
    ensures { IfOk result (λ r. (c : Cmp) (t u : Plain) → IsPart first t → IsPart rest u → IsPart r (If c a b t u)) }
{
    let mut live = rest.live;
    live.add_each(&first.live.xs)?;
    let width = operands_width(&live, &[a, b])?.max(first.width.max(rest.width));
    live.add_all(&[a, b])?;
    Ok(Part { live, width })
}

/// Of an end that hands on these words.
pub fn end_part(alloc: Global, bs: &[Atom]) -> Result<Part, NoMemory>
    ensures { IfOk result (IsEndPart bs.now) }
{
    let mut live = Row::new(alloc);
    let width = operands_width(&live, bs)?;
    live.add_all(bs)?;
    Ok(Part { live, width })
}
