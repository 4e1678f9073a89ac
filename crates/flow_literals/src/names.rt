// Numbers of variables above those of a label.

ghost use Rattle.std.specs.Prelude.{◌≡◌, ◌+◌, ◌<◌, ◌≤◌, ℕ, true, IfOk};
ghost use Rattle.std.specs.List.{range_with_len};
ghost use Rattle.nv_base.specs.Sets.{is_in};
ghost use Rattle.flow_ir.specs.Formed.{defined};
ghost use Rattle.flow_ir.specs.View.{tree_view};
ghost use Rattle.flow_literals.specs.inner.Hoisted.{AreBelow};

use flow_ir::Tree;
use nv_base::NoMemory;
use std::alloc::Global;

// A number above this one and a variable.
fn above(n: u32, x: u32) -> Result<u32, NoMemory>
    ensures more { IfOk result (λ m. n ≤ m) }
    ensures above { IfOk result (λ m. x < m) }
{
    if x < n {
        return Ok(n);
    }
    match x.checked_add(1) {
        Some(m) => Ok(m),
        None => Err(NoMemory),
    }
}

/// The same for variables.
pub fn above_all(n: u32, xs: &[u32]) -> Result<u32, NoMemory>
    ensures more { IfOk result (λ m. n ≤ m) }
    ensures above { IfOk result (λ m. AreBelow m xs.now) }
{
    let mut most = n;
    for x in xs {
        most = above(most, *x)?;
    }
    Ok(most)
}

/// The same for those that a tree defines.
pub fn above_tree(n: u32, t: &Tree) -> Result<u32, NoMemory>
    ensures more { IfOk result (λ m. n ≤ m) }
    ensures above { IfOk result (λ m. AreBelow m (defined (tree_view t.now))) }
{
    let mut most = n;
    let mut cur = t;
    'spine: loop {
        match cur {
            Tree::Let(x, _, rest) => {
                most = above(most, *x)?;
                cur = rest;
            }
            Tree::Read(_, xs, _, rest) => {
                most = above_all(most, xs)?;
                cur = rest;
            }
            Tree::Write(_, _, _, rest) => cur = rest,
            Tree::If(_, _, _, first, second) => {
                most = above_tree(most, first)?;
                cur = second;
            }
            Tree::Jump(_, _) => return Ok(most),
            Tree::Halt(_, _) => return Ok(most),
        }
    }
}

/// So many numbers from this one on.
pub fn stretch(alloc: Global, first: u32, n: usize) -> Result<Vec<u32>, NoMemory>
    ensures { IfOk result (λ v. v.items ≡ range_with_len first n) }
{
    let mut v = Vec::new(alloc);
    let mut next = first;
    for _ in 0..n {
        v.push(next)?;
        match next.checked_add(1) {
            Some(m) => next = m,
            None => return Err(NoMemory),
        }
    }
    Ok(v)
}
