// Trees as a list of steps and an end, so that no pass goes down a long one by recursion.

ghost use Rattle.std.specs.Prelude.{◌≡◌, ◌++◌, ◌∷◌, [], IfOk};
ghost use Rattle.flow_ir.specs.View.{tree_view};
ghost use Rattle.flow_ir.specs.Spine.{put, put_all};

use crate::flow::Tree;
use nv_base::{Args, Atom, Cmp, Mem, NoMemory, Prim, Vars};
use std::alloc::{AllocError, Global};

/// A node without the tree after it.
#[derive(Drop)]
pub enum Step {
    Let(u32, Prim),
    Read(Mem, Vars, Atom),
    Write(Mem, Atom, Args),
    /// The first part is here, and the second comes behind.
    If(Cmp, Atom, Atom, Tree),
}

/// The tree of these steps and then `end`.
pub fn join(alloc: Global, mut steps: Vec<Step>, end: Tree) -> Result<Tree, AllocError>
    ensures { IfOk result (λ t. tree_view t ≡ put_all steps.items (tree_view end)) }
{
    let mut t = end;
    while let Some(s) = steps.pop() {
        t = placed(alloc, s, t)?;
    }
    Ok(t)
}

// One step before a tree.
fn placed(alloc: Global, s: Step, t: Tree) -> Result<Tree, AllocError>
    ensures { IfOk result (λ u. tree_view u ≡ put s (tree_view t)) }
{
    match s {
        Step::Let(x, p) => Ok(Tree::Let(x, p, Box::new(alloc, t)?)),
        Step::Read(m, xs, a) => Ok(Tree::Read(m, xs, a, Box::new(alloc, t)?)),
        Step::Write(m, a, bs) => Ok(Tree::Write(m, a, bs, Box::new(alloc, t)?)),
        Step::If(c, a, b, first) => {
            let first = Box::new(alloc, first)?;
            Ok(Tree::If(c, a, b, first, Box::new(alloc, t)?))
        }
    }
}

/// One step more.
pub fn push_step(steps: &mut Vec<Step>, step: Step) -> Result<(), NoMemory>
    ensures { IfOk result (λ u. steps.new.items ≡ steps.old.items ++ step ∷ []) }
{
    steps.push(step)?;
    Ok(())
}

/// The steps before a tree.
pub fn joined(alloc: Global, steps: Vec<Step>, end: Tree) -> Result<Tree, NoMemory>
    ensures { IfOk result (λ u. tree_view u ≡ put_all steps.items (tree_view end)) }
{
    Ok(join(alloc, steps, end)?)
}

/// The same operands in a short list.
pub fn short_atoms(alloc: Global, xs: &[Atom]) -> Result<Args, NoMemory>
    ensures { IfOk result (λ v. v.items ≡ xs.now) }
{
    Ok(Args::from_slice(alloc, xs)?)
}

/// The same variables in a short list.
pub fn short_numbers(alloc: Global, xs: &[u32]) -> Result<Vars, NoMemory>
    ensures { IfOk result (λ v. v.items ≡ xs.now) }
{
    Ok(Vars::from_slice(alloc, xs)?)
}
