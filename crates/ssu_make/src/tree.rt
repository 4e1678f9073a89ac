// Trees of a label, each from its end up.

ghost use Rattle.std.specs.Prelude.{◌≡◌, ℕ, ◌+◌, ◌<◌, [], ◌∷◌, ◌++◌, length, slice_index, IfOk, OnOk};
ghost use Rattle.flow_ir.specs.View.{tree_view};
ghost use Rattle.ssu_ir.specs.Tree as ssu;
ghost use Rattle.ssu_ir.specs.Slots.{node_of, successors_of};
ghost use Rattle.ssu_make.specs.inner.Making.{counted, HasRoots, IsRoot, AreRoots, Becomes, Joined, Adds, MadeTo, tops, successor_list, Builds, CanMake, IsOver};
ghost use Rattle.ssu_make.specs.Made.{all_taken, most, spent, made, made_let, made_read, made_write, made_if, made_jump, made_halt, prim_step};
ghost use Rattle.ssu_make.specs.Uses.{occurs, outside, uses};
ghost use Rattle.ssu_make.specs.Uses as spec;

use crate::counts::Counts;
use crate::naming::{operands, value_name, values};
use crate::nodes::{clones, literals};
use flow_ir::Tree;
use nv_base::{Args, Atom, Bin, Cmp, Mem, NoMemory, Prim, Vars};
use ssu_ir::{NodeId, SsuBuild, SsuNode};
use std::alloc::Global;

/// A tree that was made: its root, and how often each variable is used in it.
#[derive(Drop)]
pub struct Part {
    pub root: NodeId,
    pub counts: Counts,
}

/// The operands of a primitive; one as it is is joined with 0.
pub fn prim_operands(alloc: Global, p: Prim) -> Result<Vec<Atom>, NoMemory>
    ensures { IfOk result (λ v. v.items ≡ spec.operands p) }
{
    match p {
        Prim::Same(a) => Ok(vec![in alloc; a, Atom::Lit(0)]?),
        Prim::Una(_, a) => Ok(vec![in alloc; a]?),
        Prim::Bin(_, a, b) => Ok(vec![in alloc; a, b]?),
    }
}

// The node of a primitive.
fn prim_node(x: u32, p: Prim, ys: &[u32], root: NodeId) -> SsuNode
    requires { length ys.now ≡ length (spec.operands p) }
    ensures node { node_of result ≡ ssu.Does (prim_step x p ys.now) }
    ensures children { successors_of result ≡ root.0 ∷ [] }
{
    match p {
        Prim::Same(_) => SsuNode::Bin(x, Bin::Or, ys[0], ys[1], root),
        Prim::Una(op, _) => SsuNode::Una(x, op, ys[0], root),
        Prim::Bin(op, _, _) => SsuNode::Bin(x, op, ys[0], ys[1], root),
    }
}

fn make_let(
    alloc: Global,
    build: &mut SsuBuild,
    bases: &Counts,
    fresh: &mut u32,
    x: u32,
    p: Prim,
    part: Part,
) -> Result<Part, NoMemory>
    requires { IsRoot build.old part.root.0 }
    ensures tree { IfOk result (λ r. Becomes build.old build.new part.root.0 r.root.0 (made_let (counted bases.now) fresh.old x p (counted part.counts))) }
    ensures counts { IfOk result (λ r. (y : ℕ) → counted r.counts y ≡ occurs (spec.operands p) y + outside (x ∷ []) (counted part.counts) y) }
    ensures fresh { IfOk result (λ r. fresh.new ≡ fresh.old + all_taken (spec.operands p)) }
{
    let list = prim_operands(alloc, p)?;
    let behind = clones(alloc, build, bases, &part.counts, &[x], part.root)?;
    let own = value_name(bases, &part.counts, x)?;
    let mut counts = part.counts;
    counts.forget(&[x]);
    let first = *fresh;
    let ys = operands(alloc, bases, &mut counts, fresh, &list)?;
    let node = build.add(prim_node(own, p, &ys, behind))?;
    let root = literals(build, first, &list, node)?;
    Ok(Part { root, counts })
}

fn make_read(
    alloc: Global,
    build: &mut SsuBuild,
    bases: &Counts,
    fresh: &mut u32,
    m: Mem,
    xs: &[u32],
    a: Atom,
    part: Part,
) -> Result<Part, NoMemory>
    requires { IsRoot build.old part.root.0 }
    ensures tree { IfOk result (λ r. Becomes build.old build.new part.root.0 r.root.0 (made_read (counted bases.now) fresh.old m xs.now a (counted part.counts))) }
    ensures counts { IfOk result (λ r. (y : ℕ) → counted r.counts y ≡ occurs (a ∷ []) y + outside xs.now (counted part.counts) y) }
    ensures fresh { IfOk result (λ r. fresh.new ≡ fresh.old + all_taken (a ∷ [])) }
{
    let behind = clones(alloc, build, bases, &part.counts, xs, part.root)?;
    let own = values(alloc, bases, &part.counts, xs)?;
    let mut counts = part.counts;
    counts.forget(xs);
    let first = *fresh;
    let ys = operands(alloc, bases, &mut counts, fresh, &[a])?;
    let node = SsuNode::Read(m, Vars::from_slice(alloc, &own)?, ys[0], behind);
    let read = build.add(node)?;
    let root = literals(build, first, &[a], read)?;
    Ok(Part { root, counts })
}

// The address and then the words.
fn write_operands(alloc: Global, a: Atom, bs: &[Atom]) -> Result<Vec<Atom>, NoMemory>
    ensures { IfOk result (λ v. v.items ≡ a ∷ bs.now) }
{
    let mut list = vec![in alloc; a]?;
    list.extend_from_slice(bs)?;
    Ok(list)
}

fn make_write(
    alloc: Global,
    build: &mut SsuBuild,
    bases: &Counts,
    fresh: &mut u32,
    m: Mem,
    a: Atom,
    bs: &[Atom],
    part: Part,
) -> Result<Part, NoMemory>
    requires { IsRoot build.old part.root.0 }
    ensures tree { IfOk result (λ r. Becomes build.old build.new part.root.0 r.root.0 (made_write (counted bases.now) fresh.old m a bs.now (counted part.counts))) }
    ensures counts { IfOk result (λ r. (y : ℕ) → counted r.counts y ≡ occurs (a ∷ bs.now) y + counted part.counts y) }
    ensures fresh { IfOk result (λ r. fresh.new ≡ fresh.old + all_taken (a ∷ bs.now)) }
{
    let list = write_operands(alloc, a, bs)?;
    let mut counts = part.counts;
    let first = *fresh;
    let ys = operands(alloc, bases, &mut counts, fresh, &list)?;
    let node = SsuNode::Write(m, ys[0], Vars::from_slice(alloc, &ys[1..])?, part.root);
    let write = build.add(node)?;
    let root = literals(build, first, &list, write)?;
    Ok(Part { root, counts })
}

fn make_if(
    alloc: Global,
    build: &mut SsuBuild,
    bases: &Counts,
    fresh: &mut u32,
    c: Cmp,
    a: Atom,
    b: Atom,
    arm: Part,
    part: Part,
) -> Result<Part, NoMemory>
    requires { AreRoots build.old arm.root.0 part.root.0 }
    ensures tree { IfOk result (λ r. Joined build.old build.new arm.root.0 part.root.0 r.root.0 (made_if (counted bases.now) fresh.old c a b (most (counted arm.counts) (counted part.counts)))) }
    ensures counts { IfOk result (λ r. (y : ℕ) → counted r.counts y ≡ occurs (a ∷ b ∷ []) y + most (counted arm.counts) (counted part.counts) y) }
    ensures fresh { IfOk result (λ r. fresh.new ≡ fresh.old + all_taken (a ∷ b ∷ [])) }
{
    let mut counts = arm.counts.most(part.counts)?;
    let first = *fresh;
    let ys = operands(alloc, bases, &mut counts, fresh, &[a, b])?;
    let fork = build.add(SsuNode::If(c, ys[0], ys[1], arm.root, part.root))?;
    let root = literals(build, first, &[a, b], fork)?;
    Ok(Part { root, counts })
}

fn make_jump(
    alloc: Global,
    build: &mut SsuBuild,
    bases: &Counts,
    fresh: &mut u32,
    l: u32,
    bs: &[Atom],
) -> Result<Part, NoMemory>
    requires { HasRoots build.old }
    ensures tree { IfOk result (λ r. Adds build.old build.new r.root.0 (made_jump (counted bases.now) fresh.old l bs.now)) }
    ensures counts { IfOk result (λ r. (y : ℕ) → counted r.counts y ≡ occurs bs.now y) }
    ensures fresh { IfOk result (λ r. fresh.new ≡ fresh.old + all_taken bs.now) }
{
    let mut counts = Counts::new(alloc);
    let first = *fresh;
    let ys = operands(alloc, bases, &mut counts, fresh, bs)?;
    let jump = build.add(SsuNode::Jump(l, ys))?;
    let root = literals(build, first, bs, jump)?;
    Ok(Part { root, counts })
}

fn make_halt(
    alloc: Global,
    build: &mut SsuBuild,
    bases: &Counts,
    fresh: &mut u32,
    e: u16,
    bs: &[Atom],
) -> Result<Part, NoMemory>
    requires { HasRoots build.old }
    ensures tree { IfOk result (λ r. Adds build.old build.new r.root.0 (made_halt (counted bases.now) fresh.old e bs.now)) }
    ensures counts { IfOk result (λ r. (y : ℕ) → counted r.counts y ≡ occurs bs.now y) }
    ensures fresh { IfOk result (λ r. fresh.new ≡ fresh.old + all_taken bs.now) }
{
    let mut counts = Counts::new(alloc);
    let first = *fresh;
    let ys = operands(alloc, bases, &mut counts, fresh, bs)?;
    let halt = build.add(SsuNode::Halt(e, Vars::from_slice(alloc, &ys)?))?;
    let root = literals(build, first, bs, halt)?;
    Ok(Part { root, counts })
}

/// Adds what follows a node, the first arm of an `If` on top.
pub fn push_successors<'a>(t: &'a Tree, work: &mut Vec<&'a Tree>) -> Result<(), NoMemory>
    ensures { OnOk result (tops work.new.items ≡ successor_list (tree_view t.now) ++ tops work.old.items) }
{
    match t {
        Tree::Let(_, _, rest) => work.push(rest)?,
        Tree::Read(_, _, _, rest) => work.push(rest)?,
        Tree::Write(_, _, _, rest) => work.push(rest)?,
        Tree::If(_, _, _, first, second) => {
            work.push(second)?;
            work.push(first)?;
        }
        Tree::Jump(_, _) => {}
        Tree::Halt(_, _) => {}
    }
    Ok(())
}

// The nodes of a tree, each before what follows it, and first arms before second ones.
fn tree_order<'a>(alloc: Global, t: &'a Tree) -> Result<Vec<&'a Tree>, NoMemory>
    ensures { IfOk result (λ v. Builds (tops v.items) [] (tree_view t.now)) }
{
    let mut order = Vec::new(alloc);
    let mut work = Vec::new(alloc);
    work.push(t)?;
    'walk: while let Some(s) = work.pop() {
        order.push(s)?;
        push_successors(s, &mut work)?;
    }
    Ok(order)
}

// The top of a stack.
fn take_part(parts: &mut Vec<Part>) -> Part
    requires { 0 < length parts.old.items }
    ensures { parts.old.items ≡ parts.new.items ++ result ∷ [] }
{
    parts.pop().unwrap()
}

// A node, over what follows it, which is on top of a stack.
fn make_node(
    alloc: Global,
    build: &mut SsuBuild,
    bases: &Counts,
    fresh: &mut u32,
    t: &Tree,
    parts: &mut Vec<Part>,
) -> Result<Part, NoMemory>
    requires { CanMake (counted bases.now) (tree_view t.now) build.old fresh.old parts.old.items }
    ensures { IfOk result (λ r. IsOver (counted bases.now) (tree_view t.now) build.old build.new fresh.old fresh.new parts.old.items parts.new.items r) }
{
    match t {
        Tree::Let(x, p, _) => {
            let rest = take_part(parts);
            make_let(alloc, build, bases, fresh, *x, *p, rest)
        }
        Tree::Read(m, xs, a, _) => {
            let rest = take_part(parts);
            make_read(alloc, build, bases, fresh, *m, xs, *a, rest)
        }
        Tree::Write(m, a, bs, _) => {
            let rest = take_part(parts);
            make_write(alloc, build, bases, fresh, *m, *a, bs, rest)
        }
        Tree::If(c, a, b, _, _) => {
            let first = take_part(parts);
            let second = take_part(parts);
            make_if(alloc, build, bases, fresh, *c, *a, *b, first, second)
        }
        Tree::Jump(l, bs) => make_jump(alloc, build, bases, fresh, *l, bs),
        Tree::Halt(e, bs) => make_halt(alloc, build, bases, fresh, *e, bs),
    }
}

/// A tree whose new names begin at `fresh`, by the first names of variables.
pub fn make_tree(
    alloc: Global,
    build: &mut SsuBuild,
    bases: &Counts,
    fresh: &mut u32,
    t: &Tree,
) -> Result<Part, NoMemory>
    requires { HasRoots build.old }
    ensures { IfOk result (λ r. MadeTo (counted bases.now) fresh.old (tree_view t.now) build.old build.new fresh.new r) }
{
    let mut order = tree_order(alloc, t)?;
    let mut parts = Vec::new(alloc);
    'walk: while let Some(s) = order.pop() {
        let part = make_node(alloc, build, bases, fresh, s, &mut parts)?;
        parts.push(part)?;
    }
    Ok(take_part(&mut parts))
}
