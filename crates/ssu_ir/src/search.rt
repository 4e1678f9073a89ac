// What the tree under a number says of one name. Each call takes no memory, and goes down by
// recursion.

ghost use Rattle.std.specs.Prelude.{◌≡◌, ◌+◌, min, nat_eq, if◌then◌else◌};
ghost use Rattle.std.specs.List.{list_all, list_any};
ghost use Rattle.nv_base.specs.Sets.{is_in};
ghost use Rattle.ssu_ir.specs.Single as rules;
ghost use Rattle.ssu_ir.specs.Single.{names, defined};
ghost use Rattle.ssu_ir.specs.Slots.{node_of};
ghost use Rattle.ssu_ir.specs.Tree.{node_values, node_uses};
ghost use Rattle.ssu_ir.specs.inner.Checks as checks;
ghost use Rattle.ssu_ir.specs.inner.Checks.{node_names, node_defs, node_clones, node_fits, times_in};
ghost use Rattle.ssu_ir.specs.inner.Under.{HasTree, tree_at};

use crate::node::{NodeId, SsuNode};
use crate::pieces::{NextNodes, clones, clones_from, operands, successors, uses, values};
use crate::ssu::Ssu;
use nv_base::{Mem, SOURCE_SCRATCH};

/// Whether a name is in a list.
pub fn has(xs: &[u32], x: u32) -> bool
    ensures { result ≡ is_in x xs.now }
{
    xs.contains(&x)
}

/// How often a name is in a list, at most 255.
pub fn times(xs: &[u32], x: u32) -> u8
    ensures { result ≡ min 255 (times_in x xs.now) }
{
    let mut n: u8 = 0;
    for y in xs {
        n = n.saturating_add(same(x, *y));
    }
    n
}

// 1 for equal names, else 0.
fn same(x: u32, y: u32) -> u8
    ensures { result ≡ (if nat_eq x y then 1 else 0) }
{
    if x == y { 1 } else { 0 }
}

// How often a node defines a name, at most 255.
fn times_here(n: &SsuNode, x: u32) -> u8
    ensures { result ≡ min 255 (times_in x (node_values (node_of n.now)) + times_in x (node_clones (node_of n.now))) }
{
    let in_values = times(values(n), x);
    let in_clones = times(clones(n), x);
    in_values.saturating_add(in_clones)
}

fn is_operand(n: &SsuNode, x: u32) -> bool
    ensures { result ≡ is_in x (node_names (node_of n.now)) }
{
    let (front, rest) = operands(n);
    has(front, x) || has(rest, x)
}

fn is_use(n: &SsuNode, x: u32) -> bool
    ensures { result ≡ is_in x (node_uses (node_of n.now)) }
{
    let (front, rest) = uses(n);
    has(front, x) || has(rest, x)
}

fn is_defined(n: &SsuNode, x: u32) -> bool
    ensures { result ≡ is_in x (node_defs (node_of n.now)) }
{
    has(values(n), x) || has(clones(n), x)
}

// Whether an access of a node at this name may be, where the name has this number.
fn fits(n: &SsuNode, x: u32, number: Option<u32>) -> bool
    ensures { result ≡ node_fits (node_of n.now) x number }
{
    match n {
        SsuNode::Lit(_, _, _) => true,
        SsuNode::Una(_, _, _, _) => true,
        SsuNode::Bin(_, _, _, _, _) => true,
        SsuNode::Clone(_, _, _) => true,
        SsuNode::Read(m, xs, y, _) => {
            if x == *y {
                is_address(*m, number, xs.len())
            } else {
                true
            }
        }
        SsuNode::Write(m, y, xs, _) => {
            if x == *y {
                is_address(*m, number, xs.len())
            } else {
                true
            }
        }
        SsuNode::If(_, _, _, _, _) => true,
        SsuNode::Jump(_, _) => true,
        SsuNode::Halt(_, _) => true,
    }
}

// Whether N words may be accessed there.
fn is_address(m: Mem, number: Option<u32>, n: usize) -> bool
    ensures { result ≡ rules.is_address m number n }
{
    match m {
        Mem::Sram => true,
        Mem::Sdram => true,
        Mem::Scratch => fits_scratch(number, n),
    }
}

fn fits_scratch(number: Option<u32>, n: usize) -> bool
    ensures { result ≡ rules.fits_scratch n number }
{
    match number {
        Some(v) => n <= SOURCE_SCRATCH as usize && v as usize + n <= SOURCE_SCRATCH as usize,
        None => false,
    }
}

/// Whether the tree uses the name.
#[tactic(none)]
pub fn mentions(s: &Ssu, id: NodeId, x: u32) -> bool
    requires { HasTree s.now.nodes.slots id.0 }
    ensures { result ≡ is_in x (names (tree_at s.now.nodes.slots id.0)) }
{
    let n = s.node(id);
    if is_operand(n, x) {
        return true;
    }
    match successors(n) {
        NextNodes::None => false,
        NextNodes::One(k) => mentions(s, k, x),
        NextNodes::Two(j, k) => mentions(s, j, x) || mentions(s, k, x),
    }
}

/// How often the tree defines the name, at most 255.
#[tactic(none)]
pub fn times_defined(s: &Ssu, id: NodeId, x: u32) -> u8
    requires { HasTree s.now.nodes.slots id.0 }
    ensures { result ≡ min 255 (times_in x (defined (tree_at s.now.nodes.slots id.0))) }
{
    let n = s.node(id);
    let here = times_here(n, x);
    match successors(n) {
        NextNodes::None => here,
        NextNodes::One(k) => {
            let below = times_defined(s, k, x);
            here.saturating_add(below)
        }
        NextNodes::Two(j, k) => {
            let first = times_defined(s, j, x);
            let second = times_defined(s, k, x);
            let below = first.saturating_add(second);
            here.saturating_add(below)
        }
    }
}

/// Whether the tree uses the name and doesn't define it above.
#[tactic(none)]
pub fn is_free(s: &Ssu, id: NodeId, x: u32) -> bool
    requires { HasTree s.now.nodes.slots id.0 }
    ensures { result ≡ checks.is_free x (tree_at s.now.nodes.slots id.0) }
{
    let n = s.node(id);
    if is_operand(n, x) {
        return true;
    }
    match successors(n) {
        NextNodes::None => false,
        NextNodes::One(k) => !is_defined(n, x) && is_free(s, k, x),
        NextNodes::Two(j, k) => is_free(s, j, x) || is_free(s, k, x),
    }
}

/// Whether the tree uses the name or a clone of it.
#[cycle(copies)]
#[tactic(none)]
pub fn copy_used(s: &Ssu, id: NodeId, x: u32) -> bool
    requires { HasTree s.now.nodes.slots id.0 }
    ensures { result ≡ checks.copy_used x (tree_at s.now.nodes.slots id.0) }
{
    let n = s.node(id);
    if is_use(n, x) {
        return true;
    }
    match successors(n) {
        NextNodes::None => false,
        NextNodes::One(k) => {
            any_used(s, k, clones_from(n, x)) || (!has(clones(n), x) && copy_used(s, k, x))
        }
        NextNodes::Two(j, k) => copy_used(s, j, x) || copy_used(s, k, x),
    }
}

// Whether it uses one of the names.
#[cycle(copies)]
fn any_used(s: &Ssu, id: NodeId, xs: &[u32]) -> bool
    requires { HasTree s.now.nodes.slots id.0 }
    ensures { result ≡ list_any (λ x. checks.copy_used x (tree_at s.now.nodes.slots id.0)) xs.now }
{
    for x in xs {
        if copy_used(s, id, *x) {
            return true;
        }
    }
    false
}

/// Whether every access in the tree whose address is the name or a clone of it may be, where the
/// name has this number or none that is known.
#[cycle(accesses)]
#[tactic(none)]
pub fn addressed(s: &Ssu, id: NodeId, x: u32, number: Option<u32>) -> bool
    requires { HasTree s.now.nodes.slots id.0 }
    ensures { result ≡ checks.addressed number x (tree_at s.now.nodes.slots id.0) }
{
    let n = s.node(id);
    if !fits(n, x, number) {
        return false;
    }
    match successors(n) {
        NextNodes::None => true,
        NextNodes::One(k) => {
            all_addressed(s, k, clones_from(n, x), number)
                && (is_defined(n, x) || addressed(s, k, x, number))
        }
        NextNodes::Two(j, k) => addressed(s, j, x, number) && addressed(s, k, x, number),
    }
}

/// The same of some names.
#[cycle(accesses)]
pub fn all_addressed(s: &Ssu, id: NodeId, xs: &[u32], number: Option<u32>) -> bool
    requires { HasTree s.now.nodes.slots id.0 }
    ensures { result ≡ list_all (λ x. checks.addressed number x (tree_at s.now.nodes.slots id.0)) xs.now }
{
    for x in xs {
        if !addressed(s, id, *x, number) {
            return false;
        }
    }
    true
}
