// How much room a run needs.

ghost use Rattle.std.specs.Prelude.{◌<◌, ◌≤◌, All, length};
ghost use Rattle.ssu_ir.specs.Slots.{node_of};
ghost use Rattle.ssu_ir.specs.inner.Checks.{node_defs};
ghost use Rattle.ssu_ir.specs.inner.Running.{NodesHavePlaces};

use crate::node::SsuNode;
use crate::pieces::{clones, values};
use crate::ssu::Ssu;

// Above this number, and no less than `least`.
fn past(x: u32, least: usize) -> usize
    ensures above { x < result }
    ensures least { least ≤ result }
{
    if x as usize >= least {
        x as usize + 1
    } else {
        least
    }
}

// One more than the greatest of these numbers, and no less than `least`.
fn above(xs: &[u32], least: usize) -> usize
    ensures items { All (λ x. x < result) xs.now }
    ensures least { least ≤ result }
{
    let mut most = least;
    for x in xs {
        most = past(*x, most);
    }
    most
}

// One more than the greatest parameter.
fn params_end(s: &Ssu) -> usize
    ensures { All (λ l. All (λ x. x < result) l.params.items) s.now.labels.items }
{
    let mut most = 0;
    for l in &s.labels {
        most = above(&l.params, most);
    }
    most
}

// One more than the greatest variable that this node defines, and no less than `least`.
fn node_end(n: &SsuNode, least: usize) -> usize
    ensures defined { All (λ x. x < result) (node_defs (node_of n.now)) }
    ensures least { least ≤ result }
{
    let most = above(values(n), least);
    above(clones(n), most)
}

// One more than the greatest variable that a node defines, and no less than `least`.
fn nodes_end(s: &Ssu, least: usize) -> usize
    ensures nodes { NodesHavePlaces result s.now.nodes.slots }
    ensures least { least ≤ result }
{
    let mut most = least;
    for (_, n) in s.nodes.iter() {
        most = node_end(n, most);
    }
    most
}

/// One more than the greatest variable.
pub fn places(s: &Ssu) -> usize
    ensures nodes { NodesHavePlaces result s.now.nodes.slots }
    ensures params { All (λ l. All (λ x. x < result) l.params.items) s.now.labels.items }
{
    nodes_end(s, params_end(s))
}

/// The most parameters that a label has, and no less than 8.
pub fn room(s: &Ssu) -> usize
    ensures eight { 8 ≤ result }
    ensures params { All (λ l. length l.params.items ≤ result) s.now.labels.items }
{
    let mut most = 8;
    for l in &s.labels {
        if most < l.params.len() {
            most = l.params.len();
        }
    }
    most
}
