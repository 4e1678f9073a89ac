//! The points of a form by their numbers, found without memory by walks from the labels. A number may
//! be past 2^64, as there are points for labels and for nodes.

ghost use Rattle.std.specs.Prelude.{◌≡◌, ◌≤◌, ◌+◌, ℕ, Bool, nat_le, nat_lt, length, Some, None, option_map, option_copied};
ghost use Rattle.nv_base.specs.Sets.{is_in};
ghost use Rattle.ssu_ir.specs.Points.{points, place_values, nodes};
ghost use Rattle.ssu_ir.specs.Slots.{node_of};
ghost use Rattle.ssu_ir.specs.View.{labels_view};
ghost use Rattle.ssu_ir.specs.inner.Under.{HasTree, tree_at};
ghost use Rattle.place_ir_checks.specs.declared.points.Under.TheVariants.{Here as IsHere, Past as IsPast};
ghost use Rattle.place_ir_checks.specs.declared.points.Way.TheVariants.{There as IsThere, Past as IsPassed};
ghost use Rattle.ssu_liveness.specs.declared.point_ids.PointId.{PointId as SpotView};
ghost use Rattle.place_ir_checks.specs.inner.Checks as checks;
ghost use Rattle.ssu_liveness.specs.inner.Live.{node_source, source_in};
ghost use Rattle.place_ir_checks.specs.inner.NodeLookups.{place_at, below_at, place_node, value_in, IsNodeAt, IsAboveAt, IsIdOfPointAt};

use ssu_ir::{NextNodes, NodeId, Ssu, SsuNode, successors, values};
use ssu_liveness::PointId;

/// What stands under a node at a distance: a node, or how far past its last node that is.
pub enum Under {
    Here(NodeId),
    Past(u128),
}

/// What is known of the way to a node at a distance, or how far past the last node that is.
pub enum Way {
    There(bool),
    Past(u128),
}

/// How many points there are.
pub fn count(s: &Ssu) -> u128
    ensures { result ≡ length (points (labels_view s.now)) }
{
    s.labels.len() as u128 + s.nodes.len() as u128
}

/// The node that stands `k` after another in preorder, among those under it.
pub fn node_under(s: &Ssu, id: NodeId, k: u128) -> Under
    requires { HasTree s.now.nodes.slots id.0 }
    ensures here { (x : NodeId) → result ≡ IsHere x → IsNodeAt s.now.nodes.slots (tree_at s.now.nodes.slots id.0) k x.0 }
    ensures past { (m : ℕ) → result ≡ IsPast m → k ≡ nodes (tree_at s.now.nodes.slots id.0) + m }
{
    if k == 0 {
        return Under::Here(id);
    }
    match successors(s.node(id)) {
        NextNodes::None => Under::Past(k - 1),
        NextNodes::One(j) => node_under(s, j, k - 1),
        NextNodes::Two(i, j) => match node_under(s, i, k - 1) {
            Under::Here(x) => Under::Here(x),
            Under::Past(m) => node_under(s, j, m),
        },
    }
}

/// Where the point of a number is.
pub fn point_id_at(s: &Ssu, k: u128) -> Option<PointId>
    ensures some { (x : SpotView) → result ≡ Some x → IsIdOfPointAt s.now k x }
    ensures none { result ≡ None → length (points (labels_view s.now)) ≤ k }
{
    let mut left = k;
    for l in 0..s.labels.len() {
        if left == 0 {
            return Some(PointId::Entry(l));
        }
        match node_under(s, s.labels[l].body, left - 1) {
            Under::Here(id) => return Some(PointId::Node(id)),
            Under::Past(m) => left = m,
        }
    }
    None
}

/// The node at a point that isn't an entry.
pub fn node_at(s: &Ssu, k: u128) -> Option<&SsuNode>
    ensures { option_map node_of (option_copied result) ≡ place_node (place_at (labels_view s.now) k) }
{
    match point_id_at(s, k) {
        Some(PointId::Entry(_)) => None,
        Some(PointId::Node(id)) => Some(s.node(id)),
        None => None,
    }
}

/// The values that are defined at a point.
pub fn values_at(s: &Ssu, k: u128) -> &[u32]
    ensures { result.now ≡ place_values (place_at (labels_view s.now) k) }
{
    match point_id_at(s, k) {
        Some(PointId::Entry(l)) => &s.labels[l].params,
        Some(PointId::Node(id)) => values(s.node(id)),
        None => &[],
    }
}

/// Whether at least so many points lie below a point.
pub fn reaches(s: &Ssu, k: u128, d: u128) -> bool
    ensures { result ≡ nat_le d (below_at (labels_view s.now) k) }
{
    match point_id_at(s, k) {
        Some(PointId::Entry(l)) => d == 0 || is_under(s, s.labels[l].body, d - 1),
        Some(PointId::Node(id)) => is_under(s, id, d),
        None => d == 0,
    }
}

/// Whether a node stands so far after another in preorder, among those under it.
fn is_under(s: &Ssu, id: NodeId, d: u128) -> bool
    requires { HasTree s.now.nodes.slots id.0 }
    ensures { result ≡ nat_lt d (nodes (tree_at s.now.nodes.slots id.0)) }
{
    match node_under(s, id, d) {
        Under::Here(_) => true,
        Under::Past(_) => false,
    }
}

/// Whether a value is defined above a point.
pub fn is_above(s: &Ssu, k: u128, x: u32) -> bool
    ensures { result ≡ checks.is_above (labels_view s.now) k x }
{
    let mut left = k;
    for l in 0..s.labels.len() {
        if left == 0 {
            return false;
        }
        match way_to(s, s.labels[l].body, left - 1, x) {
            Way::There(below) => return has(&s.labels[l].params, x) || below,
            Way::Past(m) => left = m,
        }
    }
    false
}

/// Whether a value is defined on the way from a node to the one that stands `k` after it.
fn way_to(s: &Ssu, id: NodeId, k: u128, x: u32) -> Way
    requires { HasTree s.now.nodes.slots id.0 }
    ensures there { (test : Bool) → result ≡ IsThere test → IsAboveAt (tree_at s.now.nodes.slots id.0) k x test }
    ensures past { (m : ℕ) → result ≡ IsPassed m → k ≡ nodes (tree_at s.now.nodes.slots id.0) + m }
{
    if k == 0 {
        return Way::There(false);
    }
    let n = s.node(id);
    match successors(n) {
        NextNodes::None => Way::Past(k - 1),
        NextNodes::One(j) => match way_to(s, j, k - 1, x) {
            Way::There(below) => Way::There(has(values(n), x) || below),
            Way::Past(m) => Way::Past(m),
        },
        NextNodes::Two(i, j) => match way_to(s, i, k - 1, x) {
            Way::There(below) => Way::There(below),
            Way::Past(m) => way_to(s, j, m, x),
        },
    }
}

/// Whether a name is in a list.
pub fn has(xs: &[u32], x: u32) -> bool
    ensures { result ≡ is_in x xs.now }
{
    xs.contains(&x)
}

/// The value of which a node makes a name a clone.
fn source_at(n: &SsuNode, z: u32) -> Option<u32>
    ensures { result ≡ node_source (node_of n.now) z }
{
    if let SsuNode::Clone(xs, y, _) = n {
        if has(xs, z) {
            return Some(*y);
        }
    }
    None
}

/// The value of which a tree makes a name a clone.
fn source_under(s: &Ssu, id: NodeId, z: u32) -> Option<u32>
    requires { HasTree s.now.nodes.slots id.0 }
    ensures { result ≡ source_in (tree_at s.now.nodes.slots id.0) z }
{
    let n = s.node(id);
    if let Some(y) = source_at(n, z) {
        return Some(y);
    }
    match successors(n) {
        NextNodes::None => None,
        NextNodes::One(j) => source_under(s, j, z),
        NextNodes::Two(i, j) => match source_under(s, i, z) {
            Some(y) => Some(y),
            None => source_under(s, j, z),
        },
    }
}

/// The value whose copy a name is.
pub fn value_of(s: &Ssu, z: u32) -> u32
    ensures { result ≡ value_in (labels_view s.now) z }
{
    for l in &s.labels {
        if let Some(y) = source_under(s, l.body, z) {
            return y;
        }
    }
    z
}
