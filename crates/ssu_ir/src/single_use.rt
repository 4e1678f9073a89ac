// The test of single use. It takes no memory: each rule is tested name by name, by a walk down the tree
// below where the name stands.

ghost use Rattle.std.specs.Prelude.{◌≡◌, ◌≢◌, ◌+◌, ◌&&◌, ◌||◌, ◌==◌, nat_lt, nat_le, ◌/◌, ◌%◌, min, not, slice_get};
ghost use Rattle.std.specs.List.{list_all};
ghost use Rattle.nv_base.specs.Access as access;
ghost use Rattle.nv_base.specs.Sets.{is_in, all_different};
ghost use Rattle.ssu_ir.specs.Single as rules;
ghost use Rattle.ssu_ir.specs.Single.{names, defined, all_defined};
ghost use Rattle.ssu_ir.specs.Slots.{node_of, bodies};
ghost use Rattle.ssu_ir.specs.View.{labels_view};
ghost use Rattle.ssu_ir.specs.inner.Checks as checks;
ghost use Rattle.ssu_ir.specs.inner.Checks.{node_names, node_defs, node_fresh, times_in};
ghost use Rattle.ssu_ir.specs.inner.Under.{HasTree, AllHave, tree_at, label_of};

use crate::node::{NodeId, SsuLabel, SsuNode};
use crate::pieces::{
    NextNodes, clones, fresh_below, number, operands, results, successors, values,
};
use crate::search::{
    addressed, all_addressed, copy_used, has, is_free, mentions, times, times_defined,
};
use crate::ssu::Ssu;
use nv_base::{Mem, Una};

/// Whether labels are in single-use form: each variable is defined once and used at most once on each
/// path, and the rules on clones, literals, accesses, jumps and ends hold.
#[tactic(none)]
pub fn single(s: &Ssu) -> bool
    ensures { result ≡ rules.single (labels_view s.now) }
{
    has_entry(s) && all_labels_kept(s)
}

// Whether label 0 is there, with at most 8 parameters.
#[tactic(none)]
fn has_entry(s: &Ssu) -> bool
    ensures { result ≡ rules.is_entry (slice_get (labels_view s.now) 0) }
{
    match s.labels.first() {
        Some(l) => l.params.len() <= 8,
        None => false,
    }
}

// Whether a label is there and has so many parameters.
fn takes(s: &Ssu, l: u32, n: usize) -> bool
    ensures { result ≡ rules.takes_as_many n (slice_get (labels_view s.now) l) }
{
    match s.labels.get(l as usize) {
        Some(l) => l.params.len() == n,
        None => false,
    }
}

fn all_labels_kept(s: &Ssu) -> bool
    requires { AllHave s.now.nodes.slots (bodies s.now.labels.items) }
    ensures { result ≡ list_all (checks.label_kept (labels_view s.now)) (labels_view s.now) }
{
    for l in &s.labels {
        if !label_kept(s, l) {
            return false;
        }
    }
    true
}

#[tactic(none)]
fn label_kept(s: &Ssu, l: &SsuLabel) -> bool
    requires all { AllHave s.now.nodes.slots (bodies s.now.labels.items) }
    requires body { HasTree s.now.nodes.slots l.now.body.0 }
    ensures { result ≡ checks.label_kept (labels_view s.now) (label_of s.now.nodes.slots l.now) }
{
    all_once(s, &l.params) && is_kept(s, l, l.body, &l.params)
}

// Whether the tests hold of the tree under a number of this label, where the values of `fresh` may be
// cloned first.
#[tactic(none)]
fn is_kept(s: &Ssu, l: &SsuLabel, id: NodeId, fresh: &[u32]) -> bool
    requires all { AllHave s.now.nodes.slots (bodies s.now.labels.items) }
    requires body { HasTree s.now.nodes.slots l.now.body.0 }
    requires tree { HasTree s.now.nodes.slots id.0 }
    ensures { result ≡ checks.is_kept (labels_view s.now) (checks.is_bound l.now.params.items (tree_at s.now.nodes.slots l.now.body.0)) fresh.now (tree_at s.now.nodes.slots id.0) }
{
    let n = s.node(id);
    if !node_alone(s, l, n) {
        return false;
    }
    match successors(n) {
        NextNodes::None => true,
        NextNodes::One(k) => {
            if !operands_new(s, n, k) {
                return false;
            }
            if !defs_kept(s, n, k, fresh) {
                return false;
            }
            is_kept(s, l, k, fresh_below(n, fresh))
        }
        NextNodes::Two(j, k) => {
            if !operands_new(s, n, j) {
                return false;
            }
            if !operands_new(s, n, k) {
                return false;
            }
            if !is_kept(s, l, j, &[]) {
                return false;
            }
            is_kept(s, l, k, &[])
        }
    }
}

// The tests of a node for which nothing after it is wanted.
#[tactic(none)]
fn node_alone(s: &Ssu, l: &SsuLabel, n: &SsuNode) -> bool
    requires { HasTree s.now.nodes.slots l.now.body.0 }
    ensures { result ≡ checks.node_alone (labels_view s.now) (checks.is_bound l.now.params.items (tree_at s.now.nodes.slots l.now.body.0)) (node_of n.now) }
{
    if !is_node(s, n) {
        return false;
    }
    if !operands_differ(n) {
        return false;
    }
    operands_bound(s, l, n)
}

// ---- what a node defines

// Whether the tests hold of what a node defines, before the tree under `k`.
#[tactic(none)]
fn defs_kept(s: &Ssu, n: &SsuNode, k: NodeId, fresh: &[u32]) -> bool
    requires all { AllHave s.now.nodes.slots (bodies s.now.labels.items) }
    requires tree { HasTree s.now.nodes.slots k.0 }
    ensures { result ≡ checks.defs_kept (labels_view s.now) fresh.now (node_of n.now) (tree_at s.now.nodes.slots k.0) }
{
    if !defs_once(s, n) {
        return false;
    }
    if !is_fresh(n, fresh) {
        return false;
    }
    if !all_used(s, k, results(n)) {
        return false;
    }
    all_addressed(s, k, values(n), number(n))
}

#[tactic(none)]
fn defs_once(s: &Ssu, n: &SsuNode) -> bool
    requires { AllHave s.now.nodes.slots (bodies s.now.labels.items) }
    ensures { result ≡ list_all (checks.is_once (labels_view s.now)) (node_defs (node_of n.now)) }
{
    all_once(s, values(n)) && all_once(s, clones(n))
}

// Whether the source of a `Clone` may be cloned here.
fn is_fresh(n: &SsuNode, fresh: &[u32]) -> bool
    ensures { result ≡ node_fresh fresh.now (node_of n.now) }
{
    match n {
        SsuNode::Lit(_, _, _) => true,
        SsuNode::Una(_, _, _, _) => true,
        SsuNode::Bin(_, _, _, _, _) => true,
        SsuNode::Clone(_, y, _) => has(fresh, *y),
        SsuNode::Read(_, _, _, _) => true,
        SsuNode::Write(_, _, _, _) => true,
        SsuNode::If(_, _, _, _, _) => true,
        SsuNode::Jump(_, _) => true,
        SsuNode::Halt(_, _) => true,
    }
}

// Whether some copy of each is used.
fn all_used(s: &Ssu, k: NodeId, xs: &[u32]) -> bool
    requires { HasTree s.now.nodes.slots k.0 }
    ensures { result ≡ list_all (λ x. checks.copy_used x (tree_at s.now.nodes.slots k.0)) xs.now }
{
    for x in xs {
        if !copy_used(s, k, *x) {
            return false;
        }
    }
    true
}

fn all_once(s: &Ssu, xs: &[u32]) -> bool
    requires { AllHave s.now.nodes.slots (bodies s.now.labels.items) }
    ensures { result ≡ list_all (checks.is_once (labels_view s.now)) xs.now }
{
    for x in xs {
        if !is_once(s, *x) {
            return false;
        }
    }
    true
}

// Whether the variable is defined once in all labels.
fn is_once(s: &Ssu, x: u32) -> bool
    requires { AllHave s.now.nodes.slots (bodies s.now.labels.items) }
    ensures { result ≡ checks.is_once (labels_view s.now) x }
{
    times_in_all(s, x) == 1
}

// How often it is defined, at most 255.
fn times_in_all(s: &Ssu, x: u32) -> u8
    requires { AllHave s.now.nodes.slots (bodies s.now.labels.items) }
    ensures { result ≡ min 255 (times_in x (all_defined (labels_view s.now))) }
{
    let mut n: u8 = 0;
    for l in &s.labels {
        n = n.saturating_add(times_in_label(s, l, x));
    }
    n
}

#[tactic(none)]
fn times_in_label(s: &Ssu, l: &SsuLabel, x: u32) -> u8
    requires { HasTree s.now.nodes.slots l.now.body.0 }
    ensures { result ≡ min 255 (times_in x l.now.params.items + times_in x (defined (tree_at s.now.nodes.slots l.now.body.0))) }
{
    let in_params = times(&l.params, x);
    let in_body = times_defined(s, l.body, x);
    in_params.saturating_add(in_body)
}

// ---- what a node uses

#[tactic(none)]
fn operands_differ(n: &SsuNode) -> bool
    ensures { result ≡ all_different (node_names (node_of n.now)) }
{
    let (front, rest) = operands(n);
    if !differ(front) {
        return false;
    }
    if !differ(rest) {
        return false;
    }
    none_in(front, rest)
}

fn differ(xs: &[u32]) -> bool
    ensures { result ≡ all_different xs.now }
{
    for (i, x) in xs.iter().enumerate() {
        if has(&xs[i + 1..], *x) {
            return false;
        }
    }
    true
}

fn none_in(xs: &[u32], others: &[u32]) -> bool
    ensures { result ≡ list_all (λ x. not (is_in x others.now)) xs.now }
{
    for x in xs {
        if has(others, *x) {
            return false;
        }
    }
    true
}

// Whether the tree under `k` uses none of them.
#[tactic(none)]
fn operands_new(s: &Ssu, n: &SsuNode, k: NodeId) -> bool
    requires { HasTree s.now.nodes.slots k.0 }
    ensures { result ≡ list_all (λ x. not (is_in x (names (tree_at s.now.nodes.slots k.0)))) (node_names (node_of n.now)) }
{
    let (front, rest) = operands(n);
    none_mentioned(s, k, front) && none_mentioned(s, k, rest)
}

fn none_mentioned(s: &Ssu, k: NodeId, xs: &[u32]) -> bool
    requires { HasTree s.now.nodes.slots k.0 }
    ensures { result ≡ list_all (λ x. not (is_in x (names (tree_at s.now.nodes.slots k.0)))) xs.now }
{
    for x in xs {
        if mentions(s, k, *x) {
            return false;
        }
    }
    true
}

// Whether each is a parameter or defined above, and no scratch is addressed by one that isn't.
#[tactic(none)]
fn operands_bound(s: &Ssu, l: &SsuLabel, n: &SsuNode) -> bool
    requires { HasTree s.now.nodes.slots l.now.body.0 }
    ensures { result ≡ list_all (checks.is_bound l.now.params.items (tree_at s.now.nodes.slots l.now.body.0)) (node_names (node_of n.now)) }
{
    let (front, rest) = operands(n);
    all_bound(s, l, front) && all_bound(s, l, rest)
}

fn all_bound(s: &Ssu, l: &SsuLabel, xs: &[u32]) -> bool
    requires { HasTree s.now.nodes.slots l.now.body.0 }
    ensures { result ≡ list_all (checks.is_bound l.now.params.items (tree_at s.now.nodes.slots l.now.body.0)) xs.now }
{
    for x in xs {
        if !is_bound(s, l, *x) {
            return false;
        }
    }
    true
}

#[tactic(none)]
fn is_bound(s: &Ssu, l: &SsuLabel, x: u32) -> bool
    requires { HasTree s.now.nodes.slots l.now.body.0 }
    ensures { result ≡ checks.is_bound l.now.params.items (tree_at s.now.nodes.slots l.now.body.0) x }
{
    is_known(s, l, x) && addressed(s, l.body, x, None)
}

// Whether it is a parameter or isn't free in the body.
#[tactic(none)]
fn is_known(s: &Ssu, l: &SsuLabel, x: u32) -> bool
    requires { HasTree s.now.nodes.slots l.now.body.0 }
    ensures { result ≡ (is_in x l.now.params.items || not (checks.is_free x (tree_at s.now.nodes.slots l.now.body.0))) }
{
    has(&l.params, x) || !is_free(s, l.body, x)
}

// ---- nodes by themselves

// Whether a literal is narrow, a count, an access or an end within its bounds, and a jump's label there.
fn is_node(s: &Ssu, n: &SsuNode) -> bool
    ensures { result ≡ checks.is_node (labels_view s.now) (node_of n.now) }
{
    match n {
        SsuNode::Lit(_, v, _) => is_narrow(*v),
        SsuNode::Una(_, op, _, _) => has_count(*op),
        SsuNode::Bin(_, _, _, _, _) => true,
        SsuNode::Clone(_, _, _) => true,
        SsuNode::Read(m, xs, _, _) => can_move(*m, xs.len()),
        SsuNode::Write(m, _, xs, _) => can_move(*m, xs.len()),
        SsuNode::If(_, _, _, _, _) => true,
        SsuNode::Jump(l, xs) => is_jump(s, *l, xs.len()),
        SsuNode::Halt(_, xs) => xs.len() <= 8,
    }
}

fn is_jump(s: &Ssu, l: u32, n: usize) -> bool
    ensures { result ≡ (nat_le 1 l && rules.takes_as_many n (slice_get (labels_view s.now) l)) }
{
    l >= 1 && takes(s, l, n)
}

fn is_narrow(v: u32) -> bool
    ensures { result ≡ rules.is_narrow v }
{
    is_shifted(v, 1) || is_shifted(v, 256) || is_shifted(v, 65536)
}

// Whether a number below 2^16 times `k` is `v`.
fn is_shifted(v: u32, k: u32) -> bool
    requires { k ≢ 0 }
    ensures { result ≡ ((v % k == 0) && nat_lt (v / k) 65536) }
{
    v % k == 0 && v / k < 65536
}

fn has_count(op: Una) -> bool
    ensures { result ≡ access.has_count op }
{
    match op {
        Una::Not => true,
        Una::Shl(k) => 1 <= k && k <= 31,
        Una::Shr(k) => 1 <= k && k <= 31,
        Una::Rol(k) => 1 <= k && k <= 31,
    }
}

fn can_move(m: Mem, n: usize) -> bool
    ensures { result ≡ access.can_move m n }
{
    match m {
        Mem::Sram => 1 <= n && n <= 8,
        Mem::Sdram => n == 2 || n == 4 || n == 6 || n == 8,
        Mem::Scratch => 1 <= n && n <= 8,
    }
}
